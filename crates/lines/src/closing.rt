// Closing a line: with flag 01h the CRC is taken on over the filler left and written behind the area, with 00h nothing. No word of the line
// is looked at.
ghost use Rattle.std.specs.Prelude.{◌≡◌, ◌+◌, ◌≤◌, length};
ghost use Rattle.writer.specs.Answers.{answer_numbers, left};
ghost use Rattle.writer.specs.Numbers.{answers_by};
ghost use Rattle.writer.specs.Closing.{close_fault, sealed, closing};

use crate::opening::Reply;
use line::systems::System;
use line::{check, systems};
use sums::crc;
use writer::state::{Answer, Writer};
use writer::{adding, state};

// The lowest number whose condition holds, or 0: from the last condition to the first.
fn close_fault(w: Writer, long: usize) -> u8
    ensures { result ≡ close_fault w long }
{
    let left = state::is_part(w.rest) & !adding::is_full(state::end_in(w), w.place);
    let r20 = lists::or_else(!course::is_at(w.place) | left, 20, 0);
    let r2 = lists::or_else(state::is_impossible(w), 2, r20);
    lists::or_else(!check::is_fit(w.system, w.mode, long), 1, r2)
}

// If the flag is 01h: the CRC c taken on over the area's filler from the place on, into the last two words.
fn seal(s: System, flag: u8, place: usize, c: u32, line: &mut [u16])
    requires { (s.payload + 61 ≤ s.length) × (2 ≤ s.payload) × (s.length ≡ length line.old) }
    ensures { line.new ≡ sealed s flag place c line.old }
{
    if flag == 1 {
        let left = (s.payload - 2).saturating_sub(place);
        let (_, last) = line.split_at_mut(s.length - 2);
        last.copy_from_slice(&crc::crc_words(crc::crc_filler(c, left)));
    }
}

// Closes the line; and the numbers of its answer, by the fault.
pub fn close_line(w: Writer, line: &mut [u16]) -> Reply
    ensures { (left result.answer result.state line.new ≡ closing w line.old)
        × (answer_numbers result.answer ≡ answers_by (close_fault w (length line.old))) }
{
    let fault = close_fault(w, line.len());
    if fault != 0 {
        return Reply {
            answer: Answer::Refused(fault),
            state: w,
        };
    }
    let s = systems::system_of(w.system);
    seal(s, w.settings.flag, course::place_of(w.place), w.crc, line);
    Reply {
        answer: Answer::Done,
        state: state::moved(w, None, w.rest, crc::CRC_START),
    }
}
