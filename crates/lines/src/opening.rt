// Opening a line: all its words are written, the payload all 200h.
ghost use Rattle.std.specs.Prelude.{◌≡◌, ◌+◌, ◌≤◌, length};
ghost use Rattle.line.specs.Systems.{system_of};
ghost use Rattle.writer.specs.State.{open_state};
ghost use Rattle.writer.specs.Answers.{answer_numbers, left};
ghost use Rattle.writer.specs.Numbers.{answers_by};
ghost use Rattle.writer.specs.Opening.{is_next, open_blocked, open_fault, open_words, opening};

use crate::fill;
use line::settings::Settings;
use line::{check, settings, systems};
use sums::crc;
use writer::state;
use writer::state::{Answer, Writer};

// What opening and closing leave beside the line.
#[derive(Clone, Copy)]
pub struct Reply {
    pub answer: Answer,
    pub state: Writer,
}

// The number comes next; with no last number none does.
fn is_next(lines: u16, last: Option<u16>, n: u16) -> bool
    ensures { result ≡ is_next lines last n }
{
    matches!(last, Some(x) if n == course::next_number(lines, x))
}

// Line open already, or unfinished block and a changed setting or a number that isn't next.
fn is_blocked(w: Writer, n: u16, t: Settings) -> bool
    ensures { result ≡ open_blocked w n t }
{
    let s = systems::system_of(w.system);
    let other = !settings::same_settings(t, w.settings) | !is_next(s.lines, w.last, n);
    course::is_at(w.place) | (state::is_part(w.rest) & other)
}

// The lowest number whose condition holds, or 0: from the last condition to the first.
fn open_fault(w: Writer, n: u16, t: Settings, long: usize) -> u8
    ensures { result ≡ open_fault w n t long }
{
    let s = systems::system_of(w.system);
    let fault = settings::settings_fault(w.system, t);
    let r20 = lists::or_else(is_blocked(w, n, t), 20, 0);
    let r10 = lists::or_next(fault, r20);
    let r9 = lists::or_else(!((1 <= n) & (n <= s.lines)), 9, r10);
    let r2 = lists::or_else(state::is_impossible(w), 2, r9);
    lists::or_else(!check::is_fit(w.system, w.mode, long), 1, r2)
}

// The whole line: EAV, the header, the gap, SAV and the payload.
fn put_line(system: u8, f: bool, v: bool, n: u16, t: Settings, out: &mut [u16])
    requires { ((system_of system).payload + 61 ≤ (system_of system).length) × (length out.old ≡ (system_of system).length) }
    ensures { out.new ≡ open_words system f v n t }
{
    let s = systems::system_of(system);
    let (eav, behind) = out.split_at_mut(4);
    eav.copy_from_slice(&line::timing::timing_words(f, v, true));
    let (header, behind) = behind.split_at_mut(53);
    header.copy_from_slice(&line::header::header_words(n, t));
    let (gap, behind) = behind.split_at_mut(s.length - s.payload - 61);
    fill::put_gap(57, gap);
    let (sav, payload) = behind.split_at_mut(4);
    sav.copy_from_slice(&line::timing::timing_words(f, v, false));
    payload.fill(0x200);
}

// The state of an opened line, at its first word, none laid and none of the gap used.
fn opened(w: Writer, n: u16, t: Settings) -> Writer
    ensures { result ≡ open_state w n t }
{
    Writer {
        last: Some(n),
        settings: t,
        place: Some(0),
        crc: crc::CRC_START,
        used: 0,
        ..w
    }
}

// Opens a line; and the numbers of its answer, by the fault.
pub fn open_line(w: Writer, f: bool, v: bool, n: u16, t: Settings, line: &mut [u16]) -> Reply
    ensures { (left result.answer result.state line.new ≡ opening w f v n t line.old)
        × (answer_numbers result.answer ≡ answers_by (open_fault w n t (length line.old))) }
{
    let fault = open_fault(w, n, t, line.len());
    if fault != 0 {
        return Reply {
            answer: Answer::Refused(fault),
            state: w,
        };
    }
    put_line(w.system, f, v, n, t, line);
    Reply {
        answer: Answer::Done,
        state: opened(w, n, t),
    }
}
