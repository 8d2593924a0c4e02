// Adding a packet: its words are laid in the open line's gap, behind those that stand there.
ghost use Rattle.std.specs.Prelude.{◌≡◌, length};
ghost use Rattle.writer.specs.State.{used_to};
ghost use Rattle.writer.specs.Answers.{answer_numbers, left};
ghost use Rattle.writer.specs.Numbers.{answers_by};
ghost use Rattle.writer.specs.Packing.{pack_fault, packing};

use crate::opening::Reply;
use line::check;
use packets::{list, packet};
use writer::state;
use writer::state::{Answer, Writer};

// The lowest number whose condition holds, or 0.
fn pack_fault(w: Writer, long: usize, values: &[u16]) -> u8
    ensures { result ≡ pack_fault w long values.now }
{
    let n = values.len();
    if !check::is_fit(w.system, w.mode, long) {
        return 1;
    }
    if state::is_impossible(w) {
        return 2;
    }
    if !blocks::values::all_below(512, values) {
        return 17;
    }
    if 255 < n {
        return 18;
    }
    let end = usize::from(w.used) + (n + 7);
    let r24 = lists::or_else(list::gap_length(w.system) < end, 24, 0);
    lists::or_else(!course::is_at(w.place), 20, r24)
}

// The state with more words of the gap used.
fn used_to(w: Writer, used: u16) -> Writer
    ensures { result ≡ used_to w used }
{
    Writer { used, ..w }
}

// Adds a packet; and the numbers of its answer, by the fault.
pub fn add_packet(w: Writer, did: u8, second: u8, values: &[u16], line: &mut [u16]) -> Reply
    ensures { (left result.answer result.state line.new ≡ packing w line.old did second values.now)
        × (answer_numbers result.answer ≡ answers_by (pack_fault w (length line.old) values.now)) }
{
    let fault = pack_fault(w, line.len(), values);
    if fault != 0 {
        return Reply {
            answer: Answer::Refused(fault),
            state: w,
        };
    }
    let k = values.len() + 7;
    let a = 57 + w.used as usize;
    packet::lay(did, second, values, &mut line[a..a + k]);
    Reply {
        answer: Answer::Done,
        state: used_to(w, (w.used as usize + k) as u16),
    }
}
