// A line closed, lent as bytes: with flag 01h its last two words are written, else none.
ghost use Rattle.std.specs.Prelude.{◌≡◌, eqb};
ghost use Rattle.lists.specs.Tests.{pick};
ghost use Rattle.writer.specs.Answers.{left};
ghost use Rattle.bytewriter.specs.Bytewise.{close_bytes};

use crate::{lent, opening};
use lines::opening::Reply;
use writer::state::{Answer, Writer};

// How many words stand behind the area: the CRC's two with flag 01h, else none.
fn behind_area(flag: u8) -> usize
    ensures { result ≡ pick (eqb flag 1) 2 0 }
{
    if flag == 1 { 2 } else { 0 }
}

// Closes the line.
pub fn close_line(w: Writer, line: &mut [u8]) -> Reply
    ensures { left result.answer result.state line.new ≡ close_bytes w line.old }
{
    if !lent::is_lent(line) {
        return Reply {
            answer: Answer::Refused(1),
            state: w,
        };
    }
    let long = line.len() / 2;
    let mut words = [0u16; 2304];
    let r = lines::closing::close_line(w, &mut words[..long]);
    let k = behind_area(w.settings.flag);
    let start = long.saturating_sub(k);
    lent::give_back(
        &words[..long],
        start,
        0,
        opening::done_in(r.answer, k),
        line,
    );
    r
}
