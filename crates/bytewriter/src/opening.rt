// A line opened, lent as bytes: all its words are written, so none is converted before.
ghost use Rattle.std.specs.Prelude.{◌≡◌};
ghost use Rattle.writer.specs.Answers.{left};
ghost use Rattle.bytewriter.specs.Bytewise.{open_bytes};
ghost use Rattle.bytewriter.specs.Laid.{done_in};

use crate::lent;
use line::settings::Settings;
use lines::opening::Reply;
use writer::state::{Answer, Writer};

// n where the call was done, and 0 where it was refused.
pub(crate) fn done_in(answer: Answer, n: usize) -> usize
    ensures { result ≡ done_in answer n }
{
    match answer {
        Answer::Refused(_) => 0,
        Answer::Done => n,
    }
}

// Opens a line.
pub fn open_line(w: Writer, f: bool, v: bool, n: u16, t: Settings, line: &mut [u8]) -> Reply
    ensures { left result.answer result.state line.new ≡ open_bytes w f v n t line.old }
{
    if !lent::is_lent(line) {
        return Reply {
            answer: Answer::Refused(1),
            state: w,
        };
    }
    let long = line.len() / 2;
    let mut words = [0u16; 2304];
    let r = lines::opening::open_line(w, f, v, n, t, &mut words[..long]);
    let laid = done_in(r.answer, long);
    lent::give_back(&words[..long], 0, 0, laid, line);
    r
}
