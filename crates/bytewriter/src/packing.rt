// A packet added in the gap, its words and the line lent as bytes.
ghost use Rattle.std.specs.Prelude.{◌≡◌};
ghost use Rattle.writer.specs.Answers.{left};
ghost use Rattle.bytewriter.specs.Bytewise.{pack_bytes};

use crate::lent;
use lines::opening::Reply;
use writer::state::{Answer, Writer};

// Adds a packet.
pub fn add_packet(w: Writer, did: u8, second: u8, values: &[u8], line: &mut [u8]) -> Reply
    ensures { left result.answer result.state line.new ≡ pack_bytes w line.old did second values.now }
{
    if !lent::is_lent(line) | !octets::is_even(values) {
        return Reply {
            answer: Answer::Refused(1),
            state: w,
        };
    }
    let long = line.len() / 2;
    let mut words = [0u16; 2304];
    let r = bytevalues::packing::pack_valued(w, did, second, values, &mut words[..long]);
    lent::give_back(
        &words[..long],
        57,
        w.used as usize,
        r.state.used as usize,
        line,
    );
    r
}
