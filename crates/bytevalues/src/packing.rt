// A packet added in the gap, its words lent as bytes.
ghost use Rattle.std.specs.Prelude.{◌≡◌};
ghost use Rattle.octets.specs.Bytes.{words_of};
ghost use Rattle.writer.specs.Answers.{left};
ghost use Rattle.writer.specs.Packing.{packing};

use crate::values;
use lines::opening::Reply;
use writer::state::Writer;

// The writer's packet, with words lent as bytes: as many as may be have room, and one more.
pub fn pack_valued(w: Writer, did: u8, second: u8, values: &[u8], line: &mut [u16]) -> Reply
    ensures { left result.answer result.state line.new ≡ packing w line.old did second (words_of values.now) }
{
    let mut vs = [0u16; 256];
    let n = values::take_in(512, values, &mut vs);
    lines::packing::add_packet(w, did, second, &vs[..n], line)
}
