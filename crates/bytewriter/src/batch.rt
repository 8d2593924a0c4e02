// Many blocks in one call, the list and the line lent as bytes.
ghost use Rattle.std.specs.Prelude.{◌≡◌};
ghost use Rattle.writer.specs.Batch.{batched};
ghost use Rattle.bytewriter.specs.Bytewise.{many_bytes};

use crate::{adding, lent};
use writer::batch::{Batch, Stop};
use writer::state::Writer;

// Adds the blocks of the list, until one is refused or unfinished.
pub fn add_blocks(w: Writer, blocks: &[u8], line: &mut [u8]) -> Batch
    ensures { batched result.finished result.stop result.state line.new ≡ many_bytes w line.old blocks.now }
{
    if !lent::is_lent(line) | !octets::is_even(blocks) {
        return Batch {
            finished: 0,
            stop: Stop::Refused(1),
            state: w,
        };
    }
    let long = line.len() / 2;
    let mut words = [0u16; 2304];
    let r = bytevalues::batch::add_listed(w, blocks, &mut words[..long]);
    let start = adding::payload_at(w.system);
    lent::give_back(
        &words[..long],
        start,
        course::place_of(w.place),
        course::place_of(r.state.place),
        line,
    );
    r
}
