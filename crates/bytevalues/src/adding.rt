// A block added, its values lent as bytes.
ghost use Rattle.std.specs.Prelude.{◌≡◌};
ghost use Rattle.octets.specs.Bytes.{words_of};
ghost use Rattle.writer.specs.Answers.{added};
ghost use Rattle.writer.specs.Adding.{adding};

use crate::values;
use writer::adding::Addition;
use writer::state::Writer;

// The writer's addition, with values lent as bytes. Nearly every block has few, so that a short array does.
pub fn add_valued(w: Writer, kind: u16, values: &[u8], line: &mut [u16]) -> Addition
    ensures { added result.answer result.state line.new ≡ adding w line.old kind (words_of values.now) }
{
    let limit = words::forms::values_of(w.mode);
    if values.len() <= 1025 {
        let mut few = [0u16; 512];
        let n = values::take_in(limit, values, &mut few);
        return writer::adding::add_block(w, kind, &few[..n], line);
    }
    let mut many = [0u16; 16385];
    let n = values::take_in(limit, values, &mut many);
    writer::adding::add_block(w, kind, &many[..n], line)
}
