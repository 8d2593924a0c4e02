// A reader made: its fresh state as an image.
ghost use Rattle.std.specs.Prelude.{◌≡◌};
ghost use Rattle.calls.specs.Making.{made, makes_reader};

use images::reader_image;
use reader::state;

pub fn make_reader(system: u8, mode: u8, state: &mut [u8]) -> u32
    ensures { made result state.new ≡ makes_reader system mode state.old }
{
    if state.len() != 80 {
        return 1;
    }
    reader_image::put_image(state::fresh_reader(system, mode), state);
    0
}
