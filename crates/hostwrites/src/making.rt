// A writer made: its fresh state as an image.
ghost use Rattle.std.specs.Prelude.{◌≡◌};
ghost use Rattle.calls.specs.Making.{made, makes_writer};

use writer::state;
use writerimages::writer_image;

pub fn make_writer(system: u8, mode: u8, state: &mut [u8]) -> u32
    ensures { made result state.new ≡ makes_writer system mode state.old }
{
    if state.len() != 80 {
        return 1;
    }
    writer_image::put_image(state::fresh_writer(system, mode), state);
    0
}
