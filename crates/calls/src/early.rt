// 1 and 2 of a call, asked before it: of a writer's call, so that a refused one writes nothing; of a reading call only where the bytes are no image.
ghost use Rattle.std.specs.Prelude.{◌≡◌};
ghost use Rattle.bytereader.specs.Bytewise.{bytes_fault};
ghost use Rattle.calls.specs.Early.{write_early, early_by};

use line::check;
use reader::state as reader_state;
use reader::state::Reader;
use writer::state as writer_state;
use writer::state::Writer;

// Of a reading call on a line and a room of so many bytes.
#[tactic(auto, unfolding(bytereader::specs::Bytewise::bytes_fault, reader::specs::Reading::read_fault_in, lists::specs::Tests::pick))]
pub fn read_early(st: Reader, line: usize, room: usize) -> u8
    ensures { result ≡ bytes_fault st line room }
{
    if !((line % 2 == 0) & (room % 2 == 0)) {
        return 1;
    }
    if !(check::is_fit(st.system, st.mode, line / 2) & (room / 2 == reader_state::CAPACITY)) {
        return 1;
    }
    if reader_state::is_impossible(st) {
        2
    } else {
        0
    }
}

// Of a writer's call on a line of so many bytes; even: what else is lent.
#[tactic(auto, unfolding(crate::specs::Early::write_early, writer::specs::Batch::batch_fault, lists::specs::Tests::pick))]
pub fn write_early(w: Writer, line: usize, even: bool) -> u8
    ensures { result ≡ write_early w line even }
{
    if !((line % 2 == 0) & even) {
        return 1;
    }
    if !check::is_fit(w.system, w.mode, line / 2) {
        return 1;
    }
    if writer_state::is_impossible(w) { 2 } else { 0 }
}

// 1 comes before an image that no state gives, and that before 2 of the state.
#[tactic(auto, unfolding(crate::specs::Early::early_by, lists::specs::Tests::pick))]
pub fn early_by(image: bool, f: u8) -> u32
    ensures { result ≡ early_by image f }
{
    if f == 1 {
        return 1;
    }
    if image { u32::from(f) } else { 2 }
}
