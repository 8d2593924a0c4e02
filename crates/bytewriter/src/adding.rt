// A block added, its values and the line lent as bytes: what was laid goes back, and no other byte is written.
ghost use Rattle.std.specs.Prelude.{◌≡◌, true, false, ◌≤◌, length};
ghost use Rattle.line.specs.Systems.{system_of};
ghost use Rattle.line.specs.Fixed.{is_variable};
ghost use Rattle.line.specs.Layout.{payload_at};
ghost use Rattle.octets.specs.Bytes.{is_even};
ghost use Rattle.writer.specs.Answers.{added};
ghost use Rattle.bytewriter.specs.Bytewise.{add_bytes};

use crate::lent;
use line::systems;
use writer::adding::Addition;
use writer::state::{Laid, Writer};

// Where the payload starts.
pub(crate) fn payload_at(system: u8) -> usize
    ensures { result ≡ payload_at (system_of system) }
{
    let s = systems::system_of(system);
    s.length.saturating_sub(s.payload)
}

// A block of a fixed line with few values: its words are laid into a place of their own, and go back from there.
fn add_small(w: Writer, kind: u16, values: &[u8], line: &mut [u8]) -> Addition
    requires { (is_even line.old ≡ true) × (is_even values.now ≡ true) × (is_variable w.settings.block ≡ false) × (length values.now ≤ 64) }
    ensures { added result.answer result.state line.new ≡ add_bytes w line.old kind values.now }
{
    let n = values.len() / 2;
    let k = n + 1;
    let long = line.len() / 2;
    let mut vs = [0u16; 32];
    octets::words_of(values, &mut vs);
    let mut place = [0u16; 33];
    let r = writer::adding::add_place(w, long, kind, &vs[..n], &mut place[..k]);
    let start = payload_at(w.system);
    lent::give_place(
        &place[..k],
        start,
        course::place_of(w.place),
        course::place_of(r.state.place),
        line,
    );
    r
}

// Adds a block, or goes on with the unfinished one. A small block of a fixed line needs no line of our own: clearing one would take longer than all else.
pub fn add_block(w: Writer, kind: u16, values: &[u8], line: &mut [u8]) -> Addition
    ensures { added result.answer result.state line.new ≡ add_bytes w line.old kind values.now }
{
    if !lent::is_lent(line) | !octets::is_even(values) {
        return Addition {
            answer: Laid::Refused(1),
            state: w,
        };
    }
    if !line::fixed::is_variable(w.settings.block) & (values.len() <= 64) {
        return add_small(w, kind, values, line);
    }
    let long = line.len() / 2;
    let mut words = [0u16; 2304];
    let r = bytevalues::adding::add_valued(w, kind, values, &mut words[..long]);
    let start = payload_at(w.system);
    lent::give_back(
        &words[..long],
        start,
        course::place_of(w.place),
        course::place_of(r.state.place),
        line,
    );
    r
}
