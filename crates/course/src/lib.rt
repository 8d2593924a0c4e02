// What a writer and a reader both hold of a course of lines: the last number and the place in the line; and the part of the
// impossible rule that is the same for both.
#![tactic(auto)]

ghost use Rattle.std.specs.Prelude.{◌≡◌};
ghost use Rattle.line.specs.Systems.{system_of};
ghost use Rattle.line.specs.Fixed.{fixed_of, size_of};
ghost use Rattle.course.specs.Course.{next_number, is_at, place_of, blocks_end, impossible_after};
ghost use Rattle.course.specs.Looks.{off_by, misplaced_by};

use line::fixed::Fixed;
use line::settings::Settings;

// The number after x: the number after N is 1.
#[tactic(auto, unfolding(crate::specs::Course::next_number, lists::specs::Tests::pick))]
pub fn next_number(lines: u16, x: u16) -> u16
    ensures { result ≡ next_number lines x }
{
    if x < lines { x + 1 } else { 1 }
}

// A line is begun.
pub fn is_at(place: Option<usize>) -> bool
    ensures { result ≡ is_at place }
{
    matches!(place, Some(_))
}

// The place, 0 where no line is begun.
pub fn place_of(place: Option<usize>) -> usize
    ensures { result ≡ place_of place }
{
    match place {
        None => 0,
        Some(p) => p,
    }
}

// The words of an area in which blocks stand, by the table's row of the block type.
#[tactic(auto, unfolding(crate::specs::Course::blocks_end, line::specs::Fixed::places_of, line::specs::Fixed::size_of, lists::specs::Tests::pick))]
fn end_by(payload: usize, block: u8, flag: u8, row: Fixed) -> usize
    requires { row ≡ fixed_of block }
    ensures { result ≡ blocks_end payload block flag }
{
    if line::fixed::is_variable(block) {
        line::layout::area_length(payload, flag)
    } else {
        line::fixed::places_in(payload, row) as usize * row.size as usize
    }
}

// The words of an area in which blocks stand.
pub fn blocks_end(payload: usize, block: u8, flag: u8) -> usize
    ensures { result ≡ blocks_end payload block flag }
{
    end_by(payload, block, flag, line::fixed::fixed_of(block))
}

// Not where a place of that size starts or the last ends.
fn is_off(size: u16, q: usize) -> bool
    ensures { result ≡ off_by size q }
{
    size == 0 || q % size as usize != 0
}

// The place is beyond the end, or in a fixed line not where a place starts or the last ends.
fn misplaced_by(variable: bool, end: usize, size: u16, place: Option<usize>) -> bool
    ensures { result ≡ misplaced_by variable end size place }
{
    match place {
        None => false,
        Some(q) => end < q || (!variable && is_off(size, q)),
    }
}

// What a call asks of the table of fixed blocks: it is looked up once a call, because a call of a fixed line moves few words.
// Not an `Option`: end and size are promised of an impossible course too.
#[derive(Clone, Copy)]
pub struct Looked {
    pub impossible: bool,
    pub end: usize,
    pub size: u16,
}

// Whether the course is impossible, where blocks end in its line, and the size of a fixed block; by the table's row of the block type.
fn looked_by(system: u8, t: Settings, row: Fixed, impossible: bool) -> Looked
    requires { row ≡ fixed_of t.block }
    ensures { (result.impossible ≡ impossible)
        × (result.end ≡ blocks_end (system_of system).payload t.block t.flag)
        × (result.size ≡ size_of t.block) }
{
    let payload = line::systems::system_of(system).payload;
    Looked {
        impossible,
        end: end_by(payload, t.block, t.flag, row),
        size: row.size,
    }
}

// With a last number. Each test leaves, and variable lines leave before fixed ones, so that a good course is asked each thing once.
// What is found is not taken apart by a pattern: that moves the row as a whole, and waits for its three numbers to be stored (docs/PERFORMANCE.md).
fn look_after(system: u8, x: u16, t: Settings, place: Option<usize>, busy: bool) -> Looked
    ensures { (result.impossible ≡ impossible_after system (Some x) t place busy)
        × (result.end ≡ blocks_end (system_of system).payload t.block t.flag)
        × (result.size ≡ size_of t.block) }
{
    let s = line::systems::system_of(system);
    let found = line::settings::find_fault(system, t);
    if found.fault != 0 {
        return looked_by(system, t, found.row, true);
    }
    if !((1 <= x) & (x <= s.lines)) {
        return looked_by(system, t, found.row, true);
    }
    let end = end_by(s.payload, t.block, t.flag, found.row);
    if line::fixed::is_variable(t.block) {
        let beyond = misplaced_by(true, end, found.row.size, place);
        return looked_by(system, t, found.row, beyond);
    }
    let off = misplaced_by(false, end, found.row.size, place);
    looked_by(system, t, found.row, off | busy)
}

// Whether the course is impossible, where blocks end in its line, and the size of a fixed block; busy: an unfinished block, or an
// open phase.
pub fn look(system: u8, last: Option<u16>, t: Settings, place: Option<usize>, busy: bool) -> Looked
    ensures { (result.impossible ≡ impossible_after system last t place busy)
        × (result.end ≡ blocks_end (system_of system).payload t.block t.flag)
        × (result.size ≡ size_of t.block) }
{
    match last {
        None => {
            let row = line::fixed::fixed_of(t.block);
            looked_by(system, t, row, busy | is_at(place))
        }
        Some(x) => look_after(system, x, t, place, busy),
    }
}

// The part of the impossible rule that a writer and a reader share; busy: an unfinished block, or an open phase.
pub fn is_impossible(
    system: u8,
    last: Option<u16>,
    t: Settings,
    place: Option<usize>,
    busy: bool,
) -> bool
    ensures { result ≡ impossible_after system last t place busy }
{
    look(system, last, t, place, busy).impossible
}
