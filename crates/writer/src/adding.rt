// Adding a block: as much of it as fits is laid, and the CRC taken on over it; the next call lends the same block again.
ghost use Rattle.std.specs.Prelude.{◌≡◌, true, false, length};
ghost use Rattle.lists.specs.Tests.{lowest_of};
ghost use Rattle.line.specs.Fixed.{is_variable, size_of};
ghost use Rattle.writer.specs.Answers.{laid_numbers, added};
ghost use Rattle.writer.specs.Numbers.{all_fits, laid_by};
ghost use Rattle.writer.specs.Adding.{ill_shaped, is_full, is_other, add_fault, adding};
ghost use Rattle.writer.specs.Placing.{placing};
ghost use Rattle.writer.specs.Batch.{batch_fault};
ghost use Rattle.writer.specs.Ground.{held_by, Grounds, Standing, block_faults, IsStep, filled};

use crate::state;
use crate::state::{Laid, Part, Writer};
use blocks::block;
use line::{check, systems};

// What adding leaves beside the line.
#[derive(Clone, Copy)]
pub struct Addition {
    pub answer: Laid,
    pub state: Writer,
}

// What an addition asks of its line: the mode, the block type, the size of a fixed block, where blocks end, and where the payload starts.
#[derive(Clone, Copy)]
pub struct Ground {
    pub mode: u8,
    pub block: u8,
    pub size: u16,
    pub end: usize,
    pub start: usize,
}

// What an addition moves of the state.
#[derive(Clone, Copy)]
pub struct Held {
    pub place: Option<usize>,
    pub rest: Option<Part>,
    pub crc: u32,
}

// What one addition answers, and what is held then.
#[derive(Clone, Copy)]
pub struct Step {
    pub answer: Laid,
    pub held: Held,
}

// 1 or 2, or 0; and what the additions ask of the line.
#[derive(Clone, Copy)]
pub struct Asked {
    pub fault: u8,
    pub ground: Ground,
}

// n above 16,384 or type above FFh; fixed line open: n not size-1 or type 00h.
fn is_ill_shaped(place: Option<usize>, block: u8, size: u16, kind: u16, n: usize) -> bool
    requires { size ≡ size_of block }
    ensures { result ≡ ill_shaped place block kind n }
{
    if 16384 < n {
        return true;
    }
    let fixed = course::is_at(place) & !line::fixed::is_variable(block);
    (255 < kind) | (fixed & ((n + 1 != usize::from(size)) | (kind == 0)))
}

// No place (variable: word) left in the open line.
pub fn is_full(end: usize, place: Option<usize>) -> bool
    ensures { result ≡ is_full end place }
{
    matches!(place, Some(p) if end <= p)
}

// An unfinished block, and another type or length lent.
fn is_other(rest: Option<Part>, kind: u16, n: usize) -> bool
    ensures { result ≡ is_other rest kind n }
{
    match rest {
        None => false,
        Some(Part { kind: k, count, .. }) => !((u16::from(k) == kind) & (usize::from(count) == n)),
    }
}

// What is asked once a call, however many blocks are lent: 1, 2, and what the table of fixed blocks says of the line.
pub(crate) fn ask(w: Writer, long: usize) -> Asked
    ensures { (result.fault ≡ batch_fault w long) × Grounds w result.ground }
{
    let s = systems::system_of(w.system);
    let x = course::look(
        w.system,
        w.last,
        w.settings,
        w.place,
        state::is_part(w.rest),
    );
    let r2 = lists::or_else(
        x.impossible | state::is_misheld(w.system, w.rest, w.crc, w.used),
        2,
        0,
    );
    Asked {
        fault: lists::or_else(!check::is_fit(w.system, w.mode, long), 1, r2),
        ground: Ground {
            mode: w.mode,
            block: w.settings.block,
            size: x.size,
            end: x.end,
            start: s.length.saturating_sub(s.payload),
        },
    }
}

// What the state has of it.
pub(crate) fn held_in(w: Writer) -> Held
    ensures { held_by w result ≡ w }
{
    Held {
        place: w.place,
        rest: w.rest,
        crc: w.crc,
    }
}

// The state with it.
pub(crate) fn state_with(w: Writer, h: Held) -> Writer
    ensures { result ≡ held_by w h }
{
    state::moved(w, h.place, h.rest, h.crc)
}

// 17 to 20: the lowest number whose condition holds, or 0. Each test leaves, because a block of a fixed line has few words.
pub(crate) fn block_fault(g: Ground, h: Held, kind: u16, values: &[u16]) -> u8
    requires { g.size ≡ size_of g.block }
    ensures { result ≡ lowest_of (block_faults g h kind values.now) }
{
    let n = values.len();
    if !blocks::values::all_valued(g.mode, values) {
        return 17;
    }
    if is_ill_shaped(h.place, g.block, g.size, kind, n) {
        return 18;
    }
    if is_full(g.end, h.place) {
        return 19;
    }
    lists::or_else(!course::is_at(h.place) | is_other(h.rest, kind, n), 20, 0)
}

// A place of a fixed line is filled: all of a block fits, because places stand one after another.
pub(crate) fn placed(next: usize, c: u32) -> Step
    ensures { result ≡ filled next c }
{
    Step {
        answer: Laid::Finished,
        held: Held {
            place: Some(next),
            rest: None,
            crc: c,
        },
    }
}

// A variable block, which has n+7 words: all that is left of it, or as much as fits.
pub(crate) fn lay_part(g: Ground, h: Held, kind: u16, values: &[u16], line: &mut [u16]) -> Step
    requires { Standing g h (length line.old) × (lowest_of (block_faults g h kind values.now) ≡ 0) × (is_variable g.block ≡ true) }
    ensures { IsStep g h line.old kind values.now result line.new }
{
    let place = course::place_of(h.place);
    let laid = state::laid_of(h.rest);
    let n = values.len();
    let left = n + 7 - laid;
    let room = g.end - place;
    let a = g.start + place;
    if left <= room {
        let crc = block::lay_on(g.mode, kind, values, laid, h.crc, &mut line[a..a + left]);
        return Step {
            answer: Laid::Finished,
            held: Held {
                place: Some(place + left),
                rest: None,
                crc,
            },
        };
    }
    let crc = block::lay_on(g.mode, kind, values, laid, h.crc, &mut line[a..a + room]);
    Step {
        answer: Laid::Unfinished,
        held: Held {
            place: Some(place + room),
            rest: Some(Part {
                kind: kind as u8,
                count: n as u16,
                laid: (laid + room) as u16,
            }),
            crc,
        },
    }
}

// What was done, as a single call leaves it.
fn told(w: Writer, s: Step) -> Addition
    ensures { (result.answer ≡ s.answer) × (result.state ≡ held_by w s.held) }
{
    Addition {
        answer: s.answer,
        state: state_with(w, s.held),
    }
}

// Adds a block, or goes on with the unfinished one; and the numbers of its answer, by the fault and by what fits.
pub fn add_block(w: Writer, kind: u16, values: &[u16], line: &mut [u16]) -> Addition
    ensures { (added result.answer result.state line.new ≡ adding w line.old kind values.now)
        × (laid_numbers result.answer ≡ laid_by (add_fault w (length line.old) kind values.now) (all_fits w kind values.now)) }
{
    let x = ask(w, line.len());
    if x.fault != 0 {
        return Addition {
            answer: Laid::Refused(x.fault),
            state: w,
        };
    }
    let g = x.ground;
    let h = held_in(w);
    let fault = block_fault(g, h, kind, values);
    if fault != 0 {
        return Addition {
            answer: Laid::Refused(fault),
            state: w,
        };
    }
    if line::fixed::is_variable(g.block) {
        return told(w, lay_part(g, h, kind, values, line));
    }
    let place = course::place_of(h.place);
    let k = values.len() + 1;
    let a = g.start + place;
    let c = block::lay_place(g.mode, kind, values, h.crc, &mut line[a..a + k]);
    told(w, placed(place + k, c))
}

// A block of a fixed line whose place alone is lent, and not the line: of that only the length is asked.
pub fn add_place(w: Writer, long: usize, kind: u16, values: &[u16], place: &mut [u16]) -> Addition
    ensures { added result.answer result.state place.new ≡ placing w long kind values.now place.old }
{
    let k = values.len() + 1;
    if line::fixed::is_variable(w.settings.block) | (place.len() != k) {
        return Addition {
            answer: Laid::Refused(1),
            state: w,
        };
    }
    let x = ask(w, long);
    if x.fault != 0 {
        return Addition {
            answer: Laid::Refused(x.fault),
            state: w,
        };
    }
    let g = x.ground;
    let h = held_in(w);
    let fault = block_fault(g, h, kind, values);
    if fault != 0 {
        return Addition {
            answer: Laid::Refused(fault),
            state: w,
        };
    }
    let p = course::place_of(h.place);
    let c = block::lay_place(g.mode, kind, values, h.crc, place);
    told(w, placed(p + k, c))
}
