// Many blocks in one call: a lent list of blocks, laid one after another until the line is full. 1 and 2 are asked once.
ghost use Rattle.std.specs.Prelude.{◌≡◌, ◌<◌, length};
ghost use Rattle.writer.specs.Batch.{entries_of, stop_numbers, batched, batch_fault, batching, stops_at, batch_by};
ghost use Rattle.writer.specs.Ground.{Standing, IsStep, entry_end, ran, IsRun};

use crate::adding;
use crate::adding::{Ground, Held, Step};
use crate::state::{Laid, Writer};
use blocks::block;

// Why it stopped: all blocks were finished, one is unfinished, or one is refused with 01's number or 28.
#[derive(Clone, Copy)]
pub enum Stop {
    All,
    Unfinished,
    Refused(u8),
}

// What many additions leave beside the line.
#[derive(Clone, Copy)]
pub struct Batch {
    pub finished: usize,
    pub stop: Stop,
    pub state: Writer,
}

// How many were finished, why it stopped, and what is held then.
#[derive(Clone, Copy)]
pub struct Run {
    pub finished: usize,
    pub stop: Stop,
    pub held: Held,
}

// Where the entry at a place of the list ends; 0 where it is broken off.
fn entry_end(at: usize, blocks: &[u16]) -> usize
    requires { at < length blocks.now }
    ensures { result ≡ entry_end at blocks.now }
{
    let left = blocks.len() - at;
    if left < 2 {
        return 0;
    }
    let n = usize::from(blocks[at + 1]);
    if left - 2 < n {
        return 0;
    }
    at + 2 + n
}

// One block of the list: as a single call, without 1 and 2. `add_block` doesn't go through it: with two callers the compiler leaves it out of line, and
// both are slower.
fn lay_entry(g: Ground, h: Held, kind: u16, values: &[u16], line: &mut [u16]) -> Step
    requires { Standing g h (length line.old) }
    ensures { IsStep g h line.old kind values.now result line.new }
{
    let fault = adding::block_fault(g, h, kind, values);
    if fault != 0 {
        return Step {
            answer: Laid::Refused(fault),
            held: h,
        };
    }
    if line::fixed::is_variable(g.block) {
        return adding::lay_part(g, h, kind, values, line);
    }
    let place = course::place_of(h.place);
    let k = values.len() + 1;
    let a = g.start + place;
    let c = block::lay_place(g.mode, kind, values, h.crc, &mut line[a..a + k]);
    adding::placed(place + k, c)
}

fn ended(finished: usize, stop: Stop, held: Held) -> Run
    ensures { result ≡ ran finished stop held }
{
    Run {
        finished,
        stop,
        held,
    }
}

// The entries one after another. The settings stay out of the loop. It is a `while`, because an entry says itself how long it is: no range and no chain is plainer.
fn lay_all(g: Ground, h: Held, blocks: &[u16], line: &mut [u16]) -> Run
    requires { Standing g h (length line.old) }
    ensures { IsRun g h line.old blocks.now result line.new }
{
    let mut now = h;
    let mut at = 0;
    let mut finished = 0;
    while at < blocks.len() {
        let e = entry_end(at, blocks);
        if e == 0 {
            return ended(finished, Stop::Refused(28), now);
        }
        let s = lay_entry(g, now, blocks[at], &blocks[at + 2..e], line);
        match s.answer {
            Laid::Refused(n) => return ended(finished, Stop::Refused(n), s.held),
            Laid::Unfinished => return ended(finished, Stop::Unfinished, s.held),
            Laid::Finished => {}
        }
        now = s.held;
        at = e;
        finished += 1;
    }
    ended(finished, Stop::All, now)
}

// Adds the blocks of the list, until one is refused or unfinished; and the numbers of why it stopped, by the faults and by what fits.
pub fn add_blocks(w: Writer, blocks: &[u16], line: &mut [u16]) -> Batch
    ensures { (batched result.finished result.stop result.state line.new ≡ batching w line.old blocks.now)
        × (stop_numbers result.stop ≡ batch_by (batch_fault w (length line.old)) (stops_at w line.old (entries_of blocks.now))) }
{
    let x = adding::ask(w, line.len());
    if x.fault != 0 {
        return Batch {
            finished: 0,
            stop: Stop::Refused(x.fault),
            state: w,
        };
    }
    let r = lay_all(x.ground, adding::held_in(w), blocks, line);
    Batch {
        finished: r.finished,
        stop: r.stop,
        state: adding::state_with(w, r.held),
    }
}
