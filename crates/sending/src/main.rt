// Writes a small transmission on standard output, of system 0 and 8-bit, two bytes a word, low byte first, as the listing program
// reads it. Words of the command line ask for damage: `lose LINE COUNT` or `spoil LINE`. The writer lays every word of a line; here
// data is only moved. The status is always 0: why it ends early stands on standard error, and harness/program makes a status of that.
#![tactic(auto)]

mod damage;
mod plan;

ghost use Rattle.std.specs.Prelude.{◌≤◌};

use damage::Damage;
use lines::{closing, opening};
use std::io;
use writer::adding::Addition;
use writer::state::{Laid, Writer};
use writer::{adding, state};

// What goes from line to line: the writer's state, and the block that is added next.
#[derive(Clone, Copy)]
pub struct Kept {
    pub writer: Writer,
    pub block: usize,
}

// A block of n values added, or the rest of it.
fn add(w: Writer, kind: u16, n: usize, line: &mut [u16]) -> Addition
    requires { n ≤ 3000 }
{
    let values = plan::values_of(kind);
    adding::add_block(w, kind, &values[..n], line)
}

// Blocks added until the line is full or none is left. One that is not finished is still the next.
fn add_blocks(kept: Kept, line: &mut [u16]) -> Kept {
    let mut now = kept;
    for k in kept.block..plan::BLOCKS {
        let told = add(now.writer, plan::type_of(k), plan::count_of(k), line);
        now.writer = told.state;
        if !matches!(told.answer, Laid::Finished) {
            break;
        }
        now.block = k + 1;
    }
    now
}

// Three places of a fixed line filled; a block of block type 21h has four values.
fn add_places(kept: Kept, line: &mut [u16]) -> Kept {
    let mut now = kept;
    for kind in 101..=103 {
        now.writer = add(now.writer, kind, 4, line).state;
    }
    now
}

// A line opened, filled and closed.
fn next_line(kept: Kept, turn: u16, line: &mut [u16]) -> Kept {
    let fixed = plan::is_fixed(turn);
    let settings = plan::settings_of(plan::block_of(fixed));
    let opened = opening::open_line(
        kept.writer,
        false,
        false,
        plan::number_of(turn),
        settings,
        line,
    );
    let begun = Kept {
        writer: opened.state,
        ..kept
    };
    let filled = if fixed {
        add_places(begun, line)
    } else {
        add_blocks(begun, line)
    };
    let closed = closing::close_line(filled.writer, line);
    Kept {
        writer: closed.state,
        ..filled
    }
}

// The line as bytes.
fn write_line(rt: &impl Print, line: &[u16; 1716]) -> io::Result<()> {
    let mut bytes = [0u8; 3432];
    octets::bytes_of(line, &mut bytes);
    rt.write_all(&bytes)
}

// All lines that the damage leaves, to the first that cannot be written.
fn send_all(rt: &impl Print, d: Damage) -> io::Result<()> {
    let mut kept = Kept {
        writer: state::fresh_writer(0, 8),
        block: 0,
    };
    let mut line = [0u16; 1716];
    for turn in 0..plan::LINES {
        kept = next_line(kept, turn, &mut line);
        if damage::is_left(d, plan::number_of(turn), &mut line) {
            write_line(rt, &line)?;
        }
    }
    Ok(())
}

// Where a line could not be written it is said why, and where that cannot be said either, nothing is.
fn main(rt: HostRuntime) {
    let Some(d) = damage::asked(&rt) else {
        let _ = eprintln!(rt;
            "sending: the words are none, lose LINE COUNT or spoil LINE; LINE is 520 to 525 or 1 to 6, and COUNT lines are sent from it on"
        );
        return;
    };
    if let Err(e) = send_all(&rt, d) {
        let _ = eprintln!(rt; "sending: standard output: {e}");
    }
}
