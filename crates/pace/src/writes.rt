// Lines written: each is opened, filled with blocks, by single calls or in one list, and closed. In jobs e and f only the first is opened and filled, once, and each is
// closed in the state that the first was in.
use crate::jobs;
use lines::{closing, opening};
use writer::state::{Laid, Writer};
use writer::{adding, batch};

// What goes from line to line: the writer's state, and the number of the next line.
#[derive(Clone, Copy)]
pub struct Kept {
    pub writer: Writer,
    pub number: u16,
}

// Blocks until the line is full; jobs d and e have none. A `for` that is left by a break, and one over the lines of a batch below, were tried: rows c and g took
// 2 to 4 hundredths more instructions.
fn fill(w: Writer, job: u8, block: &[u16], line: &mut [u16]) -> Writer {
    let mut now = w;
    let mut more = job != b'd' && job != b'e';
    let mut calls = 0u32;
    while calls < 300 && more {
        let told = adding::add_block(now, 7, block, line);
        now = told.state;
        more = matches!(told.answer, Laid::Finished);
        calls += 1;
    }
    now
}

// Blocks in one list, or one by one.
fn filled(w: Writer, job: u8, block: &[u16], line: &mut [u16]) -> Writer {
    if jobs::by_list(job) {
        let told = batch::add_blocks(w, block, line);
        return told.state;
    }
    fill(w, job, block, line)
}

// A line opened and filled; in jobs e and f the first alone.
fn ready(kept: Kept, job: u8, block: &[u16], line: &mut [u16]) -> Writer {
    let w = kept.writer;
    if course::is_at(w.place) {
        return w;
    }
    let opened = opening::open_line(w, false, false, kept.number, jobs::settings_of(job), line);
    filled(opened.state, job, block, line)
}

// The register whose two words are a line's last.
fn register_in(line: &[u16]) -> u32 {
    match line {
        [.., low, high] => u32::from(*low % 512) + u32::from(*high % 512) * 512,
        _ => 0,
    }
}

// The state before the closing, with the CRC that the line got: so no closing can be left out.
fn again(w: Writer, line: &[u16]) -> Writer {
    Writer {
        crc: register_in(line),
        ..w
    }
}

fn write_line(kept: Kept, job: u8, block: &[u16], line: &mut [u16]) -> Kept {
    let w = ready(kept, job, block, line);
    let closed = closing::close_line(w, line);
    if matches!(job, b'e' | b'f') {
        return Kept {
            writer: again(w, line),
            ..kept
        };
    }
    Kept {
        writer: closed.state,
        number: course::next_number(525, kept.number),
    }
}

// Line k of the eight.
fn write_nth(kept: Kept, k: usize, job: u8, block: &[u16], batch: &mut [u16]) -> Kept {
    if 7 < k {
        return kept;
    }
    let a = k * 1716;
    let e = a + 1716;
    if e <= batch.len() {
        return write_line(kept, job, block, &mut batch[a..e]);
    }
    kept
}

fn write_round(kept: Kept, job: u8, block: &[u16], batch: &mut [u16]) -> Kept {
    let mut now = kept;
    let mut k = 0usize;
    while k < 8 {
        now = write_nth(now, k, job, block, batch);
        k += 1;
    }
    now
}

pub(crate) fn write_rounds(fresh: Writer, job: u8, rounds: u16, block: &[u16], batch: &mut [u16]) {
    let mut kept = Kept {
        writer: fresh,
        number: 1,
    };
    let mut i = 0u16;
    while i < rounds {
        kept = write_round(kept, job, block, batch);
        i += 1;
    }
}
