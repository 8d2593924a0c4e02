// The writer's calls, and their rows: a name, ANSWER and REGISTER. ANSWER is 0 for done or finished, 100 for unfinished, or the number of a refusal; REGISTER is
// the CRC register after the words that were lent, as the call left them.
use crate::steps;
use line::settings::Settings;
use lines::{closing, opening};
use std::io;
use std::io::Read;
use sums::crc;
use writer::state::{Answer, Laid, Writer};
use writer::{adding, state};

fn number_of(a: Answer) -> u64 {
    match a {
        Answer::Refused(n) => u64::from(n),
        Answer::Done => 0,
    }
}

fn number_laid(a: Laid) -> u64 {
    match a {
        Laid::Refused(n) => u64::from(n),
        Laid::Finished => 0,
        Laid::Unfinished => 100,
    }
}

fn put_row(rt: &impl Print, name: &str, answer: u64, line: &[u16]) -> io::Result<()> {
    let register = crc::crc_of(crc::CRC_START, line);
    print!(rt; "{name} ")?;
    println!(rt; "{answer} {register}")
}

// Code, AAI, block type and flag of a step; both addresses and the reserved words are 0.
fn settings_of(step: &[u16; 8]) -> Settings {
    Settings {
        code: (step[4] % 256) as u8,
        aai: (step[5] % 256) as u8,
        destination: [0; 16],
        source: [0; 16],
        block: (step[6] % 256) as u8,
        flag: (step[7] % 256) as u8,
        reserved: [0; 5],
    }
}

// 2, the line's length, its number, F + 2 V, and the settings: row `opened`.
fn open_line(rt: &impl Print, step: &[u16; 8], w: Writer, line: &mut [u16]) -> io::Result<Writer> {
    let f = step[3] % 2 == 1;
    let v = step[3] / 2 % 2 == 1;
    let r = opening::open_line(w, f, v, step[2], settings_of(step), line);
    put_row(rt, "opened", number_of(r.answer), line)?;
    Ok(r.state)
}

// 3, the line's length, the type, how many values; then the values: row `added`.
fn add_block(
    rt: &impl Print,
    input: &mut impl Read,
    step: &[u16; 8],
    w: Writer,
    line: &mut [u16],
    values: &mut [u16],
) -> io::Result<Writer> {
    let n = usize::from(step[3]).min(values.len());
    let given = &mut values[..n];
    steps::read(input, given)?;
    let r = adding::add_block(w, step[2], given, line);
    put_row(rt, "added", number_laid(r.answer), line)?;
    Ok(r.state)
}

// 4 and the line's length: row `closed`.
fn close_line(rt: &impl Print, w: Writer, line: &mut [u16]) -> io::Result<Writer> {
    let r = closing::close_line(w, line);
    put_row(rt, "closed", number_of(r.answer), line)?;
    Ok(r.state)
}

// 6, a place in the line and a word.
fn put_word(at: u16, word: u16, line: &mut [u16]) {
    if let Some(w) = line.get_mut(usize::from(at)) {
        *w = word;
    }
}

// What a step does to the writer and to the line.
pub(crate) fn write(
    rt: &impl Print,
    input: &mut impl Read,
    step: &[u16; 8],
    w: Writer,
    line: &mut [u16],
    values: &mut [u16],
) -> io::Result<Writer> {
    let n = usize::from(step[1]).min(line.len());
    match step[0] {
        1 => Ok(state::fresh_writer((step[1] % 256) as u8, (step[2] % 256) as u8)),
        2 => open_line(rt, step, w, &mut line[..n]),
        3 => add_block(rt, input, step, w, &mut line[..n], values),
        4 => close_line(rt, w, &mut line[..n]),
        6 => {
            put_word(step[1], step[2], line);
            Ok(w)
        }
        _ => Ok(w),
    }
}
