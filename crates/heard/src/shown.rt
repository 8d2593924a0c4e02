// Steps of words and headers, and their rows.
use crate::steps::Step;
use crate::{classes, heading, made};
use line::header;
use std::io;
use sums::{checksum, crc};

// As many words of the room from an index on; what would stand beyond it is left out.
fn lent(room: &mut [u16], index: u64, count: u64) -> &mut [u16] {
    let from = room.len().min(index as usize);
    let rest = &mut room[from..];
    let n = rest.len().min(count as usize);
    &mut rest[..n]
}

// `Sum INDEX COUNT`, row `crc REGISTER LOW HIGH SUM`: of words of the room the CRC register, its two words, and the checksum.
fn sums(rt: &impl Print, words: &[u16]) -> io::Result<()> {
    let register = crc::crc_of(crc::CRC_START, words);
    let [low, high] = crc::crc_words(register);
    let sum = checksum::checksum_of(words);
    rt.write_all(b"crc")?;
    print!(rt; " {register}")?;
    print!(rt; " {low}")?;
    print!(rt; " {high}")?;
    print!(rt; " {sum}")?;
    rt.write_all(b"\n")
}

// `Header NUMBER`, row `header WORD ..`: the 53 words of a header with the heading's settings.
fn headed(rt: &impl Print, number: u64, hd: &[u64; 52]) -> io::Result<()> {
    rt.write_all(b"header")?;
    for w in header::header_words((number % 65536) as u16, heading::settings_of(hd)) {
        print!(rt; " {w}")?;
    }
    rt.write_all(b"\n")
}

// Steps of words, headers and classes. `Room INDEX COUNT KIND SEED`: words of the room, the kind as in made.rt.
pub(crate) fn show(
    rt: &impl Print,
    s: Step,
    ns: &[u64; 56],
    hd: &mut [u64; 52],
    room: &mut [u16],
) -> io::Result<()> {
    match s.name {
        b'R' => made::words(lent(room, ns[0], ns[1]), ns[2], ns[3]),
        b'S' => sums(rt, lent(room, ns[0], ns[1]))?,
        b'P' => heading::put(hd, s.spaces, ns),
        b'H' => headed(rt, ns[0], hd)?,
        b'K' => classes::kinds(rt, ns[0])?,
        _ => {}
    }
    Ok(())
}
