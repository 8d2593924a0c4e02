// Reads or checks eight lines of system 0 again and again, for measuring: `pacereads WHAT MODE ROUNDS`, WHAT being read or check. The lines' words come from
// standard input, two bytes each, low byte first, and are kept in memory. Prints the CRC register after all words, and a digest of what was told; bench/twin.c
// does the same in C. With no words both are done twice, in both modes.
#![tactic(auto)]

mod asked; // asked.rt: what is asked
mod reads; // reads.rt: lines read or checked

use asked::Asked;
use std::io;
use std::io::Read;
use sums::crc;

// What is asked, and its row.
fn run(rt: &impl Print, a: Asked, batch: &[u16; 13728], room: &mut [u16; 16384]) -> io::Result<()> {
    let digest = reads::take_rounds(a, batch, room);
    let crc = crc::crc_of(crc::CRC_START, batch);
    println!(rt; "{crc} {digest}")
}

// Everything, twice.
fn run_all(rt: &impl Print, batch: &[u16; 13728], room: &mut [u16; 16384]) -> io::Result<()> {
    for k in 0..4 {
        run(rt, asked::nth(k), batch, room)?;
    }
    Ok(())
}

fn main(rt: HostRuntime) -> io::Result<()> {
    let mut bytes = [0u8; 27456];
    let mut batch = [0u16; 13728];
    let mut room = [0u16; 16384];
    // as much as there is room for; behind the end of the input the bytes stay 0
    io::copy(&mut rt.stdin().take(27456), &mut &mut bytes[..])?;
    octets::words_of(&bytes, &mut batch);
    if asked::has_three(&rt) {
        return run(&rt, asked::by_words(&rt), &batch, &mut room);
    }
    run_all(&rt, &batch, &mut room)
}
