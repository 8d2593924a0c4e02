// Reads eight lines of system 0 in slices of 64 words, for measuring: `slices MODE ROUNDS`, the lines' words from standard input, two bytes each, low
// byte first. Prints the CRC register after all words and a digest of events and pauses; bench/twin.c does the same in C. It is a program of its own and no job
// of `pace`, because a program that calls `read` and `read_within` has neither inlined.
#![tactic(auto)]

mod asked; // asked.rt: what is asked
mod rounds; // rounds.rt: eight lines read in slices

use std::io;
use std::io::Read;
use sums::crc;

fn main(rt: HostRuntime) -> io::Result<()> {
    let mut bytes = [0u8; 27456];
    let mut batch = [0u16; 13728];
    let mut room = [0u16; 16384];
    // as much as there is room for; behind the end of the input the bytes stay 0
    io::copy(&mut rt.stdin().take(27456), &mut &mut bytes[..])?;
    octets::words_of(&bytes, &mut batch);
    let a = asked::by_words(&rt);
    let digest = rounds::read_rounds(a.mode, a.rounds, &batch, &mut room);
    let crc = crc::crc_of(crc::CRC_START, &batch);
    println!(rt; "{crc} {digest}")
}
