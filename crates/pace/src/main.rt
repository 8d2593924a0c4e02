// Writes lines of system 0 in memory, for measuring: `pace JOB MODE ROUNDS`. A round is eight lines. Prints the CRC register after all words of the last eight
// lines; bench/twin.c does the same jobs in C and prints the same. With no words each job is done twice, in both modes.
#![tactic(auto)]

mod jobs; // jobs.rt: what the jobs write
mod writes; // writes.rt: lines written
mod asked; // asked.rt: what is asked

use asked::Asked;
use std::io;
use sums::crc;
use writer::state;

fn write_all(a: Asked, batch: &mut [u16]) {
    let words = jobs::lent_in(a.job, a.mode);
    let fresh = state::fresh_writer(0, a.mode);
    let n = jobs::count_of(a.job);
    writes::write_rounds(fresh, a.job, a.rounds, &words[..n], batch);
}

// A job done, and its row.
fn run(rt: &impl Print, a: Asked, batch: &mut [u16; 13728]) -> io::Result<()> {
    write_all(a, batch);
    let crc = crc::crc_of(crc::CRC_START, batch);
    println!(rt; "{crc}")
}

// Every job, twice.
fn run_all(rt: &impl Print, batch: &mut [u16; 13728]) -> io::Result<()> {
    for k in 0..24 {
        run(rt, asked::nth(k), batch)?;
    }
    Ok(())
}

fn main(rt: HostRuntime) -> io::Result<()> {
    let mut batch = [0u16; 13728];
    if asked::has_three(&rt) {
        return run(&rt, asked::by_words(&rt), &mut batch);
    }
    run_all(&rt, &mut batch)
}
