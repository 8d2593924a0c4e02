// Plays the steps in the file stdin and prints rows, for harness/heard to compute again: what no call from C hands out, sums of words, headers and classes.
// All other steps are played through the calls from C, by harness/steps.c.
#![tactic(auto)]

mod steps; // steps.rt: a step is read from the text
mod made; // made.rt: words from a seed
mod heading; // heading.rt: the settings of a header
mod shown; // shown.rt: rows of words and headers
mod classes; // classes.rt: rows of classes

use std::io;

fn main(rt: HostRuntime) -> io::Result<()> {
    let mut input = rt.stdin();
    let mut ns = [0u64; 56];
    let mut hd = [0u64; 52];
    let mut room = [0u16; 2304];
    for _ in 0..u64::MAX {
        let Some(step) = steps::read(&mut input, &mut ns)? else {
            break;
        };
        shown::show(&rt, step, &ns, &mut hd, &mut room)?;
    }
    Ok(())
}
