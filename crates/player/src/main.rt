// The player of harness/beyond: it plays steps by the writer's and the reader's own calls, also over a library that is edited to be wrong, and writes a row for
// each call. A step is eight numbers: 1 a fresh writer and reader, of system and mode; 2 a line opened; 3 a block added, whose values follow; 4 a line closed;
// 5 a line heard to its end; 6 a word of the line put; 0 the end.
#![tactic(auto)]

mod steps; // steps.rt: the numbers of a step
mod writes; // writes.rt: the writer called
mod hears; // hears.rt: the reader called

use std::io;

fn main(rt: HostRuntime) -> io::Result<()> {
    let mut input = rt.stdin();
    let mut w = writer::state::fresh_writer(0, 8);
    let mut r = reader::state::fresh_reader(0, 8);
    let mut line = [0u16; 2304];
    let mut room = [0u16; 16384];
    let mut values = [0u16; 2304];
    let mut step = [0u16; 8];
    for _ in 0..u64::MAX {
        steps::read(&mut input, &mut step)?;
        if step[0] == 0 {
            break;
        }
        w = writes::write(&rt, &mut input, &step, w, &mut line, &mut values)?;
        r = hears::hear(&rt, &step, r, &line, &mut room)?;
    }
    Ok(())
}
