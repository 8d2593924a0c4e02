// The reader's calls, and their rows, as the listing writes them.
use reader::state::{Event, Reader};
use reader::{read, state};
use std::io;

fn put_event(rt: &impl Print, e: Event) -> io::Result<()> {
    let row = rows::row_of(e);
    rt.write_all(row.as_bytes())
}

// 5 and the line's length: a row for each call, until the line has ended or is refused, or as many calls as the longest line has words and two more.
fn hear_line(rt: &impl Print, r: Reader, line: &[u16], room: &mut [u16]) -> io::Result<Reader> {
    let mut now = r;
    for _ in 0..2306 {
        let told = read::read(now, line, room);
        now = told.state;
        put_event(rt, told.event)?;
        if !rows::goes_on(told.event) {
            break;
        }
    }
    Ok(now)
}

// What a step does to the reader.
pub(crate) fn hear(
    rt: &impl Print,
    step: &[u16; 8],
    r: Reader,
    line: &[u16],
    room: &mut [u16],
) -> io::Result<Reader> {
    let n = usize::from(step[1]).min(line.len());
    match step[0] {
        1 => Ok(state::fresh_reader((step[1] % 256) as u8, (step[2] % 256) as u8)),
        5 => hear_line(rt, r, &line[..n], room),
        _ => Ok(r),
    }
}
