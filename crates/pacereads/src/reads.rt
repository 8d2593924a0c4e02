// Lines read by a reader, or checked alone; each report goes into the digest.
use crate::asked::Asked;
use linecheck::check;
use reader::state::{Event, Reader};
use reader::{read, state};

// What goes from line to line: the reader's state and the digest.
#[derive(Clone, Copy)]
pub struct Heard {
    pub reader: Reader,
    pub digest: u32,
}

// The digest with two numbers more.
fn mixed(digest: u32, a: u32, b: u32) -> u32 {
    digest.wrapping_mul(31).wrapping_add(a).wrapping_add(b)
}

fn first_of(room: &[u16]) -> u32 {
    room.first().map_or(0, |w| u32::from(*w))
}

// The digest after an event.
fn after(digest: u32, event: Event, room: &[u16]) -> u32 {
    match event {
        Event::Block { length, .. } => mixed(
            digest,
            65536 + (length % 65536) as u32,
            first_of(room),
        ),
        Event::Drop { .. } => mixed(digest, 131072, first_of(room)),
        Event::Refused { .. } | Event::Begun { .. } | Event::End => digest,
    }
}

// A line to its end: no line needs more calls.
fn read_line(heard: &mut Heard, line: &[u16], room: &mut [u16]) {
    for _ in 0..1442 {
        let told = read::read(heard.reader, line, room);
        heard.reader = told.state;
        heard.digest = after(heard.digest, told.event, room);
        if !rows::goes_on(told.event) {
            break;
        }
    }
}

// A line's fault and number.
fn check_line(mode: u8, heard: &mut Heard, line: &[u16]) {
    let c = check::check(0, mode, line);
    heard.digest = mixed(heard.digest, u32::from(c.fault), u32::from(c.number));
}

fn take_line(a: Asked, heard: &mut Heard, line: &[u16], room: &mut [u16]) {
    if a.checks {
        check_line(a.mode, heard, line);
    } else {
        read_line(heard, line, room);
    }
}

// One reader hears the eight lines of all rounds. What it heard is changed where it stands: handed on by value it is copied for each line.
// Not by chunks_exact: with it the compiler does not know the length of a line in the line check, which then takes up to twice the instructions.
pub(crate) fn take_rounds(a: Asked, batch: &[u16], room: &mut [u16]) -> u32 {
    let mut heard = Heard {
        reader: state::fresh_reader(0, a.mode),
        digest: 0,
    };
    for _ in 0..a.rounds {
        for k in 0..8usize {
            let from = k * 1716;
            if let Some(line) = batch.get(from..from + 1716) {
                take_line(a, &mut heard, line, room);
            }
        }
    }
    heard.digest
}
