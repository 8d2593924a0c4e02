// Lines read by a reader in slices of 64 words; each report goes into the digest.
use reader::state::{Event, Reader};
use reader::within::Report;
use reader::{state, within};

// What goes from line to line: the reader's state and the digest.
#[derive(Clone, Copy)]
pub struct Heard {
    pub reader: Reader,
    pub digest: u32,
}

// A number for what was reported: below 2 where the line is over.
fn number_of(report: Report) -> u32 {
    match report {
        Report::Told(Event::End) => 0,
        Report::Told(Event::Refused { .. }) => 1,
        Report::Told(Event::Begun { .. }) => 2,
        Report::Told(Event::Drop { .. }) => 3,
        Report::Paused => 4,
        Report::Told(Event::Block { length, .. }) => 65536 + (length % 65536) as u32,
    }
}

// The digest with a report's number, what was consumed, and the room's first word. `pacereads` mixes other numbers: a crate for two lines would be no plainer.
fn mixed(digest: u32, report: u32, consumed: usize, room: &[u16]) -> u32 {
    let first = room.first().map_or(0, |w| u32::from(*w));
    digest
        .wrapping_mul(31)
        .wrapping_add(report)
        .wrapping_add((consumed % 65536) as u32)
        .wrapping_add(first)
}

// A line to its end: no line needs more calls.
fn read_line(heard: Heard, line: &[u16], room: &mut [u16]) -> Heard {
    let mut now = heard;
    for _ in 0..2882 {
        let answer = within::read_within(now.reader, 64, line, room);
        let number = number_of(answer.report);
        now = Heard {
            reader: answer.state,
            digest: mixed(now.digest, number, answer.consumed, room),
        };
        if number < 2 {
            break;
        }
    }
    now
}

// One reader hears the eight lines of all rounds.
pub(crate) fn read_rounds(mode: u8, rounds: u16, batch: &[u16], room: &mut [u16]) -> u32 {
    let mut now = Heard {
        reader: state::fresh_reader(0, mode),
        digest: 0,
    };
    for _ in 0..rounds {
        for line in batch.chunks_exact(1716) {
            now = read_line(now, line, room);
        }
    }
    now.digest
}
