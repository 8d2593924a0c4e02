// The reading calls on a line and a room that are lent as bytes, two bytes a word, low byte first. Nothing is copied whole but a line that is begun: a call on a
// begun line looks at the words that it walks over, and writes the places of the room that it fills.
#![tactic(auto)]

pub mod goes; // goes.rt: a call on a begun line

ghost use Rattle.std.specs.Prelude.{◌≡◌, true, not, eqb, length};
ghost use Rattle.bytereader.specs.Bytewise.{within_bytes, bytes_fault};
ghost use Rattle.bytereader.specs.Calls.{start_bytes, left_by, is_barred};

use goes::Went;
use reader::begin;
use reader::state::{Event, Reader, Told};
use reader::within::Report;

// What comes of a call: refused by 1 or 2; no line begun, so that the call begins one (`start`); or a begun line gone on with.
#[derive(Clone, Copy)]
pub enum Outcome {
    Barred(u8),
    Starts,
    Goes(Went),
}

// A line begun: the line check reads words, and each line is made words once. A line that is longer than any is refused.
pub fn start(st: Reader, line: &[u8]) -> Told
    ensures { result ≡ start_bytes st line.now }
{
    let n = line.len() / 2;
    if 2304 < n {
        return Told {
            event: Event::Refused {
                answer: 1,
                dropped: false,
            },
            state: st,
        };
    }
    let mut words = [0u16; 2304];
    octets::words_of(line, &mut words);
    begin::start(st, &words[..n])
}

// A reading call under an allowance, but for a line's start, which is the caller's next step: a call on a begun line changes little of the state, and one that begins a line all.
pub fn call(st: Reader, allowance: usize, line: &[u8], room: &mut [u8]) -> Outcome
    ensures { (left_by st line.now result room.new ≡ within_bytes allowance st line.now room.old)
        × (is_barred result ≡ not (eqb (bytes_fault st (length line.now) (length room.old)) 0))
        × (is_barred result ≡ true → room.new ≡ room.old) }
{
    let x = goes::ask(st, line.len(), room.len());
    if x.fault != 0 {
        return Outcome::Barred(x.fault);
    }
    if allowance == 0 {
        return Outcome::Goes(Went {
            report: Report::Paused,
            consumed: 0,
            place: st.place,
            phase: st.phase,
        });
    }
    match st.place {
        None => Outcome::Starts,
        Some(q) => Outcome::Goes(goes::go_on(st, allowance, x.end, x.size, q, line, room)),
    }
}
