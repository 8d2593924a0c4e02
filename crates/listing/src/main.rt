// Lists the lines on standard input, of system 0 and 8-bit, two bytes a word, low byte first: a row for each event. Every row's
// text is rows::row_of's. The rows of a line are a text in memory before they are written, because no contract can say what
// standard output was given: list_line promises the text, and what is written is the text of list_line, line by line.
// With an argument, whatever it is, the rows of the packets in a line's gap follow the line's own.
// The status is always 0. Where a read or a write fails it says why on standard error, and ends; harness/program makes a status of that.
#![tactic(auto)]

mod gap; // gap.rt: rows of the packets in a line's gap
mod input;

ghost use Rattle.std.specs.Prelude.{◌≡◌, ◌++◌, ◌+◌, ◌≤◌, length, take, IfSome};
ghost use Rattle.rows.specs.Rows.{row_text};
ghost use Rattle.listing.specs.Lines.{Between, Lists};

use arguments::Word;
use reader::state::{Event, Reader};
use reader::{read, state};
use std::env::Env;
use std::io;
use std::io::Read;

// The row of an event behind the first n bytes of a text: how many bytes the text has then.
fn put_row(event: Event, n: usize, text: &mut [u8]) -> usize
    requires { n + 48 ≤ length text.old }
    ensures { (take result text.new ≡ take n text.old ++ row_text event) × (result ≤ n + 48) }
{
    let row = rows::row_of(event);
    let bytes = row.as_bytes();
    let end = n + bytes.len();
    text[n..end].copy_from_slice(bytes);
    end
}

// What a line leaves beside room and text: the reader's state, and how many bytes of text its rows have.
#[derive(Clone, Copy)]
pub struct Left {
    pub state: Reader,
    pub length: usize,
}

// The rows of a line as a text. It is begun once and ends once, and each call between takes one of its 1,440 words or more: so 1,442
// calls are enough, and 48 bytes a row.
fn list_line(st: Reader, line: &[u16], room: &mut [u16], text: &mut [u8]) -> Left
    requires { length text.old ≡ 69216 }
    ensures { Lists st line.now room.old result.state room.new (take result.length text.new)
        × (result.length ≤ length text.new) }
{
    let mut state = st;
    let mut n = 0;
    for _ in 0..1442u16 {
        let told = read::read(state, line, room);
        state = told.state;
        n = put_row(told.event, n, text);
        if !rows::goes_on(told.event) {
            break;
        }
    }
    Left { state, length: n }
}

// Writes the rows of a line, and those of its packets where they are wanted.
fn write_rows(rt: &impl Print, text: &[u8], packets: bool, line: &[u16; 1716]) -> io::Result<()> {
    rt.write_all(text)?;
    if packets {
        gap::list_gap(rt, line)?;
    }
    Ok(())
}

// Whether a write succeeded. Where it did not it is said why, and where that cannot be said either, nothing is.
fn is_written(rt: &impl Eprint, done: io::Result<()>) -> bool {
    if let Err(e) = &done {
        let _ = eprintln!(rt; "listing: standard output: {e}");
    }
    done.is_ok()
}

// Reads a line and lists it: the reader's state behind it. None follows one that is not whole, which is refused where it has a byte, nor one that
// could not be read or written.
fn next_line(
    rt: &(impl Print + Eprint),
    from: &mut impl Read,
    st: Reader,
    packets: bool,
    room: &mut [u16; 16384],
    text: &mut [u8],
) -> Option<Reader>
    requires { length text.old ≡ 69216 }
    ensures { IfSome result (λ next. Between st → Between next) }
{
    let mut bytes = [0u8; 3432];
    match input::read_line(from, &mut bytes) {
        Ok(3432) => {
            let mut line = [0u16; 1716];
            octets::words_of(&bytes, &mut line);
            let left = list_line(st, &line, room, text);
            let done = write_rows(rt, &text[..left.length], packets, &line);
            is_written(rt, done).then_some(left.state)
        }
        Ok(0) => None,
        Ok(_) => {
            let cut = Event::Refused {
                answer: 1,
                dropped: false,
            };
            let _ = is_written(rt, rt.write_all(rows::row_of(cut).as_bytes()));
            None
        }
        Err(e) => {
            let _ = eprintln!(rt; "listing: standard input: {e}");
            None
        }
    }
}

// Word i of the command line.
fn word(rt: &impl Env, i: usize) -> Word {
    let mut room = [0u8; 8];
    let read = rt.arg(i, &mut room);
    Word { read, room }
}

fn main(rt: HostRuntime) {
    let mut from = rt.stdin();
    let mut room = [0u16; 16384];
    let mut text = [0u8; 69216];
    let packets = word(&rt, 1).is_there();
    let mut st = state::fresh_reader(0, 8);
    for _ in 0..u64::MAX {
        let Some(next) = next_line(&rt, &mut from, st, packets, &mut room, &mut text) else {
            break;
        };
        st = next;
    }
}
