// The writer's state and answers, and which states are impossible.
ghost use Rattle.std.specs.Prelude.{◌≡◌, ◌||◌};
ghost use Rattle.writer.specs.State.{is_part, laid_of, fresh, misshapen, overlong, overfull, impossible, end_in, moved};

use line::settings;
use line::settings::Settings;
use packets::list;
use sums::crc;

// An unfinished block: its type, n and the words laid (1 to n+6).
#[derive(Clone, Copy)]
pub struct Part {
    pub kind: u8,
    pub count: u16,
    pub laid: u16,
}

// crc is that of the area words laid so far in this line, and used counts the words of its gap in which packets stand. Closing keeps used.
#[derive(Clone, Copy)]
pub struct Writer {
    pub system: u8,
    pub mode: u8,
    pub last: Option<u16>,
    pub settings: Settings,
    pub place: Option<usize>,
    pub rest: Option<Part>,
    pub crc: u32,
    pub used: u16,
}

// What opening and closing answer.
#[derive(Clone, Copy)]
pub enum Answer {
    Refused(u8),
    Done,
}

// What adding answers.
#[derive(Clone, Copy)]
pub enum Laid {
    Refused(u8),
    Finished,
    Unfinished,
}

// A fresh writer. Any numbers are taken: an unknown system or mode gives 1 later.
pub fn fresh_writer(system: u8, mode: u8) -> Writer
    ensures { result ≡ fresh system mode }
{
    Writer {
        system,
        mode,
        last: None,
        settings: settings::no_settings(),
        place: None,
        rest: None,
        crc: crc::CRC_START,
        used: 0,
    }
}

// The state with another place, rest and CRC.
pub fn moved(w: Writer, place: Option<usize>, rest: Option<Part>, crc: u32) -> Writer
    ensures { result ≡ moved w place rest crc }
{
    Writer {
        place,
        rest,
        crc,
        ..w
    }
}

// A block is unfinished.
pub fn is_part(rest: Option<Part>) -> bool
    ensures { result ≡ is_part rest }
{
    rest.is_some()
}

// The words laid of the unfinished block, 0 where there is none.
pub fn laid_of(rest: Option<Part>) -> usize
    ensures { result ≡ laid_of rest }
{
    match rest {
        None => 0,
        Some(Part { laid, .. }) => usize::from(laid),
    }
}

// n above 16,384, or words laid not 1 to n+6.
fn is_misshapen(rest: Option<Part>) -> bool
    ensures { result ≡ misshapen rest }
{
    match rest {
        None => false,
        Some(Part { count, laid, .. }) => {
            (16384 < count) | (laid < 1) | (usize::from(count) + 6 < usize::from(laid))
        }
    }
}

// The unfinished block is misshapen, the CRC above 18 bits, or more of the gap used than there is.
pub(crate) fn is_misheld(system: u8, rest: Option<Part>, crc: u32, used: u16) -> bool
    ensures { result ≡ (misshapen rest || (overlong crc || overfull system used)) }
{
    let gap = list::gap_length(system);
    is_misshapen(rest) | (262144 <= crc) | (gap < usize::from(used))
}

// No writer can have come into this state.
pub fn is_impossible(w: Writer) -> bool
    ensures { result ≡ impossible w }
{
    let lines = course::is_impossible(w.system, w.last, w.settings, w.place, is_part(w.rest));
    lines | is_misheld(w.system, w.rest, w.crc, w.used)
}

// The words of the open line's area in which blocks may stand.
pub fn end_in(w: Writer) -> usize
    ensures { result ≡ end_in w }
{
    let s = line::systems::system_of(w.system);
    course::blocks_end(s.payload, w.settings.block, w.settings.flag)
}
