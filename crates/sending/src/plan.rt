// What is sent: the numbers of the lines, and the blocks with their types, lengths and values.
ghost use Rattle.std.specs.Prelude.{◌≤◌};

use line::settings::Settings;

// Twelve lines from 520 on; 525 is followed by 1. The last two are fixed.
pub(crate) const LINES: u16 = 12;

const FIRST: u16 = 520;

const VARIABLE: u16 = 10;

// The variable blocks: block k has the type k + 1 and so many values. The area has 1,438 words, and a block has seven words more
// than values. So type 4 runs over a line's end, type 7 over three lines, and type 9 ends with its line.
pub(crate) const BLOCKS: usize = 20;

const COUNTS: [usize; 20] = [
    3, 100, 600, 1000, 500, 700, 3000, 200, 1024, 0, 1, 255, 1200, 64, 2000, 300, 1431, 16, 800, 5,
];

// The number of the line that is sent after so many others.
pub(crate) fn number_of(turn: u16) -> u16 {
    ((u32::from(turn) + u32::from(FIRST) - 1) % 525 + 1) as u16
}

// How many lines are sent before the one with this number.
pub(crate) fn turn_of(number: u16) -> u16 {
    ((u32::from(number) + 525 - u32::from(FIRST)) % 525) as u16
}

// A line with this number is sent.
pub(crate) fn is_sent(number: u16) -> bool {
    1 <= number && number <= 525 && turn_of(number) < LINES
}

// The line has fixed blocks.
pub(crate) fn is_fixed(turn: u16) -> bool {
    VARIABLE <= turn
}

// The block type of a line.
pub(crate) fn block_of(fixed: bool) -> u8 {
    if fixed { 0x21 } else { 0xc1 }
}

// The type of block k.
pub(crate) fn type_of(k: usize) -> u16 {
    (k % 255) as u16 + 1
}

// How many values block k has; 3,000 is the most.
pub(crate) fn count_of(k: usize) -> usize
    ensures { result ≤ 3000 }
{
    COUNTS.get(k).map_or(0, |n| (*n).min(3000))
}

// The values of a block: the first is its type, and each is 7 more than the one before, modulo 256.
pub(crate) fn values_of(kind: u16) -> [u16; 3000] {
    let mut s = [0u16; 3000];
    let mut x = kind;
    for value in &mut s {
        *value = x % 256;
        x = x % 256 + 7;
    }
    s
}

// The settings of a line: all go from one deck to one room, with the CRC of the payload.
pub(crate) fn settings_of(block: u8) -> Settings {
    Settings {
        code: 1,
        aai: 0,
        destination: [1; 16],
        source: [2; 16],
        block: block,
        flag: 1,
        reserved: [0; 5],
    }
}
