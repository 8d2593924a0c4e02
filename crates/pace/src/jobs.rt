// What the jobs write: a variable blocks of 10,000 values, flag 01h; b of 100 values; c fixed blocks 21h, flag 00h; d filler lines,
// flag 01h; e filler lines closed again and again, f lines full of a's blocks closed again and again; g c's blocks, those of a line in one list;
// h variable blocks of 4 values, flag 01h, and i the same in one list; j variable blocks of 1 value, k of 10, l of 1,000, flag 01h.
ghost use Rattle.std.specs.Prelude.{◌≤◌};

use line::settings::Settings;

// The blocks of a line are lent in one list.
pub(crate) fn by_list(job: u8) -> bool {
    job == b'g' || job == b'i'
}

// How many values a block has, 0 where there are no blocks; or how many words a list has: 300 blocks, more than a line takes.
pub(crate) fn count_of(job: u8) -> usize
    ensures { result ≤ 10000 }
{
    match job {
        b'a' | b'f' => 10000,
        b'b' => 100,
        b'c' | b'h' => 4,
        b'g' | b'i' => 1800,
        b'j' => 1,
        b'k' => 10,
        b'l' => 1000,
        _ => 0,
    }
}

pub(crate) fn settings_of(job: u8) -> Settings {
    let fixed = job == b'c' || job == b'g';
    Settings {
        code: 1,
        aai: 0,
        destination: [1; 16],
        source: [2; 16],
        block: if fixed { 0x21 } else { 0xc1 },
        flag: if fixed { 0 } else { 1 },
        reserved: [0; 5],
    }
}

fn value_at(i: usize, mode: u8) -> u16 {
    let values = if mode == 8 { 256 } else { 512 };
    ((i % 65536 * 7 + 3) % values) as u16
}

// A word of what is lent: a value; of a list type 7, length 4 and four values, again and again.
fn word_at(job: u8, i: usize, mode: u8) -> u16 {
    if !by_list(job) {
        return value_at(i, mode);
    }
    match i % 6 {
        0 => 7,
        1 => 4,
        k => value_at(k - 2, mode),
    }
}

// The values that every block has from its first on, or the list.
pub(crate) fn lent_in(job: u8, mode: u8) -> [u16; 10000] {
    std::array::from_fn(|i| word_at(job, i, mode))
}
