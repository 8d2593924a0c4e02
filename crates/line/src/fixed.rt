// The table of fixed blocks. It is a match and no constant array, because a constant array is built anew at each use; and a row is one
// number, because a match of numbers is compiled to a load, and a match of structs to a jump.
ghost use Rattle.std.specs.Prelude.{◌≡◌, ◌+◌, ◌*◌, eqb};
ghost use Rattle.lists.specs.Tests.{pick};
ghost use Rattle.line.specs.Fixed.{table, find, fixed_of, is_variable, block_refused};

// A kind of fixed blocks: size with the type word, and places at each rate.
#[derive(Clone, Copy)]
pub struct Fixed {
    pub size: u16,
    pub at270: u16,
    pub at360: u16,
}

// A row as one number: the size in the lowest 16 bits, then the places at 270 and at 360.
fn kind(size: u16, at270: u16, at360: u16) -> u64
    ensures { result ≡ size + at270 * 65536 + at360 * 4294967296 }
{
    u64::from(size) + u64::from(at270) * 65536 + u64::from(at360) * 4294967296
}

// The row of the table; 0 where there is none.
#[tactic(auto, using(crate::proofs::FixedLaws::unlisted), unfolding(crate::specs::Fixed::table, lists::specs::Tests::pick))]
fn listed(bits: u8) -> u64
    ensures { result ≡ (find bits table).size + (find bits table).at270 * 65536 + (find bits table).at360 * 4294967296 }
{
    match bits {
        0x01 => kind(1438, 1, 1),
        0x02 => kind(719, 2, 2),
        0x03 => kind(479, 3, 4),
        0x04 => kind(359, 4, 5),
        0x09 => kind(1918, 0, 1),
        0x0a => kind(959, 1, 2),
        0x0b => kind(639, 2, 3),
        0x11 => kind(766, 1, 2),
        0x12 => kind(383, 3, 5),
        0x13 => kind(255, 5, 7),
        0x14 => kind(191, 7, 10),
        0x21 => kind(5, 287, 383),
        0x22 => kind(9, 159, 213),
        0x23 => kind(13, 110, 147),
        0x24 => kind(17, 84, 112),
        0x25 => kind(33, 43, 58),
        0x26 => kind(49, 29, 39),
        0x27 => kind(65, 22, 29),
        0x28 => kind(97, 14, 19),
        0x29 => kind(129, 11, 14),
        0x2a => kind(193, 7, 9),
        0x2b => kind(257, 5, 7),
        0x2c => kind(385, 3, 4),
        0x2d => kind(513, 2, 3),
        0x2e => kind(609, 2, 3),
        0x31 => kind(62, 23, 30),
        0x32 => kind(153, 9, 12),
        0x33 => kind(171, 8, 11),
        0x34 => kind(177, 8, 10),
        0x35 => kind(199, 7, 9),
        0x36 => kind(256, 5, 7),
        0x37 => kind(144, 10, 13),
        0x38 => kind(160, 9, 12),
        _ => kind(0, 0, 0),
    }
}

// What B5-B0 of a block type stand for; all 0 where they are not listed.
#[tactic(auto, using(crate::proofs::FixedLaws::unpacks), unfolding(crate::specs::Fixed::fixed_of))]
pub fn fixed_of(block: u8) -> Fixed
    ensures { result ≡ fixed_of block }
{
    let x = listed(block % 64);
    Fixed {
        size: (x % 65536) as u16,
        at270: (x / 65536 % 65536) as u16,
        at360: (x / 4294967296 % 65536) as u16,
    }
}

// The places of a kind where the payload is P words.
#[tactic(auto, unfolding(lists::specs::Tests::pick))]
pub fn places_in(payload: usize, x: Fixed) -> u16
    ensures { result ≡ pick (eqb payload 1440) x.at270 x.at360 }
{
    if payload == 1440 { x.at270 } else { x.at360 }
}

// Block type C1h is the variable one.
pub fn is_variable(block: u8) -> bool
    ensures { result ≡ is_variable block }
{
    block == 0xc1
}

// Block type not listed, none at this rate, or refused with flag 01h; by the table's row of the block type. Each test leaves, so that a
// good block type is asked little.
pub(crate) fn block_refused(payload: usize, row: Fixed, block: u8, flag: u8) -> bool
    requires { row ≡ fixed_of block }
    ensures { result ≡ block_refused payload block flag }
{
    if is_variable(block) {
        return false;
    }
    if 128 <= block {
        return true;
    }
    let places = usize::from(places_in(payload, row));
    if places == 0 {
        return true;
    }
    if flag != 1 {
        return false;
    }
    places * usize::from(row.size) == payload
}
