// The writer's state as 80 bytes, and back.
ghost use Rattle.std.specs.Prelude.{◌≡◌, ◌&&◌, ◌∷◌, ◌++◌, eqb, length, get_or, replicate};
ghost use Rattle.lists.specs.Lists.{part, same};
ghost use Rattle.lists.specs.Tests.{pick};
ghost use Rattle.course.specs.Course.{place_of};
ghost use Rattle.fields.specs.Fields.{bytes_for};
ghost use Rattle.fields.specs.Frame.{place_byte};
ghost use Rattle.writerimages.specs.WriterImage.{rest_byte, rest_bytes, rest_by, image_of, state_of, is_image};
ghost use Rattle.writerimages.specs.Held.{HeldWriter};

use fields::{frame, numbers};
use line::settings;
use writer::state::{Part, Writer};

// Whose image it is: W.
const TAG: u8 = 0x57;

// A block is unfinished.
fn rest_byte(rest: Option<Part>) -> u8
    ensures { result ≡ rest_byte rest }
{
    u8::from(rest.is_some())
}

// The unfinished block: type, n and words laid.
fn rest_bytes(rest: Option<Part>) -> [u8; 7]
    ensures { result ≡ rest_bytes rest }
{
    match rest {
        None => [0; 7],
        Some(Part { kind, count, laid }) => {
            let [count_low, count_high] = count.to_le_bytes();
            let [laid_low, laid_high] = laid.to_le_bytes();
            [0, kind, count_low, count_high, 0, laid_low, laid_high]
        }
    }
}

// The CRC of the words laid and the words of the gap used; eight bytes that are not used stand behind them.
#[tactic(auto, using(fields::proofs::NumberLaws::wide))]
fn put_kept(crc: u32, used: u16, out: &mut [u8])
    requires { length out.old ≡ 14 }
    ensures { out.new ≡ bytes_for 4 crc ++ (bytes_for 2 used ++ replicate 8 0) }
{
    let (front, back) = out.split_at_mut(4);
    numbers::put_number(crc as usize, front);
    numbers::put_number(usize::from(used), back);
}

// What is held of the block and the line.
fn put_held(rest: Option<Part>, crc: u32, used: u16, out: &mut [u8])
    requires { length out.old ≡ 21 }
    ensures { out.new ≡ rest_bytes rest ++ (bytes_for 4 crc ++ (bytes_for 2 used ++ replicate 8 0)) }
{
    let (block, kept) = out.split_at_mut(7);
    block.copy_from_slice(&rest_bytes(rest));
    put_kept(crc, used, kept);
}

// The place, and what is held of the block and the line.
#[tactic(auto, unfolding(lists::specs::Tests::pick))]
fn put_stand(place: Option<usize>, rest: Option<Part>, crc: u32, used: u16, out: &mut [u8])
    requires { length out.old ≡ 31 }
    ensures { out.new
        ≡ place_byte place ∷ rest_byte rest ∷ bytes_for 8 (place_of place) ++ (rest_bytes rest ++ (bytes_for 4 crc ++ (bytes_for 2 used ++ replicate 8 0))) }
{
    let (front, held) = out.split_at_mut(10);
    frame::put_place(place, rest_byte(rest), front);
    put_held(rest, crc, used, held);
}

// The image of a state, into 80 bytes, and else nothing.
#[tactic(auto, unfolding(lists::specs::Tests::pick, crate::specs::WriterImage::image_of, fields::specs::Frame::framed))]
pub fn put_image(w: Writer, out: &mut [u8])
    ensures { out.new ≡ pick (eqb (length out.old) 80) (image_of w) out.old }
{
    if out.len() != 80 {
        return;
    }
    let (front, rest) = out.split_at_mut(6);
    let (stand, foot) = rest.split_at_mut(31);
    frame::put_front(TAG, w.system, w.mode, w.last, front);
    put_stand(w.place, w.rest, w.crc, w.used, stand);
    frame::put_foot(w.settings, foot);
}

// The unfinished block by whether there is one, and the bytes held.
fn rest_by(n: u8, h: &[u8; 21]) -> Option<Part>
    ensures { result ≡ rest_by n h.now }
{
    if n == 0 {
        None
    } else {
        Some(Part {
            kind: h[1],
            count: u16::from_le_bytes([h[2], h[3]]),
            laid: u16::from_le_bytes([h[5], h[6]]),
        })
    }
}

// What 80 bytes spell: a state, and whether the bytes are its image. Not an `Option`: the state is promised of any bytes.
#[derive(Clone, Copy)]
pub struct Spelt {
    pub state: Writer,
    pub image: bool,
}

// The bytes of an unfinished block stand in an image.
#[tactic(auto, unfolding(lists::specs::Tests::pick))]
fn shows_block(rest: Option<Part>, b: &[u8; 80]) -> bool
    ensures { result ≡ same (part 16 7 b.now) (rest_bytes rest) }
{
    numbers::array_of::<7>(&b[16..23]) == rest_bytes(rest)
}

// These, whether there is one, and that the bytes that are not used are 0.
fn shows_rest(rest: Option<Part>, b: &[u8; 80]) -> bool
    ensures { result ≡ (eqb (get_or b.now 7 0) (rest_byte rest) && (same (part 16 7 b.now) (rest_bytes rest) && same (part 29 8 b.now) (bytes_for 8 0))) }
{
    (b[7] == rest_byte(rest)) & (shows_block(rest, b) & (numbers::number_in(&b[29..37]) == 0))
}

// The state that bytes spell, whatever they are; and an image is what a state gives: the state that it spells gives it again.
pub fn read_image(b: &[u8; 80]) -> Spelt
    ensures { (result.state ≡ state_of b.now) × (result.image ≡ is_image b.now) }
{
    let last = frame::last_in(b);
    let settings = frame::settings_in(b);
    let place = frame::place_in(b);
    let held = frame::held_in(b);
    let rest = rest_by(b[7], &held);
    let crc = numbers::number_in(&held[7..11]) as u32;
    let used = numbers::number_in(&held[11..13]) as u16;
    let image = frame::shows_frame(TAG, last, place, b) & shows_rest(rest, b);
    let state = Writer {
        system: b[1],
        mode: b[2],
        last,
        settings,
        place,
        rest,
        crc,
        used,
    };
    Spelt { state, image }
}

// The same state. What it ensures is what every value of the type holds.
pub fn held_writer(w: Writer) -> Writer
    ensures { (result ≡ w) × HeldWriter result }
{
    settings::held(w.settings);
    w
}
