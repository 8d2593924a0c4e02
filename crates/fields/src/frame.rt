// What the images of a reader's and of a writer's state share.
ghost use Rattle.std.specs.Prelude.{◌≡◌, ◌&&◌, [], ◌∷◌, ◌++◌, eqb, length, get_or};
ghost use Rattle.lists.specs.Lists.{part, same};
ghost use Rattle.lists.specs.Tests.{pick};
ghost use Rattle.course.specs.Course.{place_of};
ghost use Rattle.fields.specs.Fields.{bytes_for, settings_bytes, settings_from};
ghost use Rattle.fields.specs.Frame.{last_bytes, place_byte, last_in, place_in, held_in, shows_frame};

use crate::numbers;
use line::settings::Settings;

// Whether a last number is there, and the number.
fn last_bytes(last: Option<u16>) -> [u8; 3]
    ensures { result ≡ last_bytes last }
{
    match last {
        None => [0, 0, 0],
        Some(x) => {
            let [low, high] = x.to_le_bytes();
            [1, low, high]
        }
    }
}

// Whether a line is begun (open).
fn place_byte(place: Option<usize>) -> u8
    ensures { result ≡ place_byte place }
{
    u8::from(matches!(place, Some(_)))
}

// The tag, system, mode and the last number: into 6 bytes, and else nothing.
#[tactic(auto, unfolding(lists::specs::Tests::pick))]
pub fn put_front(tag: u8, system: u8, mode: u8, last: Option<u16>, out: &mut [u8])
    ensures { out.new ≡ pick (eqb (length out.old) 6) (tag ∷ system ∷ mode ∷ last_bytes last) out.old }
{
    if out.len() != 6 {
        return;
    }
    let [there, low, high] = last_bytes(last);
    out.copy_from_slice(&[tag, system, mode, there, low, high]);
}

// Whether a line is begun, where a block stands, and the place: into 10 bytes, and else nothing.
#[tactic(auto, unfolding(lists::specs::Tests::pick))]
pub fn put_place(place: Option<usize>, kind: u8, out: &mut [u8])
    ensures { out.new ≡ pick (eqb (length out.old) 10) (place_byte place ∷ kind ∷ bytes_for 8 (place_of place)) out.old }
{
    if out.len() != 10 {
        return;
    }
    let (front, number) = out.split_at_mut(2);
    front.copy_from_slice(&[place_byte(place), kind]);
    numbers::put_number(course::place_of(place), number);
}

// The settings, and two bytes that are not used: into 43 bytes, and else nothing.
#[tactic(auto, unfolding(lists::specs::Tests::pick))]
pub fn put_foot(t: Settings, out: &mut [u8])
    ensures { out.new ≡ pick (eqb (length out.old) 43) (settings_bytes t ++ (0 ∷ 0 ∷ [])) out.old }
{
    if out.len() != 43 {
        return;
    }
    let (settings, back) = out.split_at_mut(41);
    numbers::put_settings(t, settings);
    back.copy_from_slice(&[0, 0]);
}

// The bytes of a last number stand in an image.
#[tactic(auto, unfolding(lists::specs::Tests::pick))]
fn shows_last(last: Option<u16>, b: &[u8; 80]) -> bool
    ensures { result ≡ same (part 3 3 b.now) (last_bytes last) }
{
    numbers::array_of::<3>(&b[3..6]) == last_bytes(last)
}

// Those of a place.
fn shows_place(place: Option<usize>, b: &[u8; 80]) -> bool
    ensures { result ≡ (eqb (get_or b.now 6 0) (place_byte place) && same (part 8 8 b.now) (bytes_for 8 (place_of place))) }
{
    (b[6] == place_byte(place)) & (numbers::number_from(&b[8..16]) == course::place_of(place))
}

// The bytes of a frame stand in an image, but for where a block stands, what is held of it and the settings: any 41 bytes are settings.
#[tactic(auto, unfolding(crate::specs::Frame::shows_frame))]
pub fn shows_frame(tag: u8, last: Option<u16>, place: Option<usize>, b: &[u8; 80]) -> bool
    ensures { result ≡ shows_frame tag last place b.now }
{
    let in_front = (b[0] == tag) & shows_last(last, b);
    in_front & (shows_place(place, b) & ((b[78] == 0) & (b[79] == 0)))
}

// The last number in an image.
pub fn last_in(b: &[u8; 80]) -> Option<u16>
    ensures { result ≡ last_in b.now }
{
    if b[3] == 0 {
        None
    } else {
        Some(u16::from_le_bytes([b[4], b[5]]))
    }
}

// The place in an image.
pub fn place_in(b: &[u8; 80]) -> Option<usize>
    ensures { result ≡ place_in b.now }
{
    if b[6] == 0 {
        None
    } else {
        Some(numbers::number_from(&b[8..16]))
    }
}

// What is held of the block in an image.
#[tactic(auto, unfolding(crate::specs::Frame::held_in, lists::specs::Tests::pick))]
pub fn held_in(b: &[u8; 80]) -> [u8; 21]
    ensures { result ≡ held_in b.now }
{
    numbers::array_of(&b[16..37])
}

// The settings in an image.
#[tactic(auto, unfolding(lists::specs::Tests::pick))]
pub fn settings_in(b: &[u8; 80]) -> Settings
    ensures { result ≡ settings_from (part 37 41 b.now) }
{
    numbers::settings_of(&numbers::array_of(&b[37..78]))
}
