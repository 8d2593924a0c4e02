// Numbers as bytes, lowest byte first; and settings as 41 bytes.
ghost use Rattle.std.specs.Prelude.{◌≡◌, true, ◌+◌, ◌++◌, ◌≤◌, ◌<◌, ◌^◌, eqb, leb, length, replicate};
ghost use Rattle.lists.specs.Lists.{each};
ghost use Rattle.lists.specs.Tests.{pick};
ghost use Rattle.line.specs.Settings.{small};
ghost use Rattle.fields.specs.Fields.{bytes_for, number_from, settings_bytes, settings_from};

use line::settings::Settings;

// The low bytes of a number, as many as there is room for.
pub fn put_number(n: usize, out: &mut [u8])
    ensures { out.new ≡ bytes_for (length out.old) n }
{
    let mut left = n;
    for b in out.iter_mut() {
        *b = (left % 256) as u8;
        left /= 256;
    }
}

// The number that bytes spell: from the last, which counts most, to the first. It fits because there are no more than eight.
pub(crate) fn number_from(b: &[u8]) -> usize
    requires { length b.now ≤ 8 }
    ensures { (result ≡ number_from b.now) × (result < 256 ^ length b.now) × (bytes_for (length b.now) result ≡ b.now) }
{
    let mut x = 0;
    for v in b.iter().rev() {
        x = usize::from(*v) + x * 256;
    }
    x
}

// The number that at most eight bytes spell; 0 where there are more. That they are bytes is told here, because a contract does not see it in the type.
pub fn number_in(b: &[u8]) -> usize
    ensures { (result ≡ pick (leb (length b.now) 8) (number_from b.now) 0) × (each small b.now ≡ true) }
{
    if b.len() <= 8 { number_from(b) } else { 0 }
}

// Two numbers of K bytes each: into twice as many bytes, and else nothing. The compiler knows how long the parts are.
#[tactic(auto, unfolding(lists::specs::Tests::pick))]
fn put_two<const K: usize>(a: usize, b: usize, out: &mut [u8])
    requires { K < 2 ^ 16 }
    ensures { out.new ≡ pick (eqb (length out.old) (K + K)) (bytes_for K a ++ bytes_for K b) out.old }
{
    if out.len() != K + K {
        return;
    }
    let (first, second) = out.split_at_mut(K);
    put_number(a, first);
    put_number(b, second);
}

// Two numbers of four bytes each: into 8 bytes, and else nothing. Public, and so its own function, as the next is.
pub fn put_fours(a: usize, b: usize, out: &mut [u8])
    ensures { out.new ≡ pick (eqb (length out.old) 8) (bytes_for 4 a ++ bytes_for 4 b) out.old }
{
    put_two::<4>(a, b, out);
}

// Two numbers of eight bytes each: into 16 bytes, and else nothing.
pub fn put_eights(a: usize, b: usize, out: &mut [u8])
    ensures { out.new ≡ pick (eqb (length out.old) 16) (bytes_for 8 a ++ bytes_for 8 b) out.old }
{
    put_two::<8>(a, b, out);
}

// Code, AAI, destination, source, block type, flag, reserved.
#[tactic(auto, unfolding(crate::specs::Fields::settings_bytes))]
pub(crate) fn put_settings(t: Settings, out: &mut [u8])
    requires { length out.old ≡ 41 }
    ensures { out.new ≡ settings_bytes t }
{
    let (front, rest) = out.split_at_mut(2);
    let (destination, rest) = rest.split_at_mut(16);
    let (source, rest) = rest.split_at_mut(16);
    let (block, reserved) = rest.split_at_mut(2);
    front.copy_from_slice(&[t.code, t.aai]);
    destination.copy_from_slice(&t.destination);
    source.copy_from_slice(&t.source);
    block.copy_from_slice(&[t.block, t.flag]);
    reserved.copy_from_slice(&t.reserved);
}

// A line number and settings, as they stand in a header: into 43 bytes, and else nothing.
#[tactic(auto, unfolding(lists::specs::Tests::pick))]
pub fn put_header(number: u16, t: Settings, out: &mut [u8])
    ensures { out.new ≡ pick (eqb (length out.old) 43) (bytes_for 2 number ++ settings_bytes t) out.old }
{
    if out.len() != 43 {
        return;
    }
    let (first, second) = out.split_at_mut(2);
    put_number(usize::from(number), first);
    put_settings(t, second);
}

// Four numbers of four bytes each: into 16 bytes, and else nothing.
#[tactic(auto, unfolding(lists::specs::Tests::pick))]
pub fn put_four(a: usize, b: usize, c: usize, d: usize, out: &mut [u8])
    ensures { out.new
        ≡ pick (eqb (length out.old) 16) (bytes_for 4 a ++ (bytes_for 4 b ++ (bytes_for 4 c ++ bytes_for 4 d))) out.old }
{
    if out.len() != 16 {
        return;
    }
    let (first, second) = out.split_at_mut(8);
    put_fours(a, b, first);
    put_fours(c, d, second);
}

// The bytes of s as an array of their length; zeros where it has another.
pub fn array_of<const N: usize>(s: &[u8]) -> [u8; N]
    ensures { result ≡ pick (eqb N (length s.now)) s.now (replicate N 0) }
{
    let mut out = [0u8; N];
    lists::copy_in(s, &mut out);
    out
}

// The settings that 41 bytes spell.
#[tactic(auto, unfolding(crate::specs::Fields::settings_from, lists::specs::Tests::pick))]
pub fn settings_of(b: &[u8; 41]) -> Settings
    ensures { result ≡ settings_from b.now }
{
    Settings {
        code: b[0],
        aai: b[1],
        destination: array_of(&b[2..18]),
        source: array_of(&b[18..34]),
        block: b[34],
        flag: b[35],
        reserved: array_of(&b[36..41]),
    }
}
