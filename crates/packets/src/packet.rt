// One packet: what stands at the front of the words that are lent, and the words of a packet, laid.
ghost use Rattle.std.specs.Prelude.{◌≡◌, [], ◌∷◌, ◌++◌, ◌+◌, length};
ghost use Rattle.words.specs.Checksum.{checksum};
ghost use Rattle.packets.specs.Packet.{body_words, packet_words, laid_in};
ghost use Rattle.packets.specs.Gap.{flag_at, fault_at, look_at};

use crate::fill;
use sums::checksum;
use words::forms;

// What stands at the front of a gap.
#[derive(Clone, Copy)]
pub enum Look {
    Nothing, // no whole flag
    Whole { did: u8, second: u8, count: u8 }, // a packet without fault; its user words are those from index 6 on
    Bad(u8), // a flag, and a packet with the fault 21, 22 or 23
}

// A whole flag stands at the front.
fn is_flag(gap: &[u16]) -> bool
    ensures { result ≡ flag_at gap.now }
{
    gap.starts_with(&[0x000, 0x3ff, 0x3ff])
}

// The lowest of 21, 22 and 23 that holds of the packet at the front, or 0. Nothing behind the gap is looked at.
fn fault_at(gap: &[u16]) -> u8
    ensures { result ≡ fault_at gap.now }
{
    if gap.len() < 7 {
        return 21;
    }
    let count = (gap[5] % 256) as usize;
    let end = count + 6;
    let long = count + 7;
    if gap.len() < long {
        return 21;
    }
    let sum = checksum::checksum_of(&gap[3..end]);
    let formed = line::forms::all_byte(&gap[3..6]) & line::forms::all_data(&gap[6..long]);
    let r23 = lists::or_else(gap[end] != sum, 23, 0);
    lists::or_else(!formed, 22, r23)
}

// The packet at the front of any words.
pub fn look_at(gap: &[u16]) -> Look
    ensures { result ≡ look_at gap.now }
{
    if !is_flag(gap) {
        return Look::Nothing;
    }
    let fault = fault_at(gap);
    if fault != 0 {
        return Look::Bad(fault);
    }
    Look::Whole {
        did: (gap[3] % 256) as u8,
        second: (gap[4] % 256) as u8,
        count: (gap[5] % 256) as u8,
    }
}

// DID, second word and count in byte form, and the user words in data form.
fn lay_body(did: u8, second: u8, values: &[u16], out: &mut [u16])
    requires { length out.old ≡ length values.now + 3 }
    ensures { out.new ≡ body_words did second values.now }
{
    let first = forms::byte_word(u16::from(did));
    let next = forms::byte_word(u16::from(second));
    let count = forms::byte_word((values.len() % 256) as u16);
    let (head, users) = out.split_at_mut(3);
    head.copy_from_slice(&[first, next, count]);
    fill::put(values, users, forms::data_word);
}

// These, and the checksum behind them.
fn lay_summed(did: u8, second: u8, values: &[u16], out: &mut [u16])
    requires { length out.old ≡ length values.now + 4 }
    ensures { out.new ≡ body_words did second values.now ++ (checksum (body_words did second values.now) ∷ []) }
{
    let (body, sum) = out.split_at_mut(values.len() + 3);
    lay_body(did, second, values, body);
    sum.copy_from_slice(&[checksum::checksum_of(body)]);
}

// The flag, and all behind it.
#[tactic(auto, unfolding(crate::specs::Packet::packet_words))]
fn lay_whole(did: u8, second: u8, values: &[u16], out: &mut [u16])
    requires { length out.old ≡ length values.now + 7 }
    ensures { out.new ≡ packet_words did second values.now }
{
    let (flag, rest) = out.split_at_mut(3);
    flag.copy_from_slice(&[0x000, 0x3ff, 0x3ff]);
    lay_summed(did, second, values, rest);
}

// Lays a packet into a part that is exactly as long as its words are; into any other part it lays nothing.
#[tactic(auto, unfolding(lists::specs::Tests::pick))]
pub fn lay(did: u8, second: u8, values: &[u16], out: &mut [u16])
    ensures { out.new ≡ laid_in did second values.now out.old }
{
    if 7 <= out.len() && out.len() - 7 == values.len() {
        lay_whole(did, second, values, out);
    }
}
