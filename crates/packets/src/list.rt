// The packets in the gap of an accepted line, listed flat: DID, second word, how many user words, and these. A packet has four words fewer
// there than in the gap, so that the list always fits a buffer of the gap's length.
ghost use Rattle.std.specs.Prelude.{◌≡◌, ◌+◌, ◌≤◌, length};
ghost use Rattle.line.specs.Systems.{system_of};
ghost use Rattle.packets.specs.Packet.{entry_of};
ghost use Rattle.packets.specs.Gap.{count_at, packet_at, list_in};
ghost use Rattle.packets.specs.Listing.{gap_length, outcome, none_listed, listed_of, listing};

use crate::packet::Look;
use crate::{fill, packet};
use line::systems;
use linecheck::check;

// What the listing answers: 1 or the line check's number, or 0; and where it is 0, how many packets there are, how many words the flat list has
// and how many words of the gap they take; and the number of the bad packet that ended the list, 21, 22 or 23, or 0.
#[derive(Clone, Copy)]
pub struct Listed {
    pub fault: u8,
    pub packets: usize,
    pub words: usize,
    pub gap: usize,
    pub stop: u8,
}

// The packet at the front of the gap, flat, into a part of its length.
fn list_one(gap: &[u16], out: &mut [u16])
    requires { (count_at gap.now + 7 ≤ length gap.now) × (length out.old ≡ count_at gap.now + 3) }
    ensures { out.new ≡ entry_of (packet_at gap.now) }
{
    let count = gap[5] % 256;
    let end = count as usize + 6;
    let (head, values) = out.split_at_mut(3);
    head.copy_from_slice(&[gap[3] % 256, gap[4] % 256, count]);
    fill::put(&gap[6..end], values, |w| w % 512);
}

// No packet is listed: the line has a fault, or the list ends here, with the number of a bad packet or with none.
fn none_listed(fault: u8, stop: u8) -> Listed
    ensures { result ≡ none_listed fault stop }
{
    Listed {
        fault,
        packets: 0,
        words: 0,
        gap: 0,
        stop,
    }
}

// The packets from the front of the gap on: the first, and by a call for what lies behind it the others.
fn list_from(gap: &[u16], out: &mut [u16]) -> Listed
    requires { length gap.now ≤ length out.old }
    ensures { outcome result out.new ≡ listed_of (list_in gap.now) out.old }
{
    match packet::look_at(gap) {
        Look::Nothing => none_listed(0, 0),
        Look::Bad(stop) => none_listed(0, stop),
        Look::Whole { count, .. } => {
            let k = count as usize + 3;
            let long = count as usize + 7;
            list_one(gap, &mut out[..k]);
            let rest = list_from(&gap[long..], &mut out[k..]);
            Listed {
                fault: 0,
                packets: rest.packets + 1,
                words: rest.words + k,
                gap: rest.gap + long,
                stop: rest.stop,
            }
        }
    }
}

// How many words the gap of a line has; 0 where there is no such system.
pub fn gap_length(system: u8) -> usize
    ensures { result ≡ gap_length (system_of system) }
{
    let s = systems::system_of(system);
    s.length.saturating_sub(s.payload).saturating_sub(61)
}

// Lists the packets in a line's gap.
pub fn list(system: u8, mode: u8, line: &[u16], out: &mut [u16]) -> Listed
    ensures { outcome result out.new ≡ listing system mode line.now out.old }
{
    let gap = gap_length(system);
    if out.len() != gap {
        return none_listed(1, 0);
    }
    let fault = check::check(system, mode, line).fault;
    if fault != 0 {
        return none_listed(fault, 0);
    }
    let end = 57 + gap;
    list_from(&line[57..end], out)
}
