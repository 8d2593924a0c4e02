// A line checked, and the packets of its gap listed. No state is asked.
ghost use Rattle.std.specs.Prelude.{◌≡◌, ◌≤◌, length};
ghost use Rattle.line.specs.Check.{checked_of};
ghost use Rattle.packets.specs.Listing.{outcome, listing};
ghost use Rattle.octets.specs.Bytes.{words_of};
ghost use Rattle.calls.specs.Looking.{looked, checks, listings, lists};

use fields::numbers;
use line::check::Checked;
use linecheck::check;
use packets::list;
use packets::list::Listed;

// The words that the bytes spell, in the front of the room for them.
fn words_in<'a>(line: &[u8], room: &'a mut [u16; 2304]) -> &'a [u16]
    requires { length (words_of line.now) ≤ 2304 }
    ensures { result.now ≡ words_of line.now }
{
    octets::words_of(line, room);
    &room[..line.len() / 2]
}

// The line check on the words that the bytes spell.
fn check_bytes(system: u8, mode: u8, line: &[u8]) -> Checked
    requires { length (words_of line.now) ≤ 2304 }
    ensures { result ≡ checked_of system mode (words_of line.now) }
{
    let mut room = [0u16; 2304];
    check::check(system, mode, words_in(line, &mut room))
}

// The list of the packets in the gap of the line that the bytes spell.
fn list_bytes(system: u8, mode: u8, line: &[u8], out: &mut [u16]) -> Listed
    requires { length (words_of line.now) ≤ 2304 }
    ensures { outcome result out.new ≡ listing system mode (words_of line.now) out.old }
{
    let mut room = [0u16; 2304];
    list::list(system, mode, words_in(line, &mut room), out)
}

pub fn check_line(system: u8, mode: u8, line: &[u8], header: &mut [u8]) -> u32
    ensures { looked result header.new ≡ checks system mode line.now header.old }
{
    if (line.len() % 2 != 0) | (4608 < line.len()) {
        return 1;
    }
    if header.len() != 43 {
        return 1;
    }
    let c = check_bytes(system, mode, line);
    if c.fault == 1 {
        return 1;
    }
    numbers::put_header(c.number, c.settings, header);
    c.fault as u32
}

pub fn list_packets(system: u8, mode: u8, line: &[u8], out: &mut [u8], listed: &mut [u8]) -> u32
    ensures { listings result out.new listed.new ≡ lists system mode line.now out.old listed.old }
{
    if (line.len() % 2 != 0) | (4608 < line.len()) {
        return 1;
    }
    if (out.len() % 2 != 0) | (1024 < out.len()) {
        return 1;
    }
    if listed.len() != 16 {
        return 1;
    }
    let m = out.len() / 2;
    let mut flat = [0u16; 512];
    octets::words_of(out, &mut flat);
    let x = list_bytes(system, mode, line, &mut flat[..m]);
    if x.fault == 1 {
        return 1;
    }
    octets::bytes_of(&flat[..m], out);
    numbers::put_four(x.packets, x.words, x.gap, x.stop as usize, listed);
    x.fault as u32
}
