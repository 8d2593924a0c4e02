// A line checked, and the packets of its gap listed.
ghost use Rattle.std.specs.Prelude.{◌≡◌};
ghost use Rattle.calls.specs.Looking.{looked, checks, listings, lists};

use hostreads::looking;

pub fn sdti_check(system: u8, mode: u8, line: &[u8], header: &mut [u8]) -> u32
    ensures { looked result header.new ≡ checks system mode line.now header.old }
{
    looking::check_line(system, mode, line, header)
}

pub fn sdti_list(system: u8, mode: u8, line: &[u8], out: &mut [u8], listed: &mut [u8]) -> u32
    ensures { listings result out.new listed.new ≡ lists system mode line.now out.old listed.old }
{
    looking::list_packets(system, mode, line, out, listed)
}
