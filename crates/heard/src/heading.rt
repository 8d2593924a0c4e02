// The heading: the settings that a line is opened with, as numbers in the order of harness/states.py, so that the steps are those of harness/steps.c:
// 11 code, 12 AAI, 13 block type, 14 flag, 15 to 30 destination, 31 to 46 source, 47 to 51 reserved. Nobody looks at the numbers before them.
ghost use Rattle.std.specs.Prelude.{◌+◌, ◌≤◌};

use line::settings::Settings;

fn byte(x: u64) -> u8 {
    (x % 256) as u8
}

// So many of the numbers as bytes.
fn bytes_of<const N: usize>(s: &[u64; 52], from: usize) -> [u8; N]
    requires { from + N ≤ 52 }
{
    let mut bytes = [0u8; N];
    for (b, x) in bytes.iter_mut().zip(&s[from..]) {
        *b = byte(*x);
    }
    bytes
}

pub(crate) fn settings_of(s: &[u64; 52]) -> Settings {
    Settings {
        code: byte(s[11]),
        aai: byte(s[12]),
        destination: bytes_of(s, 15),
        source: bytes_of(s, 31),
        block: byte(s[13]),
        flag: byte(s[14]),
        reserved: bytes_of(s, 47),
    }
}

// `Put 2 FROM NUMBER ..`: the numbers of a step from its third on, into the heading from its second on.
pub(crate) fn put(s: &mut [u64; 52], spaces: usize, ns: &[u64; 56]) {
    let from = (ns[1] as usize).min(52);
    let given = ns[..spaces.min(56)].iter().skip(2);
    for (to, x) in s[from..].iter_mut().zip(given) {
        *to = *x;
    }
}
