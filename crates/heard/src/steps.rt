// A step is a line of text: a name, whose first letter counts, and up to 56 decimal numbers, each after one space.
// A line that begins with # is a remark, and an empty line is nothing.
use std::io;
use std::io::Read;

// What was read beside the numbers: the name's first letter, and how many spaces came. The name is 0 where there is none yet: a byte 0 in front
// of a name is passed over, so that an Option would say no more.
#[derive(Clone, Copy)]
pub struct Step {
    pub name: u8,
    pub spaces: usize,
}

impl Step {
    // One byte more. Of a number of ten digits and more the last ten count. Where a step has fewer numbers, what an earlier step left stands there, and
    // no step looks.
    fn feed(&mut self, b: u8, ns: &mut [u64; 56]) {
        match b {
            _ if self.name == 0 => self.name = b,
            b' ' => {
                if let Some(next) = ns.get_mut(self.spaces) {
                    *next = 0;
                    self.spaces += 1;
                }
            }
            b'0'..=b'9' if 0 < self.spaces => {
                if let Some(last) = ns.get_mut(self.spaces - 1) {
                    *last = *last % 1000000000 * 10 + u64::from(b - b'0');
                }
            }
            _ => {}
        }
    }
}

// Reads a step; none is left at the end of the text.
pub(crate) fn read(input: &mut impl Read, ns: &mut [u64; 56]) -> io::Result<Option<Step>> {
    let mut step = Step { name: 0, spaces: 0 };
    for b in input.bytes() {
        match b? {
            b'\n' => return Ok(Some(step)),
            b => step.feed(b, ns),
        }
    }
    Ok(None)
}
