// A word of a command line, as it was read: whether it is there, and what it says. No contract can say what stands on a command line, so each program reads
// its words itself; what they are by what was read is said here, for every answer and every room. Word 0 is the program's own name.
#![tactic(auto)]

ghost use Rattle.std.specs.Prelude.{◌≡◌, ◌%◌};
ghost use Rattle.lists.specs.Lists.{same};
ghost use Rattle.octets.specs.Numbers.{number_of};
ghost use Rattle.arguments.specs.Words.{is_there, text, letter};

use std::env::FillError;

// What the reading of a word answered, and the room that was lent to it, with zeros.
#[derive(Clone, Copy)]
pub struct Word {
    pub read: Result<usize, FillError>,
    pub room: [u8; 8],
}

impl Word {
    // The word is there, however long it is.
    pub fn is_there(&self) -> bool
        ensures { result ≡ is_there self.now }
    {
        !matches!(self.read, Err(FillError::NotPresent))
    }

    // The bytes of the word; none where it is not there, or has more than there is room for. No reading answers more than eight.
    pub fn text(&self) -> &[u8]
        ensures { result.now ≡ text self.now }
    {
        let n = self.read.unwrap_or(0);
        &self.room[..n.min(8)]
    }

    // The word is this one, of up to eight bytes.
    pub fn is(&self, name: &[u8]) -> bool
        ensures { result ≡ same (text self.now) name.now }
    {
        lists::same(self.text(), name)
    }

    // The first letter of the word; 0 where there is none. Of a longer word the room has the first eight bytes.
    pub fn letter(&self) -> u8
        ensures { result ≡ letter self.now }
    {
        self.room[0]
    }

    // The number that the word is, up to 9,999; 10000 where it is none. A word of more than eight bytes is none.
    pub fn number(&self) -> u16
        ensures { result ≡ number_of (text self.now) }
    {
        octets::number_of(self.text())
    }

    // The mode that the word says: its number modulo 256.
    pub fn mode(&self) -> u8
        ensures { result ≡ number_of (text self.now) % 256 }
    {
        (self.number() % 256) as u8
    }
}
