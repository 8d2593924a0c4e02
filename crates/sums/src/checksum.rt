// The checksum of a lent part.
ghost use Rattle.std.specs.Prelude.{◌≡◌};
ghost use Rattle.words.specs.Checksum.{checksum};

use words::forms;

// The sum of the nine low bits of the words, modulo 512, in data form.
pub fn checksum_of(s: &[u16]) -> u16
    ensures { result ≡ checksum s.now }
{
    let mut sum = 0u16;
    for w in s {
        sum = (sum + *w % 512) % 512;
    }
    forms::data_word(sum)
}
