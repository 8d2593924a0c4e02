// A line lent as bytes, and what goes back to it.
ghost use Rattle.std.specs.Prelude.{◌≡◌, true, ◌&&◌, ◌+◌, ◌-◌, ◌*◌, ◌<◌, ◌≤◌, leb, length, drop};
ghost use Rattle.std.proofs.Math.Seq.{paste};
ghost use Rattle.octets.specs.Bytes.{words_of, bytes_of, is_even};

// An even number of bytes, and no more than the longest line has: a longer one is fit for no system.
pub(crate) fn is_lent(line: &[u8]) -> bool
    ensures { result ≡ (is_even line.now && leb (length line.now) 4608) }
{
    octets::is_even(line) & (line.len() <= 4608)
}

// The words from start + before to start + after go back as bytes, and no other byte is written; where nothing was laid, none is.
pub(crate) fn give_back(words: &[u16], start: usize, before: usize, after: usize, line: &mut [u8])
    requires { (before < after → start + after ≤ length words.now) × (length line.old ≡ 2 * length words.now) }
    ensures { line.new ≡ bytes_of (paste (words_of line.old) (start + before) (drop (start + before) words.now) (after - before)) }
{
    if after <= before {
        return;
    }
    let a = start + before;
    let e = start + after;
    let from = 2 * a;
    let to = 2 * e;
    octets::bytes_of(&words[a..e], &mut line[from..to]);
}

// The words of a place go back as bytes from word start + before on, as many as lie between; where nothing was laid, none does.
pub(crate) fn give_place(place: &[u16], start: usize, before: usize, after: usize, line: &mut [u8])
    requires { (before < after → (start + after ≤ length (words_of line.old)) × (after - before ≤ length place.now)) × (is_even line.old ≡ true) }
    ensures { line.new ≡ bytes_of (paste (words_of line.old) (start + before) place.now (after - before)) }
{
    if after <= before {
        return;
    }
    let k = after - before;
    let from = 2 * (start + before);
    let to = 2 * (start + after);
    octets::bytes_of(&place[..k], &mut line[from..to]);
}
