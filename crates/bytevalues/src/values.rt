// Words lent as bytes, looked at or made words.
ghost use Rattle.std.specs.Prelude.{◌≡◌, ◌<◌, ◌≤◌, ltb, length, take, replicate};
ghost use Rattle.lists.specs.Lists.{each};
ghost use Rattle.octets.specs.Bytes.{words_of};
ghost use Rattle.bytevalues.specs.Standing.{stand_in, standing};

// Each word is below the limit.
fn all_below(limit: u16, bytes: &[u8]) -> bool
    ensures { result ≡ each (λ v. ltb v limit) (words_of bytes.now) }
{
    let mut ok = true;
    for i in 0..bytes.len() / 2 {
        ok &= octets::word_at(bytes, i) < limit;
    }
    ok
}

// A value that stands for all of them where they are too many, so that only 17 asks for them: 0, or one above every limit.
fn stand_in(limit: u16, bytes: &[u8]) -> u16
    ensures { result ≡ stand_in limit (words_of bytes.now) }
{
    if all_below(limit, bytes) { 0 } else { 65535 }
}

// The words of the bytes, at the beginning of a part of zeros; and how many they are. Words that have no room are too many, and others as many as have
// room stand for them.
pub(crate) fn take_in(limit: u16, bytes: &[u8], out: &mut [u16]) -> usize
    requires { (out.old ≡ replicate (length out.old) 0) × (1 ≤ length out.old) }
    ensures { (result ≤ length out.old) × (take result out.new ≡ standing limit (length out.old) (words_of bytes.now)) }
{
    let n = bytes.len() / 2;
    let most = out.len();
    if most < n {
        out[0] = stand_in(limit, bytes);
        return most;
    }
    octets::words_of(bytes, out);
    n
}
