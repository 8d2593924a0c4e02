// A lent gap filled with filler. It is lent alone, so that the promise has no offset.
ghost use Rattle.std.specs.Prelude.{◌≡◌, ◌+◌, ◌≤◌, length};
ghost use Rattle.line.specs.Layout.{gap_word, gap_words};

// The filler of the gap: by the line's own index, the first word's being index.
pub(crate) fn put_gap(index: usize, out: &mut [u16])
    requires { index ≤ 65535 }
    ensures { out.new ≡ gap_words index (length out.old) }
{
    for (i, o) in out.iter_mut().enumerate() {
        *o = gap_word(index % 2, i);
    }
}

// The filler at place i of a gap whose first index is even (0) or odd (1).
fn gap_word(odd: usize, i: usize) -> u16
    requires { odd ≤ 1 }
    ensures { result ≡ gap_word (odd + i) }
{
    if (odd + i % 2) % 2 == 0 { 0x200 } else { 0x040 }
}
