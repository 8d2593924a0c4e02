// Lent parts filled with words. Each is lent exactly the part that it fills, so that no promise has an offset.
ghost use Rattle.std.specs.Prelude.{◌≡◌, ℕ, map, ◌+◌, ◌<◌, ◌≤◌, length, take, drop, slice_index};
ghost use Rattle.words.specs.Modes.{word_of};

// Each word as f makes it of a value.
fn put_each<F: Fn(u16) -> u16>(f: F, values: &[u16], out: &mut [u16])
    requires long { length out.old ≡ length values.now }
    requires calls { F.IsAlwaysCallable f }
    ensures { (k : ℕ) → k < length values.now → F.post f (slice_index values.now k) (slice_index out.new k) }
{
    for (i, o) in out.iter_mut().enumerate() {
        *o = f(values[i]);
    }
}

// The values as the mode writes them: the mode is asked once, and no word is tested.
pub(crate) fn put_values(mode: u8, values: &[u16], out: &mut [u16])
    requires { length out.old ≡ length values.now }
    ensures { out.new ≡ map (word_of mode) values.now }
{
    if mode == 8 {
        put_each(|v| words::forms::byte_word(v), values, out);
    } else {
        put_each(|v| words::forms::data_word(v), values, out);
    }
}
