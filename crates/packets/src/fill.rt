// Lent parts filled with words. Each is lent exactly the part that it fills.
ghost use Rattle.std.specs.Prelude.{◌≡◌, ℕ, map, length};

// What f makes of each word.
pub(crate) fn put<F: Fn(u16) -> u16>(src: &[u16], out: &mut [u16], f: F)
    requires callable { F.IsAlwaysCallable f }
    requires long { length out.old ≡ length src.now }
    ensures { (g : ℕ → ℕ) → ((w v : ℕ) → F.post f w v → v ≡ g w) → out.new ≡ map g src.now }
{
    for (i, w) in src.iter().enumerate() {
        out[i] = f(*w);
    }
}
