// The area of a line.
ghost use Rattle.std.specs.Prelude.{◌≡◌, ◌≤◌};
ghost use Rattle.line.specs.Layout.{area_length};

// Flag 00h: the area is all P words. Flag 01h: it is the first P-2.
#[tactic(auto, unfolding(crate::specs::Layout::area_length, lists::specs::Tests::pick))]
pub fn area_length(payload: usize, flag: u8) -> usize
    ensures { (result ≡ area_length payload flag) × (result ≤ payload) }
{
    if flag == 1 {
        payload.saturating_sub(2)
    } else {
        payload
    }
}
