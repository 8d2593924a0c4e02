// The signed jump: line number less expected number, folded by N into a symmetric range, 0 exactly where the line is the next one,
// whatever numbers are lent: what is a frame or more apart, as no two numbers 1..N are, isn't folded.
ghost use Rattle.std.specs.Prelude.{◌≡◌, pos, neg_ℤ};
ghost use Rattle.std.proofs.Math.IntN.{sub_ℕ};
ghost use Rattle.lists.specs.Tests.{pick};
ghost use Rattle.reader.specs.Jump.{folded, jump_from, is_zero, jump_numbers};
ghost use Rattle.reader.specs.Numbers.{jump_by};

// m ahead, or m behind.
#[tactic(auto, unfolding(lists::specs::Tests::pick))]
fn signed(behind: bool, m: u16) -> i32
    ensures { result ≡ pick behind (neg_ℤ (pos m)) (pos m) }
{
    let d = i32::from(m);
    if behind { -d } else { d }
}

// A distance behind or ahead, folded by N.
#[tactic(auto, unfolding(crate::specs::Jump::folded, lists::specs::Tests::pick))]
fn folded_by(lines: u16, behind: bool, d: u16) -> i32
    ensures { result ≡ folded lines (pick behind (neg_ℤ (pos d)) (pos d)) }
{
    if (d <= lines / 2) | (lines <= d) {
        return signed(behind, d);
    }
    signed(!behind, lines - d)
}

// A number less another, folded by N.
#[tactic(auto, using(crate::proofs::JumpLaws::sub_behind, crate::proofs::JumpLaws::sub_ahead), unfolding(lists::specs::Tests::pick))]
fn folded_less(lines: u16, number: u16, expected: u16) -> i32
    ensures { result ≡ folded lines (sub_ℕ number expected) }
{
    if number < expected {
        return folded_by(lines, true, expected - number);
    }
    folded_by(lines, false, number - expected)
}

// The jump to a line of that number; and its number, or none.
pub fn jump_from(lines: u16, last: Option<u16>, number: u16) -> Option<i32>
    ensures { (result ≡ jump_from lines last number) × (jump_numbers result ≡ jump_by lines last number) }
{
    match last {
        None => None,
        Some(x) => {
            let expected = course::next_number(lines, x);
            Some(folded_less(lines, number, expected))
        }
    }
}

// The jump is 0.
pub fn is_zero(jump: Option<i32>) -> bool
    ensures { result ≡ is_zero jump }
{
    matches!(jump, Some(0))
}
