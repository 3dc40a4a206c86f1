//! Heights as fractions, and the greater of two.

ghost use Rattle.std.specs.Prelude.{◌≡◌, ◌*◌, ◌<◌, ◌≤◌, ◌⊎◌, ℕ, IfSome, IsTrue, false};
ghost use Rattle.frame_surface.specs.Heights.{IsAtMost, IsHeight};

/// A height: `num / den` units of 1/256 fine cell.
#[derive(Clone, Copy)]
pub(crate) struct Height {
    pub num: u64,
    pub den: u64,
}

/// Returns the greater of two heights, if there is one; the first where both are equal.
pub(crate) fn greater(a: Option<Height>, b: Option<Height>) -> Option<Height>
    requires a { IfSome a IsHeight }
    requires b { IfSome b IsHeight }
    ensures either { (result ≡ a) ⊎ (result ≡ b) }
    ensures above_a { (n d : ℕ) → IsAtMost n d a → IsAtMost n d result }
    ensures above_b { (n d : ℕ) → IsAtMost n d b → IsAtMost n d result }
{
    let (Some(first), Some(second)) = (a, b) else {
        return a.or(b);
    };
    if is_above(second, first) { b } else { a }
}

/// Returns whether a height is greater than another.
fn is_above(a: Height, b: Height) -> bool
    requires a { IsHeight a }
    requires b { IsHeight b }
    ensures above { IsTrue result → b.num * a.den < a.num * b.den }
    ensures below { result ≡ false → a.num * b.den ≤ b.num * a.den }
{
    u128::from(b.num) * u128::from(a.den) < u128::from(a.num) * u128::from(b.den)
}
