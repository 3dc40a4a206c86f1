//! The greatest height of a triangle over a place.

ghost use Rattle.std.specs.Prelude.{◌≡◌, ◌*◌, [], ◌∷◌, ◌<◌, ◌≤◌, ◌⊎◌, ℕ, IfSome, IsTrue};
ghost use Rattle.frame_surface.specs.Heights.{Covers, IsAtMost, IsHeight};
ghost use Rattle.frame_surface.specs.Turns.{IsFlat, IsSmallPos, IsSpot, MAX_COORDINATE};

use crate::height::Height;
use crate::line::{Mark, top_of_three};
use crate::spot::Spot;
use crate::turns::weights_at;
use lattice::Pos;

/// Returns the greatest height that a triangle covers over a place, if it covers any there.
pub(crate) fn top(p: Pos, q: Pos, r: Pos, at: Spot) -> Option<Height>
    requires p { IsSmallPos p }
    requires q { IsSmallPos q }
    requires r { IsSmallPos r }
    requires at { IsSpot at }
    ensures covers { IfSome result
        (λ h. Covers (p ∷ q ∷ r ∷ []) at.x at.y h.num h.den) }
    ensures greatest { (n d : ℕ) → Covers (p ∷ q ∷ r ∷ []) at.x at.y n d → IsAtMost n d result }
    ensures small { IfSome result IsHeight }
{
    let weights = weights_at(p, q, r, at)?;
    let den = weights.p + weights.q + weights.r;
    if den == 0 {
        return top_of_flat(p, q, r, at);
    }
    let num = weighed(weights.p, p.z) + weighed(weights.q, q.z) + weighed(weights.r, r.z);
    Some(Height { num, den })
}

/// Returns the height of a corner as often as its weight says.
#[inline(always)]
fn weighed(weight: u64, z: u32) -> u64
    requires weight { weight ≤ 3 * (MAX_COORDINATE * MAX_COORDINATE) }
    requires z { z ≤ MAX_COORDINATE }
    ensures value { result ≡ weight * z }
    ensures small { result ≤ 3 * (MAX_COORDINATE * MAX_COORDINATE) * MAX_COORDINATE }
{
    weight * u64::from(z)
}

/// Returns the same of a triangle any two of whose corners lie on a line with the place. Seen from above it is a part
/// of a line through the place, or a point: its heights are those of marks on that line.
fn top_of_flat(p: Pos, q: Pos, r: Pos, at: Spot) -> Option<Height>
    requires p { IsSmallPos p }
    requires q { IsSmallPos q }
    requires r { IsSmallPos r }
    requires at { IsSpot at }
    requires flat { IsFlat p q r at }
    ensures covers { IfSome result
        (λ h. Covers (p ∷ q ∷ r ∷ []) at.x at.y h.num h.den) }
    ensures greatest { (n d : ℕ) → Covers (p ∷ q ∷ r ∷ []) at.x at.y n d → IsAtMost n d result }
    ensures small { IfSome result IsHeight }
{
    if p.x == at.x && q.x == at.x && r.x == at.x {
        top_of_three(Mark::by_y(p), Mark::by_y(q), Mark::by_y(r), at.y)
    } else {
        top_of_three(Mark::by_x(p), Mark::by_x(q), Mark::by_x(r), at.x)
    }
}

/// Returns whether a coordinate is less, or greater, than all three others: a triangle with these covers nothing there.
#[inline(always)]
pub(crate) fn is_beside(p: u32, q: u32, r: u32, at: u32) -> bool
    ensures { IsTrue result → ((at < p) × (at < q) × (at < r)) ⊎ ((p < at) × (q < at) × (r < at)) }
{
    at < p.min(q).min(r) || p.max(q).max(r) < at
}
