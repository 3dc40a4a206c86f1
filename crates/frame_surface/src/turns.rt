//! Turns at a place, and the weights of a triangle's corners by them.
//!
//! Each corner counts as much as the area of the triangle of the place and the two other corners. These areas are whole
//! numbers with a sign. They are kept as two parts, what counts to the left and what to the right, so that no number
//! has a sign: the place is in the triangle where all three turns are to one side.

ghost use Rattle.std.specs.Prelude.{◌≡◌, ◌+◌, ◌*◌, ◌≤◌, ℕ, IfNone, IfSome};
ghost use Rattle.frame_surface.specs.Turns.{AreMean, AreWeights, IsSmallPos, IsSpot, MAX_COORDINATE, left_of, right_of, turn_of};

use crate::spot::Spot;
use lattice::Pos;

/// The turn at a place from one position to another.
#[derive(Clone, Copy)]
pub(crate) struct Turn {
    pub left: u64,
    pub right: u64,
}

/// The weights of a triangle's corners.
#[derive(Clone, Copy)]
pub(crate) struct Weights {
    pub p: u64,
    pub q: u64,
    pub r: u64,
}

/// Returns the weights by which a place is the mean of a triangle's corners, if it is: where it lies in the triangle,
/// or on the line of one without area.
pub(crate) fn weights_at(p: Pos, q: Pos, r: Pos, at: Spot) -> Option<Weights>
    requires p { IsSmallPos p }
    requires q { IsSmallPos q }
    requires r { IsSmallPos r }
    requires at { IsSpot at }
    ensures outside { IfNone result
        ((a b c : ℕ) → 1 ≤ a + b + c → AreMean p q r at a b c → ⊥) }
    ensures inside { IfSome result (AreWeights p q r at) }
    ensures p_small { IfSome result (λ w. w.p ≤ 3 * (MAX_COORDINATE * MAX_COORDINATE)) }
    ensures q_small { IfSome result (λ w. w.q ≤ 3 * (MAX_COORDINATE * MAX_COORDINATE)) }
    ensures r_small { IfSome result (λ w. w.r ≤ 3 * (MAX_COORDINATE * MAX_COORDINATE)) }
{
    let (a, b, c) = (
        turn_between(q, r, at),
        turn_between(r, p, at),
        turn_between(p, q, at),
    );
    if a.right <= a.left && b.right <= b.left && c.right <= c.left {
        Some(Weights {
            p: a.left - a.right,
            q: b.left - b.right,
            r: c.left - c.right,
        })
    } else if a.left <= a.right && b.left <= b.right && c.left <= c.right {
        Some(Weights {
            p: a.right - a.left,
            q: b.right - b.left,
            r: c.right - c.left,
        })
    } else {
        None
    }
}

/// Returns the turn at a place from p to q.
fn turn_between(p: Pos, q: Pos, at: Spot) -> Turn
    requires p { IsSmallPos p }
    requires q { IsSmallPos q }
    requires at { IsSpot at }
    ensures value { result ≡ turn_of p q at }
    ensures left { result.left ≤ 3 * (MAX_COORDINATE * MAX_COORDINATE) }
    ensures right { result.right ≤ 3 * (MAX_COORDINATE * MAX_COORDINATE) }
{
    Turn {
        left: product(p.x, q.y) + product(q.x, at.y) + product(at.x, p.y),
        right: product(q.x, p.y) + product(p.x, at.y) + product(at.x, q.y),
    }
}

/// Returns the product of two coordinates.
#[inline(always)]
fn product(a: u32, b: u32) -> u64
    requires a { a ≤ MAX_COORDINATE }
    requires b { b ≤ MAX_COORDINATE }
    ensures value { result ≡ a * b }
    ensures small { result ≤ MAX_COORDINATE * MAX_COORDINATE }
{
    u64::from(a) * u64::from(b)
}
