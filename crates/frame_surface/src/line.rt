//! The greatest height on a line, for triangles that stand upright over a place or have no area.

ghost use Rattle.std.specs.Prelude.{◌≡◌, [], ◌∷◌, ◌*◌, ◌≤◌, ℕ, IfSome};
ghost use Rattle.frame_surface.specs.Heights.{IsAtMost, IsHeight};
ghost use Rattle.frame_surface.specs.Lines.{CoversOnLine, IsSmallMark};
ghost use Rattle.frame_surface.specs.Turns.{MAX_COORDINATE};

use crate::height::{Height, greater};
use lattice::Pos;

/// A mark on a line: its place, and the height there, in units of 1/256 fine cell.
#[derive(Clone, Copy)]
pub(crate) struct Mark {
    pub at: u32,
    pub z: u32,
}

impl Mark {
    ghost use Rattle.frame_surface.specs.Lines.{by_x, by_y};

    /// Returns the mark of a position by its x.
    pub(crate) fn by_x(p: Pos) -> Mark
        ensures { result ≡ by_x p }
    {
        Mark { at: p.x, z: p.z }
    }

    /// Returns the mark of a position by its y.
    pub(crate) fn by_y(p: Pos) -> Mark
        ensures { result ≡ by_y p }
    {
        Mark { at: p.y, z: p.z }
    }
}

/// Returns the greatest height that three marks cover at a place on their line, if they cover any. It is one that two
/// of them cover.
pub(crate) fn top_of_three(a: Mark, b: Mark, c: Mark, at: u32) -> Option<Height>
    requires a { IsSmallMark a }
    requires b { IsSmallMark b }
    requires c { IsSmallMark c }
    requires at { at ≤ MAX_COORDINATE }
    ensures covers { IfSome result
        (λ h. CoversOnLine (a ∷ b ∷ c ∷ []) at h.num h.den) }
    ensures greatest { (n d : ℕ) → CoversOnLine (a ∷ b ∷ c ∷ []) at n d → IsAtMost n d result }
    ensures small { IfSome result IsHeight }
{
    let two = greater(top_of_two(a, b, at), top_of_two(b, c, at));
    greater(two, top_of_two(c, a, at))
}

/// Returns the greatest height that two marks cover at a place on their line, if they cover any.
fn top_of_two(a: Mark, b: Mark, at: u32) -> Option<Height>
    requires a { IsSmallMark a }
    requires b { IsSmallMark b }
    requires at { at ≤ MAX_COORDINATE }
    ensures covers { IfSome result (λ h. CoversOnLine (a ∷ b ∷ []) at h.num h.den) }
    ensures greatest { (n d : ℕ) → CoversOnLine (a ∷ b ∷ []) at n d → IsAtMost n d result }
    ensures small { IfSome result IsHeight }
{
    if a.at <= at && at <= b.at {
        Some(top_between(a, b, at))
    } else if b.at <= at && at <= a.at {
        Some(top_between(b, a, at))
    } else {
        None
    }
}

/// Returns the greatest height that two marks cover at a place between them.
fn top_between(a: Mark, b: Mark, at: u32) -> Height
    requires a { IsSmallMark a }
    requires b { IsSmallMark b }
    requires behind { a.at ≤ at }
    requires before { at ≤ b.at }
    ensures covers { CoversOnLine (a ∷ b ∷ []) at result.num result.den }
    ensures greatest { (n d : ℕ) → CoversOnLine (a ∷ b ∷ []) at n d
        → n * result.den ≤ result.num * d }
    ensures small { IsHeight result }
{
    if a.at == b.at {
        return Height {
            num: a.z.max(b.z).into(),
            den: 1,
        };
    }
    let (back, on) = (u64::from(at - a.at), u64::from(b.at - at));
    Height {
        num: on * u64::from(a.z) + back * u64::from(b.z),
        den: on + back,
    }
}
