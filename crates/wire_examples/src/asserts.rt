//! What the tests here assert with.

ghost use Rattle.std.specs.Prelude.{◌≡◌, IsTrue};

use std::fmt::Debug;
use std::process::Abort;

/// Asserts that what is found is what is expected. A failed assertion names the case.
///
/// An `assert_eq!` is proved anew in each function that has one, at some cost; a call of this costs little.
pub(crate) fn expect<C: Copy + Debug, T: Copy + Debug + PartialEq>(
    rt: &impl Abort,
    case: C,
    found: T,
    expected: T,
) {
    assert_eq!(rt; found, expected, "{case:?}");
}

/// Asserts what later code relies on. A failed assertion names the case.
///
/// An `assert!` that names a case is proved anew wherever it stands, as an `assert_eq!` is.
pub(crate) fn rely_on<C: Copy + Debug>(rt: &impl Abort, case: C, holds: bool)
    ensures { IsTrue holds }
{
    assert!(rt; holds, "{case:?}");
}

/// Returns what a call made. A failed assertion names the error, which is mostly that memory ran out.
///
/// A `?` is a way out of a function, at which all is dropped that the function owns, and each is proved; a call of this
/// is none.
pub(crate) fn expect_made<T, E: Debug>(rt: &impl Abort, made: Result<T, E>) -> T
    ensures { made ≡ Ok result }
{
    made.expect(rt, "nothing was made")
}
