//! Numbers in arguments.

ghost use Rattle.std.specs.Prelude.{◌≡◌, ◌≤◌, ◌↔◌, ℕ, IfSome, Some, decimal};

use itoa::Buffer;

/// Returns the number that an argument is as a plain decimal, without leading zeros, if it is at most `most`.
pub(crate) fn number(argument: &str, most: u32) -> Option<u32>
    ensures { (n : ℕ) → (argument.now ≡ decimal n) × (n ≤ most) ↔ (result ≡ Some n) }
{
    let number = argument.parse::<u32>().ok()?;
    if number <= most && Buffer::new().format(number) == argument {
        Some(number)
    } else {
        None
    }
}

/// Returns the number that an argument is as a plain decimal, without leading zeros, if it is in a range.
pub(crate) fn number_in(argument: &str, least: u32, most: u32) -> Option<u32>
    ensures number { (n : ℕ) → (argument.now ≡ decimal n) × (least ≤ n) × (n ≤ most)
        ↔ (result ≡ Some n) }
    ensures range { IfSome result (λ n. (least ≤ n) × (n ≤ most)) }
{
    let n = number(argument, most)?;
    if n >= least { Some(n) } else { None }
}
