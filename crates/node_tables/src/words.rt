//! Bits by places, 64 in a word.

ghost use Rattle.std.specs.Prelude.{◌≡◌, ◌≢◌, ℕ, ◌/◌, ◌^◌, ◌<◌, ◌≤◌, ◌&&◌, ◌||◌, false, IsTrue, MatchOption, length};
ghost use Rattle.node_tables.specs.declared.words.TheConstants.{WORD};
ghost use Rattle.node_tables.specs.NodeBits.{has_bit};

/// How many bits a word has.
pub(crate) const WORD: usize = 64;

/// Returns whether the bit of a place is set.
pub(crate) fn has_bit(words: &[u64], place: usize) -> bool
    requires { place / WORD < length words.now }
    ensures { result ≡ has_bit words.now place }
{
    words[place / WORD] >> (place % WORD) & 1 == 1
}

/// Sets the bit of a place.
pub(crate) fn set(words: &mut [u64], place: usize)
    requires { place / WORD < length words.old }
    ensures here { IsTrue (has_bit words.new place) }
    ensures others { (p : ℕ) → p ≢ place → has_bit words.new p ≡ has_bit words.old p }
{
    words[place / WORD] |= 1 << (place % WORD);
}

/// Clears the bit of a place.
pub(crate) fn clear(words: &mut [u64], place: usize)
    requires { place / WORD < length words.old }
    ensures here { has_bit words.new place ≡ false }
    ensures others { (p : ℕ) → p ≢ place → has_bit words.new p ≡ has_bit words.old p }
{
    words[place / WORD] &= !(1 << (place % WORD));
}

/// Returns the first place from a place on whose bit is set.
pub(crate) fn next_set(words: &[u64], from: usize) -> Option<usize>
    requires { length words.now ≤ 2 ^ 32 }
    ensures { MatchOption result
        ((p : ℕ) → from ≤ p → has_bit words.now p ≡ false)
        (λ found. (from ≤ found) × IsTrue (has_bit words.now found)
        × ((p : ℕ) → from ≤ p → p < found → has_bit words.now p ≡ false)) }
{
    let first = from / WORD;
    if first >= words.len() {
        return None;
    }
    let word = words[first] & u64::MAX << (from % WORD);
    if word != 0 {
        return Some(first * WORD + word.trailing_zeros() as usize);
    }
    for index in first + 1..words.len() {
        let word = words[index];
        if word != 0 {
            return Some(index * WORD + word.trailing_zeros() as usize);
        }
    }
    None
}

/// Sets the bits that others have set.
pub(crate) fn set_all(words: &mut [u64], others: &[u64])
    requires { length words.old ≡ length others.now }
    ensures { (p : ℕ) → has_bit words.new p ≡ (has_bit words.old p || has_bit others.now p) }
{
    for i in 0..words.len() {
        words[i] |= others[i];
    }
}

/// Clears the bits that others haven't set.
pub(crate) fn keep_all(words: &mut [u64], others: &[u64])
    requires { length words.old ≡ length others.now }
    ensures { (p : ℕ) → has_bit words.new p ≡ (has_bit words.old p && has_bit others.now p) }
{
    for i in 0..words.len() {
        words[i] &= others[i];
    }
}
