//! Words that go by runs of 64, where a mark for each says which may not be 0: runs without marks are passed over.

ghost use Rattle.std.specs.Prelude.{◌≡◌, ℕ, ◌<◌, ◌≤◌, ◌&&◌, ◌||◌, false, not, IsTrue, MatchOption, length};
ghost use Rattle.node_tables.specs.Marks.{IsMarked};
ghost use Rattle.node_tables.specs.NodeBits.{has_bit};

use crate::words::{WORD, next_set};

/// Returns the first place from a place on whose bit is set.
pub(crate) fn next_marked(words: &[u64], marks: &[u64], from: usize) -> Option<usize>
    requires { IsMarked words.now marks.now }
    ensures { MatchOption result
        ((p : ℕ) → from ≤ p → has_bit words.now p ≡ false)
        (λ found. (from ≤ found) × IsTrue (has_bit words.now found)
        × ((p : ℕ) → from ≤ p → p < found → has_bit words.now p ≡ false)) }
{
    let first = from / WORD;
    if first >= words.len() {
        return None;
    }
    let word = words[first] & u64::MAX << (from % WORD);
    if word != 0 {
        return Some(first * WORD + word.trailing_zeros() as usize);
    }
    let mut next = first + 1;
    while let Some(index) = next_set(marks, next) {
        let word = words[index];
        if word != 0 {
            return Some(index * WORD + word.trailing_zeros() as usize);
        }
        next = index + 1;
    }
    None
}

/// Sets the bits that others have set, whose marks these are.
pub(crate) fn set_marked(words: &mut [u64], others: &[u64], marks: &[u64])
    requires long { length words.old ≡ length others.now }
    requires marked { IsMarked others.now marks.now }
    ensures { (p : ℕ) → has_bit words.new p ≡ (has_bit words.old p || has_bit others.now p) }
{
    for run in 0..marks.len() {
        if marks[run] != 0 {
            for i in run * WORD..words.len().min(run * WORD + WORD) {
                words[i] |= others[i];
            }
        }
    }
}

/// Clears the bits that others have set, whose marks these are.
pub(crate) fn clear_marked(words: &mut [u64], others: &[u64], marks: &[u64])
    requires long { length words.old ≡ length others.now }
    requires marked { IsMarked others.now marks.now }
    ensures { (p : ℕ) → has_bit words.new p ≡ (has_bit words.old p && not (has_bit others.now p)) }
{
    for run in 0..marks.len() {
        if marks[run] != 0 {
            for i in run * WORD..words.len().min(run * WORD + WORD) {
                words[i] &= !others[i];
            }
        }
    }
}

/// Clears the bits that others haven't set, in words whose marks these are.
pub(crate) fn keep_marked(words: &mut [u64], others: &[u64], marks: &[u64])
    requires long { length words.old ≡ length others.now }
    requires marked { IsMarked words.old marks.now }
    ensures { (p : ℕ) → has_bit words.new p ≡ (has_bit words.old p && has_bit others.now p) }
{
    for run in 0..marks.len() {
        if marks[run] != 0 {
            for i in run * WORD..words.len().min(run * WORD + WORD) {
                words[i] &= others[i];
            }
        }
    }
}

/// Makes words those of others, by the marks of both.
pub(crate) fn copy_marked(words: &mut [u64], others: &[u64], marks: &[u64], other_marks: &[u64])
    requires long { length words.old ≡ length others.now }
    requires marked { IsMarked words.old marks.now }
    requires other_marked { IsMarked others.now other_marks.now }
    ensures { words.new ≡ others.now }
{
    for run in 0..marks.len() {
        if marks[run] | other_marks[run] != 0 {
            for i in run * WORD..words.len().min(run * WORD + WORD) {
                words[i] = others[i];
            }
        }
    }
}

/// Clears all bits of words whose marks these are.
pub(crate) fn empty_marked(words: &mut [u64], marks: &[u64])
    requires { IsMarked words.old marks.now }
    ensures { (p : ℕ) → has_bit words.new p ≡ false }
{
    for run in 0..marks.len() {
        if marks[run] != 0 {
            for i in run * WORD..words.len().min(run * WORD + WORD) {
                words[i] = 0;
            }
        }
    }
}
