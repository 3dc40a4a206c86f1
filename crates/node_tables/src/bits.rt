//! Lists of bits of which most aren't set.

ghost use Rattle.std.specs.Prelude.{◌≡◌, ◌≢◌, ℕ, ◌/◌, ◌^◌, ◌<◌, ◌≤◌, ◌&&◌, ◌||◌, false, not, IfOk, IsTrue, MatchOption, length};
ghost use Rattle.node_tables.specs.declared.words.TheConstants.{WORD};
ghost use Rattle.node_tables.specs.NodeBits.{has_bit};

use crate::runs::{clear_marked, copy_marked, empty_marked, keep_marked, next_marked, set_marked};
use crate::words::{WORD, clear, has_bit, keep_all, set, set_all};
use std::alloc::{AllocError, Global};
use std::marker::Model;

/// Bits by places, 64 in a word, and a mark for each word that may not be 0.
///
/// Contracts see the words. What is done with all bits passes over the words without marks.
#[derive(Debug, Drop)]
pub(crate) struct Bits {
    words: Vec<u64>,
    marks: Vec<u64>,
}

impl Model for Bits {
    ghost use Rattle.std.specs.Prelude.{List, ℕ};
    ghost use Rattle.node_tables.specs.Marks.{IsMarked};

    ghost Value = { List ℕ };

    ghost view = { λ bits. bits.words.items };

    ghost invariant = { λ bits. IsMarked bits.words.items bits.marks.items };
}

impl Bits {
    /// Returns so many words without a bit that is set. Out of memory is the only error.
    pub(crate) fn new(alloc: Global, count: usize) -> Result<Bits, AllocError>
        requires { count ≤ 2 ^ 32 }
        ensures long { IfOk result (λ bits. length bits ≡ count) }
        ensures none { IfOk result (λ bits. (p : ℕ) → has_bit bits p ≡ false) }
    {
        let words = vec![in alloc; 0; count]?;
        let marks = vec![in alloc; 0; count.div_ceil(WORD)]?;
        Ok(Bits { words, marks })
    }

    /// Returns whether the bit of a place is set.
    pub(crate) fn has(&self, place: usize) -> bool
        requires { place / WORD < length self.now }
        ensures { result ≡ has_bit self.now place }
    {
        has_bit(&self.words, place)
    }

    /// Sets the bit of a place.
    pub(crate) fn set(&mut self, place: usize)
        requires { place / WORD < length self.old }
        ensures long { length self.new ≡ length self.old }
        ensures here { IsTrue (has_bit self.new place) }
        ensures others { (p : ℕ) → p ≢ place → has_bit self.new p ≡ has_bit self.old p }
    {
        set(&mut self.words, place);
        set(&mut self.marks, place / WORD);
    }

    /// Clears the bit of a place.
    pub(crate) fn clear(&mut self, place: usize)
        requires { place / WORD < length self.old }
        ensures long { length self.new ≡ length self.old }
        ensures here { has_bit self.new place ≡ false }
        ensures others { (p : ℕ) → p ≢ place → has_bit self.new p ≡ has_bit self.old p }
    {
        clear(&mut self.words, place);
        if self.words[place / WORD] == 0 {
            clear(&mut self.marks, place / WORD);
        }
    }

    /// Returns the first place from a place on whose bit is set.
    pub(crate) fn next(&self, from: usize) -> Option<usize>
        ensures { MatchOption result
            ((p : ℕ) → from ≤ p → has_bit self.now p ≡ false)
            (λ found. (from ≤ found) × IsTrue (has_bit self.now found)
            × ((p : ℕ) → from ≤ p → p < found → has_bit self.now p ≡ false)) }
    {
        next_marked(&self.words, &self.marks, from)
    }

    /// Clears all bits.
    pub(crate) fn clear_all(&mut self)
        ensures long { length self.new ≡ length self.old }
        ensures none { (p : ℕ) → has_bit self.new p ≡ false }
    {
        empty_marked(&mut self.words, &self.marks);
        self.marks.fill(0);
    }

    /// Makes the bits those of another list of as many words.
    pub(crate) fn copy_from(&mut self, other: &Bits)
        requires { length self.old ≡ length other.now }
        ensures { self.new ≡ other.now }
    {
        copy_marked(&mut self.words, &other.words, &self.marks, &other.marks);
        self.marks.copy_from_slice(&other.marks);
    }

    /// Sets the bits that another list of as many words has set.
    pub(crate) fn insert_all(&mut self, other: &Bits)
        requires { length self.old ≡ length other.now }
        ensures long { length self.new ≡ length self.old }
        ensures each { (p : ℕ) → has_bit self.new p ≡ (has_bit self.old p || has_bit other.now p) }
    {
        set_marked(&mut self.words, &other.words, &other.marks);
        set_all(&mut self.marks, &other.marks);
    }

    /// Clears the bits that another list of as many words has set.
    pub(crate) fn remove_all(&mut self, other: &Bits)
        requires { length self.old ≡ length other.now }
        ensures long { length self.new ≡ length self.old }
        ensures each { (p : ℕ) → has_bit self.new p
            ≡ (has_bit self.old p && not (has_bit other.now p)) }
    {
        clear_marked(&mut self.words, &other.words, &other.marks);
    }

    /// Clears the bits that another list of as many words hasn't set.
    pub(crate) fn keep_all(&mut self, other: &Bits)
        requires { length self.old ≡ length other.now }
        ensures long { length self.new ≡ length self.old }
        ensures each { (p : ℕ) → has_bit self.new p ≡ (has_bit self.old p && has_bit other.now p) }
    {
        keep_marked(&mut self.words, &other.words, &self.marks);
        keep_all(&mut self.marks, &other.marks);
    }
}
