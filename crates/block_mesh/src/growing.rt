//! Lists that grow, and keep their room.

ghost use Rattle.std.specs.Prelude.{◌≡◌, ◌<◌, ◌≤◌, ◌++◌, [], ◌∷◌, IfOk, OnOk, length, take};

use std::alloc::{AllocError, Global};
use std::marker::Model;

/// How much room is taken at first.
const LEAST: usize = 1024;

/// A list to which items are added by a store each, where `Vec::push` is a call. Its room stays where the items go.
///
/// Contracts see the items that were added.
#[derive(Drop)]
pub(crate) struct Growing<T: Copy> {
    /// The items, and behind them what fills the room.
    items: Vec<T>,
    /// How many of these are items.
    count: usize,
    /// What new room is filled with.
    filler: T,
}

impl<T: Copy> Model for Growing<T> {
    ghost use Rattle.std.specs.Prelude.{◌≤◌, List, length, take};

    ghost Value = { List T };

    ghost view = { λ g. take g.count g.items.items };

    ghost invariant = { λ g. g.count ≤ length g.items.items };
}

impl<T: Copy> Growing<T> {
    /// Returns the empty list. What its room is filled with doesn't show.
    pub(crate) fn new(alloc: Global, filler: T) -> Growing<T>
        ensures { result ≡ [] }
    {
        Growing {
            items: Vec::new(alloc),
            count: 0,
            filler,
        }
    }

    /// Returns how many items there are.
    pub(crate) fn len(&self) -> usize
        ensures { result ≡ length self.now }
    {
        self.count
    }

    /// Takes all items out. The room stays.
    pub(crate) fn clear(&mut self)
        ensures { self.new ≡ [] }
    {
        self.count = 0;
    }

    /// Adds an item behind the others.
    #[inline(always)]
    pub(crate) fn push(&mut self, item: T) -> Result<(), AllocError>
        ensures { OnOk result (self.new ≡ self.old ++ item ∷ []) }
    {
        if self.count == self.items.len() {
            grow(&mut self.items, self.filler)?;
        }
        self.items[self.count] = item;
        self.count += 1;
        Ok(())
    }

    /// Lends the items.
    pub(crate) fn items(&self) -> &[T]
        ensures { result.now ≡ self.now }
    {
        &self.items[..self.count]
    }

    /// Returns the items as a vector.
    pub(crate) fn to_vec(&self, alloc: Global) -> Result<Vec<T>, AllocError>
        ensures { IfOk result (λ made. made.items ≡ self.now) }
    {
        let mut made = Vec::new(alloc);
        made.extend_from_slice(self.items())?;
        Ok(made)
    }
}

/// Makes a list about twice as long, by a filler behind its items.
#[inline(never)]
fn grow<T: Copy>(items: &mut Vec<T>, filler: T) -> Result<(), AllocError>
    ensures kept { take (length items.old.items) items.new.items ≡ items.old.items }
    ensures most { length items.old.items ≤ length items.new.items }
    ensures room { OnOk result (length items.old.items < length items.new.items) }
{
    let count = items.len();
    items.resize(count.saturating_add(count.max(LEAST)), filler)
}
