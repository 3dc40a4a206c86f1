//! What is kept of the newest edits, by which they are undone.

ghost use Rattle.std.specs.Prelude.{◌≡◌, ◌≤◌, [], ◌∷◌, MatchOption, OnErr, OnOk, drop};
ghost use Rattle.terra_events.specs.KeptEdits.{IsFront, all_pages};

use field_pages::Kept;
use std::alloc::{AllocError, Global};
use std::collections::VecDeque;
use std::marker::Model;

/// The most pages that a world keeps to undo edits by: 128 MiB of samples.
pub const MAX_KEPT_PAGES: u32 = 32_768;

/// What is kept of the newest edits, at most `MAX_KEPT_PAGES` pages in all. Where that is too much, the oldest go
/// first.
#[derive(Debug, Drop)]
pub(crate) struct KeptEdits {
    /// The newest of them first.
    list: VecDeque<Kept>,
    pages: u32,
}

impl Model for KeptEdits {
    ghost use Rattle.std.specs.Prelude.{◌≡◌, ◌≤◌, List};
    ghost use Rattle.field_pages.specs.Kept.{OldPages};
    ghost use Rattle.terra_events.specs.KeptEdits.{all_pages};
    ghost use Rattle.terra_events.specs.declared.kept_edits.TheConstants.{MAX_KEPT_PAGES};

    ghost Value = { List OldPages };

    ghost view = { λ kept. kept.list.items };

    ghost invariant = { λ kept.
        (kept.pages ≡ all_pages kept.list.items) × (kept.pages ≤ MAX_KEPT_PAGES) };
}

impl KeptEdits {
    /// Returns what is kept of no edit.
    pub(crate) fn new(alloc: Global) -> KeptEdits
        ensures { result ≡ [] }
    {
        KeptEdits {
            list: VecDeque::new(alloc),
            pages: 0,
        }
    }

    /// Returns what was kept of the newest edit, if it is there.
    pub(crate) fn newest(&self) -> Option<&Kept>
        ensures { MatchOption result (self.now ≡ [])
            (λ kept. self.now ≡ kept.now ∷ drop 1 self.now) }
    {
        self.list.front()
    }

    /// Keeps one more edit, the newest, as long as all have at most `MAX_KEPT_PAGES` pages: else the oldest go, and
    /// where this one alone has more pages, it goes too. Out of memory is the only error, and leaves all as it was.
    pub(crate) fn push(&mut self, kept: Kept) -> Result<(), AllocError>
        ensures front { OnOk result (IsFront self.new (kept ∷ self.old)) }
        ensures unchanged { OnErr result (self.new ≡ self.old) }
    {
        let pages = self.pages + kept.pages();
        self.list.push_front(kept)?;
        self.pages = forget_oldest(&mut self.list, pages);
        Ok(())
    }

    /// Forgets what was kept of the newest edit.
    pub(crate) fn forget_newest(&mut self)
        ensures { self.new ≡ drop 1 self.old }
    {
        if let Some(newest) = self.list.pop_front() {
            self.pages -= newest.pages();
        }
    }
}

/// Forgets the oldest of some edits as long as they keep more than `MAX_KEPT_PAGES` pages, and returns how many they
/// keep then.
fn forget_oldest(list: &mut VecDeque<Kept>, pages: u32) -> u32
    requires { pages ≡ all_pages list.old.items }
    ensures count { result ≡ all_pages list.new.items }
    ensures few { result ≤ MAX_KEPT_PAGES }
    ensures front { IsFront list.new.items list.old.items }
{
    let mut pages = pages;
    while pages > MAX_KEPT_PAGES {
        if let Some(oldest) = list.pop_back() {
            pages -= oldest.pages();
        }
    }
    pages
}
