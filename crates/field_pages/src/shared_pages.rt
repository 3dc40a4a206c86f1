//! The pages of a layer, in groups that layers share.

ghost use Rattle.std.specs.Prelude.{◌≡◌, ◌<◌, ℕ, [], length, IfOk, OnErr, OnOk, slice_index_or, slice_set};
ghost use Rattle.std.specs.Arc.{arc_value};
ghost use Rattle.lattice.specs.declared.point.Point.{Point as PointOf};
ghost use Rattle.field_pages.specs.Places.{page_at};

use crate::page::Page;
use std::alloc::{AllocError, Global};
use std::marker::Model;
use std::sync::Arc;
use terrain::MAX_SAMPLE;

/// How many pages a group has.
const GROUP: usize = 64;

/// Pages that stand one behind the other in a layer.
#[derive(Debug, Drop)]
struct Group {
    pages: Vec<Page>,
}

impl Model for Group {
    ghost use Rattle.std.specs.Prelude.{◌≡◌, ℤ, List, length};
    ghost use Rattle.field_pages.specs.declared.shared_pages.TheConstants.{GROUP};

    ghost Value = { List (List ℤ) };

    ghost view = { λ group. group.pages.items };

    ghost invariant = { λ group. length group.pages.items ≡ GROUP };
}

impl Group {
    /// Returns a group of pages that have the greatest sample at every point. Out of memory is the only error.
    fn empty(alloc: Global) -> Result<Group, AllocError>
        ensures { IfOk result (λ group. (n : ℕ) (p : PointOf) → n < GROUP →
            page_at (slice_index_or group n []) p ≡ MAX_SAMPLE) }
    {
        let mut pages = Vec::with_capacity(alloc, GROUP)?;
        for _ in 0..GROUP {
            pages.push_reserved(Page::empty());
        }
        Ok(Group { pages })
    }

    /// Lends the page at a place.
    fn page(&self, place: usize) -> &Page
        requires { place < GROUP }
        ensures { result.now ≡ slice_index_or self.now place [] }
    {
        &self.pages[place]
    }

    /// Puts a page in a place.
    fn put(&mut self, place: usize, page: Page)
        requires { place < GROUP }
        ensures put { self.new ≡ slice_set self.old place page }
        ensures len { length self.old ≡ GROUP }
    {
        self.pages[place] = page;
    }

    /// Returns a copy, which shares the samples of all pages. Out of memory is the only error.
    fn try_clone(&self, alloc: Global) -> Result<Group, AllocError>
        ensures copy { IfOk result (λ copy. copy ≡ self.now) }
        ensures len { length self.now ≡ GROUP }
    {
        let mut pages = Vec::with_capacity(alloc, self.pages.len())?;
        for page in &self.pages {
            pages.push_reserved(page.try_clone()?);
        }
        Ok(Group { pages })
    }
}

/// The pages of a layer, by y, then x. A copy shares the groups in which they stand until one of a group's pages is
/// replaced, so that a copy costs by the groups and not by the pages.
#[derive(Debug, Drop)]
pub(crate) struct SharedPages {
    count: usize,
    groups: Vec<Arc<Group>>,
}

impl Model for SharedPages {
    ghost use Rattle.std.specs.Prelude.{◌*◌, ◌≤◌, ℤ, List, length, map};
    ghost use Rattle.std.specs.Arc.{arc_value};
    ghost use Rattle.field_pages.specs.declared.shared_pages.TheConstants.{GROUP};
    ghost use Rattle.field_pages.specs.Groups.{ungrouped};

    ghost Value = { List (List ℤ) };

    ghost view = { λ pages. ungrouped pages.count (map arc_value pages.groups.items) };

    ghost invariant = { λ pages. pages.count ≤ GROUP * length pages.groups.items };
}

impl SharedPages {
    /// Returns so many pages that have the greatest sample at every point. Out of memory is the only error.
    pub(crate) fn empty(alloc: Global, count: usize) -> Result<SharedPages, AllocError>
        ensures len { IfOk result (λ pages. length pages ≡ count) }
        ensures samples { IfOk result (λ pages. (n : ℕ) (p : PointOf) → n < count →
            page_at (slice_index_or pages n []) p ≡ MAX_SAMPLE) }
    {
        let group = Arc::new(alloc, Group::empty(alloc)?)?;
        let mut groups = Vec::new(alloc);
        for _ in 0..count / GROUP + 1 {
            groups.push(Arc::try_clone(&group)?)?;
        }
        Ok(SharedPages { count, groups })
    }

    /// Returns how many pages these are.
    pub(crate) fn len(&self) -> usize
        ensures { result ≡ length self.now }
    {
        self.count
    }

    /// Lends the page of a number.
    pub(crate) fn page(&self, number: usize) -> &Page
        requires { number < length self.now }
        ensures { result.now ≡ slice_index_or self.now number [] }
    {
        self.groups[number / GROUP].page(number % GROUP)
    }

    /// Puts a page in the place of this number. Out of memory is the only error, and leaves the pages as they were.
    pub(crate) fn put(&mut self, alloc: Global, number: usize, page: Page) -> Result<(), AllocError>
        requires { number < length self.old }
        ensures put { OnOk result (self.new ≡ slice_set self.old number page) }
        ensures unchanged { OnErr result (self.new ≡ self.old) }
    {
        put_in(
            &mut self.groups[number / GROUP],
            alloc,
            number % GROUP,
            page,
        )
    }

    /// Returns a copy, which shares all pages. Out of memory is the only error.
    pub(crate) fn try_clone(&self, alloc: Global) -> Result<SharedPages, AllocError>
        ensures { IfOk result (λ copy. copy ≡ self.now) }
    {
        let mut groups = Vec::with_capacity(alloc, self.groups.len())?;
        for group in &self.groups {
            groups.push(Arc::try_clone(group)?)?;
        }
        Ok(SharedPages {
            count: self.count,
            groups,
        })
    }

    /// Returns whether the page of a number has samples that no other page shares, in a group that no other layer
    /// shares.
    pub(crate) fn is_own(&self, number: usize) -> bool
        requires { number < length self.now }
    {
        Arc::strong_count(&self.groups[number / GROUP]) == 1 && self.page(number).is_own()
    }
}

/// Puts a page in a place of a group, or of a copy of it where others share it. Out of memory is the only error, and
/// leaves the group as it was.
fn put_in(group: &mut Arc<Group>, alloc: Global, place: usize, page: Page) -> Result<(), AllocError>
    requires { place < GROUP }
    ensures put { OnOk result
        (arc_value group.new ≡ slice_set (arc_value group.old) place page) }
    ensures unchanged { OnErr result (arc_value group.new ≡ arc_value group.old) }
    ensures len { length (arc_value group.old) ≡ GROUP }
{
    if let Some(own) = Arc::get_mut(group) {
        own.put(place, page);
        return Ok(());
    }
    let mut copy = group.try_clone(alloc)?;
    copy.put(place, page);
    *group = Arc::new(alloc, copy)?;
    Ok(())
}
