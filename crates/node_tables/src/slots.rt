//! Slots of which most are never used.

ghost use Rattle.std.specs.Prelude.{◌≡◌, ◌+◌, ◌*◌, ◌%◌, ◌<◌, ◌≤◌, ◌++◌, IfOk, MatchOption, None, Some, length, replicate, slice_index_or, slice_set, vec_capacity};
ghost use Rattle.std.specs.Arc.{arc_value};
ghost use Rattle.node_tables.specs.declared.slots.TheConstants.{GROUP};
ghost use Rattle.node_tables.specs.Groups.{GivesPlace, IsGrouped};

use std::alloc::{AllocError, Global};
use std::marker::Model;
use std::sync::Arc;

/// How many slots a group has.
const GROUP: usize = 64;

/// Slots with at most one item each. Others may share the items.
///
/// Contracts see what each slot has. The memory of all slots is taken when they are made, but that of a group of them
/// isn't touched before one gets an item: till then the group has the place of the first group, which stays empty.
#[derive(Debug, Drop)]
pub(crate) struct Slots<T: Drop> {
    count: usize,
    places: Vec<u16>,
    items: Vec<Option<Arc<T>>>,
}

impl<T: Drop> Model for Slots<T> {
    ghost use Rattle.std.specs.Prelude.{◌*◌, ◌≤◌, List, Option, length, vec_capacity};
    ghost use Rattle.std.specs.Arc.{arc_value};
    ghost use Rattle.node_tables.specs.declared.slots.TheConstants.{GROUP};
    ghost use Rattle.node_tables.specs.Groups.{IsGrouped, slots_in};

    ghost Value = { List (Option T) };

    ghost view = { λ slots.
        slots_in arc_value slots.count slots.places.items slots.items.items };

    ghost invariant = { λ slots. record {
      enough : slots.count ≤ GROUP * length slots.places.items;
      grouped : IsGrouped slots.places.items slots.items.items (vec_capacity slots.items);
    } };
}

impl<T: Drop> Slots<T> {
    /// Returns so many slots without an item. Out of memory is the only error.
    pub(crate) fn new(alloc: Global, count: usize) -> Result<Slots<T>, AllocError>
        requires { count ≤ GROUP * u16.MAX }
        ensures { IfOk result (λ slots. slots ≡ replicate count None) }
    {
        let groups = count.div_ceil(GROUP);
        let places = vec![in alloc; 0; groups]?;
        let mut items = Vec::with_capacity(alloc, (groups + 1) * GROUP)?;
        add_group(&mut items);
        Ok(Slots {
            count,
            places,
            items,
        })
    }

    /// Lends the item of a slot, if there is one.
    pub(crate) fn get(&self, at: usize) -> Option<&Arc<T>>
        requires { at < length self.now }
        ensures { MatchOption result (slice_index_or self.now at None ≡ None)
            (λ item. slice_index_or self.now at None ≡ Some (arc_value item.now)) }
    {
        self.items[index_of(self.places[at / GROUP], at)].as_ref()
    }

    /// Puts an item into a slot, in place of what was there.
    pub(crate) fn set(&mut self, at: usize, item: Arc<T>)
        requires { at < length self.old }
        ensures { self.new ≡ slice_set self.old at (Some (arc_value item)) }
    {
        give_place(&mut self.places, &mut self.items, at / GROUP);
        let index = index_of(self.places[at / GROUP], at);
        self.items[index] = Some(item);
    }

    /// Takes the item out of a slot, if there is one.
    pub(crate) fn take(&mut self, at: usize) -> Option<Arc<T>>
        requires { at < length self.old }
        ensures taken { MatchOption result (slice_index_or self.old at None ≡ None)
            (λ item. slice_index_or self.old at None ≡ Some (arc_value item)) }
        ensures slots { self.new ≡ slice_set self.old at None }
    {
        let index = index_of(self.places[at / GROUP], at);
        self.items[index].take()
    }
}

/// Returns where a slot is, if its group has this place.
fn index_of(place: u16, at: usize) -> usize
    ensures { result ≡ place * GROUP + at % GROUP }
{
    usize::from(place) * GROUP + at % GROUP
}

/// Gives a group a place of its own, in reserved room, if it has none yet.
fn give_place<T: Drop>(places: &mut [u16], items: &mut Vec<Option<Arc<T>>>, group: usize)
    requires group { group < length places.old }
    requires grouped { IsGrouped places.old items.old.items (vec_capacity items.old) }
    ensures grouped { IsGrouped places.new items.new.items (vec_capacity items.new) }
    ensures gives { GivesPlace group places.old places.new items.old.items items.new.items }
{
    if places[group] != 0 {
        return;
    }
    let place = (items.len() / GROUP) as u16;
    add_group(items);
    places[group] = place;
}

/// Adds the empty slots of a group, in reserved room.
fn add_group<T: Drop>(items: &mut Vec<Option<Arc<T>>>)
    requires { length items.old.items + GROUP ≤ vec_capacity items.old }
    ensures items { items.new.items ≡ items.old.items ++ replicate GROUP None }
    ensures room { vec_capacity items.new ≡ vec_capacity items.old }
{
    for _ in 0..GROUP {
        items.push_reserved(None);
    }
}
