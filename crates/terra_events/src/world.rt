//! Worlds, which grow by events.

ghost use Rattle.std.specs.Prelude.{◌≡◌, ℕ, ◌<◌, ◌≤◌, ◌↔◌, List, [], ◌∷◌, ◌++◌, drop, length, IfOk, IsErrOf, OnErr, OnOk};
ghost use Rattle.std.specs.Option.{ForSome};
ghost use Rattle.field_pages.specs.Pages.{HoldsField};
ghost use Rattle.lattice.specs.declared.node.Node.{Node as NodeOf};
ghost use Rattle.lattice.specs.Point.{IsInWorld};
ghost use Rattle.lattice.specs.Settings.{IsSettings};
ghost use Rattle.octree.specs.SplitBits.{split_at};
ghost use Rattle.terra_events.specs.World as spec;
ghost use Rattle.terrain.specs.Blocks.{touched};
ghost use Rattle.terrain.specs.Brushes.{IsLawful, region};
ghost use Rattle.terrain.specs.History.{HasNothingToUndo, IsLawfulEvent, in_force, sample, undoes_nothing};
ghost use Rattle.terrain.specs.Levels.{IsBalanced, levels};

use crate::edited::EditedField;
use crate::fault::ApplyFault;
use crate::met::met_leaves;
use event_laws::{
    bricks_read_their_leaf, levels_follow_the_viewpoints, touched_leaves_are_met_or_changed,
    untouched_leaves_keep_their_bricks,
};
use field_laws::{fields_follow_the_edits_in_force, histories_grow_by_events};
use field_pages::Version;
use lattice::{Node, Point, Region, Settings};
use octree::{Levels, Viewpoints, choose, follow, leaf_change};
use std::alloc::{AllocError, Global};
use std::marker::Model;
use std::sync::Arc;
use terrain::{Brush, Event, MAX_EVENTS};

/// The leaves that an event touched, and those that it made none, each in the order of nodes.
#[derive(Debug, Drop)]
pub struct Touched {
    pub leaves: Vec<Node>,
    pub lost: Vec<Node>,
}

/// A world: its settings, the journal of its events, and the field and the level map after them.
///
/// Contracts see these, and for how many events there is room. The field and the level map are always those of the
/// journal.
#[derive(Debug)]
pub struct World {
    settings: Settings,
    events: Vec<Event>,
    /// The field, and the edits in force that make it.
    field: EditedField,
    levels: Arc<Levels>,
    /// Where the events left each viewpoint, for which the level map was chosen.
    views: Viewpoints,
}

impl Model for World {
    ghost use Rattle.std.specs.Prelude.{◌≡◌, vec_capacity};
    ghost use Rattle.terra_events.specs.World.{AreViewsOf, IsSoundWorld, WorldState};
    ghost use Rattle.terrain.specs.History.{in_force};

    ghost Value = { WorldState };

    ghost view = { λ world. record {
      settings = world.settings;
      events = world.events.items;
      room = vec_capacity world.events;
      version = world.field.version;
      levels = world.levels.value;
    } };

    ghost invariant = { λ world. IsSoundWorld (record {
      settings = world.settings;
      events = world.events.items;
      room = vec_capacity world.events;
      version = world.field.version;
      levels = world.levels.value;
    }) × AreViewsOf world.settings world.events.items world.views
        × (world.field.edits ≡ in_force world.events.items) };
}

// Written out, since a derived drop is proved anew in each crate that drops a world.
impl Drop for World {
    fn drop(self) {
        let Self {
            settings: _,
            events: _events,
            field: _field,
            levels: _levels,
            views: _,
        } = self;
    }
}

impl World {
    ghost use Rattle.terra_events.specs.World.{IsWorldOf, KeepsBricksBut, KeepsTheOther, lost_by, placing};
    ghost use Rattle.terrain.specs.declared.event.TheConstants.{MAX_EVENTS, MAX_VIEWS};
    ghost use Rattle.terrain.specs.declared.event.Event.TheVariants.{Edit, Undo};

    /// Returns the world of the empty journal, with room for `MAX_EVENTS` events. Out of memory is the only error.
    pub fn new(alloc: Global, settings: Settings) -> Result<World, AllocError>
        requires { IsSettings settings }
        ensures stands { IfOk result (λ world. IsWorldOf world settings []) }
        ensures room { IfOk result (λ world. MAX_EVENTS ≤ world.room) }
    {
        levels_follow_the_viewpoints();
        let events = Vec::with_capacity(alloc, MAX_EVENTS)?;
        let field = EditedField::new(alloc, settings.depth)?;
        let levels = Arc::new(alloc, choose(alloc, &settings, &[])?)?;
        Ok(World {
            settings,
            events,
            field,
            levels,
            views: Viewpoints::none(),
        })
    }

    /// Adds an event to the journal, and returns the leaves that it touches and those that are none any more, each in
    /// the order of nodes. The error is `Full` exactly where the journal has `MAX_EVENTS` events, `NothingToUndo`
    /// exactly where it has fewer and the event is an undo with no edit in force, and else out of memory.
    ///
    /// An edit makes pages of the field anew where its samples change, an undo puts the pages of the last edit in force
    /// back, and a camera or an away makes a level map where other nodes are split then; all else is shared with the
    /// world before. A leaf that isn't touched has the brick that it had.
    ///
    /// The pages that the newest edits replaced are kept, at most `MAX_KEPT_PAGES`, and an undo of such an edit costs
    /// as much as the edit did. An undo of an older one replays all edits in force before it, and keeps the newest of
    /// them anew.
    pub fn apply(&mut self, alloc: Global, event: Event) -> Result<Touched, ApplyFault>
        requires { IsLawfulEvent self.old.settings.depth event }
        ensures settings { self.new.settings ≡ self.old.settings }
        ensures stands { OnOk result
            (IsWorldOf self.new self.old.settings (self.old.events ++ event ∷ [])) }
        ensures touched { IfOk result (λ touched_by.
            touched_by.leaves.items ≡ touched self.old.settings self.old.events event) }
        ensures lost { IfOk result (λ touched_by.
            touched_by.lost.items ≡ lost_by self.old.settings self.old.events event) }
        ensures bricks { IfOk result (λ touched_by.
            KeepsBricksBut touched_by.leaves.items self.old self.new) }
        ensures other { OnOk result (KeepsTheOther event self.old self.new) }

        // A full journal is reported whatever the event is; each error leaves the world as it was.
        ensures full { IsErrOf result ApplyFault.Full ↔ (length self.old.events ≡ MAX_EVENTS) }
        ensures nothing { IsErrOf result ApplyFault.NothingToUndo
            ↔ HasNothingToUndo self.old.events event }
        ensures unchanged { OnErr result (self.new ≡ self.old) }
    {
        bricks_read_their_leaf();
        untouched_leaves_keep_their_bricks();
        if self.events.len() == MAX_EVENTS {
            return Err(ApplyFault::Full);
        }
        let touched = match event {
            Event::Edit(brush) => self.edit(alloc, brush)?,
            Event::Camera { view, at } => self.look(alloc, view, Some(at))?,
            Event::Away { view } => self.look(alloc, view, None)?,
            Event::Undo => self.undo(alloc)?,
        };
        Ok(touched)
    }

    /// Adds an edit to the journal, and returns the leaves that it touches; all stay leaves. Out of memory is the only
    /// error, and leaves the world as it was.
    fn edit(&mut self, alloc: Global, brush: Brush) -> Result<Touched, AllocError>
        requires lawful { IsLawful self.old.settings.depth brush }
        requires room { length self.old.events < MAX_EVENTS }
        ensures stands { OnOk result
            (IsWorldOf self.new self.old.settings (self.old.events ++ Edit brush ∷ [])) }
        ensures touched { IfOk result (λ touched_by.
            touched_by.leaves.items ≡ touched self.old.settings self.old.events (Edit brush)) }
        ensures lost { IfOk result (λ touched_by.
            touched_by.lost.items ≡ lost_by self.old.settings self.old.events (Edit brush)) }
        ensures other { OnOk result (KeepsTheOther (Edit brush) self.old self.new) }
        ensures unchanged { OnErr result (self.new ≡ self.old) }
    {
        fields_follow_the_edits_in_force();
        levels_follow_the_viewpoints();
        let area = brushes::region(&brush, &self.settings);
        let leaves = self.edited_leaves(alloc, &brush, area)?;
        self.field.edit(alloc, brush, area)?;
        self.events.push_reserved(Event::Edit(brush));
        Ok(Touched {
            leaves,
            lost: Vec::new(alloc),
        })
    }

    /// Adds an undo to the journal, and returns the leaves that it touches; all stay leaves. The error is
    /// `NothingToUndo` exactly where no edit is in force, and else out of memory; both leave the world as it was.
    fn undo(&mut self, alloc: Global) -> Result<Touched, ApplyFault>
        requires room { length self.old.events < MAX_EVENTS }
        ensures stands { OnOk result
            (IsWorldOf self.new self.old.settings (self.old.events ++ Undo ∷ [])) }
        ensures touched { IfOk result (λ touched_by.
            touched_by.leaves.items ≡ touched self.old.settings self.old.events Undo) }
        ensures lost { IfOk result (λ touched_by.
            touched_by.lost.items ≡ lost_by self.old.settings self.old.events Undo) }
        ensures other { OnOk result (self.new.levels ≡ self.old.levels) }
        ensures nothing { IsErrOf result ApplyFault.NothingToUndo
            ↔ (in_force self.old.events ≡ []) }
        ensures full { IsErrOf result ApplyFault.Full → ⊥ }
        ensures unchanged { OnErr result (self.new ≡ self.old) }
    {
        fields_follow_the_edits_in_force();
        levels_follow_the_viewpoints();
        let Some(brush) = self.field.newest() else {
            return Err(ApplyFault::NothingToUndo);
        };
        let area = brushes::region(&brush, &self.settings);
        let leaves = self.undone_leaves(alloc, &brush, area)?;
        self.field.undo(alloc, &self.settings)?;
        self.events.push_reserved(Event::Undo);
        Ok(Touched {
            leaves,
            lost: Vec::new(alloc),
        })
    }

    /// Returns the leaves that an undo touches: those that the region of the last edit in force meets. Out of memory is
    /// the only error.
    fn undone_leaves(
        &self,
        alloc: Global,
        brush: &Brush,
        area: Region,
    ) -> Result<Vec<Node>, AllocError>
        requires newest { in_force self.now.events
            ≡ brush.now ∷ drop 1 (in_force self.now.events) }
        requires lawful { IsLawful self.now.settings.depth brush.now }
        requires area { area ≡ region self.now.settings.depth brush.now }
        ensures { IfOk result (λ leaves.
            leaves.items ≡ touched self.now.settings self.now.events Undo) }
    {
        touched_leaves_are_met_or_changed();
        let met = met_leaves(alloc, &self.levels, area)?;
        Ok(met)
    }

    /// Returns the leaves that an edit touches: those that its region meets, whether their samples change or not. Out
    /// of memory is the only error.
    #[tactic(auto, using(crate::proofs::WorldLemmas::edited_are))]
    fn edited_leaves(
        &self,
        alloc: Global,
        brush: &Brush,
        area: Region,
    ) -> Result<Vec<Node>, AllocError>
        requires lawful { IsLawful self.now.settings.depth brush.now }
        requires area { area ≡ region self.now.settings.depth brush.now }
        ensures { IfOk result (λ leaves.
            leaves.items ≡ touched self.now.settings self.now.events (Edit brush.now)) }
    {
        touched_leaves_are_met_or_changed();
        let met = met_leaves(alloc, &self.levels, area)?;
        Ok(met)
    }

    /// Adds the event that puts a viewpoint at a point, or nowhere, to the journal, and returns the leaves that it
    /// touches and those that are none any more. Out of memory is the only error, and leaves the world as it was.
    fn look(&mut self, alloc: Global, view: u8, at: Option<Point>) -> Result<Touched, AllocError>
        requires view { view < MAX_VIEWS }
        requires at { ForSome at (IsInWorld self.old.settings.depth) }
        requires room { length self.old.events < MAX_EVENTS }
        ensures stands { OnOk result
            (IsWorldOf self.new self.old.settings (self.old.events ++ placing view at ∷ [])) }
        ensures touched { IfOk result (λ touched_by. touched_by.leaves.items
            ≡ touched self.old.settings self.old.events (placing view at)) }
        ensures lost { IfOk result (λ touched_by. touched_by.lost.items
            ≡ lost_by self.old.settings self.old.events (placing view at)) }
        ensures other { OnOk result (self.new.version ≡ self.old.version) }
        ensures unchanged { OnErr result (self.new ≡ self.old) }
    {
        fields_follow_the_edits_in_force();
        histories_grow_by_events();
        levels_follow_the_viewpoints();
        touched_leaves_are_met_or_changed();
        let event = placing(view, at);
        let views = self.views.with(view, at);
        let found = follow(alloc, &self.settings, &self.levels, &self.views, &views)?;
        let Some(levels) = found else {
            self.events.push(event)?;
            self.views = views;
            return Ok(Touched {
                leaves: Vec::new(alloc),
                lost: Vec::new(alloc),
            });
        };
        let change = leaf_change(alloc, &self.levels, &levels)?;
        let levels = Arc::new(alloc, levels)?;
        self.events.push(event)?;
        self.levels = levels;
        self.views = views;
        Ok(Touched {
            leaves: change.changed,
            lost: change.lost,
        })
    }

    /// Returns the journal: the events so far, the first of them first.
    pub fn events(&self) -> &[Event]
        ensures value { result.now ≡ self.now.events }
        ensures few { length result.now ≤ MAX_EVENTS }
        ensures room { MAX_EVENTS ≤ self.now.room }
    {
        &self.events
    }

    /// Returns whether an event is an undo with no edit in force before it, which would undo nothing.
    pub fn undoes_nothing(&self, event: &Event) -> bool
        ensures { result ≡ undoes_nothing event.now (in_force self.now.events) }
    {
        match event {
            Event::Undo => self.field.newest().is_none(),
            _ => false,
        }
    }

    /// Returns the field after the events.
    pub fn version(&self) -> &Arc<Version>
        ensures value { result.now.value ≡ self.now.version }
        ensures depth { result.now.value.depth ≡ self.now.settings.depth }
        ensures samples { HoldsField result.now.value (sample self.now.settings self.now.events) }
    {
        self.field.version()
    }

    /// Returns the level map after the events.
    pub fn levels(&self) -> &Arc<Levels>
        ensures value { result.now.value ≡ self.now.levels }
        ensures depth { result.now.value.depth ≡ self.now.settings.depth }
        ensures split { (n : NodeOf) → split_at result.now.value n
            ≡ levels self.now.settings self.now.events n }
        ensures balanced { IsBalanced self.now.settings.depth (split_at result.now.value) }
    {
        &self.levels
    }

    /// Returns the settings.
    pub fn settings(&self) -> &Settings
        ensures value { result.now ≡ self.now.settings }
        ensures allowed { IsSettings result.now }
    {
        &self.settings
    }
}

/// Returns the event that puts a viewpoint at a point, or nowhere.
fn placing(view: u8, at: Option<Point>) -> Event
    ensures { result ≡ spec.placing view at }
{
    match at {
        Some(at) => Event::Camera { view, at },
        None => Event::Away { view },
    }
}
