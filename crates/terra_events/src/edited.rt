//! The field that edits make, and how the newest of them is undone.

ghost use Rattle.std.specs.Prelude.{◌≡◌, ◌≢◌, [], ◌∷◌, All, IfOk, IsFalse, IsTrue, MatchOption, OnErr, OnOk, drop, reverse};
ghost use Rattle.lattice.specs.Settings.{IsSettings};
ghost use Rattle.terra_events.specs.KeptEdits.{IsEdited};
ghost use Rattle.terrain.specs.Brushes.{IsLawful, region};

use crate::kept_edits::KeptEdits;
use field_pages::Version;
use lattice::{Region, Settings};
use std::alloc::{AllocError, Global};
use std::marker::Model;
use std::sync::Arc;
use terrain::Brush;

/// The field that edits make, these edits, and what is kept of the newest of them.
///
/// Contracts see the field and the edits, the newest of them first, and not what is kept: to undo an edit makes the
/// same field whether it was kept or the edits before it are replayed.
#[derive(Debug, Drop)]
pub(crate) struct EditedField {
    version: Arc<Version>,
    /// The edits in force, the oldest of them first.
    edits: Vec<Brush>,
    kept: KeptEdits,
}

impl Model for EditedField {
    ghost use Rattle.std.specs.Prelude.{reverse};
    ghost use Rattle.terra_events.specs.KeptEdits.{EditedState, IsEdited};

    ghost Value = { EditedState };

    ghost view = { λ field.
        record { version = field.version.value; edits = reverse field.edits.items } };

    ghost invariant = { λ field. IsEdited field.kept
        (record { version = field.version.value; edits = reverse field.edits.items }) };
}

impl EditedField {
    ghost use Rattle.lattice.specs.Settings.{IsDepth};
    ghost use Rattle.terra_events.specs.KeptEdits.{HoldsEdits};

    /// Returns the field of a world of this depth before any edit. Out of memory is the only error.
    pub(crate) fn new(alloc: Global, depth: u8) -> Result<EditedField, AllocError>
        requires { IsDepth depth }
        ensures depth { IfOk result (λ field. field.version.depth ≡ depth) }
        ensures edits { IfOk result (λ field. field.edits ≡ []) }
        ensures holds { IfOk result HoldsEdits }
    {
        let version = Arc::new(alloc, Version::new(alloc, depth)?)?;
        Ok(EditedField {
            version,
            edits: Vec::new(alloc),
            kept: KeptEdits::new(alloc),
        })
    }

    /// Returns the field.
    pub(crate) fn version(&self) -> &Arc<Version>
        ensures value { result.now.value ≡ self.now.version }
        ensures holds { HoldsEdits self.now }
    {
        &self.version
    }

    /// Returns the newest edit in force, if there is one.
    pub(crate) fn newest(&self) -> Option<Brush>
        ensures value { MatchOption result (self.now.edits ≡ [])
            (λ brush. self.now.edits ≡ brush ∷ drop 1 self.now.edits) }
        ensures holds { HoldsEdits self.now }
    {
        Some(*self.edits.last()?)
    }

    /// Makes one more edit, where its brush's region is known. Out of memory is the only error, and leaves all as it
    /// was.
    pub(crate) fn edit(
        &mut self,
        alloc: Global,
        brush: Brush,
        area: Region,
    ) -> Result<(), AllocError>
        requires lawful { IsLawful self.old.version.depth brush }
        requires area { area ≡ region self.old.version.depth brush }
        ensures depth { self.new.version.depth ≡ self.old.version.depth }
        ensures edits { OnOk result (self.new.edits ≡ brush ∷ self.old.edits) }
        ensures holds { HoldsEdits self.new }
        ensures unchanged { OnErr result (self.new ≡ self.old) }
    {
        let (version, kept) = brushes::apply_kept_in(alloc, &self.version, &brush, area)?;
        let version = Arc::new(alloc, version)?;
        self.edits.reserve(1)?;
        self.kept.push(kept)?;
        self.edits.push_reserved(brush);
        self.version = version;
        Ok(())
    }

    /// Undoes the newest edit. It costs as much as the edit where that is still kept; else all edits before it are
    /// replayed, and of these the newest are kept anew. Out of memory is the only error, and leaves all as it was.
    pub(crate) fn undo(&mut self, alloc: Global, settings: &Settings) -> Result<(), AllocError>
        requires settings { IsSettings settings.now }
        requires depth { self.old.version.depth ≡ settings.now.depth }
        requires some { self.old.edits ≢ [] }
        ensures depth { self.new.version.depth ≡ self.old.version.depth }
        ensures edits { OnOk result (self.new.edits ≡ drop 1 self.old.edits) }
        ensures holds { HoldsEdits self.new }
        ensures unchanged { OnErr result (self.new ≡ self.old) }
    {
        if self.undo_kept(alloc)? {
            return Ok(());
        }
        self.undo_by_replay(alloc, settings)
    }

    /// Undoes the newest edit and returns true, if it is still kept. Out of memory is the only error, and leaves all as
    /// it was.
    fn undo_kept(&mut self, alloc: Global) -> Result<bool, AllocError>
        ensures depth { self.new.version.depth ≡ self.old.version.depth }
        ensures undone { IfOk result (λ is_kept. IsTrue is_kept →
            self.new.edits ≡ drop 1 self.old.edits) }
        ensures holds { HoldsEdits self.new }
        ensures left { IfOk result (λ is_kept. IsFalse is_kept → self.new ≡ self.old) }
        ensures unchanged { OnErr result (self.new ≡ self.old) }
    {
        let Some(kept) = self.kept.newest() else {
            return Ok(false);
        };
        let version = self.version.restore(alloc, kept)?;
        self.version = Arc::new(alloc, version)?;
        self.kept.forget_newest();
        self.edits.pop();
        Ok(true)
    }

    /// Undoes the newest edit: replays all edits before it. Out of memory is the only error, and leaves all as it was.
    fn undo_by_replay(&mut self, alloc: Global, settings: &Settings) -> Result<(), AllocError>
        requires settings { IsSettings settings.now }
        requires depth { self.old.version.depth ≡ settings.now.depth }
        requires some { self.old.edits ≢ [] }
        ensures depth { self.new.version.depth ≡ self.old.version.depth }
        ensures edits { OnOk result (self.new.edits ≡ drop 1 self.old.edits) }
        ensures holds { HoldsEdits self.new }
        ensures unchanged { OnErr result (self.new ≡ self.old) }
    {
        let count = self.edits.len() - 1;
        let (version, kept) = replay(alloc, settings, &self.edits[..count])?;
        self.version = Arc::new(alloc, version)?;
        self.kept = kept;
        self.edits.truncate(count);
        Ok(())
    }
}

/// Returns the field that edits make, the oldest of them first, and what is kept of the newest of them. Out of memory
/// is the only error.
fn replay(
    alloc: Global,
    settings: &Settings,
    edits: &[Brush],
) -> Result<(Version, KeptEdits), AllocError>
    requires settings { IsSettings settings.now }
    requires lawful { All (IsLawful settings.now.depth) edits.now }
    ensures depth { IfOk result (λ made. made.0.depth ≡ settings.now.depth) }
    ensures edited { IfOk result (λ made. IsEdited made.1
        (record { version = made.0; edits = reverse edits.now })) }
{
    let mut version = Version::new(alloc, settings.depth)?;
    let mut kept = KeptEdits::new(alloc);
    for brush in edits {
        let (next, old) = brushes::apply_kept(alloc, &version, brush, settings)?;
        kept.push(old)?;
        version = next;
    }
    Ok((version, kept))
}
