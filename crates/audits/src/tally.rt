//! How often the edges between keys are used, pair by pair.
//!
//! An edge and its reverse are of one pair, which is kept in the direction of its first use. A mesh without a crack
//! uses each pair as often one way as the other, but on the border of the world, where triangles end. A pair whose two
//! keys' edges lie together in one plane of that border is counted apart (`open_pairs`).
//!
//! The tally has room for the pairs of a closed mesh from the start, two for each triangle, since a table that grows
//! is copied each time.

ghost use Rattle.std.specs.Prelude.{◌≡◌, ℕ, ◌+◌, ◌*◌, ◌<◌, ◌≤◌, ◌↔◌, ◌++◌, [], ◌∷◌, All, IfOk, OnOk, IsTrue, List, length, filter, not};
ghost use Rattle.lattice.specs.declared.key.Key.{Key as KeyOf};
ghost use Rattle.lattice.specs.Settings.{IsDepth};
ghost use Rattle.terrain.specs.Curves.{all_edges};
ghost use Rattle.block_mesh.specs.Mesh.{indices_of};
ghost use Rattle.audits.specs.Audit.{is_on_border, is_open, pairs_of};
ghost use Rattle.audits.specs.Tally.{HasRoomFor, IsTallyOf, lie_in_plane};
ghost use Rattle.terrain.specs.Blocks.{keys_of};

use cell_laws::{each_key_is_listed_once, keys_are_told_apart};
use indexmap::IndexSet;
use lattice::{Axis, Key, Settings};
use std::alloc::{AllocError, Global};

/// A tally has fewer edges, so that the uses of a pair are counted in 64 bits.
pub(crate) const EDGE_LIMIT: u64 = 1 << 63;

/// How often the edge between two keys is used in each direction.
#[derive(Clone, Copy, Debug, PartialEq, Eq)]
pub(crate) struct Uses {
    pub along: u64,
    pub back: u64,
}

/// How often the edges between keys are used, for each pair of keys that has one.
#[derive(Drop)]
pub(crate) struct Tally {
    /// In the order of first use, each in the direction of that use.
    pub pairs: IndexSet<(Key, Key)>,
    pub uses: Vec<Uses>,
}

/// How many pairs of keys are used more often one way than the other, off the border of the world and on it.
#[derive(Clone, Copy, Debug)]
pub(crate) struct OpenPairs {
    pub inside: u64,
    pub on_border: u64,
}

impl Tally {
    /// Returns the tally of no edge, with room for the pairs of a closed mesh of so many triangles.
    pub(crate) fn new(alloc: Global, triangles: u64) -> Result<Tally, AllocError>
        ensures { IfOk result (λ tally. IsTallyOf tally []) }
    {
        let room = (triangles as usize).saturating_mul(2);
        Ok(Tally {
            pairs: IndexSet::with_capacity(alloc, room)?,
            uses: Vec::with_capacity(alloc, room)?,
        })
    }

    /// Adds the edges of triangles, which are given by the places of their keys. Out of memory is the only error.
    pub(crate) fn add_triangles(
        &mut self,
        keys: &[Key],
        triangles: &[[u32; 3]],
    ) -> Result<(), AllocError>
        requires places { All (All (λ place. place < length keys.now)) triangles.now }
        requires room { HasRoomFor self.old (3 * length triangles.now) }
        ensures room { OnOk result ((more : ℕ)
            → HasRoomFor self.old (3 * length triangles.now + more) → HasRoomFor self.new more) }
        ensures counts { OnOk result ((ts : List (List KeyOf)) (edges : List (KeyOf × KeyOf))
            → keys.now ≡ keys_of ts → triangles.now ≡ indices_of (keys_of ts) ts
            → IsTallyOf self.old edges → IsTallyOf self.new (edges ++ all_edges ts)) }
    {
        keys_are_told_apart();
        each_key_is_listed_once();
        for [a, b, c] in triangles {
            let a = keys[*a as usize];
            let b = keys[*b as usize];
            let c = keys[*c as usize];
            self.add_triangle(a, b, c)?;
        }
        Ok(())
    }

    /// Adds the edges of a triangle. Out of memory is the only error.
    pub(crate) fn add_triangle(&mut self, a: Key, b: Key, c: Key) -> Result<(), AllocError>
        requires { HasRoomFor self.old 3 }
        ensures { OnOk result ((edges : List (KeyOf × KeyOf)) → IsTallyOf self.old edges
            → IsTallyOf self.new (edges ++ (a, b) ∷ (b, c) ∷ (c, a) ∷ [])) }
    {
        self.add_edge(a, b)?;
        self.add_edge(b, c)?;
        self.add_edge(c, a)
    }

    /// Adds a directed edge. Out of memory is the only error.
    fn add_edge(&mut self, from: Key, to: Key) -> Result<(), AllocError>
        requires { HasRoomFor self.old 1 }
        ensures { OnOk result ((edges : List (KeyOf × KeyOf)) → IsTallyOf self.old edges
            → IsTallyOf self.new (edges ++ (from, to) ∷ [])) }
    {
        keys_are_told_apart();
        if from == to {
            return Ok(());
        }
        if let Some(place) = self.pairs.get_index_of(&(to, from)) {
            self.uses[place].back += 1;
            return Ok(());
        }
        let (place, is_new) = self.pairs.insert_full((from, to))?;
        if is_new {
            self.uses.push(Uses { along: 1, back: 0 })?;
            return Ok(());
        }
        self.uses[place].along += 1;
        Ok(())
    }

    /// Returns how many pairs are used more often one way than the other.
    pub(crate) fn open_pairs(&self, settings: &Settings) -> OpenPairs
        requires depth { IsDepth settings.now.depth }
        requires counts { HasRoomFor self.now 0 }
        ensures inside { (edges : List (KeyOf × KeyOf)) → IsTallyOf self.now edges → result.inside
            ≡ length (filter (λ pair. not (is_on_border settings.now.depth pair))
            (filter (is_open edges) (pairs_of edges))) }
        ensures on_border { (edges : List (KeyOf × KeyOf)) → IsTallyOf self.now edges
            → result.on_border ≡ length (filter (is_on_border settings.now.depth)
            (filter (is_open edges) (pairs_of edges))) }
    {
        let mut open = OpenPairs {
            inside: 0,
            on_border: 0,
        };
        let pairs = self.pairs.as_slice();
        for place in 0..pairs.len() {
            let Uses { along, back } = self.uses[place];
            if along != back {
                if is_on_border(settings, &pairs[place]) {
                    open.on_border += 1;
                } else {
                    open.inside += 1;
                }
            }
        }
        open
    }
}

/// Returns whether the edges of both keys of a pair lie together in one plane of the border of the world.
fn is_on_border(settings: &Settings, pair: &(Key, Key)) -> bool
    requires { IsDepth settings.now.depth }
    ensures { result ≡ is_on_border settings.now.depth pair.now }
{
    let side = settings.world_side();
    lie_in_plane(pair, Axis::X, 0)
        || lie_in_plane(pair, Axis::X, side)
        || lie_in_plane(pair, Axis::Y, 0)
        || lie_in_plane(pair, Axis::Y, side)
        || lie_in_plane(pair, Axis::Z, 0)
        || lie_in_plane(pair, Axis::Z, side)
}

/// Returns whether the edges of both keys of a pair lie in the plane in which an axis has this coordinate.
fn lie_in_plane(pair: &(Key, Key), axis: Axis, coordinate: u32) -> bool
    ensures { result ≡ lie_in_plane axis coordinate pair.now }
{
    let (a, b) = pair;
    a.axis != axis
        && b.axis != axis
        && a.at.coordinate(axis) == coordinate
        && b.at.coordinate(axis) == coordinate
}
