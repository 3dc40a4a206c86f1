//! Bricks: what a leaf's mesh is made from.

ghost use Rattle.std.specs.Prelude.{◌≡◌, ◌<◌, ◌≤◌, ◌+◌, ◌*◌, ◌%◌, ◌++◌, ◌↔◌, ℤ, All, IfOk, IsTrue, MatchOption, OnOk, length, replicate};
ghost use Rattle.lattice.specs.declared.settings.TheConstants.{MAX_DEPTH};
ghost use Rattle.lattice.specs.Node.{IsNode, low_corner};
ghost use Rattle.lattice.specs.Settings.{IsDepth};
ghost use Rattle.terrain.specs.Samples.{IsSample};
ghost use Rattle.terrain.specs.Cells.{is_set};
ghost use Rattle.terrain.specs.Levels.{IsBalanced, IsLeaf};
ghost use Rattle.terrain.specs.Blocks.{brick, face_samples, leaf_samples};
ghost use Rattle.field_pages.specs.Pages.{sample_at};
ghost use Rattle.octree.specs.SplitBits.{split_at};
ghost use Rattle.lattice.specs.Lists.{joined};
ghost use Rattle.bricks.specs.Line.{line_samples};
ghost use Rattle.bricks.specs.Brick.{IsBrick, face_bit, fine_line, over_rim};
ghost use Rattle.bricks.specs.Samples.{AreInRange, AreSamplesOf, IsAllOne, face_list, leaf_list};
ghost use Rattle.bricks.specs.declared.samples.Samples.TheVariants.{Even};

use crate::brick_view::BrickView;
use crate::even::is_even_leaf;
use crate::faces::{FACE_SAMPLES, FINE_POINTS, fill_band, fine_line};
use crate::line::Line;
use crate::parts::{MAX_PAGE_LEVEL, fill_leaf};
use crate::points::has_even_points;
use crate::room::Lists;
use crate::samples::Samples;
use field_pages::Version;
use lattice::{Axis, CELLS, Face, Node, Point, nodes_of_worlds};
use octree::Levels;
use std::alloc::{AllocError, Global};
use std::marker::Model;

/// How many points a leaf has along an axis.
pub const POINTS: u32 = CELLS + 1;

/// How many samples a leaf has.
pub const LEAF_SAMPLES: usize = (POINTS * POINTS * POINTS) as usize;

/// All that the mesh of a leaf is made from: its world's depth, the leaf, its rim, its samples, and the finer samples
/// on each face across which the leaf meets finer leaves.
///
/// A brick that is gathered from even pages of one sample takes no room for them.
#[derive(Debug)]
pub struct Brick {
    depth: u8,
    node: Node,
    rim: u32,
    samples: Samples,
}

impl Model for Brick {
    ghost use Rattle.terrain.specs.Blocks.{Brick as BrickOf};
    ghost use Rattle.bricks.specs.Brick.{IsBrick};
    ghost use Rattle.bricks.specs.Samples.{face_list, leaf_list};

    ghost Value = { BrickOf };

    ghost view = { λ brick. record {
      depth = brick.depth;
      node = brick.node;
      rim = brick.rim;
      samples = leaf_list brick.samples;
      faces = face_list brick.rim brick.samples;
    } };

    ghost invariant = { λ brick. IsBrick (record {
      depth = brick.depth;
      node = brick.node;
      rim = brick.rim;
      samples = leaf_list brick.samples;
      faces = face_list brick.rim brick.samples;
    }) };
}

/// Returns the brick of a leaf. It is an error where memory runs out.
pub fn gather(
    alloc: Global,
    version: &Version,
    levels: &Levels,
    leaf: Node,
) -> Result<Brick, AllocError>
    requires depth { version.now.depth ≡ levels.now.depth }
    requires balanced { IsBalanced levels.now.depth (split_at levels.now) }
    requires leaf { IsLeaf levels.now.depth (split_at levels.now) leaf }
    ensures { IfOk result (λ gathered. gathered
        ≡ brick levels.now.depth (sample_at version.now) (split_at levels.now) leaf) }
{
    let depth = levels.depth();
    let rim = levels.rim(leaf);
    let samples = samples_of(alloc, version, leaf, rim)?;
    Ok(Brick {
        depth,
        node: leaf,
        rim,
        samples,
    })
}

// Written out, since a derived drop is proved anew in each crate that drops a brick.
impl Drop for Brick {
    fn drop(self) {
        let Self {
            depth: _,
            node: _,
            rim: _,
            samples: _samples,
        } = self;
    }
}

impl Brick {
    /// Returns the depth of the brick's world.
    pub fn depth(&self) -> u8
        ensures value { result ≡ self.now.depth }
        ensures allowed { IsDepth result }
    {
        self.depth
    }

    /// Returns the leaf.
    pub fn node(&self) -> Node
        ensures value { result ≡ self.now.node }
        ensures node { IsNode self.now.depth result }
        ensures most { IsNode MAX_DEPTH result }
    {
        nodes_of_worlds();
        self.node
    }

    /// Returns the rim of the leaf.
    pub fn rim(&self) -> u32
        ensures value { result ≡ self.now.rim }
        ensures none { self.now.node.level ≡ 0 → result ≡ 0 }
    {
        self.rim
    }

    /// Lends the brick with its lists of samples, or returns `None` where it has none: all its samples are one.
    pub fn lists(&self) -> Option<BrickView<'_>>
        ensures lists { MatchOption result ((sample : ℤ) × IsAllOne self.now sample)
            (λ lists. lists ≡ self.now) }
        ensures brick { IsBrick self.now }
    {
        match &self.samples {
            Samples::Even(_) => None,
            Samples::Lists { leaf, faces } => Some(BrickView {
                depth: self.depth,
                node: self.node,
                rim: self.rim,
                samples: leaf,
                faces,
            }),
        }
    }

    /// Returns whether the brick's node is a leaf, and gathering it would give an equal brick.
    pub fn matches(&self, version: &Version, levels: &Levels) -> bool
        requires depth { version.now.depth ≡ levels.now.depth }
        requires balanced { IsBalanced levels.now.depth (split_at levels.now) }
        ensures { IsTrue result ↔ (IsLeaf levels.now.depth (split_at levels.now) self.now.node
            × (self.now ≡ brick levels.now.depth (sample_at version.now) (split_at levels.now)
            self.now.node)) }
    {
        if self.depth != version.depth() || !levels.is_leaf(self.node) {
            return false;
        }
        if levels.rim(self.node) != self.rim {
            return false;
        }
        has_samples(version, self.node, self.rim, &self.samples)
    }
}

/// Returns the samples of a leaf, and the finer ones of the faces whose bits are set in a rim.
fn samples_of(alloc: Global, version: &Version, leaf: Node, rim: u32) -> Result<Samples, AllocError>
    requires depth { IsDepth version.now.depth }
    requires leaf { IsNode version.now.depth leaf }
    requires level { leaf.level ≡ 0 → rim ≡ 0 }
    ensures samples { IfOk result (AreSamplesOf (sample_at version.now) leaf rim) }
    ensures range { IfOk result (AreInRange rim) }
{
    nodes_of_worlds();
    if is_seen_even(version, leaf, rim) {
        return Ok(Samples::Even(version.sample(leaf.low_corner())));
    }
    lists_of(alloc, version, leaf, rim)
}

/// Returns whether all these samples are seen to be that of the leaf's low corner: by the pages that the leaf meets, or
/// by its points where each lies in a page of its own.
fn is_seen_even(version: &Version, leaf: Node, rim: u32) -> bool
    requires depth { IsDepth version.now.depth }
    requires leaf { IsNode version.now.depth leaf }
    requires level { leaf.level ≡ 0 → rim ≡ 0 }
    ensures { IsTrue result → AreSamplesOf (sample_at version.now) leaf rim
        (Even (sample_at version.now (low_corner leaf))) }
{
    if leaf.level < MAX_PAGE_LEVEL {
        return is_even_leaf(version, leaf);
    }
    nodes_of_worlds();
    has_one_sample_by_points(version, leaf, rim, version.sample(leaf.low_corner()))
}

/// Returns the same samples as lists.
fn lists_of(alloc: Global, version: &Version, leaf: Node, rim: u32) -> Result<Samples, AllocError>
    requires depth { IsDepth version.now.depth }
    requires leaf { IsNode version.now.depth leaf }
    requires level { leaf.level ≡ 0 → rim ≡ 0 }
    ensures samples { IfOk result (AreSamplesOf (sample_at version.now) leaf rim) }
    ensures range { IfOk result (AreInRange rim) }
{
    let mut lists = Lists::new(alloc);
    lists.fill(version, leaf, rim)?;
    let Lists { leaf, faces } = lists;
    Ok(Samples::Lists { leaf, faces })
}

/// Appends the same sample so many times.
fn push_even(sample: i8, count: usize, samples: &mut Vec<i8>) -> Result<(), AllocError>
    requires { count ≤ LEAF_SAMPLES }
    ensures { OnOk result (samples.new.items ≡ samples.old.items ++ replicate count sample) }
{
    samples.resize(samples.len() + count, sample)
}

/// Appends the finer samples of the faces of a leaf whose bits are set in a rim.
pub(crate) fn push_faces(
    version: &Version,
    leaf: Node,
    rim: u32,
    samples: &mut Vec<i8>,
) -> Result<(), AllocError>
    requires depth { IsDepth version.now.depth }
    requires leaf { IsNode version.now.depth leaf }
    requires level { leaf.level ≡ 0 → rim ≡ 0 }
    ensures added { OnOk result (samples.new.items
        ≡ samples.old.items ++ over_rim rim (face_samples (sample_at version.now) leaf)) }
    ensures range { OnOk result (All IsSample samples.old.items → All IsSample samples.new.items) }
{
    for face in Face::ALL {
        if has_face(rim, face) {
            push_face(version, leaf, face, samples)?;
        }
    }
    Ok(())
}

/// Appends the finer samples of a face of a leaf.
fn push_face(
    version: &Version,
    leaf: Node,
    face: Face,
    samples: &mut Vec<i8>,
) -> Result<(), AllocError>
    requires depth { IsDepth version.now.depth }
    requires leaf { IsNode version.now.depth leaf }
    requires level { 1 ≤ leaf.level }
    ensures added { OnOk result (samples.new.items
        ≡ samples.old.items ++ face_samples (sample_at version.now) leaf face) }
    ensures range { OnOk result (All IsSample samples.old.items → All IsSample samples.new.items) }
{
    nodes_of_worlds();
    let start = samples.len();
    push_even(version.sample(leaf.low_corner()), FACE_SAMPLES, samples)?;
    fill_face(version, leaf, face, &mut samples[start..]);
    Ok(())
}

/// Fills a list with the finer samples of a face of a leaf.
fn fill_face(version: &Version, leaf: Node, face: Face, samples: &mut [i8])
    requires depth { IsDepth version.now.depth }
    requires leaf { IsNode version.now.depth leaf }
    requires level { 1 ≤ leaf.level }
    requires count { length samples.old ≡ FACE_SAMPLES }
    ensures { samples.new ≡ face_samples (sample_at version.now) leaf face }
{
    let mut v = 0;
    while v < FINE_POINTS {
        v = fill_band(version, leaf, face, v, samples);
    }
}

/// Returns whether these are the samples of a leaf, and the finer ones of the faces whose bits are set in a rim.
fn has_samples(version: &Version, leaf: Node, rim: u32, samples: &Samples) -> bool
    requires depth { IsDepth version.now.depth }
    requires leaf { IsNode version.now.depth leaf }
    requires level { leaf.level ≡ 0 → rim ≡ 0 }
    requires leaf_count { length (leaf_list samples.now) ≡ LEAF_SAMPLES }
    requires face_count { length (face_list rim samples.now)
        ≡ length (over_rim rim (face_samples (sample_at version.now) leaf)) }
    ensures { IsTrue result ↔ AreSamplesOf (sample_at version.now) leaf rim samples.now }
{
    match samples {
        Samples::Even(sample) => has_one_sample(version, leaf, rim, *sample),
        Samples::Lists { leaf: ours, faces } => {
            has_leaf(version, leaf, ours) && has_faces(version, leaf, rim, faces)
        }
    }
}

/// Returns whether all samples of a leaf, and the finer ones of the faces whose bits are set in a rim, are this one.
fn has_one_sample(version: &Version, leaf: Node, rim: u32, sample: i8) -> bool
    requires depth { IsDepth version.now.depth }
    requires leaf { IsNode version.now.depth leaf }
    requires level { leaf.level ≡ 0 → rim ≡ 0 }
    ensures { IsTrue result ↔ AreSamplesOf (sample_at version.now) leaf rim (Even sample) }
{
    nodes_of_worlds();
    if version.sample(leaf.low_corner()) != sample {
        return false;
    }
    if leaf.level < MAX_PAGE_LEVEL && is_even_leaf(version, leaf) {
        return true;
    }
    has_one_sample_by_points(version, leaf, rim, sample)
}

/// Returns the same, and looks at each point.
fn has_one_sample_by_points(version: &Version, leaf: Node, rim: u32, sample: i8) -> bool
    requires depth { IsDepth version.now.depth }
    requires leaf { IsNode version.now.depth leaf }
    requires level { leaf.level ≡ 0 → rim ≡ 0 }
    ensures { IsTrue result ↔ AreSamplesOf (sample_at version.now) leaf rim (Even sample) }
{
    has_even_leaf(version, leaf, sample) && has_even_faces(version, leaf, rim, sample)
}

/// Returns whether all samples of a leaf are this one.
fn has_even_leaf(version: &Version, leaf: Node, sample: i8) -> bool
    requires depth { IsDepth version.now.depth }
    requires leaf { IsNode version.now.depth leaf }
    ensures { IsTrue result
        ↔ (replicate LEAF_SAMPLES sample ≡ leaf_samples (sample_at version.now) leaf) }
{
    if leaf.level >= MAX_PAGE_LEVEL {
        return has_even_points(version, leaf, sample);
    }
    let ours = [sample; LEAF_SAMPLES];
    has_leaf(version, leaf, &ours)
}

/// Returns whether all finer samples of the faces whose bits are set in a rim are this one.
fn has_even_faces(version: &Version, leaf: Node, rim: u32, sample: i8) -> bool
    requires depth { IsDepth version.now.depth }
    requires leaf { IsNode version.now.depth leaf }
    requires level { leaf.level ≡ 0 → rim ≡ 0 }
    ensures { IsTrue result ↔ (over_rim rim (λ _. replicate FACE_SAMPLES sample)
        ≡ over_rim rim (face_samples (sample_at version.now) leaf)) }
{
    let ours = [sample; FACE_SAMPLES];
    for face in Face::ALL {
        if has_face(rim, face) && !is_face(version, leaf, face, &ours) {
            return false;
        }
    }
    true
}

/// Returns whether these are the samples of a leaf.
fn has_leaf(version: &Version, leaf: Node, samples: &[i8]) -> bool
    requires depth { IsDepth version.now.depth }
    requires leaf { IsNode version.now.depth leaf }
    requires count { length samples.now ≡ LEAF_SAMPLES }
    ensures { IsTrue result ↔ (samples.now ≡ leaf_samples (sample_at version.now) leaf) }
{
    let mut here = [0; LEAF_SAMPLES];
    fill_leaf(version, leaf, &mut here);
    samples == here.as_slice()
}

/// Returns whether these are the finer samples of the faces whose bits are set in a rim.
fn has_faces(version: &Version, leaf: Node, rim: u32, samples: &[i8]) -> bool
    requires depth { IsDepth version.now.depth }
    requires leaf { IsNode version.now.depth leaf }
    requires level { leaf.level ≡ 0 → rim ≡ 0 }
    requires count { length samples.now
        ≡ length (over_rim rim (face_samples (sample_at version.now) leaf)) }
    ensures { IsTrue result
        ↔ (samples.now ≡ over_rim rim (face_samples (sample_at version.now) leaf)) }
{
    let mut at = 0;
    for face in Face::ALL {
        if has_face(rim, face) {
            let ours = &samples[at..at + FACE_SAMPLES];
            if !is_face(version, leaf, face, ours) {
                return false;
            }
            at += FACE_SAMPLES;
        }
    }
    true
}

/// Returns whether these are the finer samples of a face of a leaf.
fn is_face(version: &Version, leaf: Node, face: Face, samples: &[i8]) -> bool
    requires depth { IsDepth version.now.depth }
    requires leaf { IsNode version.now.depth leaf }
    requires level { 1 ≤ leaf.level }
    requires count { length samples.now ≡ FACE_SAMPLES }
    ensures { IsTrue result ↔ (samples.now ≡ face_samples (sample_at version.now) leaf face) }
{
    nodes_of_worlds();
    for v in 0..FINE_POINTS {
        let at = (v * FINE_POINTS) as usize;
        let row = &samples[at..at + FINE_POINTS as usize];
        if !fine_line(leaf, face, v).has_samples(version, row) {
            return false;
        }
    }
    true
}

/// Returns whether the rim has the bit of the place across a face.
pub fn has_face(rim: u32, face: Face) -> bool
    ensures { result ≡ is_set rim (face_bit face) }
{
    let bit = match face {
        Face::XLow => 12,
        Face::XHigh => 13,
        Face::YLow => 10,
        Face::YHigh => 15,
        Face::ZLow => 4,
        Face::ZHigh => 21,
    };
    (rim >> bit) % 2 == 1
}
