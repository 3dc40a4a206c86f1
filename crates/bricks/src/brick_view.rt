//! Bricks that have lists of samples, lent.

ghost use Rattle.std.specs.Prelude.{◌≡◌, All, length};
ghost use Rattle.lattice.specs.declared.settings.TheConstants.{MAX_DEPTH};
ghost use Rattle.lattice.specs.Node.{IsNode};
ghost use Rattle.lattice.specs.Settings.{IsDepth};
ghost use Rattle.terrain.specs.Samples.{Field, IsSample};
ghost use Rattle.bricks.specs.Brick.{HasSamples, IsBrick};
ghost use Rattle.bricks.specs.declared.brick.TheConstants.{LEAF_SAMPLES};

use lattice::{Node, nodes_of_worlds};
use std::marker::Model;

/// A brick that has lists of samples, lent.
#[derive(Debug, Drop)]
pub struct BrickView<'a> {
    pub depth: u8,
    pub node: Node,
    pub rim: u32,
    /// By z, then y, then x.
    pub samples: &'a [i8],
    /// In the order of faces, and on a face by the higher axis, then the lower.
    pub faces: &'a [i8],
}

impl<'a> Model for BrickView<'a> {
    ghost use Rattle.terrain.specs.Blocks.{Brick as BrickOf};
    ghost use Rattle.bricks.specs.Brick.{IsBrick};

    ghost Value = { BrickOf };

    ghost view = { λ brick. record {
      depth = brick.depth;
      node = brick.node;
      rim = brick.rim;
      samples = brick.samples.now;
      faces = brick.faces.now;
    } };

    ghost invariant = { λ brick. IsBrick (record {
      depth = brick.depth;
      node = brick.node;
      rim = brick.rim;
      samples = brick.samples.now;
      faces = brick.faces.now;
    }) };
}

impl<'a> BrickView<'a> {
    /// Returns the depth of the brick's world.
    pub fn depth(&self) -> u8
        ensures value { result ≡ self.now.depth }
        ensures allowed { IsDepth result }
    {
        self.depth
    }

    /// Returns the leaf.
    pub fn node(&self) -> Node
        ensures value { result ≡ self.now.node }
        ensures node { IsNode self.now.depth result }
        ensures most { IsNode MAX_DEPTH result }
    {
        nodes_of_worlds();
        self.node
    }

    /// Returns the rim of the leaf.
    pub fn rim(&self) -> u32
        ensures value { result ≡ self.now.rim }
        ensures none { self.now.node.level ≡ 0 → result ≡ 0 }
    {
        self.rim
    }

    /// Lends the leaf's samples, by z, then y, then x.
    pub fn samples(&self) -> &[i8]
        ensures value { result.now ≡ self.now.samples }
        ensures count { length result.now ≡ LEAF_SAMPLES }
        ensures range { All IsSample result.now }
        ensures brick { IsBrick self.now }
        ensures field { ∥ ((s : Field) × HasSamples s self.now) ∥₁ }
    {
        self.samples
    }

    /// Lends the finer samples of the transitional faces.
    pub fn faces(&self) -> &[i8]
        ensures value { result.now ≡ self.now.faces }
        ensures range { All IsSample result.now }
        ensures field { ∥ ((s : Field) × HasSamples s self.now) ∥₁ }
    {
        self.faces
    }
}
