//! What a handle may hold.

ghost use Rattle.std.specs.Prelude.{◌≡◌, Some, None, MatchOption};
ghost use Rattle.terra_c.specs.Held.{frame_of, made_of, world_of};
ghost use Rattle.terra_c.specs.declared.held.Held.TheVariants.{Empty};

use std::mem::replace;
use terra_world::{Done, GameWorld, Job, Snapshot};

/// What a handle may hold.
#[derive(Drop)]
pub enum Held {
    /// Nothing: the room for what comes.
    Empty,
    /// A game's world.
    World(GameWorld),
    /// A brick to mesh.
    Job(Job),
    /// A brick with its block.
    Made(Done),
    /// A frame.
    Frame(Snapshot),
}

impl Held {
    /// Lends the world.
    pub(crate) fn world(&self) -> Option<&GameWorld>
        ensures { MatchOption result (world_of self.now ≡ None)
            (λ world. world_of self.now ≡ Some world.now) }
    {
        match self {
            Held::World(world) => Some(world),
            Held::Empty => None,
            Held::Job(_) => None,
            Held::Made(_) => None,
            Held::Frame(_) => None,
        }
    }

    /// Holds this in the place of what is held, which is dropped.
    pub(crate) fn set(&mut self, held: Held)
        ensures { self.new ≡ held }
    {
        drop(replace(self, held));
    }

    /// Takes the block that a job made, and leaves nothing in its place; anything else stays as it is.
    pub(crate) fn take_made(&mut self) -> Option<Done>
        ensures { MatchOption result ((made_of self.old ≡ None) × (self.new ≡ self.old))
            (λ done. (made_of self.old ≡ Some done) × (self.new ≡ Empty)) }
    {
        match replace(self, Held::Empty) {
            Held::Made(done) => Some(done),
            other => {
                self.set(other);
                None
            }
        }
    }

    /// Lends the frame of a world, or the frame itself.
    pub(crate) fn frame(&self) -> Option<&Snapshot>
        ensures { MatchOption result (frame_of self.now ≡ None)
            (λ frame. frame_of self.now ≡ Some frame.now) }
    {
        match self {
            Held::World(world) => Some(world.frame()),
            Held::Frame(frame) => Some(frame),
            Held::Empty => None,
            Held::Job(_) => None,
            Held::Made(_) => None,
        }
    }
}
