//! What comes next on a wire.

ghost use Rattle.std.specs.Prelude.{◌≡◌};
ghost use Rattle.replicas.specs.Stages.{stage_size};

use crate::numbers::event_size;

/// The field of a patch that comes next.
#[derive(Clone, Copy)]
pub(crate) enum Stage {
    Tag,
    Base,
    EventCount,
    GoneCount,
    BlockCount,
    EventTag,
    /// The fields of an event of this tag.
    Fields(u8),
    Gone,
    BlockNode,
    KeyCount,
    TriangleCount,
    Vertex,
    Triangle,
    /// The patch is whole.
    End,
}

impl Stage {
    /// Returns how many bytes the field has.
    #[inline(always)]
    pub(crate) fn size(self) -> usize
        ensures { result ≡ stage_size self }
    {
        match self {
            Stage::Tag | Stage::EventTag => 1,
            Stage::Base
            | Stage::EventCount
            | Stage::GoneCount
            | Stage::BlockCount
            | Stage::KeyCount
            | Stage::TriangleCount => 4,
            Stage::Fields(tag) => event_size(tag),
            Stage::Gone | Stage::BlockNode => 7,
            Stage::Vertex => 20,
            Stage::Triangle => 12,
            Stage::End => 0,
        }
    }
}
