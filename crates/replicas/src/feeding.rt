//! Fields that have come whole, read one after another.

ghost use Rattle.std.specs.Prelude.{◌≡◌, ◌<◌, OnErr, OnOk, length};
ghost use Rattle.replicas.specs.Drafts.{draft_of};
ghost use Rattle.replicas.specs.Following.{behind_patch};
ghost use Rattle.replicas.specs.Held.{world_held};
ghost use Rattle.replicas.specs.Replicas.{IsDraftOf, ReadsField, field_size};
ghost use Rattle.replicas.specs.Stages.{IsDraft, draft_patch, new_draft};

use crate::draft::Draft;
use crate::fault::WireFault;
use crate::held::Held;
use crate::judging::judge_head;
use crate::stage::Stage;
use std::alloc::{AllocError, Global};
use std::mem;

/// Reads a field that has come whole, and returns whether a patch took effect with it. The error refuses the field, or
/// is out of memory; what is held stays then.
#[inline(always)]
pub(crate) fn read_field(
    alloc: Global,
    held: &mut Option<Held>,
    draft: &mut Draft,
    field: &[u8],
) -> Result<bool, WireFault>
    requires draft { IsDraftOf held.old (draft_of draft.old) }
    requires size { length field.now ≡ field_size held.old draft.old.stage }
    requires some { 0 < length field.now }
    ensures { ReadsField held.old (draft_of draft.old) field.now held.new (draft_of draft.new)
        result }
{
    let Some(world) = held else {
        let settings = judge_head(field)?;
        *held = Some(Held::new(alloc, settings)?);
        return Ok(false);
    };
    draft.read(alloc, world, field)?;
    let Stage::End = draft.stage else {
        return Ok(false);
    };
    take_effect(alloc, world, draft)?;
    Ok(true)
}

/// Has a patch that was read take effect, and begins another one. Out of memory is the only error, and leaves what is
/// held.
fn take_effect(alloc: Global, held: &mut Held, draft: &mut Draft) -> Result<(), AllocError>
    requires { IsDraft (world_held held.old) (draft_of draft.old) }
    ensures world { OnOk result (world_held held.new
        ≡ behind_patch (world_held held.old) (draft_patch (draft_of draft.old))) }
    ensures draft { draft_of draft.new ≡ new_draft draft.old.in_force }
    ensures unchanged { OnErr result (held.new ≡ held.old) }
{
    let in_force = draft.in_force;
    let Draft {
        events,
        gone,
        blocks,
        ..
    } = mem::replace(draft, Draft::new(alloc, in_force));
    held.take(&events, in_force, &gone, blocks)
}
