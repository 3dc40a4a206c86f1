//! How many leaves, triangles and keys there are.

ghost use Rattle.std.specs.Prelude.{◌≡◌, ◌+◌, ◌-◌, ◌<◌, ◌≤◌, ◌^◌, IfSome, MatchOption, None, Some};
ghost use Rattle.std.specs.Arc.{arc_value};
ghost use Rattle.block_mesh.specs.Done.{IsDone};
ghost use Rattle.snapshots.specs.Stats.{stats_of_slot};

use block_mesh::Block;
use std::sync::Arc;

/// How many leaves, triangles and keys the meshes of leaves have; a key counts in each leaf that has it.
#[derive(Clone, Copy, Debug, PartialEq, Eq)]
pub struct Stats {
    pub leaves: u64,
    pub triangles: u64,
    pub keys: u64,
}

/// Returns the stats of what a slot has.
pub(crate) fn count(held: Option<&Arc<Block>>) -> Stats
    ensures value { MatchOption held.entry (result ≡ stats_of_slot None)
        (λ done. result ≡ stats_of_slot (Some (arc_value done.now))) }
    ensures done { IfSome held.entry (λ done. IsDone (arc_value done.now)) }
{
    match held {
        None => Stats {
            leaves: 0,
            triangles: 0,
            keys: 0,
        },
        Some(done) => {
            let block = done.view();
            Stats {
                leaves: 1,
                triangles: block.triangles.len() as u64,
                keys: block.keys.len() as u64,
            }
        }
    }
}

/// Returns the stats after one slot has changed from old stats to new ones.
pub(crate) fn after_change(stats: Stats, old: Stats, new: Stats) -> Stats
    requires leaves_within { old.leaves ≤ stats.leaves }
    requires triangles_within { old.triangles ≤ stats.triangles }
    requires keys_within { old.keys ≤ stats.keys }
    requires leaves_fit { stats.leaves - old.leaves + new.leaves < 2 ^ 64 }
    requires triangles_fit { stats.triangles - old.triangles + new.triangles < 2 ^ 64 }
    requires keys_fit { stats.keys - old.keys + new.keys < 2 ^ 64 }
    ensures { result ≡ record {
      leaves = stats.leaves - old.leaves + new.leaves;
      triangles = stats.triangles - old.triangles + new.triangles;
      keys = stats.keys - old.keys + new.keys;
    } }
{
    Stats {
        leaves: stats.leaves - old.leaves + new.leaves,
        triangles: stats.triangles - old.triangles + new.triangles,
        keys: stats.keys - old.keys + new.keys,
    }
}
