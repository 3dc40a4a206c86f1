//! What a helper does, and helpers in threads beside other work.

ghost use Rattle.std.specs.Prelude.{◌≡◌};
ghost use Rattle.std.specs.Arc.{arc_value};
ghost use Rattle.mesh_jobs.specs.Round.{IsHaulOf};

use crate::post::Seat;
use block_mesh::Bench;
use cells::Cases;
use mesh_jobs::{Haul, Round};
use std::alloc::Global;
use std::mem::replace;
use std::sync::{Arc, Wait};
use std::thread::{Threads, join_mut, map_vec};

/// Has each seat's helper work in a thread of its own, does some other work beside them on the calling thread, and
/// returns what that returned. All threads are joined then.
///
/// The other work has to close the pool: until then no helper ends. A helper whose thread can't be started works in the
/// thread of another one, or on the calling thread after the other work, where it is told to stop.
pub fn help_beside<R: Threads + Wait + Sync, F: FnMut() -> T, T>(
    rt: &R,
    alloc: Global,
    cases: &Cases,
    seats: Vec<Seat>,
    other: &mut F,
) -> T
    requires { F.pre other.old }
    ensures { F.step other.old result other.new }
{
    let mut left = seats;
    let mut help_in_threads = || help_all(rt, alloc, cases, replace(&mut left, Vec::new(alloc)));
    let (_, done) = join_mut(rt, &mut help_in_threads, other);
    done
}

/// Has each seat's helper work in a thread of its own. Where memory runs out, some don't work.
fn help_all<R: Threads + Wait + Sync>(rt: &R, alloc: Global, cases: &Cases, seats: Vec<Seat>) {
    let _ = map_vec(rt, seats, &|seat: Seat| help(rt, alloc, cases, seat));
}

/// Makes its share of each round that it is asked for, until nothing will be asked any more.
fn help<R: Wait>(rt: &R, alloc: Global, cases: &Cases, seat: Seat) {
    let Seat { exchange, mut doer } = seat;
    let mut bench = Bench::new();
    for _ in rt.forever() {
        let Some(round) = exchange.next(rt, &mut doer) else {
            return;
        };
        let haul = haul_of(alloc, cases, &mut bench, round);
        exchange.reply(rt, &mut doer, haul);
    }
    unreachable!()
}

/// Returns the haul of a round, which is let go before.
///
/// So nobody has the field or the level map any more when the engine goes on, and it need copy nothing to change them.
fn haul_of(alloc: Global, cases: &Cases, bench: &mut Bench, round: Arc<Round>) -> Haul
    ensures { IsHaulOf (arc_value round) result }
{
    let mut haul = Haul::new(alloc);
    round.work(alloc, cases, bench, &mut haul);
    haul
}
