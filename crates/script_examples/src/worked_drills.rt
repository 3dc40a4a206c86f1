//! The first edit of the drill of seed 0, and how many lines of stats a drill has.

use crate::asserts::{expect, expect_made};
use camera_script::Command;
use drills::drill_script;
use lattice::Point;
use std::alloc::Global;
use std::process::Abort;
use terrain::{Brush, Event, Mode};

/// The ground that a world begins with, the first edit after it, and the line of stats behind that.
static FIRST: [Command; 3] = [
    Command::Event(Event::Edit(Brush::Ground {
        mode: Mode::Fill,
        h: 8,
    })),
    Command::Event(Event::Edit(Brush::Cuboid {
        mode: Mode::Fill,
        lo: Point { x: 13, y: 11, z: 6 },
        hi: Point {
            x: 16,
            y: 16,
            z: 11,
        },
    })),
    Command::Stats,
];

/// Asserts the commands of the shortest drill of seed 0.
fn expect_first(rt: &impl Abort, alloc: Global) {
    let commands = expect_made(rt, drill_script(alloc, 0, 1, 0));
    expect(rt, "the drill", commands.as_slice(), &FIRST[..]);
    drop(commands);
}

/// Returns how many of some commands ask for stats.
fn count_stats(commands: &[Command]) -> usize {
    let mut count: usize = 0;
    for command in commands {
        if *command == Command::Stats {
            count = count.saturating_add(1);
        }
    }
    count
}

/// Asserts how many lines of stats a long drill has.
fn expect_stats(rt: &impl Abort, alloc: Global) {
    let commands = expect_made(rt, drill_script(alloc, 7, 400, 3));
    expect(rt, "the lines of stats", count_stats(&commands), 51);
    drop(commands);
}

#[test]
fn makes_the_worked_drills(rt: HostRuntime) {
    expect_first(&rt, rt.alloc());
    expect_stats(&rt, rt.alloc());
}
