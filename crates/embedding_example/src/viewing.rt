//! A world is edited in which two players look from two places until one leaves. The blocks that each publication
//! changes are drawn, and a viewer in a thread of its own enters frames and audits them.

use crate::looking::Looker;
use anyhow::{Context, Result};
use scenes::{Brush, Bulk, Cases, Event, Mode, Node, PlainDoor, Point, Scene, Settings, Told};
use std::alloc::Global;
use std::sync::Wait;
use std::thread::{Threads, join};

/// A world of side 64.
const WORLD: Settings = Settings { depth: 2, reach: 1 };

/// A ball of ground in the middle of the world.
const BALL: Event = Event::Edit(Brush::Ball {
    mode: Mode::Fill,
    at: Point {
        z: 32,
        y: 32,
        x: 32,
    },
    r: 6,
});

/// A player who looks from a corner, near which the blocks are finer.
const CAMERA: Event = Event::Camera {
    view: 0,
    at: Point { z: 0, y: 0, x: 0 },
};

/// Another one, who looks from the opposite corner.
const OTHER_CAMERA: Event = Event::Camera {
    view: 1,
    at: Point {
        z: 64,
        y: 64,
        x: 64,
    },
};

/// The first player leaves.
const AWAY: Event = Event::Away { view: 0 };

/// The events of the world.
static EVENTS: [Event; 4] = [BALL, CAMERA, OTHER_CAMERA, AWAY];

/// Opens a scene, plays on it with one viewer, and closes it.
pub(crate) fn run<R: Print + Threads + Wait + Sync>(
    rt: &R,
    alloc: Global,
    cases: &Cases,
) -> Result<()> {
    let mesher = Bulk::new(cases);
    let mut door = PlainDoor::new();
    let (mut scene, mut viewers) = Scene::open(rt, alloc, &mut door, cases, WORLD, mesher, 1)?;
    let mut looker = Looker::last_of(&mut viewers);
    let played = play(rt, alloc, &mut scene, &mut looker);
    scene.close(rt);
    drop(looker);
    drop(viewers);
    played
}

/// Plays the events one after another, and has a viewer look at the frame of each.
fn play<R: Print + Threads + Wait + Sync>(
    rt: &R,
    alloc: Global,
    scene: &mut Scene<Bulk<'_>>,
    looker: &mut Looker,
) -> Result<()> {
    for event in &EVENTS {
        scene.apply(alloc, *event)?;
        show(rt, alloc, scene, looker)?;
    }
    Ok(())
}

/// Publishes the frame of all events, and has a viewer learn the news and enter it.
fn show<R: Print + Threads + Wait + Sync>(
    rt: &R,
    alloc: Global,
    scene: &mut Scene<Bulk<'_>>,
    looker: &mut Looker,
) -> Result<()> {
    let news = publish(rt, alloc, scene, looker)?;
    let drawn = draw(rt, scene, &news);
    looker.learn(news);
    drawn?;
    let audit = looker.look(alloc)?;
    println!(rt; "a viewer: {} edges, {} cracks", audit.edges, audit.cracks)?;
    Ok(())
}

/// Publishes the frame of all events, while a viewer looks in a thread of its own at whichever frame is shown, and
/// returns the news.
fn publish<R: Print + Threads + Wait + Sync>(
    rt: &R,
    alloc: Global,
    scene: &mut Scene<Bulk<'_>>,
    looker: &mut Looker,
) -> Result<Told> {
    let (looked, published) = join(
        rt,
        || count_cracks(rt, alloc, looker),
        || scene.publish(rt, alloc),
    );
    looked.and(published?.context("nothing is published"))
}

/// Has a viewer look, and prints how many cracks the frame has.
fn count_cracks<R: Print>(rt: &R, alloc: Global, looker: &mut Looker) -> Result<()> {
    let audit = looker.look(alloc)?;
    println!(rt; "in a thread: {} cracks", audit.cracks)?;
    Ok(())
}

/// Prints what a renderer does after a publication: it lets the blocks go that are gone, and draws those that were put.
fn draw<R: Print>(rt: &R, scene: &Scene<Bulk<'_>>, news: &Told) -> Result<()> {
    for node in news.gone() {
        drop_block(rt, node)?;
    }
    for node in news.put() {
        draw_block(rt, scene, node)?;
    }
    Ok(())
}

/// Lets the block of a node go.
fn drop_block<R: Print>(rt: &R, node: &Node) -> Result<()> {
    let Node { level, k, j, i } = node;
    println!(rt; "gone: level {level} at {i} {j} {k}")?;
    Ok(())
}

/// Draws the block of a node.
fn draw_block<R: Print>(rt: &R, scene: &Scene<Bulk<'_>>, node: &Node) -> Result<()> {
    let block = scene
        .block(*node)
        .context("a block that was put isn't there")?;
    let Node { level, k, j, i } = node;
    let (vertices, triangles) = (block.positions.len(), block.triangles.len());
    println!(rt; "put: level {level} at {i} {j} {k}: {vertices} vertices, {triangles} triangles")?;
    Ok(())
}
