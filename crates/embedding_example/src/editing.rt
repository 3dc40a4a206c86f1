//! Two editors, in threads of their own, edit one world. The main thread applies what they send, and then publishes it,
//! and a viewer looks at the frame.

use crate::looking::Looker;
use anyhow::{Context, Result};
use scenes::{
    Brush, Bulk, Cases, Event, Mode, Note, PlainDoor, Point, Scene, SceneClerk, SceneEditor,
    Settings, Stats, open_mail,
};
use std::alloc::Global;
use std::sync::Wait;
use std::thread::{Threads, scope, scope_env};

/// A world of side 32.
const WORLD: Settings = Settings { depth: 1, reach: 1 };

/// Where each editor fills balls, by x, y and z: the one near a corner, the other near the opposite one.
const PLACES: [[(u32, u32, u32); 3]; 2] = [
    [(8, 8, 8), (12, 8, 8), (8, 12, 10)],
    [(24, 24, 24), (20, 24, 24), (24, 20, 22)],
];

/// Opens a scene, has two editors edit it, and closes it.
pub(crate) fn run<R: Print + Threads + Wait + Sync>(
    rt: &R,
    alloc: Global,
    cases: &Cases,
) -> Result<()> {
    let mesher = Bulk::new(cases);
    let mut door = PlainDoor::new();
    let (mut scene, mut viewers) = Scene::open(rt, alloc, &mut door, cases, WORLD, mesher, 1)?;
    let mut looker = Looker::last_of(&mut viewers);
    let played = play(rt, alloc, &mut scene, &mut looker);
    scene.close(rt);
    drop(looker);
    drop(viewers);
    played
}

/// Has two editors edit a scene, and then a viewer look at it.
fn play<R: Print + Threads + Wait + Sync>(
    rt: &R,
    alloc: Global,
    scene: &mut Scene<Bulk<'_>>,
    looker: &mut Looker,
) -> Result<()> {
    edit(rt, alloc, scene)?;
    show(rt, alloc, scene, looker)
}

/// Opens a mail, has its editors edit the scene, and prints who sent how many events.
fn edit<R: Print + Threads + Wait + Sync>(
    rt: &R,
    alloc: Global,
    scene: &mut Scene<Bulk<'_>>,
) -> Result<()> {
    let (mut clerk, mut editors) = open_mail(alloc, WORLD, 2)?;
    let second = editors.pop().unwrap();
    let first = editors.pop().unwrap();
    let applied = apply_beside(rt, alloc, scene, &mut clerk, first, second);
    let counted = count_events(rt, &clerk);
    drop(editors);
    drop(clerk);
    applied.and(counted)
}

/// Has both editors write, each in a thread of its own, and applies their events to the scene meanwhile.
fn apply_beside<R: Threads + Wait + Sync>(
    rt: &R,
    alloc: Global,
    scene: &mut Scene<Bulk<'_>>,
    clerk: &mut SceneClerk,
    first: SceneEditor,
    second: SceneEditor,
) -> Result<()> {
    // The end of the scope waits for both threads.
    scope(scope_env(), rt, |threads| -> Result<()> {
        let one = started(threads.spawn(|| write(rt, first, &PLACES[0])));
        let other = started(threads.spawn(|| write(rt, second, &PLACES[1])));
        one.and(other)?;
        apply_all(rt, alloc, scene, clerk)
    })
}

/// Lets go of the handle of a thread, which goes on. The error is that no thread can be made.
fn started<T: Drop, E: Drop>(spawned: Result<T, E>) -> Result<()> {
    drop(spawned.ok().context("no thread can be made")?);
    Ok(())
}

/// Has an editor fill a ball at each of some places, and ends it.
fn write<R: Wait>(rt: &R, editor: SceneEditor, places: &[(u32, u32, u32)]) {
    let mut editor = editor;
    for (x, y, z) in places {
        let ball = Brush::Ball {
            mode: Mode::Fill,
            at: Point {
                z: *z,
                y: *y,
                x: *x,
            },
            r: 3,
        };
        // The ball is in the world, so no error comes.
        let _ = editor.post(rt, Event::Edit(ball));
    }
    editor.end(rt);
}

/// Applies the events of both editors until they have ended. After an error it takes what comes, and applies no more.
fn apply_all<R: Wait>(
    rt: &R,
    alloc: Global,
    scene: &mut Scene<Bulk<'_>>,
    clerk: &mut SceneClerk,
) -> Result<()> {
    let mut applied = Ok(());
    for _ in rt.forever() {
        match clerk.wait(rt) {
            Some(Note::Sent { editor: _, event }) => {
                if applied.is_ok() {
                    applied = scene.apply(alloc, event);
                }
            }
            Some(Note::Ended { editor: _ }) => {}
            None => break,
        }
    }
    Ok(applied?)
}

/// Prints who sent how many events.
fn count_events<R: Print>(rt: &R, clerk: &SceneClerk) -> Result<()> {
    for editor in 0..2u8 {
        let count = count_of(editor, clerk.owners());
        println!(rt; "editor {editor}: {count} events")?;
    }
    Ok(())
}

/// Returns how many of some events an editor sent, by who sent each.
fn count_of(editor: u8, owners: &[u8]) -> usize {
    owners.iter().filter(|owner| **owner == editor).count()
}

/// Publishes the world, and prints what a viewer finds.
fn show<R: Print + Threads + Wait + Sync>(
    rt: &R,
    alloc: Global,
    scene: &mut Scene<Bulk<'_>>,
    looker: &mut Looker,
) -> Result<()> {
    if let Some(news) = scene.publish(rt, alloc)? {
        looker.learn(news);
    }
    let audit = looker.look(alloc)?;
    let Stats {
        leaves,
        triangles,
        keys,
    } = scene.shown().stats();
    println!(rt;
        "{leaves} leaves, {triangles} triangles, {keys} keys, {} cracks",
        audit.cracks
    )?;
    Ok(())
}
