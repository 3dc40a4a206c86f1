//! Tests of published frames, viewers, scenes, watchers and schedules, and of what is asked of a frame's surface.
//!
//! - Viewers: `looks` has who sees what, `news` what they learn and what it changes, `doors` which doors refuse,
//!   `threads` a viewer and watchers in threads of their own, `watched` watchers of a world before any event.
//! - Frames: `auditing` has how many edges published frames have, and that none is left open, `undos` what is shown
//!   where an edit is undone. `stage` and `looker` have what several of these play with.
//! - Surfaces of frames: `normals` has the normals of a leaf's keys, by `keys`, and `picks` what picks find, on
//!   `surfaces`.
//! - Schedules: `hills` has one script by a mesher that misbehaves in sixteen ways, `beside` viewers in threads beside
//!   it, `full` a journal that has no more room, `undone` an undo that has no edit, and `again` settlings and patches
//!   that are made once more where memory ran out. All of them play on what `played` has.
//!
//! The expected values are worked out by hand from the rules of level maps, brushes and publications, are those of
//! another mesher, or come from programs that share no code with this one.
#![tactic(auto)]

#[cfg(test)]
mod again;
#[cfg(test)]
mod asserts;
#[cfg(test)]
mod auditing;
#[cfg(test)]
mod beside;
#[cfg(test)]
mod doors;
#[cfg(test)]
mod full;
#[cfg(test)]
mod hills;
#[cfg(test)]
mod keys;
#[cfg(test)]
mod looker;
#[cfg(test)]
mod looks;
#[cfg(test)]
mod news;
#[cfg(test)]
mod normals;
#[cfg(test)]
mod picks;
#[cfg(test)]
mod played;
#[cfg(test)]
mod stage;
#[cfg(test)]
mod surfaces;
#[cfg(test)]
mod threads;
#[cfg(test)]
mod undone;
#[cfg(test)]
mod undos;
#[cfg(test)]
mod watched;
