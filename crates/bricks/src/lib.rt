//! Bricks: all that a leaf's mesh is made from.
//!
//! A brick has its world's depth, the leaf, the leaf's rim, its samples, and the finer samples on the faces across
//! which it meets finer leaves. So a mesh can be made in any thread, long after the world has changed, and a brick
//! that still matches its world tells that the mesh made from it does too. Samples are gathered page by page, and a
//! leaf in even pages keeps one sample for all. A leaf that no surface crosses is told by its pages, before any sample
//! is gathered (`is_plain_leaf`).
#![tactic(auto)]

mod brick;
mod brick_view;
mod even;
mod faces;
mod line;
mod parts;
mod points;
mod room;
mod samples;

pub use brick::{Brick, LEAF_SAMPLES, POINTS, gather, has_face};
pub use brick_view::BrickView;
pub use even::is_plain_leaf;
pub use faces::{FACE_SAMPLES, FINE_POINTS};
pub use line::Line;
pub use room::Room;
