//! The curves of a cell's faces, the loops that they make, and the triangles that fill them.
//!
//! The sign rule is that of Marching Cubes (Lorensen and Cline 1987). The triangulation is this project's: at an
//! ambiguous square the solid corners are separated, on both sides of a shared face alike. Nothing here takes memory.
#![tactic(auto)]

mod followers;
mod loop_list;
mod polygon;
mod trace;
mod triangles;

pub use loop_list::{KEYS, Loops, MAX_LOOPS};
pub use polygon::{Faces, MAX_CORNERS, MAX_FACES, Polygon, curves};
pub use terrain::Curve;
pub use trace::loops;
pub use triangles::{MAX_TRIANGLES, fan};
