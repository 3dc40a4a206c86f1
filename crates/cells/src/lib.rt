//! The cells of a block: their loops by the signs of their corners, and the keys of their edges.
//!
//! A regular cell is a cube with a sample at each corner (Lorensen and Cline 1987). A transition cell joins two levels
//! along the face of a block of the lower resolution: nine fine points, of which the four outer ones are repeated as
//! coarse corners (Lengyel 2010). The numbers of corners and edges are this project's rule; `docs/rules.md` has them.
#![tactic(auto)]

mod case;
mod cases;
mod edges;
mod outline;
mod polygon;
mod regular;
mod transition;

pub use cases::Cases;
pub use edges::{
    Along, FINE_POINTS, REGULAR_CORNERS, REGULAR_EDGES, RegularEdge, TRANSITION_EDGES,
    TransitionEdge, corner_point, fine_point, regular_edge, regular_key, transition_edge,
    transition_key,
};
