//! Theorems about cells, keys and nets alone, as functions with no parameters and an empty body: what holds is the
//! contract. A caller that needs a theorem calls the function, which costs nothing.
//!
//! Its `proofs/` also offer lemmas to the proofs of the crates above, which import them: what edges weigh
//! (`WeightLemmas`), a test of all sign numbers (`AllSigns`), keys (`KeysOf`), and of squares their faces, curves,
//! segments and nets (`SquareFaces`, `SquareCurves`, `SquareSegments`, `SquareNets`), one face or cell at a time, as
//! `seam_laws` puts them together.
#![tactic(auto)]

mod cells;
mod keys;
mod squares;
mod triangles;

pub use cells::{cells_are_closed, keys_of_cells_are_present};
pub use keys::{each_key_is_listed_once, keys_are_told_apart, nets_by_weights_are_nets_of_pairs};
pub use squares::{
    curves_between_regular_cells, curves_between_transition_cells, curves_of_lateral_faces,
    curves_of_squares, curves_on_coarse_squares, curves_on_fine_squares, nets_of_cells,
};
pub use triangles::triangles_are_few;
