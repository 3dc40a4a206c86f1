//! Theorems about brushes and histories alone, as functions with no parameters and an empty body: what holds is the
//! contract. A caller that needs a theorem calls the function, which costs nothing.
#![tactic(auto)]

mod brushes;

pub use brushes::{
    brushes_keep_samples_off_their_region, brushes_read_only_the_world,
    fields_follow_the_edits_in_force, histories_grow_by_events, root_meets_both_bounds,
    samples_stay_in_range,
};
