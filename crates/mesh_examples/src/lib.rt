//! Tests of cells and of the meshes of leaves, each by public calls.
//!
//! `cases` has loops and triangles of cells, `plain` leaves without a surface, `meshes` and `largest` meshes of leaves.
//!
//! The expected values are worked out by hand from the rules, or come from programs that share no code with this one.
#![tactic(auto)]

#[cfg(test)]
mod asserts;
#[cfg(test)]
mod cases;
#[cfg(test)]
mod largest;
#[cfg(test)]
mod meshes;
#[cfg(test)]
mod plain;
