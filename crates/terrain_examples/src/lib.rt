//! What the definitions of `terrain` give at worked places, as functions with no parameters and an empty body.
//!
//! The values come from outside the program: the case tables and worked examples of the design. A definition that was
//! written down wrongly would be refused here. No other crate uses this one.
#![tactic(auto)]

pub mod blocks;
pub mod field;
pub mod levels;
pub mod loops;
