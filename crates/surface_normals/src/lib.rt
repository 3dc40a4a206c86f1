//! The normals of a surface's vertices: of a key, by the field alone.
//!
//! A vertex has one normal, in whichever blocks it is, since it is made from the samples around its key. These are read
//! out of the field's pages, or out of a leaf's brick where the key lies in the leaf.
#![tactic(auto)]

mod inner;
mod normals;
mod vector;

pub use inner::normal_beside;
pub use normals::normal;
pub use vector::Normal;
