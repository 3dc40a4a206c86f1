//! The field of samples, kept as pages that its versions share.
//!
//! A version is never changed. An edit makes a new one, which has pages of its own where samples change and shares all
//! other pages with the old version, so that a reader of the old version sees no change. What it replaced can be kept,
//! and put back later. This is the project's own rule.
//!
//! A page whose points of the world have one sample keeps that one alone. Any other page keeps each of its samples,
//! and remembers their signs: it can tell that all are solid, or that none is, without reading them.
#![tactic(auto)]

mod even;
mod even_rows;
mod kept;
mod layer;
mod page;
mod page_rows;
mod rule;
mod shared_pages;
mod signs;
mod version;

pub use kept::Kept;
pub use page::{COUNT, SIDE, index_in_page};
pub use page_rows::PageRows;
pub use rule::Rule;
pub use signs::none_and_all_are_solid;
pub use version::Version;
