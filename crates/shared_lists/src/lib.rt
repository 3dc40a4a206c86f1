//! Lists whose copies share their parts.
#![tactic(auto)]

mod shared_list;

pub use shared_list::SharedList;
