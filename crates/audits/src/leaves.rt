//! How many leaves a frame has.

use lattice::MAX_DEPTH;

/// No world has more leaves: each of its levels has at most as many nodes as the lowest.
pub const MAX_LEAVES: u64 = (MAX_DEPTH as u64 + 1) << (3 * MAX_DEPTH);
