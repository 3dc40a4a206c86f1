//! The posts and seats of a pool, before and after a run.

use crate::post::{Post, Seat};
use errands::Exchange;
use rayon::current_num_threads;
use std::alloc::{AllocError, Global};
use std::sync::{Arc, Wait};
use std::thread::Threads;

/// There are no more helpers than this.
const MOST_HELPERS: usize = 31;

/// Worlds that are less deep have few leaves.
const LEAST_DEPTH: u8 = 2;

/// Returns how many helpers are worth having in a world of this depth: one for each processor but the engine's, and
/// none where a world has few leaves.
pub fn helpers_for<R: Threads + Sync>(rt: &R, depth: u8) -> usize {
    if depth < LEAST_DEPTH {
        return 0;
    }
    current_num_threads(rt).saturating_sub(1)
}

/// Returns a post for each helper, and its seat. Out of memory is the only error.
pub fn open_posts(alloc: Global, helpers: usize) -> Result<(Vec<Post>, Vec<Seat>), AllocError> {
    let mut posts = Vec::new(alloc);
    let mut seats = Vec::new(alloc);
    for _ in 0..helpers.min(MOST_HELPERS) {
        let (post, seat) = open(alloc)?;
        posts.push(post)?;
        seats.push(seat)?;
    }
    Ok((posts, seats))
}

/// Returns the two ends between the engine and a new helper. Out of memory is the only error.
fn open(alloc: Global) -> Result<(Post, Seat), AllocError> {
    let (exchange, asker, doer) = Exchange::new(alloc)?;
    let ours = Arc::new(alloc, exchange)?;
    let theirs = Arc::try_clone(&ours)?;
    let post = Post {
        exchange: ours,
        asker,
        is_asked: false,
    };
    let seat = Seat {
        exchange: theirs,
        doer,
    };
    Ok((post, seat))
}

/// Tells the helpers of these posts to stop.
pub fn close_posts<R: Wait>(rt: &R, posts: Vec<Post>) {
    for post in posts {
        post.close(rt);
    }
}
