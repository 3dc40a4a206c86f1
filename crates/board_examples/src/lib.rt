//! Tests of frames, of boards, and of what meshes the leaves that a board wants, each by public calls.
//!
//! - `frames` has tables that frames share, `standing` what frames have that absorb the patches of a board; its proofs
//!   go by laws.
//! - Boards: `plays` has which leaves events make wanted, what becomes of results, patches and a full journal, by the
//!   steps that `stage` carries out.
//! - Who meshes: `bulk` has many leaves that are meshed at once, `pooled` a pool, `accounts` seats that work on the
//!   calling thread once the desk is closed, `beside` a worker in a thread.
//!
//! The expected values are worked out by hand from the rules, or come from programs that share no code with this one.
#![tactic(auto)]

#[cfg(test)]
mod accounts;
#[cfg(test)]
mod asserts;
#[cfg(test)]
mod beside;
#[cfg(test)]
mod bulk;
#[cfg(test)]
mod events;
#[cfg(test)]
mod frames;
#[cfg(test)]
mod leaves;
#[cfg(test)]
mod plays;
#[cfg(test)]
mod pooled;
#[cfg(test)]
mod stage;
#[cfg(test)]
mod standing;
