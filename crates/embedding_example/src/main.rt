//! Two small programs that embed the engine, one after the other. In `viewing` a world is edited while two players look
//! from two places until one leaves, and a viewer in a thread of its own enters its frames; in `editing` two editors in
//! threads of their own edit one world.
#![tactic(auto)]

mod editing;
mod looking;
mod viewing;

use anyhow::Result;
use scenes::Cases;
use std::alloc::Global;
use std::sync::Wait;
use std::thread::Threads;

fn main(rt: HostRuntime) -> Result<()> {
    let cases = Cases::new(rt.alloc())?;
    let done = run(&rt, rt.alloc(), &cases);
    drop(cases);
    done
}

/// Runs one program after the other.
fn run<R: Print + Threads + Wait + Sync>(rt: &R, alloc: Global, cases: &Cases) -> Result<()> {
    viewing::run(rt, alloc, cases)?;
    editing::run(rt, alloc, cases)
}
