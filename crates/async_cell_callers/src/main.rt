//! Calls of the libraries, at types of a program: they prove that preconditions can be met. A
//! function is called here if it requires something, or takes a closure, clone, edit, waker,
//! pointer, marker or future of its caller's. One that a library calls, without requiring as much
//! of its own callers, needs no call here. What calls do is for cases and tests.
//!
//! The public modules prove more, as another project would, of `Core`, `Latest`, a driver and a
//! recorded cell: their contracts follow from those of the functions that they call.
#![tactic(auto)]

ghost use Rattle.std.specs.Prelude.{◌≡◌, ◌%◌};

pub mod audit;
pub mod calls;
mod cells;
pub mod executor;
pub mod follower;
mod latest;
mod latest_as;
pub mod laws;
pub mod logs;
mod pointers;
pub mod put;
pub mod reply_slot;
mod sync;
pub mod taken;
mod takers;
mod unsync;
mod waits;

use anyhow::Result;
use async_cell_sync::Rule;
use std::alloc::AllocGlobal;
use std::random::RandomSource;
use std::sync::Wait;

/// The runtime of a program that waits.
trait Host: AllocGlobal + Copy + RandomSource + Wait {}

impl<R: AllocGlobal + Copy + RandomSource + Wait> Host for R {}

/// The rule of an even value.
struct Even;

impl Rule<u32> for Even {
    ghost holds = { λ value. value % 2 ≡ 0 };
}

/// A look at a value.
fn half(value: &u32) -> u32 {
    value / 2
}

fn main(rt: HostRuntime) -> Result<()> {
    sync::all(rt)?;
    unsync::all(rt)?;
    takers::all(rt)?;
    waits::all(rt);
    pointers::all(rt);
    latest::of_owner(rt)?;
    latest::of_follower(rt)?;
    latest::of_ruled(rt)?;
    latest_as::watch_gauge(rt, 100)?;
    Ok(())
}
