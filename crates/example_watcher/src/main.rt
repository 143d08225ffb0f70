//! A countdown that three threads follow. Each sees the latest state whenever it has time for one,
//! and none misses the last.
#![tactic(auto)]

use anyhow::Result;
use async_cell_latest_sync::{Owner, States};
use futures::StreamExt;
use futures::executor::block_on;
use futures::future::ready;
use std::alloc::AllocGlobal;
use std::random::RandomSource;
use std::sync::Wait;
use std::{io, thread};

/// Follows the states up to their end. Returns the last one, and whether each was below the one
/// before it.
fn follow<R>(rt: &R, states: States<u32, R>) -> io::Result<(u32, bool)>
where
    R: Wait + RandomSource + AllocGlobal + Drop,
{
    let falling = states.map(|state| state.unwrap_or(u32::MAX)).fold(
        (60, true),
        |(last, ok), now| ready((now, ok && now < last)),
    );
    block_on(rt, falling)
}

fn main(rt: HostRuntime) -> Result<()> {
    let countdown = Owner::new(rt.alloc(), 60u32, rt)?;
    let one = countdown.follow()?.states();
    let two = countdown.follow()?.states();
    let three = countdown.follow()?.states();
    let one = thread::spawn(&rt, move || follow(&rt, one))?;
    let two = thread::spawn(&rt, move || follow(&rt, two))?;
    let three = thread::spawn(&rt, move || follow(&rt, three))?;
    for state in (0..60u32).rev() {
        countdown.set(state);
    }
    drop(countdown); // The last state stays: each sees it, and then the end.
    for (last, fell) in [one.join(&rt)?, two.join(&rt)?, three.join(&rt)?] {
        println!(rt; "the last was {last}, and each below the one before: {fell}")?;
    }
    Ok(())
}
