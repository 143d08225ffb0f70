//! One thread asks, and another replies.
#![tactic(auto)]

use anyhow::Result;
use async_cell_sync::reply_slot;
use futures::executor::block_on;
use std::thread;

fn main(rt: HostRuntime) -> Result<()> {
    let (replier, reply) = reply_slot(rt.alloc(), rt)?;
    let worker = thread::spawn(&rt, move || replier.set(6 * 7))?;
    println!(rt; "the reply is {}", block_on(&rt, reply)??)?;
    let _ = worker.join(&rt); // `Err(42)`, if the reply had been dropped
    Ok(())
}
