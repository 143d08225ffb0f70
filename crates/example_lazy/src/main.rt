//! A value that is made when it is first asked for, by a call that may fail: `get_or_try_init`. The
//! first caller makes the value, while the others wait.
#![tactic(auto)]

use anyhow::{Context, Result};
use async_cell_lazy::Lazy;
use std::thread;

/// Reads a number, and says so.
fn read<R: Print>(rt: &R, text: &str) -> Result<u32> {
    println!(rt; "reading {text}")?;
    text.parse::<u32>().ok().context("no number")
}

fn main(rt: HostRuntime) -> Result<()> {
    let limit = Lazy::new(rt.alloc(), rt)?;
    if let Err(why) = limit.get_or_try_init(|| read(&rt, "x"))? {
        println!(rt; "{why}")?;
    }
    let mut workers = Vec::new(rt.alloc());
    for _ in 0..4 {
        let limit = limit.another()?;
        let work = move || limit.get_or_try_init(|| read(&rt, "42"));
        workers.push(thread::spawn(&rt, work)?)?;
    }
    for worker in workers {
        println!(rt; "{}", worker.join(&rt)??)?;
    }
    Ok(())
}
