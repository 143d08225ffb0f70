//! A setting that a worker reads at the start, or fails to read, and that four tasks wait for.
#![tactic(auto)]

use anyhow::Result;
use async_cell_sync::Owner;
use futures::executor::block_on;
use futures::future::join_all;
use std::sync::Wait;
use std::thread;

/// The text was no number.
#[derive(Clone, Copy, Debug)]
struct NoNumber;

type Setting = std::result::Result<u32, NoNumber>;

/// Reads the setting. An early return sets it to `NoNumber`.
fn load<R: Wait + Copy>(setting: &Owner<Setting, R>, text: &str) -> Option<()> {
    let guard = setting.guard(Err(NoNumber));
    let number = text.parse::<u32>().ok()?;
    guard.set(Ok(number));
    Some(())
}

fn main(rt: HostRuntime) -> Result<()> {
    for text in ["42", "x"] {
        let setting = Owner::new(rt.alloc(), rt)?;
        let mut tasks = Vec::new(rt.alloc());
        for _ in 0..4 {
            tasks.push(setting.get_shared()?)?;
        }
        let worker = thread::spawn(&rt, move || load(&setting, text))?;
        for got in block_on(&rt, join_all(rt.alloc(), tasks)?)?? {
            println!(rt; "{text}: {:?}", got?)?;
        }
        worker.join(&rt);
    }
    Ok(())
}
