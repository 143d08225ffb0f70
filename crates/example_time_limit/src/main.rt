//! A reply with a time limit. A wait that is over has taken nothing, and can go on. If the
//! side that waits is dropped, a reply comes back.
#![tactic(auto)]

use anyhow::Result;
use async_cell_sync::reply_slot;
use async_cell_within::within;
use std::thread;
use std::time::Duration;

fn main(rt: HostRuntime) -> Result<()> {
    let (replier, mut reply) = reply_slot(rt.alloc(), rt)?;
    match within(&rt, &mut reply, Duration::from_millis(20))? {
        Some(reply) => println!(rt; "in time: {}", reply?)?,
        None => println!(rt; "late: nobody has replied")?,
    }
    let worker = thread::spawn(&rt, move || replier.set(42u32))?;
    match within(&rt, &mut reply, Duration::from_secs(60))? {
        Some(reply) => println!(rt; "in time: {}", reply?)?,
        None => println!(rt; "late again")?,
    }
    let _ = worker.join(&rt);
    let (replier, reply) = reply_slot(rt.alloc(), rt)?;
    drop(reply); // as after a wait that was too long
    println!(rt; "nobody waits: {:?}", replier.set(7u32))?;
    Ok(())
}
