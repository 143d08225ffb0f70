//! A server squares numbers until it is told to stop. Each message brings the side that replies. It
//! is dropped if a square is too large, and then the side that waits fails.
#![tactic(auto)]

use anyhow::Result;
use async_cell_sync::{Owner, Replier, reply_slot};
use futures::channel::mpsc;
use futures::executor::block_on;
use futures::future::ready;
use futures::{SinkExt, StreamExt};
use std::thread;

fn main(rt: HostRuntime) -> Result<()> {
    let (mut outbox, inbox) = mpsc::channel(rt.alloc(), 1)?;
    let running: Owner<(), _> = Owner::new(rt.alloc(), rt)?;
    let stopped = running.get_weak();
    let server = thread::spawn(&rt, move || {
        let messages = inbox.take_until(stopped);
        block_on(
            &rt,
            messages.fold(0u64, |served, (number, replier): (u32, Replier<u32, _>)| {
                if let Some(square) = number.checked_mul(number) {
                    let _ = replier.set(square); // it comes back if nobody waits any more
                }
                ready(served.wrapping_add(1))
            }),
        )
    })?;
    for number in [2, 3, 70_000] {
        let (replier, reply) = reply_slot(rt.alloc(), rt)?;
        block_on(&rt, (&mut outbox).send((number, replier)))??;
        match block_on(&rt, reply)? {
            Ok(square) => println!(rt; "{number} squared is {square}")?,
            Err(why) => println!(rt; "{number} was not squared: {why}")?,
        }
    }
    drop(running);
    println!(rt; "served {}", server.join(&rt)?)?;
    Ok(())
}
