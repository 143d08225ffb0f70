//! A value that brings a fact along, through a cell: who takes it proves by it.

ghost use Rattle.std.specs.Prelude.{◌≡◌, ◌*◌};

use anyhow::Result;
use async_cell_sync::reply_slot;
use futures::executor::block_on;
use std::alloc::AllocGlobal;
use std::random::RandomSource;
use std::sync::Wait;
use std::thread::{self, Threads};

/// A reply, and the fact that it is twice what was asked.
#[derive(Drop)]
struct Doubled {
    asked: u32,
    reply: u64,
    ghost is_double: { reply ≡ 2 * asked },
}

fn double(asked: u32) -> Doubled {
    let reply = 2 * u64::from(asked);
    Doubled { asked, reply }
}

/// Half of a reply is what was asked.
fn half(doubled: Doubled) -> u64
    ensures { result ≡ doubled.asked }
{
    doubled.reply / 2
}

/// Asks a thread for twice a number, and returns half of the reply.
pub fn ask<R>(rt: R, asked: u32) -> Result<u64>
where
    R: Threads + Wait + RandomSource + AllocGlobal + Copy + Send + Sync + Drop + 'static,
{
    let (replier, reply) = reply_slot(rt.alloc(), rt)?;
    let worker = thread::spawn(&rt, move || replier.set(double(asked)))?;
    let doubled = block_on(&rt, reply)??; // `Closed`, if the replier was dropped
    let _ = worker.join(&rt);
    Ok(half(doubled))
}
