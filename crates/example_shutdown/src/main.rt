//! A shutdown: a parent stops its workers and waits until they have ended, but no longer than a
//! drain period. It knows which ended, which failed and which did not end.
#![tactic(auto)]

use anyhow::Result;
use async_cell_sync::{GetWeak, Owner, Refusal, Replier, ReplyFuture, WeakOwner, With, reply_slot};
use async_cell_within::{within, within_each};
use futures::executor::block_on;
use std::alloc::AllocGlobal;
use std::random::RandomSource;
use std::sync::Wait;
use std::time::{Clock, Duration};
use std::{io, thread};

/// Waits for the end of a cell. Each worker replies when it has ended.
fn wait_for<R>(rt: &R, closed: With<GetWeak<()>, R>, ended: Replier<(), R>) -> io::Result<()>
where
    R: Wait + RandomSource + AllocGlobal + Copy,
{
    let _ = block_on(rt, closed)?;
    let _ = ended.set(());
    Ok(())
}

/// Is busy, and asks at each turn whether it must stop.
fn turn<R>(rt: &R, running: &WeakOwner<(), R>, ended: Replier<(), R>) -> Result<(), Refusal>
where
    R: Wait + Copy,
{
    for _ in rt.forever() {
        if running.is_closed()? {
            break;
        }
    }
    let _ = ended.set(());
    Ok(())
}

/// Reads a number. If there is none, the replier is dropped: then the worker has failed.
fn read<R: Wait + Copy>(text: &str, ended: Replier<(), R>) -> Option<u64> {
    let number = text.parse::<u64>().ok()?;
    let _ = ended.set(());
    Some(number)
}

/// Waits for workers, and says of each how it ended, if it did so within `limit`.
fn drain<R>(rt: &R, workers: &mut [ReplyFuture<(), R>], limit: Duration) -> Result<()>
where
    R: Wait + Clock + RandomSource + AllocGlobal + Print + Copy,
{
    for ended in within_each(rt, workers, limit)? {
        match ended {
            Some(Ok(())) => println!(rt; "ended")?,
            Some(Err(why)) => println!(rt; "failed: {why}")?,
            None => println!(rt; "did not end in time")?,
        }
    }
    Ok(())
}

fn main(rt: HostRuntime) -> Result<()> {
    let minute = Duration::from_secs(60);
    let running: Owner<(), _> = Owner::new(rt.alloc(), rt)?;
    let (stopped, weak) = (running.get_weak(), running.downgrade());
    let (ended, waiting) = reply_slot(rt.alloc(), rt)?;
    let waiter = thread::spawn(&rt, move || wait_for(&rt, stopped, ended))?;
    let (ended, turning) = reply_slot(rt.alloc(), rt)?;
    let turner = thread::spawn(&rt, move || turn(&rt, &weak, ended))?;

    // Two jobs have ended before the stop. One does not hear of it, as it waits for `held`.
    let (ended, seven) = reply_slot(rt.alloc(), rt)?;
    thread::spawn(&rt, move || read("7", ended))?.join(&rt);
    let (ended, none) = reply_slot(rt.alloc(), rt)?;
    thread::spawn(&rt, move || read("x", ended))?.join(&rt);
    let held: Owner<(), _> = Owner::new(rt.alloc(), rt)?;
    let released = held.get_weak();
    let (ended, stuck) = reply_slot(rt.alloc(), rt)?;
    let holder = thread::spawn(&rt, move || wait_for(&rt, released, ended))?;

    drop(running); // Stops the two, as would a `?` above.
    drain(&rt, &mut [waiting, turning], minute)?;
    let mut jobs = [seven, none, stuck];
    drain(&rt, &mut jobs, Duration::from_millis(20))?;
    drop(held);
    let late = within(&rt, &mut jobs[2], minute)?;
    println!(rt; "later: {late:?}")?;
    waiter.join(&rt)?;
    turner.join(&rt)?;
    holder.join(&rt)?;
    Ok(())
}
