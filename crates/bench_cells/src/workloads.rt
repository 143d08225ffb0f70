//! The workloads. What each returns tells that it did its work.
use crate::asked::{Asked, Hidden};
use crate::kind::Kind;
use futures::task::Context;
use futures::test::MockTask;
use std::alloc::{AllocGlobal, Global};
use std::io;
use std::random::RandomSource;
use std::sync::Wait;

/// What a workload is given: where memory is from, how many rounds it has, and the task.
type Given<'a, 'b, R> = (Global, u64, &'a mut Context<'b>, &'a Hidden, &'a R);

/// Runs what is asked for, and returns what it counted: 0 if there is no memory.
pub fn run<K: Kind<R>, R: Wait + RandomSource + AllocGlobal>(
    asked: &Asked,
    rt: &R,
) -> io::Result<u64> {
    let (alloc, rounds, task) = (rt.alloc(), asked.rounds, MockTask::new(rt)?);
    let hidden = Hidden::make(alloc)?;
    if matches!(asked.workload.as_str(), "tasks" | "alone") {
        return tasks::<K, R>(asked, hidden, rt);
    }
    Ok(task.enter(|cx| run_in::<K, R>(asked, (alloc, rounds, cx, hidden, rt))))
}

/// Runs the workload.
fn run_in<K: Kind<R>, R: Wait>(asked: &Asked, given: Given<'_, '_, R>) -> u64 {
    if asked.workload.as_str() == "reply" {
        return reply_slots::<K, R>(given);
    }
    let Some(cell) = K::make(given.0, given.4) else {
        return 0;
    };
    match asked.workload.as_str() {
        "watch" => watcher(&cell, given),
        "again" => {
            let (_, rounds, cx, _, rt) = given;
            cell.poll_again(cx, rounds, rt)
        }
        "stream" => match K::make(given.0, given.4) {
            Some(running) => stream(&cell, &running, given),
            None => 0,
        },
        _ => fan_out(&cell, asked.waiters, given),
    }
}

/// A new cell makes a future, which waits, and takes the value that is set. Both end.
#[inline(never)]
fn reply_slots<K: Kind<R>, R: Wait>(given: Given<'_, '_, R>) -> u64 {
    let (alloc, rounds, cx, hidden, rt) = given;
    let mut sum = 0u64;
    for i in 0..rounds {
        if let Some(cell) = K::make(alloc, rt) {
            sum = sum.wrapping_add(reply(&cell, cx, hidden.number(i), rt).unwrap_or(0));
        }
    }
    sum
}

/// A future takes the value that is set while it waits.
fn reply<K: Kind<R>, R: Wait>(cell: &K, cx: &mut Context<'_>, value: u64, rt: &R) -> Option<u64> {
    let mut taker = cell.taker(rt)?;
    if cell.take(&mut taker, cx, rt).is_some() {
        return None;
    }
    cell.set(value, rt);
    cell.take(&mut taker, cx, rt)
}

/// A cell is set, and its value read by one future.
#[inline(never)]
fn watcher<K: Kind<R>, R: Wait>(cell: &K, given: Given<'_, '_, R>) -> u64 {
    let (_, rounds, cx, hidden, rt) = given;
    let mut sum = 0u64;
    let Some(mut getter) = cell.getter(rt) else {
        return sum;
    };
    for i in 0..rounds {
        cell.set(hidden.number(i), rt);
        if let Some(value) = cell.get(&mut getter, cx, rt) {
            sum = sum.wrapping_add(value);
        }
    }
    sum
}

/// So many futures wait, all are woken, and the cell is emptied or the state seen.
#[inline(never)]
fn fan_out<K: Kind<R>, R: Wait>(cell: &K, waiters: u64, given: Given<'_, '_, R>) -> u64 {
    let (alloc, rounds, cx, hidden, rt) = given;
    let mut pending = 0u64;
    let Some(mut getters) = getters(alloc, cell, waiters, rt) else {
        return pending;
    };
    for i in 0..rounds {
        for getter in &mut getters {
            if cell.get(getter, cx, rt).is_none() {
                pending = pending.wrapping_add(1);
            }
        }
        cell.set(hidden.number(i), rt);
        cell.settle(&mut getters, cx, rt);
    }
    pending
}

/// As a fan-out, but each future is polled by a task of its own. Of tasks alone, each is entered as
/// often, and nothing else happens.
#[inline(never)]
fn tasks<K: Kind<R>, R: Wait + RandomSource + AllocGlobal>(
    asked: &Asked,
    hidden: &Hidden,
    rt: &R,
) -> io::Result<u64> {
    let (alloc, mut pending, mut all) = (rt.alloc(), 0u64, Vec::new(rt.alloc()));
    for _ in 0..asked.waiters {
        all.push(MockTask::new(rt)?)?;
    }
    let (Some(cell), is_alone) = (K::make(alloc, rt), asked.workload.as_str() == "alone") else {
        return Ok(pending);
    };
    let Some(mut getters) = getters(alloc, &cell, asked.waiters, rt) else {
        return Ok(pending);
    };
    for i in 0..asked.rounds {
        for (task, getter) in all.iter().zip(&mut getters) {
            if task.enter(|cx| is_alone || cell.get(getter, cx, rt).is_none()) {
                pending = pending.wrapping_add(1);
            }
        }
        if !is_alone {
            cell.set(hidden.number(i), rt);
        }
        if let Some(task) = all.first() {
            task.enter(|cx| {
                if !is_alone {
                    cell.settle(&mut getters, cx, rt);
                }
            });
        }
    }
    Ok(pending)
}

/// Makes so many futures.
fn getters<K: Kind<R>, R: Wait>(
    alloc: Global,
    cell: &K,
    waiters: u64,
    rt: &R,
) -> Option<Vec<K::Getter>> {
    let mut all = Vec::new(alloc);
    for _ in 0..waiters {
        all.push(cell.getter(rt)?).ok()?;
    }
    Some(all)
}

/// Each message is set when the server waits for it, and then taken by one future. Each look for a
/// message polls the future of the signal first. Returns the sum of the messages if the signal is
/// ready once it is set.
#[inline(never)]
fn stream<K: Kind<R>, R: Wait>(messages: &K, running: &K, given: Given<'_, '_, R>) -> u64 {
    let (_, rounds, cx, hidden, rt) = given;
    let mut sum = 0u64;
    let (Some(mut signal), Some(mut taker)) = (running.getter(rt), messages.taker(rt)) else {
        return sum;
    };
    for i in 0..rounds {
        if running.get(&mut signal, cx, rt).is_none()
            && messages.take(&mut taker, cx, rt).is_none()
        {
            messages.set(hidden.number(i), rt);
        }
        if running.get(&mut signal, cx, rt).is_none() {
            if let Some(message) = messages.take(&mut taker, cx, rt) {
                sum = sum.wrapping_add(message);
            }
        }
    }
    running.set(0, rt);
    match running.get(&mut signal, cx, rt) {
        Some(_) => sum,
        None => 0,
    }
}
