//! A pool of workers over a queue. Each request brings the side that replies. It is proved that no
//! asker gets a wrong answer. A worker that fails drops its request: then its asker gets an error.
#![tactic(auto)]

ghost use Rattle.std.specs.Prelude.{◌≡◌, ◌*◌, IfOk};

use anyhow::{Result, bail};
use async_cell_sync::{Replier, Rule, Ruled, reply_slot_of};
use crossbeam_channel::{Receiver, Sender, unbounded};
use futures::executor::block_on;
use std::alloc::AllocGlobal;
use std::random::RandomSource;
use std::sync::Wait;
use std::thread;

/// A number, and its square.
#[derive(Drop)]
struct Answer {
    number: u32,
    square: u32,
}

/// The square is that of the number.
struct IsRight;

impl Rule<Answer> for IsRight {
    ghost holds = { λ answer. answer.square ≡ answer.number * answer.number };
}

/// A number whose square is asked for, and the side that replies.
#[derive(Drop)]
struct Request<R: Wait + Drop> {
    number: u32,
    replier: Replier<Answer, R, Ruled<IsRight>>,
}

/// Answers requests until the queue is closed, and returns how many. One whose square is too large
/// is dropped, and its asker fails.
fn work<R: Wait + Drop + Copy>(rt: R, inbox: &Receiver<Request<R>>) -> u64 {
    let mut answered = 0u64;
    for Request { number, replier } in inbox.iter(&rt) {
        if let Some(square) = number.checked_mul(number) {
            let _ = replier.set(Answer { number, square }); // If it is an `Err`, nobody waits.
            answered = answered.wrapping_add(1);
        }
    }
    answered
}

/// Asks the pool for the square of a number.
fn square<R>(rt: R, outbox: &Sender<Request<R>>, number: u32) -> Result<u32>
where
    R: Wait + RandomSource + AllocGlobal + Copy + Send + Sync + Drop + 'static,
    ensures square { IfOk result (λ square. square ≡ number * number) }
{
    let (replier, reply) = reply_slot_of::<IsRight, Answer, _>(rt.alloc(), rt)?;
    outbox.send(&rt, Request { number, replier })?;
    let answer = block_on(&rt, reply)??; // `Closed`, if the request was dropped
    if answer.number != number {
        bail!("that is the answer to another question");
    }
    Ok(answer.square)
}

fn main(rt: HostRuntime) -> Result<()> {
    let (outbox, inbox) = unbounded(rt.alloc())?;
    let other = inbox.clone()?;
    let first = thread::spawn(&rt, move || work(rt, &inbox))?;
    let second = thread::spawn(&rt, move || work(rt, &other))?;
    for number in [2, 3, 70_000] {
        match square(rt, &outbox, number) {
            Ok(square) => println!(rt; "{number} squared is {square}")?,
            Err(why) => println!(rt; "{number} was not squared: {why}")?,
        }
    }
    drop(outbox);
    println!(rt;
        "answered {}",
        first.join(&rt).wrapping_add(second.join(&rt))
    )?;
    Ok(())
}
