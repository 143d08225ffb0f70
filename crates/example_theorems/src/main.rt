//! Programs of two threads that share a cell, or a state. The contracts of each have a theorem.
//!
//! - `even`, `square` and `fact`: what the value of a reply satisfies.
//! - `reply` and `writer`: that a reply is the value that was set, and that who alone writes a cell
//!   finds what he wrote last. Their values bring tokens of `ghost_tokens` along.
//! - `lease` and `leader`: that there is one leader at a time, and each term has one. The right to
//!   lead has such a token.
//! - `job`, `shutdown`, `startup`, `versions` and `watcher`: what the two threads return on every
//!   schedule, or whom a call of one wakes.
//! - `account`: at the end, that all which went into the cell has come out.
//!
//! In all but `even` and `fact`, a type names the cell, the state or the rule. Calls are made at
//! `Brand`, and the `Invariants.antt` of the caller picks what it stands for.
#![tactic(auto)]

mod account;
mod even;
mod fact;
mod job;
mod leader;
mod lease;
mod reply;
mod shutdown;
mod signed;
mod square;
mod stamped;
mod startup;
mod versions;
mod watcher;
mod writer;

use anyhow::Result;
use std::alloc::AllocGlobal;
use std::random::RandomSource;
use std::sync::Wait;
use std::thread::Threads;

/// The runtime of a program of several threads that wait.
trait Host: AllocGlobal + Copy + RandomSource + Send + Sync + Threads + Wait {}

impl<R: AllocGlobal + Copy + RandomSource + Send + Sync + Threads + Wait> Host for R {}

fn main(rt: HostRuntime) -> Result<()> {
    println!(rt; "an even reply: {}", even::ask(rt)?)?;
    println!(rt; "the square of 7 is {}", square::square(rt, 7)?)?;
    println!(rt; "half of the reply is {}", fact::ask(rt, 21)?)?;
    let (given, set) = reply::ask(rt)?;
    println!(rt; "the reply is what was set: {}", given == set)?;
    let (first, second) = startup::start(rt)?;
    println!(rt; "two threads got one start-up value: {}", first? == second?)?;
    let (first, second) = job::share(rt)?;
    let takers = u8::from(first.is_some()) + u8::from(second.is_some());
    println!(rt; "threads that got the job: {takers}")?;
    let (low, high) = watcher::watch(rt)??;
    println!(rt; "the level fell: {}", low > high)?;
    let (first, second) = writer::write_twice(rt)??;
    println!(rt; "the writer found {first}, and then {second}")?;
    let (older, newer) = versions::follow(rt)?;
    println!(rt; "the version fell: {}", newer.unwrap_or(older) < older)?;
    let (one, other) = leader::lead_in_turn(rt)?;
    println!(rt; "two leaders had one term: {}", one == other)?;
    println!(rt; "the server has stopped: {}", shutdown::run(rt)?.1.is_ok())?;
    println!(rt; "the account is closed: {}", account::close(rt).is_ok())?;
    Ok(())
}
