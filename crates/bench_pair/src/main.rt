//! Runs so many reply slots of a pair, as the words of the command ask, and prints the sum of what
//! came. It does so within one poll of a task, whose begin and end then hardly count. A program of
//! its own, as a user's is: where a call stands twice, the compiler inlines less. No part of the
//! libraries.
#![tactic(auto)]

use futures::channel::oneshot;
use futures::future::Future;
use futures::task::{Context, Poll};
use futures::test::MockTask;
use std::alloc::Global;
use std::io;
use std::sync::Wait;

/// A kind of reply slot that is no cell: a side that replies, and one that waits.
trait Slot<R: Wait> {
    /// Makes a slot, waits, replies by the value, and takes it. Both sides end.
    fn reply(alloc: Global, cx: &mut Context<'_>, value: u64, rt: &R) -> Option<u64>;
}

/// The pair of a cell that threads share.
struct SyncPair;

/// The pair of a cell of one thread.
struct UnsyncPair;

/// The kit's `oneshot`.
struct Oneshot;

/// Waits, replies by a call of the pair, and takes what was replied.
macro_rules! replied {
    ($pair:expr, $reply:ident, $cx:ident, $value:ident) => {{
        let (replier, mut reply) = $pair.ok()?;
        if reply.poll($cx).is_ready() {
            return None;
        }
        replier.$reply($value).ok()?;
        match reply.poll($cx) {
            Poll::Ready(Ok(value)) => Some(value),
            _ => None,
        }
    }};
}

impl<R: Wait + Copy> Slot<R> for SyncPair {
    fn reply(alloc: Global, cx: &mut Context<'_>, value: u64, rt: &R) -> Option<u64> {
        replied!(async_cell_sync::reply_slot(alloc, *rt), set, cx, value)
    }
}

impl<R: Wait> Slot<R> for UnsyncPair {
    fn reply(alloc: Global, cx: &mut Context<'_>, value: u64, _: &R) -> Option<u64> {
        replied!(async_cell_unsync::reply_slot(alloc), set, cx, value)
    }
}

impl<R: Wait> Slot<R> for Oneshot {
    fn reply(alloc: Global, cx: &mut Context<'_>, value: u64, _: &R) -> Option<u64> {
        replied!(oneshot::channel(alloc), send, cx, value)
    }
}

/// Each slot waits, and takes the value that is replied, which the compiler does not know.
#[inline(never)]
fn slots<S: Slot<R>, R: Wait>(
    alloc: Global,
    cx: &mut Context<'_>,
    asked: (u64, u64),
    rt: &R,
) -> u64 {
    let (rounds, waiters) = asked;
    let mut sum = 0u64;
    for i in 0..rounds {
        let taken = S::reply(alloc, cx, i.wrapping_mul(waiters), rt);
        sum = sum.wrapping_add(taken.unwrap_or(0));
    }
    sum
}

fn main(rt: HostRuntime) -> io::Result<()> {
    let (alloc, task) = (rt.alloc(), MockTask::new(&rt)?);
    let (mut kind, mut asked) = (String::new(alloc), (0, 0));
    for word in std::env::args(&rt)?.skip(1) {
        if kind.is_empty() {
            kind = word;
        } else {
            asked = (asked.1, word.parse().unwrap_or(0));
        }
    }
    let counted = task.enter(|cx| match kind.as_str() {
        "sync_pair" => slots::<SyncPair, HostRuntime>(alloc, cx, asked, &rt),
        "unsync_pair" => slots::<UnsyncPair, HostRuntime>(alloc, cx, asked, &rt),
        _ => slots::<Oneshot, HostRuntime>(alloc, cx, asked, &rt),
    });
    println!(rt; "{counted}")
}
