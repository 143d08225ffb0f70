//! What the workloads call of a kind of cell.
use async_cell_model::Refusal;
use futures::task::{Context, Poll};
use std::alloc::Global;
use std::sync::Wait;

/// A kind of cell, or of its owners, or of a latest state.
pub trait Kind<R: Wait>: Drop {
    /// What takes the value: a future, or nothing if each poll makes one of its own.
    type Taker: Drop;

    /// What clones the value, or follows the state.
    type Getter: Drop;

    fn make(alloc: Global, rt: &R) -> Option<Self>;

    fn set(&self, value: u64, rt: &R);

    fn taker(&self, rt: &R) -> Option<Self::Taker>;

    fn getter(&self, rt: &R) -> Option<Self::Getter>;

    /// Polls a taker. Returns the value that it gets, if any.
    fn take(&self, taker: &mut Self::Taker, cx: &mut Context<'_>, rt: &R) -> Option<u64>;

    /// Polls a getter. Returns the value that it gets, if any.
    fn get(&self, getter: &mut Self::Getter, cx: &mut Context<'_>, rt: &R) -> Option<u64>;

    /// Ends a round in which all waited: empties the cell, or shows each follower the state.
    fn settle(&self, getters: &mut Vec<Self::Getter>, cx: &mut Context<'_>, rt: &R);

    /// Polls one future so many times, and returns how often it waits.
    #[inline(never)]
    fn poll_again(&self, cx: &mut Context<'_>, rounds: u64, rt: &R) -> u64 {
        let mut pending = 0u64;
        let Some(mut getter) = self.getter(rt) else {
            return pending;
        };
        for _ in 0..rounds {
            if self.get(&mut getter, cx, rt).is_none() {
                pending = pending.wrapping_add(1);
            }
        }
        pending
    }
}

/// Returns the value that a poll returned, if any.
pub fn value_of(polled: Poll<Result<u64, Refusal>>) -> Option<u64> {
    match polled {
        Poll::Ready(Ok(value)) => Some(value),
        _ => None,
    }
}
