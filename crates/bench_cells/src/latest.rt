//! The latest state.
use crate::kind::Kind;
use async_cell_latest_sync::{Owner, States};
use futures::stream::Stream;
use futures::task::{Context, Poll};
use std::alloc::Global;
use std::sync::Wait;

/// An owner of a state. Its followers are streams, which hold a place.
#[derive(Drop)]
pub struct Followed<R: Wait + Copy> {
    owner: Owner<u64, R>,
}

/// Polls a follower. Returns the state that it is shown, if any.
#[inline(never)]
fn look<R: Wait + Copy>(states: &mut States<u64, R>, cx: &mut Context<'_>) -> Option<u64> {
    match states.poll_next(cx) {
        Poll::Ready(Some(Ok(state))) => Some(state),
        _ => None,
    }
}

impl<R: Wait + Copy> Kind<R> for Followed<R> {
    type Taker = ();

    type Getter = States<u64, R>;

    fn make(alloc: Global, rt: &R) -> Option<Self> {
        Some(Followed {
            owner: Owner::new(alloc, 0u64, *rt).ok()?,
        })
    }

    fn set(&self, value: u64, _: &R) {
        self.owner.set(value);
    }

    fn taker(&self, _: &R) -> Option<()> {
        None
    }

    fn getter(&self, _: &R) -> Option<Self::Getter> {
        Some(self.owner.follow().ok()?.states())
    }

    fn take(&self, _: &mut (), _: &mut Context<'_>, _: &R) -> Option<u64> {
        None
    }

    fn get(&self, states: &mut Self::Getter, cx: &mut Context<'_>, _: &R) -> Option<u64> {
        look(states, cx)
    }

    fn settle(&self, all: &mut Vec<Self::Getter>, cx: &mut Context<'_>, _: &R) {
        for states in all {
            let _ = look(states, cx);
        }
    }
}
