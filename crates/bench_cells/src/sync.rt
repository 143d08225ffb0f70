//! The cell that threads share, and its owner.
use crate::kind::{Kind, value_of};
use async_cell_sync::{AsyncCell, Get, Owner, Take, With};
use futures::future::Future;
use futures::task::Context;
use std::alloc::Global;
use std::sync::Wait;

/// A cell without owners. Each poll makes a future of its own.
#[derive(Drop)]
pub struct Locked {
    cell: AsyncCell<u64>,
}

impl<R: Wait> Kind<R> for Locked {
    type Taker = ();

    type Getter = ();

    fn make(alloc: Global, _: &R) -> Option<Self> {
        Some(Locked {
            cell: AsyncCell::new(alloc),
        })
    }

    fn set(&self, value: u64, rt: &R) {
        self.cell.set(value, rt);
    }

    fn taker(&self, _: &R) -> Option<()> {
        Some(())
    }

    fn getter(&self, _: &R) -> Option<()> {
        Some(())
    }

    fn take(&self, _: &mut (), cx: &mut Context<'_>, rt: &R) -> Option<u64> {
        value_of(self.cell.take().poll_shared(cx, rt))
    }

    fn get(&self, _: &mut (), cx: &mut Context<'_>, rt: &R) -> Option<u64> {
        value_of(self.cell.get().poll_shared(cx, rt))
    }

    fn settle(&self, _: &mut Vec<()>, _: &mut Context<'_>, rt: &R) {
        let _ = self.cell.try_take(rt);
    }

    #[inline(never)]
    fn poll_again(&self, cx: &mut Context<'_>, rounds: u64, rt: &R) -> u64 {
        let mut future = self.cell.get().with(rt);
        let mut pending = 0u64;
        for _ in 0..rounds {
            if future.poll(cx).is_pending() {
                pending = pending.wrapping_add(1);
            }
        }
        pending
    }
}

/// An owner that keeps the right to wait. Its futures are owners, and each holds a place.
#[derive(Drop)]
pub struct Owned<R: Wait + Copy> {
    owner: Owner<u64, R>,
}

impl<R: Wait + Copy> Kind<R> for Owned<R> {
    type Taker = With<Take<Owner<u64, R>>, R>;

    type Getter = With<Get<Owner<u64, R>>, R>;

    fn make(alloc: Global, rt: &R) -> Option<Self> {
        Some(Owned {
            owner: Owner::new(alloc, *rt).ok()?,
        })
    }

    fn set(&self, value: u64, _: &R) {
        self.owner.set(value);
    }

    fn taker(&self, _: &R) -> Option<Self::Taker> {
        self.owner.take_shared().ok()
    }

    fn getter(&self, _: &R) -> Option<Self::Getter> {
        self.owner.get_shared().ok()
    }

    fn take(&self, taker: &mut Self::Taker, cx: &mut Context<'_>, _: &R) -> Option<u64> {
        value_of(taker.poll(cx))
    }

    fn get(&self, getter: &mut Self::Getter, cx: &mut Context<'_>, _: &R) -> Option<u64> {
        value_of(getter.poll(cx))
    }

    fn settle(&self, _: &mut Vec<Self::Getter>, _: &mut Context<'_>, _: &R) {
        let _ = self.owner.try_take();
    }
}
