ghost use Rattle.std.specs.Prelude.{◌≡◌, IfOk};
ghost use Rattle.futures.specs.Poll.{IfReady, OnPending};
ghost use Rattle.futures.specs.Task.{Covers, Keeps};
ghost use Rattle.async_cell_model.specs.Refusal.{FailsWithMemoryOrClosed};

use crate::{AsyncCell, CellRef, With};
use async_cell_calls::Taking;
use async_cell_core::Refusal;
use async_cell_step::{At, OneThread, Polled, Request, poll};
use futures::future::Future;
use futures::task::{Context, Poll};

/// A future that takes the value of a cell. The future may be polled again after it returned
/// `Ready`, for further values.
///
/// **Each poll that waits adds a waker**, which stays until the next write or close. The future
/// that `with` or an `Owner` makes has only one waker in the cell, and each poll that waits renews
/// this waker.
#[derive(Clone, Copy, Drop)]
#[derive_where(Debug)]
pub struct Take<C>(#[derive_where(skip)] pub C);

impl<C: CellRef> Take<C> {
    /// Polls by a shared reference. Takes the value, and the cell is then empty. If there is no
    /// value, waits. Fails with `Memory` if there is no memory to register the waker, and with
    /// `Closed` on a closed cell.
    #[inline]
    pub fn poll_shared(&self, cx: &mut Context<'_>) -> Poll<Result<C::Value, Refusal>>
        ensures rule { IfReady result (λ given. IfOk given C.Rules.holds) }
        ensures registered { OnPending result (Covers cx.new (C.waits_for self.now.0)) }
        ensures kept { Keeps cx.old cx.new }
        ensures refused { IfReady result FailsWithMemoryOrClosed }
    {
        self.poll_at(None, cx, &OneThread)
    }

    /// Returns the future that holds one place in the wait list while it waits.
    pub fn with(self) -> With<Self>
        ensures polls { result.polled ≡ self }
    {
        With::new(self, OneThread)
    }
}

impl<C: CellRef> Request<OneThread> for Take<C> {
    type Cell = AsyncCell<C::Value, C::Rules>;

    fn cell(&self) -> Option<&Self::Cell> {
        Some(self.0.cell())
    }
}

impl<C: CellRef> Polled<OneThread> for Take<C> {
    type Output = Result<C::Value, Refusal>;

    ghost waits_for = { λ polled. C.waits_for polled.0 };

    ghost may_give = { λ _ given. FailsWithMemoryOrClosed given
        × IfOk given C.Rules.holds };

    #[inline(always)]
    fn poll_at(&self, at: At<'_>, cx: &mut Context<'_>, rt: &OneThread) -> Poll<Self::Output> {
        let cell = self.0.cell();
        poll(&cell.core.store, &cell.source, Taking, at, cx, rt)
    }
}

impl<C: CellRef> Future for Take<C> {
    type Output = Result<C::Value, Refusal>;

    ghost needs = { λ future. C.waits_for future.0 };

    ghost gives = { λ _ given. FailsWithMemoryOrClosed given
        × IfOk given C.Rules.holds };

    fn poll(&mut self, cx: &mut Context<'_>) -> Poll<Self::Output> {
        self.poll_shared(cx)
    }
}
