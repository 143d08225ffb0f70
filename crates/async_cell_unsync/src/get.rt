ghost use Rattle.std.specs.Prelude.{◌≡◌, IfOk};
ghost use Rattle.futures.specs.Poll.{IfReady, OnPending};
ghost use Rattle.futures.specs.Task.{Covers, Keeps};
ghost use Rattle.async_cell_model.specs.Refusal.{FailsWithMemoryOrClosed};
ghost use Rattle.async_cell_step.specs.Rule.{IsCloneOfOne};

use crate::{AsyncCell, CellRef, With};
use async_cell_calls::Taking;
use async_cell_core::Refusal;
use async_cell_step::{At, OneThread, Polled, Request, poll};
use futures::future::Future;
use futures::task::{Context, Poll};

/// A future that clones the value of a cell. Once a `Get` was ready, it may be polled again. If it
/// is polled while the cell holds a value, it is ready at once. **Each poll that waits adds a
/// waker** (see `Take`).
#[derive(Clone, Copy, Drop)]
#[derive_where(Debug)]
pub struct Get<C>(#[derive_where(skip)] pub C);

impl<C: CellRef> Get<C> {
    /// Polls by a shared reference. Clones the value, or waits. Fails with `Memory` if there is no
    /// memory for the clone, or to register the waker, and with `Closed` on a closed cell.
    #[inline]
    pub fn poll_shared(&self, cx: &mut Context<'_>) -> Poll<Result<C::Value, Refusal>>
    where
        C::Value: Clone,
        ensures rule { IfReady result (λ given.
            IfOk given (IsCloneOfOne C.Value.is_clone C.Rules.holds)) }
        ensures registered { OnPending result (Covers cx.new (C.waits_for self.now.0)) }
        ensures kept { Keeps cx.old cx.new }
        ensures refused { IfReady result FailsWithMemoryOrClosed }
    {
        self.poll_at(None, cx, &OneThread)
    }

    /// Returns the future that holds one place in the wait list while it waits.
    pub fn with(self) -> With<Self>
        ensures polls { result.polled ≡ self }
    {
        With::new(self, OneThread)
    }
}

impl<C: CellRef> Request<OneThread> for Get<C> {
    type Cell = AsyncCell<C::Value, C::Rules>;

    fn cell(&self) -> Option<&Self::Cell> {
        Some(self.0.cell())
    }
}

impl<C: CellRef<Value: Clone>> Polled<OneThread> for Get<C> {
    type Output = Result<C::Value, Refusal>;

    ghost waits_for = { λ polled. C.waits_for polled.0 };

    ghost may_give = { λ _ given. FailsWithMemoryOrClosed given
        × IfOk given (IsCloneOfOne C.Value.is_clone C.Rules.holds) };

    #[inline(always)]
    fn poll_at(&self, at: At<'_>, cx: &mut Context<'_>, rt: &OneThread) -> Poll<Self::Output> {
        let cell = self.0.cell();
        match poll(&cell.core.store, &cell.source, Taking, at, cx, rt) {
            Poll::Ready(Ok(value)) => Poll::Ready(cell.copy_back(value)),
            Poll::Ready(Err(why)) => Poll::Ready(Err(why)),
            Poll::Pending => Poll::Pending,
        }
    }
}

impl<C: CellRef<Value: Clone>> Future for Get<C> {
    type Output = Result<C::Value, Refusal>;

    ghost needs = { λ future. C.waits_for future.0 };

    ghost gives = { λ _ given. FailsWithMemoryOrClosed given
        × IfOk given (IsCloneOfOne C.Value.is_clone C.Rules.holds) };

    fn poll(&mut self, cx: &mut Context<'_>) -> Poll<Self::Output> {
        self.poll_shared(cx)
    }
}
