//! A future of a slot's `Replier` that waits until nobody waits for the reply.
ghost use Rattle.std.specs.Prelude.{◌≡◌};
ghost use Rattle.core.specs.Mem.{manually_drop_value};
ghost use Rattle.async_cell_model.specs.Refusal.{FailsWithMemory};
ghost use Rattle.async_cell_sync.specs.Source.{source_of};

use crate::async_cell::AsyncCell;
use crate::reply::Replier;
use async_cell_calls::Closing;
use async_cell_core::{Refusal, TaskWaker};
use async_cell_history::{Unruled, Unwitnessed};
use async_cell_step::{At, Polled, Request, With};
use futures::task::{Context, Poll};
use std::sync::Wait;

/// Waits until a slot is closed, so that nobody waits for the reply. `Replier::closed` makes the
/// future. Once it gave `Ok(())`, it gives it at each later poll.
#[derive(Drop)]
pub struct UntilClosed<'a, T: Drop, R: Wait + Drop, N: Unwitnessed<T, TaskWaker> = Unruled> {
    replier: &'a Replier<T, R, N>,
}

impl<T: Drop, R: Wait + Drop, N: Unwitnessed<T, TaskWaker>> Request<R>
    for UntilClosed<'_, T, R, N> {
    type Cell = AsyncCell<T, N>;

    fn cell(&self) -> Option<&AsyncCell<T, N>> {
        Some(&self.replier.cell)
    }
}

impl<T: Drop, R: Wait + Drop, N: Unwitnessed<T, TaskWaker>> Polled<R> for UntilClosed<'_, T, R, N> {
    type Output = Result<(), Refusal>;

    ghost waits_for = { λ asked s.
        s ≡ source_of (manually_drop_value asked.replier.now.cell.value) };

    ghost may_give = { λ _ given. FailsWithMemory given };

    #[inline(always)]
    fn poll_at(&self, at: At<'_>, cx: &mut Context<'_>, rt: &R) -> Poll<Self::Output> {
        self.replier.cell.poll(Closing, at, cx, rt)
    }
}

impl<T: Drop, R: Wait + Copy, N: Unwitnessed<T, TaskWaker>> Replier<T, R, N> {
    /// Returns a future that waits until the `ReplyFuture` is closed or dropped. So with `select`,
    /// work for the reply can end when nobody waits for the reply. To set the value, drop the
    /// future first: it borrows the `Replier`. Then a `ReplyFuture` that is dropped just before the
    /// `set` is seen only by the `set`. The future fails with `Memory` if there is no memory to
    /// register the waker, and may then be polled again. Its poll and its drop may wait for the
    /// lock.
    ///
    /// ```rust
    /// let (replier, reply) = reply_slot(rt.alloc(), rt)?;
    /// drop(reply);
    /// let done = match block_on(&rt, select(pending::<u32>(), replier.closed()))? {
    ///     Either::Left((value, _)) => Some(value),
    ///     Either::Right((gone, _)) => {
    ///         println!(rt; "nobody waits: {gone:?}")?; // prints nobody waits: Ok(())
    ///         None
    ///     }
    /// };
    /// if let Some(value) = done {
    ///     let _ = replier.set(value);
    /// }
    /// ```
    pub fn closed(&self) -> With<UntilClosed<'_, T, R, N>, R>
        ensures of_this { result.polled.replier.now ≡ self.now }
    {
        With::new(UntilClosed { replier: self }, self.rt)
    }
}
