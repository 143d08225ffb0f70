//! A future of a slot's `Replier` that waits until nobody waits for the reply.
ghost use Rattle.std.specs.Prelude.{◌≡◌};
ghost use Rattle.core.specs.Mem.{manually_drop_value};
ghost use Rattle.async_cell_model.specs.Refusal.{FailsWithMemory};
ghost use Rattle.async_cell_unsync.specs.Source.{source_of};

use crate::{AsyncCell, Replier, With};
use async_cell_calls::Closing;
use async_cell_core::{Refusal, TaskWaker};
use async_cell_history::{Unruled, Unwitnessed};
use async_cell_step::{At, OneThread, Polled, Request, poll};
use futures::task::{Context, Poll};

/// Waits until a slot is closed, so that nobody waits for the reply. `Replier::closed` makes the
/// future. Once it gave `Ok(())`, it gives it at each later poll.
#[derive(Drop)]
pub struct UntilClosed<'a, T: Drop, N: Unwitnessed<T, TaskWaker> = Unruled> {
    replier: &'a Replier<T, N>,
}

impl<T: Drop, N: Unwitnessed<T, TaskWaker>> Request<OneThread> for UntilClosed<'_, T, N> {
    type Cell = AsyncCell<T, N>;

    fn cell(&self) -> Option<&AsyncCell<T, N>> {
        Some(&self.replier.cell)
    }
}

impl<T: Drop, N: Unwitnessed<T, TaskWaker>> Polled<OneThread> for UntilClosed<'_, T, N> {
    type Output = Result<(), Refusal>;

    ghost waits_for = { λ asked s.
        s ≡ source_of (manually_drop_value asked.replier.now.cell.value) };

    ghost may_give = { λ _ given. FailsWithMemory given };

    #[inline(always)]
    fn poll_at(&self, at: At<'_>, cx: &mut Context<'_>, rt: &OneThread) -> Poll<Self::Output> {
        let cell = &self.replier.cell;
        poll(&cell.core.store, &cell.source, Closing, at, cx, rt)
    }
}

impl<T: Drop, N: Unwitnessed<T, TaskWaker>> Replier<T, N> {
    /// Returns a future that waits until the `ReplyFuture` is closed or dropped. So with `select`,
    /// work for the reply can end when nobody waits for the reply. To set the value, drop the
    /// future first: it borrows the `Replier`. The future fails with `Memory` if there is no memory
    /// to register the waker, and may then be polled again. In `async_cell_sync` it has an example.
    pub fn closed(&self) -> With<UntilClosed<'_, T, N>>
        ensures of_this { result.polled.replier.now ≡ self.now }
    {
        With::new(UntilClosed { replier: self }, OneThread)
    }
}
