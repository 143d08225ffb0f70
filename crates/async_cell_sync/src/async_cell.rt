ghost use Rattle.std.specs.Prelude.{◌≡◌, None, IfOk, IfErr, IfSome};
ghost use Rattle.futures.specs.Poll.{IfReady, OnPending};
ghost use Rattle.futures.specs.Task.{Covers, Keeps};
ghost use Rattle.async_cell_model.specs.Machine.{content};
ghost use Rattle.async_cell_model.specs.Refusal.{FailsWithMemory, FailsWithMemoryOrClosed};
ghost use Rattle.async_cell_sync.specs.Names.{cell_of};
ghost use Rattle.async_cell_sync.specs.Owned.{cell_owned};
ghost use Rattle.async_cell_sync.specs.Source.{source_of};

use crate::guard::GuardedCell;
use crate::owner::Owner;
use crate::shared::Shared;
use crate::take::{Get, Take};
use async_cell_calls::CellStore;
use async_cell_core::{Core, Place, Refusal, TaskWaker};
use async_cell_history::{CellCore, Protocol, Unruled};
use async_cell_model::Kept;
use async_cell_step::{At, Places, Query, Rule, Ruled, poll};
use futures::task::{Context, Poll, Source};
use std::alloc::Global;
use std::sync::{Mutex, Wait};

/// A core behind a lock. Each call holds the lock while it makes its change. `rt` is the right to
/// wait for the lock. `N` names the cell, for the contracts of a [`Witness`](crate::Witness).
///
/// **What runs under the lock:** all that the docs of `AsyncCell` list, and also `clone` and
/// `will_wake` of wakers.
pub type LockedCore<T, W, N = Unruled> = CellStore<Mutex<CellCore<T, W, N>>>;

/// A cell that threads share. It holds an optional value, and futures wait on it for a value. Its
/// drop takes no lock, and wakes all waiters.
///
/// **What runs under the lock:** closures, the drop of what they own, and `clone` and `Debug` of
/// the value. **Code that runs under the lock must call no cell.** Such code waits forever if it
/// calls the same cell, or drops an `Owner`, a `Guard`, a waiting future or a stream of that cell.
/// It also waits forever if it waits for a thread which calls the cell. A call wakes tasks and
/// drops values after it has released the lock, so a wake or a drop may call the cell. (If another
/// task polls a future, the task that it leaves may be woken under the lock. This runs none of your
/// code.)
///
/// A future made by `with` holds one place in the wait list while it waits (see `With`). So all
/// these futures together need no more places than the largest number of them alive at one time.
/// Each `poll_shared` that waits adds one waker, which stays until the next write or close. `N` is
/// as for an `Owner`.
///
/// `{:?}` prints `AsyncCell { .. }`. For the content call `debug_text`, which takes the lock.
#[derive_where(Debug)]
pub struct AsyncCell<T, N: Protocol<T, TaskWaker> = Unruled> {
    #[derive_where(skip)]
    pub(crate) core: LockedCore<T, TaskWaker, N>,
    /// The source that waiting tasks register with.
    #[derive_where(skip)]
    pub(crate) source: Source,
    #[derive_where(skip)]
    pub(crate) alloc: Global,
}

/// Wakes all waiters.
impl<T: Drop, N: Protocol<T, TaskWaker>> Drop for AsyncCell<T, N> {
    #[inline(always)]
    fn drop(self) {
        let AsyncCell {
            core,
            source: _,
            alloc: _,
        } = self;
        core.into_core().end();
    }
}

impl<T: Drop> AsyncCell<T> {
    /// Makes a cell without a value. Allocates nothing. Stores the allocator for all memory that
    /// the cell allocates later.
    pub fn new(alloc: Global) -> Self {
        AsyncCell::of(alloc, Core::new(alloc))
    }

    /// As `new`, but the cell holds a value.
    pub fn new_with(alloc: Global, value: T) -> Self {
        AsyncCell::of(alloc, Core::new_with(alloc, value))
    }

    /// As `Shared::shared`.
    pub fn shared(alloc: Global) -> Result<Shared<T>, Refusal>
        ensures refused { FailsWithMemory result }
    {
        Shared::shared(alloc)
    }
}

impl<T: Drop, P: Rule<T>> AsyncCell<T, Ruled<P>> {
    /// As `new`, but the values of the cell satisfy the rule `P`.
    pub fn ruled(alloc: Global) -> Self {
        AsyncCell::of(alloc, Core::new(alloc))
    }

    /// As `new_with`, but the values of the cell satisfy the rule `P`.
    pub fn ruled_with(alloc: Global, value: T) -> Self
        requires rule { P.holds value }
    {
        AsyncCell::of(alloc, Core::new_with(alloc, value))
    }
}

impl<T: Drop, N: Protocol<T, TaskWaker>> AsyncCell<T, N> {
    /// Wraps a core in a cell that no witness sees.
    pub(crate) fn of(alloc: Global, core: Core<T, TaskWaker>) -> Self
        requires nameless { N.named ≡ None }
        requires rule { IfSome (content core.cell) N.holds }
    {
        AsyncCell {
            core: LockedCore::nameless(core),
            source: Source::new(),
            alloc,
        }
    }

    /// As `async_cell_step::poll`, on this cell. `at` is the future's place, if it has one.
    #[inline(always)]
    pub(crate) fn poll<Q: Query<CellCore<T, TaskWaker, N>>, R: Wait>(
        &self,
        query: Q,
        at: At<'_>,
        cx: &mut Context<'_>,
        rt: &R,
    ) -> Poll<Result<Q::Answer, Refusal>>
        requires asks { Q.asks query }
        ensures gives { IfReady result (λ answer. IfOk answer (Q.gives query)) }
        ensures closed { IfReady result (λ answer. IfErr answer (λ why. why ≡ Refusal.Closed
            → (core : _) × Q.closed core)) }
        ensures refused { IfReady result FailsWithMemoryOrClosed }
        ensures registered { OnPending result (Covers cx.new (λ s. s ≡ source_of self.now)) }
        ensures kept { Keeps cx.old cx.new }
    {
        poll(&self.core.store, &self.source, query, at, cx, rt)
    }

    /// As `Shared::into_shared`.
    pub fn into_shared(self) -> Result<Shared<T, N>, (Refusal, Self)>
        requires nameless { N.named ≡ None }
        ensures owns { IfOk result (λ owner. cell_of owner ≡ self) }
        ensures comes_back { IfErr result (λ back. back ≡ (Refusal.Memory, self)) }
    {
        Shared::into_shared(self)
    }

    /// As `Shared::into_shared`, but makes an `Owner`, which has the right to wait. To use `?`,
    /// call `Owner::new_with` instead, or write `into_shared_or_drop()?.with(rt)`.
    pub fn into_owner<R: Wait + Drop>(self, rt: R) -> Result<Owner<T, R, N>, (Refusal, Self)>
        requires nameless { N.named ≡ None }
        ensures owns { IfOk result (λ owner. cell_owned owner ≡ self) }
        ensures comes_back { IfErr result (λ back. back ≡ (Refusal.Memory, self)) }
    {
        Ok(self.into_shared()?.with(rt))
    }

    /// As `into_shared`, but drops the cell if there is no memory, so that `?` can be used on the
    /// result.
    pub fn into_shared_or_drop(self) -> Result<Shared<T, N>, Refusal>
        requires nameless { N.named ≡ None }
        ensures owns { IfOk result (λ owner. cell_of owner ≡ self) }
        ensures refused { FailsWithMemory result }
    {
        match self.into_shared() {
            Ok(owner) => Ok(owner),
            Err((why, _)) => Err(why),
        }
    }

    /// Returns the number of places in the wait list.
    #[doc(hidden)]
    pub fn waiting<R: Wait>(&self, rt: &R) -> usize {
        self.core.waiting(rt)
    }

    /// Returns the content. Wakes all waiters. Does not take the lock.
    pub fn into_inner(self) -> Option<T>
        ensures rule { IfSome result N.holds }
    {
        let AsyncCell {
            core,
            source: _,
            alloc: _,
        } = self;
        core.into_inner()
    }

    /// Returns a request to take the value. Its `with(rt)` is the future (see also `try_take`).
    pub fn take(&self) -> Take<&Self>
        ensures of_this { result.0.now ≡ self.now }
    {
        Take(self)
    }

    /// Returns a request to clone the value and leave it in the cell. Its `with(rt)` is the future.
    pub fn get(&self) -> Get<&Self>
    where
        T: Clone,
        ensures of_this { result.0.now ≡ self.now }
    {
        Get(self)
    }

    /// Returns a guard with this cancel value. The guard must be consumed (see `GuardedCell`).
    pub fn guard(&self, cancel: T) -> GuardedCell<T, &Self>
        requires may { N.may (Kept.OrSet cancel) }
        ensures of_this { result.pointer.now ≡ self.now }
        ensures keeps { result.cancel ≡ cancel }
    {
        GuardedCell::new(self, cancel)
    }
}

impl AsyncCell<()> {
    /// As `Owner::notify`.
    pub fn notify<R: Wait>(&self, rt: &R) {
        self.set((), rt);
    }

    /// Returns a request, whose `with(rt)` is the future of `Owner::wait`.
    pub fn wait(&self) -> Take<&AsyncCell<()>>
        ensures of_this { result.0.now ≡ self.now }
    {
        self.take()
    }
}

impl<T: Drop, N: Protocol<T, TaskWaker>, R: Wait> Places<R> for AsyncCell<T, N> {
    #[inline(always)]
    fn vacate(&self, place: Place, rt: &R) {
        self.core.store.vacate(place, rt);
    }

    fn cancel(&self, place: Place, rt: &R) {
        self.core.store.cancel(place, rt);
    }
}
