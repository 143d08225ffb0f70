//! Futures of a cell: `Take` and `Get` with any pointer to the cell, `TakeWeak` and `GetWeak` with
//! a weak pointer.
ghost use Rattle.std.specs.Prelude.{◌≡◌, Err, IfOk, IfSome};
ghost use Rattle.futures.specs.Poll.{IfReady, OnPending};
ghost use Rattle.futures.specs.Task.{Covers, Keeps};
ghost use Rattle.async_cell_model.specs.Refusal.{FailsWithMemory, FailsWithMemoryOrClosed};
ghost use Rattle.async_cell_step.specs.Rule.{IsCloneOfOne};
ghost use Rattle.async_cell_step.specs.Upgrade.{FailsToUpgrade};
ghost use Rattle.async_cell_sync.specs.Names.{IsLost, Names, OwnsNamed};
ghost use Rattle.async_cell_sync.specs.Owned.{cell_owned};
ghost use Rattle.async_cell_sync.specs.Refused.{GivesWeakly};
ghost use Rattle.async_cell_sync.specs.Source.{IsSourceOf};

use crate::async_cell::AsyncCell;
use crate::cell_ref::{CellRef, TakeRef};
use crate::owner::Owner;
use crate::shared::Shared;
use crate::weak::Weak;
use async_cell_calls::{Cloning, Taking};
use async_cell_core::{Refusal, TaskWaker};
use async_cell_history::{Protocol, Takeable, Unruled};
use async_cell_step::{At, Polled, Request, Takes, Upgrade, With};
use futures::task::{Context, Poll};
use std::sync::Wait;

/// Takes the value of a cell. Make the future by `with`. Once ready, it may be polled again, for
/// the next value. If several such futures of a cell are polled again in this way, one of them may
/// get all values. For the waker that `poll_shared` may add, see `AsyncCell`.
///
/// A `Take` of a `Shared` must be consumed, by `.0.end(rt)`. It has no `with`: use `poll_shared`.
#[derive(Clone, Copy, Drop)]
#[derive_where(Debug)]
pub struct Take<C>(#[derive_where(skip)] pub C);

impl<C: TakeRef> Take<C> {
    /// Polls by a shared reference. Takes the value, and the cell is then empty. If there is no
    /// value, waits. Fails with `Memory` if there is no memory to register the waker, and with
    /// `Closed` on a closed cell.
    pub fn poll_shared<R: Wait>(
        &self,
        cx: &mut Context<'_>,
        rt: &R,
    ) -> Poll<Result<C::Value, Refusal>>
        ensures rule { IfReady result (λ given. IfOk given C.Rules.holds) }
        ensures registered { OnPending result (Covers cx.new (C.waits_for self.now.0)) }
        ensures kept { Keeps cx.old cx.new }
        ensures refused { IfReady result FailsWithMemoryOrClosed }
    {
        self.0.cell().poll(Taking, None, cx, rt)
    }
}

impl<C: CellRef + Drop> Take<C> {
    /// Returns the future of this `Take`. The future keeps `rt`, because `Future::poll` has no
    /// parameter for the right to wait.
    ///
    /// ```rust
    /// let cell = AsyncCell::new_with(rt.alloc(), 7);
    /// println!(rt; "{}", block_on(&rt, cell.take().with(&rt))??)?; // prints 7
    /// ```
    pub fn with<R: Wait>(self, rt: R) -> With<Self, R>
        ensures polls { result.polled ≡ self }
    {
        With::new(self, rt)
    }
}

impl<C: CellRef + Drop, R: Wait> Request<R> for Take<C> {
    type Cell = AsyncCell<C::Value, C::Rules>;

    fn cell(&self) -> Option<&AsyncCell<C::Value, C::Rules>> {
        Some(self.0.cell())
    }
}

impl<C: TakeRef + Drop, R: Wait> Polled<R> for Take<C> {
    type Output = Result<C::Value, Refusal>;

    ghost waits_for = { λ take. C.waits_for take.0 };

    ghost may_give = { λ _ given. FailsWithMemoryOrClosed given × IfOk given C.Rules.holds };

    #[inline(always)]
    fn poll_at(&self, at: At<'_>, cx: &mut Context<'_>, rt: &R) -> Poll<Self::Output> {
        self.0.cell().poll(Taking, at, cx, rt)
    }
}

/// Clones the value of a cell, and otherwise is like `Take`. If a `Get` is polled again while the
/// cell holds a value, the `Get` is ready at once.
#[derive(Clone, Copy, Drop)]
#[derive_where(Debug)]
pub struct Get<C>(#[derive_where(skip)] pub C);

impl<C: CellRef<Value: Clone>> Get<C> {
    /// Polls by a shared reference. Clones the value, or waits. Fails with `Memory` if there is no
    /// memory for the clone, or to register the waker, and with `Closed` on a closed cell.
    pub fn poll_shared<R: Wait>(
        &self,
        cx: &mut Context<'_>,
        rt: &R,
    ) -> Poll<Result<C::Value, Refusal>>
        ensures rule { IfReady result (λ given.
            IfOk given (IsCloneOfOne C.Value.is_clone C.Rules.holds)) }
        ensures registered { OnPending result (Covers cx.new (C.waits_for self.now.0)) }
        ensures kept { Keeps cx.old cx.new }
        ensures refused { IfReady result FailsWithMemoryOrClosed }
    {
        self.0.cell().poll(Cloning, None, cx, rt)
    }
}

impl<C: CellRef + Drop> Get<C> {
    /// As `Take::with`.
    pub fn with<R: Wait>(self, rt: R) -> With<Self, R>
        ensures polls { result.polled ≡ self }
    {
        With::new(self, rt)
    }
}

impl<C: CellRef + Drop, R: Wait> Request<R> for Get<C> {
    type Cell = AsyncCell<C::Value, C::Rules>;

    fn cell(&self) -> Option<&AsyncCell<C::Value, C::Rules>> {
        Some(self.0.cell())
    }
}

impl<C: CellRef<Value: Clone> + Drop, R: Wait> Polled<R> for Get<C> {
    type Output = Result<C::Value, Refusal>;

    ghost waits_for = { λ get. C.waits_for get.0 };

    ghost may_give = { λ _ given. FailsWithMemoryOrClosed given
        × IfOk given (IsCloneOfOne C.Value.is_clone C.Rules.holds) };

    #[inline(always)]
    fn poll_at(&self, at: At<'_>, cx: &mut Context<'_>, rt: &R) -> Poll<Self::Output> {
        self.0.cell().poll(Cloning, at, cx, rt)
    }
}

/// Like `Take`, but has a weak pointer to the cell, so it is not an owner. The future gives `None`
/// once the last owner has ended.
#[derive(Drop)]
#[derive_where(Clone; T: Drop)]
#[derive_where(Debug)]
pub struct TakeWeak<T, N: Protocol<T, TaskWaker> = Unruled>(pub Weak<T, N>);

impl<T: Drop, N: Takeable<T, TaskWaker>> TakeWeak<T, N> {
    /// Polls by a shared reference. Takes the value, or waits. Returns `None` on a closed cell.
    /// Fails with `Memory` if there is no memory to register the waker.
    pub fn poll_shared<R: Wait>(
        &self,
        cx: &mut Context<'_>,
        rt: &R,
    ) -> Poll<Result<Option<T>, Refusal>>
        ensures rule { IfReady result (λ given. IfOk given (λ found. IfSome found N.holds)) }
        ensures lost { IsLost self.now.0 → result ≡ Poll.Ready (Err Refusal.Memory) }
        ensures registered { OnPending result (Covers cx.new (IsSourceOf self.now.0)) }
        ensures kept { Keeps cx.old cx.new }
        ensures refused { IfReady result FailsWithMemory }
    {
        self.poll_at(None, cx, rt)
    }
}

impl<T: Drop, N: Protocol<T, TaskWaker>> TakeWeak<T, N> {
    /// Returns the future of this request. The future keeps `rt`.
    pub fn with<R: Wait>(self, rt: R) -> With<Self, R>
        ensures polls { result.polled ≡ self }
    {
        With::new(self, rt)
    }

    /// Makes a `Take` that is a new owner. Fails or returns `None` when `Weak::upgrade` does.
    pub fn upgrade<R: Wait>(&self, rt: &R) -> Result<Option<Take<Shared<T, N>>>, Refusal>
        ensures of_this { IfOk result (λ found. IfSome found (λ take.
            OwnsNamed self.now.0 take.0)) }
        ensures lost { IsLost self.now.0 → result ≡ Err Refusal.Memory }
        ensures refused { FailsToUpgrade result }
    {
        Ok(self.0.upgrade(rt)?.map(Take))
    }
}

impl<T: Drop, R: Wait, N: Protocol<T, TaskWaker>> Request<R> for TakeWeak<T, N> {
    type Cell = AsyncCell<T, N>;

    ghost is_lost = { λ weak. IsLost weak.0 };

    fn cell(&self) -> Option<&AsyncCell<T, N>> {
        self.0.cell().ok()
    }
}

impl<T: Drop, R: Wait, N: Takeable<T, TaskWaker>> Polled<R> for TakeWeak<T, N> {
    type Output = Result<Option<T>, Refusal>;

    ghost waits_for = { λ take. IsSourceOf take.0 };

    ghost may_give = { λ take. GivesWeakly N.holds take.0 };

    fn poll_at(&self, at: At<'_>, cx: &mut Context<'_>, rt: &R) -> Poll<Self::Output> {
        self.0.poll(Taking, at, cx, rt)
    }
}

impl<T: Drop, R: Wait + Copy, N: Protocol<T, TaskWaker>> Upgrade<R> for TakeWeak<T, N> {
    type Owning = Take<Owner<T, R, N>>;

    ghost owned_by = { λ weak owning. Names weak.0 (cell_owned owning.0) };

    fn owning(&self, rt: &R) -> Result<Option<Take<Owner<T, R, N>>>, Refusal> {
        match self.0.upgrade(rt)? {
            Some(owner) => Ok(Some(Take(owner.with(*rt)))),
            None => Ok(None),
        }
    }
}

impl<T: Drop, R: Wait, N: Takeable<T, TaskWaker>> Takes<R> for TakeWeak<T, N> {
    type Value = T;

    ghost holds = { N.holds };

    ghost lacks_memory = { λ _ _ given. given.0 };

    ghost gives_held = { λ _ _ given. given.2 };
}

/// Like `Get`, but has a weak pointer to the cell, so it is not an owner. The future gives `None`
/// once the last owner has ended.
#[derive(Drop)]
#[derive_where(Clone; T: Drop)]
#[derive_where(Debug)]
pub struct GetWeak<T, N: Protocol<T, TaskWaker> = Unruled>(pub Weak<T, N>);

impl<T: Clone, N: Protocol<T, TaskWaker>> GetWeak<T, N> {
    /// Polls by a shared reference. Clones the value, or waits. Returns `None` on a closed cell.
    /// Fails with `Memory` if there is no memory for the clone, or to register the waker.
    pub fn poll_shared<R: Wait>(
        &self,
        cx: &mut Context<'_>,
        rt: &R,
    ) -> Poll<Result<Option<T>, Refusal>>
        ensures rule { IfReady result (λ given. IfOk given (λ found.
            IfSome found (IsCloneOfOne T.is_clone N.holds))) }
        ensures lost { IsLost self.now.0 → result ≡ Poll.Ready (Err Refusal.Memory) }
        ensures registered { OnPending result (Covers cx.new (IsSourceOf self.now.0)) }
        ensures kept { Keeps cx.old cx.new }
        ensures refused { IfReady result FailsWithMemory }
    {
        self.poll_at(None, cx, rt)
    }
}

impl<T: Drop, N: Protocol<T, TaskWaker>> GetWeak<T, N> {
    /// Returns the future of this request. The future keeps `rt`.
    pub fn with<R: Wait>(self, rt: R) -> With<Self, R>
        ensures polls { result.polled ≡ self }
    {
        With::new(self, rt)
    }

    /// Makes a `Get` that is a new owner. Fails or returns `None` when `Weak::upgrade` does.
    pub fn upgrade<R: Wait>(&self, rt: &R) -> Result<Option<Get<Shared<T, N>>>, Refusal>
        ensures of_this { IfOk result (λ found. IfSome found (λ get. OwnsNamed self.now.0 get.0)) }
        ensures lost { IsLost self.now.0 → result ≡ Err Refusal.Memory }
        ensures refused { FailsToUpgrade result }
    {
        Ok(self.0.upgrade(rt)?.map(Get))
    }
}

impl<T: Drop, R: Wait, N: Protocol<T, TaskWaker>> Request<R> for GetWeak<T, N> {
    type Cell = AsyncCell<T, N>;

    ghost is_lost = { λ weak. IsLost weak.0 };

    fn cell(&self) -> Option<&AsyncCell<T, N>> {
        self.0.cell().ok()
    }
}

impl<T: Clone, R: Wait, N: Protocol<T, TaskWaker>> Polled<R> for GetWeak<T, N> {
    type Output = Result<Option<T>, Refusal>;

    ghost waits_for = { λ get. IsSourceOf get.0 };

    ghost may_give = { λ get. GivesWeakly (IsCloneOfOne T.is_clone N.holds) get.0 };

    fn poll_at(&self, at: At<'_>, cx: &mut Context<'_>, rt: &R) -> Poll<Self::Output> {
        self.0.poll(Cloning, at, cx, rt)
    }
}

impl<T: Drop, R: Wait + Copy, N: Protocol<T, TaskWaker>> Upgrade<R> for GetWeak<T, N> {
    type Owning = Get<Owner<T, R, N>>;

    ghost owned_by = { λ weak owning. Names weak.0 (cell_owned owning.0) };

    fn owning(&self, rt: &R) -> Result<Option<Get<Owner<T, R, N>>>, Refusal> {
        match self.0.upgrade(rt)? {
            Some(owner) => Ok(Some(Get(owner.with(*rt)))),
            None => Ok(None),
        }
    }
}

/// The stream of the values of a cell. To make the stream, call `values` on the future of a
/// `TakeWeak`. **Several streams of a cell do not take turns**: one of them may get every value.
/// **Dropping a stream may wait for the lock**, as dropping the future of a `TakeWeak` may (see
/// `With`).
///
/// ```rust
/// let states = Owner::new_with(rt.alloc(), 7, rt)?;
/// let mut values = states.take_weak().values();
/// println!(rt; "{:?}", block_on(&rt, values.next())?)?; // prints Some(Ok(7))
/// drop(states);
/// println!(rt; "{:?}", block_on(&rt, values.next())?)?; // prints None
/// ```
pub type Values<T, R, N = Unruled> = async_cell_step::Values<TakeWeak<T, N>, R>;
