ghost use Rattle.std.specs.Prelude.{◌≡◌, ℕ, Err, IfOk, IfSome};
ghost use Rattle.std.specs.Rc.{rc_value};
ghost use Rattle.futures.specs.Poll.{IfReady, OnPending};
ghost use Rattle.futures.specs.Task.{Covers, Keeps};
ghost use Rattle.async_cell_model.specs.Refusal.{FailsWithMemory};
ghost use Rattle.async_cell_unsync.specs.Names.{IsLost, NameAtMostTheSame, Names, NamesAtMost, NameTheSame, OwnsNamed};
ghost use Rattle.async_cell_unsync.specs.Owned.{cell_owned};
ghost use Rattle.async_cell_unsync.specs.Refused.{GivesWeakly};
ghost use Rattle.async_cell_unsync.specs.Source.{source_of, IsSourceOf};
ghost use Rattle.async_cell_step.specs.Rule.{IsCloneOfOne};
ghost use Rattle.async_cell_step.specs.Upgrade.{FailsToUpgrade};

use crate::{AsyncCell, Get, Owner, Shared, Take};
use async_cell_core::{Refusal, TaskWaker};
use async_cell_history::{Free, Unruled};
use async_cell_step::{At, OneThread, Polled, Request, Takes, Upgrade, weakly};
use futures::future::Future;
use futures::task::{Context, Poll};
use std::alloc::AllocError;
use std::rc::Rc;

/// The future of a `Take`, a `Get`, a `TakeWeak` or a `GetWeak`. This future holds a place in the
/// cell's wait list. To make such a future, call `with` on one of these four types, or call a
/// method such as `take` of an `Owner` or a `WeakOwner`.
pub type With<P> = async_cell_step::With<P, OneThread>;

/// The stream of the values of a cell. To make the stream, call `values` on the future of a
/// `TakeWeak`. **Several streams of a cell do not take turns**: one of them may get every value.
pub type Values<T, N = Unruled> = async_cell_step::Values<TakeWeak<T, N>, OneThread>;

/// A weak pointer to a cell. It does not count as an owner. `Shared::downgrade` makes a `Weak`.
/// `TakeWeak(weak).with()` and `GetWeak(weak).with()` turn a `Weak` into a future. `Weak::with`
/// turns a `Weak` into a `WeakOwner`.
#[derive(Drop)]
#[derive_where(Debug)]
pub struct Weak<T, N: Free<T, TaskWaker> = Unruled> {
    /// `None` if the pointer could not be counted when it was made.
    #[derive_where(skip)]
    cell: Option<Rc<AsyncCell<T, N>>>,
}

impl<T: Drop, N: Free<T, TaskWaker>> Weak<T, N> {
    pub(crate) fn of(cell: &Rc<AsyncCell<T, N>>) -> Self
        ensures of_this { NamesAtMost result (rc_value cell.now) }
    {
        let cell: Result<_, _> = cell.clone();
        Weak { cell: cell.ok() }
    }

    /// Returns the cell. Fails with `Memory` if the pointer could not be counted when it was made.
    pub(crate) fn cell(&self) -> Result<&AsyncCell<T, N>, Refusal>
        ensures source { IfOk result (λ c. (s : ℕ) → IsSourceOf self.now s → s ≡ source_of c.now) }
        ensures lost { IsLost self.now → result ≡ Err Refusal.Memory }
        ensures refused { FailsWithMemory result }
    {
        Ok(self.cell.as_ref().ok_or(Refusal::Memory)?.as_ref())
    }

    /// Returns another pointer to the same cell. If the new pointer cannot be counted, it points to
    /// no cell.
    pub(crate) fn again(&self) -> Self
        ensures of_this { NameAtMostTheSame self.now result }
    {
        let copy: Result<_, _> = self.clone();
        copy.unwrap_or(Weak { cell: None })
    }

    /// Turns this pointer into a `WeakOwner`, whose `upgrade` makes an `Owner`.
    pub fn with(self) -> WeakOwner<T, N>
        ensures points { result.weak ≡ self }
    {
        WeakOwner { weak: self }
    }

    /// Returns whether the last owner has ended. If it has, no owner can be made. Fails with
    /// `Memory` if this weak pointer could not be counted when it was made.
    pub fn is_closed(&self) -> Result<bool, Refusal>
        ensures lost { IsLost self.now → result ≡ Err Refusal.Memory }
        ensures refused { FailsWithMemory result }
    {
        Ok(self.cell()?.is_closed())
    }

    /// Returns whether the cell holds a value. A closed cell holds none. Fails with `Memory` if
    /// this weak pointer could not be counted when it was made.
    pub fn is_set(&self) -> Result<bool, Refusal>
        ensures lost { IsLost self.now → result ≡ Err Refusal.Memory }
        ensures refused { FailsWithMemory result }
    {
        Ok(self.cell()?.is_set())
    }

    /// Makes an owner. Fails with `Memory` if the count of the cell's `Rc` is full, or if this weak
    /// pointer could not be counted when it was made. These two causes are checked first. Returns
    /// `None` if the cell is closed. Fails with `OwnersFull` at 4,294,967,295 owners.
    pub fn upgrade(&self) -> Result<Option<Shared<T, N>>, Refusal>
        ensures of_this { IfOk result (λ found. IfSome found (OwnsNamed self.now)) }
        ensures lost { IsLost self.now → result ≡ Err Refusal.Memory }
        ensures refused { FailsToUpgrade result }
    {
        let cell = self.cell.as_ref().ok_or(Refusal::Memory)?;
        match Shared::owning(cell) {
            Ok(owner) => Ok(Some(owner)),
            Err(Refusal::Closed) => Ok(None),
            Err(why) => Err(why),
        }
    }
}

/// A clone points to the same cell.
impl<T: Drop, N: Free<T, TaskWaker>> Clone for Weak<T, N> {
    ghost is_clone = { λ weak copy. NameTheSame weak copy };

    fn clone(&self) -> Result<Weak<T, N>, AllocError> {
        let cell = self.cell.clone()?;
        Ok(Weak { cell })
    }
}

/// A weak pointer to a cell. The calls of a `WeakOwner` make owners and futures. A `WeakOwner` does
/// not count as an owner. It keeps the cell's memory alive, but not the cell's value.
/// `Owner::downgrade` makes one.
#[derive(Drop)]
#[derive_where(Debug)]
pub struct WeakOwner<T, N: Free<T, TaskWaker> = Unruled> {
    #[derive_where(skip)]
    pub(crate) weak: Weak<T, N>,
}

impl<T: Drop, N: Free<T, TaskWaker>> WeakOwner<T, N> {
    /// As `Weak::upgrade`, but makes an `Owner`.
    pub fn upgrade(&self) -> Result<Option<Owner<T, N>>, Refusal>
        ensures of_this { IfOk result (λ found. IfSome found (λ owner.
            Names self.now.weak (cell_owned owner))) }
        ensures lost { IsLost self.now.weak → result ≡ Err Refusal.Memory }
        ensures refused { FailsToUpgrade result }
    {
        Ok(self.weak.upgrade()?.map(Shared::with))
    }

    /// As `Weak::is_closed`.
    pub fn is_closed(&self) -> Result<bool, Refusal>
        ensures lost { IsLost self.now.weak → result ≡ Err Refusal.Memory }
        ensures refused { FailsWithMemory result }
    {
        self.weak.is_closed()
    }

    /// As `Weak::is_set`.
    pub fn is_set(&self) -> Result<bool, Refusal>
        ensures lost { IsLost self.now.weak → result ≡ Err Refusal.Memory }
        ensures refused { FailsWithMemory result }
    {
        self.weak.is_set()
    }

    /// Returns a future that takes the value and is no owner. The future gives `None` once the last
    /// owner has ended. The future fails with `Memory` if it got no pointer to the cell, because
    /// the count of the cell's `Rc` was full.
    pub fn take(&self) -> With<TakeWeak<T, N>>
        ensures of_this { NameAtMostTheSame self.now.weak result.polled.0 }
    {
        TakeWeak(self.weak.again()).with()
    }

    /// As `take`, but the future clones the value and leaves the value in the cell.
    pub fn get(&self) -> With<GetWeak<T, N>>
    where
        T: Clone,
        ensures of_this { NameAtMostTheSame self.now.weak result.polled.0 }
    {
        GetWeak(self.weak.again()).with()
    }
}

/// A clone points to the same cell.
impl<T: Drop, N: Free<T, TaskWaker>> Clone for WeakOwner<T, N> {
    ghost is_clone = { λ weak copy. NameTheSame weak.weak copy.weak };

    fn clone(&self) -> Result<WeakOwner<T, N>, AllocError> {
        Ok(self.weak.clone()?.with())
    }
}

/// A future that takes the value of a cell. The future is not an owner of the cell. The future may
/// be polled again after it returned `Ready`. **Each poll that waits adds a waker.** The future
/// that `with` makes, in contrast, has only one waker in the cell (see `Take`).
#[derive(Drop)]
#[derive_where(Clone; T: Drop)]
#[derive_where(Debug)]
pub struct TakeWeak<T, N: Free<T, TaskWaker> = Unruled>(pub Weak<T, N>);

impl<T: Drop, N: Free<T, TaskWaker>> TakeWeak<T, N> {
    /// Polls by a shared reference. Takes the value, or waits. Returns `None` on a closed cell.
    /// Fails with `Memory` if there is no memory to register the waker.
    pub fn poll_shared(&self, cx: &mut Context<'_>) -> Poll<Result<Option<T>, Refusal>>
        ensures rule { IfReady result (λ given. IfOk given (λ found. IfSome found N.holds)) }
        ensures lost { IsLost self.now.0 → result ≡ Poll.Ready (Err Refusal.Memory) }
        ensures registered { OnPending result (Covers cx.new (IsSourceOf self.now.0)) }
        ensures kept { Keeps cx.old cx.new }
        ensures refused { IfReady result FailsWithMemory }
    {
        self.poll_at(None, cx, &OneThread)
    }

    /// Returns the future that holds one place in the wait list while it waits.
    pub fn with(self) -> With<Self>
        ensures polls { result.polled ≡ self }
    {
        With::new(self, OneThread)
    }

    /// Makes a `Take` that is a new owner. Fails or returns `None` when `Weak::upgrade` does.
    pub fn upgrade(&self) -> Result<Option<Take<Shared<T, N>>>, Refusal>
        ensures of_this { IfOk result (λ found. IfSome found (λ own. OwnsNamed self.now.0 own.0)) }
        ensures lost { IsLost self.now.0 → result ≡ Err Refusal.Memory }
        ensures refused { FailsToUpgrade result }
    {
        Ok(self.0.upgrade()?.map(Take))
    }
}

impl<T: Drop, N: Free<T, TaskWaker>> Request<OneThread> for TakeWeak<T, N> {
    type Cell = AsyncCell<T, N>;

    ghost is_lost = { λ weak. IsLost weak.0 };

    fn cell(&self) -> Option<&Self::Cell> {
        self.0.cell().ok()
    }
}

impl<T: Drop, N: Free<T, TaskWaker>> Polled<OneThread> for TakeWeak<T, N> {
    type Output = Result<Option<T>, Refusal>;

    ghost waits_for = { λ polled. IsSourceOf polled.0 };

    ghost may_give = { λ polled. GivesWeakly N.holds polled.0 };

    fn poll_at(&self, at: At<'_>, cx: &mut Context<'_>, rt: &OneThread) -> Poll<Self::Output> {
        match self.0.cell() {
            Ok(cell) => weakly(Take(cell).poll_at(at, cx, rt)),
            Err(why) => Poll::Ready(Err(why)),
        }
    }
}

impl<T: Drop, N: Free<T, TaskWaker>> Upgrade<OneThread> for TakeWeak<T, N> {
    type Owning = Take<Owner<T, N>>;

    ghost owned_by = { λ weak owning. Names weak.0 (cell_owned owning.0) };

    fn owning(&self, _: &OneThread) -> Result<Option<Self::Owning>, Refusal> {
        match self.0.upgrade()? {
            Some(owner) => Ok(Some(Take(owner.with()))),
            None => Ok(None),
        }
    }
}

impl<T: Drop, N: Free<T, TaskWaker>> Takes<OneThread> for TakeWeak<T, N> {
    type Value = T;

    ghost holds = { N.holds };

    ghost lacks_memory = { λ _ _ given. given.0 };

    ghost gives_held = { λ _ _ given. given.2 };
}

impl<T: Drop, N: Free<T, TaskWaker>> Future for TakeWeak<T, N> {
    type Output = Result<Option<T>, Refusal>;

    ghost needs = { λ future. IsSourceOf future.0 };

    ghost gives = { λ future. GivesWeakly N.holds future.0 };

    fn poll(&mut self, cx: &mut Context<'_>) -> Poll<Self::Output> {
        self.poll_shared(cx)
    }
}

/// Like `TakeWeak`, but the future clones the value.
#[derive(Drop)]
#[derive_where(Clone; T: Drop)]
#[derive_where(Debug)]
pub struct GetWeak<T, N: Free<T, TaskWaker> = Unruled>(pub Weak<T, N>);

impl<T: Drop, N: Free<T, TaskWaker>> GetWeak<T, N> {
    /// Polls by a shared reference. Clones the value, or waits. Returns `None` on a closed cell.
    /// Fails with `Memory` if there is no memory for the clone, or to register the waker.
    pub fn poll_shared(&self, cx: &mut Context<'_>) -> Poll<Result<Option<T>, Refusal>>
    where
        T: Clone,
        ensures rule { IfReady result (λ given. IfOk given (λ found.
            IfSome found (IsCloneOfOne T.is_clone N.holds))) }
        ensures lost { IsLost self.now.0 → result ≡ Poll.Ready (Err Refusal.Memory) }
        ensures registered { OnPending result (Covers cx.new (IsSourceOf self.now.0)) }
        ensures kept { Keeps cx.old cx.new }
        ensures refused { IfReady result FailsWithMemory }
    {
        self.poll_at(None, cx, &OneThread)
    }

    /// Returns the future that holds one place in the wait list while it waits.
    pub fn with(self) -> With<Self>
        ensures polls { result.polled ≡ self }
    {
        With::new(self, OneThread)
    }

    /// Makes a `Get` that is a new owner. Fails or returns `None` when `Weak::upgrade` does.
    pub fn upgrade(&self) -> Result<Option<Get<Shared<T, N>>>, Refusal>
        ensures of_this { IfOk result (λ found. IfSome found (λ own. OwnsNamed self.now.0 own.0)) }
        ensures lost { IsLost self.now.0 → result ≡ Err Refusal.Memory }
        ensures refused { FailsToUpgrade result }
    {
        Ok(self.0.upgrade()?.map(Get))
    }
}

impl<T: Drop, N: Free<T, TaskWaker>> Request<OneThread> for GetWeak<T, N> {
    type Cell = AsyncCell<T, N>;

    ghost is_lost = { λ weak. IsLost weak.0 };

    fn cell(&self) -> Option<&Self::Cell> {
        self.0.cell().ok()
    }
}

impl<T: Clone, N: Free<T, TaskWaker>> Polled<OneThread> for GetWeak<T, N> {
    type Output = Result<Option<T>, Refusal>;

    ghost waits_for = { λ polled. IsSourceOf polled.0 };

    ghost may_give = { λ polled. GivesWeakly (IsCloneOfOne T.is_clone N.holds) polled.0 };

    fn poll_at(&self, at: At<'_>, cx: &mut Context<'_>, rt: &OneThread) -> Poll<Self::Output> {
        match self.0.cell() {
            Ok(cell) => weakly(Get(cell).poll_at(at, cx, rt)),
            Err(why) => Poll::Ready(Err(why)),
        }
    }
}

impl<T: Drop, N: Free<T, TaskWaker>> Upgrade<OneThread> for GetWeak<T, N> {
    type Owning = Get<Owner<T, N>>;

    ghost owned_by = { λ weak owning. Names weak.0 (cell_owned owning.0) };

    fn owning(&self, _: &OneThread) -> Result<Option<Self::Owning>, Refusal> {
        match self.0.upgrade()? {
            Some(owner) => Ok(Some(Get(owner.with()))),
            None => Ok(None),
        }
    }
}

impl<T: Clone, N: Free<T, TaskWaker>> Future for GetWeak<T, N> {
    type Output = Result<Option<T>, Refusal>;

    ghost needs = { λ future. IsSourceOf future.0 };

    ghost gives = { λ future. GivesWeakly (IsCloneOfOne T.is_clone N.holds) future.0 };

    fn poll(&mut self, cx: &mut Context<'_>) -> Poll<Self::Output> {
        self.poll_shared(cx)
    }
}
