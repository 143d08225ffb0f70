ghost use Rattle.std.specs.Prelude.{◌≡◌, ℕ, Err, IfOk, IfSome};
ghost use Rattle.futures.specs.Poll.{IfReady, OnPending};
ghost use Rattle.futures.specs.Task.{Covers, Keeps};
ghost use Rattle.async_cell_model.specs.Refusal.{FailsWithMemory};
ghost use Rattle.async_cell_step.specs.Upgrade.{FailsToUpgrade};
ghost use Rattle.async_cell_sync.specs.Names.{IsLost, NameAtMostTheSame, NameTheSame, Names, OwnsNamed};
ghost use Rattle.async_cell_sync.specs.Owned.{cell_owned};
ghost use Rattle.async_cell_sync.specs.Source.{source_of, IsSourceOf};

use crate::async_cell::AsyncCell;
use crate::owner::Owner;
use crate::shared::Shared;
use crate::take::{GetWeak, TakeWeak};
use async_cell_core::{Refusal, TaskWaker};
use async_cell_history::{Anyone, CellCore, Nobody, Protocol, Unruled};
use async_cell_step::{At, Query, With, weakly};
use futures::task::{Context, Poll};
use std::alloc::AllocError;
use std::sync::{Arc, Wait};

/// A weak pointer to a cell. It does not count as an owner. `Shared::downgrade` makes a `Weak`.
/// `TakeWeak(weak).with(rt)` and `GetWeak(weak).with(rt)` turn a `Weak` into a future. `Weak::with`
/// turns a `Weak` into a `WeakOwner`, whose calls take no `rt`.
#[derive(Drop)]
#[derive_where(Debug)]
pub struct Weak<T, N: Protocol<T, TaskWaker> = Unruled> {
    /// `None` if the pointer could not be counted when it was made.
    #[derive_where(skip)]
    pub(crate) cell: Option<Arc<AsyncCell<T, N>>>,
}

impl<T: Drop, N: Protocol<T, TaskWaker>> Weak<T, N> {
    /// Returns the cell. Fails with `Memory` if the pointer could not be counted when it was made.
    pub(crate) fn cell(&self) -> Result<&AsyncCell<T, N>, Refusal>
        ensures source { IfOk result (λ c. (s : ℕ) → IsSourceOf self.now s → s ≡ source_of c.now) }
        ensures lost { IsLost self.now → result ≡ Err Refusal.Memory }
        ensures refused { FailsWithMemory result }
    {
        match &self.cell {
            Some(cell) => Ok(cell.as_ref()),
            None => Err(Refusal::Memory),
        }
    }

    /// As `AsyncCell::poll`, but gives `None` on a closed cell. Also fails when `cell` fails.
    #[inline(always)]
    pub(crate) fn poll<Q: Query<CellCore<T, TaskWaker, N>>, R: Wait>(
        &self,
        query: Q,
        at: At<'_>,
        cx: &mut Context<'_>,
        rt: &R,
    ) -> Poll<Result<Option<Q::Answer>, Refusal>>
        requires asks { Q.asks query }
        ensures gives { IfReady result (λ a. IfOk a (λ found. IfSome found (Q.gives query))) }
        ensures lost { IsLost self.now → result ≡ Poll.Ready (Err Refusal.Memory) }
        ensures refused { IfReady result FailsWithMemory }
        ensures registered { OnPending result (Covers cx.new (IsSourceOf self.now)) }
        ensures kept { Keeps cx.old cx.new }
    {
        match self.cell() {
            Ok(cell) => weakly(cell.poll(query, at, cx, rt)),
            Err(why) => Poll::Ready(Err(why)),
        }
    }

    /// Returns another pointer to the same cell. If the new pointer cannot be counted, it points to
    /// no cell.
    pub(crate) fn again(&self) -> Self
        ensures of_this { NameAtMostTheSame self.now result }
    {
        let copy: Result<_, _> = self.clone();
        copy.unwrap_or(Weak { cell: None })
    }

    /// Makes a `WeakOwner` from this pointer and `rt`, the right to wait for the lock. The calls of
    /// the `WeakOwner` take no `rt`.
    pub fn with<R: Wait>(self, rt: R) -> WeakOwner<T, R, N>
        ensures points { result.weak ≡ self }
    {
        WeakOwner { weak: self, rt }
    }

    /// Returns whether the last owner has ended. If it has, no owner can be made. Fails with
    /// `Memory` if this weak pointer could not be counted when it was made.
    pub fn is_closed<R: Wait>(&self, rt: &R) -> Result<bool, Refusal>
        ensures lost { IsLost self.now → result ≡ Err Refusal.Memory }
        ensures refused { FailsWithMemory result }
    {
        Ok(self.cell()?.is_closed(rt))
    }

    /// Returns whether the cell holds a value. A closed cell holds none. Fails with `Memory` if
    /// this weak pointer could not be counted when it was made.
    pub fn is_set<R: Wait>(&self, rt: &R) -> Result<bool, Refusal>
        ensures lost { IsLost self.now → result ≡ Err Refusal.Memory }
        ensures refused { FailsWithMemory result }
    {
        Ok(self.cell()?.is_set(rt))
    }

    /// Makes an owner. Fails with `Memory` if the count of the cell's `Arc` is full, or if this
    /// weak pointer could not be counted when it was made. These two causes are checked first.
    /// Returns `None` if the cell is closed. Fails with `OwnersFull` at 4,294,967,295 owners.
    pub fn upgrade<R: Wait>(&self, rt: &R) -> Result<Option<Shared<T, N>>, Refusal>
        ensures of_this { IfOk result (λ found. IfSome found (OwnsNamed self.now)) }
        ensures lost { IsLost self.now → result ≡ Err Refusal.Memory }
        ensures refused { FailsToUpgrade result }
    {
        let Some(cell) = &self.cell else {
            return Err(Refusal::Memory);
        };
        match Shared::counted(cell, &Anyone, &mut Nobody, rt) {
            Ok(owner) => Ok(Some(owner)),
            Err(Refusal::Closed) => Ok(None),
            Err(why) => Err(why),
        }
    }
}

/// A clone points to the same cell.
impl<T: Drop, N: Protocol<T, TaskWaker>> Clone for Weak<T, N> {
    ghost is_clone = { λ weak copy. NameTheSame weak copy };

    fn clone(&self) -> Result<Weak<T, N>, AllocError> {
        let cell = self.cell.clone()?;
        Ok(Weak { cell })
    }
}

/// A weak pointer to a cell, with the right to wait for its lock. It is no owner: it keeps the
/// cell's memory alive, not its value. `Owner::downgrade` makes one. Its drop takes no lock.
#[derive(Drop)]
#[derive_where(Debug)]
pub struct WeakOwner<T, R, N: Protocol<T, TaskWaker> = Unruled> {
    #[derive_where(skip)]
    pub(crate) weak: Weak<T, N>,
    #[derive_where(skip)]
    pub(crate) rt: R,
}

impl<T: Drop, R: Wait + Copy, N: Protocol<T, TaskWaker>> WeakOwner<T, R, N> {
    /// As `Weak::upgrade`, but makes an `Owner`, which has the right to wait.
    ///
    /// ```rust
    /// let slot = Owner::new_with(rt.alloc(), 7, rt)?;
    /// let weak = slot.downgrade();
    /// println!(rt; "{}", weak.upgrade()?.is_some())?; // prints true
    /// drop(slot);
    /// println!(rt; "{}", weak.upgrade()?.is_some())?; // prints false
    /// println!(rt; "{}", weak.is_closed()?)?; // prints true
    /// ```
    pub fn upgrade(&self) -> Result<Option<Owner<T, R, N>>, Refusal>
        ensures of_this { IfOk result (λ found. IfSome found (λ owner.
            Names self.now.weak (cell_owned owner))) }
        ensures lost { IsLost self.now.weak → result ≡ Err Refusal.Memory }
        ensures refused { FailsToUpgrade result }
    {
        match self.weak.upgrade(&self.rt)? {
            Some(owner) => Ok(Some(owner.with(self.rt))),
            None => Ok(None),
        }
    }

    /// As `Weak::is_closed`.
    pub fn is_closed(&self) -> Result<bool, Refusal>
        ensures lost { IsLost self.now.weak → result ≡ Err Refusal.Memory }
        ensures refused { FailsWithMemory result }
    {
        self.weak.is_closed(&self.rt)
    }

    /// As `Weak::is_set`.
    pub fn is_set(&self) -> Result<bool, Refusal>
        ensures lost { IsLost self.now.weak → result ≡ Err Refusal.Memory }
        ensures refused { FailsWithMemory result }
    {
        self.weak.is_set(&self.rt)
    }

    /// As `Owner::take_weak`. The future also fails with `Memory` if this weak owner could not be
    /// counted when it was made.
    pub fn take(&self) -> With<TakeWeak<T, N>, R>
        ensures of_this { NameAtMostTheSame self.now.weak result.polled.0 }
    {
        TakeWeak(self.weak.again()).with(self.rt)
    }

    /// As `take`, but the future clones the value.
    pub fn get(&self) -> With<GetWeak<T, N>, R>
    where
        T: Clone,
        ensures of_this { NameAtMostTheSame self.now.weak result.polled.0 }
    {
        GetWeak(self.weak.again()).with(self.rt)
    }
}

/// A clone points to the same cell.
impl<T: Drop, R: Copy, N: Protocol<T, TaskWaker>> Clone for WeakOwner<T, R, N> {
    ghost is_clone = { λ weak copy. NameTheSame weak.weak copy.weak };

    fn clone(&self) -> Result<WeakOwner<T, R, N>, AllocError> {
        let weak = self.weak.clone()?;
        Ok(WeakOwner { weak, rt: self.rt })
    }
}
