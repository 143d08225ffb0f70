ghost use Rattle.std.specs.Prelude.{◌≡◌, None, IfOk, IfErr, IfSome, OnOk};
ghost use Rattle.std.specs.Arc.{arc_value};
ghost use Rattle.async_cell_model.specs.Refusal.{FailsWithMemory, IsOwnerRefusal};
ghost use Rattle.async_cell_sync.specs.Names.{cell_of, NamesAtMost};

use crate::async_cell::AsyncCell;
use crate::guard::GuardedCell;
use crate::owner::Owner;
use crate::take::{Get, GetWeak, Take, TakeWeak};
use crate::weak::Weak;
use async_cell_core::{Refusal, TaskWaker};
use async_cell_history::{Anyone, Caller, Nobody, OwnerPermit, Protocol, Sees, Unruled};
use async_cell_model::{Kept, Reply};
use std::alloc::{AllocFailed, Global};
use std::sync::{Arc, Wait};

/// One counted owner of a cell. The end of the last owner closes the cell (see `Owner`). A `Shared`
/// must be consumed, by `end`, `leave` or `try_into_inner`, or by `with`, which turns it into an
/// `Owner`.
#[derive_where(Debug)]
pub struct Shared<T, N: Protocol<T, TaskWaker> = Unruled> {
    #[derive_where(skip)]
    pub(crate) cell: Arc<AsyncCell<T, N>>,
    #[derive_where(skip)]
    pub(crate) permit: OwnerPermit<T, TaskWaker, N>,
}

impl<T: Drop> Shared<T> {
    /// Makes a cell without a value, and its first owner. Fails with `Memory` if there is no memory
    /// for the cell.
    pub fn shared(alloc: Global) -> Result<Self, Refusal>
        ensures refused { FailsWithMemory result }
    {
        AsyncCell::new(alloc).into_shared_or_drop()
    }
}

impl<T: Drop, N: Protocol<T, TaskWaker>> Shared<T, N> {
    /// Makes the first owner of this cell. If there is no memory, fails with `Memory` and returns
    /// the cell in the error. To use `?`, call `AsyncCell::into_shared_or_drop` instead. To make a
    /// cell with a witness, call `Owner::witnessed`.
    pub fn into_shared(cell: AsyncCell<T, N>) -> Result<Self, (Refusal, AsyncCell<T, N>)>
        requires nameless { N.named ≡ None }
        ensures owns { IfOk result (λ owner. cell_of owner ≡ cell) }
        ensures comes_back { IfErr result (λ back. back ≡ (Refusal.Memory, cell)) }
    {
        match Arc::new(cell.alloc, cell) {
            Ok(cell) => Ok(Shared {
                cell,
                permit: OwnerPermit::blind(),
            }),
            Err(AllocFailed { value: cell }) => Err((Refusal::Memory, cell)),
        }
    }

    /// Returns the cell, so that you can call its methods.
    pub fn cell(&self) -> &AsyncCell<T, N>
        ensures held { result.now ≡ cell_of self.now }
    {
        self.cell.as_ref()
    }

    /// Makes an `Owner` from this owner and `rt`, the right to wait for the lock. The `Owner` ends
    /// when it is dropped.
    pub fn with<R: Wait + Drop>(self, rt: R) -> Owner<T, R, N>
        ensures keeps { result.shared ≡ self }
    {
        Owner { shared: self, rt }
    }

    /// As `Owner::another`.
    #[inline(always)]
    pub fn another<R: Wait>(&self, rt: &R) -> Result<Self, Refusal>
        ensures of_this { IfOk result (λ owner. cell_of owner ≡ cell_of self.now) }
        ensures refused { IfErr result IsOwnerRefusal }
    {
        Shared::counted(&self.cell, &Anyone, &mut Nobody, rt)
    }

    /// Returns a `Take` that is a new owner. Fails as `another` does.
    pub fn take_shared<R: Wait>(&self, rt: &R) -> Result<Take<Self>, Refusal>
        ensures of_this { IfOk result (λ polled. cell_of polled.0 ≡ cell_of self.now) }
        ensures refused { IfErr result IsOwnerRefusal }
    {
        Ok(Take(self.another(rt)?))
    }

    /// Returns a `Get` that is a new owner. Fails as `another` does.
    pub fn get_shared<R: Wait>(&self, rt: &R) -> Result<Get<Self>, Refusal>
    where
        T: Clone,
        ensures of_this { IfOk result (λ polled. cell_of polled.0 ≡ cell_of self.now) }
        ensures refused { IfErr result IsOwnerRefusal }
    {
        Ok(Get(self.another(rt)?))
    }

    /// As `Owner::guard_shared`, but returns a `GuardedCell`, which must be consumed.
    #[inline(always)]
    pub fn guard_shared<R: Wait>(
        &self,
        cancel: T,
        rt: &R,
    ) -> Result<GuardedCell<T, Self>, (Refusal, T)>
        requires may { N.may (Kept.OrSet cancel) }
        ensures of_this { IfOk result (λ guard. cell_of guard.pointer ≡ cell_of self.now) }
        ensures keeps { IfOk result (λ guard. guard.cancel ≡ cancel) }
        ensures refused { IfErr result (λ back. IsOwnerRefusal back.0) }
        ensures comes_back { IfErr result (λ back. back.1 ≡ cancel) }
    {
        match self.another(rt) {
            Ok(owner) => Ok(GuardedCell::new(owner, cancel)),
            Err(why) => Err((why, cancel)),
        }
    }

    /// As `guard_shared`, but drops `cancel` if it fails, so that `?` can be used on the result.
    pub fn guard_shared_or_drop<R: Wait>(
        &self,
        cancel: T,
        rt: &R,
    ) -> Result<GuardedCell<T, Self>, Refusal>
        requires may { N.may (Kept.OrSet cancel) }
        ensures of_this { IfOk result (λ guard. cell_of guard.pointer ≡ cell_of self.now) }
        ensures keeps { IfOk result (λ guard. guard.cancel ≡ cancel) }
        ensures refused { IfErr result IsOwnerRefusal }
    {
        match self.guard_shared(cancel, rt) {
            Ok(guard) => Ok(guard),
            Err((why, _)) => Err(why),
        }
    }

    /// As `Owner::downgrade`, but returns a `Weak`, whose calls take `rt`.
    pub fn downgrade(&self) -> Weak<T, N>
        ensures of_this { NamesAtMost result (cell_of self.now) }
    {
        let cell = Arc::try_clone(&self.cell).ok();
        Weak { cell }
    }

    /// Returns a request, whose `with(rt)` is the future of `Owner::take_weak`.
    pub fn take_weak(&self) -> TakeWeak<T, N>
        ensures of_this { NamesAtMost result.0 (cell_of self.now) }
    {
        TakeWeak(self.downgrade())
    }

    /// Returns a request, whose `with(rt)` is the future of `Owner::get_weak`.
    pub fn get_weak(&self) -> GetWeak<T, N>
    where
        T: Clone,
        ensures of_this { NamesAtMost result.0 (cell_of self.now) }
    {
        GetWeak(self.downgrade())
    }

    /// As `Owner::try_into_inner`.
    pub fn try_into_inner<R: Wait>(self, rt: &R) -> Result<Option<T>, Self>
        requires may { N.may Kept.TakeInner }
        ensures rule { IfOk result (λ content. IfSome content N.holds) }
        ensures comes_back { IfErr result (λ back. back ≡ self) }
    {
        let Shared { cell, permit } = self;
        match cell.core.take_counted(permit, &mut Nobody, rt) {
            Ok(content) => Ok(content),
            Err((Refusal::StillShared, permit)) => Err(Shared { cell, permit }),
            Err((_, permit)) => {
                Shared { cell, permit }.end(rt); // It is closed.
                Ok(None)
            }
        }
    }

    /// Ends the owner.
    #[inline(always)]
    pub fn end<R: Wait>(self, rt: &R) {
        let Shared { cell, permit } = self;
        let _ = cell.core.end_counted(permit, rt);
    }

    /// Makes a new owner of the cell that `cell` points to, and shows the call to `seen`. Fails
    /// with `OwnersFull` if there are 4,294,967,295 owners, and with `Closed` if the cell is
    /// closed, which cannot be if the caller `by` is an owner. Fails with `Memory`, and shows
    /// nothing, if the count of the cell's `Arc` is full.
    #[inline(always)]
    pub(crate) fn counted<K: Caller<T, TaskWaker, N>, S: Sees<T, TaskWaker, N>, R: Wait>(
        cell: &Arc<AsyncCell<T, N>>,
        by: &K,
        seen: &mut S,
        rt: &R,
    ) -> Result<Self, Refusal>
        ensures sees { OnOk result (S.sees seen.old Kept.AddOwner Reply.Done seen.new) }
        ensures sees_refusal { IfErr result (λ why. ¬ (why ≡ Refusal.Memory)
            → S.sees seen.old Kept.AddOwner (Reply.Refused why None) seen.new) }
        ensures unseen { IfErr result (λ why. why ≡ Refusal.Memory → seen.new ≡ seen.old) }
        ensures of_this { IfOk result (λ owner. cell_of owner ≡ arc_value cell.now) }
        ensures open { K.owns → IfErr result (λ why. ¬ (why ≡ Refusal.Closed)) }
        ensures refused { IfErr result IsOwnerRefusal }
    {
        let Ok(cell) = Arc::try_clone(cell) else {
            return Err(Refusal::Memory);
        };
        match cell.core.add_counted(by, seen, rt) {
            Ok(permit) => Ok(Shared { cell, permit }),
            Err(why) => Err(why),
        }
    }
}

impl Shared<()> {
    /// Returns a `Take` that waits for `notify` and is a new owner. Fails as `another` does.
    pub fn wait_shared<R: Wait>(&self, rt: &R) -> Result<Take<Self>, Refusal>
        ensures of_this { IfOk result (λ polled. cell_of polled.0 ≡ cell_of self.now) }
        ensures refused { IfErr result IsOwnerRefusal }
    {
        self.take_shared(rt)
    }
}
