ghost use Rattle.std.specs.Prelude.{◌≡◌, None, IfOk, IfErr, IfSome, Some};
ghost use Rattle.std.specs.Rc.{rc_value};
ghost use Rattle.async_cell_model.specs.Refusal.{FailsWithMemory, IsOwnerRefusal};
ghost use Rattle.async_cell_unsync.specs.Names.{cell_of, NamesAtMost};

use crate::{AsyncCell, Get, GetWeak, GuardedCell, Owner, Take, TakeWeak, Weak};
use async_cell_core::{Refusal, TaskWaker};
use async_cell_history::{Anyone, Free, Nobody, OwnerPermit, Unruled};
use async_cell_step::OneThread;
use std::alloc::{AllocFailed, Global};
use std::rc::Rc;

/// One counted owner of a cell. Dropping it ends the owner. The end of the last owner closes the
/// cell: the value is dropped, all waiters are woken, and weak futures are ready with `None`.
#[derive_where(Debug)]
pub struct Shared<T, N: Free<T, TaskWaker> = Unruled> {
    #[derive_where(skip)]
    pub(crate) cell: Rc<AsyncCell<T, N>>,
    #[derive_where(skip)]
    permit: OwnerPermit<T, TaskWaker, N>,
}

impl<T: Drop> Shared<T> {
    /// Makes a cell without a value, and its first owner. Fails with `Memory` if there is no memory
    /// for the cell.
    pub fn shared(alloc: Global) -> Result<Self, Refusal>
        ensures refused { FailsWithMemory result }
    {
        AsyncCell::new(alloc).into_shared_or_drop()
    }
}

impl<T: Drop, N: Free<T, TaskWaker>> Shared<T, N> {
    /// Makes the first owner of this cell. If there is no memory, fails with `Memory` and returns
    /// the cell in the error. To use `?`, call `AsyncCell::into_shared_or_drop` instead.
    pub fn into_shared(cell: AsyncCell<T, N>) -> Result<Self, (Refusal, AsyncCell<T, N>)>
        requires nameless { N.named ≡ None }
        ensures owns { IfOk result (λ owner. cell_of owner ≡ cell) }
        ensures comes_back { IfErr result (λ back. back ≡ (Refusal.Memory, cell)) }
    {
        match Rc::new(cell.alloc, cell) {
            Ok(cell) => Ok(Shared {
                cell,
                permit: OwnerPermit::blind(),
            }),
            Err(AllocFailed { value: cell }) => Err((Refusal::Memory, cell)),
        }
    }

    /// Returns the cell, to make calls on it.
    pub fn cell(&self) -> &AsyncCell<T, N>
        ensures held { result.now ≡ cell_of self.now }
    {
        self.cell.as_ref()
    }

    /// Turns this owner into an `Owner`, on which the cell's calls can be made.
    pub fn with(self) -> Owner<T, N>
        ensures keeps { result.shared ≡ self }
    {
        Owner { shared: self }
    }

    /// As `Owner::another`.
    pub fn another(&self) -> Result<Self, Refusal>
        ensures of_this { IfOk result (λ owner. cell_of owner ≡ cell_of self.now) }
        ensures refused { IfErr result IsOwnerRefusal }
    {
        Shared::owning(&self.cell)
    }

    /// Returns a `Take` that is a new owner. Fails as `another` does.
    pub fn take_shared(&self) -> Result<Take<Self>, Refusal>
        ensures of_this { IfOk result (λ polled. cell_of polled.0 ≡ cell_of self.now) }
        ensures refused { IfErr result IsOwnerRefusal }
    {
        Ok(Take(self.another()?))
    }

    /// Returns a `Get` that is a new owner. Fails as `another` does.
    pub fn get_shared(&self) -> Result<Get<Self>, Refusal>
    where
        T: Clone,
        ensures of_this { IfOk result (λ polled. cell_of polled.0 ≡ cell_of self.now) }
        ensures refused { IfErr result IsOwnerRefusal }
    {
        Ok(Get(self.another()?))
    }

    /// As `Owner::guard_shared`.
    pub fn guard_shared(&self, cancel: T) -> Result<GuardedCell<T, Self>, (Refusal, T)>
        requires rule { N.holds cancel }
        ensures of_this { IfOk result (λ guard. cell_of guard.pointer ≡ cell_of self.now) }
        ensures keeps { IfOk result (λ guard. guard.cancel ≡ Some cancel) }
        ensures refused { IfErr result (λ back. IsOwnerRefusal back.0) }
        ensures comes_back { IfErr result (λ back. back.1 ≡ cancel) }
    {
        match self.another() {
            Ok(owner) => Ok(GuardedCell::new(owner, cancel)),
            Err(why) => Err((why, cancel)),
        }
    }

    /// As `Owner::guard_shared_or_drop`.
    pub fn guard_shared_or_drop(&self, cancel: T) -> Result<GuardedCell<T, Self>, Refusal>
        requires rule { N.holds cancel }
        ensures of_this { IfOk result (λ guard. cell_of guard.pointer ≡ cell_of self.now) }
        ensures keeps { IfOk result (λ guard. guard.cancel ≡ Some cancel) }
        ensures refused { IfErr result IsOwnerRefusal }
    {
        match self.guard_shared(cancel) {
            Ok(guard) => Ok(guard),
            Err((why, _)) => Err(why),
        }
    }

    /// Returns a weak pointer to the cell. If the pointer cannot be counted, because the count of
    /// the cell's `Rc` is full, its `upgrade`, `is_closed` and `is_set` fail with `Memory`.
    pub fn downgrade(&self) -> Weak<T, N>
        ensures of_this { NamesAtMost result (cell_of self.now) }
    {
        Weak::of(&self.cell)
    }

    /// Returns a future that takes the value and is not an owner.
    pub fn take_weak(&self) -> TakeWeak<T, N>
        ensures of_this { NamesAtMost result.0 (cell_of self.now) }
    {
        TakeWeak(Weak::of(&self.cell))
    }

    /// As `take_weak`, but the future clones the value.
    pub fn get_weak(&self) -> GetWeak<T, N>
    where
        T: Clone,
        ensures of_this { NamesAtMost result.0 (cell_of self.now) }
    {
        GetWeak(Weak::of(&self.cell))
    }

    /// As `Owner::try_into_inner`.
    pub fn try_into_inner(self) -> Result<Option<T>, Self>
        ensures rule { IfOk result (λ content. IfSome content N.holds) }
        ensures comes_back { IfErr result (λ back. back ≡ self) }
    {
        let Shared { cell, permit } = self;
        match cell.core.take_counted(permit, &mut Nobody, &OneThread) {
            Ok(content) => Ok(content),
            Err((Refusal::StillShared, permit)) => Err(Shared { cell, permit }),
            Err((_, permit)) => {
                drop(Shared { cell, permit }); // It is closed.
                Ok(None)
            }
        }
    }

    /// Makes a new owner. Fails with `Memory` if the count of the cell's `Rc` is full (checked
    /// first), with `Closed` if the cell is closed, and with `OwnersFull` if the cell has
    /// 4,294,967,295 owners.
    pub(crate) fn owning(cell: &Rc<AsyncCell<T, N>>) -> Result<Self, Refusal>
        ensures of_this { IfOk result (λ owner. cell_of owner ≡ rc_value cell.now) }
        ensures refused { IfErr result IsOwnerRefusal }
    {
        let cell = cell.clone()?;
        let permit = cell.core.add_counted(&Anyone, &mut Nobody, &OneThread)?;
        Ok(Shared { cell, permit })
    }
}

impl Shared<()> {
    /// Returns a `Take` that waits for `notify` and is a new owner. Fails as `another` does.
    pub fn wait_shared(&self) -> Result<Take<Self>, Refusal>
        ensures of_this { IfOk result (λ polled. cell_of polled.0 ≡ cell_of self.now) }
        ensures refused { IfErr result IsOwnerRefusal }
    {
        self.take_shared()
    }
}

/// Dropping it ends the owner.
impl<T: Drop, N: Free<T, TaskWaker>> Drop for Shared<T, N> {
    fn drop(self) {
        let Shared { mut cell, permit } = self;
        match Rc::get_mut(&mut cell) {
            Some(last) => last.core.rest(permit), // The only pointer is the end of the cell.
            None => {
                let _ = cell.core.end_counted(permit, &OneThread);
            }
        }
    }
}
