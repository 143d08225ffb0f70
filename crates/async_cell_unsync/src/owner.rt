ghost use Rattle.std.specs.Prelude.{◌≡◌, None, IfOk, IfErr, IfSome, Some};
ghost use Rattle.async_cell_model.specs.Refusal.{FailsWithMemory, IsOwnerRefusal};
ghost use Rattle.async_cell_unsync.specs.Names.{NamesAtMost};
ghost use Rattle.async_cell_unsync.specs.Owned.{cell_owned};
ghost use Rattle.async_cell_unsync.specs.Source.{source_of};

use crate::{
    AsyncCell, CellRef, Get, GetWeak, Guard, GuardedCell, Shared, Take, TakeWeak, WeakOwner, With,
};
use async_cell_core::{Refusal, TaskWaker};
use async_cell_history::{Free, Unruled};
use async_cell_step::{Rule, Ruled};
use std::alloc::Global;
use std::ops::Deref;

/// One counted owner of a cell. The owner derefs to its cell, so the calls of the cell can be made
/// on the owner. The owner ends when it is dropped, also at `?` or an early `return`. Its futures
/// hold places (see `With`). The end of the last owner closes the cell: the value is dropped,
/// waiters are woken, and weak futures give `None`.
///
/// A `Shared` is an owner, too, but does not deref: its cell's calls are made on its `cell()`. The
/// futures of a `Shared` hold no place until you call their `with`.
#[derive(Drop)]
#[derive_where(Debug)]
pub struct Owner<T: Drop, N: Free<T, TaskWaker> = Unruled> {
    #[derive_where(skip)]
    pub(crate) shared: Shared<T, N>,
}

impl<T: Drop, N: Free<T, TaskWaker>> AsyncCell<T, N> {
    /// Makes the first owner of this cell. If there is no memory, fails with `Memory` and returns
    /// the cell in the error. To use `?`, call `Owner::new_with` instead, or write
    /// `into_shared_or_drop()?.with()`.
    pub fn into_owner(self) -> Result<Owner<T, N>, (Refusal, AsyncCell<T, N>)>
        requires nameless { N.named ≡ None }
        ensures owns { IfOk result (λ owner. cell_owned owner ≡ self) }
        ensures comes_back { IfErr result (λ back. back ≡ (Refusal.Memory, self)) }
    {
        Ok(self.into_shared()?.with())
    }
}

impl<T: Drop> Owner<T> {
    /// Makes a cell without a value, and its first owner. Fails with `Memory` if there is no memory
    /// for the cell. For a cell that you have already, call `AsyncCell::into_owner`.
    ///
    /// ```rust
    /// let slot = Owner::new(rt.alloc())?;
    /// let reply = slot.take_shared()?;
    /// slot.set(7);
    /// println!(rt; "{}", block_on(&rt, reply)??)?; // prints 7
    /// ```
    pub fn new(alloc: Global) -> Result<Self, Refusal>
        ensures refused { FailsWithMemory result }
    {
        Owner::first(AsyncCell::new(alloc))
    }

    /// Makes a cell that holds a value, and its first owner. If there is no memory, fails with
    /// `Memory` and drops the value. To keep the value in this case, call `AsyncCell::new_with`,
    /// and then `AsyncCell::into_owner`, which returns the cell if it fails.
    pub fn new_with(alloc: Global, value: T) -> Result<Self, Refusal>
        ensures refused { FailsWithMemory result }
    {
        Owner::first(AsyncCell::new_with(alloc, value))
    }
}

impl<T: Drop, P: Rule<T>> Owner<T, Ruled<P>> {
    /// Makes a cell without a value, and its first owner. The values of the cell satisfy the rule
    /// `P`. Fails with `Memory` if there is no memory for the cell.
    pub fn ruled(alloc: Global) -> Result<Self, Refusal>
        ensures refused { FailsWithMemory result }
    {
        Owner::first(AsyncCell::ruled(alloc))
    }

    /// As `ruled`, but the cell holds a value. If it fails, it drops the value.
    pub fn ruled_with(alloc: Global, value: T) -> Result<Self, Refusal>
        requires rule { P.holds value }
        ensures refused { FailsWithMemory result }
    {
        Owner::first(AsyncCell::ruled_with(alloc, value))
    }
}

impl<T: Drop, N: Free<T, TaskWaker>> Owner<T, N> {
    /// Makes the first owner of this cell. If there is no memory, drops the cell.
    #[inline(always)]
    fn first(cell: AsyncCell<T, N>) -> Result<Self, Refusal>
        requires nameless { N.named ≡ None }
        ensures refused { FailsWithMemory result }
    {
        cell.into_shared_or_drop().map(Shared::with)
    }

    /// Adds an owner. Use this in place of `clone`. Fails with `Memory` if the count of the cell's
    /// `Rc` is full, and with `OwnersFull` if the cell has 4,294,967,295 owners already. `Closed`
    /// is in the contract, but cannot happen while this owner lives.
    pub fn another(&self) -> Result<Self, Refusal>
        ensures of_this { IfOk result (λ owner. cell_owned owner ≡ cell_owned self.now) }
        ensures refused { IfErr result IsOwnerRefusal }
    {
        Ok(self.shared.another()?.with())
    }

    /// Returns a weak owner. If the count of the cell's `Rc` is full, its `upgrade`, `is_closed`
    /// and `is_set` fail with `Memory`, and so do polls of its futures.
    pub fn downgrade(&self) -> WeakOwner<T, N>
        ensures of_this { NamesAtMost result.weak (cell_owned self.now) }
    {
        self.shared.downgrade().with()
    }

    /// If this is the only owner, closes the cell, wakes all waiters and returns the content of the
    /// cell. Otherwise this owner is returned in the error.
    pub fn try_into_inner(self) -> Result<Option<T>, Self>
        ensures rule { IfOk result (λ content. IfSome content N.holds) }
        ensures comes_back { IfErr result (λ back. back ≡ self) }
    {
        self.shared.try_into_inner().map_err(Shared::with)
    }

    /// Returns the cell, so that you can call its methods.
    pub fn cell(&self) -> &AsyncCell<T, N>
        ensures held { result.now ≡ cell_owned self.now }
    {
        self.shared.cell()
    }

    /// Returns a future that takes the value (`try_take` takes it at once). The future borrows this
    /// owner, so the cell stays open, and the future waits forever if nobody sets a value.
    pub fn take(&self) -> With<Take<&AsyncCell<T, N>>>
        ensures of_this { result.polled.0.now ≡ cell_owned self.now }
    {
        Take(self.cell()).with()
    }

    /// As `take`, but the future clones the value and leaves the value in the cell. If the future
    /// is polled again while the cell holds a value, it is ready at once.
    pub fn get(&self) -> With<Get<&AsyncCell<T, N>>>
    where
        T: Clone,
        ensures of_this { result.polled.0.now ≡ cell_owned self.now }
    {
        Get(self.cell()).with()
    }

    /// Returns a future that takes the value and is a new owner. While the future waits, the cell
    /// stays open. So the future waits forever if nobody sets a value. Fails as `another` does.
    pub fn take_shared(&self) -> Result<With<Take<Self>>, Refusal>
        ensures of_this { IfOk result (λ made. cell_owned made.polled.0 ≡ cell_owned self.now) }
        ensures refused { IfErr result IsOwnerRefusal }
    {
        Ok(Take(self.another()?).with())
    }

    /// As `take_shared`, but the future clones the value and leaves the value in the cell.
    pub fn get_shared(&self) -> Result<With<Get<Self>>, Refusal>
    where
        T: Clone,
        ensures of_this { IfOk result (λ made. cell_owned made.polled.0 ≡ cell_owned self.now) }
        ensures refused { IfErr result IsOwnerRefusal }
    {
        Ok(Get(self.another()?).with())
    }

    /// Returns a future that takes the value and is not an owner. The future gives `None` once the
    /// last owner has ended. A value that was not taken by then is lost. The future fails with
    /// `Memory` if the count of the cell's `Rc` was full when the future was made.
    pub fn take_weak(&self) -> With<TakeWeak<T, N>>
        ensures of_this { NamesAtMost result.polled.0 (cell_owned self.now) }
    {
        self.shared.take_weak().with()
    }

    /// As `take_weak`, but the future clones the value and leaves the value in the cell.
    pub fn get_weak(&self) -> With<GetWeak<T, N>>
    where
        T: Clone,
        ensures of_this { NamesAtMost result.polled.0 (cell_owned self.now) }
    {
        self.shared.get_weak().with()
    }

    /// Makes a guard of this owner. The drop of the guard sets the value `cancel`, if the cell
    /// holds no value, and ends the owner. The end of the last owner drops the value. So whoever
    /// waits for the value has to be an owner, as a future of `take_shared` is. Needs no memory.
    pub fn into_guard(self, cancel: T) -> Guard<T, Self>
        requires rule { N.holds cancel }
        ensures of_this { result.pointer ≡ self }
        ensures keeps { result.cancel ≡ Some cancel }
    {
        GuardedCell::new(self, cancel)
    }

    /// Returns a guard that is a new owner. Fails as `another` does, and then returns `cancel` in
    /// the error.
    pub fn guard_shared(&self, cancel: T) -> Result<Guard<T, Self>, (Refusal, T)>
        requires rule { N.holds cancel }
        ensures of_this { IfOk result (λ guard. cell_owned guard.pointer ≡ cell_owned self.now) }
        ensures keeps { IfOk result (λ guard. guard.cancel ≡ Some cancel) }
        ensures refused { IfErr result (λ back. IsOwnerRefusal back.0) }
        ensures comes_back { IfErr result (λ back. back.1 ≡ cancel) }
    {
        match self.another() {
            Ok(owner) => Ok(GuardedCell::new(owner, cancel)),
            Err(why) => Err((why, cancel)),
        }
    }

    /// As `guard_shared`, but drops `cancel` if the call fails, so that `?` can be used on the
    /// result.
    pub fn guard_shared_or_drop(&self, cancel: T) -> Result<Guard<T, Self>, Refusal>
        requires rule { N.holds cancel }
        ensures of_this { IfOk result (λ guard. cell_owned guard.pointer ≡ cell_owned self.now) }
        ensures keeps { IfOk result (λ guard. guard.cancel ≡ Some cancel) }
        ensures refused { IfErr result IsOwnerRefusal }
    {
        match self.guard_shared(cancel) {
            Ok(guard) => Ok(guard),
            Err((why, _)) => Err(why),
        }
    }
}

impl Owner<()> {
    /// Returns a future that waits for `notify`. The future takes the value, so each `notify` ends
    /// at most one `wait`. If several tasks wait for one `notify`, let all use `get`.
    pub fn wait(&self) -> With<Take<&AsyncCell<()>>>
        ensures of_this { result.polled.0.now ≡ cell_owned self.now }
    {
        self.take()
    }

    /// Returns a future that waits for `notify` and is a new owner. Fails as `another` does.
    pub fn wait_shared(&self) -> Result<With<Take<Self>>, Refusal>
        ensures of_this { IfOk result (λ made. cell_owned made.polled.0 ≡ cell_owned self.now) }
        ensures refused { IfErr result IsOwnerRefusal }
    {
        self.take_shared()
    }
}

impl<T: Drop, N: Free<T, TaskWaker>> Deref for Owner<T, N> {
    type Target = AsyncCell<T, N>;

    ghost deref_gives = { λ owner cell. cell ≡ cell_owned owner };

    #[inline(always)]
    fn deref(&self) -> &AsyncCell<T, N> {
        self.shared.cell()
    }
}

impl<T: Drop, N: Free<T, TaskWaker>> CellRef for Owner<T, N> {
    type Value = T;

    type Rules = N;

    ghost waits_for = { λ p s. s ≡ source_of (cell_owned p) };

    fn cell(&self) -> &AsyncCell<T, N> {
        Owner::cell(self)
    }
}
