ghost use Rattle.std.specs.Prelude.{◌≡◌, [], true, Some, None, IfOk, IfErr, IfSome, OnOk};
ghost use Rattle.async_cell_model.specs.Machine.{content, is_closed};
ghost use Rattle.async_cell_model.specs.History.{cell_after};
ghost use Rattle.async_cell_model.specs.Refusal.{FailsWithMemory, IsOwnerRefusal};
ghost use Rattle.async_cell_history.specs.History.{IsLinearized, IsSigned, inner_reply, start_of};
ghost use Rattle.async_cell_sync.specs.Names.{NamesAtMost};
ghost use Rattle.async_cell_sync.specs.Owned.{cell_owned};
ghost use Rattle.async_cell_sync.specs.Source.{source_of};

use crate::async_cell::{AsyncCell, LockedCore};
use crate::cell_ref::{CellRef, TakeRef};
use crate::guard::{Guard, GuardedCell};
use crate::shared::Shared;
use crate::take::{Get, GetWeak, Take, TakeWeak};
use crate::weak::WeakOwner;
use async_cell_core::{Refusal, TaskWaker, Wakes};
use async_cell_history::{Blank, Protocol, Takeable, Unruled, Witness};
use async_cell_model::Kept;
use async_cell_step::{Rule, Ruled, With};
use futures::task::Source;
use std::alloc::{AllocFailed, Global};
use std::sync::{Arc, Wait};

/// One counted owner of a cell, with the right to wait for the lock. An `Owner` ends when it is
/// dropped. The drop may happen in any thread, also at `?` or an early `return`. The calls and
/// futures of an `Owner` take no `rt`. The end of the last owner closes the cell: the value is
/// dropped, waiters are woken, and weak futures give `None`.
///
/// **Dropping an `Owner` may wait for the lock**, as its calls may. A `Shared`, in contrast, is not
/// ended by a drop but by a call.
///
/// `N` says what is known of the values (see `Rule`), and which history a witness sees. `Unruled`,
/// the default, has neither a rule nor a witness.
#[derive_where(Debug)]
pub struct Owner<T: Drop, R: Wait + Drop, N: Protocol<T, TaskWaker> = Unruled> {
    #[derive_where(skip)]
    pub(crate) shared: Shared<T, N>,
    #[derive_where(skip)]
    pub(crate) rt: R,
}

impl<T: Drop, R: Wait + Copy> Owner<T, R> {
    /// Makes a cell without a value, and its first owner. Fails with `Memory` if there is no memory
    /// for the cell.
    ///
    /// ```rust
    /// let slot = Owner::new(rt.alloc(), rt)?;
    /// let another = slot.another()?;
    /// thread::spawn(&rt, move || another.set(7))?.join(&rt);
    /// println!(rt; "{:?}", slot.try_take())?; // prints Some(7)
    /// ```
    pub fn new(alloc: Global, rt: R) -> Result<Self, Refusal>
        ensures refused { FailsWithMemory result }
    {
        Owner::first(AsyncCell::new(alloc), rt)
    }

    /// Makes a cell that holds a value, and its first owner. If there is no memory, fails with
    /// `Memory` and drops the value. To keep the value in this case, call `AsyncCell::new_with`,
    /// and then `AsyncCell::into_owner`, which returns the cell if it fails.
    pub fn new_with(alloc: Global, value: T, rt: R) -> Result<Self, Refusal>
        ensures refused { FailsWithMemory result }
    {
        Owner::first(AsyncCell::new_with(alloc, value), rt)
    }
}

impl<T: Drop, R: Wait + Copy, P: Rule<T>> Owner<T, R, Ruled<P>> {
    /// Makes a cell without a value, and its first owner. The values of the cell satisfy the rule
    /// `P`. Fails with `Memory` if there is no memory. For example, if the rule is `Even`, write
    /// `Owner::<u64, _, Ruled<Even>>::ruled(rt.alloc(), rt)?`.
    pub fn ruled(alloc: Global, rt: R) -> Result<Self, Refusal>
        ensures refused { FailsWithMemory result }
    {
        Owner::first(AsyncCell::ruled(alloc), rt)
    }

    /// As `ruled`, but the cell holds a value. If it fails, it drops the value.
    pub fn ruled_with(alloc: Global, value: T, rt: R) -> Result<Self, Refusal>
        requires rule { P.holds value }
        ensures refused { FailsWithMemory result }
    {
        Owner::first(AsyncCell::ruled_with(alloc, value), rt)
    }
}

impl<T: Drop, R: Wait + Copy, N: Protocol<T, TaskWaker>> Owner<T, R, N> {
    /// Makes the first owner of this cell. If there is no memory, drops the cell.
    #[inline(always)]
    fn first(cell: AsyncCell<T, N>, rt: R) -> Result<Self, Refusal>
        requires nameless { N.named ≡ None }
        ensures refused { FailsWithMemory result }
    {
        Ok(cell.into_shared_or_drop()?.with(rt))
    }

    /// Makes the cell of this blank, the first owner of the cell, and the first witness of the
    /// cell's history. The blank is a cell that is not made yet (see `Blank`), and `N` is the name
    /// of its history (see `Protocol`). Fails with `Memory` if there is no memory for the cell, and
    /// then drops the blank's content. Call `witnessed` in a function generic over `N`, and call
    /// that function with `std::marker::Brand` for `N`. The caller's `Invariants.antt` defines the
    /// name, the changes that may be made, and the rule.
    pub fn witnessed(
        alloc: Global,
        blank: Blank<T, TaskWaker>,
        rt: R,
    ) -> Result<(Self, Witness<T, TaskWaker, N>), Refusal>
        requires named { N.named ≡ Some blank }
        requires rule { IfSome (content blank.start.cell) N.holds }
        ensures new { IfOk result (λ made. made.1.calls ≡ []) }
        ensures nobody { IfOk result (λ made. made.1.author ≡ 0) }
        ensures none_made { IfOk result (λ made. made.1.own ≡ 0) }
        ensures refused { FailsWithMemory result }
    {
        let (core, seen, permit) = LockedCore::<T, TaskWaker, N>::of_blank(blank);
        let cell = AsyncCell {
            core,
            source: Source::new(),
            alloc,
        };
        match Arc::new(alloc, cell) {
            Ok(cell) => Ok((Shared { cell, permit }.with(rt), seen)),
            Err(AllocFailed { value: mut cell }) => {
                cell.core.rest(permit);
                Err(Refusal::Memory)
            }
        }
    }

    /// Adds an owner. Use this in place of `clone`. Fails with `Memory` if the count of the cell's
    /// `Arc` is full, and with `OwnersFull` if the cell has 4,294,967,295 owners already. `Closed`
    /// is in the contract, but cannot happen while this owner lives.
    pub fn another(&self) -> Result<Self, Refusal>
        ensures of_this { IfOk result (λ owner. cell_owned owner ≡ cell_owned self.now) }
        ensures refused { IfErr result IsOwnerRefusal }
    {
        Ok(self.shared.another(&self.rt)?.with(self.rt))
    }

    /// Returns a weak owner. If the count of the cell's `Arc` is full, its `upgrade`, `is_closed`
    /// and `is_set` fail with `Memory`, and so do polls of its futures.
    pub fn downgrade(&self) -> WeakOwner<T, R, N>
        ensures of_this { NamesAtMost result.weak (cell_owned self.now) }
    {
        self.shared.downgrade().with(self.rt)
    }

    /// If this is the only owner, closes the cell, wakes all waiters and returns the content of the
    /// cell. Otherwise this owner is returned in the error.
    pub fn try_into_inner(self) -> Result<Option<T>, Self>
        requires may { N.may Kept.TakeInner }
        ensures rule { IfOk result (λ content. IfSome content N.holds) }
        ensures comes_back { IfErr result (λ back. back ≡ self) }
    {
        let Owner { shared, rt } = self;
        match shared.try_into_inner(&rt) {
            Ok(inner) => Ok(inner),
            Err(shared) => Err(Owner { shared, rt }),
        }
    }

    /// As `try_into_inner`, but extends the witness. After an `Ok` the witness has seen the close,
    /// so it has seen every change that was ever made to the cell: all later calls find the cell
    /// closed.
    pub fn try_into_inner_as(self, seen: &mut Witness<T, TaskWaker, N>) -> Result<Option<T>, Self>
        requires may { N.may Kept.TakeInner }
        ensures linearized { IsLinearized ⟦<TaskWaker as Wakes>⟧ N.named seen.old.calls
            Kept.TakeInner (inner_reply result) seen.new.calls }
        ensures signed { IsSigned seen.old seen.new }
        ensures closed { OnOk result
            (is_closed (cell_after (start_of N.named).cell seen.new.calls) ≡ true) }
        ensures rule { IfOk result (λ content. IfSome content N.holds) }
        ensures comes_back { IfErr result (λ back. back ≡ self) }
    {
        seen.lawful();
        let Owner { shared, rt } = self;
        let Shared { cell, permit } = shared;
        match cell.core.take_counted(permit, seen, &rt) {
            Ok(content) => Ok(content),
            Err((_, permit)) => {
                let shared = Shared { cell, permit };
                Err(Owner { shared, rt })
            }
        }
    }

    /// Returns a future that takes the value (`try_take` takes it at once). The future borrows this
    /// owner, so the cell stays open, and the future waits forever if nobody sets a value.
    ///
    /// ```rust
    /// let slot = Owner::new_with(rt.alloc(), 7, rt)?;
    /// println!(rt; "{}", block_on(&rt, slot.take())??)?; // prints 7
    /// println!(rt; "{}", slot.is_set())?; // prints false
    /// ```
    pub fn take(&self) -> With<Take<&AsyncCell<T, N>>, R>
        ensures of_this { result.polled.0.now ≡ cell_owned self.now }
    {
        Take(self.cell()).with(self.rt)
    }

    /// Returns a future that clones the value and leaves the value in the cell. If the future is
    /// polled again while the cell holds a value, it is ready at once. The future borrows this
    /// owner, so the cell stays open.
    ///
    /// ```rust
    /// let setting = Owner::new_with(rt.alloc(), 7, rt)?;
    /// println!(rt; "{}", block_on(&rt, setting.get())??)?; // prints 7
    /// println!(rt; "{}", setting.is_set())?; // prints true
    /// ```
    pub fn get(&self) -> With<Get<&AsyncCell<T, N>>, R>
    where
        T: Clone,
        ensures of_this { result.polled.0.now ≡ cell_owned self.now }
    {
        Get(self.cell()).with(self.rt)
    }

    /// Returns a future that takes the value and is a new owner. While the future waits, the cell
    /// stays open. So the future waits forever if nobody sets a value. Fails as `another` does.
    ///
    /// ```rust
    /// let slot = Owner::new(rt.alloc(), rt)?;
    /// let reply = slot.take_shared()?;
    /// thread::spawn(&rt, move || slot.set(7))?;
    /// println!(rt; "{}", block_on(&rt, reply)??)?; // prints 7
    /// ```
    pub fn take_shared(&self) -> Result<With<Take<Self>, R>, Refusal>
        ensures of_this { IfOk result (λ future. cell_owned future.polled.0 ≡ cell_owned self.now) }
        ensures refused { IfErr result IsOwnerRefusal }
    {
        Ok(Take(self.another()?).with(self.rt))
    }

    /// As `take_shared`, but the future clones the value.
    pub fn get_shared(&self) -> Result<With<Get<Self>, R>, Refusal>
    where
        T: Clone,
        ensures of_this { IfOk result (λ future. cell_owned future.polled.0 ≡ cell_owned self.now) }
        ensures refused { IfErr result IsOwnerRefusal }
    {
        Ok(Get(self.another()?).with(self.rt))
    }

    /// Returns a future that takes the value and is not an owner. The future gives `None` once the
    /// last owner has ended. A value that was not taken by then is lost. The future fails with
    /// `Memory` if the count of the cell's `Arc` was full when the future was made.
    ///
    /// ```rust
    /// let slot = Owner::new_with(rt.alloc(), 7, rt)?;
    /// println!(rt; "{:?}", block_on(&rt, slot.take_weak())??)?; // prints Some(7)
    /// let late = slot.take_weak();
    /// drop(slot);
    /// println!(rt; "{:?}", block_on(&rt, late)??)?; // prints None
    /// ```
    pub fn take_weak(&self) -> With<TakeWeak<T, N>, R>
        ensures of_this { NamesAtMost result.polled.0 (cell_owned self.now) }
    {
        self.shared.take_weak().with(self.rt)
    }

    /// As `take_weak`, but the future clones the value.
    pub fn get_weak(&self) -> With<GetWeak<T, N>, R>
    where
        T: Clone,
        ensures of_this { NamesAtMost result.polled.0 (cell_owned self.now) }
    {
        self.shared.get_weak().with(self.rt)
    }

    /// Returns a guard that sets the value `cancel` when the guard is dropped, unless the cell then
    /// holds a value.
    pub fn guard(&self, cancel: T) -> Guard<T, &AsyncCell<T, N>, R>
        requires may { N.may (Kept.OrSet cancel) }
        ensures of_this { result.guarded.pointer.now ≡ cell_owned self.now }
        ensures keeps { result.guarded.cancel ≡ cancel }
    {
        self.cell().guard(cancel).with(self.rt)
    }

    /// Makes a guard of this owner. The drop of the guard sets the value `cancel`, if the cell
    /// holds no value, and ends the owner. Whoever waits for the value has to be an owner (see
    /// `Guard`). Needs no memory.
    ///
    /// ```rust
    /// let slot = Owner::new(rt.alloc(), rt)?;
    /// let reply = slot.take_shared()?;
    /// drop(slot.into_guard(42));
    /// println!(rt; "{}", block_on(&rt, reply)??)?; // prints 42
    /// ```
    pub fn into_guard(self, cancel: T) -> Guard<T, Self, R>
        requires may { N.may (Kept.OrSet cancel) }
        ensures of_this { result.guarded.pointer ≡ self }
        ensures keeps { result.guarded.cancel ≡ cancel }
    {
        let rt = self.rt;
        GuardedCell::new(self, cancel).with(rt)
    }

    /// Returns a guard that is a new owner. Fails as `another` does, and then returns `cancel` in
    /// the error.
    #[inline(always)]
    pub fn guard_shared(&self, cancel: T) -> Result<Guard<T, Self, R>, (Refusal, T)>
        requires may { N.may (Kept.OrSet cancel) }
        ensures of_this { IfOk result (λ guard.
            cell_owned guard.guarded.pointer ≡ cell_owned self.now) }
        ensures keeps { IfOk result (λ guard. guard.guarded.cancel ≡ cancel) }
        ensures refused { IfErr result (λ back. IsOwnerRefusal back.0) }
        ensures comes_back { IfErr result (λ back. back.1 ≡ cancel) }
    {
        match self.another() {
            Ok(owner) => Ok(GuardedCell::new(owner, cancel).with(self.rt)),
            Err(why) => Err((why, cancel)),
        }
    }

    /// As `guard_shared`, but drops `cancel` if the call fails, so that `?` can be used on the
    /// result.
    ///
    /// ```rust
    /// let slot = Owner::new(rt.alloc(), rt)?;
    /// let guard = slot.guard_shared_or_drop(0)?;
    /// drop(guard); // Its worker gave up. Else it is `guard.set(7)`.
    /// println!(rt; "{:?}", slot.try_take())?; // prints Some(0)
    /// ```
    pub fn guard_shared_or_drop(&self, cancel: T) -> Result<Guard<T, Self, R>, Refusal>
        requires may { N.may (Kept.OrSet cancel) }
        ensures of_this { IfOk result (λ guard.
            cell_owned guard.guarded.pointer ≡ cell_owned self.now) }
        ensures keeps { IfOk result (λ guard. guard.guarded.cancel ≡ cancel) }
        ensures refused { IfErr result IsOwnerRefusal }
    {
        match self.guard_shared(cancel) {
            Ok(guard) => Ok(guard),
            Err((why, _)) => Err(why),
        }
    }
}

impl<R: Wait + Copy> Owner<(), R> {
    /// Returns a future that waits for `notify`. The future takes the value, so each `notify` ends
    /// at most one `wait`. If several tasks wait, use `get`.
    pub fn wait(&self) -> With<Take<&AsyncCell<()>>, R>
        ensures of_this { result.polled.0.now ≡ cell_owned self.now }
    {
        self.take()
    }

    /// Returns a future that waits for `notify` and is a new owner. Fails as `another` does.
    pub fn wait_shared(&self) -> Result<With<Take<Self>, R>, Refusal>
        ensures of_this { IfOk result (λ future. cell_owned future.polled.0 ≡ cell_owned self.now) }
        ensures refused { IfErr result IsOwnerRefusal }
    {
        self.take_shared()
    }
}

/// Ends the owner. May wait for the lock. If no other pointer to the cell is left, takes no lock.
impl<T: Drop, R: Wait + Drop, N: Protocol<T, TaskWaker>> Drop for Owner<T, R, N> {
    fn drop(self) {
        let Owner {
            rt,
            shared: Shared { mut cell, permit },
        } = self;
        match Arc::get_mut(&mut cell) {
            Some(last) => last.core.rest(permit),
            None => Shared { cell, permit }.end(&rt),
        }
    }
}

impl<T: Drop, R: Wait + Drop, N: Protocol<T, TaskWaker>> CellRef for Owner<T, R, N> {
    type Value = T;

    type Rules = N;

    ghost waits_for = { λ p s. s ≡ source_of (cell_owned p) };

    fn cell(&self) -> &AsyncCell<T, N> {
        Owner::cell(self)
    }

    fn leave<S: Wait>(self, _: &S) {}
}

impl<T: Drop, R: Wait + Drop, N: Takeable<T, TaskWaker>> TakeRef for Owner<T, R, N> {
    ghost takes = { N.takes };
}
