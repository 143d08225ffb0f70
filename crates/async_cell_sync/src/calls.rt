//! The calls of a cell, and those of an owner. An owner's calls do what its cell's calls do, but
//! take no `rt`. The owner keeps an `rt`: the right to wait for the lock.
ghost use Rattle.std.specs.Prelude.{◌≡◌, Option, Some, None, IsOk, IfErr, IfOk, IfSome};
ghost use Rattle.std.specs.Fn.{FnOnceReturnsAt};
ghost use Rattle.async_cell_model.specs.Refusal.{FailsWithMemory};
ghost use Rattle.async_cell_step.specs.Rule.{IsCloneOfOne};
ghost use Rattle.async_cell_sync.specs.Owned.{cell_owned};

use crate::async_cell::AsyncCell;
use crate::owner::Owner;
use async_cell_core::{Refusal, TaskWaker};
use async_cell_history::Protocol;
use async_cell_model::Kept;
use std::fmt;
use std::sync::Wait;

impl<T: Drop, N: Protocol<T, TaskWaker>> AsyncCell<T, N> {
    /// Sets the value and drops the old one. Wakes all waiters.
    pub fn set<R: Wait>(&self, value: T, rt: &R)
        requires may { N.may (Kept.Replace value) }
    {
        self.core.put(value, rt);
    }

    /// Sets the value and wakes all waiters, if the cell holds no value. Drops `value` otherwise.
    pub fn or_set<R: Wait>(&self, value: T, rt: &R)
        requires may { N.may (Kept.OrSet value) }
    {
        let _ = self.core.or_set(value, rt);
    }

    /// As `or_set`, but returns an unused `value` in the error, also on a closed cell.
    pub fn try_set<R: Wait>(&self, value: T, rt: &R) -> Result<(), T>
        requires may { N.may (Kept.OrSet value) }
        ensures comes_back { IfErr result (λ back. back ≡ value) }
    {
        self.core.try_set(value, rt)
    }

    /// Sets the value and returns the old one. Wakes all waiters.
    pub fn replace<R: Wait>(&self, value: T, rt: &R) -> Option<T>
        requires may { N.may (Kept.Replace value) }
        ensures rule { IfSome result N.holds }
    {
        self.core.replace(value, rt).unwrap_or(None)
    }

    /// As `Owner::update`.
    pub fn update<F: FnOnce(Option<T>) -> Option<T> + Drop, R: Wait>(&self, change: F, rt: &R)
        requires callable { F.IsAlwaysCallable change }
        requires may { (saw put : Option T) → IfSome saw N.holds → F.post change saw put
            → N.may (Kept.Update saw put) }
        requires may_fail { N.may (Kept.Update None None) }
    {
        let _ = self.core.update(change, rt);
    }

    /// As `Owner::update_some`.
    pub fn update_some<F: FnOnce(T) -> T + Drop, R: Wait>(&self, change: F, rt: &R)
        requires callable { F.IsAlwaysCallable change }
        requires may { (old new : T) → N.holds old → F.post change old new
            → N.may (Kept.UpdateSome (Some old) (Some new)) }
        requires may_fail { N.may (Kept.UpdateSome None None) }
    {
        let _ = self.core.update_some(change, rt);
    }

    /// Takes the value, if there is one. The waiters stay registered.
    pub fn try_take<R: Wait>(&self, rt: &R) -> Option<T>
        requires may { N.may Kept.TryTake }
        ensures rule { IfSome result N.holds }
    {
        self.core.try_take(rt)
    }

    /// Returns a clone of the value, if there is one. Fails with `Memory` if the clone fails.
    pub fn try_get<R: Wait>(&self, rt: &R) -> Result<Option<T>, Refusal>
    where
        T: Clone,
        ensures rule { IfOk result (λ found. IfSome found (IsCloneOfOne T.is_clone N.holds)) }
        ensures if_infallible { ((value : T) → T.is_infallible value) → IsOk result }
        ensures refused { FailsWithMemory result }
    {
        self.core.try_get(rt)
    }

    /// As `Owner::peek`.
    pub fn peek<A, F: FnOnce(&T) -> A + Drop, R: Wait>(&self, look: F, rt: &R) -> Option<A>
        requires { F.IsAlwaysCallable look }
        ensures called { IfSome result (λ answer. (seen : T)
            × N.holds seen × FnOnceReturnsAt F.FnOnce look seen answer) }
    {
        self.core.peek(look, rt)
    }

    /// Returns whether the cell holds a value.
    pub fn is_set<R: Wait>(&self, rt: &R) -> bool {
        self.core.is_set(rt)
    }

    /// Returns whether the cell is closed, as `WeakOwner::is_closed` does.
    #[doc(hidden)]
    pub fn is_closed<R: Wait>(&self, rt: &R) -> bool {
        self.core.is_closed(rt)
    }

    /// Returns one of four texts: `AsyncCell::Empty`, `AsyncCell::Pending` if the cell has a waker
    /// (maybe of a dropped future), `AsyncCell::Closed`, or `AsyncCell::Full(..)` with the text of
    /// the value. The text of the value is made under the lock. Fails with `Memory` if there is no
    /// memory for the text, or if the value's `Debug` fails.
    pub fn debug_text<R: Wait>(&self, rt: &R) -> Result<String, Refusal>
    where
        T: fmt::Debug,
        ensures refused { FailsWithMemory result }
    {
        self.core.debug_text(self.alloc, rt)
    }

    /// Drops each waker that a dropped future left in the cell. The drop of a waker wakes the
    /// waker's task. While a waker stays in the cell, memory of its executor, such as the task,
    /// cannot be freed. So call this if many waits end early while the cell lives on. This call
    /// takes the lock once more than the wait list has places.
    pub fn purge<R: Wait>(&self, rt: &R) {
        self.core.store.purge(rt);
    }
}

impl<T: Drop, R: Wait + Drop, N: Protocol<T, TaskWaker>> Owner<T, R, N> {
    /// Sets the value and drops the old one. Wakes all waiters.
    pub fn set(&self, value: T)
        requires may { N.may (Kept.Replace value) }
    {
        self.shared.cell.core.put(value, &self.rt);
    }

    /// Sets the value and wakes all waiters, if the cell holds no value. Drops `value` otherwise.
    pub fn or_set(&self, value: T)
        requires may { N.may (Kept.OrSet value) }
    {
        self.shared.cell.or_set(value, &self.rt);
    }

    /// As `or_set`, but returns an unused `value` in the error, also on a closed cell.
    pub fn try_set(&self, value: T) -> Result<(), T>
        requires may { N.may (Kept.OrSet value) }
        ensures comes_back { IfErr result (λ back. back ≡ value) }
    {
        self.shared.cell.try_set(value, &self.rt)
    }

    /// Sets the value and returns the old one. Wakes all waiters.
    pub fn replace(&self, value: T) -> Option<T>
        requires may { N.may (Kept.Replace value) }
        ensures rule { IfSome result N.holds }
    {
        self.shared.cell.replace(value, &self.rt)
    }

    /// Calls the closure on the content, and stores what it returns. Wakes all waiters if an empty
    /// cell gets a value. The closure runs under the lock, and what the closure owns is dropped
    /// under the lock. Code that runs under the lock waits forever if it calls the cell or drops an
    /// `Owner` of the cell.
    ///
    /// ```rust
    /// let sum = Owner::new(rt.alloc(), rt)?;
    /// sum.update(|content| Some(content.unwrap_or(0u32).saturating_add(7)));
    /// println!(rt; "{:?}", sum.try_take())?; // prints Some(7)
    /// ```
    pub fn update<F: FnOnce(Option<T>) -> Option<T> + Drop>(&self, change: F)
        requires callable { F.IsAlwaysCallable change }
        requires may { (saw put : Option T) → IfSome saw N.holds → F.post change saw put
            → N.may (Kept.Update saw put) }
        requires may_fail { N.may (Kept.Update None None) }
    {
        self.shared.cell.update(change, &self.rt);
    }

    /// As `update`, but the closure is given a value and returns a value. If the cell holds no
    /// value, the closure is not called.
    pub fn update_some<F: FnOnce(T) -> T + Drop>(&self, change: F)
        requires callable { F.IsAlwaysCallable change }
        requires may { (old new : T) → N.holds old → F.post change old new
            → N.may (Kept.UpdateSome (Some old) (Some new)) }
        requires may_fail { N.may (Kept.UpdateSome None None) }
    {
        self.shared.cell.update_some(change, &self.rt);
    }

    /// As `AsyncCell::purge`.
    pub fn purge(&self) {
        self.shared.cell.purge(&self.rt);
    }

    /// Takes the value, if there is one. The waiters stay registered.
    ///
    /// ```rust
    /// let cell = Owner::new_with(rt.alloc(), 6, rt)?;
    /// cell.set(7);
    /// println!(rt; "{:?}", cell.try_take())?; // prints Some(7)
    /// println!(rt; "{:?}", cell.try_take())?; // prints None
    /// ```
    pub fn try_take(&self) -> Option<T>
        requires may { N.may Kept.TryTake }
        ensures rule { IfSome result N.holds }
    {
        self.shared.cell.core.try_take(&self.rt)
    }

    /// Returns a clone of the value, if there is one. Fails with `Memory` if the clone fails.
    pub fn try_get(&self) -> Result<Option<T>, Refusal>
    where
        T: Clone,
        ensures rule { IfOk result (λ found. IfSome found (IsCloneOfOne T.is_clone N.holds)) }
        ensures if_infallible { ((value : T) → T.is_infallible value) → IsOk result }
        ensures refused { FailsWithMemory result }
    {
        self.shared.cell.core.try_get(&self.rt)
    }

    /// Calls the closure on the value, if there is one, and returns the closure's result. The
    /// closure runs under the lock, so a closure that calls the same cell waits forever (see
    /// `AsyncCell`).
    pub fn peek<A, F: FnOnce(&T) -> A + Drop>(&self, look: F) -> Option<A>
        requires { F.IsAlwaysCallable look }
        ensures called { IfSome result (λ answer. (seen : T)
            × N.holds seen × FnOnceReturnsAt F.FnOnce look seen answer) }
    {
        self.shared.cell.peek(look, &self.rt)
    }

    /// Returns whether the cell holds a value.
    pub fn is_set(&self) -> bool {
        self.shared.cell.is_set(&self.rt)
    }

    /// Returns the cell, so that you can call its methods with an `rt` other than the owner's.
    pub fn cell(&self) -> &AsyncCell<T, N>
        ensures held { result.now ≡ cell_owned self.now }
    {
        self.shared.cell()
    }

    /// As `AsyncCell::debug_text`.
    pub fn debug_text(&self) -> Result<String, Refusal>
    where
        T: fmt::Debug,
        ensures refused { FailsWithMemory result }
    {
        self.shared.cell.debug_text(&self.rt)
    }
}

impl<R: Wait + Drop> Owner<(), R> {
    /// Sets the value and wakes all waiters. The first `wait` that is polled takes the value, and
    /// the other ones keep waiting. A `get` leaves the value in the cell, and is ready until
    /// somebody takes the value.
    pub fn notify(&self) {
        self.set(());
    }
}
