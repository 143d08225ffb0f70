ghost use Rattle.std.specs.Prelude.{◌≡◌, ◌≤◌, ◌<◌, ◌↔◌, [], ◌+◌, ◌-◌, None, Err, true, false, is_some, IsOk, IsSome, IsSomeAnd, IfSome, IfOk, IfErr, OnOk, OnErr};
ghost use Rattle.std.specs.{Fn.FnOnceReturnsAt, Option.ForSome};
ghost use Rattle.async_cell_model.specs.Machine.{content, is_closed, is_full, is_vacant, State, IsSound};
ghost use Rattle.async_cell_core.specs.IsStep.{IsStep, replies, set_answer, replace_answer, update_answer, done_answer};
ghost use Rattle.async_cell_core.specs.Stored.{state_of};

mod internal;
mod owners;
mod places;
mod polls;

use async_cell_model::{Cell, Kept, Refusal, Reply};
use async_cell_wakers::{WaitList, Wakers, Wakes};
use futures::task::Poll;
use std::alloc::Global;
use std::marker::Model;
use std::{fmt, mem};

/// A cell with an optional value, counted owners and the wait list of the wakers that wait for a
/// value. Its calls wake nobody. They return the wakers, and you wake these by `wake_all`: dropping
/// the `Wakers` does not call their `wake`. Only the drop of the `Core` itself does.
pub struct Core<T, W: Wakes> {
    value: Option<T>,
    /// 0 once the cell is closed.
    owners: u32,
    waiting: WaitList<W>,
}

/// Contracts see the state: the cell, the wait list in order, and the room for more wakers.
impl<T, W: Wakes> Model for Core<T, W> {
    ghost Value = { State T W };

    ghost view = { λ s. state_of s.value s.owners s.waiting };

    ghost invariant = { λ s. IsSound W.will_wake (state_of s.value s.owners s.waiting)
        × (s.owners ≡ 0 → s.value ≡ None) };
}

impl<T: Drop, W: Wakes> Core<T, W> {
    /// Creates an open cell without a value, with one owner.
    pub fn new(alloc: Global) -> Self
        ensures { result ≡ record { cell = Cell.Open None 1; waiting = []; room = 0 } }
    {
        Core::owned_by(alloc, None, 1)
    }

    /// Creates an open cell that holds `value`, with one owner.
    pub fn new_with(alloc: Global, value: T) -> Self
        ensures { result ≡ record { cell = Cell.Open (Some value) 1; waiting = []; room = 0 } }
    {
        Core::owned_by(alloc, Some(value), 1)
    }

    /// Creates an open cell with this content and this number of owners, which must be at least
    /// one.
    pub fn owned_by(alloc: Global, value: Option<T>, owners: u32) -> Self
        requires { 1 ≤ owners }
        ensures { result ≡ record { cell = Cell.Open value owners; waiting = []; room = 0 } }
    {
        Core {
            value,
            owners,
            waiting: WaitList::new(alloc),
        }
    }

    /// Sets the value and drops the old one. Returns all waiting wakers, to be woken by the caller.
    /// Fails if the cell is closed; the value is returned in the error.
    ///
    /// ```rust
    /// let mut core = Core::<u32, Named>::new(rt.alloc());
    /// println!(rt; "{:?}", core.poll_take(&Named(1))?)?; // prints Pending
    /// println!(rt; "{:?}", core.set(7).map(|woken| woken.len()))?; // prints Ok(1)
    /// ```
    pub fn set(&mut self, value: T) -> Result<Wakers<W>, T>
        ensures model { IsStep W.Wakes self.old (Kept.Set value) (set_answer result) self.new }

        ensures if_open { IsOk result ↔ (is_closed self.old.cell ≡ false) }
        ensures holds { OnOk result (content self.new.cell ≡ Some value) }
        ensures hands_out_all { IfOk result (λ woken. woken ≡ self.old.waiting) }
        ensures unchanged { OnErr result (self.new ≡ self.old) }
        ensures comes_back { IfErr result (λ back. back ≡ value) }
    {
        let (old, woken) = self.replace(value)?;
        drop(old);
        Ok(woken)
    }

    /// Sets the value. Returns the old one and all waiting wakers, to be woken by the caller. Fails
    /// if the cell is closed; the value is returned in the error.
    pub fn replace(&mut self, value: T) -> Result<(Option<T>, Wakers<W>), T>
        ensures model { IsStep W.Wakes
            self.old (Kept.Replace value) (replace_answer result) self.new }

        ensures if_open { IsOk result ↔ (is_closed self.old.cell ≡ false) }
        ensures holds { OnOk result (content self.new.cell ≡ Some value) }
        ensures gives_old { IfOk result (λ answer. answer.0 ≡ content self.old.cell) }
        ensures hands_out_all { IfOk result (λ answer. answer.1 ≡ self.old.waiting) }
        ensures unchanged { OnErr result (self.new ≡ self.old) }
        ensures comes_back { IfErr result (λ back. back ≡ value) }
    {
        if self.is_closed() {
            return Err(value);
        }
        match self.value.replace(value) {
            Some(old) => Ok((Some(old), Wakers::none())),
            None => Ok((None, self.waiting.hand_out())),
        }
    }

    /// Sets the value if there is none, and then returns `None` and all waiting wakers, to be woken
    /// by the caller. If there is a value already, returns the unused `value` and no wakers. Fails
    /// if the cell is closed; the value is returned in the error.
    pub fn or_set(&mut self, value: T) -> Result<(Option<T>, Wakers<W>), T>
        ensures model { IsStep W.Wakes
            self.old (Kept.OrSet value) (replace_answer result) self.new }

        ensures if_open { IsOk result ↔ (is_closed self.old.cell ≡ false) }
        ensures holds { is_vacant self.old.cell ≡ true → content self.new.cell ≡ Some value }
        ensures value_stays { is_full self.old.cell ≡ true
            → content self.new.cell ≡ content self.old.cell }
        ensures unused { IfOk result (λ answer. IsSome answer.0 ↔ (is_full self.old.cell ≡ true)) }
        ensures hands_out_all { IfOk result (λ answer. answer.1 ≡ self.old.waiting) }
        ensures unchanged { OnErr result (self.new ≡ self.old) }
        ensures comes_back { IfErr result (λ back. back ≡ value) }
    {
        if self.is_set() {
            let unused = Some(value);
            return Ok((unused, Wakers::none()));
        }
        self.replace(value)
    }

    /// Calls the closure on the content and stores what it returns. If the cell held no value and
    /// now holds one, returns all waiting wakers, to be woken by the caller. Otherwise returns no
    /// wakers, and those that wait stay registered. Fails with `Closed` if the cell is closed; the
    /// closure is then not called.
    pub fn update<F: FnOnce(Option<T>) -> Option<T> + Drop>(
        &mut self,
        change: F,
    ) -> Result<Wakers<W>, Refusal>
        requires { is_closed self.old.cell ≡ false → F.pre change (content self.old.cell) }
        ensures model { IsStep W.Wakes self.old
            (Kept.Update (content self.old.cell) (content self.new.cell))
            (update_answer result) self.new }
        ensures called { OnOk result
            (F.post change (content self.old.cell) (content self.new.cell)) }

        ensures if_open { IsOk result ↔ (is_closed self.old.cell ≡ false) }
        ensures unchanged { OnErr result (self.new ≡ self.old) }
    {
        if self.is_closed() {
            return Err(Refusal::Closed);
        }
        let was_set = self.value.is_some();
        self.value = change(self.value.take());
        if was_set || self.value.is_none() {
            return Ok(Wakers::none());
        }
        Ok(self.waiting.hand_out())
    }

    /// Calls the closure on the value, if there is one, and stores what it returns. Fails with
    /// `Closed` if the cell is closed. The closure is not called if there is no value or the call
    /// fails.
    pub fn update_some<F: FnOnce(T) -> T + Drop>(&mut self, change: F) -> Result<(), Refusal>
        requires { ForSome (content self.old.cell) (F.pre change) }
        ensures model { IsStep W.Wakes self.old
            (Kept.UpdateSome (content self.old.cell) (content self.new.cell))
            (done_answer result) self.new }
        ensures called { IfSome (content self.old.cell) (λ old.
            IsSomeAnd (content self.new.cell) (λ new. F.post change old new)) }

        ensures if_open { IsOk result ↔ (is_closed self.old.cell ≡ false) }
        ensures unchanged { OnErr result (self.new ≡ self.old) }
    {
        if self.is_closed() {
            return Err(Refusal::Closed);
        }
        self.value = self.value.take().map(change);
        Ok(())
    }

    /// Takes the value, if there is one. The waiting wakers stay registered.
    pub fn try_take(&mut self) -> Option<T>
        ensures model { IsStep W.Wakes
            self.old Kept.TryTake (replies (Reply.Value result)) self.new }
        ensures takes { result ≡ content self.old.cell }
        ensures leaves_none { content self.new.cell ≡ None }
    {
        mem::take(&mut self.value)
    }

    /// Returns whether there is a value.
    pub fn is_set(&self) -> bool
        ensures model { IsStep W.Wakes self.now Kept.IsSet (replies (Reply.Is result)) self.now }
        ensures full { result ≡ is_full self.now.cell }
    {
        self.value.is_some()
    }

    /// Calls the closure on the value, if there is one, and returns the closure's result. If there
    /// is no value, the closure is not called, and is returned in the error.
    pub fn peek<A, F: FnOnce(&T) -> A>(&self, look: F) -> Result<A, F>
        requires { F.IsAlwaysCallable look }
        ensures called { IfOk result (λ answer. IsSomeAnd (content self.now.cell) (λ value.
            FnOnceReturnsAt F.FnOnce look value answer)) }
        ensures if_full { IsOk result ↔ (is_full self.now.cell ≡ true) }
        ensures comes_back { IfErr result (λ back. back ≡ look) }
    {
        match &self.value {
            Some(value) => Ok(look(value)),
            None => Err(look),
        }
    }

    /// Returns whether the cell is open without a value, so that a poll would wait.
    pub fn is_vacant(&self) -> bool
        ensures { result ≡ is_vacant self.now.cell }
    {
        self.value.is_none() && self.owners != 0
    }

    /// Returns whether the cell is closed: its last owner is gone.
    pub fn is_closed(&self) -> bool
        ensures closed { result ≡ is_closed self.now.cell }
        ensures sound { IsSound W.will_wake self.now }
    {
        self.owners == 0
    }

    /// Does what the drop of the core does. A type that holds a core saves one function call if its
    /// own drop calls `end`.
    #[doc(hidden)]
    #[inline(always)]
    pub fn end(self) {
        let Core {
            value,
            owners: _,
            waiting,
        } = self;
        drop(value);
        if waiting.is_bare() {
            mem::forget(waiting); // It holds nothing.
        } else {
            wake(waiting);
        }
    }
}

/// Dropping a `Core` drops its value, if it holds one. Otherwise it wakes all waiting wakers, in
/// order.
impl<T: Drop, W: Wakes> Drop for Core<T, W> {
    #[inline(always)]
    fn drop(self) {
        self.end();
    }
}

/// Wakes all waiting wakers. It is not part of `end`, so `end` is small where nobody waits.
#[inline(never)]
fn wake<W: Wakes>(mut waiting: WaitList<W>) {
    waiting.hand_out().wake_all();
}

/// Prints `AsyncCell::Full(..)` with the value's own debug text, or `AsyncCell::Closed`. Prints
/// `AsyncCell::Pending` for a vacant cell on which a waker waits, and `AsyncCell::Empty` for any
/// other vacant cell.
impl<T: fmt::Debug, W: Wakes> fmt::Debug for Core<T, W> {
    fn fmt<F: fmt::Write>(&self, f: &mut fmt::Formatter<F>) -> fmt::Result {
        match &self.value {
            Some(value) => write!(f, "AsyncCell::Full({value:?})"),
            None if self.owners == 0 => f.write_str("AsyncCell::Closed"),
            None if self.waiting.wakes_nobody() => f.write_str("AsyncCell::Empty"),
            None => f.write_str("AsyncCell::Pending"),
        }
    }
}
