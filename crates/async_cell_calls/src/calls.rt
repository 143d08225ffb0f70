//! The calls that write, take or read the value, and those that change nothing.
ghost use Rattle.std.specs.Prelude.{◌≡◌, Option, Some, None, IfErr, IfOk, IfSome, IsOk, IsSome, IsTrue, OnOk};
ghost use Rattle.std.specs.Fn.{FnOnceReturnsAt};
ghost use Rattle.async_cell_model.specs.Machine.{IsSound};
ghost use Rattle.async_cell_model.specs.Refusal.{FailsWithClosed, FailsWithMemory};
ghost use Rattle.async_cell_step.specs.Rule.{IsCloneOfOne};
ghost use Rattle.futures.specs.Poll.{IfReady};

use crate::cell_store::CellStore;
use async_cell_core::{Poll, Refusal, Wakes};
use async_cell_history::{
    Anyone, CellCore, IsSet, Nobody, OrSet, PollGet, PollTake, Protocol, TryGet, TryTake, Update,
    UpdateSome,
};
use async_cell_model::Kept;
use async_cell_step::{Opens, Step, Stores, end, end_and_wake_one, opened, put_held, write_held};
use std::alloc::Global;
use std::fmt;

impl<M: Stores<Core = CellCore<T, W, N>>, T: Drop, W: Wakes, N: Protocol<T, W>> CellStore<M> {
    /// Sets the value, drops the old one and wakes all waiters. Fails on a closed cell, and then
    /// returns `value` in the error.
    pub fn set<'a, R: Opens<'a, M>>(&'a self, value: T, rt: &R) -> Result<(), T>
        requires may { N.may (Kept.Replace value) }
        ensures comes_back { IfErr result (λ back. back ≡ value) }
    {
        let old = self.replace(value, rt)?;
        drop(old);
        Ok(())
    }

    /// As `set`, but returns nothing. If the cell is closed, drops `value`.
    #[inline]
    pub fn put<'a, R: Opens<'a, M>>(&'a self, value: T, rt: &R)
        requires may { N.may (Kept.Replace value) }
    {
        let mut step = opened!(rt, &self.store, else return);
        if step.core().is_set() {
            let old = step.lend().overwrite(value); // Nobody waits on a full cell.
            let _ = end(step, old);
            return;
        }
        match step.lend().fill_first(value) {
            Ok(filled) => end_and_wake_one(step, filled),
            Err(value) => put_held(step, value),
        }
    }

    /// As `set`, but returns the old value.
    #[inline]
    pub fn replace<'a, R: Opens<'a, M>>(&'a self, value: T, rt: &R) -> Result<Option<T>, T>
        requires may { N.may (Kept.Replace value) }
        ensures rule { IfOk result (λ old. IfSome old N.holds) }
        ensures comes_back { IfErr result (λ back. back ≡ value) }
    {
        let mut step = opened!(rt, &self.store, else return Err(value));
        if step.core().is_set() {
            let old = step.lend().overwrite(value); // Nobody waits on a full cell.
            return Ok(Some(end(step, old)?));
        }
        match step.lend().fill_first(value) {
            Ok(filled) => {
                end_and_wake_one(step, filled);
                Ok(None)
            }
            Err(value) => write_held(step, value),
        }
    }

    /// As `set`, but if the cell already holds a value, drops `value` instead.
    pub fn or_set<'a, R: Opens<'a, M>>(&'a self, value: T, rt: &R) -> Result<(), T>
        requires may { N.may (Kept.OrSet value) }
        ensures comes_back { IfErr result (λ back. back ≡ value) }
    {
        drop(self.make(OrSet(value), &Anyone, &mut Nobody, rt)?);
        Ok(())
    }

    /// As `or_set`, but fails if the cell holds a value or is closed, and then returns `value` in
    /// the error.
    pub fn try_set<'a, R: Opens<'a, M>>(&'a self, value: T, rt: &R) -> Result<(), T>
        requires may { N.may (Kept.OrSet value) }
        ensures comes_back { IfErr result (λ back. back ≡ value) }
    {
        match self.make(OrSet(value), &Anyone, &mut Nobody, rt) {
            Ok(None) => Ok(()),
            Ok(Some(unused)) => Err(unused),
            Err(value) => Err(value),
        }
    }

    /// Calls the closure on the content and stores what it returns, all in one step. Wakes all
    /// waiters if that fills an empty cell. Fails with `Closed` on a closed cell, and then does not
    /// call the closure. What a called closure owns is dropped under the lock.
    pub fn update<'a, F, R: Opens<'a, M>>(&'a self, change: F, rt: &R) -> Result<(), Refusal>
    where
        F: FnOnce(Option<T>) -> Option<T> + Drop,
        requires callable { F.IsAlwaysCallable change }
        requires may { (saw put : Option T) → IfSome saw N.holds → F.post change saw put
            → N.may (Kept.Update saw put) }
        requires may_fail { N.may (Kept.Update None None) }
        ensures called { OnOk result ((saw put : Option T) × F.post change saw put) }
        ensures refused { FailsWithClosed result }
    {
        self.make(Update(change), &Anyone, &mut Nobody, rt)
    }

    /// As `update`, but calls the closure on the value, and only if there is one.
    pub fn update_some<'a, F, R: Opens<'a, M>>(&'a self, change: F, rt: &R) -> Result<(), Refusal>
    where
        F: FnOnce(T) -> T + Drop,
        requires callable { F.IsAlwaysCallable change }
        requires may { (old new : T) → N.holds old → F.post change old new
            → N.may (Kept.UpdateSome (Some old) (Some new)) }
        requires may_fail { N.may (Kept.UpdateSome None None) }
        ensures refused { FailsWithClosed result }
    {
        self.make(UpdateSome(change), &Anyone, &mut Nobody, rt)
    }

    /// As `put`, for a value that was taken out of the cell.
    #[doc(hidden)]
    pub fn put_back<'a, R: Opens<'a, M>>(&'a self, value: T, rt: &R)
        requires may { N.may (Kept.Replace value) }
    {
        let mut step = opened!(rt, &self.store, else return);
        match step.lend().put_quiet(value) {
            Ok(()) => step.release(),
            Err(value) => put_held(step, value),
        }
    }

    /// Takes the value, if there is one. The waiters stay registered.
    #[inline]
    pub fn try_take<'a, R: Opens<'a, M>>(&'a self, rt: &R) -> Option<T>
        requires may { N.may Kept.TryTake }
        ensures rule { IfSome result N.holds }
    {
        self.make(TryTake, &Anyone, &mut Nobody, rt)
    }

    /// Takes the content. Returns `None` if the cell is closed.
    #[doc(hidden)]
    pub fn take_out<'a, R: Opens<'a, M>>(&'a self, rt: &R) -> Option<Option<T>>
        requires may { N.may Kept.TryTake }
        ensures rule { IfSome result (λ content. IfSome content N.holds) }
    {
        let mut step = rt.open(&self.store)?;
        if step.core().owners() == 0 {
            step.release();
            return None;
        }
        let content = step.lend().make(TryTake, &Nobody);
        Some(end(step, content))
    }

    /// Takes the content. Nobody else has the cell, so this needs no right to make a step.
    #[doc(hidden)]
    #[inline(always)]
    pub fn take_alone(&mut self) -> Option<T>
        requires may { N.may Kept.TryTake }
        ensures rule { IfSome result N.holds }
    {
        let mut step = self.store.alone();
        let content = step.lend().make(TryTake, &Nobody);
        end(step, content)
    }

    /// Takes the value. If there is none, adds a clone of the waker (see `WaitList::skips`), and
    /// returns `Pending`. Returns `Ready(None)` on a closed cell. Fails with `Memory` if the clone
    /// fails or the list cannot grow.
    pub fn poll_take<'a, R: Opens<'a, M>>(
        &'a self,
        waker: &W,
        rt: &R,
    ) -> Result<Poll<Option<T>>, Refusal>
        requires may { N.may (Kept.PollTake waker.now) }
        ensures rule { IfOk result (λ polled. IfReady polled (λ taken. IfSome taken N.holds)) }
        ensures refused { FailsWithMemory result }
    {
        self.make(PollTake(waker), &Anyone, &mut Nobody, rt)
    }

    /// As `poll_take`, but clones the value, during the step. Also fails with `Memory` if this
    /// clone fails.
    pub fn poll_get<'a, R: Opens<'a, M>>(
        &'a self,
        waker: &W,
        rt: &R,
    ) -> Result<Poll<Option<T>>, Refusal>
    where
        T: Clone,
        ensures rule { IfOk result (λ polled. IfReady polled (λ found.
            IfSome found (IsCloneOfOne T.is_clone N.holds))) }
        ensures refused { FailsWithMemory result }
    {
        self.make(PollGet(waker), &Anyone, &mut Nobody, rt)
    }

    /// Makes room for `additional` more wakers. Adding these wakers then needs no memory, except
    /// for cloning them. A fill or a close gives up the room. Fails with `Memory` if there is no
    /// memory for this room. Does nothing on a closed cell.
    pub fn reserve<'a, R: Opens<'a, M>>(&'a self, additional: usize, rt: &R) -> Result<(), Refusal>
        ensures refused { FailsWithMemory result }
    {
        let Some(mut step) = rt.open(&self.store) else {
            return Err(Refusal::Memory);
        };
        let reserved = step.lend().reserve(additional);
        end(step, reserved)
    }

    /// Ends a guard. `cancel` is the guard's cancel value, or `None` if the guard was released. An
    /// unreleased guard sets its cancel value if the cell is empty.
    #[doc(hidden)]
    pub fn end_guard<'a, R: Opens<'a, M>>(&'a self, cancel: Option<T>, rt: &R)
        requires may { IfSome cancel (λ value. N.may (Kept.OrSet value)) }
    {
        if let Some(value) = cancel {
            let _ = self.or_set(value, rt);
        }
    }

    /// Lends the core for reading, until `async_cell_step::end` is called. The core's state is
    /// sound, whatever other steps did.
    #[inline(always)]
    pub fn look<'a, R: Opens<'a, M>>(&'a self, rt: &R) -> Option<R::Open>
        ensures lent { IsTrue R.always → IsSome result }
        ensures sound { IfSome result (λ step. IsSound W.will_wake (R.Open.core_of step).inner) }
    {
        let step = rt.open(&self.store)?;
        step.core().soundness();
        Some(step)
    }

    /// Returns a clone of the value, if there is one. The clone is made during the step. Fails with
    /// `Memory` if the clone fails.
    pub fn try_get<'a, R: Opens<'a, M>>(&'a self, rt: &R) -> Result<Option<T>, Refusal>
    where
        T: Clone,
        ensures rule { IfOk result (λ found. IfSome found (IsCloneOfOne T.is_clone N.holds)) }
        ensures if_infallible { ((value : T) → T.is_infallible value) → IsOk result }
        ensures refused { FailsWithMemory result }
    {
        self.make(TryGet, &Anyone, &mut Nobody, rt)
    }

    /// If there is a value, calls the closure on the value during the step, and returns what the
    /// closure returned.
    #[doc(hidden)]
    pub fn peek<'a, A, F, R: Opens<'a, M>>(&'a self, look: F, rt: &R) -> Option<A>
    where
        F: FnOnce(&T) -> A + Drop,
        requires { F.IsAlwaysCallable look }
        ensures called { IfSome result (λ answer. (seen : T)
            × N.holds seen × FnOnceReturnsAt F.FnOnce look seen answer) }
    {
        let step = self.look(rt)?;
        let looked = step.core().peek(look);
        match end(step, looked) {
            Ok(answer) => Some(answer),
            Err(_not_called) => None,
        }
    }

    /// Returns whether the cell holds a value.
    #[inline]
    pub fn is_set<'a, R: Opens<'a, M>>(&'a self, rt: &R) -> bool {
        self.make(IsSet, &Anyone, &mut Nobody, rt)
    }

    /// Returns whether the cell is closed.
    pub fn is_closed<'a, R: Opens<'a, M>>(&'a self, rt: &R) -> bool {
        self.owners(rt) == 0
    }

    /// Returns the number of owners: 0 once the cell is closed.
    pub fn owners<'a, R: Opens<'a, M>>(&'a self, rt: &R) -> u32 {
        let Some(step) = self.look(rt) else {
            return 0;
        };
        let owners = step.core().owners();
        step.release();
        owners
    }

    /// Returns how many wakers wait.
    pub fn waiting<'a, R: Opens<'a, M>>(&'a self, rt: &R) -> usize {
        let Some(step) = self.look(rt) else {
            return 0;
        };
        let waiting = step.core().waiting();
        step.release();
        waiting
    }

    /// Returns whether a task waits, or `None` if the cell is closed or full.
    #[doc(hidden)]
    pub fn is_pending<'a, R: Opens<'a, M>>(&'a self, rt: &R) -> Option<bool> {
        let step = self.look(rt)?;
        let core = step.core();
        let waits = core.is_vacant().then_some(!core.wakes_nobody());
        step.release();
        waits
    }

    /// Returns the cell as text. The text is made during a step. Fails with `Memory` if there is no
    /// memory for the text.
    #[doc(hidden)]
    pub fn debug_text<'a, R: Opens<'a, M>>(
        &'a self,
        alloc: Global,
        rt: &R,
    ) -> Result<String, Refusal>
    where
        T: fmt::Debug,
        ensures refused { FailsWithMemory result }
    {
        let Some(step) = self.look(rt) else {
            return Err(Refusal::Memory);
        };
        let text = step.core().debug_text(alloc);
        end(step, text)
    }
}
