ghost use Rattle.std.specs.Prelude.{◌≡◌, ◌≤◌, ◌+◌, [], length, true, Ok, IsOk, IfOk, IfErr, OnOk, OnErr, ◌↔◌};
ghost use Rattle.async_cell_model.specs.Legal.{IsExact};
ghost use Rattle.async_cell_wakers.specs.WaitList.{first_then};
ghost use Rattle.async_cell_latest.specs.State.{IsSound, is_closed, is_writable};
ghost use Rattle.async_cell_latest.specs.Step.{Write, Read, Shown};
ghost use Rattle.async_cell_latest.specs.IsStep.{IsStep, replies, write_answer};

mod changes;
mod owners;
mod places;
mod polls;

use async_cell_model::Refusal;
use async_cell_wakers::{WaitList, Wakers, Wakes};
use std::alloc::{AllocError, Global};
use std::marker::Model;
use std::{fmt, mem};

/// A value that is always there, with its version and counted owners. Its wait list holds the
/// wakers of followers that have seen this version.
pub struct Latest<T, W: Wakes> {
    value: T,
    /// Begins with 1 and grows by 1 with each write.
    version: u64,
    /// 0 once the state is closed.
    owners: u32,
    waiting: WaitList<W>,
}

/// Contracts see the state: the value, its version, the number of owners, the wait list in order,
/// and the room for more wakers.
impl<T, W: Wakes> Model for Latest<T, W> {
    ghost use Rattle.async_cell_latest.specs.State.{State, IsSound, state_of};

    ghost Value = { State T W };

    ghost view = { λ s. state_of s.value s.version s.owners s.waiting };

    ghost invariant = { λ s. IsSound W.will_wake
        (state_of s.value s.version s.owners s.waiting) };
}

impl<T: Drop, W: Wakes> Latest<T, W> {
    /// Creates an open state that holds `value`, with one owner. Its version is 1. A follower that
    /// has seen no version yet passes 0 to polls.
    pub fn new(alloc: Global, value: T) -> Self
        ensures { result ≡ record
            { value = value; version = 1; owners = 1; waiting = []; room = 0 } }
    {
        Latest::from_parts(alloc, value, 1, 1)
    }

    /// Creates an open state that holds `value`, with this version and this number of owners. Both
    /// must be at least 1.
    pub fn from_parts(alloc: Global, value: T, version: u64, owners: u32) -> Self
        requires versioned { 1 ≤ version }
        requires counted { 1 ≤ owners }
        ensures { result ≡ record
            { value = value; version = version; owners = owners; waiting = []; room = 0 } }
    {
        Latest {
            value,
            version,
            owners,
            waiting: WaitList::new(alloc),
        }
    }

    /// Replaces the value and moves the version on by one. Returns the old value and all waiting
    /// wakers, to be woken by the caller. Fails if the state is closed; the value is returned in
    /// the error. Fails in the same way at the version 18,446,744,073,709,551,615, which is the
    /// last.
    pub fn write(&mut self, value: T) -> Result<(T, Wakers<W>), T>
        ensures model { IsStep W.Wakes self.old (Write value) (write_answer result) self.new }

        ensures if_open { IsOk result ↔ (is_writable self.old ≡ true) }
        ensures holds { OnOk result (self.new.value ≡ value) }
        ensures counted { OnOk result (self.new.version ≡ self.old.version + 1) }
        ensures gives_old { IfOk result (λ answer. answer.0 ≡ self.old.value) }
        ensures hands_out_all { IfOk result (λ answer. answer.1 ≡ self.old.waiting) }
        ensures unchanged { OnErr result (self.new ≡ self.old) }
        ensures comes_back { IfErr result (λ back. back ≡ value) }
    {
        let Some(version) = self.next_version() else {
            return Err(value);
        };
        self.version = version;
        let old = mem::replace(&mut self.value, value);
        Ok((old, self.waiting.hand_out()))
    }

    /// As `write`, but fails also if the wait list has allocated memory. A wait list without
    /// allocated memory has at most one waker. On success, returns the old value and the waiting
    /// waker, if there is one. The caller has to wake this waker. On failure, changes nothing, and
    /// returns `value` in the error.
    #[doc(hidden)]
    #[inline(always)]
    pub fn write_first(&mut self, value: T) -> Result<(T, Option<W>), T>
        ensures model { IfOk result (λ answer. IsStep W.Wakes self.old (Write value)
            (write_answer (Ok (answer.0, first_then answer.1 []))) self.new) }

        ensures if_open { OnOk result (is_writable self.old ≡ true) }
        ensures hands_out_all { IfOk result (λ answer.
            self.old.waiting ≡ first_then answer.1 []) }
        ensures unchanged { OnErr result (self.new ≡ self.old) }
        ensures comes_back { IfErr result (λ back. back ≡ value) }
    {
        let Some(next) = self.next_version() else {
            return Err(value);
        };
        match self.waiting.hand_out_first() {
            Some(first) => {
                self.version = next;
                Ok((mem::replace(&mut self.value, value), first))
            }
            None => Err(value),
        }
    }

    /// Returns the version and the value.
    pub fn read(&self) -> (u64, &T)
        ensures model { IsStep W.Wakes
            self.now Read (replies (Shown result.0 result.1.now)) self.now }
        ensures version { result.0 ≡ self.now.version }
        ensures gives { result.1.now ≡ self.now.value }
    {
        (self.version, &self.value)
    }

    /// Returns the version. It grows by one with each write.
    pub fn version(&self) -> u64
        ensures { result ≡ self.now.version }
    {
        self.version
    }

    /// Returns whether the state is closed: its last owner has ended, and no write will come.
    pub fn is_closed(&self) -> bool
        ensures closed { result ≡ is_closed self.now }
        ensures sound { IsSound W.will_wake self.now }
    {
        self.owners == 0
    }

    /// Returns the number of waiting wakers.
    pub fn waiting(&self) -> usize
        ensures { result ≡ length self.now.waiting }
    {
        self.waiting.len()
    }
}

/// Dropping a `Latest` wakes all waiting wakers, in order.
impl<T: Drop, W: Wakes> Drop for Latest<T, W> {
    fn drop(self) {
        let (value, woken) = self.into_inner();
        drop(value);
        woken.wake_all();
    }
}

impl<T: Clone, W: Wakes> Latest<T, W> {
    /// Returns the version and a clone of the value. Fails with `Memory` if there is no memory for
    /// the clone.
    pub fn get(&self) -> Result<(u64, T), Refusal>
        ensures model { IsExact T.is_clone → IfOk result (λ shown.
            IsStep W.Wakes self.now Read (replies (Shown shown.0 shown.1)) self.now) }

        ensures version { IfOk result (λ shown. shown.0 ≡ self.now.version) }
        ensures clones { IfOk result (λ shown. T.is_clone self.now.value shown.1) }
        ensures if_infallible { T.is_infallible self.now.value → IsOk result }
        ensures refused { IfErr result (λ why. why ≡ Refusal.Memory) }
    {
        let copy: Result<T, AllocError> = self.value.clone();
        Ok((self.version, copy?))
    }
}

/// Prints `Latest(..)` with the value's own debug text, or `Latest::Closed(..)` if the state is
/// closed.
impl<T: fmt::Debug, W: Wakes> fmt::Debug for Latest<T, W> {
    fn fmt<F: fmt::Write>(&self, f: &mut fmt::Formatter<F>) -> fmt::Result {
        match self.owners {
            0 => write!(f, "Latest::Closed({:?})", self.value),
            _ => write!(f, "Latest({:?})", self.value),
        }
    }
}
