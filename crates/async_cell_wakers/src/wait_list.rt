ghost use Rattle.std.specs.Prelude.{◌≡◌, ◌≢◌, ◌<◌, ◌≤◌, ◌-◌, [], ◌∷◌, ◌++◌, length, None, IsTrue, IsOk, IfErr, IfSome, IfNone, OnSome, OnOk, OnErr, ◌↔◌};
ghost use Rattle.async_cell_model.specs.Machine.{skips};
ghost use Rattle.std.specs.Vec.{vec_capacity, vec_len};
ghost use Rattle.async_cell_wakers.specs.{Place.GivesUpPlaces, WaitList.{ListState, first_then}};

mod places;

use crate::wakers::Wakers;
use crate::wakes::Wakes;
use std::alloc::{AllocError, Global};
use std::cell::Cell;
use std::marker::Model;
use std::mem;

/// The most wakers that a list without memory makes room for when it grows.
const MOST: usize = 64;

/// The wakers that wait on a cell, in order of registration. The first is stored inline, the others
/// in a vector. Dropping the list drops its wakers without calling their `wake`.
#[derive(Drop)]
pub struct WaitList<W> {
    first: Option<W>,
    rest: Vec<W>,
    /// Begins with 1 and grows with each `hand_out`: places of other rounds are given up.
    round: u64,
    /// The number of the free place that is taken over next, counted from 1: 0 if none is free.
    free: Cell<usize>,
    /// How many were in the vector when all wakers were last handed out, at most `MOST`.
    expected: usize,
}

/// Contracts see the wakers in order of registration, the room for more wakers, and the number of
/// the round in which places are taken now.
impl<W> Model for WaitList<W> {
    ghost Value = { ListState W };

    ghost view = { λ s. record {
      wakers = first_then s.first s.rest.items;
      room = vec_capacity s.rest - vec_len s.rest;
      round = s.round;
    } };

    ghost invariant = { λ s. s.first ≡ None → s.rest.items ≡ [] };
}

impl<W: Drop> WaitList<W> {
    /// Creates an empty list. Allocates nothing; later growth takes its memory from `alloc`.
    pub fn new(alloc: Global) -> Self
        ensures { result ≡ record { wakers = []; room = 0; round = 1 } }
    {
        WaitList {
            first: None,
            rest: Vec::new(alloc),
            round: 1,
            free: Cell::new(0),
            expected: 0,
        }
    }

    /// Returns the number of waiting wakers, in constant time.
    pub fn len(&self) -> usize
        ensures { result ≡ length self.now.wakers }
    {
        match &self.first {
            Some(_) => 1 + self.rest.len(),
            None => 0,
        }
    }

    /// Returns whether no waker waits.
    pub fn is_empty(&self) -> bool
        ensures { IsTrue result ↔ (self.now.wakers ≡ []) }
    {
        self.first.is_none()
    }

    /// Returns whether no waker waits and the list has allocated no memory. If so, a drop of the
    /// list would do nothing.
    #[inline(always)]
    pub fn is_bare(&self) -> bool
        ensures { IsTrue result → (self.now.wakers ≡ []) × (self.now.room ≡ 0) }
    {
        self.is_empty() && self.rest.capacity() == 0
    }

    /// Makes room for `additional` more wakers. Until `hand_out` empties the list, adding these
    /// wakers needs memory only for the clones of the wakers. Fails if there is no memory for the
    /// room. The list is then unchanged.
    pub fn reserve(&mut self, additional: usize) -> Result<(), AllocError>
        ensures wakers_stay { self.new.wakers ≡ self.old.wakers }
        ensures places_stay { self.new.round ≡ self.old.round }
        ensures makes_room { OnOk result (additional ≤ self.new.room) }
        ensures keeps_room { self.old.room ≤ self.new.room }
        ensures room_suffices { additional ≤ self.old.room → IsOk result }
        ensures unchanged { OnErr result (self.new ≡ self.old) }
    {
        self.rest.reserve(additional)
    }

    /// Adds a waker at the end of the list, by value. Needs no memory if the list is empty or has
    /// room. If there is no memory, the list is unchanged and the waker is returned in the error.
    pub fn add(&mut self, waker: W) -> Result<(), W>
        ensures added { OnOk result (self.new.wakers ≡ self.old.wakers ++ waker ∷ []) }
        ensures takes_room { OnOk result (self.old.room - 1 ≤ self.new.room) }
        ensures places_stay { self.new.round ≡ self.old.round }
        ensures unchanged { OnErr result (self.new ≡ self.old) }
        ensures comes_back { IfErr result (λ back. back ≡ waker) }
        ensures first_is_added { self.old.wakers ≡ [] → IsOk result }
        ensures room_suffices { 0 < self.old.room → IsOk result }
    {
        if self.is_empty() {
            // To assign would drop the one before, which is none, and so count as a loop.
            mem::forget(self.first.replace(waker));
            return Ok(());
        }
        if self.rest.len() == self.rest.capacity() && self.grow().is_err() {
            return Err(waker);
        }
        self.rest.push_reserved(waker);
        Ok(())
    }

    /// Removes all wakers and returns them, in order of registration. The list then has neither
    /// wakers nor room, and all places are given up. Takes constant time and allocates nothing.
    #[inline(always)]
    pub fn hand_out(&mut self) -> Wakers<W>
        ensures hands_out_all { result ≡ self.old.wakers }
        ensures leaves_none { (self.new.wakers ≡ []) × (self.new.room ≡ 0) }
        ensures gives_up_places { GivesUpPlaces self.old self.new }
    {
        match self.hand_out_first() {
            Some(first) => Wakers { first, rest: None },
            None => self.hand_out_all(),
        }
    }

    /// As `hand_out`, but only for a list that has no allocated memory, and so has at most one
    /// waker. Returns this waker, or `Some(None)` if no waker waits. If the list has allocated
    /// memory, returns `None` and changes nothing.
    #[inline(always)]
    pub fn hand_out_first(&mut self) -> Option<Option<W>>
        ensures hands_out_all { IfSome result (λ first. self.old.wakers ≡ first_then first []) }
        ensures leaves_none { OnSome result ((self.new.wakers ≡ []) × (self.new.room ≡ 0)) }
        ensures gives_up_places { OnSome result (GivesUpPlaces self.old self.new) }
        ensures unchanged { IfNone result (self.new ≡ self.old) }
    {
        if self.rest.capacity() > 0 {
            return None;
        }
        let first = self.first.take();
        if first.is_some() {
            self.give_up_places(); // If nobody waits, no place is held.
        }
        Some(first)
    }

    /// Does what `hand_out` does. It is a function of its own, so that `hand_out` is small where at
    /// most one waker waits.
    #[inline(never)]
    fn hand_out_all(&mut self) -> Wakers<W>
        ensures hands_out_all { result ≡ self.old.wakers }
        ensures leaves_none { (self.new.wakers ≡ []) × (self.new.room ≡ 0) }
        ensures gives_up_places { GivesUpPlaces self.old self.new }
    {
        self.give_up_places();
        self.expected = self.rest.len().min(MOST);
        let first = self.first.take();
        let none = Vec::new(*self.rest.allocator());
        let rest = Some(mem::replace(&mut self.rest, none).into_iter());
        Wakers { first, rest }
    }

    /// Makes room in the vector, which is full. If the vector has no memory yet, makes room for as
    /// many wakers as it had when they were last handed out. Fails if there is no memory.
    #[inline(never)]
    fn grow(&mut self) -> Result<(), AllocError>
        ensures wakers_stay { self.new.wakers ≡ self.old.wakers }
        ensures places_stay { self.new.round ≡ self.old.round }
        ensures makes_room { OnOk result (1 ≤ self.new.room) }
        ensures keeps_room { self.old.room ≤ self.new.room }
        ensures unchanged { OnErr result (self.new ≡ self.old) }
    {
        let is_first = self.rest.capacity() == 0;
        let more = if is_first { self.expected.max(1) } else { 1 };
        self.rest.reserve(more)
    }

    /// Begins another round, in which no place is free.
    #[inline(always)]
    fn give_up_places(&mut self)
        ensures wakers_stay { self.new.wakers ≡ self.old.wakers }
        ensures room_stays { self.new.room ≡ self.old.room }
        ensures another { self.new.round ≢ self.old.round }
    {
        self.round = self.round.wrapping_add(1);
        self.free.set(0);
    }
}

impl<W: Wakes> WaitList<W> {
    /// Returns whether `waker` need not be registered, because some waiting waker would wake the
    /// task of `waker`. This is the only rule by which a waker is not added to the list.
    ///
    /// Calls `will_wake` on the waiting wakers, in order, until a call returns true.
    pub fn skips(&self, waker: &W) -> bool
        ensures { result ≡ skips W.will_wake self.now.wakers waker.now }
    {
        match &self.first {
            Some(first) => first.will_wake(waker) || any_wakes(&self.rest, waker),
            None => false,
        }
    }

    /// Adds a clone of the waker at the end of the list. If there is no memory, or the clone fails,
    /// the wakers are unchanged. Room is made before the clone, so a clone is made only if it will
    /// be stored. If the list is empty or has room, only the clone can fail.
    pub fn push(&mut self, waker: &W) -> Result<(), AllocError>
        ensures added { OnOk result (self.new.wakers ≡ self.old.wakers ++ waker.now ∷ []) }
        ensures takes_room { OnOk result (self.old.room - 1 ≤ self.new.room) }
        ensures places_stay { self.new.round ≡ self.old.round }
        ensures unchanged { OnErr result (self.new.wakers ≡ self.old.wakers) }
        ensures keeps_room { OnErr result (self.old.room ≤ self.new.room) }
        ensures first_is_added { self.old.wakers ≡ [] → IsTrue W.SURE_CLONE → IsOk result }
        ensures room_suffices { 0 < self.old.room → IsTrue W.SURE_CLONE → IsOk result }
        ensures first_cloned { self.old.wakers ≡ [] → W.is_infallible waker.now → IsOk result }
        ensures room_for_clone { 0 < self.old.room → W.is_infallible waker.now → IsOk result }
    {
        if self.is_empty() {
            let clone: W = waker.clone()?;
            self.first = Some(clone);
            return Ok(());
        }
        if self.rest.len() == self.rest.capacity() {
            self.grow()?;
        }
        let clone: W = waker.clone()?;
        self.rest.push_reserved(clone);
        Ok(())
    }

    /// Returns whether waking all these wakers would wake no task (see `Wakes::wakes_nobody`).
    pub fn wakes_nobody(&self) -> bool {
        let mut wakers = self.first.iter().chain(&self.rest);
        wakers.all(W::wakes_nobody)
    }
}

/// Returns whether any of these wakers would wake `waker`.
fn any_wakes<W: Wakes>(waiting: &[W], waker: &W) -> bool
    ensures { result ≡ skips W.will_wake waiting.now waker.now }
{
    waiting.iter().any(|earlier| earlier.will_wake(waker))
}
