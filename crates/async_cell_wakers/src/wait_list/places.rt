//! The places of futures in a wait list. A future that is polled again and still has to wait renews
//! its waker in its place, if the task has the same number as at its last poll. If not, it takes
//! its waker out of its place, and then stores the waker again. A future that is dropped leaves its
//! place free, with the waker in it. The free places form a list: each has, beside its waker, the
//! number of the next free place, counted from 1.
ghost use Rattle.std.specs.Prelude.{◌≡◌, ◌<◌, ◌≤◌, ◌-◌, ◌↔◌, [], ◌∷◌, ◌++◌, length, slice_get, Some, None, false, IsTrue, IsSome, IsOk, IfSome, IfOk, OnSome, OnOk, OnErr, IfNone, MatchOption};
ghost use Rattle.futures.specs.Task.{Hears, IsArmed, Keeps};
ghost use Rattle.async_cell_wakers.specs.Place.{Holds, Renews, Swaps, displaced};

use super::WaitList;
use crate::place::Place;
use crate::task_waker::TaskWaker;
use futures::task::{Context, Source, Waker};
use std::mem;

impl WaitList<TaskWaker> {
    /// Returns whether the list must grow before it can store the waker of the future that has this
    /// `Place`. The list must grow if this future holds no place in the list, and no place is free.
    #[inline(always)]
    pub fn is_new(&self, place: &Place) -> bool
        ensures { Holds self.now place.now → result ≡ false }
    {
        place.round != self.round && self.free.get() == 0
    }

    /// Stores the waker of the task with this number at the end of the list, and sets `place` to
    /// the position of the waker. If there is no memory to grow the list, the waker is returned in
    /// the error.
    #[inline(always)]
    #[tactic(auto, using(crate::proofs::Places::at_last))]
    pub fn store_new(
        &mut self,
        place: &mut Place,
        task: usize,
        waker: TaskWaker,
    ) -> Result<(), TaskWaker>
        ensures stored { OnOk result (self.new.wakers ≡ self.old.wakers ++ waker ∷ []) }
        ensures held { OnOk result (Holds self.new place.new) }
        ensures last { OnOk result (place.new.index ≡ length self.old.wakers) }
        ensures seated { OnOk result (slice_get self.new.wakers place.new.index ≡ Some waker) }
        ensures takes_room { OnOk result (self.old.room - 1 ≤ self.new.room) }
        ensures first_is_added { self.old.wakers ≡ [] → IsOk result }
        ensures room_suffices { 0 < self.old.room → IsOk result }
        ensures places_stay { self.new.round ≡ self.old.round }
        ensures place_stays { OnErr result (place.new ≡ place.old) }
        ensures unchanged { OnErr result (self.new ≡ self.old) }
    {
        let index = self.len();
        self.add(waker)?;
        let round = self.round;
        *place = Place { round, index, task };
        Ok(())
    }

    /// Registers the task with the waker in this place, where the waker lies. Does so only if the
    /// future holds the place, and stored the waker of a task with the same number. Returns whether
    /// it did.
    ///
    /// A task of another queue can have the same number. Then the waker in the place is replaced,
    /// and the task of the old one is woken.
    #[inline(always)]
    pub fn renew(&mut self, place: &Place, source: &Source, cx: &mut Context<'_>) -> bool
        ensures armed { IsTrue result → IsArmed cx.new }
        ensures heard { IsTrue result → Hears cx.new source.now.id }
        ensures kept { Keeps cx.old cx.new }
        ensures renewed { IsTrue result
            → Renews self.old.wakers place.now.index cx.old cx.new self.new.wakers }
        ensures unchanged { result ≡ false → (self.new ≡ self.old) × (cx.new ≡ cx.old) }
        ensures rest_stays { (self.new.room ≡ self.old.room) × (self.new.round ≡ self.old.round) }
    {
        if place.round != self.round || !place.is_of(cx.task()) {
            return false;
        }
        match (place.index.checked_sub(1), &mut self.first) {
            (None, Some(first)) => first.renew(source, cx),
            (Some(index), _) if index < self.rest.len() => self.rest[index].renew(source, cx),
            _ => return false,
        }
        true
    }

    /// Takes the waker out of this place. If the future holds no place in the list, takes over a
    /// free place, and takes out the waker that is there. That waker may be another task's. Returns
    /// `None` if no place is free.
    #[inline(always)]
    pub fn take_back(&mut self, place: &mut Place) -> Option<Waker>
        ensures held { OnSome result (Holds self.new place.new) }
        ensures kept { Holds self.old place.old → place.new ≡ place.old }
        ensures taken { IfSome result (λ waker.
            Swaps self.old.wakers place.new.index (Some waker) None self.new.wakers) }
        ensures unchanged { IfNone result (self.new ≡ self.old) }
        ensures rest_stays { (self.new.room ≡ self.old.room) × (self.new.round ≡ self.old.round) }
    {
        let index = self.claim(place)?;
        self.take_out(index)
    }

    /// Stores a waker in this place. If the future holds no place in the list, takes over a free
    /// place. If no place is free, adds one at the end of the list. Returns the waker that was
    /// there, if any. Dropping the returned waker wakes its task. If there is no memory to grow the
    /// list, the new waker is returned in the error.
    #[inline(always)]
    #[tactic(auto, using(crate::proofs::Places::at_swapped))]
    pub fn store(
        &mut self,
        place: &mut Place,
        waker: TaskWaker,
    ) -> Result<Option<TaskWaker>, TaskWaker>
        ensures stored { IfOk result (λ before. MatchOption before
            (self.new.wakers ≡ self.old.wakers ++ waker ∷ [])
            (λ there. Swaps self.old.wakers place.new.index there waker self.new.wakers)) }
        ensures seated { OnOk result (slice_get self.new.wakers place.new.index ≡ Some waker) }
        ensures room_stays { IsSome (displaced result) → self.new.room ≡ self.old.room }
        ensures held { OnOk result (Holds self.new place.new) }
        ensures kept { Holds self.old place.old → IsOk result × (place.new ≡ place.old) }
        ensures takes_room { OnOk result (self.old.room - 1 ≤ self.new.room) }
        ensures first_is_added { self.old.wakers ≡ [] → IsOk result }
        ensures room_suffices { 0 < self.old.room → IsOk result }
        ensures places_stay { self.new.round ≡ self.old.round }
        ensures place_stays { OnErr result (place.new ≡ place.old) }
        ensures unchanged { OnErr result (self.new ≡ self.old) }
    {
        match self.claim(place) {
            Some(index) => self.exchange(index, waker).map(Some),
            None => {
                let task = place.task; // It stays: the waker may be another task's.
                self.store_new(place, task, waker)?;
                Ok(None)
            }
        }
    }

    /// Gives up the place, which is free from then on. Needs only `&self`. The waker stays in the
    /// place, because dropping the waker would wake the task. Returns the index of the place, or
    /// `None` if the place was already given up.
    pub fn vacate(&self, place: Place) -> Option<usize>
        ensures held { IsSome result ↔ Holds self.now place }
        ensures there { IfSome result (λ index. index ≡ place.index) }
    {
        if place.round != self.round {
            return None;
        }
        let index = place.index;
        self.at(index)?.leave_before(self.free.get());
        self.free.set(index.saturating_add(1));
        Some(index)
    }

    /// Takes out the waker that was left in the place at `index`. Returns `None` if a future holds
    /// this place.
    pub fn take_left(&mut self, index: usize) -> Option<Waker>
        ensures in_the_list { OnSome result (index < length self.old.wakers) }
        ensures taken { IfSome result (λ waker.
            Swaps self.old.wakers index (Some waker) None self.new.wakers) }
        ensures unchanged { IfNone result (self.new ≡ self.old) }
        ensures rest_stays { (self.new.room ≡ self.old.room) × (self.new.round ≡ self.old.round) }
    {
        if self.at(index)?.is_held() {
            return None;
        }
        self.take_out(index)
    }

    /// Returns the index of this place. If there is none, takes over a free place, and returns its
    /// index. Returns `None` if no place is free.
    #[inline(always)]
    fn claim(&self, place: &mut Place) -> Option<usize>
        ensures held { IfSome result (λ index.
            Holds self.now place.new × (index ≡ place.new.index)) }
        ensures kept { Holds self.now place.old → IsSome result × (place.new ≡ place.old) }
        ensures unchanged { IfNone result (place.new ≡ place.old) }
    {
        if place.round == self.round {
            self.at(place.index)?;
            return Some(place.index);
        }
        let index = self.free.get().checked_sub(1)?;
        self.free.set(self.at(index)?.hold());
        place.round = self.round;
        place.index = index;
        Some(index)
    }

    /// Takes the waker at `index` out, if it is not taken out already.
    fn take_out(&mut self, index: usize) -> Option<Waker>
        ensures in_the_list { OnSome result (index < length self.old.wakers) }
        ensures taken { IfSome result (λ waker.
            Swaps self.old.wakers index (Some waker) None self.new.wakers) }
        ensures unchanged { IfNone result (self.new ≡ self.old) }
        ensures rest_stays { (self.new.room ≡ self.old.room) × (self.new.round ≡ self.old.round) }
    {
        match (index.checked_sub(1), &mut self.first) {
            (None, Some(first)) => first.take(),
            (Some(index), _) if index < self.rest.len() => self.rest[index].take(),
            _ => None,
        }
    }

    /// Returns the waker at `index`, if there is one.
    fn at(&self, index: usize) -> Option<&TaskWaker>
        ensures in_the_list { IsSome result ↔ (index < length self.now.wakers) }
    {
        match index.checked_sub(1) {
            None => self.first.as_ref(),
            Some(index) => self.rest.get(index),
        }
    }

    /// Stores a waker at `index`, and returns the one that was there. If there was none, returns
    /// the waker in the error.
    fn exchange(&mut self, index: usize, waker: TaskWaker) -> Result<TaskWaker, TaskWaker>
        ensures in_the_list { IsOk result ↔ (index < length self.old.wakers) }
        ensures swapped { IfOk result (λ before.
            Swaps self.old.wakers index before waker self.new.wakers) }
        ensures unchanged { OnErr result (self.new ≡ self.old) }
        ensures rest_stays { (self.new.room ≡ self.old.room) × (self.new.round ≡ self.old.round) }
    {
        match (index.checked_sub(1), &mut self.first) {
            (None, Some(first)) => Ok(mem::replace(first, waker)),
            (Some(index), _) if index < self.rest.len() => {
                Ok(mem::replace(&mut self.rest[index], waker))
            }
            _ => Err(waker),
        }
    }
}
