//! The places of waiting futures, and wakers that are never skipped.
ghost use Rattle.std.specs.Prelude.{◌≡◌, ◌<◌, ◌≤◌, ◌-◌, [], ◌∷◌, ◌++◌, slice_get, Some, None, true, false, IsTrue, IsOk, IsSome, IfOk, IfSome, IfNone, OnOk, OnErr, MatchOption};
ghost use Rattle.async_cell_model.specs.Machine.{is_vacant};
ghost use Rattle.futures.specs.Task.{Hears, IsArmed, Keeps};
ghost use Rattle.async_cell_wakers.specs.Place.{Renews, Swaps, displaced};
ghost use Rattle.async_cell_core.specs.IsStep.{IsStep, wait_answer};

use super::Core;
use async_cell_model::Kept;
use async_cell_wakers::{Place, TaskWaker, Wakes};
use futures::task::{Context, Source, Waker};

impl<T: Drop> Core<T, TaskWaker> {
    /// As `WaitList::is_new`.
    #[doc(hidden)]
    #[inline(always)]
    pub fn is_new(&self, place: &Place) -> bool {
        self.waiting.is_new(place)
    }

    /// Adds the waker of the task with this number at the end of the list, for a poll that has to
    /// wait. The cell must be vacant. `place` is the waker's position from then on. If there is no
    /// memory to grow the list, the waker is returned in the error.
    #[doc(hidden)]
    #[inline(always)]
    #[tactic(auto, using(async_cell_model::proofs::OneMoreWaker::keep_added, async_cell_model::proofs::OneMoreWaker::never_skipped))]
    pub fn store_new(
        &mut self,
        place: &mut Place,
        task: usize,
        waker: TaskWaker,
    ) -> Result<(), TaskWaker>
        requires vacant { is_vacant self.old.cell ≡ true }
        ensures take { IsStep ⟦<TaskWaker as Wakes>⟧
            self.old (Kept.PollTake waker) (wait_answer result) self.new }
        ensures get { IsStep ⟦<TaskWaker as Wakes>⟧
            self.old (Kept.PollGet waker) (wait_answer result) self.new }

        ensures cell_stays { self.new.cell ≡ self.old.cell }
        ensures stored { OnOk result (self.new.waiting ≡ self.old.waiting ++ waker ∷ []) }
        ensures seated { OnOk result (slice_get self.new.waiting place.new.index ≡ Some waker) }
        ensures takes_room { OnOk result (self.old.room - 1 ≤ self.new.room) }
        ensures first_waits { self.old.waiting ≡ [] → IsOk result }
        ensures room_suffices { 0 < self.old.room → IsOk result }
        ensures place_stays { OnErr result (place.new ≡ place.old) }
        ensures unchanged { OnErr result (self.new ≡ self.old) }
    {
        self.waiting.store_new(place, task, waker)
    }

    /// As `WaitList::renew`.
    #[doc(hidden)]
    #[inline(always)]
    pub fn renew(&mut self, place: &Place, source: &Source, cx: &mut Context<'_>) -> bool
        ensures armed { IsTrue result → IsArmed cx.new }
        ensures heard { IsTrue result → Hears cx.new source.now.id }
        ensures kept { Keeps cx.old cx.new }
        ensures renewed { IsTrue result
            → Renews self.old.waiting place.now.index cx.old cx.new self.new.waiting }
        ensures unchanged { result ≡ false → (self.new ≡ self.old) × (cx.new ≡ cx.old) }
        ensures rest_stays { (self.new.cell ≡ self.old.cell) × (self.new.room ≡ self.old.room) }
    {
        self.waiting.renew(place, source, cx)
    }

    /// As `WaitList::take_back`.
    #[doc(hidden)]
    #[inline(always)]
    pub fn take_back(&mut self, place: &mut Place) -> Option<Waker>
        ensures taken { IfSome result (λ waker.
            Swaps self.old.waiting place.new.index (Some waker) None self.new.waiting) }
        ensures unchanged { IfNone result (self.new ≡ self.old) }
        ensures rest_stays { (self.new.cell ≡ self.old.cell) × (self.new.room ≡ self.old.room) }
    {
        self.waiting.take_back(place)
    }

    /// As `WaitList::store`. The cell must be vacant.
    #[doc(hidden)]
    #[inline(always)]
    #[tactic(auto, using(async_cell_model::proofs::OneMoreWaker::keep_added, async_cell_model::proofs::OneMoreWaker::never_skipped))]
    pub fn store(
        &mut self,
        place: &mut Place,
        waker: TaskWaker,
    ) -> Result<Option<TaskWaker>, TaskWaker>
        requires vacant { is_vacant self.old.cell ≡ true }
        ensures take { IfNone (displaced result) (IsStep ⟦<TaskWaker as Wakes>⟧
            self.old (Kept.PollTake waker) (wait_answer result) self.new) }
        ensures get { IfNone (displaced result) (IsStep ⟦<TaskWaker as Wakes>⟧
            self.old (Kept.PollGet waker) (wait_answer result) self.new) }

        ensures cell_stays { self.new.cell ≡ self.old.cell }
        ensures stored { IfOk result (λ before. MatchOption before
            (self.new.waiting ≡ self.old.waiting ++ waker ∷ [])
            (λ there. Swaps self.old.waiting place.new.index there waker self.new.waiting)) }
        ensures seated { OnOk result (slice_get self.new.waiting place.new.index ≡ Some waker) }
        ensures room_stays { IsSome (displaced result) → self.new.room ≡ self.old.room }
        ensures takes_room { OnOk result (self.old.room - 1 ≤ self.new.room) }
        ensures first_waits { self.old.waiting ≡ [] → IsOk result }
        ensures room_suffices { 0 < self.old.room → IsOk result }
        ensures place_stays { OnErr result (place.new ≡ place.old) }
        ensures unchanged { OnErr result (self.new ≡ self.old) }
    {
        self.waiting.store(place, waker)
    }

    /// As `WaitList::vacate`.
    #[doc(hidden)]
    pub fn vacate(&mut self, place: Place) -> Option<usize>
        ensures unchanged { self.new ≡ self.old }
    {
        self.waiting.vacate(place)
    }

    /// As `WaitList::take_left`.
    #[doc(hidden)]
    pub fn take_left(&mut self, index: usize) -> Option<Waker>
        ensures taken { IfSome result (λ waker.
            Swaps self.old.waiting index (Some waker) None self.new.waiting) }
        ensures unchanged { IfNone result (self.new ≡ self.old) }
        ensures rest_stays { (self.new.cell ≡ self.old.cell) × (self.new.room ≡ self.old.room) }
    {
        self.waiting.take_left(index)
    }
}
