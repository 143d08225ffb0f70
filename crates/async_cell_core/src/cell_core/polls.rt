//! Polls and gets: the calls that wait, and those that copy the value.
ghost use Rattle.std.specs.Prelude.{◌≡◌, ◌≤◌, ◌<◌, [], ◌∷◌, ◌++◌, None, Ok, length, true, false, IsOk, IfOk, OnOk, OnErr, MatchOption};
ghost use Rattle.async_cell_model.specs.{Machine.{content, is_closed, is_full, is_vacant, IsSound, wait_list, skips, needs_no_memory}, Refusal.FailsWithMemory};
ghost use Rattle.async_cell_core.specs.{IsStep.{IsStep, IsStepUpTo, get_answer, poll_answer, wait_answer}, Polled.{IsExact, IsCloneOf, IsReadyWith}};
ghost use Rattle.async_cell_core.specs.Waiting.{NeedsNoMemory, OnlyRoomGrows};

use super::Core;
use async_cell_model::{Kept, Refusal};
use async_cell_wakers::Wakes;
use futures::task::Poll;
use std::alloc::AllocError;

impl<T: Drop, W: Wakes> Core<T, W> {
    /// Takes the value. If there is none yet, returns `Pending` and registers the waker: a clone of
    /// the waker is added at the end of the wait list, unless a waiting waker would wake its task
    /// (see `Wakes::will_wake`). Returns `Ready(None)` if the cell is closed. Fails with `Memory`
    /// if there is no memory for the clone or to grow the wait list.
    ///
    /// ```rust
    /// let mut core = Core::new_with(rt.alloc(), 7);
    /// println!(rt; "{:?}", core.poll_take(&Named(1))?)?; // prints Ready(Some(7))
    /// println!(rt; "{:?}", core.poll_take(&Named(1))?)?; // prints Pending
    /// ```
    pub fn poll_take(&mut self, waker: &W) -> Result<Poll<Option<T>>, Refusal>
        ensures model { IsStep W.Wakes
            self.old (Kept.PollTake waker.now) (poll_answer result) self.new }
        ensures ready { is_vacant self.old.cell ≡ false
            → result ≡ Ok (Poll.Ready (content self.old.cell)) }
        ensures leaves_none { OnOk result (content self.new.cell ≡ None) }
        ensures waits { is_vacant self.old.cell ≡ true
            → IfOk result (λ polled. (polled ≡ Poll.Pending)
            × (self.new.waiting ≡ wait_list W.will_wake (self.old.waiting ++ waker.now ∷ []))) }
        ensures spared { NeedsNoMemory W.Wakes self.old waker.now → IsOk result }
        ensures unchanged { OnErr result (OnlyRoomGrows self.old self.new) }
    {
        if self.is_vacant() {
            return self.wait(waker);
        }
        Ok(Poll::Ready(self.value.take()))
    }

    /// Makes room for `additional` more wakers. Until a fill or a close gives up the room, adding
    /// these wakers needs memory only for the clones of the wakers. Fails with `Memory` if there is
    /// no memory for this room. Does nothing if the cell is closed.
    pub fn reserve(&mut self, additional: usize) -> Result<(), Refusal>
        ensures cell_stays { self.new.cell ≡ self.old.cell }
        ensures waiting_stay { self.new.waiting ≡ self.old.waiting }
        ensures makes_room { is_closed self.old.cell ≡ false
            → OnOk result (additional ≤ self.new.room) }
        ensures keeps_room { self.old.room ≤ self.new.room }
        ensures refused { FailsWithMemory result }
        ensures closed { is_closed self.old.cell ≡ true → IsOk result × (self.new ≡ self.old) }
        ensures enough { additional ≤ self.old.room → IsOk result }
        ensures unchanged { OnErr result (self.new ≡ self.old) }
        ensures sound { IsSound W.will_wake self.new }
    {
        if self.is_closed() {
            return Ok(());
        }
        self.waiting.reserve(additional)?;
        Ok(())
    }

    /// Returns the number of waiting wakers.
    pub fn waiting(&self) -> usize
        ensures { result ≡ length self.now.waiting }
    {
        self.waiting.len()
    }

    /// Registers the waker, unless `skips` says that it need not be. Returns `Pending`. The cell
    /// must be vacant. Fails with `Memory` if there is no memory for a clone of the waker or to
    /// grow the list.
    #[tactic(auto, using(async_cell_model::proofs::OneMoreWaker::keep_added, async_cell_model::proofs::OneMoreWaker::keep_skipped, async_cell_model::proofs::WaitingPoll::get_skipped, async_cell_model::proofs::WaitingPoll::take_skipped))]
    pub(super) fn wait(&mut self, waker: &W) -> Result<Poll<Option<T>>, Refusal>
        requires { is_vacant self.old.cell ≡ true }
        ensures waits { IfOk result (λ polled. (polled ≡ Poll.Pending)
            × ((self.new.cell ≡ self.old.cell)
            × (self.new.waiting ≡ wait_list W.will_wake (self.old.waiting ++ waker.now ∷ [])))) }
        ensures refused { FailsWithMemory result }
        ensures unchanged { OnErr result (OnlyRoomGrows self.old self.new) }
        ensures take { IsStep W.Wakes
            self.old (Kept.PollTake waker.now) (poll_answer result) self.new }
        ensures get { IsStep W.Wakes
            self.old (Kept.PollGet waker.now) (poll_answer result) self.new }
        ensures spared { NeedsNoMemory W.Wakes self.old waker.now → IsOk result }
    {
        if !self.waiting.skips(waker) {
            self.add_unique(waker)?;
        }
        Ok(Poll::Pending)
    }

    /// Registers a waker for a poll that has to wait: adds a clone of it at the end of the list.
    /// The cell must be vacant. The list must hold no waker that would wake the same task as this
    /// waker. So the waiting wakers are not compared, and the time does not grow with their number.
    /// Fails with `Memory` if there is no memory for the clone or to grow the list.
    #[doc(hidden)]
    #[tactic(auto, using(async_cell_model::proofs::WaitingPoll::get_added, async_cell_model::proofs::WaitingPoll::get_refused, async_cell_model::proofs::WaitingPoll::take_added, async_cell_model::proofs::WaitingPoll::take_refused))]
    pub fn add_unique(&mut self, waker: &W) -> Result<(), Refusal>
        requires vacant { is_vacant self.old.cell ≡ true }
        requires unique { skips W.will_wake self.old.waiting waker.now ≡ false }
        ensures take { IsStep W.Wakes
            self.old (Kept.PollTake waker.now) (wait_answer result) self.new }
        ensures get { IsStep W.Wakes
            self.old (Kept.PollGet waker.now) (wait_answer result) self.new }

        ensures added { OnOk result ((self.new.cell ≡ self.old.cell)
            × (self.new.waiting ≡ self.old.waiting ++ waker.now ∷ [])) }
        ensures refused { FailsWithMemory result }
        ensures unchanged { OnErr result
            ((self.new.cell ≡ self.old.cell) × (self.new.waiting ≡ self.old.waiting)) }
        ensures keeps_room { OnErr result (self.old.room ≤ self.new.room) }
        ensures spared { needs_no_memory W.will_wake W.SURE_CLONE self.old waker.now ≡ true
            → IsOk result }
        ensures if_infallible { NeedsNoMemory W.Wakes self.old waker.now → IsOk result }
    {
        self.waiting.push(waker)?;
        Ok(())
    }
}

impl<T: Clone, W: Wakes> Core<T, W> {
    /// Returns a clone of the value, if there is one. Fails with `Memory` if there is no memory for
    /// the clone. The reply equals the model's reply up to clones. It is exactly the model's reply
    /// if the type's clones are exact.
    pub fn try_get(&self) -> Result<Option<T>, Refusal>
        ensures up_to_clones { IsStepUpTo T.is_clone W.Wakes
            self.now Kept.TryGet (get_answer result) self.now }
        ensures model { IsExact T.is_clone
            → IsStep W.Wakes self.now Kept.TryGet (get_answer result) self.now }
        ensures refused { OnErr result
            (IsStep W.Wakes self.now Kept.TryGet (get_answer result) self.now) }

        ensures gives { IsExact T.is_clone → IfOk result (λ copy. copy ≡ content self.now.cell) }
        ensures clones { IfOk result (IsCloneOf T.is_clone (content self.now.cell)) }
        ensures gives_none { is_full self.now.cell ≡ false → result ≡ Ok None }
        ensures if_infallible { MatchOption (content self.now.cell)
            (IsOk result) (λ value. T.is_infallible value → IsOk result) }
    {
        match &self.value {
            None => Ok(None),
            Some(value) => match value.clone() {
                Ok(copy) => Ok(Some(copy)),
                Err(AllocError) => Err(Refusal::Memory),
            },
        }
    }

    /// Returns a clone of the value and leaves the value in place. If there is no value yet,
    /// returns `Pending` and registers the waker as `poll_take` does. Returns `Ready(None)` if the
    /// cell is closed. Fails with `Memory` if there is no memory for the clone of the value or of
    /// the waker, or to grow the wait list.
    ///
    /// The reply equals the model's reply up to clones. It is exactly the model's reply if the
    /// type's clones are exact or there is no value.
    pub fn poll_get(&mut self, waker: &W) -> Result<Poll<Option<T>>, Refusal>
        ensures up_to_clones { IsStepUpTo T.is_clone W.Wakes
            self.old (Kept.PollGet waker.now) (poll_answer result) self.new }
        ensures model { IsExact T.is_clone
            → IsStep W.Wakes self.old (Kept.PollGet waker.now) (poll_answer result) self.new }
        ensures if_not_full { is_full self.old.cell ≡ false
            → IsStep W.Wakes self.old (Kept.PollGet waker.now) (poll_answer result) self.new }
        ensures refused { OnErr result
            (IsStep W.Wakes self.old (Kept.PollGet waker.now) (poll_answer result) self.new) }

        // A poll that need not wait.
        ensures gives { IsExact T.is_clone → is_vacant self.old.cell ≡ false
            → IfOk result (λ polled. polled ≡ Poll.Ready (content self.old.cell)) }
        ensures clones { is_vacant self.old.cell ≡ false
            → IfOk result (IsReadyWith (IsCloneOf T.is_clone (content self.old.cell))) }
        ensures if_infallible { is_vacant self.old.cell ≡ false
            → MatchOption (content self.old.cell) (IsOk result)
            (λ value. T.is_infallible value → IsOk result) }
        ensures stays { is_vacant self.old.cell ≡ false → self.new ≡ self.old }

        // A poll that has to wait.
        ensures waits { is_vacant self.old.cell ≡ true
            → IfOk result (λ polled. (polled ≡ Poll.Pending)
            × (self.new.waiting ≡ wait_list W.will_wake (self.old.waiting ++ waker.now ∷ []))) }
        ensures spared { is_vacant self.old.cell ≡ true
            → NeedsNoMemory W.Wakes self.old waker.now → IsOk result }
        ensures unchanged { OnErr result (OnlyRoomGrows self.old self.new) }
    {
        if self.is_vacant() {
            return self.wait(waker);
        }
        match self.try_get() {
            Ok(copy) => Ok(Poll::Ready(copy)),
            Err(why) => Err(why),
        }
    }
}
