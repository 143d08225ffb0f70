//! Polls: what a follower is told, and how its waker waits.
ghost use Rattle.std.specs.Prelude.{◌≡◌, ◌≢◌, ◌≤◌, ◌<◌, ◌↔◌, [], None, Some, Ok, true, false, IsOk, IfOk, IfErr, OnOk, OnErr};
ghost use Rattle.async_cell_model.specs.Machine.{with_one_more};
ghost use Rattle.async_cell_latest.specs.State.{IsSound, Stays, is_closed, is_waited_for};
ghost use Rattle.async_cell_latest.specs.Step.{PollChanged};
ghost use Rattle.async_cell_latest.specs.History.{needs_no_memory};
ghost use Rattle.async_cell_latest.specs.IsStep.{IsStep, changed_answer};

use super::Latest;
use async_cell_model::Refusal;
use async_cell_wakers::Wakes;
use futures::task::Poll;

impl<T: Drop, W: Wakes> Latest<T, W> {
    /// Returns whether the state's version differs from `seen`, the version that a follower has
    /// seen. It makes no difference whether the state is closed.
    pub fn is_unseen(&self, seen: u64) -> bool
        ensures { (result ≡ true) ↔ (seen ≢ self.now.version) }
    {
        seen != self.version
    }

    /// Returns what a poll would tell a follower that has seen the version `seen`:
    /// `Ready(Some(version))` if the state's version differs from `seen`, `Ready(None)` if the
    /// version equals `seen` and the state is closed, and `Pending` if a poll would wait. Registers
    /// nothing.
    pub fn changed_since(&self, seen: u64) -> Poll<Option<u64>>
        ensures model { (w : W) → is_waited_for self.now seen ≡ false → IsStep W.Wakes self.now
            (PollChanged seen w) (changed_answer self.now.value (Ok result)) self.now }

        ensures ready { seen ≢ self.now.version → result ≡ Poll.Ready (Some self.now.version) }
        ensures ended { seen ≡ self.now.version → is_closed self.now ≡ true
            → result ≡ Poll.Ready None }
        ensures pending { (result ≡ Poll.Pending) ↔ (is_waited_for self.now seen ≡ true) }
    {
        if self.is_unseen(seen) {
            return Poll::Ready(Some(self.version));
        }
        if self.is_closed() {
            return Poll::Ready(None);
        }
        Poll::Pending
    }

    /// Polls for a version other than `seen`, and returns it. The value can then be read. If the
    /// state is open and has no other version, returns `Pending` and registers the waker: a clone
    /// of the waker is added at the end of the wait list, unless a waiting waker would wake its
    /// task (see `Wakes::will_wake`). Returns `Ready(None)` if the state has no other version and
    /// is closed. Fails with `Memory` if there is no memory for the clone or to grow the wait list.
    pub fn poll_changed(&mut self, seen: u64, waker: &W) -> Result<Poll<Option<u64>>, Refusal>
        ensures model { IsStep W.Wakes self.old
            (PollChanged seen waker.now) (changed_answer self.old.value result) self.new }

        ensures ready { seen ≢ self.old.version
            → result ≡ Ok (Poll.Ready (Some self.old.version)) }
        ensures ended { seen ≡ self.old.version → is_closed self.old ≡ true
            → result ≡ Ok (Poll.Ready None) }
        ensures pending { is_waited_for self.old seen ≡ true
            → IfOk result (λ polled. polled ≡ Poll.Pending) }
        ensures waits { result ≡ Ok Poll.Pending
            → self.new.waiting ≡ with_one_more W.will_wake self.old.waiting waker.now }
        ensures spared { needs_no_memory W.will_wake W.SURE_CLONE self.old waker.now ≡ true
            → IsOk result }
        ensures first_waits { self.old.waiting ≡ [] → W.is_infallible waker.now → IsOk result }
        ensures room_suffices { 0 < self.old.room → W.is_infallible waker.now → IsOk result }
        ensures state_stays { Stays self.old self.new }
        ensures others_stay { is_waited_for self.old seen ≡ false → self.new ≡ self.old }
        ensures refused { IfErr result (λ why. why ≡ Refusal.Memory) }
        ensures unchanged { OnErr result (self.new.waiting ≡ self.old.waiting) }
        ensures keeps_room { OnErr result (self.old.room ≤ self.new.room) }
    {
        if let Poll::Ready(told) = self.changed_since(seen) {
            return Ok(Poll::Ready(told));
        }
        if !self.waiting.skips(waker) {
            self.waiting.push(waker)?;
        }
        Ok(Poll::Pending)
    }

    /// Makes room for `additional` more wakers. Until a write or the close gives up the room,
    /// adding these wakers needs memory only for the clones of the wakers. Fails with `Memory` if
    /// there is no memory for this room. Does nothing if the state is closed.
    pub fn reserve(&mut self, additional: usize) -> Result<(), Refusal>
        ensures state_stays { Stays self.old self.new }
        ensures waiting_stay { self.new.waiting ≡ self.old.waiting }
        ensures makes_room { is_closed self.old ≡ false
            → OnOk result (additional ≤ self.new.room) }
        ensures keeps_room { self.old.room ≤ self.new.room }
        ensures refused { IfErr result (λ why. why ≡ Refusal.Memory) }
        ensures closed { is_closed self.old ≡ true → IsOk result × (self.new ≡ self.old) }
        ensures enough { additional ≤ self.old.room → IsOk result }
        ensures unchanged { OnErr result (self.new ≡ self.old) }
        ensures sound { IsSound W.will_wake self.new }
    {
        if self.is_closed() {
            return Ok(());
        }
        self.waiting.reserve(additional)?;
        Ok(())
    }
}
