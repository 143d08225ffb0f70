//! What a poll needs from a core (`Room`), and what the poll asks of the core (`Query`).
ghost use Rattle.std.specs.Prelude.{◌≡◌, ◌<◌, ◌≤◌, ◌-◌, ⊤, ℕ, false, List, [], ◌∷◌, ◌++◌, Some, None, slice_get, IsTrue, IsOk, IfOk, IfErr, IfSome, IfNone, OnOk, OnErr, MatchOption};
ghost use Rattle.futures.specs.Task.{Hears, IsArmed, Keeps};
ghost use Rattle.async_cell_model.specs.Refusal.{FailsWithMemoryOrClosed};
ghost use Rattle.async_cell_wakers.specs.Place.{Renews, Swaps};
ghost use Rattle.async_cell_wakers.specs.declared.task_waker.TaskWaker.{TaskWaker};

use crate::ended::Deferred;
use async_cell_model::Refusal;
use async_cell_wakers::{Place, TaskWaker};
use futures::task::{Context, Source, Waker};

/// The calls of a core for futures that wait. Dropping a waker wakes its task, so a waker that is
/// not stored is held until the step ends.
pub trait Room {
    /// A waker can be stored: a poll has to wait.
    ghost vacant: { Self → Type 0 };

    /// The wakers that wait, in order.
    ghost waiting: { Self → List TaskWaker };

    /// How many more can be added without memory.
    ghost room: { Self → ℕ };

    /// All but the wakers that wait is the same in both.
    ghost stays: { Self → Self → Type 0 };

    /// Returns whether the list must grow for the future that `place` belongs to. This is so if the
    /// future holds no place in the list, and no place is free.
    fn is_new(&self, place: &Place) -> bool;

    /// Adds the waker of the task with this number at the end of the list. `place` is the waker's
    /// position from then on. If there is no memory to grow the list, the waker comes back.
    fn store_new(
        &mut self,
        place: &mut Place,
        task: usize,
        waker: TaskWaker,
    ) -> Deferred<Result<(), TaskWaker>>
        requires { vacant self.old }
        ensures stored { OnOk result.answer
            (waiting self.new ≡ waiting self.old ++ waker ∷ []) }
        ensures seated { OnOk result.answer
            (slice_get (waiting self.new) place.new.index ≡ Some waker) }
        ensures takes_room { OnOk result.answer (room self.old - 1 ≤ room self.new) }
        ensures first_waits { waiting self.old ≡ [] → IsOk result.answer }
        ensures room_suffices { 0 < room self.old → IsOk result.answer }
        ensures place_stays { OnErr result.answer (place.new ≡ place.old) }
        ensures unchanged { OnErr result.answer (self.new ≡ self.old) };

    /// Registers the task with the waker in this place, where the waker lies. Does so only if the
    /// future holds the place, and stored the waker of a task with the same number. Returns whether
    /// it did.
    fn renew(&mut self, place: &Place, source: &Source, cx: &mut Context<'_>) -> bool
        ensures armed { IsTrue result → IsArmed cx.new }
        ensures heard { IsTrue result → Hears cx.new source.now.id }
        ensures kept { Keeps cx.old cx.new }
        ensures renewed { IsTrue result
            → Renews (waiting self.old) place.now.index cx.old cx.new (waiting self.new) }
        ensures stays { stays self.old self.new }
        ensures unchanged { result ≡ false → (self.new ≡ self.old) × (cx.new ≡ cx.old) };

    /// Takes the waker out of this place. If the future holds no place in the list, takes over a
    /// free place, and takes out the waker that is there. That waker may be another task's. The
    /// result holds `None` if no place is free.
    fn take_back(&mut self, place: &mut Place) -> Deferred<Option<Waker>>
        ensures taken { IfSome result.answer (λ waker. Swaps
            (waiting self.old) place.new.index (Some waker) None (waiting self.new)) }
        ensures stays { stays self.old self.new }
        ensures unchanged { IfNone result.answer (self.new ≡ self.old) };

    /// Stores a waker in this place. If the future holds no place in the list, takes over a free
    /// place. If no place is free, adds one at the end of the list. Returns the waker that was
    /// there, if any. If there is no memory to grow the list, the waker comes back.
    fn store(
        &mut self,
        place: &mut Place,
        waker: TaskWaker,
    ) -> Deferred<Result<Option<TaskWaker>, TaskWaker>>
        requires { vacant self.old }
        ensures stored { IfOk result.answer (λ before. MatchOption before
            (waiting self.new ≡ waiting self.old ++ waker ∷ [])
            (λ there. Swaps (waiting self.old) place.new.index there waker (waiting self.new)
            × stays self.old self.new)) }
        ensures seated { OnOk result.answer
            (slice_get (waiting self.new) place.new.index ≡ Some waker) }
        ensures takes_room { OnOk result.answer (room self.old - 1 ≤ room self.new) }
        ensures first_waits { waiting self.old ≡ [] → IsOk result.answer }
        ensures room_suffices { 0 < room self.old → IsOk result.answer }
        ensures place_stays { OnErr result.answer (place.new ≡ place.old) }
        ensures unchanged { OnErr result.answer (self.new ≡ self.old) };

    /// Gives up the place, with its waker in it. Returns its index, or `None` if the place was
    /// already given up.
    fn vacate(&mut self, place: Place) -> Option<usize>;

    /// Takes out the waker that was left in the place at `index`. The result holds `None` if a
    /// future has this place.
    fn take_left(&mut self, index: usize) -> Deferred<Option<Waker>>
        ensures taken { IfSome result.answer (λ waker. Swaps
            (waiting self.old) index (Some waker) None (waiting self.new)) };

    /// Returns the number of places in the wait list.
    fn places(&self) -> usize;
}

/// What a poll asks of a core.
pub trait Query<C: Room>: Drop {
    /// What the poll returns.
    type Answer;

    /// What has to be known for it to be asked.
    ghost asks: { Self → Type 0 } = { λ _. ⊤ };

    /// What is known of the answer.
    ghost gives: { Self → Self.Answer → Type 0 } = { λ _ _. ⊤ };

    /// The states in which it has an answer.
    ghost ready: { C → Type 0 } = { λ _. ⊤ };

    /// The states in which the answer may be `Closed`.
    ghost closed: { C → Type 0 } = { λ _. ⊤ };

    /// Returns whether a poll has to wait.
    fn must_wait(&self, core: &C) -> bool
        ensures open { IsTrue result → C.vacant core.now }
        ensures ready { result ≡ false → ready core.now };

    /// Makes the answer of a poll that need not wait.
    fn answer(self, core: &mut C) -> Deferred<Result<Self::Answer, Refusal>>
        requires asks { asks self }
        requires ready { ready core.old }
        ensures gives { IfOk result.answer (λ answer. gives self answer) }
        ensures closed { IfErr result.answer (λ why. why ≡ Refusal.Closed → closed core.old) }
        ensures refused { FailsWithMemoryOrClosed result.answer };
}
