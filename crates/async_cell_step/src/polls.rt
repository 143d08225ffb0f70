//! Polls, generic over the store of the core. A poll gives an answer, or registers the task and
//! adds the task's waker to the wait list. If the polled future has a place in the wait list, the
//! waker goes to that place. This module also has the functions that give up a future's place when
//! the future ends. Dropping a waker wakes its task, so no waker is dropped during a step, but for
//! the one that `renew` tells of.
ghost use Rattle.std.specs.Prelude.{◌≡◌, Err, IfErr, IfOk, IsOk, OnOk};
ghost use Rattle.futures.specs.Poll.{IfReady, OnPending};
ghost use Rattle.futures.specs.Task.{Hears, IsArmed, Keeps};
ghost use Rattle.async_cell_model.specs.Refusal.{FailsWithMemory, FailsWithMemoryOrClosed};
ghost use Rattle.async_cell_step.specs.Seat.{Waits, WaitsAt};

use crate::ended::{Deferred, end, open_holding};
use crate::opened;
use crate::room::{Query, Room};
use crate::store::{Opens, Step, StoredCore, Stores};
use crate::with::At;
use async_cell_model::Refusal;
use async_cell_wakers::{Place, TaskWaker};
use futures::task::{Context, Poll, Source};

/// Answers the query. If the query has no answer yet, registers the task to be woken. `place` is
/// the future's place in the wait list, if the future has one. Fails with `Memory` if there is no
/// memory for the task's waker, or to grow the list. If the store cannot lend the core now, asks to
/// be polled again.
#[inline(always)]
pub fn poll<'a, C: Room, M: Stores<Core = C>, Q: Query<C>, R: Opens<'a, M>>(
    store: &'a StoredCore<M>,
    source: &Source,
    query: Q,
    place: At<'_>,
    cx: &mut Context<'_>,
    rt: &R,
) -> Poll<Result<Q::Answer, Refusal>>
    requires asks { Q.asks query }
    ensures gives { IfReady result (λ answer. IfOk answer (λ given. Q.gives query given)) }
    ensures closed { IfReady result (λ answer. IfErr answer (λ why. why ≡ Refusal.Closed
        → (core : C) × Q.closed core)) }
    ensures armed { OnPending result (IsArmed cx.new) }
    ensures heard { OnPending result (Hears cx.new source.now.id) }
    ensures waits { OnPending result (Waits C.waiting cx.old cx.new) }
    ensures kept { Keeps cx.old cx.new }
    ensures refused { IfReady result FailsWithMemoryOrClosed }
{
    let mut step = opened!(rt, store, else return cx.yield_now());
    if !query.must_wait(step.core()) {
        if let Some(place) = place {
            place.forget();
        }
        let answer = query.answer(step.lend());
        return Poll::Ready(end(step, answer));
    }
    let Some(place) = place else {
        return waits(add(step, source, cx));
    };
    if step.core().is_new(place) {
        return waits(add_at(step, source, place, cx));
    }
    renew(store, step, source, query, place, cx, rt)
}

/// Registers the task, and adds its waker at the end of the list. The waker is a new one, so
/// nothing is dropped and nobody is woken during the step. Fails with `Memory` if there is no
/// memory for the waker or to grow the list.
fn add<C: Room, G: Step<Core = C>>(
    mut step: G,
    source: &Source,
    cx: &mut Context<'_>,
) -> Result<(), Refusal>
    requires { C.vacant (G.core_of step) }
    ensures armed { IsArmed cx.new }
    ensures heard { Hears cx.new source.now.id }
    ensures waits { OnOk result (Waits C.waiting cx.old cx.new) }
    ensures kept { Keeps cx.old cx.new }
    ensures refused { FailsWithMemory result }
{
    let mut new = None;
    let _ = cx.register::<()>(source, &mut new);
    let Some(waker) = new else {
        return end(step, Deferred::of(Err(Refusal::Memory)));
    };
    let stored = step
        .lend()
        .store_new(&mut Place::new(), 0, TaskWaker::of(waker)); // Nobody keeps the place.
    match end(step, stored) {
        Ok(()) => Ok(()),
        Err(_unused) => Err(Refusal::Memory),
    }
}

/// As `add`. `place` is the waker's position from then on.
fn add_at<C: Room, G: Step<Core = C>>(
    mut step: G,
    source: &Source,
    place: &mut Place,
    cx: &mut Context<'_>,
) -> Result<(), Refusal>
    requires { C.vacant (G.core_of step) }
    ensures armed { IsArmed cx.new }
    ensures heard { Hears cx.new source.now.id }
    ensures waits { OnOk result (WaitsAt C.waiting place.new.index cx.old cx.new) }
    ensures kept { Keeps cx.old cx.new }
    ensures refused { FailsWithMemory result }
{
    let mut made = None;
    let _ = cx.register::<()>(source, &mut made);
    let Some(waker) = made else {
        return end(step, Deferred::of(Err(Refusal::Memory)));
    };
    let stored = step
        .lend()
        .store_new(place, cx.task(), TaskWaker::of(waker));
    match end(step, stored) {
        Ok(()) => Ok(()),
        Err(_unused) => Err(Refusal::Memory),
    }
}

/// Registers the task in this step, with the waker where it lies in the place, if the future stored
/// there the waker of a task with the same number. Registering drops no waker that is this task's.
/// But numbers are counted by each queue of tasks, and the kit does not tell which queue a waker is
/// of. So if the future has moved to a task of another queue with the same number, its old waker is
/// dropped during the step, which wakes the old task. That runs no code but the kit's. Else as
/// `renew_moved`.
#[inline(never)]
fn renew<'a, C: Room, M: Stores<Core = C>, Q: Query<C>, R: Opens<'a, M>>(
    store: &'a StoredCore<M>,
    mut step: R::Open,
    source: &Source,
    query: Q,
    place: &mut Place,
    cx: &mut Context<'_>,
    rt: &R,
) -> Poll<Result<Q::Answer, Refusal>>
    requires asks { Q.asks query }
    ensures gives { IfReady result (λ answer. IfOk answer (λ given. Q.gives query given)) }
    ensures closed { IfReady result (λ answer. IfErr answer (λ why. why ≡ Refusal.Closed
        → (core : C) × Q.closed core)) }
    ensures armed { OnPending result (IsArmed cx.new) }
    ensures heard { OnPending result (Hears cx.new source.now.id) }
    ensures waits { OnPending result (WaitsAt C.waiting place.new.index cx.old cx.new) }
    ensures kept { Keeps cx.old cx.new }
    ensures refused { IfReady result FailsWithMemoryOrClosed }
{
    if step.lend().renew(&*place, source, cx) {
        end(step, Deferred::of(()));
        return Poll::Pending;
    }
    renew_moved(store, step, source, query, place, cx, rt)
}

/// Takes the waker out of the place, registers the task with it, and stores it again. If the waker
/// was another task's, registering drops it, which wakes that task. So the task is registered
/// between two steps.
#[inline(never)]
fn renew_moved<'a, C: Room, M: Stores<Core = C>, Q: Query<C>, R: Opens<'a, M>>(
    store: &'a StoredCore<M>,
    mut step: R::Open,
    source: &Source,
    query: Q,
    place: &mut Place,
    cx: &mut Context<'_>,
    rt: &R,
) -> Poll<Result<Q::Answer, Refusal>>
    requires asks { Q.asks query }
    ensures gives { IfReady result (λ answer. IfOk answer (λ given. Q.gives query given)) }
    ensures closed { IfReady result (λ answer. IfErr answer (λ why. why ≡ Refusal.Closed
        → (core : C) × Q.closed core)) }
    ensures armed { OnPending result (IsArmed cx.new) }
    ensures heard { OnPending result (Hears cx.new source.now.id) }
    ensures waits { OnPending result (WaitsAt C.waiting place.new.index cx.old cx.new) }
    ensures kept { Keeps cx.old cx.new }
    ensures refused { IfReady result FailsWithMemoryOrClosed }
{
    let waker = step.lend().take_back(place);
    let mut slot = end(step, waker);
    let _ = cx.register::<()>(source, &mut slot);
    let Some(waker) = slot else {
        return Poll::Ready(Err(Refusal::Memory));
    };
    let Some((mut step, waker)) = open_holding(store, waker, rt) else {
        return cx.yield_now();
    };
    // Between the two steps the core may have been written to, or closed.
    if !query.must_wait(step.core()) {
        place.forget();
        let answer = query.answer(step.lend());
        let (answer, _unused) = end(step, answer.and(waker));
        return Poll::Ready(answer);
    }
    let stored = waker.store_in(step.lend(), place);
    match end(step, stored) {
        Ok(_before) => {
            place.note(cx.task());
            Poll::Pending
        }
        Err(_unused) => Poll::Ready(Err(Refusal::Memory)),
    }
}

/// The answer of a poll that has to wait.
#[inline(always)]
fn waits<A>(added: Result<(), Refusal>) -> Poll<Result<A, Refusal>>
    requires { FailsWithMemory added }
    ensures added { OnPending result (IsOk added) }
    ensures refused { IfReady result (λ answer. answer ≡ Err Refusal.Memory) }
{
    match added {
        Ok(()) => Poll::Pending,
        Err(why) => Poll::Ready(Err(why)),
    }
}

#[doc(hidden)]
impl<M: Stores<Core: Room>> StoredCore<M> {
    /// Drops each waker that a dropped future left in the wait list.
    pub fn purge<'a, R: Opens<'a, M>>(&'a self, rt: &R) {
        for index in 0..self.places(rt) {
            if let Some(mut step) = rt.open(self) {
                let left = step.lend().take_left(index);
                drop(end(step, left));
            }
        }
    }

    /// Returns the number of places in the wait list.
    pub fn places<'a, R: Opens<'a, M>>(&'a self, rt: &R) -> usize {
        let Some(step) = rt.open(self) else {
            return 0;
        };
        let places = step.core().places();
        end(step, Deferred::of(places))
    }

    /// Gives up the place of a future that is dropped.
    #[inline(always)]
    pub fn vacate<'a, R: Opens<'a, M>>(&'a self, place: Place, rt: &R) {
        if place.was_held() {
            self.vacate_held(place, rt);
        }
    }

    /// As `vacate`, for a place that may still be held.
    #[inline(never)]
    fn vacate_held<'a, R: Opens<'a, M>>(&'a self, place: Place, rt: &R) {
        if let Some(mut step) = rt.open(self) {
            let _ = step.lend().vacate(place);
            end(step, Deferred::of(()));
        }
    }

    /// Gives up the place of a future that is cancelled, and drops its waker.
    pub fn cancel<'a, R: Opens<'a, M>>(&'a self, place: Place, rt: &R) {
        if !place.was_held() {
            return;
        }
        let Some(mut step) = rt.open(self) else {
            return;
        };
        let left = match step.lend().vacate(place) {
            Some(index) => step.lend().take_left(index),
            None => Deferred::of(None),
        };
        drop(end(step, left));
    }
}
