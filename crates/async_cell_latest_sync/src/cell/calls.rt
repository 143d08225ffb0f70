//! The calls that a step may make on a state. Only this module can access the state. Each function
//! makes one call on the state, and holds what the call returns until the step ends. So no other
//! code can wake a returned waker or drop a returned value during a step.
ghost use Rattle.std.specs.Prelude.{◌≡◌, List, [], ◌∷◌, ◌++◌, Bool, true, false, None, Some, Ok, IsOk, IfOk, IfErr, IsSome, OnOk, OnErr};
ghost use Rattle.std.specs.Fn.{FnOnceReturnsAt, FnOnceReturnsAtMut};
ghost use Rattle.async_cell_model.specs.Refusal.{FailsWithClosed, FailsWithMemory, IsOwnerRefusal};
ghost use Rattle.async_cell_step.specs.Rule.{IsCloneOfOne};
ghost use Rattle.async_cell_latest.specs.State.{Stays, is_closed};
ghost use Rattle.async_cell_wakers.specs.WaitList.{first_then};
ghost use Rattle.async_cell_wakers.specs.declared.task_waker.TaskWaker.{TaskWaker};
ghost use Rattle.async_cell_latest_sync.specs.Life.{Desk, GoesOn, IsNext, IsOf, TakesNoMore, permits_of};

use crate::history::Values;
use crate::permit::OwnerPermit;
use crate::{Blank, Protocol, Refusal, TaskWaker, Unruled, Witness};
use async_cell_latest::{Latest, Place, Wakers};
use async_cell_step::{Deferred, Query, Room, Writes};
use futures::task::{Context, Source, Waker};
use ghost_tokens::{Count, Log, Permit};
use std::alloc::Global;
use std::marker::Model;

/// A state, and the list of its values. Each write adds one value to the list. `LatestCore` hides
/// the state's own calls, because the values and wakers that these return could be dropped or woken
/// during a step. The calls of `LatestCore` return the values and wakers in a `Deferred`, which
/// holds them until the step ends.
#[derive(Drop)]
pub struct LatestCore<T, N: Protocol<T> = Unruled> {
    state: Latest<T, TaskWaker>,
    values: Values<T, N>,
    count: Count,
}

/// Contracts see the state, and its history (`Life`). The value of the state satisfies the rule. As
/// many permits are given out as the state has owners.
impl<T, N: Protocol<T>> Model for LatestCore<T, N> {
    ghost Value = { Desk T TaskWaker };

    ghost view = { λ c. record { state = c.state; life = c.values } };

    ghost invariant = { λ c. IsOf N.named N.holds c.state c.values
        × (c.count.out ≡ c.state.owners) × (c.count.name ≡ permits_of N.named)
        × (IsSome N.named → IsSome (permits_of N.named)) };
}

impl<T: Drop, N: Protocol<T>> LatestCore<T, N> {
    /// Makes the state that `N` names, with this value and one owner, and begins the list of the
    /// state's values. Gives the permit of the owner.
    pub(crate) fn begin(alloc: Global, value: T, blank: Blank<T>) -> (Self, OwnerPermit<T, N>)
        requires named { N.named ≡ Some blank }
        requires may { N.may [] value }
        ensures life { result.0.life ≡ record { values = value ∷ []; closed = false } }
    {
        let state = Latest::new(alloc, value);
        let (log, count, permit) = blank.into_parts();
        let values = Values::begin(log, &state);
        let core = LatestCore {
            state,
            values,
            count,
        };
        (core, OwnerPermit::of(permit))
    }

    /// As `begin`, for a state without a name: its owners' permits prove nothing.
    pub(crate) fn unnamed(alloc: Global, value: T) -> (Self, OwnerPermit<T, N>)
        requires unnamed { N.named ≡ None }
        requires may { N.may [] value }
    {
        let state = Latest::new(alloc, value);
        let values = Values::begin(Log::open(), &state);
        let core = LatestCore {
            state,
            values,
            count: Count::blind(1),
        };
        (core, OwnerPermit::of(Permit::blind()))
    }

    /// Does nothing. Its contract states that the state is open, because `permit` belongs to an
    /// owner.
    #[inline(always)]
    #[tactic(auto, using(crate::proofs::Lives::open_if_owned))]
    pub(crate) fn proves_open(&mut self, permit: &OwnerPermit<T, N>)
        ensures stays { self.new ≡ self.old }
        ensures open { IsSome N.named → is_closed self.old.state ≡ false }
    {
        self.count.proves_counted(permit.permit());
    }

    /// Makes a witness that has seen the whole life of the state: the state's values so far, and
    /// whether the state is closed.
    pub(crate) fn witness(&self) -> Witness<T, N>
        requires { IsSome N.named }
        ensures { result ≡ self.now.life }
    {
        Witness::of(&self.values, self.state.version())
    }

    /// Lets a witness see the whole life of the state: the state's values so far, and whether the
    /// state is closed. The clause `of_state` says that the witness then sees the life of this
    /// state.
    #[inline(always)]
    pub(crate) fn teach(&self, witness: &mut Witness<T, N>)
        ensures whole { witness.new ≡ self.now.life }
        ensures goes_on { GoesOn witness.old self.now.life }
        ensures of_state { IsOf N.named N.holds self.now.state self.now.life }
        ensures named { IsSome N.named }
    {
        witness.learn(&self.values, self.state.version());
    }

    /// Returns the version, and lends the value.
    #[inline(always)]
    pub(crate) fn read(&self) -> (u64, &T)
        ensures version { result.0 ≡ self.now.state.version }
        ensures gives { result.1.now ≡ self.now.state.value }
        ensures rule { N.holds result.1.now }
    {
        self.state.read()
    }

    /// Calls the closure on the value.
    pub(crate) fn look<A, F: FnOnce(&T) -> A>(&self, look: F) -> A
        requires { F.IsAlwaysCallable look }
        ensures called { FnOnceReturnsAt F.FnOnce look self.now.state.value result }
        ensures rule { N.holds self.now.state.value }
    {
        look(self.state.read().1)
    }

    /// Returns whether the state is closed: its last owner has ended.
    #[inline(always)]
    pub(crate) fn is_closed(&self) -> bool
        ensures { result ≡ is_closed self.now.state }
    {
        self.state.is_closed()
    }

    /// Returns the version, and a clone of the value. Fails with `Memory` if the clone fails.
    #[inline(always)]
    pub(crate) fn get(&self) -> Deferred<Result<(u64, T), Refusal>>
    where
        T: Clone,
        ensures version { IfOk result.answer (λ shown. shown.0 ≡ self.now.state.version) }
        ensures clones { IfOk result.answer (λ shown. T.is_clone self.now.state.value shown.1) }
        ensures rule { IfOk result.answer (λ shown. IsCloneOfOne T.is_clone N.holds shown.1) }
        ensures if_infallible { ((value : T) → T.is_infallible value) → IsOk result.answer }
        ensures refused { FailsWithMemory result.answer }
    {
        Deferred::of(self.state.get())
    }

    /// Writes the value, if the state takes it and at most one follower waits. Holds the old value,
    /// and the waker to wake. Otherwise holds `value` in the error.
    #[inline(always)]
    pub(crate) fn write_first(
        &mut self,
        value: T,
    ) -> Result<Deferred<T, Option<TaskWaker>>, Deferred<T>>
        requires may { N.may self.old.life.values value }
        ensures hands_out_all { IfOk result (λ held.
            self.old.state.waiting ≡ first_then held.woken []) }
        ensures comes_back { IfErr result (λ held. held.answer ≡ value) }
    {
        match self.state.write_first(value) {
            Ok((old, first)) => {
                self.values.add(&self.state);
                Ok(Deferred::waking(old, first))
            }
            Err(value) => Err(Deferred::of(value)),
        }
    }

    /// Lets the closure change the value, which is then the next value of the state. Holds what the
    /// closure returned, and the wakers to wake. Fails with `Closed` if the state takes no further
    /// value, and does not call the closure then.
    pub(crate) fn modify<A, F: FnOnce(&mut T) -> A + Drop>(
        &mut self,
        change: F,
    ) -> Deferred<Result<A, Refusal>, Option<Wakers<TaskWaker>>>
        requires callable { F.IsAlwaysCallable change }
        requires may { (before : List T) (old new : T) (answer : A) → N.holds old
            → FnOnceReturnsAtMut F.FnOnce change old answer new → N.may before new }
        ensures called { IfOk result.answer (λ answer. (old new : T)
            × FnOnceReturnsAtMut F.FnOnce change old answer new) }
        ensures hands_out_all { OnOk result.answer
            (result.woken ≡ Some self.old.state.waiting) }
        ensures refused { FailsWithClosed result.answer }
    {
        match self.state.modify(change) {
            Ok((answer, woken)) => {
                self.values.add(&self.state);
                Deferred::waking(Ok(answer), Some(woken))
            }
            Err(why) => Deferred::waking(Err(why), None),
        }
    }

    /// As `modify`, but the value counts as a further one, and wakes who waits, only if the closure
    /// returns `true`. May be called only on a state without a name, because a closure that
    /// returned `false` may have changed the value.
    pub(crate) fn modify_if<F: FnOnce(&mut T) -> bool + Drop>(
        &mut self,
        change: F,
    ) -> Deferred<Result<bool, Refusal>, Option<Wakers<TaskWaker>>>
        requires callable { F.IsAlwaysCallable change }
        requires unnamed { N.named ≡ None }
        requires may { (before : List T) (old new : T) (changed : Bool) → N.holds old
            → FnOnceReturnsAtMut F.FnOnce change old changed new → N.may before new }
        ensures called { IfOk result.answer (λ changed. (old new : T)
            × FnOnceReturnsAtMut F.FnOnce change old changed new) }
        ensures hands_out_all { result.answer ≡ Ok true
            → result.woken ≡ Some self.old.state.waiting }
        ensures refused { FailsWithClosed result.answer }
    {
        match self.state.modify_if(change) {
            Ok(Some(woken)) => {
                self.values.add(&self.state);
                Deferred::waking(Ok(true), Some(woken))
            }
            Ok(None) => Deferred::waking(Ok(false), None),
            Err(why) => Deferred::waking(Err(why), None),
        }
    }

    /// Adds an owner, and gives its permit. Fails with `OwnersFull` if there are 4,294,967,295
    /// owners, and with `Closed` if the state is closed.
    pub(crate) fn add_owner(&mut self) -> Deferred<Result<OwnerPermit<T, N>, Refusal>>
        ensures refused { IfErr result.answer IsOwnerRefusal }
        ensures open { is_closed self.old.state ≡ false
            → IfErr result.answer (λ why. ¬ (why ≡ Refusal.Closed)) }
    {
        match self.state.add_owner() {
            Ok(()) => Deferred::of(Ok(OwnerPermit::of(self.count.give()))),
            Err(why) => Deferred::of(Err(why)),
        }
    }

    /// Ends the owner with this permit. The end of the last one closes the state, and holds the
    /// wakers to wake.
    pub(crate) fn end_owner(
        &mut self,
        permit: OwnerPermit<T, N>,
    ) -> Deferred<(), Option<Wakers<TaskWaker>>>
        ensures hands_out_all { self.old.state.owners ≡ 1
            → result.woken ≡ Some self.old.state.waiting }
    {
        let ended = self.state.end_owner();
        self.count.take(permit.into_permit());
        if self.state.is_closed() {
            self.values.close();
        }
        Deferred::waking((), ended.ok())
    }
}

impl<T: Drop, N: Protocol<T>> Writes<T> for LatestCore<T, N> {
    type Old = T;

    type Waker = TaskWaker;

    ghost may = { λ value. (before : List T) → N.may before value };

    ghost gives = { N.holds };

    #[inline(always)]
    fn write(&mut self, value: T) -> Deferred<Result<T, T>, Option<Wakers<TaskWaker>>>
        requires may { N.may self.old.life.values value }
        ensures entered { OnOk result.answer (self.new.life ≡ record
            { values = self.old.life.values ++ value ∷ []; closed = false }) }
        ensures gives_old { IfOk result.answer (λ old. old ≡ self.old.state.value) }
        ensures rule { IfOk result.answer N.holds }
        ensures unchanged { OnErr result.answer (self.new.life ≡ self.old.life) }
        ensures hands_out_all { OnOk result.answer
            (result.woken ≡ Some self.old.state.waiting) }
        ensures full { OnErr result.answer (TakesNoMore self.new.life) }
        ensures comes_back { IfErr result.answer (λ back. back ≡ value) }
    {
        match self.state.write(value) {
            Ok((old, woken)) => {
                self.values.add(&self.state);
                Deferred::waking(Ok(old), Some(woken))
            }
            Err(value) => Deferred::waking(Err(value), None),
        }
    }
}

impl<T: Drop, N: Protocol<T>> Room for LatestCore<T, N> {
    ghost vacant = { λ core. is_closed core.state ≡ false };

    ghost waiting = { λ core. core.state.waiting };

    ghost room = { λ core. core.state.room };

    ghost stays = { λ old new. Stays old.state new.state × (new.state.room ≡ old.state.room)
        × (new.life ≡ old.life) };

    #[inline(always)]
    fn is_new(&self, place: &Place) -> bool {
        self.state.is_new(place)
    }

    #[inline(always)]
    fn store_new(
        &mut self,
        place: &mut Place,
        task: usize,
        waker: TaskWaker,
    ) -> Deferred<Result<(), TaskWaker>> {
        Deferred::of(self.state.store_new(place, task, waker))
    }

    #[inline(always)]
    fn renew(&mut self, place: &Place, source: &Source, cx: &mut Context<'_>) -> bool {
        self.state.renew(place, source, cx)
    }

    #[inline(always)]
    fn take_back(&mut self, place: &mut Place) -> Deferred<Option<Waker>> {
        Deferred::of(self.state.take_back(place))
    }

    #[inline(always)]
    fn store(
        &mut self,
        place: &mut Place,
        waker: TaskWaker,
    ) -> Deferred<Result<Option<TaskWaker>, TaskWaker>> {
        Deferred::of(self.state.store(place, waker))
    }

    #[inline(always)]
    fn vacate(&mut self, place: Place) -> Option<usize> {
        self.state.vacate(place)
    }

    #[inline(always)]
    fn take_left(&mut self, index: usize) -> Deferred<Option<Waker>> {
        Deferred::of(self.state.take_left(index))
    }

    #[inline(always)]
    fn places(&self) -> usize {
        self.state.waiting()
    }
}

/// Asks a state for a clone of its value, if the witness has not seen this value. If the witness
/// has seen the value, and the state is closed, the answer is `None`.
#[derive(Drop)]
pub struct Next<T, N: Protocol<T>>(pub Witness<T, N>);

impl<T: Clone, N: Protocol<T>> Query<LatestCore<T, N>> for Next<T, N> {
    type Answer = (Option<T>, Witness<T, N>);

    ghost gives = { λ asked both. IsNext T.is_clone asked.0 both.0 both.1 };

    #[inline(always)]
    fn must_wait(&self, core: &LatestCore<T, N>) -> bool {
        !core.state.is_unseen(self.0.version()) && !core.is_closed()
    }

    #[inline(always)]
    fn answer(
        self,
        core: &mut LatestCore<T, N>,
    ) -> Deferred<Result<(Option<T>, Witness<T, N>), Refusal>> {
        let Next(seen) = self;
        let mut now = seen.again();
        now.learn(&core.values, core.state.version());
        if core.state.is_unseen(seen.version()) {
            let (_, value) = match core.state.get() {
                Ok(shown) => shown,
                Err(why) => return Deferred::of(Err(why)),
            };
            return Deferred::of(Ok((Some(value), now)));
        }
        if core.state.is_closed() {
            return Deferred::of(Ok((None, now)));
        }
        Deferred::of(Err(Refusal::Closed))
    }
}
