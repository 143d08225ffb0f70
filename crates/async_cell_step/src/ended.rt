//! The end of a step, and what comes out of a core during the step. An end first releases the core,
//! then wakes wakers, and then returns what the caller may drop. Until then, what came out is held
//! in a `Deferred`.
ghost use Rattle.std.specs.Prelude.{◌≡◌, ⊤, List, [], Ok, Err, None, Some, IfOk, IfErr, IfSome, IsSome, IsTrue, OnOk, OnErr, slice_get, option_to_list};
ghost use Rattle.async_cell_model.specs.Refusal.{FailsWithClosed, FailsWithMemory, FailsWithMemoryOrClosed};
ghost use Rattle.async_cell_step.specs.Deferred.{all_of};

use crate::opened;
use crate::room::Room;
use crate::store::{Opens, Step, StoredCore, Stores};
use async_cell_model::Refusal;
use async_cell_wakers::{Place, TaskWaker, Wakers, Wakes};
use futures::task::Waker;

/// What came out of a core during a step: an answer, and the wakers to wake. `K` is `()` for no
/// waker, `Option<W>` for at most one, or `Option<Wakers<W>>` for all that a call handed out. A
/// `Deferred` cannot be dropped: the function that ends the step must consume it. This function
/// wakes the wakers, and returns the answer.
pub struct Deferred<X, K = ()> {
    answer: X,
    woken: K,
}

/// What a call leaves to be done after its step: wakers to wake, and values to drop.
pub trait After<W> {
    /// The wakers.
    ghost wakes: { Self → List W };

    /// Wakes them, and drops the rest.
    fn run(self);
}

/// What is left to be done after a step: at most one waker to wake, and values to drop.
pub struct One<W, X = ()> {
    woken: Option<W>,
    dropped: X,
}

/// All wakers that a call handed out (`None` if it handed out none), and what to drop.
pub struct All<W: Wakes, X = ()> {
    woken: Option<Wakers<W>>,
    dropped: X,
}

impl<W, X> One<W, X> {
    /// Returns a `One` that will wake the waker in `woken`, if any, and drop `dropped`.
    #[inline(always)]
    pub fn waking(woken: Option<W>, dropped: X) -> Self
        ensures wakes { result.woken ≡ woken }
        ensures drops { result.dropped ≡ dropped }
    {
        One { woken, dropped }
    }
}

impl<W: Wakes, X> All<W, X> {
    /// Returns an `All` that will wake the wakers in `woken`, if any, and drop `dropped`.
    #[inline(always)]
    pub fn waking(woken: Option<Wakers<W>>, dropped: X) -> Self
        ensures wakes { result.woken ≡ woken }
        ensures drops { result.dropped ≡ dropped }
    {
        All { woken, dropped }
    }
}

impl<W> After<W> for () {
    ghost wakes = { λ _. [] };

    #[inline(always)]
    fn run(self) {}
}

impl<W: Wakes, X: Drop> After<W> for One<W, X> {
    ghost wakes = { λ one. option_to_list one.woken };

    #[inline(always)]
    fn run(self) {
        let One { woken, dropped } = self;
        if let Some(waker) = woken {
            waker.wake();
        }
        drop(dropped);
    }
}

impl<W: Wakes, X: Drop> After<W> for All<W, X> {
    ghost wakes = { λ all. all_of all.woken };

    #[inline(always)]
    fn run(self) {
        let All { woken, dropped } = self;
        if let Some(woken) = woken {
            woken.wake_all();
        }
        drop(dropped);
    }
}

/// Ends the step: gives the core back, and returns the answer in `held`.
#[inline(always)]
pub fn end<G: Step, X>(step: G, held: Deferred<X>) -> X
    ensures answers { result ≡ held.answer }
{
    step.release();
    let Deferred { answer, woken: _ } = held;
    answer
}

/// Ends the step: gives the core back, wakes the wakers in `held`, and returns the answer in
/// `held`.
#[inline(always)]
pub fn end_and_wake<G: Step, X, W: Wakes>(step: G, held: Deferred<X, Option<Wakers<W>>>) -> X
    ensures answers { result ≡ held.answer }
{
    step.release(); // What is woken or dropped may call this cell: never during a step.
    let Deferred { answer, woken } = held;
    if let Some(woken) = woken {
        woken.wake_all();
    }
    answer
}

/// Ends the step: gives the core back, wakes the wakers in `held`, drops the values in `held`, and
/// returns the answer in `held`.
#[inline(always)]
pub fn finish<G: Step, X, W, K: After<W>>(step: G, held: Deferred<X, K>) -> X
    ensures answers { result ≡ held.answer }
{
    step.release(); // What is woken or dropped may call this cell: never during a step.
    let Deferred { answer, woken } = held;
    woken.run();
    answer
}

/// As `end_and_wake`, for at most one waker.
#[inline(always)]
pub fn end_and_wake_one<G: Step, X, W: Wakes>(step: G, held: Deferred<X, Option<W>>) -> X
    ensures answers { result ≡ held.answer }
{
    step.release();
    let Deferred { answer, woken } = held;
    if let Some(waker) = woken {
        waker.wake();
    }
    answer
}

/// Lends the core for a step, together with `held`, which is kept until the step ends. If the core
/// is not lent, drops `held`.
#[inline(always)]
pub fn open_holding<'a, M: Stores, X: Drop, R: Opens<'a, M>>(
    store: &'a StoredCore<M>,
    held: X,
    rt: &R,
) -> Option<(R::Open, Deferred<X>)>
    ensures lent { IsTrue R.always → IsSome result }
    ensures held { IfSome result (λ opened. opened.1.answer ≡ held) }
{
    let step = opened!(rt, store, else return None);
    Some((step, Deferred::of(held)))
}

impl<X, W: Wakes> Deferred<X, All<W>> {
    /// The result holds the same answer and wakers, and nothing to be dropped.
    #[inline(always)]
    pub fn waking_all(self) -> Deferred<X, Option<Wakers<W>>>
        ensures { result.answer ≡ self.answer }
    {
        let Deferred { answer, woken } = self;
        let All { woken, dropped: () } = woken;
        Deferred::waking(answer, woken)
    }
}

impl<X> Deferred<X> {
    /// Makes a `Deferred` of an answer. The answer is held until the step ends.
    #[inline(always)]
    pub fn of(answer: X) -> Self
        ensures { result.answer ≡ answer }
    {
        Deferred { answer, woken: () }
    }

    /// Combines two `Deferred`s. The result holds the pair of their answers.
    #[inline(always)]
    pub fn and<Y>(self, other: Deferred<Y>) -> Deferred<(X, Y)>
        ensures { result.answer ≡ (self.answer, other.answer) }
    {
        let Deferred { answer, woken: _ } = other;
        let second = answer;
        let Deferred { answer, woken: _ } = self;
        Deferred::of((answer, second))
    }
}

/// A core that a value can be written to.
pub trait Writes<T> {
    /// What a write replaces.
    type Old;
    /// Whom a write wakes.
    type Waker: Wakes;

    /// The values that may be written.
    ghost may: { T → Type 0 } = { λ _. ⊤ };

    /// What is known of what was replaced.
    ghost gives: { Self.Old → Type 0 } = { λ _. ⊤ };

    /// Writes the value, and holds the old one. If the write is refused, holds `value` in the
    /// error.
    fn write(&mut self, value: T) -> Deferred<Result<Self::Old, T>, Option<Wakers<Self::Waker>>>
        requires may { may value }
        ensures gives { IfOk result.answer gives }
        ensures comes_back { IfErr result.answer (λ back. back ≡ value) };
}

/// Writes the value in the `Deferred` to the core of this step, and ends the step. This function is
/// not inlined, so that it adds no cost to calls without such a write.
#[inline(never)]
pub fn write_held<C: Writes<T>, G: Step<Core = C>, T>(
    mut step: G,
    value: Deferred<T>,
) -> Result<C::Old, T>
    requires may { C.may value.answer }
    ensures gives { IfOk result C.gives }
    ensures comes_back { IfErr result (λ back. back ≡ value.answer) }
{
    let Deferred { answer, woken: _ } = value;
    let written = step.lend().write(answer);
    end_and_wake(step, written)
}

/// As `write_held`, but drops the old value.
#[inline(never)]
pub fn put_held<C: Writes<T>, G: Step<Core = C>, T: Drop>(step: G, value: Deferred<T>)
where
    C::Old: Drop,
    requires may { C.may value.answer }
{
    let _ = write_held(step, value);
}

impl<X> Deferred<Option<X>> {
    /// The result holds what was found, or `Closed` if nothing was found.
    #[inline(always)]
    pub fn or_closed(self) -> Deferred<Result<X, Refusal>>
        ensures found { IfOk result.answer (λ found. self.answer ≡ Some found) }
        ensures none { OnErr result.answer (self.answer ≡ None) }
        ensures refused { FailsWithClosed result.answer }
    {
        let Deferred { answer, woken: _ } = self;
        Deferred::of(answer.ok_or(Refusal::Closed))
    }
}

impl<X> Deferred<Result<Option<X>, Refusal>> {
    /// The result holds what was found, or the error, or `Closed` if nothing was found.
    #[inline(always)]
    pub fn or_closed(self) -> Deferred<Result<X, Refusal>>
        requires { FailsWithMemory self.answer }
        ensures found { IfOk result.answer (λ found. self.answer ≡ Ok (Some found)) }
        ensures none { IfErr result.answer (λ why. why ≡ Refusal.Closed → self.answer ≡ Ok None) }
        ensures refused { FailsWithMemoryOrClosed result.answer }
    {
        let Deferred { answer, woken: _ } = self;
        match answer {
            Ok(found) => Deferred::of(found.ok_or(Refusal::Closed)),
            Err(why) => Deferred::of(Err(why)),
        }
    }
}

impl<X, E> Deferred<Result<X, E>> {
    /// If the answer is `Ok(found)`, the result holds the pair of `found` and `other`. If the
    /// answer is an error, the result holds the same error.
    #[inline(always)]
    pub fn paired_with<Y: Drop>(self, other: Y) -> Deferred<Result<(X, Y), E>>
        ensures found { IfOk result.answer (λ both.
            (self.answer ≡ Ok both.0) × (both.1 ≡ other)) }
        ensures refused { IfErr result.answer (λ why. self.answer ≡ Err why) }
    {
        let Deferred { answer, woken: _ } = self;
        match answer {
            Ok(found) => Deferred::of(Ok((found, other))),
            Err(why) => Deferred::of(Err(why)),
        }
    }
}

impl Deferred<Waker> {
    /// Stores the waker as `Room::store` does.
    #[inline(always)]
    pub fn store_in<C: Room>(
        self,
        room: &mut C,
        place: &mut Place,
    ) -> Deferred<Result<Option<TaskWaker>, TaskWaker>>
        requires { C.vacant room.old }
        ensures seated { OnOk result.answer
            (slice_get (C.waiting room.new) place.new.index ≡ Some (Some self.answer)) }
    {
        let Deferred { answer, woken: _ } = self;
        room.store(place, TaskWaker::of(answer))
    }
}

impl<X, K> Deferred<X, K> {
    /// Makes a `Deferred` of an answer and of the wakers to wake.
    #[inline(always)]
    pub fn waking(answer: X, woken: K) -> Self
        ensures answers { result.answer ≡ answer }
        ensures wakes { result.woken ≡ woken }
    {
        Deferred { answer, woken }
    }
}
