//! The futures and the stream of a follower.
ghost use Rattle.std.specs.Prelude.{◌≡◌, ◌≢◌, ◌⊎◌, true, false, Err, IfOk, IfNone, IfSome, OnOk, OnErr};
ghost use Rattle.std.specs.{Fn.CalledAt, List.AllByRecursion};
ghost use Rattle.futures.specs.{Poll.IfReady, Poll.OnPending, Task.Covers, Task.Keeps};
ghost use Rattle.async_cell_model.specs.Refusal.{FailsWithMemoryOrClosed};
ghost use Rattle.async_cell_latest_sync.specs.{Found.IsFound, Found.IsItem, Life.IsNext, Names.cell_followed, Names.sources};

use crate::cell::{LatestCell, LatestCore, Next, Unseen, UnseenState};
use crate::{Follower, Protocol, Refusal, Unruled, Witness};
use async_cell_latest::Place;
use async_cell_step::{At, Places, Polled, Query, Request, With, poll};
use futures::future::Future;
use futures::stream::Stream;
use futures::task::{Context, Poll};
use std::mem;
use std::sync::Wait;

impl<T: Drop, R: Wait + Drop, N: Protocol<T>> Follower<T, R, N> {
    /// Polls the state with the query `asked`, for a future of this follower. `place` is the
    /// future's place in the wait list.
    #[inline(always)]
    fn poll<Q: Query<LatestCore<T, N>>>(
        &self,
        asked: Q,
        place: &mut Place,
        cx: &mut Context<'_>,
    ) -> Poll<Result<Q::Answer, Refusal>>
        requires asks { Q.asks asked }
        ensures gives { IfReady result (λ answer. IfOk answer (λ given. Q.gives asked given)) }
        ensures registered { OnPending result (Covers cx.new (sources self.now)) }
        ensures kept { Keeps cx.old cx.new }
        ensures refused { IfReady result FailsWithMemoryOrClosed }
    {
        let cell = self.cell.as_ref();
        poll(&cell.core, &cell.source, asked, Some(place), cx, &self.rt)
    }

    /// Waits until the state has a version other than `seen`. The next poll of the future looks at
    /// the new version.
    fn poll_later<A>(
        &self,
        seen: u64,
        place: &mut Place,
        cx: &mut Context<'_>,
    ) -> Poll<Result<A, Refusal>>
        ensures nothing { IfReady result (λ answer. OnOk answer ⊥) }
        ensures registered { OnPending result (Covers cx.new (sources self.now)) }
        ensures kept { Keeps cx.old cx.new }
        ensures refused { IfReady result FailsWithMemoryOrClosed }
    {
        match self.poll(Unseen(seen), place, cx) {
            Poll::Ready(Err(why)) => Poll::Ready(Err(why)),
            Poll::Ready(Ok(_)) => cx.yield_now(), // It was written meanwhile.
            Poll::Pending => Poll::Pending,
        }
    }
}

impl<T: Clone, R: Wait + Copy, N: Protocol<T>> Follower<T, R, N> {
    /// Returns a future that waits for a value that the witness has not seen. It gives a clone of
    /// the value, and the witness, which has then seen it. Once the state is closed and all values
    /// were seen, it gives `None` for the value. Fails with `Memory` if there is no memory for the
    /// clone, or to register the waker. Marks nothing as seen by this follower.
    pub fn next_as(&self, seen: Witness<T, N>) -> With<NextAs<'_, T, N>, R>
        ensures of_this { result.polled.cell.now ≡ cell_followed self.now }
        ensures seen { result.polled.seen ≡ seen }
    {
        let cell = self.cell.as_ref();
        With::new(NextAs { cell, seen }, self.rt)
    }
}

/// The future of `Follower::changed`.
///
/// It waits as a `With` does, and you may drop it at any time. **Its drop may wait for the lock.**
#[derive_where(Debug)]
pub struct Changed<'a, T: Drop, R: Wait + Drop, N: Protocol<T> = Unruled> {
    #[derive_where(skip)]
    pub(crate) follower: &'a mut Follower<T, R, N>,
    #[derive_where(skip)]
    pub(crate) place: Place,
}

impl<T: Drop, R: Wait + Drop, N: Protocol<T>> Changed<'_, T, R, N> {
    /// As `With::cancel`. Each write also removes the waker, so `cancel` is meant for states that
    /// are seldom written.
    pub fn cancel(self) {
        let Changed { follower, place } = self;
        follower.cell.core.cancel(place, &follower.rt);
    }
}

/// Frees its place in the wait list.
impl<T: Drop, R: Wait + Drop, N: Protocol<T>> Drop for Changed<'_, T, R, N> {
    fn drop(self) {
        let Changed { follower, place } = self;
        follower.cell.core.vacate(place, &follower.rt);
    }
}

impl<T: Drop, R: Wait + Drop, N: Protocol<T>> Future for Changed<'_, T, R, N> {
    type Output = Result<(), Refusal>;

    ghost needs = { λ future. sources future.follower.now };

    ghost gives = { λ _. FailsWithMemoryOrClosed };

    fn poll(&mut self, cx: &mut Context<'_>) -> Poll<Result<(), Refusal>>
        ensures marks { IfReady result (λ given. OnOk given
            (self.new.follower.now.seen ≢ self.old.follower.now.seen)) }
        ensures unmarked { IfReady result (λ given. OnErr given
            (self.new.follower.now ≡ self.old.follower.now)) }
        ensures unchanged { OnPending result (self.new.follower.now ≡ self.old.follower.now) }
        ensures of_this { cell_followed self.new.follower.now
            ≡ cell_followed self.old.follower.now }
        ensures value { IfReady result FailsWithMemoryOrClosed }
        ensures registered { OnPending result (Covers cx.new (sources self.new.follower.now)) }
        ensures kept { Keeps cx.old cx.new }
    {
        let asked = Unseen(self.follower.seen);
        match self.follower.poll(asked, &mut self.place, cx) {
            Poll::Ready(Ok(given)) => {
                self.follower.seen = given;
                Poll::Ready(Ok(()))
            }
            Poll::Ready(Err(why)) => Poll::Ready(Err(why)),
            Poll::Pending => Poll::Pending,
        }
    }
}

/// The future of `Follower::wait_for`.
///
/// Waits as a `Changed` does, and may be dropped at any time. **The drop may wait for the lock.**
#[derive_where(Debug)]
pub struct WaitFor<'a, T: Drop, R: Wait + Drop, F: Drop, N: Protocol<T> = Unruled> {
    #[derive_where(skip)]
    pub(crate) follower: &'a mut Follower<T, R, N>,
    #[derive_where(skip)]
    pub(crate) place: Place,
    #[derive_where(skip)]
    pub(crate) predicate: F,
    /// The version of the value that the predicate was last called on, or 0 if it was not called
    /// yet. Polls that failed with `Memory` do not count.
    #[derive_where(skip)]
    pub(crate) looked_at: u64,
}

impl<T: Drop, R: Wait + Drop, F: Drop, N: Protocol<T>> WaitFor<'_, T, R, F, N> {
    /// As `Changed::cancel`.
    pub fn cancel(self) {
        let WaitFor {
            follower,
            place,
            predicate: _,
            looked_at: _,
        } = self;
        follower.cell.core.cancel(place, &follower.rt);
    }
}

/// Frees its place in the wait list.
impl<T: Drop, R: Wait + Drop, F: Drop, N: Protocol<T>> Drop for WaitFor<'_, T, R, F, N> {
    fn drop(self) {
        let WaitFor {
            follower,
            place,
            predicate: _,
            looked_at: _,
        } = self;
        follower.cell.core.vacate(place, &follower.rt);
    }
}

impl<T: Clone, R: Wait + Drop, F: FnMut(&T) -> bool + Drop, N: Protocol<T>> Future
    for WaitFor<'_, T, R, F, N> {
    type Output = Result<T, Refusal>;

    ghost can_poll = { λ future. F.IsAlwaysCallable future.predicate };

    ghost needs = { λ future. sources future.follower.now };

    ghost gives = { λ future. IsFound F.FnMut T.is_clone N.holds future.predicate };

    #[tactic(auto, using(crate::proofs::Polled::after_false))]
    fn poll(&mut self, cx: &mut Context<'_>) -> Poll<Result<T, Refusal>>
        requires can_poll { F.IsAlwaysCallable self.old.predicate }
        ensures called { IfReady result (λ answer. IfOk answer (λ copy. (value : T)
            × N.holds value × T.is_clone value copy
            × CalledAt F.FnMut self.old.predicate value true self.new.predicate)) }
        ensures unmarked { result ≡ Poll.Ready (Err Refusal.Memory)
            → self.new.follower.now ≡ self.old.follower.now }
        ensures value { IfReady result (IsFound F.FnMut T.is_clone N.holds self.old.predicate) }
        ensures same { OnPending result ((answer : _)
            → IsFound F.FnMut T.is_clone N.holds self.new.predicate answer
            → IsFound F.FnMut T.is_clone N.holds self.old.predicate answer) }
        ensures again { OnPending result (F.IsAlwaysCallable self.new.predicate) }
        ensures looked { OnPending result (((self.new.predicate ≡ self.old.predicate)
            × (self.new.follower.now ≡ self.old.follower.now))
            ⊎ ((value : T)
            × CalledAt F.FnMut self.old.predicate value false self.new.predicate)) }
        ensures of_this { cell_followed self.new.follower.now
            ≡ cell_followed self.old.follower.now }
        ensures registered { OnPending result (Covers cx.new (sources self.new.follower.now)) }
        ensures kept { Keeps cx.old cx.new }
    {
        let follower = &*self.follower;
        let (cell, rt) = (follower.cell.as_ref(), &follower.rt);
        let Some((version, tested)) = cell.test(self.looked_at, &mut self.predicate, rt) else {
            return follower.poll_later(self.looked_at, &mut self.place, cx);
        };
        let found = match tested {
            Ok(found) => found,
            Err(why) => return Poll::Ready(Err(why)),
        };
        self.place.forget();
        if let Some(copy) = found {
            self.looked_at = version;
            self.follower.seen = version;
            return Poll::Ready(Ok(copy));
        }
        let polled = follower.poll_later(version, &mut self.place, cx);
        if matches!(polled, Poll::Ready(Err(Refusal::Memory))) {
            // Nothing is marked, so the next poll looks at this state again.
            let place = mem::replace(&mut self.place, Place::new());
            cell.core.vacate(place, rt);
            return polled;
        }
        self.looked_at = version;
        self.follower.seen = version;
        polled
    }
}

/// The stream of `Follower::states`. Its items are clones of unseen states. A state that is
/// overwritten before the stream is polled is skipped. Once the last owner has ended, the stream
/// ends after the last state.
///
/// If a poll fails with `Memory`, the item is that error, and nothing was marked as seen: poll the
/// stream again.
///
/// Waits as a `Changed` does, and may be dropped at any time. **The drop may wait for the lock.**
#[derive_where(Debug)]
pub struct States<T: Drop, R: Wait + Drop, N: Protocol<T> = Unruled> {
    #[derive_where(skip)]
    pub(crate) follower: Follower<T, R, N>,
    #[derive_where(skip)]
    pub(crate) place: Place,
}

impl<T: Drop, R: Wait + Drop, N: Protocol<T>> States<T, R, N> {
    /// Cancels this stream, as `Changed::cancel` cancels a `Changed`.
    pub fn cancel(self) {
        let States { follower, place } = self;
        follower.cell.core.cancel(place, &follower.rt);
    }
}

/// Frees its place in the wait list.
impl<T: Drop, R: Wait + Drop, N: Protocol<T>> Drop for States<T, R, N> {
    fn drop(self) {
        let States { follower, place } = self;
        follower.cell.core.vacate(place, &follower.rt);
    }
}

impl<T: Clone, R: Wait + Drop, N: Protocol<T>> Stream for States<T, R, N> {
    type Item = Result<T, Refusal>;

    ghost needs = { λ states. sources states.follower };

    ghost yields = { λ _ items last. AllByRecursion (IsItem T.is_clone N.holds) items
        × IfSome last (IsItem T.is_clone N.holds) };

    fn poll_next(&mut self, cx: &mut Context<'_>) -> Poll<Option<Result<T, Refusal>>>
        ensures value { IfReady result (λ item. IfSome item (IsItem T.is_clone N.holds)) }
        ensures marks { IfReady result (λ item. IfSome item (λ given. OnOk given
            (self.new.follower.seen ≢ self.old.follower.seen))) }
        ensures unmarked { IfReady result (λ item. IfSome item (λ given. OnErr given
            (self.new.follower ≡ self.old.follower))) }
        ensures ended { IfReady result (λ item. IfNone item
            (self.new.follower ≡ self.old.follower)) }
        ensures unchanged { OnPending result (self.new.follower ≡ self.old.follower) }
        ensures of_this { cell_followed self.new.follower ≡ cell_followed self.old.follower }
        ensures registered { OnPending result (Covers cx.new (sources self.new.follower)) }
        ensures kept { Keeps cx.old cx.new }
    {
        let asked = UnseenState(self.follower.seen);
        match self.follower.poll(asked, &mut self.place, cx) {
            Poll::Ready(Ok((shown, value))) => {
                self.follower.seen = shown;
                Poll::Ready(Some(Ok(value)))
            }
            Poll::Ready(Err(Refusal::Closed)) => Poll::Ready(None),
            Poll::Ready(Err(why)) => Poll::Ready(Some(Err(why))),
            Poll::Pending => Poll::Pending,
        }
    }
}

/// A request for the next value that a witness has not seen. `Follower::next_as` makes it, and
/// returns the future of this request, a `With`.
#[derive(Drop)]
pub struct NextAs<'a, T: Drop, N: Protocol<T>> {
    cell: &'a LatestCell<T, N>,
    seen: Witness<T, N>,
}

impl<T: Drop, N: Protocol<T>, R: Wait> Request<R> for NextAs<'_, T, N> {
    type Cell = LatestCell<T, N>;

    fn cell(&self) -> Option<&LatestCell<T, N>> {
        Some(self.cell)
    }
}

impl<T: Clone, N: Protocol<T>, R: Wait> Polled<R> for NextAs<'_, T, N> {
    type Output = Result<(Option<T>, Witness<T, N>), Refusal>;

    ghost waits_for = { λ asked s. s ≡ asked.cell.now.source.id };

    ghost may_give = { λ asked given. FailsWithMemoryOrClosed given
        × IfOk given (λ both. IsNext T.is_clone asked.seen both.0 both.1) };

    #[inline(always)]
    fn poll_at(&self, at: At<'_>, cx: &mut Context<'_>, rt: &R) -> Poll<Self::Output> {
        let query = Next(self.seen.again());
        poll(&self.cell.core, &self.cell.source, query, at, cx, rt)
    }
}

impl<T: Drop, N: Protocol<T>, R: Wait> Places<R> for LatestCell<T, N> {
    fn vacate(&self, place: Place, rt: &R) {
        self.core.vacate(place, rt);
    }

    fn cancel(&self, place: Place, rt: &R) {
        self.core.cancel(place, rt);
    }
}
