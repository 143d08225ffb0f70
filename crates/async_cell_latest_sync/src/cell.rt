//! The state behind a lock, which owners and followers point to. This module has the calls that
//! read the state, and the queries that polls make of the state. Closures, and clones of the value,
//! run while the lock is held.
mod calls;

ghost use Rattle.std.specs.Prelude.{◌≡◌, ◌≢◌, IsOk, IfOk, IfSome, IfNone};
ghost use Rattle.std.specs.Fn.{FnOnceReturnsAt};
ghost use Rattle.async_cell_model.specs.Refusal.{FailsWithMemory};
ghost use Rattle.async_cell_step.specs.Rule.{IsCloneOfOne};
ghost use Rattle.async_cell_latest_sync.specs.Found.{IsTested};

use crate::{Protocol, Refusal, Unruled};
use async_cell_step::{Deferred, Lock, Query, Step, end};
pub use calls::{LatestCore, Next};
use futures::task::Source;
use std::alloc::AllocError;
use std::sync::Wait;

/// A state that threads share, behind a lock.
#[derive(Drop)]
pub struct LatestCell<T, N: Protocol<T> = Unruled> {
    pub(crate) core: Lock<LatestCore<T, N>>,
    /// The source that waiting tasks register with.
    pub(crate) source: Source,
}

impl<T: Drop, N: Protocol<T>> LatestCell<T, N> {
    /// Calls the closure on the value, while the lock is held. Returns the version, and what the
    /// closure returned.
    pub(crate) fn peek<A, F: FnOnce(&T) -> A, R: Wait>(&self, look: F, rt: &R) -> (u64, A)
        requires { F.IsAlwaysCallable look }
        ensures called { (seen : T) × N.holds seen × FnOnceReturnsAt F.FnOnce look seen result.1 }
    {
        let step = self.core.lock(rt);
        let (version, _) = step.core().read();
        let answer = step.core().look(look);
        end(step, Deferred::of(()));
        (version, answer)
    }

    /// Returns the version and a clone of the value, made under the lock. Fails with `Memory` if
    /// the clone fails.
    pub(crate) fn get<R: Wait>(&self, rt: &R) -> Result<(u64, T), Refusal>
    where
        T: Clone,
        ensures rule { IfOk result (λ shown. IsCloneOfOne T.is_clone N.holds shown.1) }
        ensures if_infallible { ((value : T) → T.is_infallible value) → IsOk result }
        ensures refused { FailsWithMemory result }
    {
        let step = self.core.lock(rt);
        let copy = step.core().get();
        end(step, copy)
    }

    /// Calls the predicate on the value. Returns the version, and a clone of the value if the
    /// predicate returned `true`. Fails with `Memory` if the clone fails. If the state's version is
    /// `seen`, returns `None` without a call of the predicate.
    pub(crate) fn test<P: FnMut(&T) -> bool, R: Wait>(
        &self,
        seen: u64,
        predicate: &mut P,
        rt: &R,
    ) -> Option<(u64, Result<Option<T>, Refusal>)>
    where
        T: Clone,
        requires { P.IsAlwaysCallable predicate.old }
        ensures tested { IfSome result (λ tested. (value : T) × N.holds value
            × IsTested P.FnMut T.is_clone predicate.old value tested.1 predicate.new) }
        ensures unseen { IfSome result (λ tested. tested.0 ≢ seen) }
        ensures uncalled { IfNone result (predicate.new ≡ predicate.old) }
        ensures again { P.IsAlwaysCallable predicate.new }
        ensures refused { IfSome result (λ tested. FailsWithMemory tested.1) }
    {
        let step = self.core.lock(rt);
        let (version, value) = step.core().read();
        if version == seen {
            end(step, Deferred::of(()));
            return None;
        }
        let found = find(value, predicate);
        Some(end(step, Deferred::of((version, found))))
    }

    /// Returns the version.
    pub(crate) fn version<R: Wait>(&self, rt: &R) -> u64 {
        self.peek(|_| (), rt).0
    }

    /// Returns whether the last owner has ended.
    pub(crate) fn is_closed<R: Wait>(&self, rt: &R) -> bool {
        let step = self.core.lock(rt);
        let is_closed = step.core().is_closed();
        end(step, Deferred::of(is_closed))
    }
}

/// Returns a clone of the value if the predicate holds of it. Fails with `Memory` if the clone
/// fails.
#[inline]
fn find<T: Clone, P: FnMut(&T) -> bool>(value: &T, predicate: &mut P) -> Result<Option<T>, Refusal>
    requires { P.IsAlwaysCallable predicate.old }
    ensures tested { IsTested P.FnMut T.is_clone predicate.old value.now result predicate.new }
    ensures again { P.IsAlwaysCallable predicate.new }
    ensures refused { FailsWithMemory result }
{
    if !predicate(value) {
        return Ok(None);
    }
    let copy: Result<T, AllocError> = value.clone();
    Ok(Some(copy?))
}

/// Asks a state for its version, once that version differs from the number given here.
#[derive(Clone, Copy, Drop)]
pub struct Unseen(pub u64);

/// As `Unseen`, but also asks for a clone of the value. The clone is made during the step.
#[derive(Clone, Copy, Drop)]
pub struct UnseenState(pub u64);

impl<T: Drop, N: Protocol<T>> Query<LatestCore<T, N>> for Unseen {
    type Answer = u64;

    ghost gives = { λ asked version. version ≢ asked.0 };

    #[inline(always)]
    fn must_wait(&self, core: &LatestCore<T, N>) -> bool {
        core.read().0 == self.0 && !core.is_closed()
    }

    #[inline(always)]
    fn answer(self, core: &mut LatestCore<T, N>) -> Deferred<Result<u64, Refusal>> {
        match core.read().0 {
            version if version == self.0 => Deferred::of(Err(Refusal::Closed)),
            unseen => Deferred::of(Ok(unseen)),
        }
    }
}

impl<T: Clone, N: Protocol<T>> Query<LatestCore<T, N>> for UnseenState {
    type Answer = (u64, T);

    ghost gives = { λ asked shown.
        (shown.0 ≢ asked.0) × IsCloneOfOne T.is_clone N.holds shown.1 };

    #[inline(always)]
    fn must_wait(&self, core: &LatestCore<T, N>) -> bool {
        Unseen(self.0).must_wait(core)
    }

    #[inline(always)]
    fn answer(self, core: &mut LatestCore<T, N>) -> Deferred<Result<(u64, T), Refusal>> {
        match core.read().0 == self.0 {
            true => Deferred::of(Err(Refusal::Closed)),
            false => core.get(),
        }
    }
}
