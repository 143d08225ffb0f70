//! The queries that polls make to the core of a cell.
ghost use Rattle.std.specs.Prelude.{◌≡◌, true, false, Some};
ghost use Rattle.async_cell_model.specs.Machine.{is_closed, is_vacant};
ghost use Rattle.async_cell_model.specs.declared.entry.Kept.TheVariants.{TryGet, TryTake};
ghost use Rattle.async_cell_model.specs.declared.reply.Reply.TheVariants.{Value};
ghost use Rattle.async_cell_history.specs.History.{IsLinearized, IsLinearizedUpTo, IsSigned};
ghost use Rattle.async_cell_step.specs.Rule.{IsCloneOfOne};

use async_cell_core::{Refusal, TaskWaker, Wakes};
use async_cell_history::{Caller, CellCore, Nobody, Protocol, Sees, TryGet, TryTake, Witness};
use async_cell_step::{Deferred, Query};

/// Takes the value of a cell.
#[derive(Clone, Copy, Drop)]
pub struct Taking;

/// Clones the value of a cell, during the step.
#[derive(Clone, Copy, Drop)]
pub struct Cloning;

impl<T: Drop, N: Protocol<T, TaskWaker>> Query<CellCore<T, TaskWaker, N>> for Taking {
    type Answer = T;

    ghost asks = { λ _. N.may TryTake };

    ghost gives = { λ _ value. N.holds value };

    ghost ready = { λ core. is_vacant core.inner.cell ≡ false };

    ghost closed = { λ core. is_closed core.inner.cell ≡ true };

    #[inline(always)]
    fn must_wait(&self, core: &CellCore<T, TaskWaker, N>) -> bool {
        core.is_vacant()
    }

    #[inline(always)]
    #[tactic(auto, using(async_cell_history::proofs::Found::closed_if_none))]
    fn answer(self, core: &mut CellCore<T, TaskWaker, N>) -> Deferred<Result<T, Refusal>> {
        core.make(TryTake, &Nobody).or_closed()
    }
}

impl<T: Clone, N: Protocol<T, TaskWaker>> Query<CellCore<T, TaskWaker, N>> for Cloning {
    type Answer = T;

    ghost gives = { λ _ value. IsCloneOfOne T.is_clone N.holds value };

    ghost ready = { λ core. is_vacant core.inner.cell ≡ false };

    ghost closed = { λ core. is_closed core.inner.cell ≡ true };

    #[inline(always)]
    fn must_wait(&self, core: &CellCore<T, TaskWaker, N>) -> bool {
        Taking.must_wait(core)
    }

    #[inline(always)]
    fn answer(self, core: &mut CellCore<T, TaskWaker, N>) -> Deferred<Result<T, Refusal>> {
        core.make(TryGet, &Nobody).or_closed()
    }
}

/// Waits while the cell is open and empty, and changes nothing. So if nobody but the caller can
/// fill the cell, it has an answer once the cell is closed.
#[derive(Clone, Copy, Drop)]
pub struct Closing;

impl<T: Drop, N: Protocol<T, TaskWaker>> Query<CellCore<T, TaskWaker, N>> for Closing {
    type Answer = ();

    ghost ready = { λ core. is_vacant core.inner.cell ≡ false };

    ghost closed = { λ _. ⊥ };

    #[inline(always)]
    fn must_wait(&self, core: &CellCore<T, TaskWaker, N>) -> bool {
        core.is_vacant()
    }

    #[inline(always)]
    fn answer(self, _: &mut CellCore<T, TaskWaker, N>) -> Deferred<Result<(), Refusal>> {
        Deferred::of(Ok(()))
    }
}

/// A query and its caller. A caller that is a counted owner never gets `Closed`.
#[derive(Drop)]
pub struct WithCaller<'a, K, Q> {
    caller: &'a K,
    query: Q,
}

impl<'a, K, Q> WithCaller<'a, K, Q> {
    /// Makes a `WithCaller` of this caller and this query.
    #[inline(always)]
    pub fn new(caller: &'a K, query: Q) -> Self
        ensures { result.query ≡ query }
    {
        WithCaller { caller, query }
    }
}

impl<T, N, K, Q> Query<CellCore<T, TaskWaker, N>> for WithCaller<'_, K, Q>
where
    T: Drop,
    N: Protocol<T, TaskWaker>,
    K: Caller<T, TaskWaker, N>,
    Q: Query<CellCore<T, TaskWaker, N>>,
{
    type Answer = Q::Answer;

    ghost asks = { λ asked. Q.asks asked.query };

    ghost gives = { λ asked answer. Q.gives asked.query answer };

    ghost ready = { Q.ready };

    ghost closed = { λ core. Q.closed core × (K.owns → is_closed core.inner.cell ≡ false) };

    #[inline(always)]
    fn must_wait(&self, core: &CellCore<T, TaskWaker, N>) -> bool {
        self.query.must_wait(core)
    }

    #[inline(always)]
    fn answer(self, core: &mut CellCore<T, TaskWaker, N>) -> Deferred<Result<Q::Answer, Refusal>> {
        let WithCaller { caller, query } = self;
        caller.proves_open(core);
        query.answer(core)
    }
}

/// As `Taking`, but this witness sees the take.
#[derive(Drop)]
pub struct TakingAs<T, N: Protocol<T, TaskWaker>>(pub Witness<T, TaskWaker, N>);

/// As `Cloning`, but this witness sees the get.
#[derive(Drop)]
pub struct CloningAs<T, N: Protocol<T, TaskWaker>>(pub Witness<T, TaskWaker, N>);

/// The answer also holds the witness, which has then seen that the value was taken.
impl<T: Drop, N: Protocol<T, TaskWaker>> Query<CellCore<T, TaskWaker, N>> for TakingAs<T, N> {
    type Answer = (T, Witness<T, TaskWaker, N>);

    ghost asks = { λ _. N.may TryTake };

    ghost gives = { λ asked given. N.holds given.0 × IsLinearized ⟦<TaskWaker as Wakes>⟧ N.named
        asked.0.calls TryTake (Value (Some given.0)) given.1.calls × IsSigned asked.0 given.1 };

    ghost ready = { λ core. is_vacant core.inner.cell ≡ false };

    ghost closed = { λ core. is_closed core.inner.cell ≡ true };

    #[inline(always)]
    fn must_wait(&self, core: &CellCore<T, TaskWaker, N>) -> bool {
        core.is_vacant()
    }

    #[inline(always)]
    #[tactic(auto, using(async_cell_history::proofs::Found::closed_if_none))]
    fn answer(
        self,
        core: &mut CellCore<T, TaskWaker, N>,
    ) -> Deferred<Result<(T, Witness<T, TaskWaker, N>), Refusal>> {
        let TakingAs(mut seen) = self;
        seen.catch_up(core);
        let taken = core.make(TryTake, &seen);
        seen.see(core);
        taken.or_closed().paired_with(seen)
    }
}

/// The answer also holds the witness, which has then seen that the value was cloned.
impl<T: Clone, N: Protocol<T, TaskWaker>> Query<CellCore<T, TaskWaker, N>> for CloningAs<T, N> {
    type Answer = (T, Witness<T, TaskWaker, N>);

    ghost gives = { λ asked given. IsCloneOfOne T.is_clone N.holds given.0
        × IsLinearizedUpTo T.is_clone ⟦<TaskWaker as Wakes>⟧ N.named
        asked.0.calls TryGet (Value (Some given.0)) given.1.calls × IsSigned asked.0 given.1 };

    ghost ready = { λ core. is_vacant core.inner.cell ≡ false };

    ghost closed = { λ core. is_closed core.inner.cell ≡ true };

    #[inline(always)]
    fn must_wait(&self, core: &CellCore<T, TaskWaker, N>) -> bool {
        core.is_vacant()
    }

    #[inline(always)]
    #[tactic(auto, using(async_cell_history::proofs::Found::closed_if_no_clone))]
    fn answer(
        self,
        core: &mut CellCore<T, TaskWaker, N>,
    ) -> Deferred<Result<(T, Witness<T, TaskWaker, N>), Refusal>> {
        let CloningAs(mut seen) = self;
        seen.catch_up(core);
        let copied = core.make(TryGet, &seen);
        seen.see(core);
        copied.or_closed().paired_with(seen)
    }
}
