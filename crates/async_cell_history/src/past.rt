ghost use Rattle.std.specs.Prelude.{◌≡◌, [], ◌∷◌, ◌++◌, None, false, IsSome, IfOk, IfSome, OnErr, MatchOption};
ghost use Rattle.async_cell_core.specs.IsStep.{IsStep, replies};
ghost use Rattle.async_cell_model.specs.declared.entry.Kept.TheVariants.{PollGet};
ghost use Rattle.async_cell_model.specs.declared.reply.Reply.TheVariants.{Pending};
ghost use Rattle.async_cell_model.specs.Machine.{owners_of};
ghost use Rattle.async_cell_history.specs.History.{IsAllowed, Leads, OnlyExchanges, entry_of, is_of_owners};

use crate::entries::Waits;
use crate::{Nobody, Protocol, Signed, Signs, Start};
use async_cell_core::{Core, Wakes};
use ghost_tokens::{Count, Log, Makes};
use std::marker::{Model, PhantomData};
use std::snapshot::Snapshot;

/// Says which call of the model a call of the core corresponds to, and which reply that call got.
/// Only contracts read this trait.
pub(crate) trait Enters<C, A, T, W> {
    ghost use Rattle.async_cell_model.specs.declared.entry.Kept.{Kept};
    ghost use Rattle.async_cell_model.specs.Machine.{State};
    ghost use Rattle.async_cell_core.specs.declared.answer.Answer.{Answer};

    /// The call, by the state before it, what was passed, and the state after it.
    ghost call: { State T W → C → State T W → Kept T W };

    /// The answer, by the state before it, and what it returned.
    ghost answer: { State T W → A → Answer T W };
}

/// The whole history of a cell, and the right to extend it. A `Past` is zero-sized.
#[derive(Drop)]
pub struct Past<T, W: Wakes, N: Protocol<T, W>> {
    pub(crate) log: Log<Signed<T, W>>,
    pub(crate) of: PhantomData<N>,
    pub(crate) start: Start<T, W>,
    pub(crate) count: Count,
}

/// Contracts see how the cell began, its calls so far, and who made each.
impl<T, W: Wakes, N: Protocol<T, W>> Model for Past<T, W, N> {
    ghost use Rattle.std.specs.Prelude.{◌≡◌, map};
    ghost use Rattle.async_cell_history.specs.History.{Fits, IsLawful, Past as PastCalls, permits_of};

    ghost Value = { PastCalls T W };

    ghost view = { λ p. record {
      begun = record { name = p.log.name; permits = p.count.name; start = p.start };
      calls = map (λ s. s.entry) p.log.list;
      authors = map (λ s. s.who) p.log.list;
      out = p.count.out;
    } };

    ghost invariant = { λ p.
        Fits N.named (record { name = p.log.name; permits = p.count.name; start = p.start })
        × IsLawful W.will_wake W.SURE_CLONE N.may p.start (map (λ s. s.entry) p.log.list)
        × (p.count.name ≡ permits_of N.named) };
}

/// A call that begins: the core before the call, and what is passed to the call. A `Before` has no
/// bytes.
pub(crate) struct Before<C, T, W: Wakes> {
    from: Snapshot<Core<T, W>>,
    passed: Snapshot<C>,
}

/// It is written out, so that a call drops one value and not two.
impl<C, T, W: Wakes> Drop for Before<C, T, W> {
    #[inline(always)]
    fn drop(self) {
        let Before { from: _, passed: _ } = self;
    }
}

impl<C, T, W: Wakes> Before<C, T, W> {
    /// Begins a call of `core`: `passed` is what is passed to that call.
    #[inline(always)]
    pub(crate) fn of(core: &Core<T, W>, passed: &C) -> Self
        ensures from { result.from.value ≡ core.now }
        ensures passed { result.passed.value ≡ passed.now }
    {
        Before {
            from: Snapshot::of(core),
            passed: Snapshot::of(passed),
        }
    }

    /// Appends to `past` the entry that `M` makes of the call. `returned` is what the call
    /// returned, `to` is the core after the call, and `by` says who signs the call.
    #[inline(always)]
    #[tactic(auto, using(crate::proofs::Leading::owners_stay))]
    pub(crate) fn enter<M: Enters<C, A, T, W>, N: Protocol<T, W>, A, B: Signs>(
        self,
        past: &mut Past<T, W, N>,
        returned: &A,
        to: &Core<T, W>,
        by: &B,
    )
        requires led { Leads W.will_wake W.SURE_CLONE N.holds past.old self.from.value }
        requires step { IsStep W.Wakes self.from.value
            (M.call self.from.value self.passed.value to.now)
            (M.answer self.from.value returned.now) to.now }
        requires allowed { IsAllowed N.may (M.call self.from.value self.passed.value to.now) }
        ensures leads { Leads W.will_wake W.SURE_CLONE N.holds past.new to.now }
        ensures begun { past.new.begun ≡ past.old.begun }
        ensures entered { past.new.calls ≡ past.old.calls ++ entry_of
            (M.call self.from.value self.passed.value to.now)
            (M.answer self.from.value returned.now) ∷ [] }
        ensures signed { past.new.authors ≡ past.old.authors ++ B.number by.now ∷ [] }
        ensures out { past.new.out ≡ past.old.out }
        ensures owners { is_of_owners (M.call self.from.value self.passed.value to.now) ≡ false
            → owners_of to.now.cell ≡ owners_of self.from.value.cell }
    {
        past.log.push::<_, SignedEntry<M>>(&FinishedCall {
            before: &self,
            returned,
            to,
            by,
        });
    }
}

impl<T, W: Wakes> Before<W, T, W> {
    /// As `enter`, for a call that stored a waker in a place. If the call replaced a waker, this
    /// function adds no entry, because the place's future was already waiting. This function is not
    /// `inline(always)`, so that the compiler first finds that this function is empty. With
    /// `inline(always)`, the `if let` in this function would cost the caller an instruction.
    #[tactic(auto, using(crate::proofs::Exchanging::still_leads))]
    pub(crate) fn enter_stored<N: Protocol<T, W>>(
        self,
        past: &mut Past<T, W, N>,
        stored: &Result<Option<W>, W>,
        to: &Core<T, W>,
    )
        requires led { Leads W.will_wake W.SURE_CLONE N.holds past.old self.from.value }
        requires step { IfOk stored.now (λ before. MatchOption before
            (IsStep W.Wakes self.from.value
            (PollGet self.passed.value) (replies Pending) to.now)
            (λ _. OnlyExchanges W.will_wake self.from.value to.now)) }
        requires unchanged { OnErr stored.now (to.now ≡ self.from.value) }
        ensures leads { Leads W.will_wake W.SURE_CLONE N.holds past.new to.now }
        ensures stands { IfOk stored.now (λ before. IfSome before (λ _. past.new ≡ past.old)) }
        ensures unchanged { OnErr stored.now (past.new ≡ past.old) }
        ensures out { past.new.out ≡ past.old.out }
        ensures owners { owners_of to.now.cell ≡ owners_of self.from.value.cell }
    {
        if let Ok(None) = stored {
            self.enter::<Waits, _, _, _>(past, &(), to, &Nobody);
        }
    }
}

/// A call that was made: what it returned, the core after it, and who signed it.
#[derive(Drop)]
struct FinishedCall<'a, C, A, T, W: Wakes, B> {
    before: &'a Before<C, T, W>,
    returned: &'a A,
    to: &'a Core<T, W>,
    by: &'a B,
}

/// The entry that `M` makes of a call.
struct SignedEntry<M>(PhantomData<M>);

impl<C, A, T, W: Wakes, B: Signs, M: Enters<C, A, T, W>> Makes<
    FinishedCall<'_, C, A, T, W, B>,
    Signed<T, W>,
> for SignedEntry<M> {
    ghost use Rattle.async_cell_history.specs.History.{entry_of};

    ghost entry = { λ made. record {
      who = B.number made.by.now;
      entry = entry_of
          (M.call made.before.now.from.value made.before.now.passed.value made.to.now)
          (M.answer made.before.now.from.value made.returned.now);
    } };
}
