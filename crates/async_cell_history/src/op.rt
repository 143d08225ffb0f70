//! Calls as values. One function makes any of these calls in one step, with or without a witness.
ghost use Rattle.std.specs.Prelude.{◌≡◌, ⊤, false, None, IfOk, IfSome, OnErr, IfErr};
ghost use Rattle.async_cell_model.specs.declared.entry.Kept.{Kept};
ghost use Rattle.async_cell_model.specs.declared.reply.Reply.{Reply};
ghost use Rattle.async_cell_model.specs.Machine.{State, Does, content};
ghost use Rattle.async_cell_history.specs.History.{IsAllowed, is_of_owners, start_of};

use crate::{Enters, Protocol};
use async_cell_core::{Core, Wakes};
use async_cell_step::{After, Deferred};
use std::marker::PhantomData;

/// A call of a cell, as a value. Only contracts read its ghost members.
pub trait Op<T: Drop, W: Wakes, N: Protocol<T, W>>: Sized {
    /// What it returns.
    type Answer;

    /// The wakers to wake, and the values to drop, after the step.
    type After: After<W>;

    /// The same, on its fast path.
    type FastAfter: After<W>;

    /// Whether it has a fast path.
    const IS_FAST: bool = false;

    /// What it requires.
    ghost can: { Self → Type 0 } = { λ _. ⊤ };

    /// The call of the model, by the states before and after it.
    ghost call: { State T W → Self → State T W → Kept T W };

    /// The reply of the model.
    ghost reply: { State T W → Self.Answer → Reply T };

    /// What is known of the answer.
    ghost gives: { State T W → Self → Self.Answer → State T W → Type 0 } = { λ _ _ _ _. ⊤ };

    /// What is known of `After`.
    ghost leaves: { State T W → Self → Self.After → Type 0 } = { λ _ _ _. ⊤ };

    /// What is known of `FastAfter`.
    ghost leaves_fast: { State T W → Self → Self.FastAfter → Type 0 } = { λ _ _ _. ⊤ };

    /// Makes the call.
    fn make(self, core: &mut Core<T, W>) -> Deferred<Self::Answer, Self::After>
        requires can { can self }
        requires rule { IfSome (content core.old.cell) N.holds }
        ensures made { Does W.will_wake W.SURE_CLONE core.old
            (record { call = call core.old self core.new; reply = reply core.old result.answer })
            (Self.After.wakes result.woken) core.new }
        ensures allowed { IsAllowed N.may (call core.old self core.new) }
        ensures of_content { is_of_owners (call core.old self core.new) ≡ false }
        ensures gives { gives core.old self result.answer core.new }
        ensures leaves { leaves core.old self result.woken };

    /// Makes the call, if it has a fast path and wakes at most one waker. Otherwise returns the
    /// call in the error.
    #[inline(always)]
    fn fast(self, core: &mut Core<T, W>) -> Result<Deferred<Self::Answer, Self::FastAfter>, Self>
        requires can { can self }
        requires rule { IfSome (content core.old.cell) N.holds }
        ensures made { IfOk result (λ held. Does W.will_wake W.SURE_CLONE core.old
            (record { call = call core.old self core.new; reply = reply core.old held.answer })
            (Self.FastAfter.wakes held.woken) core.new) }
        ensures allowed { IfOk result (λ _. IsAllowed N.may (call core.old self core.new)) }
        ensures of_content { IfOk result (λ _.
            is_of_owners (call core.old self core.new) ≡ false) }
        ensures gives { IfOk result (λ held. gives core.old self held.answer core.new) }
        ensures leaves { IfOk result (λ held. leaves_fast core.old self held.woken) }
        ensures comes_back { IfErr result (λ back. back ≡ self) }
        ensures unchanged { OnErr result (core.new ≡ core.old) }
    {
        let _ = core;
        Err(self)
    }

    /// Returns what the call returns if no core is lent: the same as on a closed cell, but `Memory`
    /// for a poll.
    fn unlent(self) -> Self::Answer
        ensures gives { gives (start_of None) self result (start_of None) };
}

/// The entry of a call that was made.
pub(crate) struct RunsOp<N, O>(PhantomData<(N, O)>);

impl<T, W, N, O, L> Enters<O, Deferred<O::Answer, L>, T, W> for RunsOp<N, O>
where
    T: Drop,
    W: Wakes,
    N: Protocol<T, W>,
    O: Op<T, W, N>,
    L: After<W>,
{
    ghost call = { O.call };

    ghost answer = { λ from held. record
        { reply = O.reply from held.answer; woken = L.wakes held.woken } };
}
