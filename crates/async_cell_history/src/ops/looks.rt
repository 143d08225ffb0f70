//! The calls that write no value: they look for one, take it, or wait for it.
ghost use Rattle.std.specs.Prelude.{◌≡◌, true, IfOk, IfSome, IsOk};
ghost use Rattle.async_cell_model.specs.declared.entry.Kept.TheVariants as kept;
ghost use Rattle.async_cell_model.specs.declared.reply.Reply.TheVariants as reply;
ghost use Rattle.async_cell_model.specs.Machine.{UpToClones, content, is_full};
ghost use Rattle.async_cell_model.specs.Refusal.{FailsWithMemory};
ghost use Rattle.async_cell_core.specs.Polled.{IsCloneOf, poll_reply};
ghost use Rattle.async_cell_step.specs.Rule.{IsCloneOfOne};
ghost use Rattle.futures.specs.Poll.{IfReady};
ghost use Rattle.async_cell_history.specs.History.{get_reply, own_poll};

use crate::{Op, Protocol};
use async_cell_core::{Core, Poll, Refusal, Wakes};
use async_cell_step::Deferred;

/// Takes the value, if there is one.
#[derive(Drop)]
pub struct TryTake;

/// Returns a clone of the value, if there is one. Fails with `Memory` if the clone fails.
#[derive(Drop)]
pub struct TryGet;

/// Returns whether there is a value.
#[derive(Drop)]
pub struct IsSet;

impl<T: Drop, W: Wakes, N: Protocol<T, W>> Op<T, W, N> for TryTake {
    type Answer = Option<T>;

    type After = ();

    type FastAfter = ();

    ghost can = { λ _. N.may kept.TryTake };

    ghost call = { λ _ _ _. kept.TryTake };

    ghost reply = { λ _ taken. reply.Value taken };

    ghost gives = { λ _ _ taken _. IfSome taken N.holds };

    #[inline(always)]
    fn make(self, core: &mut Core<T, W>) -> Deferred<Option<T>> {
        Deferred::of(core.try_take())
    }

    #[inline(always)]
    fn unlent(self) -> Option<T> {
        None
    }
}

impl<T: Clone, W: Wakes, N: Protocol<T, W>> Op<T, W, N> for TryGet {
    type Answer = Result<Option<T>, Refusal>;

    type After = ();

    type FastAfter = ();

    ghost call = { λ _ _ _. kept.TryGet };

    ghost reply = { λ from copied. get_reply (content from.cell) copied };

    ghost gives = { λ from _ copied _. FailsWithMemory copied
        × IfOk copied (IsCloneOf T.is_clone (content from.cell))
        × IfOk copied (λ found. IfSome found (IsCloneOfOne T.is_clone N.holds))
        × (((value : T) → T.is_infallible value) → IsOk copied) };

    #[inline(always)]
    fn make(self, core: &mut Core<T, W>) -> Deferred<Result<Option<T>, Refusal>> {
        Deferred::of(core.try_get())
    }

    #[inline(always)]
    fn unlent(self) -> Result<Option<T>, Refusal> {
        Ok(None)
    }
}

impl<T: Drop, W: Wakes, N: Protocol<T, W>> Op<T, W, N> for IsSet {
    type Answer = bool;

    type After = ();

    type FastAfter = ();

    ghost call = { λ _ _ _. kept.IsSet };

    ghost reply = { λ _ is_set. reply.Is is_set };

    #[inline(always)]
    fn make(self, core: &mut Core<T, W>) -> Deferred<bool> {
        Deferred::of(core.is_set())
    }

    #[inline(always)]
    fn unlent(self) -> bool {
        false
    }
}

/// Takes the value, or registers the waker. Fails with `Memory` if the waker cannot be registered,
/// because its clone fails or there is no memory to grow the wait list.
#[derive(Drop)]
pub struct PollTake<'a, W>(pub &'a W);

/// Clones the value during the step, or registers the waker. Fails with `Memory` if the clone of
/// the value fails. Also fails with `Memory` if the waker cannot be registered, because its clone
/// fails or there is no memory to grow the wait list.
#[derive(Drop)]
pub struct PollGet<'a, W>(pub &'a W);

impl<T: Drop, W: Wakes, N: Protocol<T, W>> Op<T, W, N> for PollTake<'_, W> {
    type Answer = Result<Poll<Option<T>>, Refusal>;

    type After = ();

    type FastAfter = ();

    ghost can = { λ op. N.may (kept.PollTake op.0.now) };

    ghost call = { λ _ op _. kept.PollTake op.0.now };

    ghost reply = { λ _ polled. poll_reply polled };

    ghost gives = { λ _ _ polled _. FailsWithMemory polled
        × IfOk polled (λ answer. IfReady answer (λ taken. IfSome taken N.holds)) };

    #[inline(always)]
    fn make(self, core: &mut Core<T, W>) -> Deferred<Result<Poll<Option<T>>, Refusal>> {
        Deferred::of(core.poll_take(self.0))
    }

    #[inline(always)]
    fn unlent(self) -> Result<Poll<Option<T>>, Refusal> {
        Err(Refusal::Memory)
    }
}

impl<T: Clone, W: Wakes, N: Protocol<T, W>> Op<T, W, N> for PollGet<'_, W> {
    type Answer = Result<Poll<Option<T>>, Refusal>;

    type After = ();

    type FastAfter = ();

    ghost call = { λ _ op _. kept.PollGet op.0.now };

    ghost reply = { λ from polled. own_poll (content from.cell) polled };

    ghost gives = { λ from op polled _. FailsWithMemory polled
        × UpToClones T.is_clone (kept.PollGet op.0.now)
        (own_poll (content from.cell) polled) (poll_reply polled)
        × (is_full from.cell ≡ true → ((value : T) → T.is_infallible value) → IsOk polled)
        × IfOk polled (λ answer. IfReady answer (λ found.
        IfSome found (IsCloneOfOne T.is_clone N.holds))) };

    #[inline(always)]
    fn make(self, core: &mut Core<T, W>) -> Deferred<Result<Poll<Option<T>>, Refusal>> {
        Deferred::of(core.poll_get(self.0))
    }

    #[inline(always)]
    fn unlent(self) -> Result<Poll<Option<T>>, Refusal> {
        Err(Refusal::Memory)
    }
}
