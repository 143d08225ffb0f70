//! Futures that extend a witness.
ghost use Rattle.std.specs.Prelude.{◌≡◌, Some, Err, IfOk, IfSome};
ghost use Rattle.async_cell_model.specs.Refusal.{FailsWithMemory};
ghost use Rattle.async_cell_model.specs.declared.entry.Kept.TheVariants.{TryTake, TryGet};
ghost use Rattle.async_cell_model.specs.declared.refusal.Refusal.TheVariants.{Memory};
ghost use Rattle.async_cell_model.specs.declared.reply.Reply.TheVariants.{Value};
ghost use Rattle.async_cell_history.specs.History.{IsSigned, IsLinearized, IsLinearizedUpTo};
ghost use Rattle.async_cell_step.specs.Rule.{IsCloneOfOne};
ghost use Rattle.async_cell_sync.specs.Names.{IsLost, NameAtMostTheSame};
ghost use Rattle.async_cell_sync.specs.Owned.{cell_owned};
ghost use Rattle.async_cell_sync.specs.Source.{source_of, IsSourceOf};

use crate::async_cell::AsyncCell;
use crate::owner::Owner;
use crate::shared::Shared;
use crate::weak::{Weak, WeakOwner};
use async_cell_calls::{CloningAs, TakingAs, WithCaller};
use async_cell_core::{Refusal, TaskWaker, Wakes};
use async_cell_history::{Protocol, Witness};
use async_cell_step::{At, Polled, Request, Takes, With};
use futures::task::{Context, Poll};
use std::marker::Model;
use std::sync::Wait;

/// A witness of a cell whose value may be taken. Contracts see a `Taker` as what its witness has
/// seen.
#[derive(Drop)]
pub(crate) struct Taker<T, N: Protocol<T, TaskWaker>> {
    witness: Witness<T, TaskWaker, N>,
}

impl<T, N: Protocol<T, TaskWaker>> Model for Taker<T, N> {
    ghost use Rattle.async_cell_model.specs.declared.entry.Kept.TheVariants.{TryTake};
    ghost use Rattle.async_cell_history.specs.History.{Seen};
    ghost use Rattle.async_cell_wakers.specs.declared.task_waker.TaskWaker.{TaskWaker};

    ghost Value = { Seen T TaskWaker };

    ghost view = { λ t. t.witness };

    ghost invariant = { λ _. N.may TryTake };
}

/// A `Take` that extends a witness, and gives it back with the value. In the history, the poll that
/// gives the value and the witness is listed as a `try_take`. A `TakeAs` borrows an owner, so it
/// never fails with `Closed`.
#[derive(Drop)]
pub struct TakeAs<'a, T: Drop, R: Wait + Drop, N: Protocol<T, TaskWaker>> {
    owner: &'a Owner<T, R, N>,
    seen: Taker<T, N>,
}

impl<T: Drop, R: Wait + Drop, N: Protocol<T, TaskWaker>> Request<R> for TakeAs<'_, T, R, N> {
    type Cell = AsyncCell<T, N>;

    fn cell(&self) -> Option<&AsyncCell<T, N>> {
        Some(self.owner.cell())
    }
}

impl<T: Drop, R: Wait + Drop, N: Protocol<T, TaskWaker>> Polled<R> for TakeAs<'_, T, R, N> {
    type Output = Result<(T, Witness<T, TaskWaker, N>), Refusal>;

    ghost waits_for = { λ asked s. s ≡ source_of (cell_owned asked.owner.now) };

    ghost may_give = { λ asked given. FailsWithMemory given
        × IfOk given (λ both. N.holds both.0
        × IsLinearized ⟦<TaskWaker as Wakes>⟧ N.named asked.seen.calls
        TryTake (Value (Some both.0)) both.1.calls × IsSigned asked.seen both.1) };

    #[inline(always)]
    fn poll_at(&self, at: At<'_>, cx: &mut Context<'_>, rt: &R) -> Poll<Self::Output> {
        let Shared { cell, permit } = &self.owner.shared;
        let taking = TakingAs(self.seen.witness.again());
        cell.poll(WithCaller::new(permit, taking), at, cx, rt)
    }
}

/// A `Get` that extends a witness, and gives it back with the clone. In the history, the poll that
/// gives the clone and the witness is listed as a `try_get`. A `GetAs` borrows an owner, so it
/// never fails with `Closed`.
#[derive(Drop)]
pub struct GetAs<'a, T: Drop, R: Wait + Drop, N: Protocol<T, TaskWaker>> {
    owner: &'a Owner<T, R, N>,
    seen: Witness<T, TaskWaker, N>,
}

impl<T: Drop, R: Wait + Drop, N: Protocol<T, TaskWaker>> Request<R> for GetAs<'_, T, R, N> {
    type Cell = AsyncCell<T, N>;

    fn cell(&self) -> Option<&AsyncCell<T, N>> {
        Some(self.owner.cell())
    }
}

impl<T: Clone, R: Wait + Drop, N: Protocol<T, TaskWaker>> Polled<R> for GetAs<'_, T, R, N> {
    type Output = Result<(T, Witness<T, TaskWaker, N>), Refusal>;

    ghost waits_for = { λ asked s. s ≡ source_of (cell_owned asked.owner.now) };

    ghost may_give = { λ asked given. FailsWithMemory given
        × IfOk given (λ both. IsCloneOfOne T.is_clone N.holds both.0
        × IsLinearizedUpTo T.is_clone ⟦<TaskWaker as Wakes>⟧ N.named asked.seen.calls
        TryGet (Value (Some both.0)) both.1.calls × IsSigned asked.seen both.1) };

    #[inline(always)]
    fn poll_at(&self, at: At<'_>, cx: &mut Context<'_>, rt: &R) -> Poll<Self::Output> {
        self.seen.lawful();
        let Shared { cell, permit } = &self.owner.shared;
        let asked = WithCaller::new(permit, CloningAs(self.seen.again()));
        cell.poll(asked, at, cx, rt)
    }
}

impl<T: Drop, R: Wait + Copy, N: Protocol<T, TaskWaker>> Owner<T, R, N> {
    /// As `take`, but the future extends the witness, and gives it back with the value.
    pub fn take_as(&self, seen: Witness<T, TaskWaker, N>) -> With<TakeAs<'_, T, R, N>, R>
        requires may { N.may TryTake }
        ensures of_this { result.polled.owner.now ≡ self.now }
        ensures seen { result.polled.seen ≡ seen }
    {
        let seen = Taker { witness: seen };
        With::new(TakeAs { owner: self, seen }, self.rt)
    }

    /// As `get`, but the future extends the witness, and gives it back with the clone.
    pub fn get_as(&self, seen: Witness<T, TaskWaker, N>) -> With<GetAs<'_, T, R, N>, R>
    where
        T: Clone,
        ensures of_this { result.polled.owner.now ≡ self.now }
        ensures seen { result.polled.seen ≡ seen }
    {
        With::new(GetAs { owner: self, seen }, self.rt)
    }
}

/// Like `TakeAs`, but has a weak pointer in place of an owner. The future gives `None` once the
/// last owner has ended. `values` turns the future into a stream. About the values in this stream,
/// the contract says only that they satisfy the rule.
#[derive(Drop)]
pub struct TakeWeakAs<T, N: Protocol<T, TaskWaker>> {
    weak: Weak<T, N>,
    seen: Taker<T, N>,
}

impl<T: Drop, R: Wait, N: Protocol<T, TaskWaker>> Request<R> for TakeWeakAs<T, N> {
    type Cell = AsyncCell<T, N>;

    ghost is_lost = { λ asked. IsLost asked.weak };

    fn cell(&self) -> Option<&AsyncCell<T, N>> {
        self.weak.cell().ok()
    }
}

impl<T: Drop, R: Wait, N: Protocol<T, TaskWaker>> Polled<R> for TakeWeakAs<T, N> {
    type Output = Result<Option<(T, Witness<T, TaskWaker, N>)>, Refusal>;

    ghost waits_for = { λ asked. IsSourceOf asked.weak };

    ghost may_give = { λ asked given. FailsWithMemory given
        × (IsLost asked.weak → given ≡ Err Memory)
        × IfOk given (λ found. IfSome found (λ both. N.holds both.0))
        × IfOk given (λ found. IfSome found (λ both.
        IsLinearized ⟦<TaskWaker as Wakes>⟧ N.named asked.seen.calls
        TryTake (Value (Some both.0)) both.1.calls × IsSigned asked.seen both.1)) };

    fn poll_at(&self, at: At<'_>, cx: &mut Context<'_>, rt: &R) -> Poll<Self::Output> {
        let taking = TakingAs(self.seen.witness.again());
        self.weak.poll(taking, at, cx, rt)
    }
}

impl<T: Drop, R: Wait, N: Protocol<T, TaskWaker>> Takes<R> for TakeWeakAs<T, N> {
    type Value = (T, Witness<T, TaskWaker, N>);

    ghost holds = { λ both. N.holds both.0 };

    ghost lacks_memory = { λ _ _ given. given.0 };

    ghost gives_held = { λ _ _ given. given.2 };
}

/// Like `GetAs`, but has a weak pointer in place of an owner. The future gives `None` once the last
/// owner has ended.
#[derive(Drop)]
pub struct GetWeakAs<T, N: Protocol<T, TaskWaker>> {
    weak: Weak<T, N>,
    seen: Witness<T, TaskWaker, N>,
}

impl<T: Drop, R: Wait, N: Protocol<T, TaskWaker>> Request<R> for GetWeakAs<T, N> {
    type Cell = AsyncCell<T, N>;

    ghost is_lost = { λ asked. IsLost asked.weak };

    fn cell(&self) -> Option<&AsyncCell<T, N>> {
        self.weak.cell().ok()
    }
}

impl<T: Clone, R: Wait, N: Protocol<T, TaskWaker>> Polled<R> for GetWeakAs<T, N> {
    type Output = Result<Option<(T, Witness<T, TaskWaker, N>)>, Refusal>;

    ghost waits_for = { λ asked. IsSourceOf asked.weak };

    ghost may_give = { λ asked given. FailsWithMemory given
        × (IsLost asked.weak → given ≡ Err Memory)
        × IfOk given (λ found. IfSome found (λ both. IsCloneOfOne T.is_clone N.holds both.0
        × IsLinearizedUpTo T.is_clone ⟦<TaskWaker as Wakes>⟧ N.named asked.seen.calls
        TryGet (Value (Some both.0)) both.1.calls × IsSigned asked.seen both.1)) };

    fn poll_at(&self, at: At<'_>, cx: &mut Context<'_>, rt: &R) -> Poll<Self::Output> {
        self.weak.poll(CloningAs(self.seen.again()), at, cx, rt)
    }
}

impl<T: Drop, R: Wait + Copy, N: Protocol<T, TaskWaker>> WeakOwner<T, R, N> {
    /// As `take`, but the future extends the witness, and gives it back with the value.
    pub fn take_as(&self, seen: Witness<T, TaskWaker, N>) -> With<TakeWeakAs<T, N>, R>
        requires may { N.may TryTake }
        ensures of_this { NameAtMostTheSame self.now.weak result.polled.weak }
        ensures seen { result.polled.seen ≡ seen }
    {
        let (weak, seen) = (self.weak.again(), Taker { witness: seen });
        With::new(TakeWeakAs { weak, seen }, self.rt)
    }

    /// As `get`, but the future extends the witness, and gives it back with the clone.
    pub fn get_as(&self, seen: Witness<T, TaskWaker, N>) -> With<GetWeakAs<T, N>, R>
    where
        T: Clone,
        ensures of_this { NameAtMostTheSame self.now.weak result.polled.weak }
        ensures seen { result.polled.seen ≡ seen }
    {
        let weak = self.weak.again();
        With::new(GetWeakAs { weak, seen }, self.rt)
    }
}
