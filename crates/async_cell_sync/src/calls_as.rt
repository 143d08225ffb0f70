//! The calls that extend a witness. After such a call, the witness knows the cell's history up to
//! the call, and the call's reply. A failed update shows it only that the cell is closed, and an
//! `another_as` that fails with `Memory` need not show it anything. Any number of threads may make
//! such calls, each thread with a witness of its own.
ghost use Rattle.std.specs.Prelude.{◌≡◌, false, Option, Some, None, IfErr, IfOk, IfSome, IsOk, IsSomeAnd, OnErr, OnOk};
ghost use mathlib.Core.List.{IsPrefix};
ghost use Rattle.async_cell_model.specs.Machine.{State, is_closed};
ghost use Rattle.async_cell_model.specs.Refusal.{FailsWithClosed, FailsWithMemory, IsOwnerRefusal};
ghost use Rattle.async_cell_history.specs.History.{IsSigned, IsLinearized, IsSeenClosed, IsLinearizedUpTo, set_reply, write_reply, end_reply};
ghost use Rattle.async_cell_step.specs.Rule.{IsCloneOfOne};
ghost use Rattle.async_cell_sync.specs.Owned.{cell_owned};

use crate::async_cell::AsyncCell;
use crate::owner::Owner;
use crate::shared::Shared;
use async_cell_core::{Refusal, TaskWaker, Wakes};
use async_cell_history::{
    Anyone, IsSet, Op, OrSet, Protocol, Replace, Set, TryGet, TryTake, Update, UpdateSome, Witness,
};
use async_cell_model::{Kept, Reply};
use std::sync::Wait;

impl<T: Drop, N: Protocol<T, TaskWaker>> AsyncCell<T, N> {
    /// Makes the call, and shows it to the witness.
    #[inline(always)]
    fn make_as<O: Op<T, TaskWaker, N>, R: Wait>(
        &self,
        op: O,
        seen: &mut Witness<T, TaskWaker, N>,
        rt: &R,
    ) -> O::Answer
        requires can { O.can op }
        ensures made { (from to : State _ _) × O.gives from op result to
            × IsLinearized ⟦<TaskWaker as Wakes>⟧ N.named seen.old.calls
            (O.call from op to) (O.reply from result) seen.new.calls }
        ensures signed { IsSigned seen.old seen.new }
    {
        self.core.make(op, &Anyone, seen, rt)
    }

    /// Sets the value, drops the old one and wakes all waiters. Fails on a closed cell, and then
    /// returns the value.
    pub fn set_as<R: Wait>(
        &self,
        seen: &mut Witness<T, TaskWaker, N>,
        value: T,
        rt: &R,
    ) -> Result<(), T>
        requires may { N.may (Kept.Set value) }
        ensures linearized { IsLinearized ⟦<TaskWaker as Wakes>⟧ N.named seen.old.calls
            (Kept.Set value) (set_reply result) seen.new.calls }
        ensures signed { IsSigned seen.old seen.new }
        ensures comes_back { IfErr result (λ back. back ≡ value) }
    {
        self.make_as(Set(value), seen, rt)
    }

    /// Sets the value, wakes all waiters and returns the old value. Fails on a closed cell, and
    /// then returns the new value in the error.
    pub fn replace_as<R: Wait>(
        &self,
        seen: &mut Witness<T, TaskWaker, N>,
        value: T,
        rt: &R,
    ) -> Result<Option<T>, T>
        requires may { N.may (Kept.Replace value) }
        ensures linearized { IsLinearized ⟦<TaskWaker as Wakes>⟧ N.named seen.old.calls
            (Kept.Replace value) (write_reply result) seen.new.calls }
        ensures signed { IsSigned seen.old seen.new }
        ensures rule { IfOk result (λ old. IfSome old N.holds) }
        ensures comes_back { IfErr result (λ back. back ≡ value) }
    {
        self.make_as(Replace(value), seen, rt)
    }

    /// If an open cell holds no value, sets `value` and wakes all waiters. Otherwise returns
    /// `value`, in `Ok` if the cell already holds a value, and in `Err` if the cell is closed.
    pub fn or_set_as<R: Wait>(
        &self,
        seen: &mut Witness<T, TaskWaker, N>,
        value: T,
        rt: &R,
    ) -> Result<Option<T>, T>
        requires may { N.may (Kept.OrSet value) }
        ensures linearized { IsLinearized ⟦<TaskWaker as Wakes>⟧ N.named seen.old.calls
            (Kept.OrSet value) (write_reply result) seen.new.calls }
        ensures signed { IsSigned seen.old seen.new }
        ensures comes_back { IfErr result (λ back. back ≡ value) }
    {
        self.make_as(OrSet(value), seen, rt)
    }

    /// Takes the value, if there is one.
    pub fn try_take_as<R: Wait>(&self, seen: &mut Witness<T, TaskWaker, N>, rt: &R) -> Option<T>
        requires may { N.may Kept.TryTake }
        ensures linearized { IsLinearized ⟦<TaskWaker as Wakes>⟧ N.named seen.old.calls
            Kept.TryTake (Reply.Value result) seen.new.calls }
        ensures signed { IsSigned seen.old seen.new }
        ensures rule { IfSome result N.holds }
    {
        self.make_as(TryTake, seen, rt)
    }

    /// Returns a clone of the value, if there is one. Fails with `Memory` if the clone fails.
    pub fn try_get_as<R: Wait>(
        &self,
        seen: &mut Witness<T, TaskWaker, N>,
        rt: &R,
    ) -> Result<Option<T>, Refusal>
    where
        T: Clone,
        ensures linearized { IsLinearizedUpTo T.is_clone ⟦<TaskWaker as Wakes>⟧ N.named
            seen.old.calls Kept.TryGet (end_reply result) seen.new.calls }
        ensures signed { IsSigned seen.old seen.new }
        ensures rule { IfOk result (λ found. IfSome found (IsCloneOfOne T.is_clone N.holds)) }
        ensures refused { FailsWithMemory result }
    {
        self.make_as(TryGet, seen, rt)
    }

    /// Returns whether the cell holds a value.
    pub fn is_set_as<R: Wait>(&self, seen: &mut Witness<T, TaskWaker, N>, rt: &R) -> bool
        ensures linearized { IsLinearized ⟦<TaskWaker as Wakes>⟧ N.named seen.old.calls
            Kept.IsSet (Reply.Is result) seen.new.calls }
        ensures signed { IsSigned seen.old seen.new }
    {
        self.make_as(IsSet, seen, rt)
    }

    /// As `Owner::update`. On a closed cell it fails with `Closed`, and does not call the closure.
    /// The witness then knows that the cell is closed.
    pub fn update_as<F: FnOnce(Option<T>) -> Option<T> + Drop, R: Wait>(
        &self,
        seen: &mut Witness<T, TaskWaker, N>,
        change: F,
        rt: &R,
    ) -> Result<(), Refusal>
        requires callable { F.IsAlwaysCallable change }
        requires may { (saw put : Option T) → IfSome saw N.holds → F.post change saw put
            → N.may (Kept.Update saw put) }
        requires may_fail { N.may (Kept.Update None None) }
        ensures linearized { OnOk result ((saw put : Option T)
            × IsLinearized ⟦<TaskWaker as Wakes>⟧ N.named seen.old.calls
            (Kept.Update saw put) Reply.Done seen.new.calls × F.post change saw put) }
        ensures signed { OnOk result (IsSigned seen.old seen.new) }
        ensures seen_closed { OnErr result (IsSeenClosed N.named seen.old seen.new) }
        ensures refused { FailsWithClosed result }
    {
        self.make_as(Update(change), seen, rt)
    }

    /// As `update_as`, but the closure is given a value and returns a value. If the cell holds no
    /// value, the closure is not called.
    pub fn update_some_as<F: FnOnce(T) -> T + Drop, R: Wait>(
        &self,
        seen: &mut Witness<T, TaskWaker, N>,
        change: F,
        rt: &R,
    ) -> Result<(), Refusal>
        requires callable { F.IsAlwaysCallable change }
        requires may { (old new : T) → N.holds old → F.post change old new
            → N.may (Kept.UpdateSome (Some old) (Some new)) }
        requires may_fail { N.may (Kept.UpdateSome None None) }
        ensures linearized { OnOk result ((saw put : Option T)
            × IsLinearized ⟦<TaskWaker as Wakes>⟧ N.named seen.old.calls
            (Kept.UpdateSome saw put) Reply.Done seen.new.calls
            × IfSome saw (λ old. IsSomeAnd put (λ new. F.post change old new))) }
        ensures signed { OnOk result (IsSigned seen.old seen.new) }
        ensures seen_closed { OnErr result (IsSeenClosed N.named seen.old seen.new) }
        ensures refused { FailsWithClosed result }
    {
        self.make_as(UpdateSome(change), seen, rt)
    }
}

impl<T: Drop, R: Wait + Drop, N: Protocol<T, TaskWaker>> Owner<T, R, N> {
    /// As `AsyncCell::make_as`. This owner shows that the cell is open. `set_as`, `try_take_as` and
    /// `try_get_as` call the core themselves, because that saves two instructions.
    #[inline(always)]
    fn make_as<O: Op<T, TaskWaker, N>>(
        &self,
        op: O,
        seen: &mut Witness<T, TaskWaker, N>,
    ) -> O::Answer
        requires can { O.can op }
        ensures made { (from to : State _ _) × O.gives from op result to
            × (is_closed from.cell ≡ false)
            × IsLinearized ⟦<TaskWaker as Wakes>⟧ N.named seen.old.calls
            (O.call from op to) (O.reply from result) seen.new.calls }
        ensures signed { IsSigned seen.old seen.new }
    {
        seen.lawful();
        let Shared { cell, permit } = &self.shared;
        cell.core.make(op, permit, seen, &self.rt)
    }

    /// As `AsyncCell::set_as`, but never fails.
    pub fn set_as(&self, seen: &mut Witness<T, TaskWaker, N>, value: T) -> Result<(), T>
        requires may { N.may (Kept.Set value) }
        ensures linearized { IsLinearized ⟦<TaskWaker as Wakes>⟧ N.named seen.old.calls
            (Kept.Set value) (set_reply result) seen.new.calls }
        ensures signed { IsSigned seen.old seen.new }
        ensures open { IsOk result }
        ensures comes_back { IfErr result (λ back. back ≡ value) }
    {
        let Shared { cell, permit } = &self.shared;
        seen.lawful();
        cell.core.make(Set(value), permit, seen, &self.rt)
    }

    /// As `AsyncCell::replace_as`, but never fails.
    pub fn replace_as(&self, seen: &mut Witness<T, TaskWaker, N>, value: T) -> Result<Option<T>, T>
        requires may { N.may (Kept.Replace value) }
        ensures linearized { IsLinearized ⟦<TaskWaker as Wakes>⟧ N.named seen.old.calls
            (Kept.Replace value) (write_reply result) seen.new.calls }
        ensures signed { IsSigned seen.old seen.new }
        ensures rule { IfOk result (λ old. IfSome old N.holds) }
        ensures open { IsOk result }
        ensures comes_back { IfErr result (λ back. back ≡ value) }
    {
        self.make_as(Replace(value), seen)
    }

    /// As `AsyncCell::or_set_as`, but never fails.
    pub fn or_set_as(&self, seen: &mut Witness<T, TaskWaker, N>, value: T) -> Result<Option<T>, T>
        requires may { N.may (Kept.OrSet value) }
        ensures linearized { IsLinearized ⟦<TaskWaker as Wakes>⟧ N.named seen.old.calls
            (Kept.OrSet value) (write_reply result) seen.new.calls }
        ensures signed { IsSigned seen.old seen.new }
        ensures open { IsOk result }
        ensures comes_back { IfErr result (λ back. back ≡ value) }
    {
        self.make_as(OrSet(value), seen)
    }

    /// Takes the value, if there is one.
    pub fn try_take_as(&self, seen: &mut Witness<T, TaskWaker, N>) -> Option<T>
        requires may { N.may Kept.TryTake }
        ensures linearized { IsLinearized ⟦<TaskWaker as Wakes>⟧ N.named seen.old.calls
            Kept.TryTake (Reply.Value result) seen.new.calls }
        ensures signed { IsSigned seen.old seen.new }
        ensures rule { IfSome result N.holds }
    {
        self.shared.cell.core.make(TryTake, &Anyone, seen, &self.rt)
    }

    /// Returns a clone of the value, if there is one. Fails with `Memory` if the clone fails.
    pub fn try_get_as(&self, seen: &mut Witness<T, TaskWaker, N>) -> Result<Option<T>, Refusal>
    where
        T: Clone,
        ensures linearized { IsLinearizedUpTo T.is_clone ⟦<TaskWaker as Wakes>⟧ N.named
            seen.old.calls Kept.TryGet (end_reply result) seen.new.calls }
        ensures signed { IsSigned seen.old seen.new }
        ensures rule { IfOk result (λ found. IfSome found (IsCloneOfOne T.is_clone N.holds)) }
        ensures refused { FailsWithMemory result }
    {
        self.shared.cell.core.make(TryGet, &Anyone, seen, &self.rt)
    }

    /// Returns whether the cell holds a value.
    pub fn is_set_as(&self, seen: &mut Witness<T, TaskWaker, N>) -> bool
        ensures linearized { IsLinearized ⟦<TaskWaker as Wakes>⟧ N.named seen.old.calls
            Kept.IsSet (Reply.Is result) seen.new.calls }
        ensures signed { IsSigned seen.old seen.new }
    {
        self.make_as(IsSet, seen)
    }

    /// As `AsyncCell::update_as`, but never fails.
    pub fn update_as<F: FnOnce(Option<T>) -> Option<T> + Drop>(
        &self,
        seen: &mut Witness<T, TaskWaker, N>,
        change: F,
    ) -> Result<(), Refusal>
        requires callable { F.IsAlwaysCallable change }
        requires may { (saw put : Option T) → IfSome saw N.holds → F.post change saw put
            → N.may (Kept.Update saw put) }
        requires may_fail { N.may (Kept.Update None None) }
        ensures linearized { OnOk result ((saw put : Option T)
            × IsLinearized ⟦<TaskWaker as Wakes>⟧ N.named seen.old.calls
            (Kept.Update saw put) Reply.Done seen.new.calls × F.post change saw put) }
        ensures signed { OnOk result (IsSigned seen.old seen.new) }
        ensures seen_closed { OnErr result (IsSeenClosed N.named seen.old seen.new) }
        ensures open { IsOk result }
        ensures refused { FailsWithClosed result }
    {
        self.make_as(Update(change), seen)
    }

    /// As `AsyncCell::update_some_as`, but never fails.
    pub fn update_some_as<F: FnOnce(T) -> T + Drop>(
        &self,
        seen: &mut Witness<T, TaskWaker, N>,
        change: F,
    ) -> Result<(), Refusal>
        requires callable { F.IsAlwaysCallable change }
        requires may { (old new : T) → N.holds old → F.post change old new
            → N.may (Kept.UpdateSome (Some old) (Some new)) }
        requires may_fail { N.may (Kept.UpdateSome None None) }
        ensures linearized { OnOk result ((saw put : Option T)
            × IsLinearized ⟦<TaskWaker as Wakes>⟧ N.named seen.old.calls
            (Kept.UpdateSome saw put) Reply.Done seen.new.calls
            × IfSome saw (λ old. IsSomeAnd put (λ new. F.post change old new))) }
        ensures signed { OnOk result (IsSigned seen.old seen.new) }
        ensures seen_closed { OnErr result (IsSeenClosed N.named seen.old seen.new) }
        ensures open { IsOk result }
        ensures refused { FailsWithClosed result }
    {
        self.make_as(UpdateSome(change), seen)
    }
}

impl<T: Drop, R: Wait + Copy, N: Protocol<T, TaskWaker>> Owner<T, R, N> {
    /// Adds an owner, as `another` does. Fails with `Memory` or `OwnersFull`.
    pub fn another_as(&self, seen: &mut Witness<T, TaskWaker, N>) -> Result<Self, Refusal>
        ensures linearized { OnOk result (IsLinearized ⟦<TaskWaker as Wakes>⟧ N.named
            seen.old.calls Kept.AddOwner Reply.Done seen.new.calls) }
        ensures signed { OnOk result (IsSigned seen.old seen.new) }
        ensures refusal_linearized { IfErr result (λ why. ¬ (why ≡ Refusal.Memory)
            → IsLinearized ⟦<TaskWaker as Wakes>⟧ N.named seen.old.calls
            Kept.AddOwner (Reply.Refused why None) seen.new.calls) }
        ensures goes_on { IsPrefix seen.old.calls seen.new.calls }
        ensures of_this { IfOk result (λ owner. cell_owned owner ≡ cell_owned self.now) }
        ensures open { IfErr result (λ why. ¬ (why ≡ Refusal.Closed)) }
        ensures refused { IfErr result IsOwnerRefusal }
    {
        seen.lawful();
        let Shared { cell, permit } = &self.shared;
        match Shared::counted(cell, permit, seen, &self.rt) {
            Ok(shared) => Ok(shared.with(self.rt)),
            Err(why) => Err(why),
        }
    }
}
