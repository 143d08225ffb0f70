ghost use Rattle.std.specs.Prelude.{◌≡◌, ◌↔◌, ◌≤◌, ◌⊎◌, Bool, Option, length, vec_len};
ghost use Rattle.std.specs.{Prelude.IsOk, Prelude.IfOk, Prelude.IfErr, List.sum_by};
ghost use Rattle.async_cell_model.specs.Refusal.{FailsWithMemory};
ghost use Rattle.async_cell_recorded.specs.Recording.{IsRecorded};
ghost use Rattle.async_cell_recorded.specs.Answering.{IsCallResult};
ghost use Rattle.async_cell_model.specs.{Machine.reply, declared.cell.Cell.Cell};
ghost use Rattle.async_cell_runs.specs.Kept.{kept_call};
ghost use Rattle.async_cell_recorded.specs.Counting.{new_shares, picked};

use crate::share::ShareCount;
use crate::{
    Blanks, Call, Edit, Entry, History, Journal, Named, Pick, Refusal, Reply, Share, Wakers,
};
use async_cell_model::Kept;
use async_cell_runs::NoEdit;
use std::alloc::Global;
use std::sync::{Mutex, Wait};

/// A cell whose calls are recorded, in the order in which they take effect. Threads use the cell by
/// reference, and each thread makes its calls with its own `Share`. In proofs, the type `M` tells
/// this cell from others.
///
/// A call waits for the cell's lock, then takes effect in one step, and adds one entry to the
/// history. It returns its entry, and the names of the wakers that its caller must wake. If the
/// cell refuses a call, the call still adds an entry. The entry's reply is the refusal, such as
/// `Closed`.
///
/// Only a call that returns `Err` leaves no entry. It fails with `Memory`, or with `OutOfTurn` if
/// the share's count is not the number of its entries in the history. `OutOfTurn` happens in no
/// test, but no contract excludes it. An edit runs under the lock. If it calls its own cell, it
/// waits forever.
#[derive(Drop)]
pub struct Recorded<T, M: Pick<T>> {
    journal: Mutex<Journal<T, M>>,
    count: ShareCount<M>,
}

/// The result of a recorded call: its entry and the names to wake, or why there is no entry.
pub type CallResult<T> = Result<(Entry<T>, Wakers<Named>), Refusal>;

/// A call that takes no edit.
type NoEditCall<T> = Call<T, Named, NoEdit>;

impl<T: Copy, M: Pick<T>> Recorded<T, M> {
    /// Makes an open cell without a value and with one owner for each share. Also makes the shares
    /// of the cell, numbered from 0. Fails with `Memory` if there is no memory.
    pub fn new(alloc: Global, shares: u32, blanks: Blanks) -> Result<(Self, Vec<Share<M>>), Refusal>
        requires some { 1 ≤ shares }
        requires shares { shares ≡ M.shares }
        requires calls { (blanks.calls.name ≡ M.calls) × (blanks.calls.parts ≡ M.shares) }
        requires picked { (blanks.picked.name ≡ M.picked) × (blanks.picked.parts ≡ M.shares) }
        ensures one_each { IfOk result (λ new. vec_len new.1 ≡ shares) }
        ensures new_shares { IfOk result (λ new. new.1.items ≡ new_shares shares) }
        ensures refused { FailsWithMemory result }
    {
        let (journal, made) = Journal::new(alloc, shares, blanks)?;
        let cell = Recorded {
            journal: Mutex::new(journal),
            count: ShareCount::new(shares),
        };
        Ok((cell, made))
    }

    /// Takes the cell and all of its shares, in any order, and returns the history. If a share is
    /// missing, the cell and the shares are returned in the error as they were. The history is
    /// legal. Its length is the total number of calls that the shares count. The number of the
    /// history's entries that pass the marker's test (`M.pick`) is the sum of the shares' counts of
    /// picked results. Takes no lock and no memory.
    pub fn finish(
        self,
        shares: Vec<Share<M>>,
    ) -> Result<History<T>, (Recorded<T, M>, Vec<Share<M>>)>
        ensures all { IsOk result ↔ (vec_len shares ≡ M.shares) }
        ensures begins { IfOk result (λ history. history.begin ≡ M.shares) }
        ensures recorded { IfOk result (λ history. IsRecorded history) }
        ensures counted { IfOk result (λ history.
            length history.entries ≡ sum_by (λ s. s.count) shares.items) }
        ensures picked { IfOk result (λ history.
            picked M.pick history ≡ sum_by (λ s. s.picked) shares.items) }
        ensures comes_back { IfErr result (λ back. (back.0 ≡ self) × (back.1 ≡ shares)) }
    {
        if shares.len() != self.count.shares as usize {
            return Err((self, shares));
        }
        Ok(self.journal.into_inner().close(shares))
    }

    /// Makes a call that is a value of the type `Call`. Each method below makes one of these calls.
    pub fn call<E: Edit<T> + Drop>(
        &self,
        share: &mut Share<M>,
        call: Call<T, Named, E>,
        rt: &impl Wait,
    ) -> CallResult<T>
        ensures call { IsCallResult M.pick (λ cell. kept_call E.edit E.edit_some cell call)
            share.old result share.new }
        ensures made { IfOk result (λ answer. (cell : Cell T)
            × (answer.0.call ≡ kept_call E.edit E.edit_some cell call)
            × (answer.0.reply ≡ reply cell answer.0.call)) }
    {
        self.journal.lock(rt).step(share, call)
    }

    /// Sets the value, and returns the waiting wakers. A closed cell refuses the value, and the
    /// reply has the refused value.
    pub fn set(&self, share: &mut Share<M>, value: T, rt: &impl Wait) -> CallResult<T>
        ensures call { IsCallResult M.pick (λ _. Kept.Set value) share.old result share.new }
        ensures replied { IfOk result (λ answer.
            (answer.0.reply ≡ Reply.Done)
            ⊎ (answer.0.reply ≡ Reply.Refused Refusal.Closed (Some value))) }
    {
        self.call(share, NoEditCall::<T>::Set(value), rt)
    }

    /// Sets the value if the cell holds none, and in this case returns the waiting wakers. If the
    /// cell holds a value, the reply has the value that was passed. A closed cell refuses the
    /// value, and the reply has the refused value.
    pub fn or_set(&self, share: &mut Share<M>, value: T, rt: &impl Wait) -> CallResult<T>
        ensures call { IsCallResult M.pick (λ _. Kept.OrSet value) share.old result share.new }
        ensures replied { IfOk result (λ answer.
            (answer.0.reply ≡ Reply.Value None)
            ⊎ (answer.0.reply ≡ Reply.Value (Some value))
            ⊎ (answer.0.reply ≡ Reply.Refused Refusal.Closed (Some value))) }
    {
        self.call(share, NoEditCall::<T>::OrSet(value), rt)
    }

    /// Sets the value, replies with the old one, and returns the waiting wakers. A closed cell
    /// refuses the value, and the reply has the refused value.
    pub fn replace(&self, share: &mut Share<M>, value: T, rt: &impl Wait) -> CallResult<T>
        ensures call { IsCallResult M.pick (λ _. Kept.Replace value) share.old result share.new }
        ensures replied { IfOk result (λ answer.
            ((old : Option T) × (answer.0.reply ≡ Reply.Value old))
            ⊎ (answer.0.reply ≡ Reply.Refused Refusal.Closed (Some value))) }
    {
        self.call(share, NoEditCall::<T>::Replace(value), rt)
    }

    /// Replaces the content with what the edit returns for it. If the call puts a value into an
    /// empty cell, returns the waiting wakers. A closed cell refuses, and the edit is not called.
    pub fn update<E: Edit<T> + Drop>(
        &self,
        share: &mut Share<M>,
        edit: E,
        rt: &impl Wait,
    ) -> CallResult<T>
        ensures call { IsCallResult M.pick
            (λ cell. kept_call E.edit E.edit_some cell (Call.Update edit))
            share.old result share.new }
        ensures edited { IfOk result (λ answer.
            ((saw : Option T) × (answer.0.call ≡ Kept.Update saw (E.edit edit saw))
            × (answer.0.reply ≡ Reply.Done))
            ⊎ ((answer.0.call ≡ Kept.Update None None)
            × (answer.0.reply ≡ Reply.Refused Refusal.Closed None))) }
    {
        self.call(share, Call::Update(edit), rt)
    }

    /// If there is a value, replaces the value with what the edit returns for it. A closed cell
    /// refuses, and the edit is not called.
    pub fn update_some<E: Edit<T> + Drop>(
        &self,
        share: &mut Share<M>,
        edit: E,
        rt: &impl Wait,
    ) -> CallResult<T>
        ensures call { IsCallResult M.pick
            (λ cell. kept_call E.edit E.edit_some cell (Call.UpdateSome edit))
            share.old result share.new }
        ensures edited { IfOk result (λ answer.
            ((v : T) × (answer.0.call ≡ Kept.UpdateSome (Some v) (Some (E.edit_some edit v)))
            × (answer.0.reply ≡ Reply.Done))
            ⊎ ((answer.0.call ≡ Kept.UpdateSome None None) × (answer.0.reply ≡ Reply.Done))
            ⊎ ((answer.0.call ≡ Kept.UpdateSome None None)
            × (answer.0.reply ≡ Reply.Refused Refusal.Closed None))) }
    {
        self.call(share, Call::UpdateSome(edit), rt)
    }

    /// Takes the value, if there is one.
    pub fn try_take(&self, share: &mut Share<M>, rt: &impl Wait) -> CallResult<T>
        ensures call { IsCallResult M.pick (λ _. Kept.TryTake) share.old result share.new }
        ensures replied { IfOk result (λ answer.
            (v : Option T) × (answer.0.reply ≡ Reply.Value v)) }
    {
        self.call(share, NoEditCall::<T>::TryTake, rt)
    }

    /// Copies the value, if there is one.
    pub fn try_get(&self, share: &mut Share<M>, rt: &impl Wait) -> CallResult<T>
        ensures call { IsCallResult M.pick (λ _. Kept.TryGet) share.old result share.new }
        ensures replied { IfOk result (λ answer.
            (v : Option T) × (answer.0.reply ≡ Reply.Value v)) }
    {
        self.call(share, NoEditCall::<T>::TryGet, rt)
    }

    /// The entry's reply says whether there is a value.
    pub fn is_set(&self, share: &mut Share<M>, rt: &impl Wait) -> CallResult<T>
        ensures call { IsCallResult M.pick (λ _. Kept.IsSet) share.old result share.new }
        ensures replied { IfOk result (λ answer. (b : Bool) × (answer.0.reply ≡ Reply.Is b)) }
    {
        self.call(share, NoEditCall::<T>::IsSet, rt)
    }

    /// Takes the value, or registers this name to wait for a value.
    pub fn poll_take(&self, share: &mut Share<M>, name: Named, rt: &impl Wait) -> CallResult<T>
        ensures call { IsCallResult M.pick (λ _. Kept.PollTake name) share.old result share.new }
        ensures replied { IfOk result (λ answer.
            (answer.0.reply ≡ Reply.Pending)
            ⊎ ((v : Option T) × (answer.0.reply ≡ Reply.Ready v))) }
    {
        self.call(share, NoEditCall::<T>::PollTake(name), rt)
    }

    /// Copies the value, or registers this name to wait for a value.
    pub fn poll_get(&self, share: &mut Share<M>, name: Named, rt: &impl Wait) -> CallResult<T>
        ensures call { IsCallResult M.pick (λ _. Kept.PollGet name) share.old result share.new }
        ensures replied { IfOk result (λ answer.
            (answer.0.reply ≡ Reply.Pending)
            ⊎ ((v : Option T) × (answer.0.reply ≡ Reply.Ready v))) }
    {
        self.call(share, NoEditCall::<T>::PollGet(name), rt)
    }

    /// Adds an owner. The refusals are `Closed` and, at 4,294,967,295 owners, `OwnersFull`.
    pub fn add_owner(&self, share: &mut Share<M>, rt: &impl Wait) -> CallResult<T>
        ensures call { IsCallResult M.pick (λ _. Kept.AddOwner) share.old result share.new }
        ensures replied { IfOk result (λ answer.
            (answer.0.reply ≡ Reply.Done)
            ⊎ (answer.0.reply ≡ Reply.Refused Refusal.OwnersFull None)
            ⊎ (answer.0.reply ≡ Reply.Refused Refusal.Closed None)) }
    {
        self.call(share, NoEditCall::<T>::AddOwner, rt)
    }

    /// Ends one owner. If it was the last owner, the cell is closed, the reply has the value of the
    /// cell, and the waiting wakers are returned. The refusal of a closed cell is `Closed`.
    pub fn end_owner(&self, share: &mut Share<M>, rt: &impl Wait) -> CallResult<T>
        ensures call { IsCallResult M.pick (λ _. Kept.EndOwner) share.old result share.new }
        ensures replied { IfOk result (λ answer.
            ((last : Option T) × (answer.0.reply ≡ Reply.Value last))
            ⊎ (answer.0.reply ≡ Reply.Refused Refusal.Closed None)) }
    {
        self.call(share, NoEditCall::<T>::EndOwner, rt)
    }

    /// If the cell has exactly one owner, closes the cell, replies with its value, and returns the
    /// waiting wakers. Otherwise the reply is a refusal: `Closed` if the cell is closed, and
    /// `StillShared` if the cell has other owners.
    pub fn take_inner(&self, share: &mut Share<M>, rt: &impl Wait) -> CallResult<T>
        ensures call { IsCallResult M.pick (λ _. Kept.TakeInner) share.old result share.new }
        ensures replied { IfOk result (λ answer.
            ((v : Option T) × (answer.0.reply ≡ Reply.Value v))
            ⊎ (answer.0.reply ≡ Reply.Refused Refusal.StillShared None)
            ⊎ (answer.0.reply ≡ Reply.Refused Refusal.Closed None)) }
    {
        self.call(share, NoEditCall::<T>::TakeInner, rt)
    }
}
