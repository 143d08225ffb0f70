//! Calls on the cell of a driver, and the one function that makes them.
ghost use Rattle.std.specs.Prelude.{◌≡◌, ◌↔◌, ◌+◌, ◌-◌, [], true, false, Some, None, Err, IsOk, IfOk, IfErr, OnOk, OnErr, IsSomeAnd};
ghost use Rattle.async_cell_model.specs.Machine.{next, reply, is_closed, is_full, is_vacant, content, owners_of, owners_limit};
ghost use Rattle.async_cell_model.specs.Legal.{is_refused};
ghost use Rattle.async_cell_model.specs.declared.entry.Kept.TheVariants as kept;
ghost use Rattle.async_cell_model.specs.declared.cell.Cell.{Cell};
ghost use Rattle.async_cell_runs.specs.Kept.{is_get, is_poll, kept_call};
ghost use Rattle.async_cell_driver.specs.{Log.with_edit, History.call_of, History.is_call, History.told_by, Drives.Happens, Drives.ResultsStay};

use crate::{Driver, Edit, Event, Named, Refusal, Reply, Told};
use async_cell_runs::{Call, NoEdit, step};

impl<T: Clone> Driver<T> {
    /// Makes the call that `event` stands for, and wakes the tasks whose names the core returns.
    #[tactic(auto, using(crate::proofs::TaskList::results_woken))]
    pub(super) fn call<E: Edit<T> + Drop>(&mut self, event: Event<T, E>) -> Reply<T>
        requires { is_call event ≡ true }
        ensures happens { Happens T.is_clone self.old (with_edit E.edit event)
            (Told.Reply result) self.new }
        ensures replies { IsSomeAnd (call_of [] self.old.core.cell (with_edit E.edit event)) (λ c.
            (result ≡ reply self.old.core.cell c) × (self.new.core.cell
            ≡ next self.old.core.cell (record { call = c; reply = result }))) }
        ensures results_stay { ResultsStay self.old self.new }
        ensures unchanged { is_refused result ≡ true → self.new ≡ self.old }
    {
        let answer = step(&mut self.core, call_of(event));
        self.tasks.wake(answer.woken);
        answer.reply
    }

    /// Sets the value. Every waiting task is then ready. Fails on a closed cell; the value is
    /// returned in the error.
    pub fn set(&mut self, value: T) -> Result<(), T>
        ensures done { OnOk result
            (Happens T.is_clone self.old (Event.Set value) (Told.Reply Reply.Done) self.new) }
        ensures refused { OnErr result
            (Happens T.is_clone self.old (Event.Set value)
            (Told.Reply (Reply.Refused Refusal.Closed (Some value))) self.new) }

        ensures if_open { IsOk result ↔ (is_closed self.old.core.cell ≡ false) }
        ensures holds { OnOk result (content self.new.core.cell ≡ Some value) }
        ensures results_stay { ResultsStay self.old self.new }
        ensures unchanged { OnErr result (self.new ≡ self.old) }
        ensures comes_back { IfErr result (λ back. back ≡ value) }
    {
        match self.call(NoEditEvent::<T>::Set(value)) {
            Reply::Done => Ok(()),
            Reply::Refused(_, Some(back)) => Err(back),
            _ => unreachable!(),
        }
    }

    /// If the cell is empty, sets the value, and every waiting task is then ready. If the cell
    /// holds a value already, drops `value`. Fails on a closed cell; the value is returned in the
    /// error.
    pub fn or_set(&mut self, value: T) -> Result<(), T>
        ensures done { OnOk result
            (Happens T.is_clone self.old (Event.OrSet value)
            (told_by self.old.core (kept.OrSet value)) self.new) }
        ensures refused { OnErr result
            (Happens T.is_clone self.old (Event.OrSet value)
            (Told.Reply (Reply.Refused Refusal.Closed (Some value))) self.new) }

        ensures if_open { IsOk result ↔ (is_closed self.old.core.cell ≡ false) }
        ensures holds { OnOk result
            (is_vacant self.old.core.cell ≡ true → content self.new.core.cell ≡ Some value) }
        ensures leaves { is_full self.old.core.cell ≡ true
            → self.new.core.cell ≡ self.old.core.cell }
        ensures results_stay { ResultsStay self.old self.new }
        ensures unchanged { OnErr result (self.new ≡ self.old) }
        ensures comes_back { IfErr result (λ back. back ≡ value) }
    {
        match self.call(NoEditEvent::<T>::OrSet(value)) {
            Reply::Value(_) => Ok(()),
            Reply::Refused(_, Some(back)) => Err(back),
            _ => unreachable!(),
        }
    }

    /// Sets the value and returns the old one. Every waiting task is then ready. Fails on a closed
    /// cell; the value is returned in the error.
    pub fn replace(&mut self, value: T) -> Result<Option<T>, T>
        ensures done { IfOk result (λ old.
            Happens T.is_clone self.old (Event.Replace value)
            (Told.Reply (Reply.Value old)) self.new) }
        ensures refused { OnErr result
            (Happens T.is_clone self.old (Event.Replace value)
            (Told.Reply (Reply.Refused Refusal.Closed (Some value))) self.new) }

        ensures if_open { IsOk result ↔ (is_closed self.old.core.cell ≡ false) }
        ensures holds { OnOk result (content self.new.core.cell ≡ Some value) }
        ensures gives_old { IfOk result (λ old. old ≡ content self.old.core.cell) }
        ensures results_stay { ResultsStay self.old self.new }
        ensures unchanged { OnErr result (self.new ≡ self.old) }
        ensures comes_back { IfErr result (λ back. back ≡ value) }
    {
        match self.call(NoEditEvent::<T>::Replace(value)) {
            Reply::Value(old) => Ok(old),
            Reply::Refused(_, Some(back)) => Err(back),
            _ => unreachable!(),
        }
    }

    /// Calls the edit with the content, and stores what the edit returns. If that puts a value into
    /// an empty cell, every waiting task is then ready. Fails with `Closed` on a closed cell,
    /// without calling the edit.
    pub fn update<E: Edit<T> + Drop>(&mut self, edit: E) -> Result<(), Refusal>
        ensures done { OnOk result
            (Happens T.is_clone self.old (Event.Update (E.edit edit))
            (Told.Reply Reply.Done) self.new) }
        ensures refused { IfErr result (λ why.
            Happens T.is_clone self.old (Event.Update (E.edit edit))
            (Told.Reply (Reply.Refused why None)) self.new) }

        ensures if_open { IsOk result ↔ (is_closed self.old.core.cell ≡ false) }
        ensures holds { OnOk result
            (content self.new.core.cell ≡ E.edit edit (content self.old.core.cell)) }
        ensures results_stay { ResultsStay self.old self.new }
        ensures unchanged { OnErr result (self.new ≡ self.old) }
    {
        match self.call(Event::Update(edit)) {
            Reply::Done => Ok(()),
            Reply::Refused(why, _) => Err(why),
            _ => unreachable!(),
        }
    }

    /// Takes the value, if there is one. The waiting tasks still wait.
    pub fn try_take(&mut self) -> Option<T>
        ensures drives { Happens T.is_clone self.old Event.TryTake
            (Told.Reply (Reply.Value result)) self.new }

        ensures takes { result ≡ content self.old.core.cell }
        ensures leaves_none { content self.new.core.cell ≡ None }
        ensures results_stay { ResultsStay self.old self.new }
    {
        match self.call(NoEditEvent::<T>::TryTake) {
            Reply::Value(taken) => taken,
            _ => unreachable!(),
        }
    }

    /// Adds an owner. Fails with `Closed` on a closed cell, and with `OwnersFull` beyond
    /// 4,294,967,295 owners.
    pub fn add_owner(&mut self) -> Result<(), Refusal>
        ensures done { OnOk result
            (Happens T.is_clone self.old Event.AddOwner (Told.Reply Reply.Done) self.new) }
        ensures refused { IfErr result (λ why.
            Happens T.is_clone self.old Event.AddOwner
            (Told.Reply (Reply.Refused why None)) self.new) }

        ensures if_closed { (result ≡ Err Refusal.Closed) ↔ (is_closed self.old.core.cell ≡ true) }
        ensures if_owners_full { (result ≡ Err Refusal.OwnersFull)
            ↔ (owners_of self.old.core.cell ≡ owners_limit) }
        ensures counted { OnOk result
            (owners_of self.new.core.cell ≡ owners_of self.old.core.cell + 1) }
        ensures results_stay { ResultsStay self.old self.new }
        ensures unchanged { OnErr result (self.new ≡ self.old) }
    {
        match self.call(NoEditEvent::<T>::AddOwner) {
            Reply::Done => Ok(()),
            Reply::Refused(why, _) => Err(why),
            _ => unreachable!(),
        }
    }

    /// Ends one owner. Ending the last owner closes the cell and drops the value. Every waiting
    /// task is then ready. Fails with `Closed` on a closed cell.
    pub fn end_owner(&mut self) -> Result<(), Refusal>
        ensures done { OnOk result
            (Happens T.is_clone self.old Event.EndOwner
            (told_by self.old.core kept.EndOwner) self.new) }
        ensures refused { IfErr result (λ why.
            Happens T.is_clone self.old Event.EndOwner
            (Told.Reply (Reply.Refused why None)) self.new) }

        ensures if_open { IsOk result ↔ (is_closed self.old.core.cell ≡ false) }
        ensures counted { owners_of self.new.core.cell ≡ owners_of self.old.core.cell - 1 }
        ensures last { owners_of self.old.core.cell ≡ 1 → is_closed self.new.core.cell ≡ true }
        ensures results_stay { ResultsStay self.old self.new }
        ensures unchanged { OnErr result (self.new ≡ self.old) }
    {
        match self.call(NoEditEvent::<T>::EndOwner) {
            Reply::Value(_) => Ok(()),
            Reply::Refused(why, _) => Err(why),
            _ => unreachable!(),
        }
    }
}

/// Returns the core's call of an event.
fn call_of<T, E: Edit<T>>(event: Event<T, E>) -> Call<T, Named, E>
    requires { is_call event ≡ true }
    ensures stands_for { (cell : Cell T) → call_of [] cell (with_edit E.edit event)
        ≡ Some (kept_call E.edit E.edit_some cell result) }
    ensures no_get { is_get result ≡ false }
    ensures no_poll { is_poll result ≡ false }
{
    match event {
        Event::Set(value) => Call::Set(value),
        Event::OrSet(value) => Call::OrSet(value),
        Event::Replace(value) => Call::Replace(value),
        Event::Update(edit) => Call::Update(edit),
        Event::TryTake => Call::TryTake,
        Event::AddOwner => Call::AddOwner,
        Event::EndOwner => Call::EndOwner,
        Event::Start(_) | Event::Poll(_) => unreachable!(),
    }
}

/// An event that takes no edit.
type NoEditEvent<T> = Event<T, NoEdit>;
