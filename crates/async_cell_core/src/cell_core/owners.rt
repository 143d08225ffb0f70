//! Calls that count, add or end a cell's owners, and calls that close or consume the cell.
ghost use Rattle.std.specs.Prelude.{◌≡◌, ◌↔◌, ◌⊎◌, [], ◌+◌, ◌-◌, None, Err, true, false, IsOk, IfOk, IfErr, OnOk, OnErr};
ghost use Rattle.async_cell_model.specs.Machine.{content, owners_of, owners_limit, is_closed};
ghost use Rattle.async_cell_core.specs.IsStep.{IsStep, done_answer, end_answer};

use super::Core;
use async_cell_model::{Cell, Kept, Refusal};
use async_cell_wakers::{Wakers, Wakes};

impl<T: Drop, W: Wakes> Core<T, W> {
    /// Adds an owner. Fails with `Closed` if the cell is closed, and with `OwnersFull` if it has
    /// 4,294,967,295 owners already.
    pub fn add_owner(&mut self) -> Result<(), Refusal>
        ensures model { IsStep W.Wakes self.old Kept.AddOwner (done_answer result) self.new }

        ensures if_closed { (result ≡ Err Refusal.Closed) ↔ (is_closed self.old.cell ≡ true) }
        ensures if_owners_full { (result ≡ Err Refusal.OwnersFull)
            ↔ (owners_of self.old.cell ≡ owners_limit) }
        ensures refused { IfErr result (λ why.
            (why ≡ Refusal.Closed) ⊎ (why ≡ Refusal.OwnersFull)) }
        ensures counted { OnOk result (owners_of self.new.cell ≡ owners_of self.old.cell + 1) }
        ensures unchanged { OnErr result (self.new ≡ self.old) }
    {
        match self.owners {
            0 => Err(Refusal::Closed),
            u32::MAX => Err(Refusal::OwnersFull),
            fewer => {
                self.owners = fewer + 1;
                Ok(())
            }
        }
    }

    /// Ends one owner. Ending the last owner closes the cell, and returns the cell's value and all
    /// waiting wakers, to be woken by the caller. Fails with `Closed` if the cell is closed.
    pub fn end_owner(&mut self) -> Result<(Option<T>, Wakers<W>), Refusal>
        ensures model { IsStep W.Wakes self.old Kept.EndOwner (end_answer result) self.new }

        ensures if_open { IsOk result ↔ (is_closed self.old.cell ≡ false) }
        ensures counted { owners_of self.new.cell ≡ owners_of self.old.cell - 1 }
        ensures last { owners_of self.old.cell ≡ 1 → IfOk result (λ answer.
            (answer.0 ≡ content self.old.cell) × (answer.1 ≡ self.old.waiting)) }
        ensures unchanged { OnErr result (self.new ≡ self.old) }
    {
        match self.owners {
            0 => Err(Refusal::Closed),
            1 => Ok(self.close()),
            more => {
                self.owners = more - 1;
                Ok((None, Wakers::none()))
            }
        }
    }

    /// Closes the cell for its only owner. Returns its content and all waiting wakers, to be woken
    /// by the caller. Fails with `Closed` if the cell is closed, and with `StillShared` if it has
    /// other owners.
    pub fn take_inner(&mut self) -> Result<(Option<T>, Wakers<W>), Refusal>
        ensures model { IsStep W.Wakes self.old Kept.TakeInner (end_answer result) self.new }

        ensures if_sole { IsOk result ↔ (owners_of self.old.cell ≡ 1) }
        ensures closes { OnOk result (is_closed self.new.cell ≡ true) }
        ensures counted { OnOk result (owners_of self.new.cell ≡ 0) }
        ensures gives { IfOk result (λ answer. answer.0 ≡ content self.old.cell) }
        ensures hands_out_all { IfOk result (λ answer. answer.1 ≡ self.old.waiting) }
        ensures unchanged { OnErr result (self.new ≡ self.old) }
    {
        match self.owners {
            0 => Err(Refusal::Closed),
            1 => Ok(self.close()),
            _ => Err(Refusal::StillShared),
        }
    }

    /// Consumes the cell, whatever its number of owners. Returns its content and all waiting
    /// wakers, to be woken by the caller. A closed cell has neither.
    pub fn into_inner(self) -> (Option<T>, Wakers<W>)
        ensures content { result.0 ≡ content self.cell }
        ensures hands_out_all { result.1 ≡ self.waiting }
        ensures nobody_on_closed { is_closed self.cell ≡ true → result.1 ≡ [] }
    {
        let Core {
            value,
            owners: _,
            mut waiting,
        } = self;
        (value, waiting.hand_out())
    }

    /// Returns the number of owners: 0 once the cell is closed.
    pub fn owners(&self) -> u32
        ensures { result ≡ owners_of self.now.cell }
    {
        self.owners
    }

    /// Closes the cell, and returns its content and all waiting wakers.
    pub(super) fn close(&mut self) -> (Option<T>, Wakers<W>)
        ensures closed { self.new ≡ record { cell = Cell.Closed; waiting = []; room = 0 } }
        ensures content { result.0 ≡ content self.old.cell }
        ensures hands_out_all { result.1 ≡ self.old.waiting }
    {
        self.owners = 0;
        (self.value.take(), self.waiting.hand_out())
    }
}
