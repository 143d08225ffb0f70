//! The calls that add, end and count the owners of a state, and the call that consumes the state.
ghost use Rattle.std.specs.Prelude.{◌≡◌, ◌↔◌, [], ◌+◌, ◌-◌, Err, true, false, IsOk, IfOk, OnOk, OnErr};
ghost use Rattle.async_cell_latest.specs.State.{Stays, is_closed, owners_limit};
ghost use Rattle.async_cell_latest.specs.Step.{AddOwner, EndOwner};
ghost use Rattle.async_cell_latest.specs.IsStep.{IsStep, add_answer, end_answer};

use super::Latest;
use async_cell_model::Refusal;
use async_cell_wakers::{Wakers, Wakes};

impl<T: Drop, W: Wakes> Latest<T, W> {
    /// Adds an owner. Fails with `Closed` if the state is closed, and with `OwnersFull` if it has
    /// 4,294,967,295 owners already.
    pub fn add_owner(&mut self) -> Result<(), Refusal>
        ensures model { IsStep W.Wakes self.old AddOwner (add_answer result) self.new }

        ensures if_closed { (result ≡ Err Refusal.Closed) ↔ (is_closed self.old ≡ true) }
        ensures if_owners_full { (result ≡ Err Refusal.OwnersFull)
            ↔ (self.old.owners ≡ owners_limit) }
        ensures counted { OnOk result (self.new.owners ≡ self.old.owners + 1) }
        ensures unchanged { OnErr result (self.new ≡ self.old) }
    {
        if self.is_closed() {
            return Err(Refusal::Closed);
        }
        self.owners = self.owners.checked_add(1).ok_or(Refusal::OwnersFull)?;
        Ok(())
    }

    /// Ends one owner. The end of the last owner closes the state, and returns all waiting
    /// wakers, to be woken by the caller. The value and its version stay. Fails with `Closed` if
    /// the state is closed.
    pub fn end_owner(&mut self) -> Result<Wakers<W>, Refusal>
        ensures model { IsStep W.Wakes self.old EndOwner (end_answer result) self.new }

        ensures if_open { IsOk result ↔ (is_closed self.old ≡ false) }
        ensures counted { self.new.owners ≡ self.old.owners - 1 }
        ensures value_stays { self.new.value ≡ self.old.value }
        ensures version_stays { self.new.version ≡ self.old.version }
        ensures hands_out_all { self.old.owners ≡ 1
            → IfOk result (λ woken. woken ≡ self.old.waiting) }
        ensures unchanged { OnErr result (self.new ≡ self.old) }
    {
        match self.owners {
            0 => Err(Refusal::Closed),
            1 => {
                self.owners = 0;
                Ok(self.waiting.hand_out())
            }
            more => {
                self.owners = more - 1;
                Ok(Wakers::none())
            }
        }
    }

    /// Returns the number of owners: 0 once the state is closed.
    pub fn owners(&self) -> u32
        ensures { result ≡ self.now.owners }
    {
        self.owners
    }

    /// Consumes the state, whatever its number of owners. Returns its value and all waiting
    /// wakers, to be woken by the caller.
    pub fn into_inner(self) -> (T, Wakers<W>)
        ensures gives { result.0 ≡ self.value }
        ensures hands_out_all { result.1 ≡ self.waiting }
    {
        let Latest {
            value,
            version: _,
            owners: _,
            mut waiting,
        } = self;
        (value, waiting.hand_out())
    }
}
