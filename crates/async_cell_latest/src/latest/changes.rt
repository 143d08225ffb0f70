//! Writes that make the new value from the old one, each in one step.
ghost use Rattle.std.specs.Prelude.{◌≡◌, ◌↔◌, ◌+◌, true, is_some, IsOk, IfOk, IfErr, IsSome, IfSome, IfNone, OnOk, OnErr};
ghost use Rattle.std.specs.Fn.{FnOnceReturnsAt, FnOnceReturnsAtMut};
ghost use Rattle.async_cell_latest.specs.State.{is_writable};
ghost use Rattle.async_cell_latest.specs.Step.{Write};
ghost use Rattle.async_cell_latest.specs.IsStep.{IsStep, change_answer, write_answer};

use super::Latest;
use async_cell_model::Refusal;
use async_cell_wakers::{Wakers, Wakes};

impl<T: Drop, W: Wakes> Latest<T, W> {
    /// Calls the closure on the value, and writes what it returns, as `write` does. The call of the
    /// closure and the write are one step. If the state takes no further write, the closure is
    /// still called, and what it returned is in the error.
    pub fn update<F: FnOnce(&T) -> T>(&mut self, change: F) -> Result<(T, Wakers<W>), T>
        requires { F.IsAlwaysCallable change }
        ensures model { (value : T) × FnOnceReturnsAt F.FnOnce change self.old.value value
            × IsStep W.Wakes self.old (Write value) (write_answer result) self.new }

        ensures called { OnOk result
            (FnOnceReturnsAt F.FnOnce change self.old.value self.new.value) }
        ensures if_open { IsOk result ↔ (is_writable self.old ≡ true) }
        ensures counted { OnOk result (self.new.version ≡ self.old.version + 1) }
        ensures gives_old { IfOk result (λ answer. answer.0 ≡ self.old.value) }
        ensures hands_out_all { IfOk result (λ answer. answer.1 ≡ self.old.waiting) }
        ensures unchanged { OnErr result (self.new ≡ self.old) }
        ensures comes_back { IfErr result (FnOnceReturnsAt F.FnOnce change self.old.value) }
    {
        let value = change(&self.value);
        self.write(value)
    }

    /// Calls the closure on the value, which it may change in place. This counts as a write: the
    /// version grows by one. Returns what the closure returned and all waiting wakers, to be woken
    /// by the caller. Fails with `Closed` if the state takes no further write. The closure is then
    /// not called.
    pub fn modify<A, F: FnOnce(&mut T) -> A + Drop>(
        &mut self,
        change: F,
    ) -> Result<(A, Wakers<W>), Refusal>
        requires { F.IsAlwaysCallable change }
        ensures model { IfOk result (λ answer. IsStep W.Wakes self.old
            (Write self.new.value) (change_answer self.old.value answer.1) self.new) }
        ensures called { IfOk result (λ answer.
            FnOnceReturnsAtMut F.FnOnce change self.old.value answer.0 self.new.value) }

        ensures if_open { IsOk result ↔ (is_writable self.old ≡ true) }
        ensures counted { OnOk result (self.new.version ≡ self.old.version + 1) }
        ensures hands_out_all { IfOk result (λ answer. answer.1 ≡ self.old.waiting) }
        ensures unchanged { OnErr result (self.new ≡ self.old) }
        ensures refused { IfErr result (λ why. why ≡ Refusal.Closed) }
    {
        let version = self.next_version().ok_or(Refusal::Closed)?;
        let answer = change(&mut self.value);
        self.version = version;
        Ok((answer, self.waiting.hand_out()))
    }

    /// As `modify`, if the closure returns `true`. If the closure returns `false`, the call counts
    /// as no write: the version and the wait list stay as they are, and the call returns
    /// `Ok(None)`. A closure that returns `false` should leave the value as it was: if such a
    /// closure changes the value, the change stays, but nobody is woken.
    pub fn modify_if<F: FnOnce(&mut T) -> bool + Drop>(
        &mut self,
        change: F,
    ) -> Result<Option<Wakers<W>>, Refusal>
        requires { F.IsAlwaysCallable change }
        ensures model { IfOk result (λ answer. IfSome answer (λ woken. IsStep W.Wakes self.old
            (Write self.new.value) (change_answer self.old.value woken) self.new)) }
        ensures called { IfOk result (λ answer. FnOnceReturnsAtMut
            F.FnOnce change self.old.value (is_some answer) self.new.value) }

        ensures if_open { IsOk result ↔ (is_writable self.old ≡ true) }
        ensures hands_out_all { IfOk result (λ answer. IfSome answer (λ woken.
            (woken ≡ self.old.waiting) × (self.new.version ≡ self.old.version + 1))) }
        ensures value_alone { IfOk result (λ answer. IfNone answer
            (self.new ≡ record self.old { value = self.new.value })) }
        ensures unchanged { OnErr result (self.new ≡ self.old) }
        ensures refused { IfErr result (λ why. why ≡ Refusal.Closed) }
    {
        let version = self.next_version().ok_or(Refusal::Closed)?;
        if change(&mut self.value) {
            self.version = version;
            return Ok(Some(self.waiting.hand_out()));
        }
        Ok(None)
    }

    /// Returns the version of the next write, or `None` if the state takes no further write.
    #[inline(always)]
    pub(crate) fn next_version(&self) -> Option<u64>
        ensures writable { IsSome result ↔ (is_writable self.now ≡ true) }
        ensures counted { IfSome result (λ version. version ≡ self.now.version + 1) }
    {
        if self.owners == 0 {
            return None;
        }
        self.version.checked_add(1)
    }
}
