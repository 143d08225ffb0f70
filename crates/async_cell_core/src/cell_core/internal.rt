//! Calls for the crates that build on this one. They include the fast paths of a write and of an
//! owner's end. On a fast path there is at most one waker to wake. The call returns this waker, if
//! there is one, and makes no list.
ghost use Rattle.std.specs.Prelude.{◌≡◌, ◌↔◌, ◌-◌, [], None, true, false, Ok, Some, IsOk, IfSome, IfNone, IfOk, IfErr, OnOk, OnErr};
ghost use Rattle.async_cell_model.specs.Machine.{content, is_full, is_vacant, owners_of, IsSound};
ghost use Rattle.async_cell_wakers.specs.WaitList.{first_then};
ghost use Rattle.async_cell_core.specs.IsStep.{IsStep, replies, replace_answer, end_answer, poll_answer};

use super::Core;
use async_cell_model::{Kept, Refusal, Reply};
use async_cell_wakers::Wakes;
use futures::task::Poll;
use std::mem;

impl<T: Drop, W: Wakes> Core<T, W> {
    /// Replaces the value of a full cell. Nobody waits on a full cell. Returns the old value. If
    /// the cell is not full, returns `value` in the error and changes nothing.
    #[doc(hidden)]
    #[inline(always)]
    pub fn overwrite(&mut self, value: T) -> Result<T, T>
        ensures model { IfOk result (λ old. IsStep W.Wakes
            self.old (Kept.Replace value) (replace_answer (Ok (Some old, []))) self.new) }

        ensures if_full { IsOk result ↔ (is_full self.old.cell ≡ true) }
        ensures unchanged { OnErr result (self.new ≡ self.old) }
        ensures comes_back { IfErr result (λ back. back ≡ value) }
    {
        match &mut self.value {
            Some(held) => Ok(mem::replace(held, value)),
            None => Err(value),
        }
    }

    /// As `replace`, but only for a vacant cell whose wait list has no waker and has allocated no
    /// memory. On other cells it changes nothing, and returns `value` in the error.
    #[doc(hidden)]
    #[inline(always)]
    pub fn put_quiet(&mut self, value: T) -> Result<(), T>
        ensures model { OnOk result (IsStep W.Wakes
            self.old (Kept.Replace value) (replace_answer (Ok (None, []))) self.new) }
        ensures unchanged { OnErr result (self.new ≡ self.old) }
        ensures comes_back { IfErr result (λ back. back ≡ value) }
    {
        if !self.is_vacant() || !self.waiting.is_bare() {
            return Err(value);
        }
        self.value = Some(value);
        Ok(())
    }

    /// As `replace`, but only for a vacant cell whose wait list has allocated no memory, and so has
    /// at most one waker. Returns this waker, if there is one. The caller must wake it. On other
    /// cells it changes nothing, and returns `value` in the error.
    #[doc(hidden)]
    #[inline(always)]
    pub fn fill_first(&mut self, value: T) -> Result<Option<W>, T>
        ensures model { IfOk result (λ first. IsStep W.Wakes self.old
            (Kept.Replace value) (replace_answer (Ok (None, first_then first []))) self.new) }

        ensures if_vacant { OnOk result (is_vacant self.old.cell ≡ true) }
        ensures holds { OnOk result (content self.new.cell ≡ Some value) }
        ensures hands_out_all { IfOk result (λ first. self.old.waiting ≡ first_then first []) }
        ensures unchanged { OnErr result (self.new ≡ self.old) }
        ensures comes_back { IfErr result (λ back. back ≡ value) }
    {
        if !self.is_vacant() {
            return Err(value);
        }
        let Some(first) = self.waiting.hand_out_first() else {
            return Err(value);
        };
        self.value = Some(value);
        Ok(first)
    }

    /// As `end_owner`, but only for the last owner of a cell whose wait list has allocated no
    /// memory, and so has at most one waker. Returns the value, and this waker if there is one. The
    /// caller must wake the waker. In other cases changes nothing, and returns `None`.
    #[doc(hidden)]
    #[inline(always)]
    pub fn close_first(&mut self) -> Option<(Option<T>, Option<W>)>
        ensures model { IfSome result (λ closed. IsStep W.Wakes self.old
            Kept.EndOwner (end_answer (Ok (closed.0, first_then closed.1 []))) self.new) }

        ensures last { IfSome result (λ closed. (owners_of self.old.cell ≡ 1)
            × (closed.0 ≡ content self.old.cell)) }
        ensures hands_out_all { IfSome result (λ closed.
            self.old.waiting ≡ first_then closed.1 []) }
        ensures counted { IfSome result (λ _. owners_of self.new.cell ≡ 0) }
        ensures unchanged { IfNone result (self.new ≡ self.old) }
    {
        if self.owners != 1 {
            return None;
        }
        let first = self.waiting.hand_out_first()?;
        self.owners = 0;
        Some((self.value.take(), first))
    }

    /// Ends an owner that is not the last. Wakes nobody, and leaves the value in the cell. If there
    /// is no other owner, changes nothing and returns `false`.
    #[doc(hidden)]
    #[inline(always)]
    pub fn end_other(&mut self) -> bool
        ensures model { result ≡ true → IsStep W.Wakes self.old
            Kept.EndOwner (end_answer (Ok (None, []))) self.new }

        ensures counted { result ≡ true → owners_of self.new.cell ≡ owners_of self.old.cell - 1 }
        ensures unchanged { result ≡ false → self.new ≡ self.old }
    {
        if self.owners < 2 {
            return false;
        }
        self.owners -= 1;
        true
    }

    /// Returns whether waking all waiting wakers would wake no task (see `Wakes::wakes_nobody`).
    #[doc(hidden)]
    pub fn wakes_nobody(&self) -> bool {
        self.waiting.wakes_nobody()
    }

    /// Does nothing. Its contract states that the state of every core is sound.
    pub fn soundness(&self)
        ensures { IsSound W.will_wake self.now }
    {
        let _ = &self.owners;
    }
}

impl<T: Copy, W: Wakes> Core<T, W> {
    /// `try_get` for `Copy` values, which are copied and not cloned.
    pub fn try_get_copied(&self) -> Option<T>
        ensures model { IsStep W.Wakes
            self.now Kept.TryGet (replies (Reply.Value result)) self.now }
        ensures gives { result ≡ content self.now.cell }
    {
        self.value
    }

    /// `poll_get` for `Copy` values, which are copied and not cloned.
    pub fn poll_get_copied(&mut self, waker: &W) -> Result<Poll<Option<T>>, Refusal>
        ensures model { IsStep W.Wakes
            self.old (Kept.PollGet waker.now) (poll_answer result) self.new }
        ensures ready { is_vacant self.old.cell ≡ false
            → result ≡ Ok (Poll.Ready (content self.old.cell)) }
        ensures unchanged { OnErr result
            ((self.new.cell ≡ self.old.cell) × (self.new.waiting ≡ self.old.waiting)) }
    {
        if self.is_vacant() {
            return self.wait(waker);
        }
        Ok(Poll::Ready(self.value))
    }
}
