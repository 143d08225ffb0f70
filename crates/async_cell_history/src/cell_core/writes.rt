//! The most frequent writes. Each wakes at most one waker, and has no `Op`.
ghost use Rattle.std.specs.Prelude.{◌≡◌, [], Some, None, IfErr, IfOk, IfSome, OnOk};
ghost use Rattle.async_cell_wakers.specs.WaitList.{first_then};
ghost use Rattle.async_cell_history.specs.History.{Made};

use super::CellCore;
use crate::entries::{FillsFirst, Overwrites};
use crate::{Before, Nobody, Protocol, Replace};
use async_cell_core::{Wakers, Wakes};
use async_cell_model::{Kept, Reply};
use async_cell_step::{Deferred, Writes};

impl<T: Drop, W: Wakes, N: Protocol<T, W>> CellCore<T, W, N> {
    /// Replaces the value of a full cell. Fails on other cells, and then returns the new value in
    /// the error.
    #[inline(always)]
    pub fn overwrite(&mut self, value: T) -> Deferred<Result<T, T>>
        requires may { N.may (Kept.Replace value) }
        ensures made { IfOk result.answer (λ old. Made W.will_wake W.SURE_CLONE self.old
            (Kept.Replace value) (Reply.Value (Some old)) [] 0 self.new) }
        ensures rule { IfOk result.answer N.holds }
        ensures comes_back { IfErr result.answer (λ back. back ≡ value) }
    {
        let before = Before::of(&self.inner, &value);
        let written = self.inner.overwrite(value);
        if let Ok(old) = &written {
            before.enter::<Overwrites, _, _, _>(&mut self.past, old, &self.inner, &Nobody);
        }
        Deferred::of(written)
    }

    /// Fills a vacant cell whose wait list has allocated no memory, and so has at most one waker.
    /// Fails on other cells, and then returns the value in the error.
    #[inline(always)]
    pub fn fill_first(&mut self, value: T) -> Result<Deferred<(), Option<W>>, Deferred<T>>
        requires may { N.may (Kept.Replace value) }
        ensures made { IfOk result (λ held. Made W.will_wake W.SURE_CLONE self.old
            (Kept.Replace value) (Reply.Value None) (first_then held.woken []) 0 self.new) }
        ensures comes_back { IfErr result (λ back. back.answer ≡ value) }
    {
        let before = Before::of(&self.inner, &value);
        match self.inner.fill_first(value) {
            Ok(first) => {
                before.enter::<FillsFirst, _, _, _>(&mut self.past, &first, &self.inner, &Nobody);
                Ok(Deferred::waking((), first))
            }
            Err(value) => Err(Deferred::of(value)),
        }
    }

    /// Fills a vacant cell on which nobody waits and whose wait list has allocated no memory. Fails
    /// on other cells, and then returns the value in the error.
    #[inline(always)]
    pub fn put_quiet(&mut self, value: T) -> Result<(), Deferred<T>>
        requires may { N.may (Kept.Replace value) }
        ensures made { OnOk result (Made W.will_wake W.SURE_CLONE self.old
            (Kept.Replace value) (Reply.Value None) [] 0 self.new) }
        ensures comes_back { IfErr result (λ back. back.answer ≡ value) }
    {
        let before = Before::of(&self.inner, &value);
        match self.inner.put_quiet(value) {
            Ok(()) => {
                before.enter::<FillsFirst, _, _, _>(&mut self.past, &None, &self.inner, &Nobody);
                Ok(())
            }
            Err(value) => Err(Deferred::of(value)),
        }
    }
}

impl<T: Drop, W: Wakes, N: Protocol<T, W>> Writes<T> for CellCore<T, W, N> {
    ghost use Rattle.async_cell_model.specs.declared.entry.Kept.TheVariants.{Replace};

    type Old = Option<T>;

    type Waker = W;

    ghost may = { λ value. N.may (Replace value) };

    ghost gives = { λ old. IfSome old N.holds };

    #[inline(always)]
    fn write(&mut self, value: T) -> Deferred<Result<Option<T>, T>, Option<Wakers<W>>> {
        self.make(Replace(value), &Nobody).waking_all()
    }
}
