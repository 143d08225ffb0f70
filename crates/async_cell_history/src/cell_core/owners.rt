//! The calls that add and end owners. A call that adds an owner gives the owner's permit. A call
//! that ends an owner takes the owner's permit.
ghost use Rattle.std.specs.Prelude.{◌≡◌, ◌⊎◌, [], None, IfErr, IfOk, IfSome, OnOk};
ghost use Rattle.async_cell_model.specs.Refusal.{FailsWithClosed};
ghost use Rattle.async_cell_wakers.specs.WaitList.{first_then};
ghost use Rattle.async_cell_step.specs.Deferred.{all_of};
ghost use Rattle.async_cell_history.specs.History.{Made, done_reply, end_reply, take_reply};

use super::CellCore;
use crate::entries::{AddsOwner, EndsOwner, TakesInner};
use crate::{Before, Nobody, OwnerPermit, Protocol, Signs};
use async_cell_core::{Refusal, Wakers, Wakes};
use async_cell_model::{Kept, Reply};
use async_cell_step::Deferred;

impl<T: Drop, W: Wakes, N: Protocol<T, W>> CellCore<T, W, N> {
    /// Adds an owner, and gives its permit. Fails with `Closed` or `OwnersFull`.
    #[inline(always)]
    pub fn add_owner<B: Signs>(&mut self, by: &B) -> Deferred<Result<OwnerPermit<T, W, N>, Refusal>>
        ensures refused { IfErr result.answer (λ why.
            (why ≡ Refusal.Closed) ⊎ (why ≡ Refusal.OwnersFull)) }
        ensures made { Made W.will_wake W.SURE_CLONE self.old
            Kept.AddOwner (done_reply result.answer) [] (B.number by.now) self.new }
    {
        let before = Before::of(&self.inner, &());
        let added = self.inner.add_owner();
        before.enter::<AddsOwner, _, _, _>(&mut self.past, &added, &self.inner, by);
        match added {
            Ok(()) => Deferred::of(Ok(self.past.give())),
            Err(why) => Deferred::of(Err(why)),
        }
    }

    /// Ends an owner that is not the last. If the owner is the last one, changes nothing, and
    /// returns `permit` in the error.
    #[inline(always)]
    pub fn end_other(&mut self, permit: OwnerPermit<T, W, N>) -> Result<(), OwnerPermit<T, W, N>>
        ensures made { OnOk result (Made W.will_wake W.SURE_CLONE self.old
            Kept.EndOwner (Reply.Value None) [] 0 self.new) }
    {
        let before = Before::of(&self.inner, &());
        if !self.inner.end_other() {
            return Err(permit);
        }
        before.enter::<EndsOwner, _, _, _>(&mut self.past, &(), &self.inner, &Nobody);
        self.past.take(permit);
        Ok(())
    }

    /// Ends the last owner of a cell whose wait list has allocated no memory, and so has at most
    /// one waker. In other cases changes nothing, and returns `permit` in the error.
    #[inline(always)]
    pub fn close_first(
        &mut self,
        permit: OwnerPermit<T, W, N>,
    ) -> Result<Deferred<Option<T>, Option<W>>, OwnerPermit<T, W, N>>
        ensures made { IfOk result (λ held. Made W.will_wake W.SURE_CLONE self.old
            Kept.EndOwner (Reply.Value held.answer) (first_then held.woken []) 0 self.new) }
    {
        let before = Before::of(&self.inner, &());
        let Some(closed) = self.inner.close_first() else {
            return Err(permit);
        };
        before.enter::<EndsOwner, _, _, _>(&mut self.past, &closed, &self.inner, &Nobody);
        self.past.take(permit);
        Ok(Deferred::waking(closed.0, closed.1))
    }

    /// Ends an owner. Fails with `Closed` if the cell is closed.
    #[inline(always)]
    pub fn end_owner(
        &mut self,
        permit: OwnerPermit<T, W, N>,
    ) -> Deferred<Result<Option<T>, Refusal>, Option<Wakers<W>>>
        ensures refused { FailsWithClosed result.answer }
        ensures made { Made W.will_wake W.SURE_CLONE self.old
            Kept.EndOwner (end_reply result.answer) (all_of result.woken) 0 self.new }
    {
        let before = Before::of(&self.inner, &());
        let ended = self.inner.end_owner();
        before.enter::<EndsOwner, _, _, _>(&mut self.past, &ended, &self.inner, &Nobody);
        self.past.take(permit);
        match ended {
            Ok((content, woken)) => Deferred::waking(Ok(content), Some(woken)),
            Err(why) => Deferred::waking(Err(why), None),
        }
    }

    /// Closes the cell, if it has one owner. Otherwise fails with `Closed` or `StillShared`, and
    /// returns the permit.
    #[inline(always)]
    pub fn take_inner<B: Signs>(
        &mut self,
        permit: OwnerPermit<T, W, N>,
        by: &B,
    ) -> Deferred<Result<Option<T>, (Refusal, OwnerPermit<T, W, N>)>, Option<Wakers<W>>>
        requires may { N.may Kept.TakeInner }
        ensures rule { IfOk result.answer (λ content. IfSome content N.holds) }
        ensures refused { IfErr result.answer (λ back.
            (back.0 ≡ Refusal.Closed) ⊎ (back.0 ≡ Refusal.StillShared)) }
        ensures made { Made W.will_wake W.SURE_CLONE self.old
            Kept.TakeInner (take_reply result.answer) (all_of result.woken)
            (B.number by.now) self.new }
    {
        let before = Before::of(&self.inner, &());
        let taken = self.inner.take_inner();
        before.enter::<TakesInner, _, _, _>(&mut self.past, &taken, &self.inner, by);
        match taken {
            Ok((content, woken)) => {
                self.past.take(permit);
                Deferred::waking(Ok(content), Some(woken))
            }
            Err(why) => Deferred::waking(Err((why, permit)), None),
        }
    }
}
