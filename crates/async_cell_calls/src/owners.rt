//! The calls that add and end owners. `add_counted` returns the permit of the new owner, and a call
//! that ends an owner with a permit takes that permit.
ghost use Rattle.std.specs.Prelude.{◌≡◌, ◌⊎◌, None, IfErr, IfOk, IfSome, IsSome, IsTrue};
ghost use Rattle.async_cell_model.specs.Refusal.{FailsWithClosed};
ghost use Rattle.async_cell_history.specs.History.{done_reply, permits_of, take_reply};

use crate::cell_store::CellStore;
use async_cell_core::{Refusal, Wakes};
use async_cell_history::{Anyone, Caller, CellCore, Nobody, OwnerPermit, Protocol, Sees};
use async_cell_model::Kept;
use async_cell_step::{Opens, Step, Stores, end, end_and_wake, end_and_wake_one, opened};

impl<M: Stores<Core = CellCore<T, W, N>>, T: Drop, W: Wakes, N: Protocol<T, W>> CellStore<M> {
    /// Ends the last owner of a cell that nobody else can call. The caller drops the cell next.
    #[inline(always)]
    pub fn rest(&mut self, permit: OwnerPermit<T, W, N>) {
        permit.rest(&mut self.store);
    }

    /// Adds an owner. Fails with `Closed` on a closed cell, and with `OwnersFull` if there are
    /// 4,294,967,295 owners.
    pub fn add_owner<'a, R: Opens<'a, M>>(&'a self, rt: &R) -> Result<(), Refusal>
        requires nameless { N.named ≡ None }
        ensures refused { IfErr result (λ why.
            (why ≡ Refusal.Closed) ⊎ (why ≡ Refusal.OwnersFull)) }
    {
        self.add_counted(&Anyone, &mut Nobody, rt)?.let_go();
        Ok(())
    }

    /// Ends one owner. The end of the last one closes the cell, drops its value and wakes all
    /// waiters. Fails with `Closed` on a closed cell.
    pub fn end_owner<'a, R: Opens<'a, M>>(&'a self, rt: &R) -> Result<(), Refusal>
        requires nameless { N.named ≡ None }
        ensures refused { FailsWithClosed result }
    {
        self.end_counted(OwnerPermit::blind(), rt)
    }

    /// If there is only one owner, closes the cell, wakes all waiters and returns the value. Fails
    /// with `Closed` on a closed cell, and with `StillShared` if there are other owners.
    pub fn take_inner<'a, R: Opens<'a, M>>(&'a self, rt: &R) -> Result<Option<T>, Refusal>
        requires nameless { N.named ≡ None }
        requires may { N.may Kept.TakeInner }
        ensures rule { IfOk result (λ content. IfSome content N.holds) }
        ensures refused { IfErr result (λ why.
            (why ≡ Refusal.Closed) ⊎ (why ≡ Refusal.StillShared)) }
    {
        match self.take_counted(OwnerPermit::blind(), &mut Nobody, rt) {
            Ok(content) => Ok(content),
            Err((why, permit)) => {
                permit.let_go();
                Err(why)
            }
        }
    }

    /// As `add_owner`, but returns the permit of the new owner. If owners are counted, a caller
    /// that is an owner never gets `Closed`: its permit shows that the cell is open.
    pub fn add_counted<'a, K: Caller<T, W, N>, S: Sees<T, W, N>, R: Opens<'a, M>>(
        &'a self,
        by: &K,
        seen: &mut S,
        rt: &R,
    ) -> Result<OwnerPermit<T, W, N>, Refusal>
        ensures refused { IfErr result (λ why.
            (why ≡ Refusal.Closed) ⊎ (why ≡ Refusal.OwnersFull)) }
        ensures open { IsTrue R.always → K.owns
            → IfErr result (λ why. why ≡ Refusal.OwnersFull) }
        ensures sees { IsTrue R.always
            → S.sees seen.old Kept.AddOwner (done_reply result) seen.new }
    {
        let mut step = opened!(rt, &self.store, else return Err(Refusal::Closed));
        let core = step.lend();
        by.proves_open(core);
        seen.catch_up(core);
        let added = core.add_owner(&*seen);
        seen.see(core);
        end(step, added)
    }

    /// As `end_owner`, for the owner with this permit.
    pub fn end_counted<'a, R: Opens<'a, M>>(
        &'a self,
        permit: OwnerPermit<T, W, N>,
        rt: &R,
    ) -> Result<(), Refusal>
        ensures refused { FailsWithClosed result }
    {
        let mut step = opened!(rt, &self.store, else {
            permit.lose::<M, R>(rt);
            return Err(Refusal::Closed);
        });
        let Err(permit) = step.lend().end_other(permit) else {
            step.release();
            return Ok(());
        };
        match step.lend().close_first(permit) {
            Ok(closed) => {
                drop(end_and_wake_one(step, closed));
                Ok(())
            }
            Err(permit) => end_last(step, permit),
        }
    }

    /// As `take_inner`, for the owner with this permit. Shows the call to `seen`. The permit comes
    /// back in the error. If owners are counted, the error is `StillShared`: the permit shows that
    /// the cell is open.
    pub fn take_counted<'a, S: Sees<T, W, N>, R: Opens<'a, M>>(
        &'a self,
        permit: OwnerPermit<T, W, N>,
        seen: &mut S,
        rt: &R,
    ) -> Result<Option<T>, (Refusal, OwnerPermit<T, W, N>)>
        requires may { N.may Kept.TakeInner }
        ensures rule { IfOk result (λ content. IfSome content N.holds) }
        ensures refused { IfErr result (λ back.
            (back.0 ≡ Refusal.Closed) ⊎ (back.0 ≡ Refusal.StillShared)) }
        ensures open { IsTrue R.always → IsSome (permits_of N.named)
            → IfErr result (λ back. back.0 ≡ Refusal.StillShared) }
        ensures sees { IsTrue R.always
            → S.sees seen.old Kept.TakeInner (take_reply result) seen.new }
    {
        let Some(mut step) = rt.open(&self.store) else {
            return Err((Refusal::Closed, permit));
        };
        let core = step.lend();
        permit.proves_open(core);
        seen.catch_up(core);
        let taken = core.take_inner(permit, &*seen);
        seen.see(core);
        end_and_wake(step, taken)
    }
}

/// Ends the last owner, of a core that is lent.
#[inline(never)]
fn end_last<G: Step<Core = CellCore<T, W, N>>, T: Drop, W: Wakes, N: Protocol<T, W>>(
    mut step: G,
    permit: OwnerPermit<T, W, N>,
) -> Result<(), Refusal>
    ensures refused { FailsWithClosed result }
{
    let ended = step.lend().end_owner(permit);
    drop(end_and_wake(step, ended)?);
    Ok(())
}
