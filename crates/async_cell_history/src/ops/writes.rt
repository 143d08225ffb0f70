//! The calls that write a value, or update it.
ghost use Rattle.std.specs.Prelude.{◌≡◌, true, false, Option, Some, None, IfErr, IfOk, IfSome, IsOk, IsSomeAnd, OnOk};
ghost use Rattle.async_cell_model.specs.declared.entry.Kept.TheVariants as kept;
ghost use Rattle.async_cell_model.specs.Machine.{content, is_closed, is_full};
ghost use Rattle.async_cell_model.specs.Refusal.{FailsWithClosed};
ghost use Rattle.async_cell_history.specs.History.{done_reply, set_reply, write_reply};

use crate::{Op, Protocol};
use async_cell_core::{Core, Refusal, Wakes};
use async_cell_step::{All, Deferred, One};

/// Sets the value, and drops the old one. Returns the new value in `Err` if the cell is closed.
#[derive(Drop)]
pub struct Set<T>(pub T);

impl<T: Drop, W: Wakes, N: Protocol<T, W>> Op<T, W, N> for Set<T> {
    type Answer = Result<(), T>;

    type After = All<W, Option<T>>;

    type FastAfter = One<W, Option<T>>;

    const IS_FAST: bool = true;

    ghost can = { λ op. N.may (kept.Set op.0) };

    ghost call = { λ _ op _. kept.Set op.0 };

    ghost reply = { λ _ old. set_reply old };

    ghost gives = { λ from op old _. IfErr old (λ back. back ≡ op.0)
        × (is_closed from.cell ≡ false → IsOk old) };

    ghost leaves = { λ from _ after.
        is_closed from.cell ≡ false → after.dropped ≡ content from.cell };

    ghost leaves_fast = { λ from _ after. after.dropped ≡ content from.cell };

    #[inline(always)]
    fn make(self, core: &mut Core<T, W>) -> Deferred<Result<(), T>, All<W, Option<T>>> {
        let Set(value) = self;
        match core.replace(value) {
            Ok((old, woken)) => Deferred::waking(Ok(()), All::waking(Some(woken), old)),
            Err(value) => Deferred::waking(Err(value), All::waking(None, None)),
        }
    }

    #[inline(always)]
    fn fast(
        self,
        core: &mut Core<T, W>,
    ) -> Result<Deferred<Result<(), T>, One<W, Option<T>>>, Self> {
        match core.overwrite(self.0) {
            // Nobody waits on a full cell.
            Ok(old) => Ok(Deferred::waking(Ok(()), One::waking(None, Some(old)))),
            Err(value) => match core.fill_first(value) {
                Ok(first) => Ok(Deferred::waking(Ok(()), One::waking(first, None))),
                Err(value) => Err(Set(value)),
            },
        }
    }

    #[inline(always)]
    fn unlent(self) -> Result<(), T> {
        Err(self.0)
    }
}

/// Sets the value, if the cell holds none. Returns an unused value: in `Ok` if the cell holds a
/// value already, in `Err` if the cell is closed.
#[derive(Drop)]
pub struct OrSet<T>(pub T);

impl<T: Drop, W: Wakes, N: Protocol<T, W>> Op<T, W, N> for OrSet<T> {
    type Answer = Result<Option<T>, T>;

    type After = All<W>;

    type FastAfter = ();

    ghost can = { λ op. N.may (kept.OrSet op.0) };

    ghost call = { λ _ op _. kept.OrSet op.0 };

    ghost reply = { λ _ unused. write_reply unused };

    ghost gives = { λ from op unused _. IfOk unused (λ found. IfSome found (λ back. back ≡ op.0))
        × IfErr unused (λ back. back ≡ op.0) × (is_closed from.cell ≡ false → IsOk unused) };

    #[inline(always)]
    fn make(self, core: &mut Core<T, W>) -> Deferred<Result<Option<T>, T>, All<W>> {
        match core.or_set(self.0) {
            Ok((unused, woken)) => Deferred::waking(Ok(unused), All::waking(Some(woken), ())),
            Err(value) => Deferred::waking(Err(value), All::waking(None, ())),
        }
    }

    #[inline(always)]
    fn unlent(self) -> Result<Option<T>, T> {
        Err(self.0)
    }
}

/// Sets the value, and returns the old one. Returns the new value in `Err` if the cell is closed.
#[derive(Drop)]
pub struct Replace<T>(pub T);

impl<T: Drop, W: Wakes, N: Protocol<T, W>> Op<T, W, N> for Replace<T> {
    type Answer = Result<Option<T>, T>;

    type After = All<W>;

    type FastAfter = One<W>;

    const IS_FAST: bool = true;

    ghost can = { λ op. N.may (kept.Replace op.0) };

    ghost call = { λ _ op _. kept.Replace op.0 };

    ghost reply = { λ _ old. write_reply old };

    ghost gives = { λ from op old _. IfOk old (λ found. IfSome found N.holds)
        × IfErr old (λ back. back ≡ op.0) × (is_closed from.cell ≡ false → IsOk old) };

    #[inline(always)]
    fn make(self, core: &mut Core<T, W>) -> Deferred<Result<Option<T>, T>, All<W>> {
        match core.replace(self.0) {
            Ok((old, woken)) => Deferred::waking(Ok(old), All::waking(Some(woken), ())),
            Err(value) => Deferred::waking(Err(value), All::waking(None, ())),
        }
    }

    #[inline(always)]
    fn fast(self, core: &mut Core<T, W>) -> Result<Deferred<Result<Option<T>, T>, One<W>>, Self> {
        match core.overwrite(self.0) {
            // Nobody waits on a full cell.
            Ok(old) => Ok(Deferred::waking(Ok(Some(old)), One::waking(None, ()))),
            Err(value) => match core.fill_first(value) {
                Ok(first) => Ok(Deferred::waking(Ok(None), One::waking(first, ()))),
                Err(value) => Err(Replace(value)),
            },
        }
    }

    #[inline(always)]
    fn unlent(self) -> Result<Option<T>, T> {
        Err(self.0)
    }
}

/// Calls the closure on the content, and stores what it returns. Fails with `Closed` on a closed
/// cell. The closure is then not called, and is dropped after the step.
#[derive(Drop)]
pub struct Update<F>(pub F);

/// As `Update`, but calls the closure on the value, and only if there is one.
#[derive(Drop)]
pub struct UpdateSome<F>(pub F);

impl<T, W, N, F> Op<T, W, N> for Update<F>
where
    T: Drop,
    W: Wakes,
    N: Protocol<T, W>,
    F: FnOnce(Option<T>) -> Option<T> + Drop,
{
    type Answer = Result<(), Refusal>;

    type After = All<W, Option<F>>;

    type FastAfter = ();

    ghost can = { λ op. F.IsAlwaysCallable op.0
        × ((saw put : Option T) → IfSome saw N.holds → F.post op.0 saw put
        → N.may (kept.Update saw put)) × N.may (kept.Update None None) };

    ghost call = { λ from _ to. kept.Update (content from.cell) (content to.cell) };

    ghost reply = { λ _ updated. done_reply updated };

    ghost gives = { λ from op updated to.
        OnOk updated (F.post op.0 (content from.cell) (content to.cell))
        × (is_closed from.cell ≡ false → IsOk updated) × FailsWithClosed updated };

    ghost leaves = { λ from op after.
        is_closed from.cell ≡ true → after.dropped ≡ Some op.0 };

    #[inline(always)]
    fn make(self, core: &mut Core<T, W>) -> Deferred<Result<(), Refusal>, All<W, Option<F>>> {
        if core.is_closed() {
            return Deferred::waking(Err(Refusal::Closed), All::waking(None, Some(self.0)));
        }
        match core.update(self.0) {
            Ok(woken) => Deferred::waking(Ok(()), All::waking(Some(woken), None)),
            Err(why) => Deferred::waking(Err(why), All::waking(None, None)),
        }
    }

    #[inline(always)]
    fn unlent(self) -> Result<(), Refusal> {
        Err(Refusal::Closed)
    }
}

impl<T, W, N, F> Op<T, W, N> for UpdateSome<F>
where
    T: Drop,
    W: Wakes,
    N: Protocol<T, W>,
    F: FnOnce(T) -> T + Drop,
{
    type Answer = Result<(), Refusal>;

    type After = All<W, Option<F>>;

    type FastAfter = ();

    ghost can = { λ op. F.IsAlwaysCallable op.0
        × ((old new : T) → N.holds old → F.post op.0 old new
        → N.may (kept.UpdateSome (Some old) (Some new))) × N.may (kept.UpdateSome None None) };

    ghost call = { λ from _ to. kept.UpdateSome (content from.cell) (content to.cell) };

    ghost reply = { λ _ updated. done_reply updated };

    ghost gives = { λ from op updated to.
        OnOk updated (IfSome (content from.cell) (λ old.
        IsSomeAnd (content to.cell) (λ new. F.post op.0 old new)))
        × (is_closed from.cell ≡ false → IsOk updated) × FailsWithClosed updated };

    ghost leaves = { λ from op after.
        is_full from.cell ≡ false → after.dropped ≡ Some op.0 };

    #[inline(always)]
    fn make(self, core: &mut Core<T, W>) -> Deferred<Result<(), Refusal>, All<W, Option<F>>> {
        if core.is_set() {
            return Deferred::waking(core.update_some(self.0), All::waking(None, None));
        }
        let updated = if core.is_closed() {
            Err(Refusal::Closed)
        } else {
            Ok(())
        };
        Deferred::waking(updated, All::waking(None, Some(self.0)))
    }

    #[inline(always)]
    fn unlent(self) -> Result<(), Refusal> {
        Err(Refusal::Closed)
    }
}
