ghost use Rattle.std.specs.Prelude.{◌≡◌, ℕ};
ghost use Rattle.async_cell_sync.specs.Source.{source_of};

use crate::async_cell::AsyncCell;
use crate::cell_ref::CellRef;
use async_cell_calls::Cancel;
use async_cell_model::Kept;
use std::sync::Wait;

/// A guard of a cell. It must be consumed: by `cancel`, which sets its cancel value if the cell
/// holds no value, or by `release`, `set` or `or_set`. If the guard is an owner, each of these also
/// ends the owner. `with` turns the guard into a `Guard`, whose drop does what `cancel` does.
#[derive_where(Debug)]
pub struct GuardedCell<T, C: CellRef<Value = T>> {
    #[derive_where(skip)]
    pointer: C,
    #[derive_where(skip)]
    cancel: Cancel<T, C::Rules>,
}

impl<T: Drop, C: CellRef<Value = T>> GuardedCell<T, C> {
    pub(crate) fn new(pointer: C, cancel: T) -> Self
        requires may { C.Rules.may (Kept.OrSet cancel) }
        ensures of_this { result.pointer ≡ pointer }
        ensures keeps { result.cancel ≡ cancel }
    {
        let cancel = Cancel::of(cancel);
        GuardedCell { pointer, cancel }
    }

    /// Makes a `Guard` from this guard and `rt`, the right to wait for the lock. The `Guard` ends
    /// when it is dropped.
    pub fn with<R: Wait + Drop>(self, rt: R) -> Guard<T, C, R>
        ensures guards { result.guarded ≡ self }
    {
        Guard { guarded: self, rt }
    }

    /// Returns the cell that this guard guards.
    pub fn cell(&self) -> &AsyncCell<T, C::Rules>
        ensures { (s : ℕ) → C.waits_for self.now.pointer s → s ≡ source_of result.now }
    {
        self.pointer.cell()
    }

    /// Ends the guard: sets its cancel value and wakes all waiters, unless the cell holds a value.
    pub fn cancel<R: Wait>(self, rt: &R) {
        let GuardedCell { pointer, cancel } = self;
        pointer.cell().core.end_guard(Some(cancel.into_value()), rt);
        pointer.leave(rt);
    }

    /// Ends the guard without a write. Drops its cancel value.
    pub fn release<R: Wait>(self, rt: &R) {
        let GuardedCell { pointer, cancel: _ } = self;
        pointer.leave(rt);
    }

    /// Sets the value, and releases the guard.
    pub fn set<R: Wait>(self, value: T, rt: &R)
        requires may { C.Rules.may (Kept.Replace value) }
    {
        self.cell().set(value, rt);
        self.release(rt);
    }

    /// Sets the value if the cell holds none, and releases the guard.
    pub fn or_set<R: Wait>(self, value: T, rt: &R)
        requires may { C.Rules.may (Kept.OrSet value) }
    {
        self.cell().or_set(value, rt);
        self.release(rt);
    }
}

/// A guard of a cell, with the right to wait for the lock. The drop of the guard, also at `?` or an
/// early `return`, sets the guard's cancel value if the cell holds no value. `release`, `set` and
/// `or_set` end the guard without setting the cancel value. If the guard is an owner, the drop and
/// each of these calls also end the owner. The end of the last owner drops the value, so whoever
/// waits for the value has to be an owner (`take_shared`).
///
/// **Dropping a `Guard` may wait for the lock**, as its calls may. A `GuardedCell`, in contrast, is
/// not ended by a drop but by a call.
#[derive_where(Debug)]
pub struct Guard<T: Drop, C: CellRef<Value = T>, R: Wait + Drop> {
    #[derive_where(skip)]
    pub(crate) guarded: GuardedCell<T, C>,
    #[derive_where(skip)]
    pub(crate) rt: R,
}

impl<T: Drop, C: CellRef<Value = T>, R: Wait + Drop> Guard<T, C, R> {
    /// Returns the cell that this guard guards.
    pub fn cell(&self) -> &AsyncCell<T, C::Rules>
        ensures { (s : ℕ) → C.waits_for self.now.guarded.pointer s → s ≡ source_of result.now }
    {
        self.guarded.cell()
    }

    /// Returns whether the cell holds a value.
    pub fn is_set(&self) -> bool {
        self.cell().is_set(&self.rt)
    }

    /// Ends the guard without a write. Drops its cancel value.
    pub fn release(self) {
        let Guard { guarded, rt } = self;
        guarded.release(&rt);
    }

    /// Sets the value, and releases the guard.
    pub fn set(self, value: T)
        requires may { C.Rules.may (Kept.Replace value) }
    {
        let Guard { guarded, rt } = self;
        guarded.set(value, &rt);
    }

    /// Sets the value if the cell holds none, and releases the guard.
    pub fn or_set(self, value: T)
        requires may { C.Rules.may (Kept.OrSet value) }
    {
        let Guard { guarded, rt } = self;
        guarded.or_set(value, &rt);
    }
}

/// Ends the guard as `GuardedCell::cancel` does. May wait for the lock.
impl<T: Drop, C: CellRef<Value = T>, R: Wait + Drop> Drop for Guard<T, C, R> {
    fn drop(self) {
        let Guard { guarded, rt } = self;
        guarded.cancel(&rt);
    }
}
