ghost use Rattle.std.specs.Prelude.{◌≡◌, ℕ, Some};
ghost use Rattle.async_cell_unsync.specs.Source.{source_of};

use crate::{AsyncCell, CellRef};
use async_cell_calls::Cancel;
use async_cell_step::OneThread;

/// A guard of a cell. If the guard is dropped without being released, and the cell then holds no
/// value, the drop sets the guard's cancel value. In any case the guard's pointer to the cell is
/// dropped last. If the guard is an owner, this ends the owner.
#[derive_where(Debug)]
pub struct GuardedCell<T, C: CellRef<Value = T>> {
    #[derive_where(skip)]
    pointer: C,
    /// `None` once it is released.
    #[derive_where(skip)]
    cancel: Option<Cancel<T, C::Rules>>,
}

/// A second name for `GuardedCell`. In `async_cell_sync`, `Guard` is the name of a guard that ends
/// when it is dropped.
pub type Guard<T, C> = GuardedCell<T, C>;

impl<T: Drop, C: CellRef<Value = T>> GuardedCell<T, C> {
    pub(crate) fn new(pointer: C, cancel: T) -> Self
        requires rule { C.Rules.holds cancel }
        ensures of_this { result.pointer ≡ pointer }
        ensures keeps { result.cancel ≡ Some cancel }
    {
        GuardedCell {
            pointer,
            cancel: Some(Cancel::of(cancel)),
        }
    }

    /// Returns the cell that this guard guards.
    pub fn cell(&self) -> &AsyncCell<T, C::Rules>
        ensures { (s : ℕ) → C.waits_for self.now.pointer s → s ≡ source_of result.now }
    {
        self.pointer.cell()
    }

    /// Returns whether the cell holds a value.
    pub fn is_set(&self) -> bool {
        self.cell().is_set()
    }

    /// Returns this guard as it is.
    pub fn with(self) -> Guard<T, C>
        ensures guards { result ≡ self }
    {
        self
    }

    /// Ends the guard without a write. Drops its cancel value.
    pub fn release(mut self) {
        self.cancel = None;
    }

    /// Sets the value, and releases the guard.
    pub fn set(self, value: T)
        requires rule { C.Rules.holds value }
    {
        self.cell().set(value);
        self.release();
    }

    /// Sets the value if the cell holds none, and releases the guard.
    pub fn or_set(self, value: T)
        requires rule { C.Rules.holds value }
    {
        self.cell().or_set(value);
        self.release();
    }
}

/// Dropping it ends the guard.
impl<T: Drop, C: CellRef<Value = T>> Drop for GuardedCell<T, C> {
    fn drop(self) {
        let GuardedCell { pointer, cancel } = self;
        let cancel = cancel.map(Cancel::into_value);
        pointer.cell().core.end_guard(cancel, &OneThread);
    }
}
