ghost use Rattle.std.specs.Prelude.{◌≡◌, ℕ};
ghost use Rattle.async_cell_unsync.specs.Source.{source_of};

use crate::{AsyncCell, Shared};
use async_cell_core::TaskWaker;
use async_cell_history::Free;
use std::rc::Rc;

/// A pointer to a cell. `Take`, `Get` and guards work with any such pointer.
pub trait CellRef: Drop {
    /// The type of the value in the cell.
    type Value: Drop;

    /// What is known of the values (see `Rule`): `Unruled` if nothing is.
    type Rules: Free<Self::Value, TaskWaker>;

    /// The source that a pending future over this pointer has registered with. Leave it out in your
    /// own impl: nothing is then promised of the source.
    ghost waits_for: { Self → ℕ → Type 0 } = { λ _ _. ⊥ };

    /// Returns the cell that it points to: the same one at each call, as futures keep places in it.
    fn cell(&self) -> &AsyncCell<Self::Value, Self::Rules>
        ensures { (s : ℕ) → waits_for self.now s → s ≡ source_of result.now };
}

impl<T: Drop, N: Free<T, TaskWaker>> CellRef for &AsyncCell<T, N> {
    type Value = T;

    type Rules = N;

    ghost waits_for = { λ p s. s ≡ source_of p.now };

    fn cell(&self) -> &AsyncCell<T, N> {
        *self
    }
}

impl<T: Drop, N: Free<T, TaskWaker>> CellRef for Rc<AsyncCell<T, N>> {
    type Value = T;

    type Rules = N;

    ghost waits_for = { λ p s. s ≡ source_of p.value };

    fn cell(&self) -> &AsyncCell<T, N> {
        self.as_ref()
    }
}

impl<T: Drop, N: Free<T, TaskWaker>> CellRef for Shared<T, N> {
    type Value = T;

    type Rules = N;

    ghost waits_for = { λ p s. s ≡ source_of p.cell.value };

    fn cell(&self) -> &AsyncCell<T, N> {
        Shared::cell(self)
    }
}

/// A reference to a pointer is a pointer, too.
impl<C: CellRef> CellRef for &C {
    type Value = C::Value;

    type Rules = C::Rules;

    ghost waits_for = { λ p s. C.waits_for p.now s };

    fn cell(&self) -> &AsyncCell<C::Value, C::Rules> {
        (**self).cell()
    }
}
