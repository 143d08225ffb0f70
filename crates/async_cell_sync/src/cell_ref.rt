ghost use Rattle.std.specs.Prelude.{◌≡◌, ℕ};
ghost use Rattle.async_cell_model.specs.declared.entry.Kept.{Kept};
ghost use Rattle.async_cell_history.specs.History.{IsTake};
ghost use Rattle.async_cell_wakers.specs.declared.task_waker.TaskWaker.{TaskWaker as Waker};
ghost use Rattle.async_cell_sync.specs.Source.{source_of};

use crate::async_cell::AsyncCell;
use crate::shared::Shared;
use async_cell_core::TaskWaker;
use async_cell_history::{Protocol, Takeable};
use std::sync::{Arc, Wait};

/// A pointer to a cell. `Take`, `Get` and guards work with any such pointer.
pub trait CellRef {
    /// The type of the value in the cell.
    type Value: Drop;

    /// What is known of the values (see `Rule`): `Unruled` if nothing is.
    type Rules: Protocol<Self::Value, TaskWaker>;

    /// The source that a pending future over this pointer has registered with. Leave it out in your
    /// own impl: nothing is then promised of the source.
    ghost waits_for: { Self → ℕ → Type 0 } = { λ _ _. ⊥ };

    /// Returns the cell that it points to: the same one at each call, as futures keep places in it.
    fn cell(&self) -> &AsyncCell<Self::Value, Self::Rules>
        ensures { (s : ℕ) → waits_for self.now s → s ≡ source_of result.now };

    /// Gives up the pointer. If it is an owner, the owner ends. Any other pointer is only dropped.
    fn leave<R: Wait>(self, rt: &R);
}

impl<T: Drop, N: Protocol<T, TaskWaker>> CellRef for &AsyncCell<T, N> {
    type Value = T;

    type Rules = N;

    ghost waits_for = { λ p s. s ≡ source_of p.now };

    fn cell(&self) -> &AsyncCell<T, N> {
        *self
    }

    fn leave<R: Wait>(self, _: &R) {}
}

impl<T: Drop, N: Protocol<T, TaskWaker>> CellRef for Arc<AsyncCell<T, N>> {
    type Value = T;

    type Rules = N;

    ghost waits_for = { λ p s. s ≡ source_of p.value };

    fn cell(&self) -> &AsyncCell<T, N> {
        self.as_ref()
    }

    fn leave<R: Wait>(self, _: &R) {}
}

impl<T: Drop, N: Protocol<T, TaskWaker>> CellRef for Shared<T, N> {
    type Value = T;

    type Rules = N;

    ghost waits_for = { λ p s. s ≡ source_of p.cell.value };

    fn cell(&self) -> &AsyncCell<T, N> {
        Shared::cell(self)
    }

    fn leave<R: Wait>(self, rt: &R) {
        self.end(rt);
    }
}

/// A reference to a pointer is a pointer, too. It is no owner.
impl<C: CellRef> CellRef for &C {
    type Value = C::Value;

    type Rules = C::Rules;

    ghost waits_for = { λ p s. C.waits_for p.now s };

    fn cell(&self) -> &AsyncCell<C::Value, C::Rules> {
        (**self).cell()
    }

    fn leave<R: Wait>(self, _: &R) {}
}

/// A pointer to a cell whose values may be taken.
pub trait TakeRef: CellRef {
    /// Every take may be made.
    ghost takes: { (call : Kept Self.Value Waker) → IsTake call → Self.Rules.may call };
}

impl<T: Drop, N: Takeable<T, TaskWaker>> TakeRef for &AsyncCell<T, N> {
    ghost takes = { N.takes };
}

impl<T: Drop, N: Takeable<T, TaskWaker>> TakeRef for Arc<AsyncCell<T, N>> {
    ghost takes = { N.takes };
}

impl<T: Drop, N: Takeable<T, TaskWaker>> TakeRef for Shared<T, N> {
    ghost takes = { N.takes };
}

impl<C: TakeRef> TakeRef for &C {
    ghost takes = { C.takes };
}
