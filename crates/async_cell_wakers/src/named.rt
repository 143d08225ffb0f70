use crate::wakes::Wakes;

/// A waker that is only a number, for tests, models and numbered tasks. Its `will_wake` is true for
/// the wakers that have the same number. Its `wake` does nothing.
#[derive(Clone, Copy, Debug, PartialEq, Eq)]
pub struct Named(pub u64);

impl Wakes for Named {
    ghost use Rattle.std.specs.Prelude.{true};
    ghost use Rattle.std.proofs.Common.{rules};
    ghost use Rattle.async_cell_wakers.specs.Named.{same_name};

    ghost will_wake = { same_name };

    ghost SURE_CLONE = { true };

    const SURE_CLONE: bool = true;

    fn will_wake(&self, other: &Named) -> bool {
        self.0 == other.0
    }

    fn wake(self) {}

    ghost clone_is_source = { Prim.search rules };

    ghost clone_is_sure = { Prim.search rules };
}
