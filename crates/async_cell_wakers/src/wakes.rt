ghost use Rattle.std.specs.Prelude.{◌≡◌, Bool, IsTrue};

/// A waker that a cell can store. The result of `will_wake` has to depend on the arguments alone,
/// and contracts have to be able to name this function. `will_wake` need be neither reflexive nor
/// symmetric. Nothing else is required of `will_wake`.
pub trait Wakes: Clone {
    /// Whether waking the first also wakes what the second would wake.
    ghost will_wake: { Self → Self → Bool };

    /// `SURE_CLONE`, as contracts name it.
    ghost SURE_CLONE: { Bool };

    /// If it is `true`, no clone of a waker of this type fails.
    const SURE_CLONE: bool;

    /// Returns whether waking `self` also wakes what `other` would wake.
    fn will_wake(&self, other: &Self) -> bool
        ensures { result ≡ will_wake self.now other.now };

    /// Returns whether waking `self` wakes nobody: `false`, unless the type defines it otherwise.
    /// Only the debug text of a cell depends on it.
    fn wakes_nobody(&self) -> bool {
        false
    }

    /// Wakes the task that registered this waker, and consumes the waker.
    fn wake(self);

    /// A clone equals its source.
    ghost clone_is_source: { (a b : Self) → Self.is_clone a b → b ≡ a };

    /// If `SURE_CLONE` is true, no clone fails.
    ghost clone_is_sure: { IsTrue SURE_CLONE → (a : Self) → Self.is_infallible a };
}
