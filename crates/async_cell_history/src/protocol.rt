ghost use Rattle.std.specs.Prelude.{◌≡◌, ⊤, Option, None, refl};
ghost use Rattle.async_cell_model.specs.declared.entry.Kept.{Kept};
ghost use Rattle.async_cell_history.specs.History.{Begun, IsTake, Puts, puts_any};

use async_cell_step::{Rule, Ruled};
use std::marker::Brand;

/// Names a cell, and says which changes of its content may be made, and what is known of its
/// values. Only contracts read a protocol.
pub trait Protocol<T, W> {
    /// How the cell began. If it is `None`, the cell has no name, and nobody sees its history.
    ghost named: { Option (Begun T W) };

    /// The changes that may be made: writes and takes.
    ghost may: { Kept T W → Type 0 };

    /// The rule: what is known of each value that the cell holds.
    ghost holds: { T → Type 0 };

    /// Each value that an allowed change puts in satisfies the rule.
    ghost keeps: { (call : Kept T W) → may call → Puts holds call };
}

// Three traits, since a protocol may allow takes but not each write (`Takeable` alone), or name its
// cell (`Takeable` and `Free`). `Unruled` and `Ruled` have all three.

/// The protocol of a cell whose values may be taken.
pub trait Takeable<T, W>: Protocol<T, W> {
    /// Every take may be made.
    ghost takes: { (call : Kept T W) → IsTake call → Self.may call };
}

/// The protocol of a cell to which every change may be made, if the change puts in only values that
/// satisfy the cell's rule.
pub trait Free<T, W>: Protocol<T, W> {
    /// Every such change may be made.
    ghost free: { (call : Kept T W) → Puts Self.holds call → Self.may call };
}

/// The protocol of a cell whose history nobody sees. Such a protocol names neither a history nor a
/// count of owners.
pub trait Unwitnessed<T, W>: Free<T, W> {
    /// It has no name.
    ghost nameless: { Self.named ≡ None };
}

/// As the protocol of a cell, `Unruled` says that the cell has no name and that every change may be
/// made to the cell.
pub struct Unruled;

impl<T, W> Protocol<T, W> for Unruled {
    ghost named = { None };

    ghost may = { λ _. ⊤ };

    ghost holds = { λ _. ⊤ };

    ghost keeps = { λ call _. puts_any call };
}

impl<T, W> Takeable<T, W> for Unruled {
    ghost takes = { λ _ _. tt };
}

impl<T, W> Free<T, W> for Unruled {
    ghost free = { λ _ _. tt };
}

impl<T, W> Unwitnessed<T, W> for Unruled {
    ghost nameless = { refl };
}

impl<T, W, P: Rule<T>> Protocol<T, W> for Ruled<P> {
    ghost named = { None };

    ghost may = { Puts P.holds };

    ghost holds = { P.holds };

    ghost keeps = { λ _ may. may };
}

impl<T, W, P: Rule<T>> Takeable<T, W> for Ruled<P> {
    ghost use Rattle.std.proofs.Common.{rules};

    ghost takes = { Prim.search rules };
}

impl<T, W, P: Rule<T>> Free<T, W> for Ruled<P> {
    ghost free = { λ _ puts. puts };
}

impl<T, W, P: Rule<T>> Unwitnessed<T, W> for Ruled<P> {
    ghost nameless = { refl };
}

/// A caller that passes `Brand` may define its own members in place of these, in an
/// `Invariants.antt`. The caller's members may name the program's values.
impl<T, W> Protocol<T, W> for Brand {
    ghost named = { None };

    ghost may = { λ _. ⊤ };

    ghost holds = { λ _. ⊤ };

    ghost keeps = { λ call _. puts_any call };
}
