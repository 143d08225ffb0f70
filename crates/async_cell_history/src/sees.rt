//! Traits for whoever signs a call, and for whoever sees the call.
ghost use Rattle.std.specs.Prelude.{◌≡◌, ℕ, List};
ghost use Rattle.async_cell_model.specs.declared.entry.Kept.{Kept};
ghost use Rattle.async_cell_model.specs.declared.reply.Reply.{Reply};
ghost use Rattle.async_cell_history.specs.History.{Logged, Made};

use crate::{Author, CellCore, Protocol, Witness};
use async_cell_core::Wakes;

/// The signer of a call: a `Witness`, or `Nobody`.
pub trait Signs {
    /// The number that it signs with.
    ghost number: { Self → ℕ };
}

/// The signer of a call: a `Witness`, or `Nobody`. After the call, the signing `Witness` has seen
/// the call.
pub trait Sees<T: Drop, W: Wakes, N: Protocol<T, W>>: Signs {
    /// The second is the first after `catch_up`: it has seen all calls that led to this core.
    ghost ready: { Self → Self → Logged T W → Type 0 };

    /// The second has seen that this call was made, with this reply, after what the first has seen.
    ghost sees: { Self → Kept T W → Reply T → Self → Type 0 };

    /// Sees all calls so far.
    fn catch_up(&mut self, core: &CellCore<T, W, N>)
        ensures ready { ready self.old self.new core.now }
        ensures again { (first : Self) (from : Logged T W) → ready first self.old from
            → ready first self.new core.now };

    /// Sees the call that it has signed.
    fn see(&mut self, core: &CellCore<T, W, N>)
        ensures sees { (first : Self) (from : Logged T W) (call : Kept T W) (reply : Reply T)
            (woken : List W) → ready first self.old from
            → Made W.will_wake W.SURE_CLONE from call reply woken (Self.number self.old) core.now
            → sees first call reply self.new };
}

/// Used in place of a witness, for a call that no witness sees and nobody signs.
#[derive(Drop)]
pub struct Nobody;

impl Author for Nobody {
    ghost number = { 0 };
}

impl Signs for Nobody {
    ghost number = { λ _. 0 };
}

impl<T: Drop, W: Wakes, N: Protocol<T, W>> Sees<T, W, N> for Nobody {
    ghost use Rattle.std.specs.Prelude.{⊤};

    ghost ready = { λ _ _ _. ⊤ };

    ghost sees = { λ _ _ _ _. ⊤ };

    #[inline(always)]
    fn catch_up(&mut self, _: &CellCore<T, W, N>) {}

    #[inline(always)]
    fn see(&mut self, _: &CellCore<T, W, N>) {}
}

impl<T, W: Wakes, N: Protocol<T, W>> Signs for Witness<T, W, N> {
    ghost number = { λ witness. witness.author };
}

/// A witness sees that its author made the call.
impl<T: Drop, W: Wakes, N: Protocol<T, W>> Sees<T, W, N> for Witness<T, W, N> {
    ghost use Rattle.async_cell_history.specs.History.{IsReady, IsLinearized, IsSigned};

    ghost ready = { IsReady W.will_wake W.SURE_CLONE N.holds N.named };

    ghost sees = { λ seen call reply now.
        IsLinearized W.Wakes N.named seen.calls call reply now.calls × IsSigned seen now };

    #[inline(always)]
    fn catch_up(&mut self, core: &CellCore<T, W, N>) {
        self.learn(&core.past);
    }

    #[inline(always)]
    fn see(&mut self, core: &CellCore<T, W, N>) {
        self.learn_own(&core.past);
    }
}
