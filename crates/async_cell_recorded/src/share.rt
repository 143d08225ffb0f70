//! Shares of a recorded cell, and the markers, each of which names one cell in contracts.
ghost use Rattle.std.specs.Prelude.{◌≡◌, ◌<◌, ℕ, false};
ghost use Rattle.async_cell_recorded.specs.Counting.{ShareState, Test};

use std::marker::{Brand, Model, PhantomData};
use std::sync::ledger::{self, Blank, Ledger};

/// A type that names one recorded cell. No value of such a type is needed: only contracts read it.
pub trait Marker {
    /// The ledger that counts the calls.
    ghost calls: { ℕ };

    /// The ledger of the results that were picked.
    ghost picked: { ℕ };

    /// The number of shares.
    ghost shares: { ℕ };
}

/// Says which results of calls are picked. The cell's ledger `picked` counts the picked results.
/// Any condition on an entry may decide which results are picked.
pub trait Pick<T>: Marker {
    /// A test on the entry and the list of names that a call returned.
    ghost pick: { Test T };
}

impl Marker for Brand {
    ghost calls = { 0 };

    ghost picked = { 0 };

    ghost shares = { 0 };
}

impl<T> Pick<T> for Brand {
    ghost pick = { λ _ _. false };
}

/// The ledger of a cell's calls.
pub(crate) struct CallsLedger<M>(PhantomData<M>);

impl<M: Marker> Ledger for CallsLedger<M> {
    ghost name = { M.calls };

    ghost parts = { M.shares };
}

/// The ledger of the picked results of a cell's calls.
pub(crate) struct PickedLedger<M>(PhantomData<M>);

impl<M: Marker> Ledger for PickedLedger<M> {
    ghost name = { M.picked };

    ghost parts = { M.shares };
}

/// Two blank ledgers, each with a part for each share. A new recorded cell uses them up.
#[derive(Drop)]
pub struct Blanks {
    /// The ledger that counts the calls.
    pub calls: Blank,

    /// The ledger that counts the picked results (see `Pick`).
    pub picked: Blank,
}

impl Blanks {
    /// Makes blank ledgers for this number of shares.
    pub fn new(shares: u32) -> Self
        ensures calls { result.calls.parts ≡ shares }
        ensures picked { result.picked.parts ≡ shares }
    {
        Blanks {
            calls: Blank::new(u64::from(shares)),
            picked: Blank::new(u64::from(shares)),
        }
    }
}

/// The number of shares of the cell that `M` names.
#[derive(Drop)]
pub(crate) struct ShareCount<M: Marker> {
    pub(crate) shares: u32,
    of: PhantomData<M>,
    ghost all: { shares ≡ M.shares },
}

impl<M: Marker> ShareCount<M> {
    /// Stores the number of shares. Contracts know that this number equals `M.shares`.
    pub(crate) fn new(shares: u32) -> Self
        requires { shares ≡ M.shares }
        ensures { result.shares ≡ shares }
    {
        ShareCount {
            shares,
            of: PhantomData,
        }
    }
}

/// The right to make calls on a recorded cell, and the count of calls made with it. Each call
/// borrows a share. All shares together are needed to finish the cell. In proofs, the type `M`
/// tells this cell from others.
#[derive(Drop)]
pub struct Share<M: Marker> {
    pub(crate) number: u32,
    pub(crate) count: u64,
    pub(crate) calls: ledger::Share<CallsLedger<M>>,
    pub(crate) picked: ledger::Share<PickedLedger<M>>,
}

/// Contracts see the number, the count, and how many of the results were picked.
impl<M: Marker> Model for Share<M> {
    ghost Value = { ShareState };

    ghost view = { λ s. record { number = s.number; count = s.count; picked = s.picked.amount } };

    ghost invariant = { λ s.
        (s.calls.parts ≡ 1) × (s.calls.amount ≡ s.count) × (s.picked.parts ≡ 1)
        × (s.number < M.shares) };
}

impl<M: Marker> Share<M> {
    /// Returns the number of the share. The shares of a cell are numbered from 0.
    pub fn number(&self) -> u32
        ensures same { result ≡ self.now.number }
        ensures below { result < M.shares }
    {
        self.number
    }

    /// Returns how many calls were made with the share. Calls that failed are not counted.
    pub fn count(&self) -> u64
        ensures { result ≡ self.now.count }
    {
        self.count
    }
}
