//! The permits of a cell's owners. If a witness sees the cell, as many permits were given and not
//! taken as the cell's core counts owners.
ghost use Rattle.std.specs.Prelude.{◌≡◌, ◌+◌, ◌-◌, ◌<◌, false, None, IsSome, IsTrue};
ghost use Rattle.async_cell_model.specs.Machine.{is_closed};
ghost use Rattle.async_cell_history.specs.History.{permits_of};

use crate::{CellCore, Past, Protocol};
use async_cell_core::Wakes;
use async_cell_step::{Opens, StoredCore, Stores};
use ghost_tokens::{Log, Permit};
use std::marker::{Model, PhantomData};

/// The permit of one owner of a cell. A permit cannot be dropped: the call that ends its owner
/// takes the permit. A permit is zero-sized.
pub struct OwnerPermit<T, W, N: Protocol<T, W>> {
    permit: Permit,
    of: PhantomData<Log<(T, W, N)>>, // As a log, it may be sent and shared with any `T`.
}

/// The permit belongs to the owner count of the cell that `N` names.
impl<T, W, N: Protocol<T, W>> Model for OwnerPermit<T, W, N> {
    ghost use Rattle.std.specs.Prelude.{◌≡◌};
    ghost use Rattle.async_cell_history.specs.History.{permits_of};

    ghost Value = { Unit {0} };

    ghost view = { λ _. tt };

    ghost invariant = { λ p. p.permit.name ≡ permits_of N.named };
}

impl<T, W, N: Protocol<T, W>> OwnerPermit<T, W, N> {
    /// Makes an owner's permit from a permit of the owner count that `N` names.
    #[inline(always)]
    pub(crate) fn of(permit: Permit) -> Self
        requires of_this { permit.name ≡ permits_of N.named }
    {
        OwnerPermit {
            permit,
            of: PhantomData,
        }
    }

    /// A permit of a cell whose owners are not counted.
    #[inline(always)]
    pub fn blind() -> Self
        requires nameless { N.named ≡ None }
    {
        OwnerPermit::of(Permit::blind())
    }

    /// Drops a permit of a cell whose owners are not counted.
    #[inline(always)]
    pub fn let_go(self)
        requires nameless { N.named ≡ None }
    {
        let OwnerPermit { permit, of: _ } = self;
        permit.lose();
    }

    /// Drops the permit of the last owner. The cell is dropped next, and nobody else can call it.
    #[inline(always)]
    pub fn rest<M: Stores<Core = CellCore<T, W, N>>>(self, _: &mut StoredCore<M>)
    where
        W: Wakes,
    {
        let OwnerPermit { permit, of: _ } = self;
        permit.lose();
    }

    /// Drops a permit. This is for use when no core could be lent. The permit's owner stays
    /// counted, so the cell is never closed.
    #[inline(always)]
    pub fn lose<'a, M: Stores, R: Opens<'a, M>>(self, _: &R)
        requires unlent { IsTrue R.always → ⊥ }
    {
        let OwnerPermit { permit, of: _ } = self;
        permit.lose();
    }
}

impl<T, W: Wakes, N: Protocol<T, W>> Past<T, W, N> {
    /// Gives the permit of one more owner.
    #[inline(always)]
    pub(crate) fn give(&mut self) -> OwnerPermit<T, W, N>
        ensures { self.new ≡ record self.old { out = self.old.out + 1 } }
    {
        OwnerPermit::of(self.count.give())
    }

    /// Takes the permit of an owner that ends.
    #[inline(always)]
    pub(crate) fn take(&mut self, permit: OwnerPermit<T, W, N>)
        ensures { self.new ≡ record self.old { out = self.old.out - 1 } }
    {
        let OwnerPermit { permit, of: _ } = permit;
        self.count.take(permit);
    }

    /// Does nothing. Its contract states that, if owners are counted, there is at least one:
    /// `permit` belongs to it.
    #[inline(always)]
    pub(crate) fn proves_counted(&mut self, permit: &OwnerPermit<T, W, N>)
        ensures stays { self.new ≡ self.old }
        ensures out { IsSome (permits_of N.named) → 0 < self.old.out }
    {
        self.count.proves_counted(&permit.permit);
    }
}

/// Who makes a call: an owner, or anyone. The cell of an owner that is counted is open.
pub trait Caller<T, W: Wakes, N: Protocol<T, W>> {
    /// It is an owner that is counted.
    ghost owns: { Type 0 };

    /// Does nothing. Its contract states that the cell of an owner that is counted is open.
    fn proves_open(&self, core: &mut CellCore<T, W, N>)
        ensures stays { core.new ≡ core.old }
        ensures open { owns → is_closed core.old.inner.cell ≡ false };
}

/// Anyone may call, owner or not.
pub struct Anyone;

impl<T: Drop, W: Wakes, N: Protocol<T, W>> Caller<T, W, N> for Anyone {
    ghost owns = { ⊥ };

    #[inline(always)]
    fn proves_open(&self, _: &mut CellCore<T, W, N>) {}
}

impl<T: Drop, W: Wakes, N: Protocol<T, W>> Caller<T, W, N> for OwnerPermit<T, W, N> {
    ghost use Rattle.std.specs.Prelude.{IsSome};
    ghost use Rattle.async_cell_history.specs.History.{permits_of};

    ghost owns = { IsSome (permits_of N.named) };

    #[inline(always)]
    #[tactic(auto, using(crate::proofs::Leading::open_if_owned))]
    fn proves_open(&self, core: &mut CellCore<T, W, N>) {
        core.past.proves_counted(self);
    }
}
