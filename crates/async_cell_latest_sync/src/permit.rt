//! The permits of a state's owners. As many permits are given out as the state counts owners.
ghost use Rattle.std.specs.Prelude.{◌≡◌};
ghost use Rattle.async_cell_latest_sync.specs.Life.{permits_of};

use crate::Protocol;
use ghost_tokens::{Log, Permit};
use std::marker::{Model, PhantomData};

/// The permit of one owner of a state. A permit cannot be dropped: the call that ends its owner
/// takes the permit. A permit is zero-sized.
pub struct OwnerPermit<T, N: Protocol<T>> {
    permit: Permit,
    of: PhantomData<Log<(T, N)>>, // As a log, it may be sent and shared with any `T`.
}

/// The permit belongs to the owner count of the state that `N` names.
impl<T, N: Protocol<T>> Model for OwnerPermit<T, N> {
    ghost use Rattle.std.specs.Prelude.{◌≡◌};
    ghost use Rattle.async_cell_latest_sync.specs.Life.{permits_of};

    ghost Value = { Unit {0} };

    ghost view = { λ _. tt };

    ghost invariant = { λ p. p.permit.name ≡ permits_of N.named };
}

impl<T, N: Protocol<T>> OwnerPermit<T, N> {
    /// Makes an owner's permit from a permit of the owner count that `N` names.
    #[inline(always)]
    pub(crate) fn of(permit: Permit) -> Self
        requires of_this { permit.name ≡ permits_of N.named }
    {
        OwnerPermit {
            permit,
            of: PhantomData,
        }
    }

    /// Lends the permit of the count.
    #[inline(always)]
    pub(crate) fn permit(&self) -> &Permit
        ensures of_this { result.now.name ≡ permits_of N.named }
    {
        &self.permit
    }

    /// Returns the permit of the count.
    #[inline(always)]
    pub(crate) fn into_permit(self) -> Permit
        ensures of_this { result.name ≡ permits_of N.named }
    {
        let OwnerPermit { permit, of: _ } = self;
        permit
    }
}
