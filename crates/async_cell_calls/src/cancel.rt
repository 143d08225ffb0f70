ghost use Rattle.std.specs.Prelude.{◌≡◌};
ghost use Rattle.async_cell_model.specs.declared.entry.Kept.TheVariants.{OrSet};

use async_cell_core::TaskWaker;
use async_cell_history::Protocol;
use std::marker::{Model, PhantomData};

/// The value that a guard sets at its end. The protocol allows an `or_set` of this value. Contracts
/// see the value.
#[derive(Drop)]
pub struct Cancel<T, N: Protocol<T, TaskWaker>> {
    value: T,
    of: PhantomData<N>,
}

impl<T, N: Protocol<T, TaskWaker>> Model for Cancel<T, N> {
    ghost Value = { T };

    ghost view = { λ c. c.value };

    ghost invariant = { λ c. N.may (OrSet c.value) };
}

impl<T, N: Protocol<T, TaskWaker>> Cancel<T, N> {
    /// Makes a `Cancel` that holds this value.
    #[inline(always)]
    pub fn of(value: T) -> Self
        requires may { N.may (OrSet value) }
        ensures { result ≡ value }
    {
        Cancel {
            value,
            of: PhantomData,
        }
    }

    /// Returns the value.
    #[inline(always)]
    pub fn into_value(self) -> T
        ensures gives { result ≡ self }
        ensures may { N.may (OrSet result) }
    {
        let Cancel { value, of: _ } = self;
        value
    }
}
