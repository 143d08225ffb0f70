//! A value that shows that it was set.
ghost use Rattle.std.specs.Prelude.{◌≡◌, [], ◌∷◌};

use ghost_tokens::{Makes, Seen};

/// A value, and a token that shows that it was the first to be set.
#[derive(Drop)]
pub struct Signed {
    pub value: u64,
    pub set: Seen<u64>,
    ghost first: { set.list ≡ value ∷ [] },
}

/// A value that was set is an entry of the list of these.
pub struct IsSet;

impl Makes<u64, u64> for IsSet {
    ghost entry = { λ value. value };
}
