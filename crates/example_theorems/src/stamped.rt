//! A value that shows that it was written, and after which others.
ghost use Rattle.std.specs.Prelude.{◌≡◌, ◌≤◌, ◌⊎◌, ⊤, length, None, Some, IfSome};
ghost use Rattle.std.specs.List.{last_or};

use ghost_tokens::{Makes, Seen};
use std::alloc::AllocError;

/// A value with its number, and a token of what was written so far: the value is the last.
#[derive(Drop)]
pub struct Stamped {
    pub value: u64,
    pub number: u64,
    pub written: Seen<u64>,
    ghost counted: { number ≡ length written.list },
    ghost last: { last_or None written.list ≡ Some value },
}

/// A clone is equal to its source.
impl Clone for Stamped {
    ghost is_clone = { λ a b. b ≡ a };

    ghost is_infallible = { λ _. ⊤ };

    fn clone(&self) -> Result<Stamped, AllocError> {
        Ok(Stamped {
            value: self.value,
            number: self.number,
            written: self.written.again(),
        })
    }
}

/// What was written is an entry of the list of these.
pub struct IsWritten;

impl Makes<u64, u64> for IsWritten {
    ghost entry = { λ value. value };
}

/// Returns the new value, or the old one if its number is higher.
pub fn newer(old: Option<Stamped>, new: Stamped) -> Stamped
    ensures one_of_both { (result ≡ new) ⊎ (old ≡ Some result) }
    ensures no_older { new.number ≤ result.number }
    ensures goes_on { IfSome old (λ it. it.number ≤ result.number) }
{
    match old {
        Some(old) if old.number > new.number => old,
        _ => new,
    }
}
