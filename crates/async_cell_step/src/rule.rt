ghost use Rattle.std.specs.Prelude.{⊤};

use std::marker::{Brand, PhantomData};

/// A rule on values. Whoever writes a value to the cell proves that the value satisfies the rule,
/// so whoever takes a value may rely on it. A get clones such a value. Only contracts read rules.
///
/// ```rust
/// struct Even;
///
/// impl Rule<u64> for Even {
///     ghost holds = { λ value. value % 2 ≡ 0 };
/// }
/// ```
pub trait Rule<T> {
    /// What is known of each value.
    ghost holds: { T → Type 0 };
}

/// As the protocol of a cell, `Ruled<P>` says that the cell has no name and that its values satisfy
/// the rule `P`. A change may be made if each value that it puts into the cell satisfies `P`.
pub struct Ruled<P>(PhantomData<P>);

/// A caller that passes `Brand` as a type defines its own rule in place of this one. That rule may
/// name values of the program.
impl<T> Rule<T> for Brand {
    ghost holds = { λ _. ⊤ };
}
