//! Laws of the values of a state, as witnesses see them. Each is the contract of a function that
//! does nothing.
ghost use Rattle.std.specs.Prelude.{◌≡◌, ◌⊎◌, ◌++◌, ◌∷◌, [], true, List, None};
ghost use Rattle.async_cell_model.specs.Legal.{IsExact};
ghost use Rattle.async_cell_latest_sync.specs.Life.{GoesOn, IsLawful, IsNext, IsShown, IsShownNext, Life};
ghost use Rattle.async_cell_latest_sync.specs.InOrder.{AllFollowing, AreInOrder, IsLast, OnlyFollowing, WasShown};

use crate::Protocol;

/// An order of values. Only contracts read it.
pub trait Order<T> {
    /// Whether the second value follows the first.
    ghost follows: { T → T → Type 0 };

    /// Each value follows itself.
    ghost follows_itself: { (value : T) → follows value value };

    /// What follows a value follows all that this value follows.
    ghost follows_on: { (a b c : T) → follows a b → follows b c → follows a c };
}

/// A life goes on to itself, and to all that it goes on to in several steps. Two lives of one state
/// are the same if both are closed: no value follows the close.
#[tactic(auto, using(crate::proofs::InOrder::stays_itself, crate::proofs::InOrder::goes_further, crate::proofs::InOrder::both_closed))]
pub fn a_life_goes_on<T>()
    ensures itself { (life : Life T) → GoesOn life life }
    ensures further { (life now later : Life T)
        → GoesOn life now → GoesOn now later → GoesOn life later }
    ensures closed { (one other : Life T) → GoesOn one other ⊎ GoesOn other one
        → one.closed ≡ true → other.closed ≡ true → one ≡ other }
{}

/// What `next_as` shows was written after all that its witness was shown before.
#[tactic(auto, using(crate::proofs::InOrder::next_is_shown, crate::proofs::InOrder::in_order))]
pub fn what_is_shown_next_was_written_later<T: Clone>()
    ensures shown { (seen now : Life T) (y : T)
        → IsShownNext T.is_clone seen y now → IsShown T.is_clone seen y now }
    ensures in_order { (seen now mid later : Life T) (x y : T)
        → IsShown T.is_clone seen x now → GoesOn now mid → IsShownNext T.is_clone mid y later
        → AreInOrder T.is_clone x y later.values }
{}

/// What was shown to a witness stays a clone of one of the values that it has seen.
#[tactic(auto, using(crate::proofs::InOrder::is_shown_was_shown, crate::proofs::InOrder::next_was_shown, crate::proofs::InOrder::shown_stays))]
pub fn what_was_shown_stays_shown<T: Clone>()
    ensures shown { (seen now : Life T) (x : T)
        → IsShown T.is_clone seen x now → WasShown T.is_clone x now }
    ensures next { (seen now : Life T) (x : T)
        → IsShownNext T.is_clone seen x now → WasShown T.is_clone x now }
    ensures stays { (life now : Life T) (x : T)
        → WasShown T.is_clone x life → GoesOn life now → WasShown T.is_clone x now }
{}

/// What is shown never goes back, if each clone equals its source, and only values may be written
/// that follow the last one in the order `O`. Then a value that is shown follows each value that
/// was shown before to the same witness, or to a witness that had seen less.
pub fn what_is_shown_never_goes_back<T: Clone, O: Order<T>, N: Protocol<T>>()
    ensures in_order { (values : List T) (x y : T)
        → OnlyFollowing N.may O.follows → IsExact T.is_clone → IsLawful N.may values
        → AreInOrder T.is_clone x y values → O.follows x y }
    ensures shown { (seen now mid later : Life T) (x y : T)
        → OnlyFollowing N.may O.follows → IsExact T.is_clone → IsLawful N.may later.values
        → IsShown T.is_clone seen x now → GoesOn now mid → IsShown T.is_clone mid y later
        → O.follows x y }
    ensures again { (seen now : Life T) (x y : T)
        → OnlyFollowing N.may O.follows → IsExact T.is_clone → IsLawful N.may now.values
        → WasShown T.is_clone x seen → IsShown T.is_clone seen y now → O.follows x y }
    ensures next { (seen now : Life T) (x y : T)
        → OnlyFollowing N.may O.follows → IsExact T.is_clone → IsLawful N.may now.values
        → WasShown T.is_clone x seen → IsShownNext T.is_clone seen y now → O.follows x y }
{}

/// If each value may be written that follows the last one in the order `O`, then any first value
/// may be written, and an `update_as` may write what follows the old value.
pub fn what_follows_may_be_written<T, O: Order<T>, N: Protocol<T>>()
    ensures first { (value : T) → AllFollowing N.may O.follows → N.may [] value }
    ensures next { (before : List T) (old new : T)
        → AllFollowing N.may O.follows → O.follows old new → N.may (before ++ old ∷ []) new }
{}

/// The last value of a closed state is never missed. If `next_as` shows that there is no further
/// value, and its witness has seen nothing since it was shown a value, this value is a clone of the
/// last one, and stays so.
#[tactic(auto, using(crate::proofs::InOrder::none_is_next, crate::proofs::InOrder::last_stays))]
pub fn the_last_value_is_never_missed<T: Clone>()
    ensures last { (seen now later : Life T) (x : T)
        → IsShown T.is_clone seen x now → IsNext T.is_clone now None later
        → IsLast T.is_clone x later }
    ensures stays { (life now : Life T) (x : T)
        → IsLast T.is_clone x life → GoesOn life now → IsLast T.is_clone x now }
{}

/// What is shown of a closed state is a clone of its last value: if the witness has seen the close
/// then, or had seen it before.
#[tactic(auto, using(crate::proofs::InOrder::closed_is_last, crate::proofs::InOrder::closed_before_is_last, crate::proofs::InOrder::closed_next_is_last))]
pub fn what_is_shown_of_a_closed_state_is_the_last<T: Clone>()
    ensures last { (seen now : Life T) (x : T)
        → IsShown T.is_clone seen x now → now.closed ≡ true → IsLast T.is_clone x now }
    ensures before { (seen now : Life T) (x : T)
        → IsShown T.is_clone seen x now → seen.closed ≡ true → IsLast T.is_clone x now }
    ensures next { (seen now : Life T) (x : T)
        → IsShownNext T.is_clone seen x now → now.closed ≡ true → IsLast T.is_clone x now }
{}
