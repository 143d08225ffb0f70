//! Laws of the history of a cell. Each is the contract of a function that does nothing.
ghost use Rattle.std.specs.Prelude.{◌≡◌, ◌≢◌, ◌+◌, ◌⊎◌, ◌++◌, ◌∷◌, [], ℕ, Bool, true, false, length, Option, Some, IfSome, option_to_list};
ghost use Rattle.std.specs.List.{All, count_by};
ghost use mathlib.Core.List.{IsPrefix};
ghost use Rattle.async_cell_model.specs.declared.reply.Reply.{Reply as Replied};
ghost use Rattle.async_cell_model.specs.declared.entry.Kept.{Kept as Called};
ghost use Rattle.async_cell_model.specs.Machine.{content, ends_waiting, is_closed};
ghost use Rattle.async_cell_model.specs.Legal.{IsExact};
ghost use Rattle.async_cell_model.specs.History.{History, IsCovered, cell_after};
ghost use Rattle.async_cell_history.specs.History.{GoesOn, HasEntry, IsLawful, IsNoSet, IsOrSet, IsSigned, IsTake, IsLinearized, IsLinearizedUpTo};
ghost use Rattle.async_cell_history.specs.History.{OnlyMakes, Seen, StillWaits, Took, come_out, comes_out, dropped, goes_in, gone_in, start_of};

use crate::Protocol;
use async_cell_core::Wakes;
use async_cell_model::{Kept, Reply};

/// In the history, a call that fills or closes a cell wakes each waker that still waits on it, or
/// another one that would wake the same task.
pub fn a_fill_or_close_wakes_who_waits<T, W: Wakes, N: Protocol<T, W>>()
    ensures { (seen now : History T W) (call : Called T W) (reply : Replied T) (w : W)
        (made : IsLinearized W.Wakes N.named seen call reply now)
        → IsLawful W.will_wake W.SURE_CLONE N.may (start_of N.named) now
        → StillWaits (start_of N.named).cell w made.before
        → ends_waiting (cell_after (start_of N.named).cell made.before)
        (cell_after (start_of N.named).cell now) ≡ true
        → IsCovered W.will_wake made.woken w }
{}

/// As `a_fill_or_close_wakes_who_waits`, for a `set` that succeeded.
pub fn a_set_wakes_who_waits<T, W: Wakes, N: Protocol<T, W>>()
    ensures { (seen now : History T W) (v : T) (w : W)
        (made : IsLinearized W.Wakes N.named seen (Kept.Set v) Reply.Done now)
        → IsLawful W.will_wake W.SURE_CLONE N.may (start_of N.named) now
        → StillWaits (start_of N.named).cell w made.before → IsCovered W.will_wake made.woken w }
{}

/// A call that was linearized is in the history, and stays there.
#[tactic(auto, using(crate::proofs::GoingOn::stays, crate::proofs::GoingOn::linearized_in))]
pub fn what_was_seen_stays<T, W: Wakes, N: Protocol<T, W>>()
    ensures linearized { (seen now : History T W) (call : Called T W) (reply : Replied T)
        → IsLinearized W.Wakes N.named seen call reply now → HasEntry now call reply }
    ensures stays { (seen now : History T W) (call : Called T W) (reply : Replied T)
        → IsPrefix seen now → HasEntry seen call reply → HasEntry now call reply }
{}

/// If each clone equals its source, a `try_get` returned what the cell held.
#[tactic(auto, using(crate::proofs::GoingOn::exact_get))]
pub fn an_exact_get_is_linearized<T: Clone, W: Wakes, N: Protocol<T, W>>()
    ensures { IsExact T.is_clone → (seen now : History T W) (v : T)
        → IsLinearizedUpTo T.is_clone W.Wakes N.named seen Kept.TryGet (Reply.Value (Some v)) now
        → IsLinearized W.Wakes N.named seen Kept.TryGet (Reply.Value (Some v)) now }
{}

/// If `or_set` is the only change that may be made, all `try_get`s that find a value find the same
/// one. Each returned this value, or a clone of it.
pub fn what_is_set_once_all_get<T, W: Wakes, N: Protocol<T, W>>()
    ensures { (now : History T W) (v w : T)
        → OnlyMakes N.may IsOrSet
        → IsLawful W.will_wake W.SURE_CLONE N.may (start_of N.named) now
        → HasEntry now Kept.TryGet (Reply.Value (Some v))
        → HasEntry now Kept.TryGet (Reply.Value (Some w)) → v ≡ w }
{}

/// The values that `try_get`s find never go backwards. `follows` is a reflexive and transitive
/// relation. The only changes that may be made are `or_set`s and updates. An update of a full cell
/// must put in a value that follows the old one. Suppose that the witness passed to one `try_get`
/// has already seen another `try_get`, and that both find a value. Then the value that the later
/// `try_get` finds follows the value that the earlier `try_get` found. Each of the two returned the
/// value that it found, or a clone of that value.
pub fn what_is_got_never_goes_back<T, W: Wakes, N: Protocol<T, W>>()
    ensures { (follows : T → T → Bool) (seen first later now : History T W) (v w : T)
        → ((a : T) → follows a a ≡ true)
        → ((a b c : T) → follows a b ≡ true → follows b c ≡ true → follows a c ≡ true)
        → OnlyMakes N.may (GoesOn (λ a b. follows a b ≡ true))
        → IsLawful W.will_wake W.SURE_CLONE N.may (start_of N.named) now
        → IsLinearized W.Wakes N.named seen Kept.TryGet (Reply.Value (Some v)) first
        → IsPrefix first later
        → IsLinearized W.Wakes N.named later Kept.TryGet (Reply.Value (Some w)) now
        → follows v w ≡ true }
{}

/// As `what_is_got_never_goes_back`, for a value that an `update` put in (of an `update_some` it
/// says nothing): the value that a later `try_get` finds follows it.
pub fn what_is_got_follows_what_was_put<T, W: Wakes, N: Protocol<T, W>>()
    ensures { (follows : T → T → Bool) (seen first later now : History T W)
        (saw : Option T) (v w : T)
        → ((a : T) → follows a a ≡ true)
        → ((a b c : T) → follows a b ≡ true → follows b c ≡ true → follows a c ≡ true)
        → OnlyMakes N.may (GoesOn (λ a b. follows a b ≡ true))
        → IsLawful W.will_wake W.SURE_CLONE N.may (start_of N.named) now
        → IsLinearized W.Wakes N.named seen (Kept.Update saw (Some v)) Reply.Done first
        → IsPrefix first later
        → IsLinearized W.Wakes N.named later Kept.TryGet (Reply.Value (Some w)) now
        → follows v w ≡ true }
{}

/// If a `try_take` with a witness found a value, the witness's author signed it. Every longer
/// history that begins with the seen calls still shows this signature.
pub fn a_seen_take_is_of_its_author<T, W: Wakes, N: Protocol<T, W>>()
    ensures linearized { (seen now : Seen T W) (v : T)
        → IsLinearized W.Wakes N.named seen.calls Kept.TryTake (Reply.Value (Some v)) now.calls
        → IsSigned seen now → length now.authors ≡ length now.calls → Took seen.author v now }
    ensures later { (seen all : Seen T W) (n : ℕ) (v : T) → Took n v seen
        → IsPrefix seen.calls all.calls → IsPrefix seen.authors all.authors → Took n v all }
{}

/// If the only changes that the protocol allows are takes, then all `try_take`s that found a value
/// were signed by the same author.
pub fn of_takers_alone_one_gets<T, W: Wakes, N: Protocol<T, W>>()
    ensures { (all : Seen T W) (m n : ℕ) (v w : T) → OnlyMakes N.may IsTake
        → IsLawful W.will_wake W.SURE_CLONE N.may (start_of N.named) all.calls
        → Took m v all → Took n w all → m ≡ n }
{}

/// What goes in comes out. Choose any kind of values, and count only the values of this kind. The
/// number in the cell at the start plus the number that went in equals the number that came out,
/// plus the number that a `set` dropped, plus the number that is left. Without a `set` none is
/// dropped.
pub fn as_many_come_out_or_are_left_as_went_in<T, W: Wakes, N: Protocol<T, W>>()
    ensures as_many { (is_counted : T → Bool) (now : History T W)
        → IsLawful W.will_wake W.SURE_CLONE N.may (start_of N.named) now
        → count_by is_counted (come_out now)
        + count_by is_counted (dropped (start_of N.named).cell now)
        + count_by is_counted (option_to_list (content (cell_after (start_of N.named).cell now)))
        ≡ count_by is_counted (option_to_list (content (start_of N.named).cell))
        + count_by is_counted (gone_in now) }
    ensures none_dropped { OnlyMakes N.may IsNoSet → (now : History T W)
        → IsLawful W.will_wake W.SURE_CLONE N.may (start_of N.named) now
        → dropped (start_of N.named).cell now ≡ [] }
{}

/// After a close nothing is left in the cell: what went in has come out, or a `set` dropped it. The
/// cell stays closed, and a later call gives back what is passed to it, and nothing else. So who
/// has seen the close has seen all that ever changed the content.
pub fn after_a_close_nothing_is_left<T, W: Wakes, N: Protocol<T, W>>()
    ensures as_many { (is_counted : T → Bool) (now : History T W)
        → IsLawful W.will_wake W.SURE_CLONE N.may (start_of N.named) now
        → is_closed (cell_after (start_of N.named).cell now) ≡ true
        → count_by is_counted (come_out now)
        + count_by is_counted (dropped (start_of N.named).cell now)
        ≡ count_by is_counted (option_to_list (content (start_of N.named).cell))
        + count_by is_counted (gone_in now) }
    ensures stays { (now later : History T W)
        → is_closed (cell_after (start_of N.named).cell now) ≡ true
        → is_closed (cell_after (start_of N.named).cell (now ++ later)) ≡ true }
    ensures comes_back { (now later : History T W)
        → IsLawful W.will_wake W.SURE_CLONE N.may (start_of N.named) (now ++ later)
        → is_closed (cell_after (start_of N.named).cell now) ≡ true
        → All (λ e. comes_out e.call e.reply ≡ goes_in e.call) later }
{}
