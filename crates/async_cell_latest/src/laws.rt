//! Laws of every legal history, for any `will_wake`. Each is the contract of a function that does
//! nothing.
ghost use Rattle.std.specs.Prelude.{◌≡◌, ◌≤◌, ◌⊎◌, ◌++◌, ◌∷◌, [], ℕ, List, Bool, Some, true, false};
ghost use Rattle.async_cell_model.specs.Taken.{IsSubsequence};
ghost use Rattle.async_cell_model.specs.History.{IsCovered};
ghost use Rattle.async_cell_latest.specs.State.{State, IsSound, Stays, is_closed};
ghost use Rattle.async_cell_latest.specs.Step.{Write, PollChanged, Shown, ends_waiting, wakes};
ghost use Rattle.async_cell_latest.specs.History.{Entry, History, IsLegal, Runs, after, is_memory};
ghost use Rattle.async_cell_latest.specs.Follower.{IsFollower, IsRising, is_old, seen_after, has_write, has_end, pending_waker};

/// The versions of a follower rise: each poll that shows a version shows a larger version than the
/// follower has seen. Here a follower is any selection of the history's reads and polls, in their
/// order. The argument of each poll must be the version that the follower was shown last. At the
/// start the follower must have seen no version above the state's.
#[tactic(auto, using(crate::proofs::Versions::rising))]
pub fn the_versions_of_a_follower_rise<T, W>()
    ensures { (will_wake : W → W → Bool) (sure_wakers : Bool)
        (b : State T W) (h mine : History T W) (seen : ℕ)
        → IsLegal will_wake sure_wakers b h → IsSubsequence mine h
        → IsFollower seen mine → seen ≤ b.version → IsRising seen mine }
{}

/// A poll after the last write shows the version and the value of the last state, unless the poll's
/// follower has seen this version. The last value is the one that the last write wrote, even after
/// the state is closed.
#[tactic(auto, using(crate::proofs::Versions::last_state))]
pub fn a_poll_shows_the_last_state<T, W>()
    ensures written { (will_wake : W → W → Bool) (sure_wakers : Bool)
        (b : State T W) (g : History T W) (e : Entry T W) (rest : History T W) (x : T)
        → IsLegal will_wake sure_wakers b (g ++ e ∷ rest)
        → e.call ≡ Write x → is_old e.reply ≡ true → has_write rest ≡ false
        → (after will_wake b (g ++ e ∷ rest)).value ≡ x }
    ensures shown { (will_wake : W → W → Bool) (sure_wakers : Bool)
        (b : State T W) (g : History T W) (e : Entry T W) (rest : History T W)
        (seen : ℕ) (w : W) → IsLegal will_wake sure_wakers b (g ++ e ∷ rest)
        → e.call ≡ PollChanged seen w → is_memory e.reply ≡ false → has_write rest ≡ false
        → (e.reply ≡ Shown (after will_wake b (g ++ e ∷ rest)).version
        (after will_wake b (g ++ e ∷ rest)).value)
        ⊎ (seen ≡ (after will_wake b (g ++ e ∷ rest)).version) }
    ensures seen { (will_wake : W → W → Bool) (sure_wakers : Bool)
        (b : State T W) (g : History T W) (e : Entry T W) (rest mine : History T W)
        (start : ℕ) → IsLegal will_wake sure_wakers b (g ++ e ∷ rest)
        → IsFollower start (mine ++ e ∷ []) → is_memory e.reply ≡ false → has_write rest ≡ false
        → seen_after start (mine ++ e ∷ []) ≡ (after will_wake b (g ++ e ∷ rest)).version }
{}

/// The last state stays. Once a state is closed, it keeps its value and its version, and stays
/// closed, whatever calls come.
#[tactic(auto, using(crate::proofs::Versions::closed_stays))]
pub fn the_last_state_stays<T, W>()
    ensures { (will_wake : W → W → Bool) (b : State T W) (h : History T W)
        → is_closed b ≡ true → Stays b (after will_wake b h) }
{}

/// A version belongs to one value: any two replies that show the same version show the same value.
#[tactic(auto, using(crate::proofs::Versions::legal_rest, crate::proofs::Versions::shown_own, crate::proofs::Versions::after_same))]
pub fn a_version_names_one_value<T, W>()
    ensures { (will_wake : W → W → Bool) (sure_wakers : Bool)
        (b : State T W) (g : History T W) (e : Entry T W) (m : History T W) (f : Entry T W)
        (rest : History T W) (version : ℕ) (x y : T)
        → IsLegal will_wake sure_wakers b (g ++ e ∷ (m ++ f ∷ rest))
        → e.reply ≡ Shown version x → f.reply ≡ Shown version y → x ≡ y }
{}

/// No waiting follower is forgotten. After a poll returned `Pending`, and until the next write or
/// the close, the waker of that poll waits, or some waiting waker would wake the same task. That
/// write or close wakes every waiting waker, and then no waker waits. So each waiting waker is
/// woken once.
#[tactic(auto, using(crate::proofs::CoveredWakers::stays_covered, crate::proofs::Versions::legal_rest, crate::proofs::Versions::after_append))]
pub fn no_waiting_follower_is_forgotten<T, W>()
    ensures covered { (will_wake : W → W → Bool) (sure_wakers : Bool)
        (b : State T W) (g : History T W) (e : Entry T W) (rest : History T W) (w : W)
        → IsLegal will_wake sure_wakers b (g ++ e ∷ rest) → pending_waker e.call e.reply ≡ Some w
        → has_end will_wake (after will_wake b (g ++ e ∷ [])) rest ≡ false
        → IsCovered will_wake (after will_wake b (g ++ e ∷ rest)).waiting w }
    ensures woken { (will_wake : W → W → Bool) (sure_wakers : Bool)
        (b : State T W) (g : History T W) (e : Entry T W) (rest : History T W) (last : Entry T W)
        (w : W)
        → IsLegal will_wake sure_wakers b (g ++ e ∷ rest) → pending_waker e.call e.reply ≡ Some w
        → has_end will_wake (after will_wake b (g ++ e ∷ [])) rest ≡ false
        → ends_waiting (after will_wake b (g ++ e ∷ rest)) last.call ≡ true
        → IsCovered will_wake (wakes (after will_wake b (g ++ e ∷ rest)) last.call) w }
    ensures nobody_waits { (will_wake : W → W → Bool) (sure_wakers : Bool)
        (b : State T W) (g : History T W) (last : Entry T W)
        → IsLegal will_wake sure_wakers b (g ++ last ∷ [])
        → ends_waiting (after will_wake b g) last.call ≡ true
        → (after will_wake b (g ++ last ∷ [])).waiting ≡ [] }
{}

/// If a second history starts in the state where a first one ends, joining the two gives one
/// history. So the calls of a `Latest`, one after the other, are one legal history.
#[tactic(auto, using(crate::proofs::JoinedHistories::joined_histories))]
pub fn two_histories_are_one<T, W>()
    ensures { (will_wake : W → W → Bool) (sure_wakers : Bool)
        (from at to : State T W) (g h : History T W)
        (first second : List (List W))
        → Runs will_wake sure_wakers from g first at
        → Runs will_wake sure_wakers at h second to
        → Runs will_wake sure_wakers from (g ++ h) (first ++ second) to }
{}

/// A history ends in a sound state, so another history can start from there.
#[tactic(auto, using(crate::proofs::JoinedHistories::after_sound))]
pub fn a_history_ends_in_a_sound_state<T, W>()
    ensures after { (will_wake : W → W → Bool) (b : State T W) (h : History T W)
        → IsSound will_wake b → IsSound will_wake (after will_wake b h) }
    ensures runs { (will_wake : W → W → Bool) (sure_wakers : Bool)
        (from to : State T W) (h : History T W) (woken : List (List W))
        → Runs will_wake sure_wakers from h woken to → IsSound will_wake to }
{}
