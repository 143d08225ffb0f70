//! Laws of every legal history, for any `will_wake`. Each is the contract of a function that does
//! nothing. Histories are legal up to clones here: a get of a full cell may return a clone of the
//! value. The module `exact` states most of them for exact histories, whose values need no `Clone`.
ghost use Rattle.std.specs.Prelude.{◌≡◌, ◌↔◌, ◌<◌, ◌≤◌, ◌-◌, ◌++◌, ◌∷◌, [], List, length, Bool, Some, true, false, not, filter, option_to_list, if◌then◌else◌};
ghost use Rattle.std.specs.List.{list_any};
ghost use Rattle.async_cell_model.specs.declared.entry.Entry.{Entry};
ghost use Rattle.async_cell_model.specs.declared.entry.Kept.{Kept};
ghost use Rattle.async_cell_model.specs.declared.reply.Reply.{Reply};
ghost use Rattle.async_cell_model.specs.Machine.{is_vacant, content, ends_waiting, State, IsSound, pending_waker, DoesUpTo, next, wait_list, skips};
ghost use Rattle.async_cell_model.specs.Legal.{IsExact, copies, IsLegal, IsLegalUpTo, Runs, RunsUpTo, StepsUpTo, is_refused};
ghost use Rattle.async_cell_model.specs.History.{History, cell_after, waiting, room, after, has_fill_or_close, IsCovered};
ghost use Rattle.async_cell_model.specs.Taken.{IsDistinct, IsSubsequence, has_update, put_in, taken_out};

pub mod exact;

/// Wakers wait only if the cell is vacant: open without a value. So the wait list of a full cell
/// and of a closed one is empty.
#[tactic(auto, using(crate::proofs::Whole::waits_only_vacant))]
pub fn only_a_vacant_cell_keeps_waiting<T: Clone, W>()
    ensures { (will_wake : W → W → Bool) (sure_wakers : Bool) (b : State T W) (h : History T W)
        → IsSound will_wake b → IsLegalUpTo will_wake sure_wakers T.is_clone b h
        → is_vacant (cell_after b.cell h) ≡ false → waiting will_wake b h ≡ [] }
{}

/// No waiting poll is forgotten. Until the next fill or close, the waker of each poll that returned
/// `Pending` waits, or some waiting waker would wake the same task.
#[tactic(auto, using(crate::proofs::Whole::stays_covered))]
pub fn a_pending_waker_stays_covered<T: Clone, W>()
    ensures { (will_wake : W → W → Bool) (sure_wakers : Bool)
        (b : State T W) (g : History T W) (e : Entry T W) (rest : History T W) (w : W)
        → IsLegalUpTo will_wake sure_wakers T.is_clone b (g ++ e ∷ rest) → pending_waker e ≡ Some w
        → has_fill_or_close (cell_after b.cell (g ++ e ∷ [])) rest ≡ false
        → IsCovered will_wake (waiting will_wake b (g ++ e ∷ rest)) w }
{}

/// A value is taken once. Consider a history without updates, and the list of all its values: first
/// the value that the cell held at the start, then the values that were passed to the writes. The
/// values that replies move out of the cell are some of the values in this list, in the order of
/// the list, each at most once. So if all values in the list differ, no value is moved out by two
/// replies. A clone that a get returns is not taken out of the cell, and does not count.
#[tactic(auto, using(crate::proofs::Once::given_in_order, crate::proofs::Once::given_once))]
pub fn a_value_is_taken_once<T: Clone, W>()
    ensures in_order { (will_wake : W → W → Bool) (sure_wakers : Bool)
        (b : State T W) (h : History T W)
        → IsLegalUpTo will_wake sure_wakers T.is_clone b h → has_update h ≡ false
        → IsSubsequence (taken_out h) (option_to_list (content b.cell) ++ put_in h) }
    ensures once { (will_wake : W → W → Bool) (sure_wakers : Bool) (b : State T W) (h : History T W)
        → IsLegalUpTo will_wake sure_wakers T.is_clone b h → has_update h ≡ false
        → IsDistinct (option_to_list (content b.cell) ++ put_in h) → IsDistinct (taken_out h) }
{}

/// Only the current state matters. The joined history `g ++ h` ends with the same cell, wait list
/// and room as `h` does when it starts from the state after `g`. If the joined history is legal,
/// then `g` is legal, and `h` is legal from the state after `g`. A legal history from a sound state
/// ends in a sound state.
pub fn a_history_can_begin_anew<T: Clone, W>()
    ensures begins { (will_wake : W → W → Bool) (sure_wakers : Bool)
        (b : State T W) (g : History T W)
        → IsSound will_wake b → IsLegalUpTo will_wake sure_wakers T.is_clone b g
        → IsSound will_wake (after will_wake b g) }
    ensures front { (will_wake : W → W → Bool) (sure_wakers : Bool)
        (b : State T W) (g h : History T W)
        → IsLegalUpTo will_wake sure_wakers T.is_clone b (g ++ h)
        → IsLegalUpTo will_wake sure_wakers T.is_clone b g }
    ensures legal { (will_wake : W → W → Bool) (sure_wakers : Bool)
        (b : State T W) (g h : History T W)
        → IsSound will_wake b → IsLegalUpTo will_wake sure_wakers T.is_clone b (g ++ h)
        → IsLegalUpTo will_wake sure_wakers T.is_clone (after will_wake b g) h }
    ensures cell { (will_wake : W → W → Bool) (b : State T W) (g h : History T W)
        → cell_after b.cell (g ++ h) ≡ cell_after (after will_wake b g).cell h }
    ensures waiting { (will_wake : W → W → Bool) (b : State T W) (g h : History T W)
        → waiting will_wake b (g ++ h) ≡ waiting will_wake (after will_wake b g) h }
    ensures room { (will_wake : W → W → Bool) (b : State T W) (g h : History T W)
        → IsSound will_wake b → room will_wake b (g ++ h) ≡ room will_wake (after will_wake b g) h }
{}

/// If a second history starts in the state where a first one ends, joining the two gives one
/// history. So two runs, one after the other, are one run of the joined calls.
pub fn two_histories_are_one<T: Clone, W>()
    ensures { (will_wake : W → W → Bool) (sure_wakers : Bool)
        (from at to : State T W) (g h : History T W)
        (first second : List (List W))
        → RunsUpTo will_wake sure_wakers T.is_clone from g first at
        → RunsUpTo will_wake sure_wakers T.is_clone at h second to
        → RunsUpTo will_wake sure_wakers T.is_clone from (g ++ h) (first ++ second) to }
{}

/// What one pending poll does to the wait list. The waker of the poll is added last, or skipped.
/// The waker is skipped exactly if some waiting waker would wake the poll's task.
#[tactic(auto, using(crate::proofs::Whole::one_more_entry))]
pub fn one_more_waker_is_last_or_skipped<T: Clone, W>()
    ensures list { (will_wake : W → W → Bool) (l : List W) (w : W)
        → wait_list will_wake l ≡ l
        → wait_list will_wake (l ++ w ∷ []) ≡ (if skips will_wake l w then l else l ++ w ∷ []) }
    ensures poll { (will_wake : W → W → Bool) (sure_wakers : Bool)
        (b : State T W) (h : History T W) (e : Entry T W) (w : W)
        → IsLegalUpTo will_wake sure_wakers T.is_clone b (h ++ e ∷ []) → pending_waker e ≡ Some w
        → waiting will_wake b (h ++ e ∷ [])
        ≡ (if skips will_wake (waiting will_wake b h) w
        then waiting will_wake b h else waiting will_wake b h ++ w ∷ []) }
{}

/// How a wait list begins. The first registered waker waits. The rest of the wait list is the wait
/// list of those later registrations that the first waker would not wake.
#[tactic(auto, using(crate::proofs::OneMoreWaker::keep_first))]
pub fn the_first_waker_skips_all_that_it_would_wake<W>()
    ensures none { (will_wake : W → W → Bool) → wait_list will_wake [] ≡ [] }
    ensures first { (will_wake : W → W → Bool) (w : W) (rest : List W)
        → wait_list will_wake (w ∷ rest)
        ≡ w ∷ wait_list will_wake (filter (λ v. not (will_wake w v)) rest) }
{}

/// If `will_wake` is equality, as for `Named`, then no waker waits twice.
#[tactic(auto, using(crate::proofs::Whole::waits_once))]
pub fn no_waker_waits_twice<T, W>()
    ensures { (will_wake : W → W → Bool) (b : State T W) (h : History T W)
        → ((v w : W) → (will_wake v w ≡ true) ↔ (v ≡ w))
        → IsDistinct (waiting will_wake b h) }
{}

/// How each entry changes the room. A fill or a close leaves no room. An entry that makes the wait
/// list longer uses up the room for one waker, if there is any. Any other entry leaves the room as
/// it was.
#[tactic(auto, using(crate::proofs::Whole::one_more_entry))]
pub fn the_room_goes_by_one<T, W>()
    ensures ended { (will_wake : W → W → Bool) (b : State T W) (h : History T W) (e : Entry T W)
        → IsSound will_wake b
        → ends_waiting (cell_after b.cell h) (next (cell_after b.cell h) e) ≡ true
        → room will_wake b (h ++ e ∷ []) ≡ 0 }
    ensures longer { (will_wake : W → W → Bool) (b : State T W) (h : History T W) (e : Entry T W)
        → IsSound will_wake b
        → ends_waiting (cell_after b.cell h) (next (cell_after b.cell h) e) ≡ false
        → length (waiting will_wake b h) < length (waiting will_wake b (h ++ e ∷ []))
        → room will_wake b (h ++ e ∷ []) ≡ room will_wake b h - 1 }
    ensures as_before { (will_wake : W → W → Bool) (b : State T W) (h : History T W) (e : Entry T W)
        → IsSound will_wake b
        → ends_waiting (cell_after b.cell h) (next (cell_after b.cell h) e) ≡ false
        → length (waiting will_wake b (h ++ e ∷ [])) ≤ length (waiting will_wake b h)
        → room will_wake b (h ++ e ∷ []) ≡ room will_wake b h }
{}

/// A history ends in a sound state, so another history can start from there.
#[tactic(auto, using(crate::proofs::Whole::sound_ends))]
pub fn a_history_ends_in_a_sound_state<T: Clone, W>()
    ensures { (will_wake : W → W → Bool) (sure_wakers : Bool)
        (from to : State T W) (h : History T W) (woken : List (List W))
        → RunsUpTo will_wake sure_wakers T.is_clone from h woken to → IsSound will_wake to }
{}

/// A refused call changes nothing: the cell and the wait list are as before, and it wakes no waker.
pub fn a_refused_call_changes_nothing<T: Clone, W>()
    ensures cell { (will_wake : W → W → Bool) (sure_wakers : Bool)
        (from to : State T W) (e : Entry T W) (woken : List (List W))
        → RunsUpTo will_wake sure_wakers T.is_clone from (e ∷ []) woken to
        → is_refused e.reply ≡ true → to.cell ≡ from.cell }
    ensures waiting { (will_wake : W → W → Bool) (sure_wakers : Bool)
        (from to : State T W) (e : Entry T W) (woken : List (List W))
        → RunsUpTo will_wake sure_wakers T.is_clone from (e ∷ []) woken to
        → is_refused e.reply ≡ true → to.waiting ≡ from.waiting }
    ensures woken { (will_wake : W → W → Bool) (sure_wakers : Bool)
        (from to : State T W) (e : Entry T W) (woken : List (List W))
        → RunsUpTo will_wake sure_wakers T.is_clone from (e ∷ []) woken to
        → is_refused e.reply ≡ true → woken ≡ [] ∷ [] }
{}

/// A fill or a close ends all waiting. It wakes every waiting waker, and after it no waker waits.
/// No other entry wakes a waker.
#[tactic(auto, using(crate::proofs::Whole::one_more_entry))]
pub fn a_fill_or_close_ends_all_waiting<T: Clone, W>()
    ensures nobody_waits { (will_wake : W → W → Bool)
        (b : State T W) (h : History T W) (e : Entry T W)
        → ends_waiting (cell_after b.cell h) (next (cell_after b.cell h) e) ≡ true
        → waiting will_wake b (h ++ e ∷ []) ≡ [] }
    ensures all_are_handed_out { (will_wake : W → W → Bool) (sure_wakers : Bool)
        (from to : State T W) (e : Entry T W) (woken : List (List W))
        → RunsUpTo will_wake sure_wakers T.is_clone from (e ∷ []) woken to
        → ends_waiting from.cell (next from.cell e) ≡ true → woken ≡ from.waiting ∷ [] }
    ensures others_hand_out_none { (will_wake : W → W → Bool) (sure_wakers : Bool)
        (from to : State T W) (e : Entry T W) (woken : List (List W))
        → RunsUpTo will_wake sure_wakers T.is_clone from (e ∷ []) woken to
        → ends_waiting from.cell (next from.cell e) ≡ false → woken ≡ [] ∷ [] }
{}

/// A history that is legal up to clones is exact if the type's clones are exact, or if the history
/// has no get. Each reply is then the model's own. Every exact history is also legal up to clones.
pub fn with_exact_clones_a_history_is_exact<T: Clone, W>()
    ensures exact { (will_wake : W → W → Bool) (sure_wakers : Bool)
        (from to : State T W) (h : History T W) (woken : List (List W))
        → (list_any copies h ≡ true → IsExact T.is_clone)
        → RunsUpTo will_wake sure_wakers T.is_clone from h woken to
        → Runs will_wake sure_wakers from h woken to }
    ensures up_to_clones { (will_wake : W → W → Bool) (sure_wakers : Bool)
        (from to : State T W) (h : History T W) (woken : List (List W))
        → Runs will_wake sure_wakers from h woken to
        → RunsUpTo will_wake sure_wakers T.is_clone from h woken to }
    ensures exact_legal { (will_wake : W → W → Bool) (sure_wakers : Bool)
        (b : State T W) (h : History T W)
        → (list_any copies h ≡ true → IsExact T.is_clone)
        → IsLegalUpTo will_wake sure_wakers T.is_clone b h → IsLegal will_wake sure_wakers b h }
    ensures legal_up_to_clones { (will_wake : W → W → Bool) (sure_wakers : Bool)
        (b : State T W) (h : History T W)
        → IsLegal will_wake sure_wakers b h → IsLegalUpTo will_wake sure_wakers T.is_clone b h }
{}

/// The two definitions of a step agree: a history of one entry is legal exactly if this entry is
/// what the machine does.
pub fn a_step_is_the_machines<T: Clone, W>()
    ensures machine { (will_wake : W → W → Bool) (sure_wakers : Bool) (from to : State T W)
        (call : Kept T W) (answer : Reply T) (woken : List W)
        → StepsUpTo will_wake sure_wakers T.is_clone from call answer woken to
        → DoesUpTo will_wake sure_wakers T.is_clone
        from (record { call = call; reply = answer }) woken to }
    ensures model { (will_wake : W → W → Bool) (sure_wakers : Bool) (from to : State T W)
        (call : Kept T W) (answer : Reply T) (woken : List W)
        → DoesUpTo will_wake sure_wakers T.is_clone
        from (record { call = call; reply = answer }) woken to
        → StepsUpTo will_wake sure_wakers T.is_clone from call answer woken to }
{}
