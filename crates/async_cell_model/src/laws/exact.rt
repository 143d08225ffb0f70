//! The laws of exact histories, in which each reply is the model's own: values need no `Clone`.
//! Each law here has the same name as a law in `laws`, and says the same about exact histories.
ghost use Rattle.std.specs.Prelude.{◌≡◌, ◌<◌, ◌++◌, ◌∷◌, [], List, Bool, Some, true, false, option_to_list, if◌then◌else◌};
ghost use Rattle.async_cell_model.specs.declared.entry.Entry.{Entry};
ghost use Rattle.async_cell_model.specs.declared.entry.Kept.{Kept};
ghost use Rattle.async_cell_model.specs.declared.reply.Reply.{Reply};
ghost use Rattle.async_cell_model.specs.Machine.{is_vacant, content, ends_waiting, State, IsSound, pending_waker, Does, next, wait_list, skips};
ghost use Rattle.async_cell_model.specs.History.{History, cell_after, waiting, room, after, has_fill_or_close, IsCovered};
ghost use Rattle.async_cell_model.specs.Legal.{IsLegal, Runs, Steps, is_refused};
ghost use Rattle.async_cell_model.specs.Taken.{IsDistinct, IsSubsequence, has_update, put_in, taken_out};

/// As `laws::only_a_vacant_cell_keeps_waiting`.
#[tactic(auto, using(crate::proofs::Exact::legal_of_exact, crate::proofs::Whole::waits_only_vacant))]
pub fn only_a_vacant_cell_keeps_waiting<T, W>()
    ensures { (will_wake : W → W → Bool) (sure_wakers : Bool) (b : State T W) (h : History T W)
        → IsSound will_wake b → IsLegal will_wake sure_wakers b h
        → is_vacant (cell_after b.cell h) ≡ false → waiting will_wake b h ≡ [] }
{}

/// As `laws::a_pending_waker_stays_covered`.
#[tactic(auto, using(crate::proofs::Exact::legal_of_exact, crate::proofs::Whole::stays_covered))]
pub fn a_pending_waker_stays_covered<T, W>()
    ensures { (will_wake : W → W → Bool) (sure_wakers : Bool)
        (b : State T W) (g : History T W) (e : Entry T W) (rest : History T W) (w : W)
        → IsLegal will_wake sure_wakers b (g ++ e ∷ rest) → pending_waker e ≡ Some w
        → has_fill_or_close (cell_after b.cell (g ++ e ∷ [])) rest ≡ false
        → IsCovered will_wake (waiting will_wake b (g ++ e ∷ rest)) w }
{}

/// As `laws::a_value_is_taken_once`.
#[tactic(auto, using(crate::proofs::Exact::legal_of_exact, crate::proofs::Once::given_in_order, crate::proofs::Once::given_once))]
pub fn a_value_is_taken_once<T, W>()
    ensures in_order { (will_wake : W → W → Bool) (sure_wakers : Bool)
        (b : State T W) (h : History T W)
        → IsLegal will_wake sure_wakers b h → has_update h ≡ false
        → IsSubsequence (taken_out h) (option_to_list (content b.cell) ++ put_in h) }
    ensures once { (will_wake : W → W → Bool) (sure_wakers : Bool) (b : State T W) (h : History T W)
        → IsLegal will_wake sure_wakers b h → has_update h ≡ false
        → IsDistinct (option_to_list (content b.cell) ++ put_in h) → IsDistinct (taken_out h) }
{}

/// As `laws::a_history_can_begin_anew`.
pub fn a_history_can_begin_anew<T, W>()
    ensures begins { (will_wake : W → W → Bool) (sure_wakers : Bool)
        (b : State T W) (g : History T W)
        → IsSound will_wake b → IsLegal will_wake sure_wakers b g
        → IsSound will_wake (after will_wake b g) }
    ensures front { (will_wake : W → W → Bool) (sure_wakers : Bool)
        (b : State T W) (g h : History T W)
        → IsLegal will_wake sure_wakers b (g ++ h) → IsLegal will_wake sure_wakers b g }
    ensures legal { (will_wake : W → W → Bool) (sure_wakers : Bool)
        (b : State T W) (g h : History T W)
        → IsSound will_wake b → IsLegal will_wake sure_wakers b (g ++ h)
        → IsLegal will_wake sure_wakers (after will_wake b g) h }
    ensures cell { (will_wake : W → W → Bool) (b : State T W) (g h : History T W)
        → cell_after b.cell (g ++ h) ≡ cell_after (after will_wake b g).cell h }
    ensures waiting { (will_wake : W → W → Bool) (b : State T W) (g h : History T W)
        → waiting will_wake b (g ++ h) ≡ waiting will_wake (after will_wake b g) h }
    ensures room { (will_wake : W → W → Bool) (b : State T W) (g h : History T W)
        → IsSound will_wake b
        → room will_wake b (g ++ h) ≡ room will_wake (after will_wake b g) h }
{}

/// As `laws::two_histories_are_one`.
pub fn two_histories_are_one<T, W>()
    ensures { (will_wake : W → W → Bool) (sure_wakers : Bool)
        (from at to : State T W) (g h : History T W) (first second : List (List W))
        → Runs will_wake sure_wakers from g first at → Runs will_wake sure_wakers at h second to
        → Runs will_wake sure_wakers from (g ++ h) (first ++ second) to }
{}

/// As `laws::one_more_waker_is_last_or_skipped`.
#[tactic(auto, using(crate::proofs::Exact::legal_of_exact, crate::proofs::Whole::one_more_entry))]
pub fn one_more_waker_is_last_or_skipped<T, W>()
    ensures list { (will_wake : W → W → Bool) (l : List W) (w : W)
        → wait_list will_wake l ≡ l
        → wait_list will_wake (l ++ w ∷ []) ≡ (if skips will_wake l w then l else l ++ w ∷ []) }
    ensures poll { (will_wake : W → W → Bool) (sure_wakers : Bool)
        (b : State T W) (h : History T W) (e : Entry T W) (w : W)
        → IsLegal will_wake sure_wakers b (h ++ e ∷ []) → pending_waker e ≡ Some w
        → waiting will_wake b (h ++ e ∷ [])
        ≡ (if skips will_wake (waiting will_wake b h) w
        then waiting will_wake b h else waiting will_wake b h ++ w ∷ []) }
{}

/// A history ends in a sound state, so another history can start from there.
#[tactic(auto, using(crate::proofs::Exact::legal_of_exact, crate::proofs::Whole::sound_ends))]
pub fn a_history_ends_in_a_sound_state<T, W>()
    ensures { (will_wake : W → W → Bool) (sure_wakers : Bool)
        (from to : State T W) (h : History T W) (woken : List (List W))
        → Runs will_wake sure_wakers from h woken to → IsSound will_wake to }
{}

/// A refused call changes nothing: the cell and the wait list are as before, and it wakes no waker.
pub fn a_refused_call_changes_nothing<T, W>()
    ensures cell { (will_wake : W → W → Bool) (sure_wakers : Bool)
        (from to : State T W) (e : Entry T W) (woken : List (List W))
        → Runs will_wake sure_wakers from (e ∷ []) woken to → is_refused e.reply ≡ true
        → to.cell ≡ from.cell }
    ensures waiting { (will_wake : W → W → Bool) (sure_wakers : Bool)
        (from to : State T W) (e : Entry T W) (woken : List (List W))
        → Runs will_wake sure_wakers from (e ∷ []) woken to → is_refused e.reply ≡ true
        → to.waiting ≡ from.waiting }
    ensures woken { (will_wake : W → W → Bool) (sure_wakers : Bool)
        (from to : State T W) (e : Entry T W) (woken : List (List W))
        → Runs will_wake sure_wakers from (e ∷ []) woken to → is_refused e.reply ≡ true
        → woken ≡ [] ∷ [] }
{}

/// As `laws::a_fill_or_close_ends_all_waiting`.
#[tactic(auto, using(crate::proofs::Whole::one_more_entry))]
pub fn a_fill_or_close_ends_all_waiting<T, W>()
    ensures nobody_waits { (will_wake : W → W → Bool) (b : State T W) (h : History T W)
        (e : Entry T W)
        → ends_waiting (cell_after b.cell h) (next (cell_after b.cell h) e) ≡ true
        → waiting will_wake b (h ++ e ∷ []) ≡ [] }
    ensures all_are_handed_out { (will_wake : W → W → Bool) (sure_wakers : Bool)
        (from to : State T W) (e : Entry T W) (woken : List (List W))
        → Runs will_wake sure_wakers from (e ∷ []) woken to
        → ends_waiting from.cell (next from.cell e) ≡ true
        → woken ≡ from.waiting ∷ [] }
    ensures others_hand_out_none { (will_wake : W → W → Bool) (sure_wakers : Bool)
        (from to : State T W) (e : Entry T W) (woken : List (List W))
        → Runs will_wake sure_wakers from (e ∷ []) woken to
        → ends_waiting from.cell (next from.cell e) ≡ false
        → woken ≡ [] ∷ [] }
{}

/// As `laws::a_step_is_the_machines`.
pub fn a_step_is_the_machines<T, W>()
    ensures machine { (will_wake : W → W → Bool) (sure_wakers : Bool) (from to : State T W)
        (call : Kept T W) (answer : Reply T) (woken : List W)
        → Steps will_wake sure_wakers from call answer woken to
        → Does will_wake sure_wakers from (record { call = call; reply = answer }) woken to }
    ensures model { (will_wake : W → W → Bool) (sure_wakers : Bool) (from to : State T W)
        (call : Kept T W) (answer : Reply T) (woken : List W)
        → Does will_wake sure_wakers from (record { call = call; reply = answer }) woken to
        → Steps will_wake sure_wakers from call answer woken to }
{}
