//! Laws of a driver's logs. Each is the contract of a function that does nothing.
ghost use Rattle.std.specs.Prelude.{◌≡◌, [], true, ◌++◌, List, Option, map, length};
ghost use Rattle.std.specs.List.{list_any};
ghost use Rattle.async_cell_wakers.specs.declared.named.Named.{Named as Name};
ghost use Rattle.async_cell_model.specs.{Legal.Runs, Legal.copies, Legal.wakes_after};
ghost use Rattle.async_cell_core.specs.Polled.{IsExact};
ghost use Rattle.async_cell_driver.specs.declared.{event.Event.Event, event.Told.Told};
ghost use Rattle.async_cell_driver.specs.{DriverState.DriverState, Drives.Drives, Log.Log, Log.log_of, Log.with_edit, History.history, History.handed_out};
ghost use Rattle.async_cell_wakers.specs.Named.{same_name};

/// If a second log starts in the state where a first one ends, the two joined are one log. So a
/// promise that is made for one call is also true for any number of calls, one after the other. A
/// log has its last line first, so the joined log begins with the later of the two.
pub fn two_logs_are_one<T: Clone>()
    ensures { (from at to : DriverState T) (earlier later : Log T)
        → Drives T.is_clone from earlier at → Drives T.is_clone at later to
        → Drives T.is_clone from (later ++ earlier) to }
{}

/// Two lists of events that happen one after the other act like the joined list. The outcomes and
/// the woken names are joined in the same way. The log of the joined list is the second log
/// followed by the first. So two calls of `apply`, one after the other, promise the same as one
/// call with the joined list.
#[tactic(auto, using(crate::proofs::Logs::joined_lists))]
pub fn two_lists_are_one<T, E>()
    ensures joined { (events more : List (Event T (Option T → Option T)))
        (told others : List (Told T)) (handed later : List (List Name))
        → length told ≡ length events → length handed ≡ length events
        → log_of (events ++ more) (told ++ others) (handed ++ later)
        ≡ log_of more others later ++ log_of events told handed }
    ensures with_edits { (edit : E → Option T → Option T) (events more : List (Event T E))
        (told others : List (Told T)) (handed later : List (List Name))
        → length told ≡ length events → length handed ≡ length events
        → log_of (map (with_edit edit) (events ++ more)) (told ++ others) (handed ++ later)
        ≡ log_of (map (with_edit edit) more) others later
        ++ log_of (map (with_edit edit) events) told handed }
{}

/// In a log, the names in the line of a call on the core are the names of the wakers that this call
/// wakes. The line of a fill or a close has the name of every task whose waker is registered then,
/// in order. The lines of other calls have no names.
pub fn a_log_names_those_handed_out<T: Clone>()
    ensures { (from to : DriverState T) (log : Log T)
        → Drives T.is_clone from log to
        → handed_out from log ≡ wakes_after same_name from.core [] (history from log) }
{}

/// If a clone of a value equals its source, the outcomes in a log are exactly the replies of the
/// cell's model. If the log has no poll of a `Get` task, the outcomes are exactly these replies for
/// every type, even if clones differ from their sources.
pub fn a_log_is_exact_where_clones_are<T: Clone>()
    ensures { (from to : DriverState T) (log : Log T)
        → (list_any copies (history from log) ≡ true → IsExact T.is_clone)
        → Drives T.is_clone from log to
        → Runs same_name true from.core (history from log) (handed_out from log) to.core }
{}
