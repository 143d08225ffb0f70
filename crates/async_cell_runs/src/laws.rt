//! Laws of lists of calls. Each is the contract of a function that does nothing.
ghost use Rattle.std.specs.Prelude.{◌≡◌, ◌++◌, List, length, Bool, Option};
ghost use Rattle.async_cell_model.specs.declared.reply.Reply.{Reply};
ghost use Rattle.async_cell_model.specs.{Machine.State, Legal.{Runs, RunsUpTo}};
ghost use Rattle.async_cell_runs.specs.declared.call.Call.{Call};
ghost use Rattle.async_cell_runs.specs.Kept.{history_of};

/// If a second run starts in the state where a first one ends, the two are one run of the joined
/// calls. It has the replies and the woken wakers of both. The function `edit` maps an edit and an
/// old content to the new content. The function `edit_some` maps an edit and an old value to the
/// new value.
pub fn two_runs_are_one<T: Clone, W, E>()
    ensures { (will_wake : W → W → Bool) (sure_wakers : Bool)
        (edit : E → Option T → Option T) (edit_some : E → T → T)
        (from at to : State T W) (calls more : List (Call T W E))
        (replies others : List (Reply T)) (first second : List (List W))
        → length replies ≡ length calls
        → RunsUpTo will_wake sure_wakers T.is_clone from
        (history_of edit edit_some from.cell calls replies) first at
        → RunsUpTo will_wake sure_wakers T.is_clone at
        (history_of edit edit_some at.cell more others) second to
        → RunsUpTo will_wake sure_wakers T.is_clone from
        (history_of edit edit_some from.cell (calls ++ more) (replies ++ others))
        (first ++ second) to }
{}

/// As `two_runs_are_one`, but for exact runs, in which each reply is the model's own. Values then
/// need no `Clone`.
pub fn two_exact_runs_are_one<T, W, E>()
    ensures { (will_wake : W → W → Bool) (sure_wakers : Bool)
        (edit : E → Option T → Option T) (edit_some : E → T → T)
        (from at to : State T W) (calls more : List (Call T W E))
        (replies others : List (Reply T)) (first second : List (List W))
        → length replies ≡ length calls
        → Runs will_wake sure_wakers from
        (history_of edit edit_some from.cell calls replies) first at
        → Runs will_wake sure_wakers at
        (history_of edit edit_some at.cell more others) second to
        → Runs will_wake sure_wakers from
        (history_of edit edit_some from.cell (calls ++ more) (replies ++ others))
        (first ++ second) to }
{}
