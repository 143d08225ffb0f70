//! A poll of a cell with a history: it is not forgotten.
ghost use Rattle.std.specs.Prelude.{◌≡◌, ℕ, Some, IfSome, IsTrue};
ghost use Rattle.async_cell_model.specs.Machine.{content};
ghost use Rattle.async_cell_model.specs.declared.entry.Kept.{Kept as Called};
ghost use Rattle.async_cell_model.specs.declared.reply.Reply.TheVariants.{Done, Pending};
ghost use Rattle.async_cell_history.specs.History.{IsLinearized};
ghost use Rattle.async_cell_callers.specs.Waits.{IsNotForgotten};

use crate::Host;
use async_cell_core::Named;
use async_cell_model::Kept;
use async_cell_sync::ops::{Anyone, Poll, PollTake, Set};
use async_cell_sync::{Blank, LockedCore, Protocol, Wakes, Witness, laws};
use std::marker::Brand;
use std::sync::Wait;

/// Polls a cell. Returns whether the poll has to wait: the witness has then seen that.
fn waits<N: Protocol<u64, W>, W: Wakes, R: Wait>(
    cell: &LockedCore<u64, W, N>,
    seen: &mut Witness<u64, W, N>,
    waker: &W,
    rt: &R,
) -> bool
    requires may { N.may (Kept.PollTake waker.now) }
    ensures linearized { IsTrue result → IsLinearized W.Wakes N.named seen.old.calls
        (Kept.PollTake waker.now) Pending seen.new.calls }
{
    match cell.make(PollTake(waker), &Anyone, seen, rt) {
        Ok(Poll::Pending) => true,
        _ => false,
    }
}

/// Sets 1. Returns whether the cell was open.
fn sets<N: Protocol<u64, W>, W: Wakes, R: Wait>(
    cell: &LockedCore<u64, W, N>,
    seen: &mut Witness<u64, W, N>,
    rt: &R,
) -> bool
    requires may { N.may (Kept.Set 1) }
    ensures linearized { IsTrue result → IsLinearized W.Wakes N.named seen.old.calls
        (Kept.Set 1) Done seen.new.calls }
{
    match cell.make(Set(1), &Anyone, seen, rt) {
        Ok(()) => true,
        Err(_) => false,
    }
}

/// Polls a cell, which other threads may call too, and then sets 1. Returns whether the poll had to
/// wait, and whether the cell was open. If both, the `set` woke its waker, or one that would wake
/// it, unless another call filled or closed the cell in between.
fn poll_then_set<N: Protocol<u64, W>, W: Wakes, R: Wait>(
    cell: &LockedCore<u64, W, N>,
    seen: &mut Witness<u64, W, N>,
    waker: &W,
    rt: &R,
) -> (bool, bool)
    requires polls { N.may (Kept.PollTake waker.now) }
    requires sets { N.may (Kept.Set 1) }
    ensures woken { IsTrue result.0 → IsTrue result.1
        → IsNotForgotten W.Wakes N.named waker.now (Kept.Set 1) Done seen.new.calls }
{
    let has_waited = waits(cell, seen, waker, rt);
    let is_set = sets(cell, seen, rt);
    seen.lawful();
    laws::a_set_wakes_who_waits::<u64, W, N>();
    (has_waited, is_set)
}

/// Does so on the cell that `N` names.
fn all_named<N: Protocol<u64, Named>, R: Host>(rt: R, blank: Blank<u64, Named>)
    requires named { N.named ≡ Some blank }
    requires rule { IfSome (content blank.start.cell) N.holds }
    requires may { (call : Called ℕ Named) → N.may call }
{
    let (cell, mut seen, permit) = LockedCore::<u64, Named, N>::of_blank(blank);
    let _ = poll_then_set(&cell, &mut seen, &Named(1), &rt);
    let _ = cell.end_counted(permit, &rt);
}

/// Does so, on a cell of which any call may be made.
pub fn all<R: Host>(rt: R) {
    all_named::<Brand, R>(rt, Blank::new(rt.alloc(), None));
}
