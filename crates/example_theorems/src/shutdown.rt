//! A shutdown. One thread says that all is over. In the history that wakes the waker of each poll
//! that waits to hear it, or one that would wake it.
ghost use Rattle.std.specs.Prelude.{◌≡◌, ⊤, Some, IfSome, OnOk};
ghost use Rattle.async_cell_model.specs.Machine.{content};
ghost use Rattle.async_cell_model.specs.History.{IsCovered};
ghost use Rattle.async_cell_history.specs.History.{IsLinearized, StillWaits, start_of};
ghost use Rattle.async_cell_sync.specs.declared.TaskWaker.{TaskWaker as Waker};

use crate::Host;
use async_cell_model::Reply;
use async_cell_sync::{Blank, Kept, Owner, Protocol, Refusal, TaskWaker, Wakes, Witness, laws};
use futures::executor::block_on;
use std::io;
use std::marker::Brand;
use std::thread::join;

/// One thread stops the server of the other, which waits until it is told to stop.
pub fn run<R: Host>(rt: R) -> Result<(Result<(), ()>, io::Result<()>), Refusal> {
    let over = Blank::new(rt.alloc(), None);
    run_named::<Brand, R>(rt, over)
}

/// Does so on the cell that `N` names.
fn run_named<N: Protocol<(), TaskWaker> + Send + Sync, R: Host>(
    rt: R,
    over: Blank<(), TaskWaker>,
) -> Result<(Result<(), ()>, io::Result<()>), Refusal>
    requires named { N.named ≡ Some over }
    requires rule { IfSome (content over.start.cell) N.holds }
    requires may { N.may (Kept.Set tt) }
{
    let (owner, mut seen) = Owner::<(), R, N>::witnessed(rt.alloc(), over, rt)?;
    let server = owner.another()?;
    Ok(join(
        &rt,
        move || -> Result<(), ()>
            requires { N.may (Kept.Set tt) }
        { stop(&owner, &mut seen) },
        move || -> io::Result<()> { Ok(block_on(&rt, server.get())??) },
    ))
}

/// Says that all is over. It wakes the waker of each poll that waits, or one that would wake it.
fn stop<N: Protocol<(), TaskWaker>, R: Host>(
    owner: &Owner<(), R, N>,
    seen: &mut Witness<(), TaskWaker, N>,
) -> Result<(), ()>
    requires may { N.may (Kept.Set tt) }
    ensures wakes { OnOk result ((told : IsLinearized ⟦<TaskWaker as Wakes>⟧ N.named
        seen.old.calls (Kept.Set tt) Reply.Done seen.new.calls)
        × ((w : Waker) → StillWaits (start_of N.named).cell w told.before
        → IsCovered ⟦<TaskWaker as Wakes>⟧.will_wake told.woken w)) }
{
    owner.set_as(seen, ())?;
    seen.lawful();
    laws::a_set_wakes_who_waits::<(), TaskWaker, N>();
    Ok(())
}
