//! Callers of `async_cell_sync`, under the names of the facade but for a `LockedCore`.
ghost use Rattle.std.specs.Prelude.{◌≡◌, ◌%◌, IfOk, IfSome};

use crate::cells::{content, ruled, waits};
use crate::{Even, Host, half};
use async_cell::Refusal;
use async_cell::sync::{AsyncCell, Owner, Ruled, reply_slot};
use async_cell_core::{Core, Named};
use async_cell_sync::LockedCore;
use futures::StreamExt;
use futures::executor::block_on;
use futures::test::MockTask;

fn contents<R: Host>(rt: R) -> Result<(), Refusal> {
    content!(AsyncCell::new_with(rt.alloc(), 1), &rt);
    content!(Owner::new_with(rt.alloc(), 1, rt)?);
    let core: Core<u32, Named> = Core::new_with(rt.alloc(), 1);
    let core = LockedCore::new(core);
    let _ = core.poll_get(&Named(1), &rt);
    let _ = core.poll_take(&Named(1), &rt);
    let _ = core.take_inner(&rt);
    let _ = core.end_owner(&rt);
    content!(core, &rt);
    Ok(())
}

fn waits<R: Host>(rt: R) -> Result<(), Refusal> {
    waits!(rt, rt)
}

fn ruled<R: Host>(rt: R) -> Result<Option<u32>, Refusal>
    ensures rule { IfOk result (λ taken. IfSome taken (λ value. value % 2 ≡ 0)) }
{
    ruled!(
        rt,
        Owner::<u32, R, Ruled<Even>>::ruled_with(rt.alloc(), 2, rt),
        &rt
    )
}

/// Polls by a shared reference.
fn polls<R: Host>(rt: R) -> anyhow::Result<()> {
    let (task, cell) = (MockTask::new(&rt)?, AsyncCell::new_with(rt.alloc(), 1u32));
    let _ = task.enter(|cx| cell.get().poll_shared(cx, &rt));
    let _ = task.enter(|cx| cell.take().poll_shared(cx, &rt));
    let owner = cell.into_shared_or_drop()?;
    let weak = owner.get_weak();
    owner.end(&rt);
    let _ = task.enter(|cx| weak.poll_shared(cx, &rt));
    Ok(())
}

/// Makes each of them.
pub fn all<R: Host>(rt: R) -> anyhow::Result<()> {
    contents(rt)?;
    waits(rt)?;
    let _ = ruled(rt)?;
    polls(rt)
}
