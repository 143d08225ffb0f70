//! Callers of `async_cell_unsync`, under the names of the facade.
ghost use Rattle.std.specs.Prelude.{◌≡◌, ◌%◌, IfOk, IfSome};

use crate::cells::{content, ruled, waits};
use crate::{Even, Host, half};
use async_cell::Refusal;
use async_cell::unsync::{AsyncCell, Owner, Ruled, reply_slot};
use futures::StreamExt;
use futures::executor::block_on;

fn waits<R: Host>(rt: R) -> Result<(), Refusal> {
    content!(AsyncCell::new_with(rt.alloc(), 1));
    waits!(rt)
}

fn ruled<R: Host>(rt: R) -> Result<Option<u32>, Refusal>
    ensures rule { IfOk result (λ taken. IfSome taken (λ value. value % 2 ≡ 0)) }
{
    ruled!(rt, Owner::<u32, Ruled<Even>>::ruled_with(rt.alloc(), 2))
}

/// The futures of a `Shared`, which are polled as they are.
fn shared<R: Host>(rt: R) -> Result<(), Refusal> {
    let owner = AsyncCell::new_with(rt.alloc(), 1u32).into_shared_or_drop()?;
    let _ = block_on(&rt, owner.get_shared()?);
    let _ = block_on(&rt, owner.get_weak());
    let _ = block_on(&rt, owner.take_weak());
    Ok(())
}

/// Makes each of them.
pub fn all<R: Host>(rt: R) -> Result<(), Refusal> {
    waits(rt)?;
    let _ = ruled(rt)?;
    shared(rt)
}
