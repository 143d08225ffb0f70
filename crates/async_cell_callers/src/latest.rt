//! Callers of `async_cell_latest_sync`, under the name of the facade.
ghost use Rattle.std.specs.Prelude.{◌≡◌, ◌%◌, IfOk};

use crate::{Even, Host, half};
use async_cell::Refusal;
use async_cell::latest::{Owner, Ruled};
use futures::StreamExt;
use futures::executor::block_on;
use std::mem;

/// Calls of an owner that take a closure or clone the value.
pub fn of_owner<R: Host>(rt: R) -> Result<(), Refusal> {
    let owner = Owner::new(rt.alloc(), 1u32, rt)?;
    owner.update(half);
    let _ = owner.modify(|value| mem::replace(value, 7));
    let _ = owner.modify_if(|value| *value == 7);
    let _ = owner.peek(half);
    let _ = owner.read();
    Ok(())
}

/// Reads of a follower, its futures, and its stream. Each is ready.
pub fn of_follower<R: Host>(rt: R) -> Result<(), Refusal> {
    let owner = Owner::new(rt.alloc(), 1u32, rt)?;
    let mut follower = owner.follow()?;
    let _ = follower.peek(half);
    let _ = follower.read();
    let _ = follower.read_and_update();
    owner.set(2);
    let _ = block_on(&rt, follower.changed());
    let _ = block_on(&rt, follower.wait_for(|value: &u32| *value == 2));
    let _ = follower.peek_and_update(half);
    drop(owner);
    let mut states = follower.states();
    let _ = block_on(&rt, states.next());
    Ok(())
}

/// Each write of a state whose values are even, and a read.
pub fn of_ruled<R: Host>(rt: R) -> Result<u32, Refusal>
    ensures { IfOk result (λ value. value % 2 ≡ 0) }
{
    let owner = Owner::<u32, R, Ruled<Even>>::ruled(rt.alloc(), 42, rt)?;
    owner.set(6);
    let _ = owner.replace(8);
    owner.update(|value| value / 2 * 2);
    let _ = owner.modify(|value| *value = 4);
    let _ = owner.modify_if(|value| {
        *value = 2;
        true
    });
    owner.follow()?.read()
}
