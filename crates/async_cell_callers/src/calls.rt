//! Calls that require something, or are given a closure, an edit or a waker of a program's own, and
//! that no other caller here makes.
ghost use Rattle.std.specs.Prelude.{true};
ghost use Rattle.std.proofs.Common.{rules};

use crate::put::Put;
use async_cell_core::{Core, Named, Wakes};
use async_cell_driver::{Driver, Event};
use async_cell_latest::Latest;
use std::alloc::Global;
use std::mem;

/// A waker that would wake every other.
#[derive(Clone, Copy, Debug)]
struct Bell;

impl Wakes for Bell {
    ghost will_wake = { λ a b. true };

    ghost SURE_CLONE = { true };

    const SURE_CLONE: bool = true;

    fn will_wake(&self, _: &Self) -> bool {
        true
    }

    fn wake(self) {}

    ghost clone_is_source = { Prim.search rules };

    ghost clone_is_sure = { Prim.search rules };
}

/// Each closure of a `Core`, a waker that none there would wake, and one of the program's own.
pub fn of_core(alloc: Global) {
    let mut core: Core<u64, Named> = Core::owned_by(alloc, None, 2);
    let _ = core.add_unique(&Named(1));
    let _ = core.update(|content| content.map(|value| value / 2));
    let _ = core.update_some(|value| value / 2);
    let _ = core.peek(|value| *value / 2);
    let mut bells: Core<u64, Bell> = Core::new(alloc);
    let _ = bells.poll_take(&Bell);
}

/// Each closure of a `Latest`.
pub fn of_latest(alloc: Global) {
    let mut latest: Latest<u64, Named> = Latest::from_parts(alloc, 3, 7, 1);
    let _ = latest.update(|value| value / 2);
    let _ = latest.modify(|value| mem::replace(value, 7));
    let _ = latest.modify_if(|value| *value == 7);
    let _ = latest.get();
}

/// An edit of a driver's cell, and a list of such events, which comes back if it is refused.
pub fn of_driver(alloc: Global, edits: Vec<Event<u64, Put>>) -> Option<Vec<Event<u64, Put>>> {
    let mut driver: Driver<u64> = Driver::new(alloc, None);
    let _ = driver.update(Put(4));
    driver.apply(edits).err()
}
