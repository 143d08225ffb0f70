//! Pointers to cells of a program's own.
use crate::Host;
use async_cell::{sync, unsync};
use futures::executor::block_on;
use std::sync::Wait;

/// A pointer to a cell of one thread.
#[derive(Drop)]
struct Near<'a>(&'a unsync::AsyncCell<u32>);

impl unsync::CellRef for Near<'_> {
    type Value = u32;

    type Rules = unsync::Unruled;

    fn cell(&self) -> &unsync::AsyncCell<u32> {
        self.0
    }
}

/// A pointer to a cell that threads share.
#[derive(Drop)]
struct Far<'a>(&'a sync::AsyncCell<u32>);

impl sync::CellRef for Far<'_> {
    type Value = u32;

    type Rules = sync::Unruled;

    fn cell(&self) -> &sync::AsyncCell<u32> {
        self.0
    }

    fn leave<R: Wait>(self, _: &R) {}
}

impl sync::TakeRef for Far<'_> {
    ghost takes = { λ _ _. tt };
}

/// Futures over each of these pointers, and over a reference to it.
pub fn all<R: Host>(rt: R) {
    let cell = unsync::AsyncCell::new_with(rt.alloc(), 1u32);
    let _ = block_on(&rt, unsync::Get(Near(&cell)));
    let _ = block_on(&rt, unsync::Take(&Near(&cell)).with());
    let cell = sync::AsyncCell::new_with(rt.alloc(), 1u32);
    let _ = block_on(&rt, sync::Get(Far(&cell)).with(rt));
    let _ = block_on(&rt, sync::Take(&Far(&cell)).with(rt));
}
