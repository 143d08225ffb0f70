ghost use Rattle.std.specs.Prelude.{◌≡◌, Some, None, false};
ghost use Rattle.std.proofs.Common.{rules};
ghost use Rattle.futures.specs.Task.{Hears, IsArmed, Keeps};
ghost use Rattle.async_cell_wakers.specs.Place.{IsOfTask};

use crate::wakes::Wakes;
use futures::task::{Context, Source, Waker};
use std::alloc::AllocError;
use std::cell::Cell;
use std::marker::Model;

/// The link of a place that a future holds.
const HELD: usize = 0;

/// The link of a free place, if it is the last one in the list of the free places.
const FREE: usize = 1;

/// The waker of a task of `futures`, as a cell stores it in a place of its wait list. It wakes its
/// task when it is woken, and also when it is dropped.
#[derive(Drop)]
pub struct TaskWaker {
    /// `None` while the waker is taken out of its place.
    waker: Option<Waker>,
    /// `HELD`, or for a free place `FREE` plus the number of the next free one. It is a `Cell`, so
    /// that a place can be given up through `&self`.
    link: Cell<usize>,
}

/// Contracts see the waker of `futures`, which names its task.
impl Model for TaskWaker {
    ghost use Rattle.std.specs.Prelude.{Option};
    ghost use Rattle.futures.specs.declared.task.waker.Waker.{Waker};

    ghost Value = { Option Waker };

    ghost view = { λ s. s.waker };
}

impl TaskWaker {
    /// Wraps the waker of a future, so that a place of the wait list can store the waker.
    pub fn of(waker: Waker) -> TaskWaker
        ensures { result ≡ Some waker }
    {
        TaskWaker {
            waker: Some(waker),
            link: Cell::new(HELD),
        }
    }

    /// Marks the place of this waker as free. `next` is the number of the next free place, or 0 if
    /// there is none.
    pub(crate) fn leave_before(&self, next: usize) {
        self.link.set(FREE.saturating_add(next));
    }

    /// Marks the place of this waker as held. Returns the number of the next free place, or 0 if
    /// there is none.
    pub(crate) fn hold(&self) -> usize {
        self.link.replace(HELD).saturating_sub(FREE)
    }

    /// Returns whether the place of this waker is held.
    pub(crate) fn is_held(&self) -> bool {
        self.link.get() == HELD
    }

    /// Registers the task with this waker. If the waker is another task's, it is replaced, and its
    /// task is woken.
    #[inline(always)]
    pub(crate) fn renew(&mut self, source: &Source, cx: &mut Context<'_>)
        ensures armed { IsArmed cx.new }
        ensures heard { Hears cx.new source.now.id }
        ensures kept { Keeps cx.old cx.new }
        ensures of_task { IsOfTask cx.old cx.new self.new }
    {
        let _ = cx.register::<()>(source, &mut self.waker);
    }

    /// Takes the waker out of its place, which then holds `None`.
    pub(crate) fn take(&mut self) -> Option<Waker>
        ensures taken { result ≡ self.old }
        ensures empty { self.new ≡ None }
    {
        self.waker.take()
    }
}

/// Always fails: a waker of `futures` is not `Clone`. Cells take such wakers by value.
impl Clone for TaskWaker {
    ghost is_clone = { λ a b. b ≡ a };

    ghost is_infallible = { λ _. ⊥ };

    fn clone(&self) -> Result<TaskWaker, AllocError> {
        Err(AllocError)
    }
}

/// `will_wake` is always false, so no waker is skipped. Nothing depends on whether `futures`
/// considers two wakers the same.
impl Wakes for TaskWaker {
    ghost will_wake = { λ _ _. false };

    ghost SURE_CLONE = { false };

    const SURE_CLONE: bool = false;

    fn will_wake(&self, _: &TaskWaker) -> bool {
        false
    }

    fn wakes_nobody(&self) -> bool {
        self.waker.is_none()
    }

    fn wake(self) {
        let TaskWaker { waker, link: _ } = self;
        if let Some(_dropped) = waker {} // Its drop wakes. It is no call, as that of `drop` is.
    }

    ghost clone_is_source = { Prim.search rules };

    ghost clone_is_sure = { Prim.search rules };
}
