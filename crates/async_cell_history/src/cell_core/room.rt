//! The places of futures that wait. When a future begins to wait, the history gets an entry: a
//! `poll_get`.
use super::CellCore;
use crate::entries::Waits;
use crate::{Before, Nobody, Protocol};
use async_cell_core::{Place, TaskWaker};
use async_cell_step::{Deferred, Room};
use futures::task::{Context, Source, Waker};

impl<T: Drop, N: Protocol<T, TaskWaker>> Room for CellCore<T, TaskWaker, N> {
    ghost use Rattle.std.specs.Prelude.{◌≡◌, true};
    ghost use Rattle.async_cell_model.specs.Machine.{is_vacant};

    ghost vacant = { λ cell. is_vacant cell.inner.cell ≡ true };

    ghost waiting = { λ cell. cell.inner.waiting };

    ghost room = { λ cell. cell.inner.room };

    ghost stays = { λ old new. (new.inner.cell ≡ old.inner.cell)
        × (new.inner.room ≡ old.inner.room) × (new.past ≡ old.past) };

    #[inline(always)]
    fn is_new(&self, place: &Place) -> bool {
        self.inner.is_new(place)
    }

    #[inline(always)]
    fn store_new(
        &mut self,
        place: &mut Place,
        task: usize,
        waker: TaskWaker,
    ) -> Deferred<Result<(), TaskWaker>> {
        let before = Before::of(&self.inner, &waker);
        let stored = self.inner.store_new(place, task, waker);
        if stored.is_ok() {
            before.enter::<Waits, _, _, _>(&mut self.past, &(), &self.inner, &Nobody);
        }
        Deferred::of(stored)
    }

    #[inline(always)]
    fn renew(&mut self, place: &Place, source: &Source, cx: &mut Context<'_>) -> bool {
        self.inner.renew(place, source, cx)
    }

    #[inline(always)]
    fn take_back(&mut self, place: &mut Place) -> Deferred<Option<Waker>> {
        Deferred::of(self.inner.take_back(place))
    }

    #[inline(always)]
    fn store(
        &mut self,
        place: &mut Place,
        waker: TaskWaker,
    ) -> Deferred<Result<Option<TaskWaker>, TaskWaker>> {
        let before = Before::of(&self.inner, &waker);
        let stored = self.inner.store(place, waker);
        before.enter_stored(&mut self.past, &stored, &self.inner);
        Deferred::of(stored)
    }

    #[inline(always)]
    fn vacate(&mut self, place: Place) -> Option<usize> {
        self.inner.vacate(place)
    }

    #[inline(always)]
    fn take_left(&mut self, index: usize) -> Deferred<Option<Waker>> {
        Deferred::of(self.inner.take_left(index))
    }

    #[inline(always)]
    fn places(&self) -> usize {
        self.inner.waiting()
    }
}
