ghost use Rattle.std.specs.Prelude.{◌≡◌, None, Ok, Err, IfOk, IfErr, IfSome, IsSomeAnd};
ghost use Rattle.std.specs.Arc.{arc_value};
ghost use Rattle.core.specs.Mem.{manually_drop_value};
ghost use Rattle.futures.specs.Poll.{IfReady, OnPending};
ghost use Rattle.futures.specs.Task.{Covers, Keeps};
ghost use Rattle.async_cell_model.specs.Refusal.{FailsWithClosed, FailsWithMemory, FailsWithMemoryOrClosed};
ghost use Rattle.async_cell_model.specs.declared.refusal.Refusal.TheVariants.{Closed};
ghost use Rattle.async_cell_sync.specs.Source.{source_of};

use crate::async_cell::AsyncCell;
use async_cell_calls::Taking;
use async_cell_core::{Core, Place, Refusal, TaskWaker};
use async_cell_history::{Unruled, Unwitnessed};
use async_cell_model::Kept;
use async_cell_step::{Rule, Ruled};
use futures::future::Future;
use futures::task::{Context, Poll};
use std::alloc::Global;
use std::mem::ManuallyDrop;
use std::sync::{Arc, Wait};

/// The side of a reply slot that replies, once, by `set`. If the `Replier` is dropped without a
/// `set`, for example at `?` or an early `return`, the slot is closed, and the `ReplyFuture` is
/// ready with `Closed`. **Dropping a `Replier` may wait for the lock**, as its calls may.
#[derive_where(Debug)]
pub struct Replier<T: Drop, R: Wait + Drop, N: Unwitnessed<T, TaskWaker> = Unruled> {
    #[derive_where(skip)]
    pub(crate) cell: Arc<ManuallyDrop<AsyncCell<T, N>>>,
    #[derive_where(skip)]
    pub(crate) rt: R,
}

/// The side of a reply slot that waits: a future of the value. It fails with `Closed` if the
/// `Replier` was dropped without a `set`. After the future has given the value or `Closed`, each
/// later poll fails with `Closed`. The future fails with `Memory` if there is no memory to register
/// the waker, and may then be polled again. Once the `Replier` is gone, a poll takes no lock.
///
/// If the `ReplyFuture` is dropped before it was ready, the slot is closed. Then a value that was
/// already set is dropped, and a later `set` returns its value in the error. **This drop of the
/// `ReplyFuture` may wait for the lock**, and wakes the task that polled it last, if it waits.
///
/// ```rust
/// let (replier, reply) = reply_slot::<u32, _>(rt.alloc(), rt)?;
/// drop(replier);
/// println!(rt; "{:?}", block_on(&rt, reply)?)?; // prints Err(Closed)
/// ```
#[derive_where(Debug)]
pub struct ReplyFuture<T: Drop, R: Wait + Drop, N: Unwitnessed<T, TaskWaker> = Unruled> {
    /// `None` once it was ready.
    #[derive_where(skip)]
    cell: Option<Arc<ManuallyDrop<AsyncCell<T, N>>>>,
    #[derive_where(skip)]
    rt: R,
    #[derive_where(skip)]
    place: Place,
}

/// Makes a reply slot: the side that replies, and the side that waits. Fails with `Memory` if there
/// is no memory for the slot.
///
/// ```rust
/// let (replier, reply) = reply_slot(rt.alloc(), rt)?;
/// let worker = thread::spawn(&rt, move || replier.set(42))?;
/// println!(rt; "the reply is {}", block_on(&rt, reply)??)?; // prints the reply is 42
/// let _ = worker.join(&rt);
/// ```
pub fn reply_slot<T: Drop, R: Wait + Copy>(
    alloc: Global,
    rt: R,
) -> Result<(Replier<T, R>, ReplyFuture<T, R>), Refusal>
    ensures of_one { IfOk result (λ sides. IsSomeAnd sides.1.cell (λ cell.
        arc_value cell ≡ arc_value sides.0.cell)) }
    ensures refused { FailsWithMemory result }
{
    sides(alloc, rt)
}

/// As `reply_slot`, but the value satisfies the rule `P`: `set` requires this, and a poll of the
/// reply ensures it. The file `even.rt` of the program `example_theorems` has such a slot.
pub fn reply_slot_of<P: Rule<T>, T: Drop, R: Wait + Copy>(
    alloc: Global,
    rt: R,
) -> Result<(Replier<T, R, Ruled<P>>, ReplyFuture<T, R, Ruled<P>>), Refusal>
    ensures of_one { IfOk result (λ sides. IsSomeAnd sides.1.cell (λ cell.
        arc_value cell ≡ arc_value sides.0.cell)) }
    ensures refused { FailsWithMemory result }
{
    sides(alloc, rt)
}

/// Makes both sides of a slot.
#[inline(always)]
fn sides<T: Drop, R: Wait + Copy, N: Unwitnessed<T, TaskWaker>>(
    alloc: Global,
    rt: R,
) -> Result<(Replier<T, R, N>, ReplyFuture<T, R, N>), Refusal>
    ensures of_one { IfOk result (λ sides. IsSomeAnd sides.1.cell (λ cell.
        arc_value cell ≡ arc_value sides.0.cell)) }
    ensures refused { FailsWithMemory result }
{
    let cell = ManuallyDrop::new(AsyncCell::of(alloc, Core::new(alloc)));
    let Ok(cell) = Arc::new(alloc, cell) else {
        return Err(Refusal::Memory);
    };
    let reply = ReplyFuture {
        cell: Some(Arc::try_clone(&cell)?),
        rt,
        place: Place::new(),
    };
    Ok((Replier { cell, rt }, reply))
}

impl<T: Drop, R: Wait + Drop, N: Unwitnessed<T, TaskWaker>> Replier<T, R, N> {
    /// Sets the value, and wakes the task that waits for it. The value stays until the
    /// `ReplyFuture` takes it or is dropped. If the `ReplyFuture` was already closed or dropped,
    /// the value is returned in the error.
    ///
    /// ```rust
    /// let (replier, reply) = reply_slot(rt.alloc(), rt)?;
    /// drop(reply);
    /// println!(rt; "nobody waits: {:?}", replier.set(42))?; // prints nobody waits: Err(42)
    /// ```
    pub fn set(self, value: T) -> Result<(), T>
        requires may { N.may (Kept.Replace value) }
        ensures comes_back { IfErr result (λ back. back ≡ value) }
    {
        let Replier { cell, rt } = self; // Without the drop, which closes.
        cell.core.set(value, &rt)
    }

    /// Returns whether the `ReplyFuture` was closed or dropped. If so, `set` would return the value
    /// in the error.
    pub fn is_closed(&self) -> bool {
        self.cell.is_closed(&self.rt)
    }
}

/// Closes the slot. May wait for the lock.
impl<T: Drop, R: Wait + Drop, N: Unwitnessed<T, TaskWaker>> Drop for Replier<T, R, N> {
    #[inline(always)]
    fn drop(self) {
        let Replier { cell, rt } = self;
        let _ = cell.core.end_owner(&rt); // The cell has one owner: both sides together.
    }
}

impl<T: Drop, R: Wait + Drop, N: Unwitnessed<T, TaskWaker>> ReplyFuture<T, R, N> {
    /// Takes the value without waiting. `Ok(None)` says that it may still come. Fails with `Closed`
    /// if the `Replier` was dropped without a `set`, and after the value was taken.
    ///
    /// ```rust
    /// let (replier, mut reply) = reply_slot(rt.alloc(), rt)?;
    /// println!(rt; "{:?}", reply.try_take())?; // prints Ok(None)
    /// let _ = replier.set(42);
    /// println!(rt; "{:?}", reply.try_take())?; // prints Ok(Some(42))
    /// ```
    pub fn try_take(&mut self) -> Result<Option<T>, Refusal>
        ensures rule { IfOk result (λ found. IfSome found N.holds) }
        ensures closed { self.old.cell ≡ None → result ≡ Err Refusal.Closed }
        ensures over { IfOk result (λ found. IfSome found (λ _. self.new.cell ≡ None)) }
        ensures stays { result ≡ Ok None → self.new ≡ self.old }
        ensures refused { FailsWithClosed result }
    {
        let Some(cell) = &self.cell else {
            return Err(Refusal::Closed);
        };
        let content = match cell.core.take_out(&self.rt) {
            Some(None) => return Ok(None),
            Some(content) => Ok(content),
            None => Err(Refusal::Closed),
        };
        self.cell = None;
        content
    }

    /// Closes the slot, and returns the value if it was set. So if you call this after a wait with
    /// a time limit, a reply that came too late is not lost. If the value is set later,
    /// `Replier::set` returns the value in its error.
    ///
    /// ```rust
    /// let (replier, reply) = reply_slot(rt.alloc(), rt)?;
    /// let _ = replier.set(42);
    /// println!(rt; "{:?}", reply.close())?; // prints Some(42)
    /// ```
    pub fn close(self) -> Option<T>
        ensures rule { IfSome result N.holds }
        ensures over { self.cell ≡ None → result ≡ None }
    {
        let ReplyFuture { cell, rt, place: _ } = self;
        cell?.core.take_inner(&rt).unwrap_or(None)
    }

    /// As `poll`, but takes the lock even if the `Replier` is gone. It is never inlined, so that
    /// `poll` can be.
    #[inline(never)]
    fn poll_waiting(&mut self, cx: &mut Context<'_>) -> Poll<Result<T, Refusal>>
        ensures rule { IfReady result (λ given. IfOk given N.holds) }
        ensures closed { self.old.cell ≡ None → result ≡ Poll.Ready (Err Refusal.Closed) }
        ensures over { IfReady result (λ given.
            ¬ (given ≡ Err Refusal.Memory) → self.new.cell ≡ None) }
        ensures stays { OnPending result (self.new.cell ≡ self.old.cell) }
        ensures stays_for_memory { result ≡ Poll.Ready (Err Refusal.Memory)
            → self.new.cell ≡ self.old.cell }
        ensures registered { OnPending result (Covers cx.new (λ s. IsSomeAnd self.new.cell (λ cell.
            s ≡ source_of (manually_drop_value cell.value)))) }
        ensures kept { Keeps cx.old cx.new }
        ensures refused { IfReady result FailsWithMemoryOrClosed }
    {
        let Some(cell) = &self.cell else {
            return Poll::Ready(Err(Refusal::Closed));
        };
        let polled = cell.poll(Taking, Some(&mut self.place), cx, &self.rt);
        match polled {
            Poll::Pending | Poll::Ready(Err(Refusal::Memory)) => {}
            Poll::Ready(_) => self.cell = None,
        }
        polled
    }
}

/// Takes the content of a slot whose `Replier` is gone, and gives the slot up. There is no content
/// if the `Replier` closed the slot. Returns `None` while there is a `Replier`, or if the slot was
/// given up before. Nobody else has the slot, so this takes no lock.
#[inline(always)]
fn take_if_alone<T: Drop, N: Unwitnessed<T, TaskWaker>>(
    slot: &mut Option<Arc<ManuallyDrop<AsyncCell<T, N>>>>,
) -> Option<Option<T>>
    ensures rule { IfSome result (λ content. IfSome content N.holds) }
    ensures closed { slot.old ≡ None → result ≡ None }
    ensures over { IfSome result (λ _. slot.new ≡ None) }
    ensures stays { result ≡ None → slot.new ≡ slot.old }
{
    let Some(cell) = slot else {
        return None;
    };
    let Some(alone) = Arc::get_mut(cell) else {
        return None;
    };
    let content = alone.core.take_alone();
    *slot = None;
    Some(content)
}

impl<T: Drop, R: Wait + Drop, N: Unwitnessed<T, TaskWaker>> Future for ReplyFuture<T, R, N> {
    type Output = Result<T, Refusal>;

    ghost needs = { λ reply s.
        IsSomeAnd reply.cell (λ cell. s ≡ source_of (manually_drop_value cell.value)) };

    ghost gives = { λ reply given. IfOk given N.holds × FailsWithMemoryOrClosed given
        × (reply.cell ≡ None → given ≡ Err Closed) };

    #[inline]
    fn poll(&mut self, cx: &mut Context<'_>) -> Poll<Self::Output>
        ensures rule { IfReady result (λ given. IfOk given N.holds) }
        ensures closed { self.old.cell ≡ None → result ≡ Poll.Ready (Err Refusal.Closed) }
        ensures over { IfReady result (λ given.
            ¬ (given ≡ Err Refusal.Memory) → self.new.cell ≡ None) }
        ensures stays { OnPending result (self.new.cell ≡ self.old.cell) }
        ensures stays_for_memory { result ≡ Poll.Ready (Err Refusal.Memory)
            → self.new.cell ≡ self.old.cell }
        ensures registered { OnPending result (Covers cx.new (λ s. IsSomeAnd self.new.cell (λ cell.
            s ≡ source_of (manually_drop_value cell.value)))) }
        ensures kept { Keeps cx.old cx.new }
        ensures refused { IfReady result FailsWithMemoryOrClosed }
    {
        match take_if_alone(&mut self.cell) {
            Some(content) => Poll::Ready(content.ok_or(Refusal::Closed)),
            None => self.poll_waiting(cx),
        }
    }
}

/// Closes the slot, as the drop of a `Replier` does, unless this future has already given its
/// result. May wait for the lock.
impl<T: Drop, R: Wait + Drop, N: Unwitnessed<T, TaskWaker>> Drop for ReplyFuture<T, R, N> {
    fn drop(self) {
        let ReplyFuture { cell, rt, place: _ } = self;
        if let Some(cell) = cell {
            drop(Replier { cell, rt });
        }
    }
}
