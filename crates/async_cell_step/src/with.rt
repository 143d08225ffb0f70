ghost use Rattle.std.specs.Prelude.{◌≡◌, ⊤, ℕ, Ok, Err, IfOk, IfSome};
ghost use Rattle.std.specs.List.{AllByRecursion};
ghost use Rattle.futures.specs.Poll.{IfReady, OnPending};
ghost use Rattle.futures.specs.Task.{Covers, Keeps};
ghost use Rattle.async_cell_model.specs.Refusal.{FailsWithMemory, FailsWithMemoryOrClosed};
ghost use Rattle.async_cell_step.specs.Upgrade.{FailsToUpgrade};

use async_cell_model::Refusal;
use async_cell_wakers::Place;
use futures::future::Future;
use futures::stream::Stream;
use futures::task::{Context, Poll};

/// The place that a poll may wait in.
pub type At<'a> = Option<&'a mut Place>;

/// A cell in which futures hold places. `R` is the type of the permission that a step on the cell
/// needs, for example an `impl Wait`.
pub trait Places<R> {
    /// Gives up the place of a future that is dropped.
    fn vacate(&self, place: Place, rt: &R);

    /// Gives up the place of a future that is cancelled, and drops its waker.
    fn cancel(&self, place: Place, rt: &R);
}

/// What a future asks of a cell, such as a `Take` or a `TakeAs`. `With` makes a future of it.
pub trait Request<R>: Drop {
    /// The type of the cell.
    type Cell: Places<R>;

    /// The request points to no cell.
    ghost is_lost: { Self → Type 0 } = { λ _. ⊥ };

    /// Returns the cell, unless there is no pointer to it.
    fn cell(&self) -> Option<&Self::Cell>;
}

/// A request that can be polled. A `Get` or a `GetWeak` can be polled if the value can be cloned.
pub trait Polled<R>: Request<R> {
    /// What the future returns.
    type Output;

    /// The sources that a pending future has registered with.
    ghost waits_for: { Self → ℕ → Type 0 };

    /// What the future may return.
    ghost may_give: { Self → Self.Output → Type 0 };

    /// Polls the request. A poll that has to wait uses the place in `at`, if there is one.
    fn poll_at(&self, at: At<'_>, cx: &mut Context<'_>, rt: &R) -> Poll<Self::Output>
        ensures lost { Self.is_lost self.now → OnPending result ⊥ }
        ensures gives { IfReady result (may_give self.now) }
        ensures registered { OnPending result (Covers cx.new (waits_for self.now)) }
        ensures kept { Keeps cx.old cx.new };
}

/// A request that is no owner of its cell, and can become one.
pub trait Upgrade<R>: Request<R> {
    /// The same request by an owner.
    type Owning: Request<R>;

    /// The owner is of the cell that the request points to.
    ghost owned_by: { Self → Self.Owning → Type 0 };

    /// Makes the same request by a new owner. Fails or returns `None` when `With::upgrade` does.
    fn owning(&self, rt: &R) -> Result<Option<Self::Owning>, Refusal>
        ensures of_this { IfOk result (λ found. IfSome found (owned_by self.now)) }
        ensures lost { Self.is_lost self.now → result ≡ Err Refusal.Memory }
        ensures refused { FailsToUpgrade result };
}

/// The future of a request, such as a `Take` or a `TakeAs`. The future also holds an `R`: the right
/// that each step on the cell needs, such as the right to wait for the cell's lock. The `with` of a
/// `Take`, a `Get`, a `TakeWeak` or a `GetWeak` makes such a future. So do calls of an `Owner` and
/// a `WeakOwner`, such as `take` and `take_as`.
///
/// While the future waits, it holds one place in the cell's wait list. Each poll renews the waker
/// in this place, so the task that will be woken is the one that polled the future last. (If there
/// is no memory for this task's waker, the earlier one stays, and this task is polled again.) A
/// poll fails with `Memory` if there is no memory for the first waker, to grow the list, or for a
/// clone of the value. The future can then be polled again.
///
/// **Dropping the future may wait for the cell's lock.** If the future is the last owner, its drop
/// closes the cell: it drops the value, and wakes all waiters. Any other drop wakes nobody, unless
/// it drops the cell itself. After the drop, the place is free for the next `With` that waits for
/// the same cell, and the task that polled the dropped future may be woken once more. **So keep a
/// future and poll it again.** Two tasks that each make a new future for every poll wake each other
/// forever.
#[derive_where(Debug)]
pub struct With<P: Request<R>, R> {
    #[derive_where(skip)]
    polled: P,
    #[derive_where(skip)]
    rt: R,
    #[derive_where(skip)]
    place: Place,
}

impl<P: Request<R>, R> With<P, R> {
    /// Makes the future of this request. The future has no place in the wait list yet.
    #[doc(hidden)]
    pub fn new(polled: P, rt: R) -> Self
        ensures polls { result.polled ≡ polled }
    {
        With {
            polled,
            rt,
            place: Place::new(),
        }
    }
}

impl<P: Request<R>, R: Drop> With<P, R> {
    /// Drops the future, and the waker that the future left in the cell. Dropping that waker wakes
    /// the task that polled the future last, so this task is polled once more. While a waker stays
    /// in the cell, memory of its executor, such as the task, cannot be freed. So call `cancel` if
    /// a wait ends early, for example after a timeout, and the cell lives on. May wait for the
    /// lock.
    pub fn cancel(self) {
        let With { polled, rt, place } = self;
        if let Some(cell) = polled.cell() {
            cell.cancel(place, &rt);
        }
    }
}

impl<P: Upgrade<R>, R: Copy> With<P, R> {
    /// Returns a future of the same request. The returned future is a new owner. Returns `Ok(None)`
    /// if the cell is closed. The future that `upgrade` is called on stays as it is. Fails with
    /// `Memory` if one more pointer to the cell cannot be counted, or if the future's own pointer
    /// could not be counted when it was made. These two causes are checked first. Fails with
    /// `OwnersFull` if the cell has 4,294,967,295 owners.
    pub fn upgrade(&self) -> Result<Option<With<P::Owning, R>>, Refusal>
        ensures of_this { IfOk result (λ found. IfSome found (λ future.
            P.owned_by self.now.polled future.polled)) }
        ensures lost { P.is_lost self.now.polled → result ≡ Err Refusal.Memory }
        ensures refused { FailsToUpgrade result }
    {
        match self.polled.owning(&self.rt)? {
            Some(owning) => Ok(Some(With::new(owning, self.rt))),
            None => Ok(None),
        }
    }
}

/// Gives up its place in the wait list.
impl<P: Request<R>, R: Drop> Drop for With<P, R> {
    fn drop(self) {
        let With { polled, rt, place } = self;
        if place.was_held() {
            if let Some(cell) = polled.cell() {
                cell.vacate(place, &rt);
            }
        }
    }
}

impl<P: Polled<R>, R: Drop> Future for With<P, R> {
    type Output = P::Output;

    ghost needs = { λ future. P.waits_for future.polled };

    ghost gives = { λ future. P.may_give future.polled };

    fn poll(&mut self, cx: &mut Context<'_>) -> Poll<P::Output> {
        self.polled.poll_at(Some(&mut self.place), cx, &self.rt)
    }
}

/// Converts the answer `polled` for a request that is not an owner: `Closed` becomes `Ok(None)`.
#[inline(always)]
pub fn weakly<T>(polled: Poll<Result<T, Refusal>>) -> Poll<Result<Option<T>, Refusal>>
    requires { IfReady polled FailsWithMemoryOrClosed }
    ensures found { IfReady result (λ answer. IfOk answer (λ found. IfSome found (λ value.
        polled ≡ Poll.Ready (Ok value)))) }
    ensures pending { OnPending result (polled ≡ Poll.Pending) }
    ensures refused { IfReady result FailsWithMemory }
{
    match polled {
        Poll::Ready(Ok(value)) => Poll::Ready(Ok(Some(value))),
        Poll::Ready(Err(Refusal::Closed)) => Poll::Ready(Ok(None)),
        Poll::Ready(Err(why)) => Poll::Ready(Err(why)),
        Poll::Pending => Poll::Pending,
    }
}

/// A request that takes one value after another, like a `TakeWeak`.
pub trait Takes<R>: Polled<R, Output = Result<Option<Self::Value>, Refusal>> {
    /// The type of the values.
    type Value: Drop;

    /// What is known of each value.
    ghost holds: { Self.Value → Type 0 } = { λ _. ⊤ };

    /// A poll fails with `Memory`, and with nothing else.
    ghost lacks_memory: { (take : Self) (given : _)
        → ⟦<Self as Polled<R>>⟧.may_give take given → FailsWithMemory given };

    /// Of each value that a poll takes this is known.
    ghost gives_held: { (take : Self) (given : _) → ⟦<Self as Polled<R>>⟧.may_give take given
        → IfOk given (λ found. IfSome found holds) };
}

/// The values of a cell, as a stream. The stream takes each value that is still there when the
/// stream is polled, and ends when the last owner has ended. It is no owner.
///
/// **Several takers do not take turns.** A value goes to the first that is polled, and a write
/// wakes them in the order of their places in the wait list: that in which they began to wait, but
/// a taker may have the place of a dropped future. So if several streams, or loops of takes, run on
/// one executor, the first may get every value: it polls again before the others, and so is the
/// first to wait again.
///
/// **The last value may be lost**: the end of the last owner drops a value that was not yet taken.
/// If a poll fails with `Memory`, the item is that error, and the stream may be polled again.
#[derive(Drop)]
#[derive_where(Debug)]
pub struct Values<P: Takes<R>, R: Drop> {
    #[derive_where(skip)]
    taker: With<P, R>,
}

impl<P: Takes<R>, R: Drop> With<P, R> {
    /// Returns a stream of the values that this future would take, one after another. If a cell has
    /// several such streams, one of them may get every value (see `Values`).
    pub fn values(self) -> Values<P, R>
        ensures takes { result.taker ≡ self }
    {
        Values { taker: self }
    }
}

impl<P: Takes<R>, R: Drop> Values<P, R> {
    /// Drops the stream, and the waker that it left in the cell, as `With::cancel` does.
    pub fn cancel(self) {
        let Values { taker } = self;
        taker.cancel();
    }
}

impl<P: Takes<R>, R: Drop> Stream for Values<P, R> {
    type Item = Result<P::Value, Refusal>;

    ghost needs = { λ values. P.waits_for values.taker.polled };

    ghost yields = { λ _ items last.
        AllByRecursion (λ item. FailsWithMemory item × IfOk item P.holds) items
        × IfSome last (λ item. FailsWithMemory item × IfOk item P.holds) };

    fn poll_next(&mut self, cx: &mut Context<'_>) -> Poll<Option<Result<P::Value, Refusal>>> {
        let taker = &mut self.taker;
        match taker.polled.poll_at(Some(&mut taker.place), cx, &taker.rt) {
            Poll::Ready(Ok(Some(value))) => Poll::Ready(Some(Ok(value))),
            Poll::Ready(Ok(None)) => Poll::Ready(None),
            Poll::Ready(Err(why)) => Poll::Ready(Some(Err(why))),
            Poll::Pending => Poll::Pending,
        }
    }
}
