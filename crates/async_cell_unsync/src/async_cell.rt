ghost use Rattle.std.specs.Prelude.{◌≡◌, Option, IsOk, IfOk, IfErr, IfSome, None, Some};
ghost use Rattle.std.specs.Fn.{FnOnceReturnsAt};
ghost use Rattle.async_cell_model.specs.Machine.{content, IsSound};
ghost use Rattle.async_cell_model.specs.Refusal.{FailsWithMemory};
ghost use Rattle.async_cell_step.specs.Rule.{IsCloneOfOne};
ghost use Rattle.async_cell_unsync.specs.Names.{cell_of};

use crate::{Get, GuardedCell, Shared, Take};
use async_cell_calls::CellStore;
use async_cell_core::{Core, Place, Refusal, TaskWaker, Wakes};
use async_cell_history::{CellCore, Free, Unruled};
use async_cell_step::{OneThread, Places, Rule, Ruled};
use futures::task::Source;
use std::alloc::Global;
use std::cell::RefCell;
use std::fmt;

/// A cell of one thread. It holds an optional value, and futures wait on it for a value.
///
/// A call wakes tasks and drops the cell's values only after it has finished its work on the cell.
/// So the code that runs in a wake or a drop may call the cell. (If another task polls a future,
/// the task that it leaves may be woken sooner. This runs none of your code.) No call waits.
/// Dropping a cell wakes all waiters.
///
/// **While a closure, a clone or a value's `Debug` runs, the value is taken out**: calls see an
/// empty cell. An owner that is made or ended during this time changes the number of owners as
/// usual. Afterwards the value, or what an update made of it, is stored in place of whatever was
/// set meanwhile, unless the cell was closed meanwhile. `peek` instead puts the value back only if
/// the cell is still empty.
///
/// A future made by `with` holds one place in the wait list while it waits (see `With`). So all
/// these futures together need no more places than the largest number of them alive at one time.
/// For any other future, each poll that waits adds a waker. This waker stays until the next write
/// or close, even after the future is dropped.
///
/// `N` says what is known of the values (see `Rule`).
pub struct AsyncCell<T, N: Free<T, TaskWaker> = Unruled> {
    pub(crate) core: CellStore<RefCell<CellCore<T, TaskWaker, N>>>,
    /// The source that waiting tasks register with.
    pub(crate) source: Source,
    pub(crate) alloc: Global,
}

/// Wakes all waiters.
impl<T: Drop, N: Free<T, TaskWaker>> Drop for AsyncCell<T, N> {
    #[inline(always)]
    fn drop(self) {
        let AsyncCell {
            core,
            source: _,
            alloc: _,
        } = self;
        core.into_core().end();
    }
}

impl<T: Drop> AsyncCell<T> {
    /// Makes a cell without a value. Allocates nothing. Stores the allocator for all memory that
    /// the cell allocates later.
    pub fn new(alloc: Global) -> Self {
        AsyncCell::of(alloc, Core::new(alloc))
    }

    /// As `new`, but the cell holds a value.
    pub fn new_with(alloc: Global, value: T) -> Self {
        AsyncCell::of(alloc, Core::new_with(alloc, value))
    }

    /// As `Shared::shared`.
    pub fn shared(alloc: Global) -> Result<Shared<T>, Refusal>
        ensures refused { FailsWithMemory result }
    {
        Shared::shared(alloc)
    }
}

impl<T: Drop, P: Rule<T>> AsyncCell<T, Ruled<P>> {
    /// As `new`, but the values of the cell satisfy the rule `P`.
    pub fn ruled(alloc: Global) -> Self {
        AsyncCell::of(alloc, Core::new(alloc))
    }

    /// As `new_with`, but the values of the cell satisfy the rule `P`.
    pub fn ruled_with(alloc: Global, value: T) -> Self
        requires rule { P.holds value }
    {
        AsyncCell::of(alloc, Core::new_with(alloc, value))
    }
}

impl<T: Drop, N: Free<T, TaskWaker>> AsyncCell<T, N> {
    /// Wraps a core in a cell that no witness sees.
    pub(crate) fn of(alloc: Global, core: Core<T, TaskWaker>) -> Self
        requires nameless { N.named ≡ None }
        requires rule { IfSome (content core.cell) N.holds }
    {
        AsyncCell {
            core: CellStore::nameless(core),
            source: Source::new(),
            alloc,
        }
    }

    /// As `Shared::into_shared`.
    #[inline(always)]
    pub fn into_shared(self) -> Result<Shared<T, N>, (Refusal, AsyncCell<T, N>)>
        requires nameless { N.named ≡ None }
        ensures owns { IfOk result (λ owner. cell_of owner ≡ self) }
        ensures comes_back { IfErr result (λ back. back ≡ (Refusal.Memory, self)) }
    {
        Shared::into_shared(self)
    }

    /// As `into_shared`, but drops the cell if there is no memory, so that `?` can be used on the
    /// result.
    #[inline(always)]
    pub fn into_shared_or_drop(self) -> Result<Shared<T, N>, Refusal>
        requires nameless { N.named ≡ None }
        ensures owns { IfOk result (λ owner. cell_of owner ≡ self) }
        ensures refused { FailsWithMemory result }
    {
        match self.into_shared() {
            Ok(owner) => Ok(owner),
            Err((why, _)) => Err(why),
        }
    }

    /// Sets the value and drops the old one. Wakes all waiters.
    pub fn set(&self, value: T)
        requires rule { N.holds value }
    {
        self.core.put(value, &OneThread);
    }

    /// Sets the value and wakes all waiters, if the cell holds no value. Drops `value` otherwise.
    #[inline(always)]
    pub fn or_set(&self, value: T)
        requires rule { N.holds value }
    {
        let _ = self.core.or_set(value, &OneThread);
    }

    /// As `or_set`, but returns an unused `value` in the error, also on a closed cell.
    pub fn try_set(&self, value: T) -> Result<(), T>
        requires rule { N.holds value }
        ensures comes_back { IfErr result (λ back. back ≡ value) }
    {
        self.core.try_set(value, &OneThread)
    }

    /// Sets the value and returns the old one. Wakes all waiters.
    #[inline]
    pub fn replace(&self, value: T) -> Option<T>
        requires rule { N.holds value }
        ensures rule { IfSome result N.holds }
    {
        self.core.replace(value, &OneThread).unwrap_or(None)
    }

    /// Calls the closure on the content, and stores what it returns, in place of whatever was set
    /// meanwhile. Wakes all waiters if the closure returns a value.
    pub fn update<F: FnOnce(Option<T>) -> Option<T> + Drop>(&self, change: F)
        requires callable { F.IsAlwaysCallable change }
        requires rule { (saw put : Option T) → IfSome saw N.holds → F.post change saw put
            → IfSome put N.holds }
    {
        if let Some(content) = self.core.take_out(&OneThread) {
            self.put_back(change(content));
        }
    }

    /// As `update`, but the closure is given a value and returns a value. If the cell holds no
    /// value, the closure is not called.
    pub fn update_some<F: FnOnce(T) -> T + Drop>(&self, change: F)
        requires callable { F.IsAlwaysCallable change }
        requires rule { (old new : T) → N.holds old → F.post change old new → N.holds new }
    {
        if let Some(value) = self.try_take() {
            self.put_back(Some(change(value)));
        }
    }

    /// Takes the value, if there is one. The waiters stay registered.
    pub fn try_take(&self) -> Option<T>
        ensures rule { IfSome result N.holds }
    {
        self.core.try_take(&OneThread)
    }

    /// Returns a clone of the value, if there is one. Fails with `Memory` if the clone fails, and
    /// the value then stays in the cell. If `clone` itself sets a value in the cell, that value is
    /// overwritten.
    pub fn try_get(&self) -> Result<Option<T>, Refusal>
    where
        T: Clone,
        ensures rule { IfOk result (λ found. IfSome found (IsCloneOfOne T.is_clone N.holds)) }
        ensures if_infallible { ((value : T) → T.is_infallible value) → IsOk result }
        ensures refused { FailsWithMemory result }
    {
        match self.try_take() {
            Some(value) => Ok(Some(self.copy_back(value)?)),
            None => Ok(None),
        }
    }

    /// Calls the closure on the value, if there is one, and returns the closure's result. The value
    /// is taken out while the closure runs. If the closure sets another value, this other value
    /// stays in the cell. If the closure closes the cell, the cell stays closed. In both cases the
    /// value that was taken out is dropped.
    pub fn peek<A, F: FnOnce(&T) -> A + Drop>(&self, look: F) -> Option<A>
        requires { F.IsAlwaysCallable look }
        ensures called { IfSome result (λ answer. (seen : T)
            × N.holds seen × FnOnceReturnsAt F.FnOnce look seen answer) }
    {
        let value = self.try_take()?;
        let answer = look(&value);
        self.or_set(value);
        Some(answer)
    }

    /// Returns whether the cell holds a value.
    pub fn is_set(&self) -> bool {
        self.core.is_set(&OneThread)
    }

    /// Returns whether the cell is closed: whether its last owner has ended.
    #[doc(hidden)]
    pub fn is_closed(&self) -> bool {
        self.core.is_closed(&OneThread)
    }

    /// Returns the text that `{:?}` prints for this cell. Fails with `Memory` if there is no memory
    /// for the text, or if the value's `Debug` fails.
    pub fn debug_text(&self) -> Result<String, Refusal>
    where
        T: fmt::Debug,
        ensures refused { FailsWithMemory result }
    {
        Ok(format!(in self.alloc; "{self:?}")?)
    }

    /// Drops each waker that a dropped future left in the cell. The task of each of these wakers is
    /// then polled once more. While a waker stays in the cell, memory of its executor, such as the
    /// task, cannot be freed. So call this if many waits end early while the cell lives on. Needs
    /// no memory. A waker that was added by a poll of a future without a place is not dropped (see
    /// `AsyncCell`).
    pub fn purge(&self) {
        self.core.store.purge(&OneThread);
    }

    /// Returns the number of places in the wait list.
    #[doc(hidden)]
    pub fn waiting(&self) -> usize {
        self.core.waiting(&OneThread)
    }

    /// Returns the content. Wakes all waiters.
    pub fn into_inner(self) -> Option<T>
        ensures rule { IfSome result N.holds }
    {
        let AsyncCell {
            core,
            source: _,
            alloc: _,
        } = self;
        core.into_inner()
    }

    /// Returns the core. The contract of this function states that the core is sound.
    #[doc(hidden)]
    pub fn into_core(self) -> Core<T, TaskWaker>
        ensures { IsSound ⟦<TaskWaker as Wakes>⟧.will_wake result }
    {
        let AsyncCell {
            core,
            source: _,
            alloc: _,
        } = self;
        core.into_core()
    }

    /// Returns a future that takes the value (`try_take` takes it at once).
    pub fn take(&self) -> Take<&Self>
        ensures of_this { result.0.now ≡ self.now }
    {
        Take(self)
    }

    /// Returns a future that clones the value and leaves the value in the cell.
    pub fn get(&self) -> Get<&Self>
    where
        T: Clone,
        ensures of_this { result.0.now ≡ self.now }
    {
        Get(self)
    }

    /// Returns a guard. When the guard is dropped, it sets the value `cancel` if the cell is then
    /// empty, unless the guard was released.
    pub fn guard(&self, cancel: T) -> GuardedCell<T, &Self>
        requires rule { N.holds cancel }
        ensures of_this { result.pointer.now ≡ self.now }
        ensures keeps { result.cancel ≡ Some cancel }
    {
        GuardedCell::new(self, cancel)
    }

    /// Stores a content again, in place of whatever was set meanwhile. A cell that was closed stays
    /// closed.
    fn put_back(&self, content: Option<T>)
        requires rule { IfSome content N.holds }
    {
        drop(match content {
            Some(value) => self.replace(value),
            None => self.try_take(),
        });
    }

    /// Clones a value that was taken out. Stores the value again, and returns the clone. Fails with
    /// `Memory` if the clone fails.
    #[inline]
    pub(crate) fn copy_back(&self, value: T) -> Result<T, Refusal>
    where
        T: Clone,
        requires rule { N.holds value }
        ensures rule { IfOk result (IsCloneOfOne T.is_clone N.holds) }
        ensures if_infallible { ((value : T) → T.is_infallible value) → IsOk result }
        ensures refused { FailsWithMemory result }
    {
        let copy: Result<_, _> = value.clone();
        self.core.put_back(value, &OneThread);
        Ok(copy?)
    }
}

impl AsyncCell<()> {
    /// Sets the value and wakes all waiters. The first `wait` that is polled takes the value, and
    /// the other ones keep waiting. A `get` leaves the value in the cell, and is ready until
    /// somebody takes the value.
    pub fn notify(&self) {
        self.set(());
    }

    /// As `Owner::wait`, but the future holds no place until you call its `with`.
    pub fn wait(&self) -> Take<&AsyncCell<()>>
        ensures of_this { result.0.now ≡ self.now }
    {
        self.take()
    }
}

impl<T: Drop, N: Free<T, TaskWaker>> Places<OneThread> for AsyncCell<T, N> {
    #[inline(always)]
    fn vacate(&self, place: Place, rt: &OneThread) {
        self.core.store.vacate(place, rt);
    }

    fn cancel(&self, place: Place, rt: &OneThread) {
        self.core.store.cancel(place, rt);
    }
}

/// Prints `AsyncCell::Empty`, `AsyncCell::Pending` if the cell has a waker (maybe of a dropped
/// future), `AsyncCell::Full(..)` with the value's own text, or `AsyncCell::Closed`. The value is
/// taken out while it prints, and then stored in place of whatever was set meanwhile.
impl<T: fmt::Debug + Drop, N: Free<T, TaskWaker>> fmt::Debug for AsyncCell<T, N> {
    fn fmt<F: fmt::Write>(&self, f: &mut fmt::Formatter<F>) -> fmt::Result {
        let Some(value) = self.try_take() else {
            return f.write_str(match self.core.is_pending(&OneThread) {
                Some(true) => "AsyncCell::Pending",
                Some(false) => "AsyncCell::Empty",
                None => "AsyncCell::Closed",
            });
        };
        let printed = write!(f, "AsyncCell::Full({value:?})");
        self.put_back(Some(value));
        printed
    }
}
