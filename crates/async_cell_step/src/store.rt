//! A lock or a `RefCell` that lends a core for one step at a time.
ghost use Rattle.std.specs.Prelude.{◌≡◌, Bool, true, false, IsSome, IsTrue};
ghost use Rattle.std.specs.{RefCell.ref_mut_value, Sync.Mutex.mutex_guard_value};

use std::cell::{RefCell, RefMut};
use std::sync::{Mutex, MutexGuard, Wait};

/// A core in a `Mutex` or a `RefCell`, lent for one step at a time.
#[derive(Drop)]
pub struct StoredCore<M> {
    store: M,
}

/// What holds a core: a `Mutex` or a `RefCell`.
pub trait Stores: From<Self::Core> {
    /// The type of the core.
    type Core;

    /// Returns the core, without waiting for any step to end.
    fn into_core(self) -> Self::Core;

    /// Returns the core of the only one who has the store.
    fn core_mut(&mut self) -> &mut Self::Core;
}

impl<M: Stores> StoredCore<M> {
    /// Stores the core, whatever its state.
    pub fn of(core: M::Core) -> Self {
        StoredCore { store: core.into() }
    }

    /// Returns the core, without waiting for any step to end.
    pub fn into_stored(self) -> M::Core {
        self.store.into_core()
    }

    /// Lends the core to the only one who has the store, without waiting for any step to end.
    #[inline(always)]
    pub fn alone(&mut self) -> Alone<'_, M::Core> {
        Alone {
            core: self.store.core_mut(),
        }
    }
}

/// The right to make a step on a store `M`. This is the right to wait for the store's lock, or the
/// right of the only thread that uses the store.
pub trait Opens<'a, M: Stores> {
    /// The core while it is lent.
    type Open: Step<Core = M::Core>;

    /// Each step waits until the core is free, so `open` always lends it.
    ghost always: { Bool };

    /// Lends the core. If another step runs, and the store cannot wait for its end, returns `None`.
    /// No caller sees this `None`: in one thread, no step runs code that could call the cell.
    fn open(&self, store: &'a StoredCore<M>) -> Option<Self::Open>
        ensures lent { IsTrue always → IsSome result };

    /// As `open`, but returns `None` if another step runs.
    fn try_open(&self, store: &'a StoredCore<M>) -> Option<Self::Open>;

    /// As `open`, for use after `try_open` returned `None`. It is never inlined.
    fn wait_open(&self, store: &'a StoredCore<M>) -> Option<Self::Open>
        ensures lent { IsTrue always → IsSome result };
}

/// Does what `open` does, with an `else` for `None`, in the calls that are made most. Only the part
/// that waits is a function. If all of it were one, its result would be tested twice.
#[doc(hidden)]
#[macro_export]
macro_rules! opened {
    ($rt:expr, $store:expr, else $other:expr) => {
        match $rt.try_open($store) {
            Some(core) => core,
            None => match $rt.wait_open($store) {
                Some(core) => core,
                None => $other,
            },
        }
    };
}

/// A core that is lent for one step. It must be consumed, by `end` or by a function that ends the
/// step and wakes wakers.
pub trait Step {
    /// The type of the core.
    type Core;

    /// The core that it lends.
    ghost core_of: { Self → Self.Core };

    /// Returns the core.
    fn core(&self) -> &Self::Core
        ensures { result.now ≡ core_of self.now };

    /// Lends the core to one call. After the call nothing is known of the core.
    fn lend(&mut self) -> &mut Self::Core
        ensures { result.now ≡ core_of self.old };

    /// Gives the core back.
    fn release(self);
}

/// A core that is lent to the only one who has its store. No lock and no borrow protects it. It
/// cannot be dropped: a function that ends the step must consume it.
pub struct Alone<'a, C> {
    core: &'a mut C,
}

impl<C> Step for Alone<'_, C> {
    type Core = C;

    ghost core_of = { λ alone. alone.core.now };

    #[inline(always)]
    fn core(&self) -> &C {
        &*self.core
    }

    #[inline(always)]
    fn lend(&mut self) -> &mut C {
        &mut *self.core
    }

    #[inline(always)]
    fn release(self) {
        let Alone { core: _ } = self;
    }
}

/// The right to make a step on a store that only one thread uses.
#[derive(Clone, Copy, Drop)]
pub struct OneThread;

/// A core of one thread.
pub type Lender<C> = StoredCore<RefCell<C>>;

/// A core that is lent. It cannot be dropped: a function that ends the step must consume it.
pub struct Lent<'a, C> {
    core: RefMut<'a, C>,
}

impl<C> Stores for RefCell<C> {
    type Core = C;

    fn into_core(self) -> C {
        self.into_inner()
    }

    #[inline(always)]
    fn core_mut(&mut self) -> &mut C {
        self.get_mut()
    }
}

impl<'a, C: 'a> Opens<'a, RefCell<C>> for OneThread {
    type Open = Lent<'a, C>;

    ghost always = { false };

    #[inline(always)]
    fn open(&self, store: &'a Lender<C>) -> Option<Lent<'a, C>> {
        self.try_open(store)
    }

    #[inline(always)]
    fn try_open(&self, store: &'a Lender<C>) -> Option<Lent<'a, C>> {
        let core = store.store.try_borrow_mut().ok()?;
        Some(Lent { core })
    }

    #[inline(always)]
    fn wait_open(&self, _: &'a Lender<C>) -> Option<Lent<'a, C>> {
        None
    }
}

impl<C> Step for Lent<'_, C> {
    type Core = C;

    ghost core_of = { λ lent. ref_mut_value lent.core };

    #[inline(always)]
    fn core(&self) -> &C {
        &*self.core
    }

    #[inline(always)]
    fn lend(&mut self) -> &mut C {
        &mut *self.core
    }

    #[inline(always)]
    fn release(self) {
        let Lent { core } = self;
        drop(core);
    }
}

/// A core behind a lock.
pub type Lock<C> = StoredCore<Mutex<C>>;

/// A core whose lock is held. It cannot be dropped: a function that ends the step must consume it.
pub struct Locked<'a, C> {
    core: MutexGuard<'a, C>,
}

impl<C> StoredCore<Mutex<C>> {
    /// Waits for the lock. First tries to take the lock: this costs less while nobody holds the
    /// lock.
    #[inline(always)]
    pub fn lock<R: Wait>(&self, rt: &R) -> Locked<'_, C> {
        let core = match self.store.try_lock() {
            Some(core) => core,
            None => self.store.lock(rt),
        };
        Locked { core }
    }
}

impl<C> Stores for Mutex<C> {
    type Core = C;

    fn into_core(self) -> C {
        self.into_inner()
    }

    #[inline(always)]
    fn core_mut(&mut self) -> &mut C {
        self.get_mut()
    }
}

impl<'a, C: 'a, R: Wait> Opens<'a, Mutex<C>> for R {
    type Open = Locked<'a, C>;

    ghost always = { true };

    #[inline(always)]
    fn open(&self, store: &'a Lock<C>) -> Option<Locked<'a, C>> {
        Some(store.lock(self))
    }

    #[inline(always)]
    fn try_open(&self, store: &'a Lock<C>) -> Option<Locked<'a, C>> {
        let core = store.store.try_lock()?;
        Some(Locked { core })
    }

    #[inline(never)]
    fn wait_open(&self, store: &'a Lock<C>) -> Option<Locked<'a, C>> {
        let core = store.store.lock(self);
        Some(Locked { core })
    }
}

impl<C> Step for Locked<'_, C> {
    type Core = C;

    ghost core_of = { λ locked. mutex_guard_value locked.core };

    #[inline(always)]
    fn core(&self) -> &C {
        &*self.core
    }

    #[inline(always)]
    fn lend(&mut self) -> &mut C {
        &mut *self.core
    }

    #[inline(always)]
    fn release(self) {
        let Locked { core } = self;
        drop(core);
    }
}
