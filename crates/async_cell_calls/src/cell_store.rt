//! A cell's core in a store: functions that create a `CellStore` or consume it, and one function,
//! `make`, that executes any call.
ghost use Rattle.std.specs.Prelude.{◌≡◌, [], false, None, Some, IfSome, IsTrue};
ghost use Rattle.async_cell_model.specs.Machine.{State, content, is_closed, IsSound};
ghost use Rattle.async_cell_history.specs.History.{Logged};

use async_cell_core::{Core, Wakes};
use async_cell_history::{Blank, Caller, CellCore, Op, OwnerPermit, Protocol, Sees, Witness};
use async_cell_step::{Opens, Step, StoredCore, Stores, finish, opened};

/// The core of a cell in a `Mutex` or a `RefCell`, lent for one step at a time. A call makes its
/// change in one step. `rt` is the right to the step. If the core is in a `Mutex`, that is the
/// right to wait for the lock. After the step the call wakes wakers, and drops old values, unused
/// values and the value of a closed cell. Closures, clones and prints run during the step. If the
/// core is in a `Mutex`, a closure, clone or print that calls its own cell waits forever.
#[derive(Drop)]
pub struct CellStore<M> {
    /// The store that holds the core. The polls of futures use this store.
    #[doc(hidden)]
    pub store: StoredCore<M>,
}

/// Makes a call on its fast path, or else by `make_slow`.
macro_rules! made_fast {
    ($op:ident, $core:ident, $step:ident, $by:ident, $seen:ident) => {
        match $core.fast($op, &*$seen) {
            Ok(held) => {
                $seen.see($core);
                finish::<_, _, W, _>($step, held)
            }
            Err(op) => make_slow($step, op, $by, $seen),
        }
    };
}

impl<M: Stores<Core = CellCore<T, W>>, T: Drop, W: Wakes> CellStore<M> {
    /// Stores the core, whatever its state.
    pub fn new(core: Core<T, W>) -> Self {
        CellStore::nameless(core)
    }
}

impl<M: Stores<Core = CellCore<T, W, N>>, T: Drop, W: Wakes, N: Protocol<T, W>> CellStore<M> {
    /// Stores the core of a cell that no witness sees.
    #[doc(hidden)]
    pub fn nameless(core: Core<T, W>) -> Self
        requires nameless { N.named ≡ None }
        requires rule { IfSome (content core.cell) N.holds }
    {
        CellStore {
            store: StoredCore::of(CellCore::of(core)),
        }
    }

    /// Makes a cell from the blank. Also returns the first witness of the cell's history, and the
    /// permit of the cell's first owner. `end_counted` ends this owner.
    pub fn of_blank(blank: Blank<T, W>) -> (Self, Witness<T, W, N>, OwnerPermit<T, W, N>)
        requires named { N.named ≡ Some blank }
        requires rule { IfSome (content blank.start.cell) N.holds }
        ensures new { result.1.calls ≡ [] }
        ensures nobody { result.1.author ≡ 0 }
        ensures none_made { result.1.own ≡ 0 }
    {
        let (core, witness, permit) = CellCore::of_blank(blank);
        let store = StoredCore::of(core);
        (CellStore { store }, witness, permit)
    }

    /// Returns the core. Waits for no step.
    #[doc(hidden)]
    pub fn into_core(self) -> Core<T, W>
        ensures sound { IsSound W.will_wake result }
        ensures rule { IfSome (content result.cell) N.holds }
    {
        self.store.into_stored().into_core()
    }

    /// Returns the content, whatever the number of owners. Wakes all waiters. Takes no lock.
    pub fn into_inner(self) -> Option<T>
        ensures rule { IfSome result N.holds }
    {
        let (content, woken) = self.into_core().into_inner();
        woken.wake_all();
        content
    }

    /// Makes a call in one step, shows it to `seen`, and wakes the wakers that the call hands out.
    #[inline(always)]
    pub fn make<'a, O: Op<T, W, N>, K: Caller<T, W, N>, S: Sees<T, W, N>, R: Opens<'a, M>>(
        &'a self,
        op: O,
        by: &K,
        seen: &mut S,
        rt: &R,
    ) -> O::Answer
        requires can { O.can op }
        ensures made { (from to : State T W) × O.gives from op result to
            × (IsTrue R.always → (K.owns → is_closed from.cell ≡ false)
            × S.sees seen.old (O.call from op to) (O.reply from result) seen.new) }
    {
        let mut step = opened!(rt, &self.store, else return op.unlent());
        let core = step.lend();
        by.proves_open(core);
        seen.catch_up(core);
        if O::IS_FAST {
            // Nobody waits on a full cell. In a branch of its own the compiler sees that a call on
            // one wakes nobody: to ask would cost 6 instructions.
            if core.is_set() {
                return made_fast!(op, core, step, by, seen);
            }
            return made_fast!(op, core, step, by, seen);
        }
        let held = core.make(op, &*seen);
        seen.see(core);
        finish::<_, _, W, _>(step, held)
    }
}

/// Makes a call that could not be made on its fast path, in the same step. It is a function of its
/// own, so that the fast path stays small.
#[inline(never)]
fn make_slow<G, T, W, N, O, K, S>(mut step: G, op: O, by: &K, seen: &mut S) -> O::Answer
where
    G: Step<Core = CellCore<T, W, N>>,
    T: Drop,
    W: Wakes,
    N: Protocol<T, W>,
    O: Op<T, W, N>,
    K: Caller<T, W, N>,
    S: Sees<T, W, N>,
    requires can { O.can op }
    ensures made { (first : S) (was : Logged T W) → S.ready first seen.old was
        → (from to : State T W) × O.gives from op result to
        × (K.owns → is_closed from.cell ≡ false)
        × S.sees first (O.call from op to) (O.reply from result) seen.new }
{
    let core = step.lend();
    by.proves_open(core);
    seen.catch_up(core);
    let held = core.make(op, &*seen);
    seen.see(core);
    finish::<_, _, W, _>(step, held)
}
