ghost use Rattle.std.specs.Prelude.{◌≡◌, ◌≤◌, [], ◌∷◌, ◌++◌, length, Bool, List, None, Some, false, IsOk, IfOk, IfErr, IsSome, OnOk, OnErr};
ghost use Rattle.std.specs.Fn.{FnOnceReturnsAt, FnOnceReturnsAtMut};
ghost use Rattle.async_cell_model.specs.Refusal.{FailsWithClosed, FailsWithMemory, IsOwnerRefusal};
ghost use Rattle.async_cell_step.specs.Rule.{IsCloneOfOne};
ghost use Rattle.async_cell_latest.specs.State.{versions_limit};
ghost use Rattle.async_cell_latest_sync.specs.Life.{GoesOn, IsUpdated, IsWritten, MayUpdate, MayWrite};
ghost use Rattle.async_cell_latest_sync.specs.Names.{cell_followed, cell_owned};

use crate::cell::{LatestCell, LatestCore};
use crate::permit::OwnerPermit;
use crate::{Blank, Follower, Protocol, Refusal, Rule, Ruled, Unruled, Witness};
use async_cell_step::{Lock, Opens, Step, Writes, end, end_and_wake, end_and_wake_one, put_held};
use futures::task::Source;
use std::alloc::{AllocFailed, Global};
use std::sync::{Arc, Wait};

/// One counted owner of a state, with the right to wait for its lock. Owners write the state. Any
/// number of followers read it. An owner ends when it is dropped. The end of the last owner closes
/// the state: the last value stays, and followers see it before they get `Closed`.
///
/// A call wakes tasks and drops old values after it has released the lock, so whatever runs then
/// may call the state. (If another task polls a future, the task that it leaves may be woken under
/// the lock. This runs none of your code.) Closures, and clones of the value, run while the lock is
/// held. A closure or a clone waits forever if it calls this state, or drops an owner or a waiting
/// future of this state. What a closure owns is dropped under the lock, too.
///
/// A state takes 18,446,744,073,709,551,614 writes, and no further one.
///
/// **Dropping an owner may wait for the lock**, as its calls may.
///
/// `N` says what is known of the values (see `Rule`). It also gives a name to the list of values
/// that a witness sees. A state made by `Owner::new` has no rule, and its list of values has no
/// name.
#[derive_where(Debug)]
pub struct Owner<T: Drop, R: Wait + Drop, N: Protocol<T> = Unruled> {
    #[derive_where(skip)]
    pub(crate) cell: Arc<LatestCell<T, N>>,
    #[derive_where(skip)]
    pub(crate) permit: OwnerPermit<T, N>,
    #[derive_where(skip)]
    pub(crate) rt: R,
}

impl<T: Drop, R: Wait + Copy> Owner<T, R> {
    /// Makes a state that holds `value`, and the state's first owner. Fails with `Memory` if there
    /// is no memory, and then drops the value.
    ///
    /// ```rust
    /// let setting = Owner::new(rt.alloc(), 1, rt)?;
    /// setting.set(2);
    /// println!(rt; "{}", setting.read()?)?; // prints 2
    /// ```
    pub fn new(alloc: Global, value: T, rt: R) -> Result<Self, Refusal>
        ensures refused { FailsWithMemory result }
    {
        let (core, permit) = LatestCore::unnamed(alloc, value);
        Owner::of(alloc, core, permit, rt)
    }
}

impl<T: Drop, R: Wait + Copy, P: Rule<T>> Owner<T, R, Ruled<P>> {
    /// Makes a state that holds `value`, and the state's first owner. All values satisfy the rule
    /// `P`: each write requires this, and each `peek` ensures it. A `read` gives a clone of such a
    /// value. Fails with `Memory` if there is no memory, and then drops the value.
    pub fn ruled(alloc: Global, value: T, rt: R) -> Result<Self, Refusal>
        requires rule { P.holds value }
        ensures refused { FailsWithMemory result }
    {
        let (core, permit) = LatestCore::unnamed(alloc, value);
        Owner::of(alloc, core, permit, rt)
    }
}

impl<T: Drop, R: Wait + Copy, N: Protocol<T>> Owner<T, R, N> {
    /// Makes a state that holds `value`, the state's first owner, and a witness that has seen the
    /// value. `N` names the state. Fails with `Memory` if there is no memory, and then drops the
    /// value.
    pub fn witnessed(
        alloc: Global,
        value: T,
        blank: Blank<T>,
        rt: R,
    ) -> Result<(Self, Witness<T, N>), Refusal>
        requires named { N.named ≡ Some blank }
        requires may { N.may [] value }
        ensures new { IfOk result (λ made.
            made.1 ≡ record { values = value ∷ []; closed = false }) }
        ensures refused { FailsWithMemory result }
    {
        let (core, permit) = LatestCore::<T, N>::begin(alloc, value, blank);
        let seen = core.witness();
        Ok((Owner::of(alloc, core, permit, rt)?, seen))
    }

    /// Makes the first owner of this state. Fails with `Memory` if there is no memory for the
    /// state.
    fn of(
        alloc: Global,
        core: LatestCore<T, N>,
        permit: OwnerPermit<T, N>,
        rt: R,
    ) -> Result<Self, Refusal>
        ensures refused { FailsWithMemory result }
    {
        let cell = LatestCell {
            core: Lock::of(core),
            source: Source::new(),
        };
        match Arc::new(alloc, cell) {
            Ok(cell) => Ok(Owner { cell, permit, rt }),
            Err(AllocFailed { value: _ }) => {
                permit.into_permit().lose();
                Err(Refusal::Memory)
            }
        }
    }

    /// Returns a follower that has seen the current state. For a follower that begins with this
    /// state, call `mark_changed`. Fails with `Memory` if one more pointer to the state cannot be
    /// counted.
    ///
    /// ```rust
    /// let setting = Owner::new(rt.alloc(), 1, rt)?;
    /// let mut follower = setting.follow()?;
    /// println!(rt; "{}", follower.has_changed())?; // prints false
    /// setting.set(2);
    /// println!(rt; "{}", follower.read_and_update()?)?; // prints 2
    /// ```
    pub fn follow(&self) -> Result<Follower<T, R, N>, Refusal>
        ensures of_this { IfOk result (λ follower. cell_followed follower ≡ cell_owned self.now) }
        ensures refused { FailsWithMemory result }
    {
        Ok(Follower::new(Arc::try_clone(&self.cell)?, self.rt))
    }

    /// Adds an owner. Use this in place of a clone. Fails with `Memory` if the count of the state's
    /// `Arc` is full, and with `OwnersFull` if the state has 4,294,967,295 owners already. `Closed`
    /// cannot happen while this owner lives. If the state has no witness, the contract allows it.
    pub fn another(&self) -> Result<Self, Refusal>
        ensures of_this { IfOk result (λ owner. cell_owned owner ≡ cell_owned self.now) }
        ensures open { IsSome N.named → IfErr result (λ why. ¬ (why ≡ Refusal.Closed)) }
        ensures refused { IfErr result IsOwnerRefusal }
    {
        let cell = Arc::try_clone(&self.cell)?;
        let mut step = cell.core.lock(&self.rt);
        let core = step.lend();
        core.proves_open(&self.permit);
        let added = core.add_owner();
        let permit = end(step, added)?;
        Ok(Owner {
            cell,
            permit,
            rt: self.rt,
        })
    }
}

impl<T: Drop, R: Wait + Drop, N: Protocol<T>> Owner<T, R, N> {
    /// Returns a clone of the value. Fails with `Memory` if the clone fails.
    pub fn read(&self) -> Result<T, Refusal>
    where
        T: Clone,
        ensures rule { IfOk result (IsCloneOfOne T.is_clone N.holds) }
        ensures if_infallible { ((value : T) → T.is_infallible value) → IsOk result }
        ensures refused { FailsWithMemory result }
    {
        Ok(self.cell.get(&self.rt)?.1)
    }

    /// Calls the closure on the value, under the lock, and returns the closure's result.
    ///
    /// ```rust
    /// let name = Owner::new(rt.alloc(), "Ada".to_string(rt.alloc())?, rt)?;
    /// println!(rt; "{}", name.peek(|text| text.len()))?; // prints 3
    /// ```
    pub fn peek<A, F: FnOnce(&T) -> A>(&self, look: F) -> A
        requires { F.IsAlwaysCallable look }
        ensures called { (seen : T) × N.holds seen × FnOnceReturnsAt F.FnOnce look seen result }
    {
        self.cell.peek(look, &self.rt).1
    }

    /// Sets the value and drops the old one. Wakes all followers that wait. If the state takes no
    /// further write, drops `value` instead, and wakes nobody.
    pub fn set(&self, value: T)
        requires may { (before : List T) → N.may before value }
    {
        let Some(mut step) = self.rt.try_open(&self.cell.core) else {
            return self.set_in_turn(value);
        };
        match step.lend().write_first(value) {
            Ok(written) => drop(end_and_wake_one(step, written)),
            Err(value) => put_held(step, value),
        }
    }

    /// As `set`, where the lock is not free.
    #[inline(never)]
    fn set_in_turn(&self, value: T)
        requires may { (before : List T) → N.may before value }
    {
        let _ = self.replace(value);
    }

    /// Sets the value and returns the old one. Wakes all followers that wait. If the state takes no
    /// further write, the new value is returned in the error.
    pub fn replace(&self, value: T) -> Result<T, T>
        requires may { (before : List T) → N.may before value }
        ensures rule { IfOk result N.holds }
        ensures comes_back { IfErr result (λ back. back ≡ value) }
    {
        let mut step = self.cell.core.lock(&self.rt);
        let written = step.lend().write(value);
        end_and_wake(step, written)
    }

    /// Calls the closure on the value, under the lock. Stores the value that the closure returns,
    /// and drops the old value. Wakes all followers that wait. If the state takes no further write,
    /// drops the returned value instead, and wakes nobody.
    pub fn update<F: FnOnce(&T) -> T>(&self, change: F)
        requires callable { F.IsAlwaysCallable change }
        requires may { (before : List T) (old new : T) → N.holds old
            → FnOnceReturnsAt F.FnOnce change old new → N.may before new }
        ensures called { (old new : T) × FnOnceReturnsAt F.FnOnce change old new }
    {
        let mut step = self.cell.core.lock(&self.rt);
        let value = step.core().look(change);
        let written = step.lend().write(value);
        let _ = end_and_wake(step, written);
    }

    /// Calls the closure on the value, and returns what the closure returns. The closure may change
    /// the value in place. Wakes all followers that wait. The closure runs under the lock. So the
    /// closure must not call the state. The drop of a value inside the closure must not call the
    /// state, either. Fails with `Closed` if the state takes no further write, and then does not
    /// call the closure.
    ///
    /// ```rust
    /// let setting = Owner::new(rt.alloc(), 1u32, rt)?;
    /// setting.modify(|value| *value = value.saturating_mul(2))?;
    /// println!(rt; "{}", setting.read()?)?; // prints 2
    /// ```
    pub fn modify<A, F: FnOnce(&mut T) -> A + Drop>(&self, change: F) -> Result<A, Refusal>
        requires callable { F.IsAlwaysCallable change }
        requires may { (before : List T) (old new : T) (answer : A) → N.holds old
            → FnOnceReturnsAtMut F.FnOnce change old answer new → N.may before new }
        ensures called { IfOk result (λ answer. (old new : T)
            × FnOnceReturnsAtMut F.FnOnce change old answer new) }
        ensures refused { FailsWithClosed result }
    {
        let mut step = self.cell.core.lock(&self.rt);
        let modified = step.lend().modify(change);
        end_and_wake(step, modified)
    }

    /// As `modify`, if the closure returns `true`. If it returns `false`, nobody is woken, and
    /// followers see no new state. Returns what the closure returned.
    ///
    /// A closure that returns `false` should leave the value as it was: a change would stay, and
    /// nobody would be woken.
    pub fn modify_if<F: FnOnce(&mut T) -> bool + Drop>(&self, change: F) -> Result<bool, Refusal>
        requires callable { F.IsAlwaysCallable change }
        requires unnamed { N.named ≡ None }
        requires may { (before : List T) (old new : T) (changed : Bool) → N.holds old
            → FnOnceReturnsAtMut F.FnOnce change old changed new → N.may before new }
        ensures called { IfOk result (λ changed. (old new : T)
            × FnOnceReturnsAtMut F.FnOnce change old changed new) }
        ensures refused { FailsWithClosed result }
    {
        let mut step = self.cell.core.lock(&self.rt);
        let modified = step.lend().modify_if(change);
        end_and_wake(step, modified)
    }

    /// Drops each waker that a dropped future left in the state. Dropping a waker wakes its task,
    /// so the task of each such waker is polled once more.
    ///
    /// Without this call, the wakers of dropped futures stay until the next write or the close, or
    /// until another future takes over their place. While such a waker stays, memory of its
    /// executor, such as the task, cannot be freed. Call `purge` if many waiting futures are
    /// dropped before they are ready. `purge` locks once more than the wait list has places.
    pub fn purge(&self) {
        self.cell.core.purge(&self.rt);
    }

    /// Returns the number of places in the wait list.
    #[doc(hidden)]
    pub fn waiting(&self) -> usize {
        self.cell.core.places(&self.rt)
    }

    /// As `set`, but shows the write to the witness. Fails only if the state has had
    /// 18,446,744,073,709,551,615 values, since this owner keeps it open. The error then has the
    /// value.
    pub fn set_as(&self, seen: &mut Witness<T, N>, value: T) -> Result<(), T>
        requires may { MayWrite N.may seen.old value }
        ensures linearized { OnOk result (IsWritten seen.old value seen.new) }
        ensures goes_on { GoesOn seen.old seen.new }
        ensures open { seen.new.closed ≡ false }
        ensures full { OnErr result (versions_limit ≤ length seen.new.values) }
        ensures comes_back { IfErr result (λ back. back ≡ value) }
    {
        self.replace_as(seen, value).map(drop)
    }

    /// As `set_as`, but returns the old value, which was written just before the new one.
    pub fn replace_as(&self, seen: &mut Witness<T, N>, value: T) -> Result<T, T>
        requires may { MayWrite N.may seen.old value }
        ensures linearized { OnOk result (IsWritten seen.old value seen.new) }
        ensures gives_old { IfOk result (λ old. (before : List T)
            × (seen.new.values ≡ before ++ old ∷ value ∷ [])) }
        ensures rule { IfOk result N.holds }
        ensures goes_on { GoesOn seen.old seen.new }
        ensures open { seen.new.closed ≡ false }
        ensures full { OnErr result (versions_limit ≤ length seen.new.values) }
        ensures comes_back { IfErr result (λ back. back ≡ value) }
    {
        let mut step = self.cell.core.lock(&self.rt);
        let core = step.lend();
        core.proves_open(&self.permit);
        core.teach(seen);
        seen.lawful();
        let replaced = core.write(value);
        core.teach(seen);
        end_and_wake(step, replaced)
    }

    /// As `update`, but shows the write to the witness. Fails as `set_as` does. The new value is
    /// then returned in the error.
    pub fn update_as<F: FnOnce(&T) -> T>(
        &self,
        seen: &mut Witness<T, N>,
        change: F,
    ) -> Result<(), T>
        requires callable { F.IsAlwaysCallable change }
        requires may { MayUpdate N.may seen.old (FnOnceReturnsAt F.FnOnce change) }
        ensures linearized { OnOk result (IsUpdated seen.old (FnOnceReturnsAt F.FnOnce change)
            seen.new) }
        ensures goes_on { GoesOn seen.old seen.new }
        ensures open { seen.new.closed ≡ false }
        ensures full { OnErr result (versions_limit ≤ length seen.new.values) }
        ensures comes_back { IfErr result (λ back. (last : T)
            × FnOnceReturnsAt F.FnOnce change last back) }
    {
        let mut step = self.cell.core.lock(&self.rt);
        let core = step.lend();
        core.proves_open(&self.permit);
        core.teach(seen);
        seen.lawful();
        let value = core.look(change);
        let updated = core.write(value);
        core.teach(seen);
        match end_and_wake(step, updated) {
            Ok(_old) => Ok(()),
            Err(unused) => Err(unused),
        }
    }

    /// Ends this owner, as its drop does. Returns whether this was the last owner, that is, whether
    /// the state is now closed. A closed state takes no further write, and a follower that has seen
    /// all values gets `Closed`.
    pub fn end_as(self, seen: &mut Witness<T, N>) -> bool
        ensures linearized { GoesOn seen.old seen.new }
        ensures closed { result ≡ seen.new.closed }
    {
        let Owner { cell, permit, rt } = self;
        let mut step = cell.core.lock(&rt);
        let ended = step.lend().end_owner(permit);
        step.core().teach(seen);
        let is_closed = step.core().is_closed();
        end_and_wake(step, ended);
        is_closed
    }
}

/// Ends the owner. May wait for the lock.
impl<T: Drop, R: Wait + Drop, N: Protocol<T>> Drop for Owner<T, R, N> {
    fn drop(self) {
        let Owner { cell, permit, rt } = self;
        let mut step = cell.core.lock(&rt);
        let ended = step.lend().end_owner(permit);
        end_and_wake(step, ended);
    }
}
