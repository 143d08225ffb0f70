ghost use Rattle.std.specs.Prelude.{◌≡◌, length, IsOk, IfOk, OnOk, OnErr};
ghost use Rattle.std.specs.{Arc.arc_value, Fn.FnOnceReturnsAt};
ghost use Rattle.async_cell_model.specs.Refusal.{FailsWithMemory};
ghost use Rattle.async_cell_step.specs.Rule.{IsCloneOfOne};
ghost use Rattle.async_cell_latest_sync.specs.{Life.IsShown, Names.cell_followed};

use crate::cell::LatestCell;
use crate::{Changed, Protocol, Refusal, States, Unruled, WaitFor, Witness};
use async_cell_latest::Place;
use async_cell_step::{Step, end};
use std::alloc::AllocError;
use std::sync::{Arc, Wait};

/// One follower of a state, with the right to wait for its lock. The follower knows which version
/// of the state it has seen, and waits for a later version. The follower is no owner.
/// `Owner::follow` makes a follower. A clone of a follower is another follower.
///
/// A follower need not see each state: when it looks, it sees only the last state that was written.
/// A new follower has seen the current state, and is shown what is written later. When the last
/// owner ends, the last state that was written stays, so no follower misses that state.
///
/// The drop of a follower takes no lock. Dropping a future that it made may wait for the lock.
#[derive(Drop)]
#[derive_where(Debug)]
pub struct Follower<T: Drop, R, N: Protocol<T> = Unruled> {
    #[derive_where(skip)]
    pub(crate) cell: Arc<LatestCell<T, N>>,
    /// The version that the follower has seen, or 0 if the follower has seen none.
    #[derive_where(skip)]
    pub(crate) seen: u64,
    #[derive_where(skip)]
    pub(crate) rt: R,
}

impl<T: Drop, R: Wait + Drop, N: Protocol<T>> Follower<T, R, N> {
    /// Makes a follower that has seen the current state.
    pub(crate) fn new(cell: Arc<LatestCell<T, N>>, rt: R) -> Self
        ensures of_this { cell_followed result ≡ arc_value cell }
    {
        let seen = cell.version(&rt);
        Follower { cell, seen, rt }
    }

    /// Returns a future that is ready once there is a state that this follower has not seen. The
    /// future then marks this state as seen. The future fails with `Closed` once the last owner has
    /// ended and the last state was seen. It fails with `Memory` if it has to wait and there is no
    /// memory for that.
    ///
    /// ```rust
    /// let setting = Owner::new(rt.alloc(), 1, rt)?;
    /// let mut follower = setting.follow()?;
    /// thread::spawn(&rt, move || setting.set(2))?.join(&rt);
    /// println!(rt; "{:?}", block_on(&rt, follower.changed())?)?; // prints Ok(())
    /// println!(rt; "{:?}", block_on(&rt, follower.changed())?)?; // prints Err(Closed)
    /// ```
    pub fn changed(&mut self) -> Changed<'_, T, R, N>
        ensures of_this { result.follower.now ≡ self.old }
    {
        Changed {
            follower: self,
            place: Place::new(),
        }
    }

    /// Returns a future that gives a clone of the first state for which the predicate returns
    /// `true`. It looks at the current state, seen or not, and then at later ones, each once. A
    /// state that is overwritten before the future is polled is skipped. The states that it looked
    /// at are marked as seen. The predicate runs while the lock is held. So a predicate waits
    /// forever if it makes a call that takes this lock, such as `set` of an owner.
    ///
    /// The future fails with `Closed` once the last owner has ended and the last state was looked
    /// at. It fails with `Memory` if there is no memory for the clone, or to register the waker. In
    /// that case the state that the failed poll looked at is not marked as seen, and the next poll
    /// looks at that state again.
    ///
    /// ```rust
    /// let setting = Owner::new(rt.alloc(), 1, rt)?;
    /// let mut follower = setting.follow()?;
    /// thread::spawn(&rt, move || setting.set(2))?;
    /// let found = block_on(&rt, follower.wait_for(|value: &u32| *value > 1))?;
    /// println!(rt; "{found:?}")?; // prints Ok(2)
    /// ```
    pub fn wait_for<F: FnMut(&T) -> bool + Drop>(&mut self, predicate: F) -> WaitFor<'_, T, R, F, N>
        ensures of_this { result.follower.now ≡ self.old }
        ensures looks { result.predicate ≡ predicate }
    {
        WaitFor {
            follower: self,
            place: Place::new(),
            predicate,
            looked_at: 0,
        }
    }

    /// Returns a stream of clones of the unseen states. Once the last owner has ended, the stream
    /// ends after the last state.
    ///
    /// ```rust
    /// let setting = Owner::new(rt.alloc(), 1, rt)?;
    /// let mut states = setting.follow()?.states();
    /// thread::spawn(&rt, move || setting.set(2))?;
    /// println!(rt; "{:?}", block_on(&rt, states.next())?)?; // prints Some(Ok(2))
    /// println!(rt; "{:?}", block_on(&rt, states.next())?)?; // prints None
    /// ```
    pub fn states(self) -> States<T, R, N>
        ensures of_this { result.follower ≡ self }
    {
        let follower = self;
        States {
            follower,
            place: Place::new(),
        }
    }

    /// Returns a clone of the last value, and does not mark the value as seen. Fails with `Memory`
    /// if the clone fails.
    pub fn read(&self) -> Result<T, Refusal>
    where
        T: Clone,
        ensures rule { IfOk result (IsCloneOfOne T.is_clone N.holds) }
        ensures if_infallible { ((value : T) → T.is_infallible value) → IsOk result }
        ensures refused { FailsWithMemory result }
    {
        Ok(self.cell.get(&self.rt)?.1)
    }

    /// As `read`, but marks the value as seen, unless the clone fails.
    pub fn read_and_update(&mut self) -> Result<T, Refusal>
    where
        T: Clone,
        ensures rule { IfOk result (IsCloneOfOne T.is_clone N.holds) }
        ensures if_infallible { ((value : T) → T.is_infallible value) → IsOk result }
        ensures refused { FailsWithMemory result }
        ensures unmarked { OnErr result (self.new ≡ self.old) }
        ensures of_this { cell_followed self.new ≡ cell_followed self.old }
    {
        let (version, value) = self.cell.get(&self.rt)?;
        self.seen = version;
        Ok(value)
    }

    /// Calls the closure on the last value, as `Owner::peek` does, and marks nothing.
    pub fn peek<A, F: FnOnce(&T) -> A>(&self, look: F) -> A
        requires { F.IsAlwaysCallable look }
        ensures called { (seen : T) × N.holds seen × FnOnceReturnsAt F.FnOnce look seen result }
    {
        self.cell.peek(look, &self.rt).1
    }

    /// As `peek`, but marks the value as seen.
    pub fn peek_and_update<A, F: FnOnce(&T) -> A>(&mut self, look: F) -> A
        requires { F.IsAlwaysCallable look }
        ensures called { (seen : T) × N.holds seen × FnOnceReturnsAt F.FnOnce look seen result }
        ensures of_this { cell_followed self.new ≡ cell_followed self.old }
    {
        let (version, answer) = self.cell.peek(look, &self.rt);
        self.seen = version;
        answer
    }

    /// Returns whether there is an unseen state. This works after the last owner has ended, too.
    /// Marks nothing.
    pub fn has_changed(&self) -> bool {
        self.cell.version(&self.rt) != self.seen
    }

    /// Returns whether the last owner has ended. If so, the current state is the last one.
    pub fn is_closed(&self) -> bool {
        self.cell.is_closed(&self.rt)
    }

    /// Marks the current state as unseen: `changed` is ready at once, and `states` begins with this
    /// state.
    pub fn mark_changed(&mut self)
        ensures marks { self.new.seen ≡ 0 }
        ensures of_this { cell_followed self.new ≡ cell_followed self.old }
    {
        self.seen = 0;
    }

    /// Marks the current state as seen.
    pub fn mark_unchanged(&mut self)
        ensures of_this { cell_followed self.new ≡ cell_followed self.old }
    {
        self.seen = self.cell.version(&self.rt);
    }
}

impl<T: Clone, R: Wait + Drop, N: Protocol<T>> Follower<T, R, N> {
    /// As `read_and_update`, and the witness then has seen all values so far.
    pub fn read_and_update_as(&mut self, seen: &mut Witness<T, N>) -> Result<T, Refusal>
        ensures linearized { IfOk result (λ copy. IsShown T.is_clone seen.old copy seen.new) }
        ensures marks { OnOk result (self.new.seen ≡ length seen.new.values) }
        ensures rule { IfOk result (IsCloneOfOne T.is_clone N.holds) }
        ensures unmarked { OnErr result ((self.new ≡ self.old) × (seen.new ≡ seen.old)) }
        ensures of_this { cell_followed self.new ≡ cell_followed self.old }
        ensures if_infallible { ((value : T) → T.is_infallible value) → IsOk result }
        ensures refused { FailsWithMemory result }
    {
        let mut now = seen.again();
        let step = self.cell.core.lock(&self.rt);
        step.core().teach(&mut now);
        let copy = step.core().get();
        let (version, value) = end(step, copy)?;
        *seen = now;
        self.seen = version;
        Ok(value)
    }
}

/// A clone follows the same state, and has seen what this follower has seen.
impl<T: Drop, R: Copy, N: Protocol<T>> Clone for Follower<T, R, N> {
    ghost is_clone = { λ follower copy.
        (cell_followed copy ≡ cell_followed follower) × (copy.seen ≡ follower.seen) };

    fn clone(&self) -> Result<Follower<T, R, N>, AllocError> {
        Ok(Follower {
            cell: Arc::try_clone(&self.cell)?,
            seen: self.seen,
            rt: self.rt,
        })
    }
}
