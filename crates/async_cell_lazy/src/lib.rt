//! A value that threads share. The first caller makes it, and may fail.
#![tactic(auto)]

ghost use Rattle.std.specs.Prelude.{◌≡◌, ⊤, Ok, Err, IfErr, IfOk, IfSome, IsOk};
ghost use Rattle.async_cell_model.specs.Refusal.{FailsWithMemory, FailsWithMemoryOrClosed, IsOwnerRefusal};
ghost use Rattle.async_cell_step.specs.Rule.{IsCloneOfOne};
ghost use Rattle.async_cell_sync.specs.Owned.{cell_owned};

pub use async_cell_sync::{Refusal, Rule};
use async_cell_sync::{Owner, Ruled};
use futures::executor::block_on;
use std::alloc::{AllocError, AllocGlobal, Global};
use std::marker::PhantomData;
use std::random::RandomSource;
use std::sync::Wait;

/// As the rule of a `Lazy`, `NoRule` says nothing of the value.
pub struct NoRule;

impl<T> Rule<T> for NoRule {
    ghost holds = { λ _. ⊤ };
}

/// The rule of a content that is the value, which satisfies `P`, or `None`.
struct IfMade<P>(PhantomData<P>);

impl<T, P: Rule<T>> Rule<Option<T>> for IfMade<P> {
    ghost holds = { λ content. IfSome content P.holds };
}

/// A value that is made when it is first asked for, by a call that may fail. It is made once, and
/// each caller gets a clone. It satisfies the rule `P`. To share it, call `another()?`.
///
/// **Dropping a `Lazy` may wait for the lock**, as dropping an `Owner` may.
#[derive(Drop)]
#[derive_where(Debug)]
pub struct Lazy<T: Drop, R: Wait + Drop, P: Rule<T> = NoRule> {
    /// Holds the value, or `None` while nobody makes it. Is empty while a caller makes it.
    #[derive_where(skip)]
    cell: Owner<Option<T>, R, Ruled<IfMade<P>>>,
    #[derive_where(skip)]
    rt: R,
}

impl<T: Drop, R: Wait + Copy> Lazy<T, R> {
    /// Makes a `Lazy` whose value is not made yet. Fails with `Memory` if there is no memory.
    pub fn new(alloc: Global, rt: R) -> Result<Self, Refusal>
        ensures refused { FailsWithMemory result }
    {
        Lazy::ruled(alloc, rt)
    }
}

impl<T: Drop, R: Wait + Copy, P: Rule<T>> Lazy<T, R, P> {
    /// As `new`, but the value satisfies the rule `P`. For example, if the rule is `Even`, write
    /// `Lazy::<u64, _, Even>::ruled(rt.alloc(), rt)?`.
    pub fn ruled(alloc: Global, rt: R) -> Result<Self, Refusal>
        ensures refused { FailsWithMemory result }
    {
        let cell = Owner::ruled_with(alloc, None, rt)?;
        Ok(Lazy { cell, rt })
    }

    /// Returns one more `Lazy` of the same value. Use this in place of `clone`. Fails as
    /// `Owner::another` does.
    pub fn another(&self) -> Result<Self, Refusal>
        ensures of_this { IfOk result (λ lazy. cell_owned lazy.cell ≡ cell_owned self.now.cell) }
        ensures refused { IfErr result IsOwnerRefusal }
    {
        let cell = self.cell.another()?;
        Ok(Lazy { cell, rt: self.rt })
    }

    /// Returns a clone of the value, if it is made. Does not wait for a caller that makes it. Fails
    /// with `Memory` if the clone fails.
    pub fn try_get(&self) -> Result<Option<T>, Refusal>
    where
        T: Clone,
        ensures rule { IfOk result (λ found. IfSome found (IsCloneOfOne T.is_clone P.holds)) }
        ensures if_infallible { ((value : T) → T.is_infallible value) → IsOk result }
        ensures refused { FailsWithMemory result }
    {
        Ok(self.cell.try_get()?.flatten())
    }
}

impl<T: Clone, R: Wait + Copy + AllocGlobal + RandomSource, P: Rule<T>> Lazy<T, R, P> {
    /// Returns a clone of the value. If it is not made yet, the first caller makes it by `make`,
    /// outside the lock, and the others block their threads until it is made. If `make` fails, its
    /// caller gets the error, as `Ok(Err(..))`, and one of those that wait calls its own `make`.
    ///
    /// **This call blocks the thread, so never make it in a task.** A `make` that calls the same
    /// `Lazy` waits forever. Fails with `Memory` if there is no memory to wait, or for the clone,
    /// or no random number for `block_on`. A value that was made stays. `Closed` is in the
    /// contract, but cannot happen.
    ///
    /// ```rust
    /// let limit = Lazy::new(rt.alloc(), rt)?;
    /// let failed = limit.get_or_try_init(|| "x".parse::<u32>())?;
    /// println!(rt; "{}", failed.is_err())?; // prints true
    /// println!(rt; "{:?}", limit.get_or_try_init(|| "7".parse::<u32>())?)?; // prints Ok(7)
    /// ```
    pub fn get_or_try_init<F: FnOnce() -> Result<T, E> + Drop, E>(
        &self,
        make: F,
    ) -> Result<Result<T, E>, Refusal>
        requires callable { F.pre make }
        requires rule { (value : T) → F.post make (Ok value) → P.holds value }
        ensures rule { IfOk result (λ made. IfOk made (IsCloneOfOne T.is_clone P.holds)) }
        ensures error { IfOk result (λ made. IfErr made (λ why. F.post make (Err why))) }
        ensures refused { FailsWithMemoryOrClosed result }
    {
        if let Some(made) = self.wait_or_begin()? {
            return Ok(Ok(made));
        }
        let turn = self.cell.guard(None); // Its drop lets another caller make the value.
        let made = match make() {
            Ok(made) => made,
            Err(why) => return Ok(Err(why)),
        };
        let copy: Result<T, AllocError> = made.clone();
        turn.set(Some(made));
        Ok(Ok(copy?))
    }

    /// Returns a clone of the value, once it is made. Returns `None` if this caller is to make it:
    /// then the cell is empty.
    fn wait_or_begin(&self) -> Result<Option<T>, Refusal>
        ensures rule { IfOk result (λ found. IfSome found (IsCloneOfOne T.is_clone P.holds)) }
        ensures refused { FailsWithMemoryOrClosed result }
    {
        let rt = self.rt;
        for _ in rt.forever() {
            let found = self.try_get()?;
            if found.is_some() || self.begins() {
                return Ok(found);
            }
            block_on(&rt, self.cell.get()).map_err(|_| Refusal::Memory)??;
        }
        unreachable!()
    }

    /// Empties the cell if nobody makes the value and there is none. Returns whether it did.
    fn begins(&self) -> bool {
        let mut begins = false;
        self.cell.update(|content| match content {
            Some(None) => {
                begins = true;
                None
            }
            other => other,
        });
        begins
    }
}
