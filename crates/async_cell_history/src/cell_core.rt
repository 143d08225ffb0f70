//! The calls that a step may make on a core. Only this module and `ops` see the core. Each function
//! makes one call of the core, and holds what comes out in a `Deferred` until the step ends.
ghost use Rattle.std.specs.Prelude.{◌≡◌, [], Some, None, IfErr, IfOk, IfSome, IsSomeAnd};
ghost use Rattle.std.specs.Fn.{FnOnceReturnsAt};
ghost use Rattle.async_cell_model.specs.Machine.{content, is_vacant, IsSound};
ghost use Rattle.async_cell_history.specs.History.{Fits, Leads, Made, permits_of};
ghost use Rattle.async_cell_model.specs.Refusal.{FailsWithMemory};

mod owners;
mod room;
mod writes;

use crate::op::RunsOp;
use crate::{Before, Blank, Op, Opened, OwnerPermit, Past, Protocol, Signs, Unruled, Witness};
use async_cell_core::{Core, Refusal, Wakes};
use async_cell_step::Deferred;
use std::alloc::Global;
use std::fmt;
use std::marker::{Model, PhantomData};

/// The core of a cell, with its history. A `CellCore` hides the core's own calls, because what
/// these calls return could be woken or dropped during a step.
#[derive(Drop)]
pub struct CellCore<T, W: Wakes, N: Protocol<T, W> = Unruled> {
    inner: Core<T, W>,
    pub(crate) past: Past<T, W, N>,
}

/// Contracts see the state of the core, and the past that led to it. The value satisfies the rule.
impl<T, W: Wakes, N: Protocol<T, W>> Model for CellCore<T, W, N> {
    ghost use Rattle.std.specs.Prelude.{◌≡◌};
    ghost use Rattle.async_cell_model.specs.Machine.{owners_of};
    ghost use Rattle.async_cell_history.specs.History.{Logged, Leads};

    ghost Value = { Logged T W };

    ghost view = { λ c. record { inner = c.inner; past = c.past } };

    ghost invariant = { λ c. Leads W.will_wake W.SURE_CLONE N.holds c.past c.inner
        × (c.past.out ≡ owners_of c.inner.cell) };
}

impl<T: Drop, W: Wakes, N: Protocol<T, W>> CellCore<T, W, N> {
    /// Wraps the core of a cell that no witness sees, whatever the core's state.
    pub fn of(core: Core<T, W>) -> Self
        requires nameless { N.named ≡ None }
        requires rule { IfSome (content core.cell) N.holds }
    {
        let opened = Opened::of(&core);
        CellCore::begin(core, opened)
    }

    /// Wraps the core, together with `opened`, the history that begins with this core.
    #[inline(always)]
    pub(crate) fn begin(core: Core<T, W>, opened: Opened<T, W>) -> Self
        requires named { Fits N.named opened }
        requires counted { opened.permits ≡ permits_of N.named }
        requires begins { opened.start ≡ core }
        requires rule { IfSome (content core.cell) N.holds }
        ensures begun { result.past.begun ≡ opened }
        ensures empty { result.past.calls ≡ [] }
    {
        core.soundness();
        let Opened { log, start, count } = opened;
        let past = Past {
            log,
            of: PhantomData,
            start,
            count,
        };
        CellCore { inner: core, past }
    }

    /// Wraps the core of a blank. Also returns the first witness of its history, and the permit of
    /// its owner.
    pub fn of_blank(blank: Blank<T, W>) -> (Self, Witness<T, W, N>, OwnerPermit<T, W, N>)
        requires named { N.named ≡ Some blank }
        requires rule { IfSome (content blank.start.cell) N.holds }
        ensures new { result.1.calls ≡ [] }
        ensures nobody { result.1.author ≡ 0 }
        ensures none_made { result.1.own ≡ 0 }
    {
        let (core, opened, permit) = blank.into_parts();
        let core = CellCore::begin(core, opened);
        let witness = Witness::of(&core.past);
        (core, witness, OwnerPermit::of(permit))
    }

    /// Returns the core. The contract of this function states that the core is sound, and that the
    /// core's value satisfies the rule.
    pub fn into_core(self) -> Core<T, W>
        ensures sound { IsSound W.will_wake result }
        ensures rule { IfSome (content result.cell) N.holds }
    {
        let CellCore { inner, past: _ } = self;
        inner.soundness();
        inner
    }

    /// Does nothing. Its contract states that the state of every core is sound.
    #[inline(always)]
    pub fn soundness(&self)
        ensures { IsSound W.will_wake self.now.inner }
    {
        self.inner.soundness();
    }

    /// Makes a call, and adds the call's entry to the history. The entry is signed by `by`.
    #[inline(always)]
    pub fn make<O: Op<T, W, N>, B: Signs>(&mut self, op: O, by: &B) -> Deferred<O::Answer, O::After>
        requires can { O.can op }
        ensures made { Made W.will_wake W.SURE_CLONE self.old
            (O.call self.old.inner op self.new.inner) (O.reply self.old.inner result.answer)
            (O.After.wakes result.woken) (B.number by.now) self.new }
        ensures gives { O.gives self.old.inner op result.answer self.new.inner }
        ensures leaves { O.leaves self.old.inner op result.woken }
    {
        let before = Before::of(&self.inner, &op);
        let held = op.make(&mut self.inner);
        before.enter::<RunsOp<N, O>, _, _, _>(&mut self.past, &held, &self.inner, by);
        held
    }

    /// As `make`, but on the fast path of the call. If the call cannot take that path, returns the
    /// call.
    #[inline(always)]
    pub fn fast<O: Op<T, W, N>, B: Signs>(
        &mut self,
        op: O,
        by: &B,
    ) -> Result<Deferred<O::Answer, O::FastAfter>, O>
        requires can { O.can op }
        ensures made { IfOk result (λ held. Made W.will_wake W.SURE_CLONE self.old
            (O.call self.old.inner op self.new.inner) (O.reply self.old.inner held.answer)
            (O.FastAfter.wakes held.woken) (B.number by.now) self.new) }
        ensures gives { IfOk result (λ held.
            O.gives self.old.inner op held.answer self.new.inner) }
        ensures leaves { IfOk result (λ held. O.leaves_fast self.old.inner op held.woken) }
        ensures comes_back { IfErr result (λ back. back ≡ op) }
    {
        let before = Before::of(&self.inner, &op);
        let held = match op.fast(&mut self.inner) {
            Ok(held) => held,
            Err(op) => return Err(op),
        };
        before.enter::<RunsOp<N, O>, _, _, _>(&mut self.past, &held, &self.inner, by);
        Ok(held)
    }

    /// Returns whether there is a value.
    #[inline(always)]
    pub fn is_set(&self) -> bool {
        self.inner.is_set()
    }

    /// Returns whether the cell is open and has no value, so that a poll would wait.
    #[inline(always)]
    pub fn is_vacant(&self) -> bool
        ensures { result ≡ is_vacant self.now.inner.cell }
    {
        self.inner.is_vacant()
    }

    /// Returns the number of owners, which is 0 for a closed cell.
    #[inline(always)]
    pub fn owners(&self) -> u32 {
        self.inner.owners()
    }

    /// Returns how many wakers wait.
    #[inline(always)]
    pub fn waiting(&self) -> usize {
        self.inner.waiting()
    }

    /// Returns whether waking all waiters would wake no task (see `Wakes::wakes_nobody`).
    #[inline(always)]
    pub fn wakes_nobody(&self) -> bool {
        self.inner.wakes_nobody()
    }

    /// Calls the closure on the value, and returns the closure's result. If there is no value,
    /// returns the closure in the error.
    #[inline(always)]
    #[tactic(auto, using(crate::proofs::Found::found_and))]
    pub fn peek<A, F: FnOnce(&T) -> A>(&self, look: F) -> Deferred<Result<A, F>>
        requires { F.IsAlwaysCallable look }
        ensures called { IfOk result.answer (λ answer. IsSomeAnd (content self.now.inner.cell)
            (λ seen. FnOnceReturnsAt F.FnOnce look seen answer)) }
        ensures rule { IfSome (content self.now.inner.cell) N.holds }
        ensures both { IfOk result.answer (λ answer. (seen : T)
            × N.holds seen × FnOnceReturnsAt F.FnOnce look seen answer) }
    {
        Deferred::of(self.inner.peek(look))
    }

    /// Returns the core's `Debug` text. Fails with `Memory` if there is no memory for the text.
    pub fn debug_text(&self, alloc: Global) -> Deferred<Result<String, Refusal>>
    where
        T: fmt::Debug,
        ensures refused { FailsWithMemory result.answer }
    {
        match format!(in alloc; "{:?}", &self.inner) {
            Ok(text) => Deferred::of(Ok(text)),
            Err(why) => Deferred::of(Err(why.into())),
        }
    }

    /// Makes room for more wakers. Fails with `Memory` if there is no memory for this room.
    #[inline(always)]
    pub fn reserve(&mut self, additional: usize) -> Deferred<Result<(), Refusal>>
        ensures refused { FailsWithMemory result.answer }
    {
        Deferred::of(self.inner.reserve(additional))
    }
}
