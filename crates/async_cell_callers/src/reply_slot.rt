//! A slot for the reply to one request.
ghost use Rattle.std.specs.Prelude.{◌≡◌, [], ◌∷◌, ◌++◌, Some, None, Ok, IfOk, OnOk, OnErr, IsOk, true, false};
ghost use Rattle.async_cell_wakers.specs.Named.{same_name};
ghost use Rattle.async_cell_model.specs.Machine.{content, is_closed, is_vacant, wait_list};

use async_cell_core::{Core, Named, Poll, Refusal, Wakers};
use std::alloc::Global;

/// A slot where a worker leaves the reply that an asker waits for.
#[derive(Drop)]
pub struct ReplySlot {
    core: Core<u64, Named>,
    /// A slot is never closed.
    ghost stays_open: { is_closed core.cell ≡ false },
}

impl ReplySlot {
    /// Creates an empty slot. Nobody waits on it.
    pub fn new(alloc: Global) -> Self
        ensures empty { content result.core.cell ≡ None }
        ensures nobody_waits { result.core.waiting ≡ [] }
    {
        ReplySlot {
            core: Core::new(alloc),
        }
    }

    /// Takes the reply, or registers the asker to wait for it. Fails with `Memory` if there is no
    /// memory to register the asker; the first asker to wait is never refused.
    pub fn ask(&mut self, asker: u64) -> Result<Poll<Option<u64>>, Refusal>
        ensures gives { is_vacant self.old.core.cell ≡ false
            → result ≡ Ok (Poll.Ready (content self.old.core.cell)) }
        ensures once { OnOk result (content self.new.core.cell ≡ None) }
        ensures waits { is_vacant self.old.core.cell ≡ true → IfOk result (λ polled.
            (polled ≡ Poll.Pending)
            × (self.new.core.waiting ≡ wait_list same_name
            (self.old.core.waiting ++ record { 0 = asker } ∷ []))) }
        ensures first_waits { self.old.core.waiting ≡ [] → IsOk result }
        ensures unchanged { OnErr result ((self.new.core.cell ≡ self.old.core.cell)
            × (self.new.core.waiting ≡ self.old.core.waiting)) }
    {
        self.core.poll_take(&Named(asker))
    }

    /// Leaves the reply, and returns all waiting wakers, to be woken by the caller.
    pub fn answer(&mut self, reply: u64) -> Wakers<Named>
        ensures holds { content self.new.core.cell ≡ Some reply }
        ensures to_wake { result ≡ self.old.core.waiting }
        ensures nobody_waits { self.new.core.waiting ≡ [] }
    {
        match self.core.set(reply) {
            Ok(woken) => woken,
            Err(_) => unreachable!(),
        }
    }
}

/// The outcome of a request.
#[derive(Drop)]
pub struct Answered {
    /// The wakers that the worker has to wake.
    pub woken: Wakers<Named>,
    /// The reply that the asker got when it next asked.
    pub first: Option<u64>,
    /// The reply that it got when it asked once more.
    pub second: Option<u64>,
}

/// The first to ask is to be woken when the reply comes, and takes it when it next asks. When it
/// asks once more, there is none.
pub fn is_answered_once(alloc: Global, reply: u64) -> Answered
    ensures woken { result.woken ≡ record { 0 = 7 } ∷ [] }
    ensures first { result.first ≡ Some reply }
    ensures second { result.second ≡ None }
{
    let mut slot = ReplySlot::new(alloc);
    let _ = slot.ask(7);
    Answered {
        woken: slot.answer(reply),
        first: match slot.ask(7) {
            Ok(Poll::Ready(reply)) => reply,
            _ => None,
        },
        second: match slot.ask(7) {
            Ok(Poll::Ready(reply)) => reply,
            _ => None,
        },
    }
}
