//! The poll of many futures, and their outputs by place.
ghost use Rattle.std.specs.Prelude.{◌≡◌, All, IfNone, IfOk, IsFalse, IsSome, None, length, replicate};
ghost use Rattle.futures.specs.Poll.{IfReady, OnPending};
ghost use Rattle.futures.specs.Task.{IsArmed, Keeps};
ghost use Rattle.async_cell_within.specs.Each.{EachFills, EachLate, Fills};

use futures::future::Future;
use futures::ready;
use futures::task::{Context, Poll};
use std::alloc::{AllocError, Global};

/// A place for the output of each of so many futures.
pub fn no_outputs<T: Drop>(alloc: Global, count: usize) -> Result<Vec<Option<T>>, AllocError>
    ensures { IfOk result (λ outputs. outputs.items ≡ replicate count None) }
{
    let mut outputs = Vec::with_capacity(alloc, count)?;
    for _ in 0..count {
        outputs.push(None)?;
    }
    Ok(outputs)
}

/// Whether a place has an output.
pub fn has_output<T>(outputs: &[Option<T>]) -> bool
    ensures { IsFalse result → All (λ output. output ≡ None) outputs.now }
{
    outputs.iter().any(|output| output.is_some())
}

/// Polls the future if it has no output. It is ready if the future has an output then.
fn poll_one<F: Future<Output: Drop>>(
    future: &mut F,
    output: &mut Option<F::Output>,
    cx: &mut Context<'_>,
) -> Poll<()>
    requires { IfNone output.old (F.can_poll future.old) }
    ensures ready { IfReady result (λ _. IsSome output.new) }
    ensures fills { Fills F.can_poll F.gives future.old output.old future.new output.new }
    ensures armed { OnPending result (IsArmed cx.new) }
    ensures kept { Keeps cx.old cx.new }
{
    if output.is_none() {
        *output = Some(ready!(future.poll(cx)));
    }
    Poll::Ready(())
}

/// Polls each future that has no output. It is ready if each future has an output then.
#[tactic(auto, using(crate::proofs::Fills::each_stays, crate::proofs::Fills::each_late, crate::proofs::Fills::each_set, crate::proofs::Fills::ready_to_next))]
pub fn poll_each<F: Future<Output: Drop>>(
    futures: &mut [F],
    outputs: &mut Vec<Option<F::Output>>,
    cx: &mut Context<'_>,
) -> Poll<()>
    requires length { length outputs.old.items ≡ length futures.old }
    requires late { EachLate F.can_poll futures.old outputs.old.items }
    ensures ready { IfReady result (λ _. All IsSome outputs.new.items) }
    ensures fills { EachFills F.can_poll F.gives
        futures.old outputs.old.items futures.new outputs.new.items }
    ensures armed { OnPending result (IsArmed cx.new) }
{
    let mut polled = Poll::Ready(());
    for at in 0..futures.len() {
        if poll_one(&mut futures[at], &mut outputs[at], cx).is_pending() {
            polled = Poll::Pending;
        }
    }
    polled
}
