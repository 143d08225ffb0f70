//! One call on the core, as a history stores it.
ghost use Rattle.std.specs.Prelude.{◌≡◌, true, false, IfOk, OnErr};
ghost use Rattle.async_cell_model.specs.Machine.{content, is_memory, Does};
ghost use Rattle.async_cell_model.specs.declared.cell.Cell.{Cell};
ghost use Rattle.async_cell_runs.specs.Kept.{kept_call};
ghost use Rattle.async_cell_wakers.specs.Named.{same_name};
ghost use Rattle.async_cell_recorded.specs.Answering.{kept_after};

use crate::{Call, Edit, Kept, Named, Plain, Refusal, Reply, Wakers};
use async_cell_core::{Answer, Core};
use async_cell_runs::step_copied;
use std::alloc::AllocError;

/// Returns a call on a cell with this content as a history stores it, if an update leaves the
/// content as it is.
fn keep<T: Copy, E>(call: &Call<T, Named, E>, saw: Option<T>) -> Kept<T>
    ensures { (cell : Cell T) → saw ≡ content cell
        → result ≡ kept_call (λ _ c. c) (λ _ v. v) cell call.now }
{
    match call {
        Call::Set(value) => Kept::Set(*value),
        Call::OrSet(value) => Kept::OrSet(*value),
        Call::Replace(value) => Kept::Replace(*value),
        Call::Update(_) => Kept::Update { saw, put: saw },
        Call::UpdateSome(_) => Kept::UpdateSome { saw, put: saw },
        Call::TryTake => Kept::TryTake,
        Call::TryGet => Kept::TryGet,
        Call::IsSet => Kept::IsSet,
        Call::PollTake(waker) => Kept::PollTake(*waker),
        Call::PollGet(waker) => Kept::PollGet(*waker),
        Call::AddOwner => Kept::AddOwner,
        Call::EndOwner => Kept::EndOwner,
        Call::TakeInner => Kept::TakeInner,
    }
}

/// Returns the same call, after it left this content.
fn answered<T: Copy>(kept: Kept<T>, put: Option<T>) -> Kept<T>
    ensures { result ≡ kept_after kept put }
{
    match kept {
        Kept::Update { saw, .. } => Kept::Update { saw, put },
        Kept::UpdateSome { saw, .. } => Kept::UpdateSome { saw, put },
        kept => kept,
    }
}

/// Makes the call. Returns it with its reply, and the wakers that the caller must wake. Fails if
/// the core refuses a poll because there is no memory.
#[tactic(auto, using(crate::proofs::Histories::refused_unchanged, crate::proofs::Histories::kept_made))]
pub(crate) fn make<T: Copy, E: Edit<T> + Drop>(
    core: &mut Core<T, Named>,
    call: Call<T, Named, E>,
) -> Result<(Plain<T>, Wakers<Named>), AllocError>
    ensures kept { IfOk result (λ made.
        made.0.call ≡ kept_call E.edit E.edit_some core.old.cell call) }
    ensures model { IfOk result (λ made.
        Does same_name true core.old (record { call = made.0.call; reply = made.0.reply })
        made.1 core.new) }
    ensures answered { IfOk result (λ made. is_memory made.0.reply ≡ false) }
    ensures unchanged { OnErr result
        ((core.new.cell ≡ core.old.cell) × (core.new.waiting ≡ core.old.waiting)) }
{
    let kept = keep(&call, core.try_get_copied());
    let Answer { reply, woken } = step_copied(core, call);
    if let Reply::Refused(Refusal::Memory, _) = reply {
        return Err(AllocError);
    }
    let call = answered(kept, core.try_get_copied());
    Ok((Plain { call, reply }, woken))
}
