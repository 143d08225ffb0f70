//! Lists of calls, made in order.
ghost use Rattle.std.specs.Prelude.{◌≡◌, map, vec_len, true, false, [], IfOk, IfErr, IfSome, OnErr, IsOk};
ghost use Rattle.std.specs.List.{list_any};
ghost use Rattle.async_cell_model.specs.{Machine.{content, is_vacant, is_memory}, Legal.{Runs, RunsUpTo, is_refused}};
ghost use Rattle.async_cell_core.specs.{IsStep.{IsStep, IsStepUpTo}, Polled.{IsCopied, IsExact}};
ghost use Rattle.async_cell_runs.specs.Kept.{is_get, is_poll, kept_call, history_of, GetsAreCopied};

use crate::answers;
use crate::call::{Call, Edit};
use async_cell_core::{Answer, Core, Reply, Wakes};
use std::alloc::Global;

/// Makes one call that is no get, so it does not copy the value. Its clause `no_get` repeats what
/// it requires, so that the proof of `step` has it at hand.
fn step_no_get<T: Drop, W: Wakes, E: Edit<T> + Drop>(
    core: &mut Core<T, W>,
    call: Call<T, W, E>,
) -> Answer<T, W>
    requires { is_get call ≡ false }
    ensures no_get { is_get call ≡ false }
    ensures model { IsStep W.Wakes
        core.old (kept_call E.edit E.edit_some core.old.cell call) result core.new }
    ensures unchanged { is_poll call ≡ false → is_refused result.reply ≡ true
        → core.new ≡ core.old }
{
    match call {
        Call::Set(value) => answers::set(core.set(value)),
        Call::OrSet(value) => answers::replaced(core.or_set(value)),
        Call::Replace(value) => answers::replaced(core.replace(value)),
        Call::Update(edit) => answers::updated(core.update(|content| edit.edit(content))),
        Call::UpdateSome(edit) => answers::done(core.update_some(|value| edit.edit_some(value))),
        Call::TryTake => answers::replied(Reply::Value(core.try_take())),
        Call::IsSet => answers::replied(Reply::Is(core.is_set())),
        Call::PollTake(waker) => answers::polled(core.poll_take(&waker)),
        Call::AddOwner => answers::done(core.add_owner()),
        Call::EndOwner => answers::ended(core.end_owner()),
        Call::TakeInner => answers::ended(core.take_inner()),
        Call::TryGet | Call::PollGet(_) => unreachable!(),
    }
}

/// Makes one call. Returns its reply or its refusal, and the wakers, to be woken by the caller.
///
/// The reply equals the model's reply up to clones: a get of a full cell may return a clone of the
/// value. The reply is exactly the model's if the call is not a get, or if the type's clones are
/// exact.
pub fn step<T: Clone, W: Wakes, E: Edit<T> + Drop>(
    core: &mut Core<T, W>,
    call: Call<T, W, E>,
) -> Answer<T, W>
    ensures up_to_clones { IsStepUpTo T.is_clone W.Wakes
        core.old (kept_call E.edit E.edit_some core.old.cell call) result core.new }
    ensures if_no_get { is_get call ≡ false
        → IsStep W.Wakes
        core.old (kept_call E.edit E.edit_some core.old.cell call) result core.new }
    ensures if_exact { IsExact T.is_clone
        → IsStep W.Wakes
        core.old (kept_call E.edit E.edit_some core.old.cell call) result core.new }
    ensures copies { is_get call ≡ true → IfSome (content core.old.cell) (λ value.
        IsCopied T.is_clone T.is_infallible value result.reply) }
    ensures unchanged { is_poll call ≡ false → is_refused result.reply ≡ true
        → core.new ≡ core.old }
{
    match call {
        Call::TryGet => answers::got(core.try_get()),
        Call::PollGet(waker) => answers::polled(core.poll_get(&waker)),
        call => step_no_get(core, call),
    }
}

/// Makes one call on a cell of `Copy` values, which are copied and not cloned. The reply is exactly
/// the model's.
pub fn step_copied<T: Copy, W: Wakes, E: Edit<T> + Drop>(
    core: &mut Core<T, W>,
    call: Call<T, W, E>,
) -> Answer<T, W>
    ensures model { IsStep W.Wakes
        core.old (kept_call E.edit E.edit_some core.old.cell call) result core.new }
    ensures if_infallible { is_get call ≡ true → is_vacant core.old.cell ≡ false
        → is_memory result.reply ≡ false }
{
    match call {
        Call::TryGet => answers::replied(Reply::Value(core.try_get_copied())),
        Call::PollGet(waker) => answers::polled(core.poll_get_copied(&waker)),
        call => step_no_get(core, call),
    }
}

/// Makes the calls in order, and returns one answer for each. The reply of a refused call is its
/// refusal, and the calls after it are still made. The memory for the answers is allocated first:
/// if there is none, no call is made and the list is returned in the error. An empty list is never
/// refused.
///
/// For every type, the replies equal the model's replies up to clones: a get of a full cell may
/// return a clone of the value. They are exactly the model's if the list has no get. If the list
/// has a get, they are still exactly the model's if the type's clones are exact. This follows from
/// `up_to_clones` and the law `with_exact_clones_a_history_is_exact` of `async_cell_model`.
pub fn run<T: Clone, W: Wakes, E: Edit<T> + Drop>(
    core: &mut Core<T, W>,
    calls: Vec<Call<T, W, E>>,
) -> Result<Vec<Answer<T, W>>, Vec<Call<T, W, E>>>
    ensures one_each { IfOk result (λ answers. vec_len answers ≡ vec_len calls) }
    ensures up_to_clones { IfOk result (λ answers.
        RunsUpTo W.will_wake W.SURE_CLONE T.is_clone core.old
        (history_of E.edit E.edit_some core.old.cell calls.items (map (λ a. a.reply) answers.items))
        (map (λ a. a.woken) answers.items) core.new) }
    ensures if_no_get { list_any is_get calls.items ≡ false → IfOk result (λ answers.
        Runs W.will_wake W.SURE_CLONE core.old
        (history_of E.edit E.edit_some core.old.cell calls.items (map (λ a. a.reply) answers.items))
        (map (λ a. a.woken) answers.items) core.new) }
    ensures copies { IfOk result (λ answers. GetsAreCopied T.is_clone T.is_infallible core.old.cell
        (history_of E.edit E.edit_some core.old.cell
        calls.items (map (λ a. a.reply) answers.items))) }
    ensures empty_is_ok { calls.items ≡ [] → IsOk result }
    ensures comes_back { IfErr result (λ back. back ≡ calls) }
    ensures unchanged { OnErr result (core.new ≡ core.old) }
{
    core.soundness(); // For the proof: the calls start from a sound state.
    let mut answers = Vec::new(*calls.allocator());
    if answers.reserve_exact(calls.len()).is_err() {
        return Err(calls);
    }
    for call in calls {
        answers.push_reserved(step(core, call));
    }
    Ok(answers)
}
