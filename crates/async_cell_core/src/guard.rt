//! The end of a guard. It writes the cancel value, unless the guard was released.
ghost use Rattle.std.specs.Prelude.{◌≡◌, [], true, IfSome, IfNone, if◌then◌else◌, None};
ghost use Rattle.async_cell_model.specs.Machine.{is_vacant};
ghost use Rattle.async_cell_core.specs.IsStep.{IsStep, end_guard_answer};

use crate::{Core, Wakers, Wakes};
use async_cell_model::Kept;

/// Ends a guard of this cell. `cancel` is its cancel value, or `None` if the guard was released. An
/// unreleased guard makes one `or_set` of its cancel value. A released one makes no call.
///
/// Returns the waiting wakers, to be woken by the caller. Also returns the cancel value, if it was
/// not used because the cell holds a value or is closed. Needs no memory, and is never refused.
pub fn end_guard<T: Drop, W: Wakes>(
    core: &mut Core<T, W>,
    cancel: Option<T>,
) -> (Option<T>, Wakers<W>)
    ensures unreleased { IfSome cancel (λ value. IsStep W.Wakes
        core.old (Kept.OrSet value) (end_guard_answer core.old.cell result) core.new) }
    ensures released { IfNone cancel ((core.new ≡ core.old) × (result.1 ≡ [])) }

    ensures unused { result.0 ≡ (if is_vacant core.old.cell then None else cancel) }
    ensures hands_out_all { is_vacant core.old.cell ≡ true
        → IfSome cancel (λ value. result.1 ≡ core.old.waiting) }
{
    let Some(value) = cancel else {
        return (None, Wakers::none());
    };
    let written = core.or_set(value);
    match written {
        Ok(answer) => answer,
        Err(back) => (Some(back), Wakers::none()),
    }
}
