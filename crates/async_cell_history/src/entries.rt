//! Says, for each call of the core, which call of the model it is, and which reply it got.
ghost use Rattle.std.specs.Prelude.{[], Some, None, Ok};
ghost use Rattle.async_cell_model.specs.declared.entry.Kept.TheVariants as kept;
ghost use Rattle.async_cell_model.specs.declared.reply.Reply.TheVariants as reply;
ghost use Rattle.async_cell_wakers.specs.WaitList.{first_then};
ghost use Rattle.async_cell_core.specs.IsStep.{done_answer, end_answer, replace_answer, replies};

use super::Enters;
use async_cell_core::{Refusal, Wakers};

/// A future begins to wait. The call is a `PollGet`, which takes no value, and its reply is
/// `Pending`.
pub(crate) struct Waits;

impl<T, W> Enters<W, (), T, W> for Waits {
    ghost call = { λ _ waker _. kept.PollGet waker };

    ghost answer = { λ _ _. replies reply.Pending };
}

/// An `add_owner`.
pub(crate) struct AddsOwner;

impl<T, W> Enters<(), Result<(), Refusal>, T, W> for AddsOwner {
    ghost call = { λ _ _ _. kept.AddOwner };

    ghost answer = { λ _ added. done_answer added };
}

/// The end of an owner, by `end_other`, `close_first` or `end_owner`.
pub(crate) struct EndsOwner;

impl<T, W> Enters<(), (), T, W> for EndsOwner {
    ghost call = { λ _ _ _. kept.EndOwner };

    ghost answer = { λ _ _. end_answer (Ok (None, [])) };
}

impl<T, W> Enters<(), (Option<T>, Option<W>), T, W> for EndsOwner {
    ghost call = { λ _ _ _. kept.EndOwner };

    ghost answer = { λ _ closed. end_answer (Ok (closed.0, first_then closed.1 [])) };
}

impl<T, W> Enters<(), Result<(Option<T>, Wakers<W>), Refusal>, T, W> for EndsOwner {
    ghost call = { λ _ _ _. kept.EndOwner };

    ghost answer = { λ _ ended. end_answer ended };
}

/// A `take_inner`.
pub(crate) struct TakesInner;

impl<T, W> Enters<(), Result<(Option<T>, Wakers<W>), Refusal>, T, W> for TakesInner {
    ghost call = { λ _ _ _. kept.TakeInner };

    ghost answer = { λ _ taken. end_answer taken };
}

/// A `replace` of a full cell.
pub(crate) struct Overwrites;

impl<T, W> Enters<T, T, T, W> for Overwrites {
    ghost call = { λ _ value _. kept.Replace value };

    ghost answer = { λ _ old. replace_answer (Ok (Some old, [])) };
}

/// A `replace` of a vacant cell. The call wakes at most one waker.
pub(crate) struct FillsFirst;

impl<T, W> Enters<T, Option<W>, T, W> for FillsFirst {
    ghost call = { λ _ value _. kept.Replace value };

    ghost answer = { λ _ first. replace_answer (Ok (None, first_then first [])) };
}
