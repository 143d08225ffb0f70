//! The answers that stand for the results of a `Core`'s calls.
ghost use Rattle.std.specs.Prelude.{◌≡◌, []};
ghost use Rattle.async_cell_core.specs.{IsStep.{done_answer, end_answer, get_answer, replace_answer, set_answer, update_answer}, Polled.poll_reply};

use async_cell_core::{Answer, Poll, Refusal, Reply, Wakers};

/// An answer with this reply and these wakers.
fn answer<T, W>(reply: Reply<T>, woken: Wakers<W>) -> Answer<T, W>
    ensures { result ≡ record { reply = reply; woken = woken } }
{
    Answer { reply, woken }
}

/// An answer with this reply and no wakers.
pub(crate) fn replied<T, W>(reply: Reply<T>) -> Answer<T, W>
    ensures { result ≡ record { reply = reply; woken = [] } }
{
    answer(reply, Wakers::none())
}

/// An answer with this refusal, the value that comes back, and no wakers.
fn refused<T, W>(why: Refusal, back: Option<T>) -> Answer<T, W>
    ensures { result ≡ record { reply = Reply.Refused why back; woken = [] } }
{
    replied(Reply::Refused(why, back))
}

/// An answer whose reply is the result of this poll, with no wakers.
pub(crate) fn polled<T, W>(polled: Result<Poll<Option<T>>, Refusal>) -> Answer<T, W>
    ensures { result ≡ record { reply = poll_reply polled; woken = [] } }
{
    match polled {
        Ok(Poll::Ready(content)) => replied(Reply::Ready(content)),
        Ok(Poll::Pending) => replied(Reply::Pending),
        Err(why) => refused(why, None),
    }
}

/// The answer of a `set` with this result.
pub(crate) fn set<T, W>(set: Result<Wakers<W>, T>) -> Answer<T, W>
    ensures { result ≡ set_answer set }
{
    match set {
        Ok(woken) => answer(Reply::Done, woken),
        Err(back) => refused(Refusal::Closed, Some(back)),
    }
}

/// The answer of an `update` with this result.
pub(crate) fn updated<T, W>(updated: Result<Wakers<W>, Refusal>) -> Answer<T, W>
    ensures { result ≡ update_answer updated }
{
    match updated {
        Ok(woken) => answer(Reply::Done, woken),
        Err(why) => refused(why, None),
    }
}

/// The answer of a `try_get` with this result.
pub(crate) fn got<T, W>(got: Result<Option<T>, Refusal>) -> Answer<T, W>
    ensures { result ≡ get_answer got }
{
    match got {
        Ok(copy) => replied(Reply::Value(copy)),
        Err(why) => refused(why, None),
    }
}

/// The answer of an `or_set` or a `replace` with this result.
pub(crate) fn replaced<T, W>(replaced: Result<(Option<T>, Wakers<W>), T>) -> Answer<T, W>
    ensures { result ≡ replace_answer replaced }
{
    match replaced {
        Ok((old, woken)) => answer(Reply::Value(old), woken),
        Err(back) => refused(Refusal::Closed, Some(back)),
    }
}

/// The answer of an `end_owner` or a `take_inner` with this result.
pub(crate) fn ended<T, W>(ended: Result<(Option<T>, Wakers<W>), Refusal>) -> Answer<T, W>
    ensures { result ≡ end_answer ended }
{
    match ended {
        Ok((last, woken)) => answer(Reply::Value(last), woken),
        Err(why) => refused(why, None),
    }
}

/// The answer of an `update_some` or an `add_owner` with this result.
pub(crate) fn done<T, W>(done: Result<(), Refusal>) -> Answer<T, W>
    ensures { result ≡ done_answer done }
{
    match done {
        Ok(()) => replied(Reply::Done),
        Err(why) => refused(why, None),
    }
}
