use crate::{Refusal, Reply};

/// How a task polls the cell.
#[derive(Clone, Copy, Debug, PartialEq, Eq)]
pub enum Kind {
    /// Takes the value.
    Take,
    /// Clones the value and leaves it in the cell.
    Get,
}

/// Something that can happen to a driver: one item of a list of events. `E` is the type of the
/// edits. The outcomes that are named here are those of events that are not refused.
#[derive(Clone, Copy, Debug, Drop, PartialEq, Eq)]
pub enum Event<T, E> {
    /// `Driver::start`, of a task of this kind. The outcome is `Started`, with the task's number.
    Start(Kind),
    /// `Driver::poll`, of the task with this number. The outcome is `Polled`.
    Poll(usize),
    /// `Driver::set`. The outcome is the reply `Done`.
    Set(T),
    /// `Driver::or_set`. The outcome has the value that was not used.
    OrSet(T),
    /// `Driver::replace`. The outcome has the old value.
    Replace(T),
    /// `Driver::update`, which stores what the edit makes of the content. The outcome is the reply
    /// `Done`.
    Update(E),
    /// `Driver::try_take`. The outcome has the value.
    TryTake,
    /// `Driver::add_owner`. The outcome is the reply `Done`.
    AddOwner,
    /// `Driver::end_owner`. If this was the last owner, the outcome has the value that was left in
    /// the cell.
    EndOwner,
}

/// What the poll of a task returns.
#[derive(Clone, Copy, Debug, Drop, PartialEq, Eq)]
pub enum Polled<T> {
    /// The task is done. It has the value, or `None` from a closed cell.
    Ready(Option<T>),
    /// The task waits.
    Pending,
    /// No poll was made: the task is done, is not ready, or does not exist.
    NotReady,
}

/// The outcome of an event.
#[derive(Clone, Copy, Debug, Drop, PartialEq, Eq)]
pub enum Told<T> {
    /// The number of the task that was started.
    Started(usize),
    /// What the poll of a task returned.
    Polled(Polled<T>),
    /// What a call on the cell returned.
    Reply(Reply<T>),
    /// Why a `Start` or a `Poll` was refused.
    Refused(Refusal),
}
