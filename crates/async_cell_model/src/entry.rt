use crate::reply::Reply;

/// A call on a cell, as a history holds it. `W` is the type of the wakers.
#[derive(Clone, Copy, Debug, Drop, PartialEq, Eq)]
pub enum Kept<T, W> {
    /// Writes this value.
    Set(T),
    /// Writes this value if the cell holds none.
    OrSet(T),
    /// Writes this value and returns the old one.
    Replace(T),
    /// Changes the content. `saw` is what the closure was called with, and `put` is what it
    /// returned. Both are `None` if it was not called.
    Update { saw: Option<T>, put: Option<T> },
    /// Changes the value, if there is one. `saw` is what the closure was called with, and `put` is
    /// what it returned. Both are `None` if it was not called.
    UpdateSome { saw: Option<T>, put: Option<T> },
    /// Takes the value, if there is one.
    TryTake,
    /// Copies the value, if there is one.
    TryGet,
    /// Tests whether there is a value.
    IsSet,
    /// Polls for the value and takes it. If there is no value yet, registers this waker.
    PollTake(W),
    /// Polls for the value and copies it. If there is no value yet, registers this waker.
    PollGet(W),
    /// Adds an owner.
    AddOwner,
    /// Ends an owner. The end of the last owner closes the cell.
    EndOwner,
    /// Closes the cell for its only owner and returns the value.
    TakeInner,
}

/// A call and its reply.
#[derive(Clone, Copy, Debug, Drop, PartialEq, Eq)]
pub struct Entry<T, W> {
    /// The call, with the argument and the result of its closure.
    pub call: Kept<T, W>,
    /// Its reply.
    pub reply: Reply<T>,
}
