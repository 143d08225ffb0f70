use crate::refusal::Refusal;

/// The reply to a call.
#[derive(Clone, Copy, Debug, Drop, PartialEq, Eq)]
pub enum Reply<T> {
    /// The call is done and returns nothing.
    Done,
    /// The value that the call took, copied or replaced, or the argument that `or_set` did not
    /// store. `None` if there was none.
    Value(Option<T>),
    /// Whether there is a value.
    Is(bool),
    /// There is no value yet. The poll's waker is registered, unless a waiting waker would wake its
    /// task.
    Pending,
    /// The value, or `None` if the cell is closed.
    Ready(Option<T>),
    /// The call was refused. A value that was passed to it comes back.
    Refused(Refusal, Option<T>),
}
