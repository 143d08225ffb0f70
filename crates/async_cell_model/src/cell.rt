/// A cell of the model: closed, or open with an optional value and a number of owners. It holds no
/// wakers: these are in the state's wait list.
#[derive(Clone, Copy, Debug, Drop, PartialEq, Eq)]
pub enum Cell<T> {
    /// The last owner is gone, and the value with it.
    Closed,
    /// The value, if there is one, and the number of owners, from 1 to 4,294,967,295.
    Open(Option<T>, u32),
}
