ghost use Rattle.std.specs.Prelude.{◌≡◌, Option};

/// A call on a cell, as an element of a list of calls. `W` is the type of the wakers, and `E` is
/// the type of the edits. The replies named below are for calls that are not refused.
#[derive(Clone, Copy, Debug, Drop, PartialEq, Eq)]
pub enum Call<T, W, E> {
    /// `Core::set`. The reply is `Done`.
    Set(T),
    /// `Core::or_set`. The reply is this value if the cell did not store it.
    OrSet(T),
    /// `Core::replace`. The reply is the old value.
    Replace(T),
    /// `Core::update` with `Edit::edit` as the closure. The reply is `Done`.
    Update(E),
    /// `Core::update_some` with `Edit::edit_some` as the closure. The reply is `Done`.
    UpdateSome(E),
    /// `Core::try_take`. The reply is the value.
    TryTake,
    /// `Core::try_get`. The reply is a clone of the value.
    TryGet,
    /// `Core::is_set`. The reply is `Is`.
    IsSet,
    /// `Core::poll_take` with this waker. The reply is `Ready` or `Pending`.
    PollTake(W),
    /// `Core::poll_get` with this waker. The reply is `Ready` or `Pending`.
    PollGet(W),
    /// `Core::add_owner`. The reply is `Done`.
    AddOwner,
    /// `Core::end_owner`. The reply is the value if this was the last owner.
    EndOwner,
    /// `Core::take_inner`. The reply is the content.
    TakeInner,
}

/// A change of a cell's content. A list of calls holds an edit in place of a closure. The result of
/// an edit depends only on the edit and on the content or value that it is given, so contracts can
/// name the result.
///
/// An `impl` for a concrete value type, such as `Edit<u64>`, repeats this trait's two `ensures`
/// clauses at its own two functions.
pub trait Edit<T> {
    /// The new content that the edit makes of a content.
    ghost edit: { Self → Option T → Option T };

    /// The new value that the edit makes of a value.
    ghost edit_some: { Self → T → T };

    /// Returns the new content, made of the old one.
    fn edit(&self, content: Option<T>) -> Option<T>
        ensures { result ≡ edit self.now content };

    /// Returns the new value, made of the old one.
    fn edit_some(&self, value: T) -> T
        ensures { result ≡ edit_some self.now value };
}

/// The edit of calls that have none: it changes nothing.
#[derive(Clone, Copy, Debug, Drop, PartialEq, Eq)]
pub struct NoEdit;

impl<T> Edit<T> for NoEdit {
    ghost edit = { λ _ c. c };

    ghost edit_some = { λ _ v. v };

    fn edit(&self, content: Option<T>) -> Option<T>
        ensures { result ≡ content }
    {
        content
    }

    fn edit_some(&self, value: T) -> T
        ensures { result ≡ value }
    {
        value
    }
}
