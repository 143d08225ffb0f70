//! The calls of a [`LockedCore`](crate::LockedCore) as values, and what else its `make`, `of_blank`
//! and `add_counted` name: who makes a call, and who sees and signs it.
//!
//! A call is of a type that implements [`Op`], such as `Set(value)`. Its caller is `Anyone` or the
//! permit of an owner. It is seen by a [`Witness`](crate::Witness), or else by `Nobody`.
pub use async_cell_core::Poll;
pub use async_cell_history::{
    Anyone, Caller, IsSet, Nobody, Op, OrSet, OwnerPermit, PollGet, PollTake, Replace, Sees, Set,
    Signs, TryGet, TryTake, Update, UpdateSome,
};
pub use async_cell_step::Opens;
