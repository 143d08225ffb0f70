//! A cell behind a lock: an optional value that the futures of many threads wait for.
//!
//! Items marked `doc(hidden)` are for the crates that build on this one, and may change without
//! notice.
#![tactic(auto)]

mod async_cell;
mod calls;
mod calls_as;
mod cell_ref;
mod closed;
mod guard;
pub mod ops;
mod owner;
mod reply;
mod shared;
mod take;
mod take_as;
mod weak;

pub use async_cell::{AsyncCell, LockedCore};
pub use async_cell_calls::CellStore;
pub use async_cell_core::{Core, Refusal, TaskWaker, Wakers, Wakes};
pub use async_cell_history::{
    Author, Blank, Free, Protocol, Takeable, Unruled, Unwitnessed, Witness, laws,
};
pub use async_cell_model::{Entry, Kept, Reply};
#[doc(hidden)]
pub use async_cell_step::Request;
pub use async_cell_step::{Rule, Ruled, With};
pub use cell_ref::{CellRef, TakeRef};
pub use closed::UntilClosed;
pub use guard::{Guard, GuardedCell};
pub use owner::Owner;
pub use reply::{Replier, ReplyFuture, reply_slot, reply_slot_of};
pub use shared::Shared;
pub use take::{Get, GetWeak, Take, TakeWeak, Values};
pub use take_as::{GetAs, GetWeakAs, TakeAs, TakeWeakAs};
pub use weak::{Weak, WeakOwner};
