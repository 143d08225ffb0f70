//! A cell of one thread: an optional value that the futures of one thread wait for.
//!
//! Items marked `doc(hidden)` are for the crates that build on this one, and may change without
//! notice.
#![tactic(auto)]

mod async_cell;
mod cell_ref;
mod closed;
mod get;
mod guarded_cell;
mod owner;
mod reply;
mod shared;
mod take;
mod weak;

pub use async_cell::AsyncCell;
pub use async_cell_core::{Refusal, TaskWaker};
pub use async_cell_history::{Free, Protocol, Unruled, Unwitnessed};
pub use async_cell_model::Kept;
#[doc(hidden)]
pub use async_cell_step::Request;
pub use async_cell_step::{Rule, Ruled};
pub use cell_ref::CellRef;
#[doc(hidden)]
pub use cell_ref::CellRef as TakeRef; // Of a cell of one thread each value may be taken.
pub use closed::UntilClosed;
pub use get::Get;
pub use guarded_cell::{Guard, GuardedCell};
pub use owner::Owner;
pub use reply::{Replier, ReplyFuture, reply_slot, reply_slot_of};
pub use shared::Shared;
pub use take::Take;
pub use weak::{GetWeak, TakeWeak, Values, Weak, WeakOwner, With};
