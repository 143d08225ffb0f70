//! The cell as a pure state machine: each call returns its reply and the wakers to be woken.
//!
//! Items that are `doc(hidden)` are internal, and may change without notice. They are for the
//! crates that build on this one.
#![tactic(auto)]

mod answer;
mod cell_core;
mod guard;

pub use answer::Answer;
pub use async_cell_model::{Refusal, Reply};
#[doc(hidden)]
pub use async_cell_wakers::Place;
pub use async_cell_wakers::{Named, TaskWaker, Wakers, Wakes};
pub use cell_core::Core;
pub use futures::task::Poll;
#[doc(hidden)]
pub use guard::end_guard;
