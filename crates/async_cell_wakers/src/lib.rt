//! The trait of wakers, the wait list of a cell, the places of waiting futures in that list, and
//! the list of the wakers to wake.
//!
//! Items marked `doc(hidden)` are for the crates that build on this one. `async_cell_core`
//! re-exports all other items.
#![tactic(auto)]

mod named;
mod place;
mod task_waker;
mod wait_list;
mod wakers;
mod wakes;

pub use named::Named;
#[doc(hidden)]
pub use place::Place;
pub use task_waker::TaskWaker;
#[doc(hidden)]
pub use wait_list::WaitList;
pub use wakers::Wakers;
pub use wakes::Wakes;
