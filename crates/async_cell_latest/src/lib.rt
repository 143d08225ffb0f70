//! A state that any number of followers follow, implemented as a pure state machine. Each write
//! replaces the value, adds 1 to the version, and returns the wakers of the followers that wait.
//! When the last owner ends, the state keeps its value and its version. Items marked `doc(hidden)`
//! are internal, and may change without notice.
#![tactic(auto)]

mod latest;
pub mod laws;

pub use async_cell_model::Refusal;
#[doc(hidden)]
pub use async_cell_wakers::Place;
pub use async_cell_wakers::{Named, TaskWaker, Wakers, Wakes};
pub use futures::task::Poll;
pub use latest::Latest;
