//! A state that many threads follow. Owners write the state, and each follower sees the last value.
#![tactic(auto)]

mod awaited;
mod cell;
mod follower;
mod history;
pub mod laws;
mod owner;
mod permit;

pub use async_cell_latest::{Refusal, TaskWaker};
pub use async_cell_step::{Rule, Ruled, With};
pub use awaited::{Changed, NextAs, States, WaitFor};
pub use follower::Follower;
pub use history::{Blank, Protocol, Unruled, Witness};
pub use owner::Owner;
