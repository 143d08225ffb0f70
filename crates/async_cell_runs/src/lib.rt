//! Calls of a `Core` as values, and lists of calls, made in order.
#![tactic(auto)]

mod answers;
mod call;
pub mod laws;
mod runs;

pub use call::{Call, Edit, NoEdit};
pub use runs::{run, step, step_copied};
