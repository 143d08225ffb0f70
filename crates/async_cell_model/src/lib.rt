//! The model of a cell: the definitions that the contracts of cells refer to, and their laws.
#![tactic(auto)]

mod cell;
mod entry;
pub mod laws;
mod refusal;
mod reply;

pub use cell::Cell;
pub use entry::{Entry, Kept};
pub use refusal::Refusal;
pub use reply::Reply;
