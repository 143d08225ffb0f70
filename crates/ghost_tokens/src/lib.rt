//! Tokens of what exists only in proofs: of a list that only grows, and of a count of permits. The
//! tokens are zero-sized, and their functions do nothing at run time.
#![tactic(auto)]

mod count;
mod log;

pub use count::{Count, Permit};
pub use log::{Log, Makes, Seen};
