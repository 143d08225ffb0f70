//! This crate re-exports all that a program needs from the cells' crates. `sync` is the cell that
//! threads share, and `unsync` the cell of one thread, as in the Rust crate `async_cell`. `latest`
//! is a state that many threads follow. `lazy` is for a value that its first caller makes. `within`
//! waits for a future, with a time limit, and `within_each` for many. Most calls fail with a
//! `Refusal`.
//!
//! To move a program from `unsync` to `sync`, change its imports, and pass `Owner::new` an `impl
//! Wait`, such as `rt`: the right to wait for the cell's lock.
#![tactic(auto)]

pub use async_cell_core::Refusal;
pub use async_cell_latest_sync as latest;
pub use async_cell_lazy as lazy;
pub use async_cell_sync as sync;
pub use async_cell_unsync as unsync;
pub use async_cell_within::{within, within_each};
