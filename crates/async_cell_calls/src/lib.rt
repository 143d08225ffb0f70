//! The calls of a cell, generic over the store of its core. Each call makes its change in one step.
//! The crate also has the queries that polls make of the core. This crate is internal and may
//! change without notice, except for what the cells' crates re-export.
#![tactic(auto)]

mod calls;
mod cancel;
mod cell_store;
mod owners;
mod queries;

pub use cancel::Cancel;
pub use cell_store::CellStore;
pub use queries::{Cloning, CloningAs, Closing, Taking, TakingAs, WithCaller};
