//! Numbered tasks that wait for the value of one cell: only tasks that are ready are polled, and no
//! task is forgotten.
#![tactic(auto)]

mod driver;
mod event;
pub mod laws;
mod tasks;

pub use async_cell_core::{Named, Refusal, Reply};
pub use async_cell_runs::Edit;
pub use driver::Driver;
pub use event::{Event, Kind, Polled, Told};
