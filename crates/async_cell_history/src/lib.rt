//! A cell's core with its history, which exists only in proofs. A call is a value (`Op`). This
//! crate is internal and may change without notice, except for what the cells' crates re-export.
#![tactic(auto)]

mod blank;
mod cell_core;
mod entries;
pub mod laws;
mod number;
mod op;
mod ops;
mod past;
mod permit;
mod protocol;
mod sees;
mod witness;

pub use blank::Blank;
use blank::{Opened, Start};
pub use cell_core::CellCore;
pub use number::Author;
use number::{Number, Signed, number_after, number_of};
pub use op::Op;
pub use ops::{IsSet, OrSet, PollGet, PollTake, Replace, Set, TryGet, TryTake, Update, UpdateSome};
use past::{Before, Enters, Past};
pub use permit::{Anyone, Caller, OwnerPermit};
pub use protocol::{Free, Protocol, Takeable, Unruled, Unwitnessed};
pub use sees::{Nobody, Sees, Signs};
pub use witness::Witness;
