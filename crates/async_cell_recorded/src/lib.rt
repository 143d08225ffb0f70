//! A cell whose calls are recorded, in order, under its lock. Each caller has a share, which counts
//! its calls. The cell is finished by giving back all shares. Its history is then legal and has the
//! calls of all shares, for any number of threads and any schedule.
#![tactic(auto)]

mod history;
mod journal;
mod made;
mod plain_history;
mod recorded;
mod session;
mod share;

pub use async_cell_core::{Named, Refusal, Reply, Wakers};
pub use async_cell_runs::{Call, Edit};
pub use history::{Entry, History, Kept, Plain};
pub use journal::Journal;
pub use plain_history::PlainHistory;
pub use recorded::{CallResult, Recorded};
pub use session::{Session, with_recorded};
pub use share::{Blanks, Marker, Pick, Share};
