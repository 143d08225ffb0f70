//! The calls of a cell. (`CellStore` also has code of its own for a `set` or a `replace` without a
//! witness. Sharing code with other calls would cost 13 instructions.)
mod looks;
mod writes;

pub use looks::{IsSet, PollGet, PollTake, TryGet, TryTake};
pub use writes::{OrSet, Replace, Set, Update, UpdateSome};
