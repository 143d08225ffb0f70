//! This crate has the stores that lend a core for one step at a time, the functions that end a
//! step, and the polls and futures that are made of steps. The core belongs to a cell or to a
//! latest state. Except for what the cells' crates re-export, this crate is internal and may change
//! without notice.
#![tactic(auto)]

mod ended;
mod polls;
mod room;
mod rule;
mod store;
mod with;

pub use ended::{
    After, All, Deferred, One, Writes, end, end_and_wake, end_and_wake_one, finish, open_holding,
    put_held, write_held,
};
pub use polls::poll;
pub use room::{Query, Room};
pub use rule::{Rule, Ruled};
pub use store::{Alone, Lender, Lent, Lock, Locked, OneThread, Opens, Step, StoredCore, Stores};
pub use with::{At, Places, Polled, Request, Takes, Upgrade, Values, With, weakly};
