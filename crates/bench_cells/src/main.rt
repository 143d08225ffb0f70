//! Runs a workload of the bench on what the first word names, and prints what it counted. It does
//! so within one poll of a task, whose begin and end then hardly count. No part of the libraries.
#![tactic(auto)]

mod asked;
mod calls;
mod kind;
mod latest;
mod sync;
mod unsync;
mod workloads;

use crate::asked::{Asked, Hidden};
use crate::workloads::run;
use std::io;

fn main(rt: HostRuntime) -> io::Result<()> {
    let asked = Asked::read(&rt)?;
    let counted = match asked.kind.as_str() {
        "sync" => run::<sync::Locked, HostRuntime>(&asked, &rt)?,
        "sync_owner" => run::<sync::Owned<HostRuntime>, HostRuntime>(&asked, &rt)?,
        "unsync" => run::<unsync::Lent, HostRuntime>(&asked, &rt)?,
        "unsync_owner" => run::<unsync::Owned, HostRuntime>(&asked, &rt)?,
        "latest" => run::<latest::Followed<HostRuntime>, HostRuntime>(&asked, &rt)?,
        _ => calls::count(&asked, Hidden::make(rt.alloc())?, rt),
    };
    println!(rt; "{counted}")
}
