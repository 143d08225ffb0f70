//! Two threads that lead. The right to lead is the value of a cell, so one at a time has it.
ghost use Rattle.std.specs.Prelude.{◌≡◌, ◌≢◌, [], IfOk};

use crate::Host;
use crate::lease::{Lease, Office, Term, one_leader};
use anyhow::{Context, Result};
use async_cell_sync::Owner;
use futures::executor::block_on;
use ghost_tokens::Log;
use std::marker::Brand;
use std::thread::join;

/// Two threads lead a term each. Returns the terms' numbers, which differ.
pub fn lead_in_turn<R: Host>(rt: R) -> Result<(u64, u64)>
    ensures apart { IfOk result (λ both. both.0 ≢ both.1) }
{
    lead_named::<Brand, R>(rt, Log::open())
}

/// Does so in the office that `N` names.
fn lead_named<N: Office + Send + Sync, R: Host>(rt: R, terms: Log<u64>) -> Result<(u64, u64)>
    requires of_this { terms.name ≡ N.terms }
    requires none { terms.list ≡ [] }
    ensures apart { IfOk result (λ both. both.0 ≢ both.1) }
{
    let lease = Owner::new_with(rt.alloc(), Lease::<N>::new(terms), rt)?;
    let other = lease.another()?;
    let (one, two) = join(
        &rt,
        move || -> Result<Term<N>>
            ensures { IfOk result (λ term. term.leader ≡ 1) }
        { lead(rt, &lease, 1) },
        move || -> Result<Term<N>>
            ensures { IfOk result (λ term. term.leader ≡ 2) }
        { lead(rt, &other, 2) },
    );
    let (one, two) = (one?, two?);
    one_leader(&one, &two);
    Ok((one.number, two.number))
}

/// Waits for the right to lead, leads a term, and gives the right back.
fn lead<N: Office, R: Host>(rt: R, lease: &Owner<Lease<N>, R>, leader: u64) -> Result<Term<N>>
    ensures leader { IfOk result (λ term. term.leader ≡ leader) }
{
    let mut mine = block_on(&rt, lease.take())??;
    let term = mine.begin(leader);
    lease.set(mine);
    term.context("no further term")
}
