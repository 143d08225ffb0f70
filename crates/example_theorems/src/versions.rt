//! A setting with versions. One thread publishes new versions, and the other looks, and waits for
//! the next version: it never sees an older one after a newer one.
ghost use Rattle.std.specs.Prelude.{◌≡◌, ◌≤◌, Some, IfOk, IfSome};
ghost use Rattle.async_cell_latest_sync.specs.InOrder.{AllFollowing, IsLast, OnlyFollowing};

use crate::Host;
use anyhow::Result;
use async_cell_latest_sync::{Blank, Follower, Owner, Protocol, Witness, laws};
use futures::executor::block_on;
use std::marker::Brand;
use std::thread::join;

/// The order of versions.
struct Rises;

impl laws::Order<u64> for Rises {
    ghost use Rattle.std.specs.Prelude.{◌≤◌};
    ghost use Rattle.std.proofs.Common.{le_refl, le_trans};

    ghost follows = { λ old new. old ≤ new };

    ghost follows_itself = { λ value. le_refl value };

    ghost follows_on = { λ _ _ _ low high. le_trans low high };
}

/// One thread publishes two versions, and the other looks twice. What it sees later is no older.
pub fn follow<R: Host>(rt: R) -> Result<(u64, Option<u64>)>
    ensures rises { IfOk result (λ both. IfSome both.1 (λ next. both.0 ≤ next)) }
{
    follow_named::<Brand, R>(rt, Blank::new())
}

/// Does so with the state that `N` names: its versions never fall.
fn follow_named<N, R>(rt: R, blank: Blank<u64>) -> Result<(u64, Option<u64>)>
where
    N: Protocol<u64> + Send + Sync,
    R: Host,
    requires named { N.named ≡ Some blank }
    requires all { AllFollowing N.may (λ old new. old ≤ new) }
    requires only { OnlyFollowing N.may (λ old new. old ≤ new) }
    ensures rises { IfOk result (λ both. IfSome both.1 (λ next. both.0 ≤ next)) }
{
    laws::what_follows_may_be_written::<u64, Rises, N>();
    let (owner, seen) = Owner::<u64, R, N>::witnessed(rt.alloc(), 1, blank, rt)?;
    let mut follower = owner.follow()?;
    let mut writer = seen.again();
    let (last, both) = join(
        &rt,
        move || -> Result<Option<u64>>
            requires { AllFollowing N.may (λ old new. old ≤ new) }
        {
            publish(&owner, &mut writer);
            publish(&owner, &mut writer);
            end(owner, &mut writer)
        },
        move || -> Result<(u64, Option<u64>)>
            requires { OnlyFollowing N.may (λ old new. old ≤ new) }
            ensures { IfOk result (λ both. IfSome both.1 (λ next. both.0 ≤ next)) }
        { look_twice(rt, &mut follower, seen) },
    );
    last?;
    both
}

/// Returns the next version, or the last one.
fn next(version: &u64) -> u64
    ensures { version.now ≤ result }
{
    version.saturating_add(1)
}

/// Publishes the next version. Only at its highest version the state does not take it.
fn publish<N: Protocol<u64>, R: Host>(owner: &Owner<u64, R, N>, seen: &mut Witness<u64, N>)
    requires all { AllFollowing N.may (λ old new. old ≤ new) }
{
    laws::what_follows_may_be_written::<u64, Rises, N>();
    let _ = owner.update_as(seen, next);
}

/// Ends an owner. If it was the last one, returns the last version.
fn end<N: Protocol<u64>, R: Host>(
    owner: Owner<u64, R, N>,
    seen: &mut Witness<u64, N>,
) -> Result<Option<u64>>
    ensures last { IfOk result (λ found. IfSome found (λ version.
        IsLast (λ value copy. copy ≡ value) version seen.new)) }
{
    let mut follower = owner.follow()?;
    if !owner.end_as(seen) {
        return Ok(None);
    }
    let version = follower.read_and_update_as(seen)?;
    laws::what_is_shown_of_a_closed_state_is_the_last::<u64>();
    Ok(Some(version))
}

/// Returns a version, and the next one, unless the setting is closed before.
fn look_twice<N: Protocol<u64>, R: Host>(
    rt: R,
    follower: &mut Follower<u64, R, N>,
    mut seen: Witness<u64, N>,
) -> Result<(u64, Option<u64>)>
    requires only { OnlyFollowing N.may (λ old new. old ≤ new) }
    ensures rises { IfOk result (λ both. IfSome both.1 (λ next. both.0 ≤ next)) }
{
    let first = follower.read_and_update_as(&mut seen)?;
    let (next, seen) = block_on(&rt, follower.next_as(seen))??;
    seen.lawful();
    laws::what_was_shown_stays_shown::<u64>();
    laws::what_is_shown_never_goes_back::<u64, Rises, N>();
    Ok((first, next))
}
