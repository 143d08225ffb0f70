//! A watcher of a state never goes back: what it is shown later was written later.
ghost use Rattle.std.specs.Prelude.{◌≡◌, ◌<◌, ◌≤◌, ◌⊎◌, ℕ, List, Some, true, false, length, IfOk, IfSome};
ghost use Rattle.async_cell_latest.specs.State.{versions_limit};
ghost use Rattle.async_cell_latest_sync.specs.Life.{GoesOn};
ghost use Rattle.async_cell_latest_sync.specs.InOrder.{AllFollowing, AreInOrder, IsLast, OnlyFollowing};

use crate::Host;
use anyhow::Result;
use async_cell::latest::{Blank, Follower, Owner, Protocol, Witness, laws};
use futures::executor::block_on;
use std::marker::Brand;
use std::thread::{Threads, join};

/// The order of a gauge that never falls.
struct Rises;

impl laws::Order<u64> for Rises {
    ghost use Rattle.std.specs.Prelude.{◌≤◌};
    ghost use Rattle.std.proofs.Common.{le_refl, le_trans};

    ghost follows = { λ old new. old ≤ new };

    ghost follows_itself = { λ value. le_refl value };

    ghost follows_on = { λ _ _ _ low high. le_trans low high };
}

/// Is shown a value, and then an unseen one, unless the state is closed before: of all values of
/// the state, the second was written after the first.
#[tactic(auto, using(crate::proofs::InOrder::next_in_order))]
pub fn watch<T: Clone, R: Host, N: Protocol<T>>(
    rt: R,
    follower: &mut Follower<T, R, N>,
    seen: Witness<T, N>,
) -> Result<(T, Option<T>, Witness<T, N>)>
    ensures in_order { IfOk result (λ shown. IfSome shown.1 (λ next.
        AreInOrder T.is_clone shown.0 next shown.2.values)) }
{
    let mut seen = seen;
    let first = follower.read_and_update_as(&mut seen)?;
    let (next, later) = block_on(&rt, follower.next_as(seen))??;
    laws::a_life_goes_on::<T>();
    laws::what_is_shown_next_was_written_later::<T>();
    Ok((first, next, later))
}

/// Is shown a value, and waits for an unseen one. If the state is closed and has none, returns the
/// value, which is the last one.
pub fn last<T: Clone, R: Host, N: Protocol<T>>(
    rt: R,
    follower: &mut Follower<T, R, N>,
    seen: Witness<T, N>,
) -> Result<(Option<T>, Witness<T, N>)>
    ensures last { IfOk result (λ shown. IfSome shown.0 (λ value.
        IsLast T.is_clone value shown.1)) }
{
    let mut seen = seen;
    let value = follower.read_and_update_as(&mut seen)?;
    let (next, end) = block_on(&rt, follower.next_as(seen))??;
    if next.is_some() {
        return Ok((None, end));
    }
    laws::the_last_value_is_never_missed::<T>();
    Ok((Some(value), end))
}

/// Writes a gauge in one thread, always below this limit, and watches it in another.
pub fn watch_gauge<R: Host + Threads + Send + Sync>(rt: R, limit: u64) -> Result<u64>
    requires limit { 0 < limit }
    ensures below { IfOk result (λ value. value < limit) }
{
    watch_named::<Brand, R>(rt, limit, Blank::new())
}

/// Does so with the state that `N` names.
fn watch_named<N, R>(rt: R, limit: u64, blank: Blank<u64>) -> Result<u64>
where
    N: Protocol<u64> + Send + Sync,
    R: Host + Threads + Send + Sync,
    requires limit { 0 < limit }
    requires named { N.named ≡ Some blank }
    requires may { (before : List ℕ) (value : ℕ) → value < limit → N.may before value }
    requires rule { (value : ℕ) → N.holds value → value < limit }
    ensures below { IfOk result (λ value. value < limit) }
{
    let (owner, seen) = Owner::<u64, R, N>::witnessed(rt.alloc(), 0, blank, rt)?;
    let mut follower = owner.follow()?;
    let mut writer = seen.again();
    let write = move || -> bool
        requires { (before : List ℕ) (value : ℕ) → value < limit → N.may before value }
    {
        if limit > 7 {
            let _ = owner.set_as(&mut writer, 7);
        }
        owner.end_as(&mut writer)
    };
    let follow = move || -> Result<u64>
        requires { (value : ℕ) → N.holds value → value < limit }
        ensures { IfOk result (λ value. value < limit) }
    {
        let _ = &limit; // for the contract
        let (_, _, mut seen) = watch(rt, &mut follower, seen)?;
        Ok(follower.read_and_update_as(&mut seen)?)
    };
    join(&rt, write, follow).1
}

/// Returns one more, or the last number.
fn one_more(value: &u64) -> u64
    ensures { value.now ≤ result }
{
    value.saturating_add(1)
}

/// Raises a gauge that never falls, whoever else writes it. Returns whether it took the value: it
/// did, unless the gauge has had as many values as a state can have. This owner keeps it open.
pub fn raise<R: Host, N: Protocol<u64>>(
    owner: &Owner<u64, R, N>,
    seen: &mut Witness<u64, N>,
) -> bool
    requires all { AllFollowing N.may (λ old new. old ≤ new) }
    ensures open { seen.new.closed ≡ false }
    ensures full { result ≡ false → versions_limit ≤ length seen.new.values }
{
    laws::what_follows_may_be_written::<u64, Rises, N>();
    owner.update_as(seen, one_more).is_ok()
}

/// What is shown later of a gauge that never falls is no less.
pub fn watch_rise<R: Host, N: Protocol<u64>>(
    rt: R,
    follower: &mut Follower<u64, R, N>,
    seen: Witness<u64, N>,
) -> Result<(u64, u64)>
    requires only { OnlyFollowing N.may (λ old new. old ≤ new) }
    ensures rises { IfOk result (λ shown. shown.0 ≤ shown.1) }
{
    let (first, next, later) = watch(rt, follower, seen)?;
    later.lawful();
    laws::what_is_shown_never_goes_back::<u64, Rises, N>();
    Ok((first, next.unwrap_or(first)))
}

/// Two reads of a gauge that never falls: the second value is no less.
pub fn read_rise<R: Host, N: Protocol<u64>>(
    follower: &mut Follower<u64, R, N>,
    seen: &mut Witness<u64, N>,
) -> Result<(u64, u64)>
    requires only { OnlyFollowing N.may (λ old new. old ≤ new) }
    ensures rises { IfOk result (λ shown. shown.0 ≤ shown.1) }
{
    let first = follower.read_and_update_as(seen)?;
    let second = follower.read_and_update_as(seen)?;
    seen.lawful();
    laws::a_life_goes_on::<u64>();
    laws::what_is_shown_never_goes_back::<u64, Rises, N>();
    Ok((first, second))
}

/// Of two watchers of a state, one has seen all that the other has. If both have seen the close,
/// they have seen the same.
pub fn two_watchers<T, N: Protocol<T>>(one: &Witness<T, N>, other: &Witness<T, N>)
    ensures one_of_both { GoesOn one.now other.now ⊎ GoesOn other.now one.now }
    ensures closed { one.now.closed ≡ true → other.now.closed ≡ true → one.now ≡ other.now }
{
    one.agrees(other);
    laws::a_life_goes_on::<T>();
}
