//! What is promised of a follower of a `Latest` follows from the laws, whatever calls others make
//! in between.
ghost use Rattle.std.specs.Prelude.{◌≡◌, ◌≢◌, ◌≤◌, ◌<◌, ℕ, None, Some, Ok, true, false, IfNone, IfOk, IfSome, IsSome};
ghost use Rattle.std.specs.Fn.{FnOnceReturnsAtMut};
ghost use Rattle.async_cell_latest.specs.State.{State, Stays, is_closed, is_waited_for, is_writable, versions_limit};
ghost use Rattle.async_cell_model.specs.History.{IsCovered};
ghost use Rattle.async_cell_wakers.specs.Named.{same_name};
ghost use Rattle.async_cell_callers.specs.Calls.{AreCalls};

use async_cell_latest::laws::{
    no_waiting_follower_is_forgotten, the_last_state_stays, the_versions_of_a_follower_rise,
    two_histories_are_one,
};
use async_cell_latest::{Latest, Named, Poll, Refusal, Wakers};
use std::alloc::Global;

/// A follower that has seen the version `seen` polls, others make any calls, and it polls again.
/// Returns the versions that it is shown, if each poll shows one: they rise.
pub fn two_polls<F>(
    latest: &mut Latest<u64, Named>,
    seen: u64,
    name: &Named,
    others: F,
) -> Option<(u64, u64)>
where
    F: FnOnce(&mut Latest<u64, Named>) + Drop,
    requires callable { F.IsAlwaysCallable others }
    requires calls { (s t : State ℕ Named) → FnOnceReturnsAtMut F.FnOnce others s tt t
        → AreCalls s t }
    requires seen_before { seen ≤ latest.old.version }
    ensures rise { IfSome result (λ told. (seen < told.0) × (told.0 < told.1)) }
{
    // For the proof: the three steps are one history, and the versions in it rise.
    two_histories_are_one::<u64, Named>();
    the_versions_of_a_follower_rise::<u64, Named>();
    let first = shown(latest.poll_changed(seen, name))?;
    others(latest);
    let second = shown(latest.poll_changed(first, name))?;
    Some((first, second))
}

/// The last owner writes this value and ends, and others make any calls. A follower that polls
/// then is shown the value, and told the end when it polls again. Returns both, unless the state
/// takes no further write.
pub fn last_state_and_end<F>(
    latest: &mut Latest<u64, Named>,
    seen: u64,
    name: &Named,
    value: u64,
    others: F,
) -> Option<(u64, Poll<Option<u64>>)>
where
    F: FnOnce(&mut Latest<u64, Named>) + Drop,
    requires callable { F.IsAlwaysCallable others }
    requires calls { (s t : State ℕ Named) → FnOnceReturnsAtMut F.FnOnce others s tt t
        → AreCalls s t }
    requires seen_before { seen ≤ latest.old.version }
    requires last_owner { latest.old.owners ≡ 1 }
    ensures linearized { is_writable latest.old ≡ true → IsSome result }
    ensures last { IfSome result (λ told. told.0 ≡ value) }
    ensures end { IfSome result (λ told. told.1 ≡ Poll.Ready None) }
{
    let (_, woken) = latest.write(value).ok()?;
    woken.wake_all();
    latest.end_owner().ok()?.wake_all();
    after_the_end(latest, others);
    let version = shown(latest.poll_changed(seen, name))?;
    let (_, last) = latest.read();
    let last = *last;
    let then = latest.poll_changed(version, name).ok()?;
    Some((last, then))
}

/// A follower that has seen the version `seen` polls, others make any calls, and then this value is
/// written. Returns the wakers that the write hands out: the follower's is one of them, or one that
/// would wake it. Writes nothing, and returns `None`, where the follower does not wait by then: its
/// next poll is ready. So the follower never sleeps beside a version that it has not seen.
pub fn write_after_others<F>(
    latest: &mut Latest<u64, Named>,
    seen: u64,
    name: &Named,
    value: u64,
    others: F,
) -> Result<Option<Wakers<Named>>, Refusal>
where
    F: FnOnce(&mut Latest<u64, Named>) + Drop,
    requires callable { F.IsAlwaysCallable others }
    requires calls { (s t : State ℕ Named) → FnOnceReturnsAtMut F.FnOnce others s tt t
        → AreCalls s t }
    requires below { seen < versions_limit }
    ensures woken { IfOk result (λ given. IfSome given (λ woken.
        IsCovered same_name woken name.now)) }
    ensures ready { IfOk result (λ given. IfNone given
        (is_waited_for latest.new seen ≡ false)) }
{
    // For the proof: the poll and the others' calls are one history, in which no waiting ends.
    two_histories_are_one::<u64, Named>();
    no_waiting_follower_is_forgotten::<u64, Named>();
    if latest.poll_changed(seen, name)?.is_ready() {
        return Ok(None);
    }
    others(latest);
    if latest.changed_since(seen).is_ready() {
        return Ok(None);
    }
    match latest.write(value) {
        Ok((_, woken)) => Ok(Some(woken)),
        Err(_) => Ok(None),
    }
}

/// Adds an owner: a call that others may make in between, which ends no waiting.
pub fn add_owner(latest: &mut Latest<u64, Named>)
    ensures calls { AreCalls latest.old latest.new }
{
    let _ = latest.add_owner();
}

/// Writes the value, and wakes all that wait: a call that others may make in between.
pub fn write(latest: &mut Latest<u64, Named>, value: u64)
    ensures calls { AreCalls latest.old latest.new }
{
    if let Ok((_, woken)) = latest.write(value) {
        woken.wake_all();
    }
}

/// Others make any calls on a closed state: its value and its version stay, and it stays closed.
fn after_the_end<F>(latest: &mut Latest<u64, Named>, others: F)
where
    F: FnOnce(&mut Latest<u64, Named>),
    requires callable { F.IsAlwaysCallable others }
    requires calls { (s t : State ℕ Named) → FnOnceReturnsAtMut F.FnOnce others s tt t
        → AreCalls s t }
    requires closed { is_closed latest.old ≡ true }
    ensures stays { Stays latest.old latest.new }
{
    the_last_state_stays::<u64, Named>(); // For the proof.
    others(latest);
}

/// The version that a poll shows, if it shows one.
fn shown(polled: Result<Poll<Option<u64>>, Refusal>) -> Option<u64>
    ensures shows { IfSome result (λ version. polled ≡ Ok (Poll.Ready (Some version))) }
    ensures some { (version : ℕ) → polled ≡ Ok (Poll.Ready (Some version)) → IsSome result }
{
    match polled {
        Ok(Poll::Ready(version)) => version,
        _ => None,
    }
}

/// Waits for a write around a call of others, and wakes all that the write hands out.
pub fn around_a_new_owner(alloc: Global) -> Result<(), Refusal> {
    let mut latest = Latest::new(alloc, 0);
    if let Some(woken) = write_after_others(&mut latest, 1, &Named(7), 8, add_owner)? {
        woken.wake_all();
    }
    Ok(())
}

/// What both tell of a new state, around a write of others.
pub fn around_a_write(alloc: Global) -> (Option<(u64, u64)>, Option<(u64, Poll<Option<u64>>)>) {
    let mut latest = Latest::new(alloc, 0);
    let rising = two_polls(&mut latest, 0, &Named(7), |state| write(state, 5));
    let mut latest = Latest::new(alloc, 0);
    let ended = last_state_and_end(&mut latest, 0, &Named(7), 6, |state| write(state, 7));
    (rising, ended)
}
