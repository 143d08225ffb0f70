//! A wait for a future, or for many, on the calling thread, with a time limit.
#![tactic(auto)]

ghost use Rattle.std.specs.Prelude.{All, IfErr, IfNone, IfOk, IfSome, length, ◌≡◌};
ghost use Rattle.futures.specs.Outputs.{EachResumes};
ghost use Rattle.async_cell_within.specs.Each.{EachFills, EachGiven, EachLate, EachLateGives};

mod each;
mod napper;

use each::{has_output, no_outputs};
use futures::future::Future;
use futures::task::Poll;
use napper::Napper;
use std::alloc::AllocGlobal;
use std::io;
use std::random::RandomSource;
use std::time::{Clock, Duration};

/// Polls `future` on this thread until it is ready. Returns `None` if it is not ready when `limit`
/// has passed. The caller keeps the future: after a `None` or an error it may be waited for again.
///
/// The future is polled at once, and again after it is woken. It is polled once more when the limit
/// has passed, so an output that is there by then is returned. `None` is never returned before the
/// limit has passed. A poll that takes long is not cut off.
///
/// Between polls the thread naps. After each nap it checks whether the future was woken. A nap
/// takes a sixteenth of the time that the wait took so far, but at least 50 microseconds and at
/// most 5 milliseconds, and ends when the limit has passed. A wake is noticed at most one nap late.
/// `block_on`, which has no limit, sleeps until it is woken.
///
/// Fails if there is no memory, no random number to identify the task that polls, or no clock.
///
/// ```rust
/// let limit = Duration::from_millis(9);
/// println!(rt; "{:?}", within(&rt, &mut ready(7), limit)?)?; // prints Some(7)
/// println!(rt; "{:?}", within(&rt, &mut pending::<u32>(), limit)?)?; // prints None
/// ```
pub fn within<R, F>(rt: &R, future: &mut F, limit: Duration) -> io::Result<Option<F::Output>>
where
    R: Clock + RandomSource + AllocGlobal,
    F: Future,
    requires { F.can_poll future.old }
    ensures ready { IfOk result (λ polled. IfSome polled (F.gives future.old)) }
    ensures late { IfOk result (λ polled. IfNone polled (F.can_poll future.new)) }
    ensures late_gives { IfOk result (λ polled. IfNone polled
        ((x : _) → F.gives future.new x → F.gives future.old x)) }
    ensures failed { IfErr result (λ _. F.can_poll future.new) }
    ensures failed_gives { IfErr result (λ _.
        (x : _) → F.gives future.new x → F.gives future.old x) }
{
    let napper = Napper::new(rt, limit)?;
    for _ in 0..u64::MAX {
        let is_last = napper.is_over(rt)?;
        if let Poll::Ready(output) = napper.poll(future) {
            return Ok(Some(output));
        }
        if is_last {
            return Ok(None);
        }
        napper.nap_until_woken(rt)?;
    }
    Ok(None)
}

/// Polls `futures` on this thread until all are ready, or until `limit` has passed. Returns one
/// entry for each future, in their order: its output, or `None` if it was not ready in time. The
/// caller keeps the futures: one without an output may be waited for again.
///
/// The wait is that of `within`, with one nap for all. Each future is polled at once. Those that
/// are not ready are polled again after any of them is woken, and when the limit has passed. A
/// future that was ready is never polled again.
///
/// Fails as `within` does, but only if no future was ready. Each may then be waited for again. If
/// the clock fails later, the wait ends as if the limit had passed, and no output is lost. Memory
/// for the outputs is allocated before the first poll.
///
/// ```rust
/// let limit = Duration::from_millis(9);
/// let mut answers = [ready(7).left_future(), pending::<i32>().right_future()];
/// println!(rt; "{:?}", within_each(&rt, &mut answers, limit)?)?; // prints [Some(7), None]
/// ```
#[tactic(auto, using(crate::proofs::Fills::each_late, crate::proofs::Fills::each_given, crate::proofs::Fills::each_narrows, crate::proofs::Fills::all_late, crate::proofs::Fills::all_narrow))]
pub fn within_each<R, F>(
    rt: &R,
    futures: &mut [F],
    limit: Duration,
) -> io::Result<Vec<Option<F::Output>>>
where
    R: Clock + RandomSource + AllocGlobal,
    F: Future<Output: Drop>,
    requires { All F.can_poll futures.old }
    ensures length { IfOk result (λ outputs. length outputs.items ≡ length futures.old) }
    ensures ready { IfOk result (λ outputs. EachGiven F.gives futures.old outputs.items) }
    ensures late { IfOk result (λ outputs. EachLate F.can_poll futures.new outputs.items) }
    ensures late_gives { IfOk result (λ outputs.
        EachLateGives F.gives futures.old futures.new outputs.items) }
    ensures failed { IfErr result (λ _. All F.can_poll futures.new) }
    ensures failed_gives { IfErr result (λ _. EachResumes F.gives futures.old futures.new) }
{
    let napper = Napper::new(rt, limit)?;
    let mut outputs = no_outputs(rt.alloc(), futures.len())?;
    match fill(rt, &napper, futures, &mut outputs) {
        Err(error) if !has_output(&outputs) => Err(error),
        _ => Ok(outputs),
    }
}

/// Polls each future that has no output, until all have one, or until the limit has passed.
#[tactic(auto, using(crate::proofs::Fills::each_stays, crate::proofs::Fills::each_late))]
fn fill<R, F>(
    clock: &R,
    napper: &Napper,
    futures: &mut [F],
    outputs: &mut Vec<Option<F::Output>>,
) -> io::Result<()>
where
    R: Clock,
    F: Future<Output: Drop>,
    requires length { length outputs.old.items ≡ length futures.old }
    requires late { EachLate F.can_poll futures.old outputs.old.items }
    ensures { EachFills F.can_poll F.gives
        futures.old outputs.old.items futures.new outputs.new.items }
{
    for _ in 0..u64::MAX {
        let is_last = napper.is_over(clock)?;
        if napper.poll_each(futures, outputs).is_ready() || is_last {
            return Ok(());
        }
        napper.nap_until_woken(clock)?;
    }
    Ok(())
}
