//! A task whose thread naps until the task is woken, up to a time limit.
ghost use Rattle.std.specs.Duration.{as_nanos};
ghost use Rattle.futures.specs.Poll.{IfReady, OnPending};
ghost use Rattle.std.specs.Prelude.{All, IsSome, max, min, length, ◌/◌, ◌≡◌};
ghost use Rattle.async_cell_within.specs.Each.{EachFills, EachLate};

use crate::each::poll_each;
use futures::future::Future;
use futures::task::{Doorbell, Poll, Solo};
use std::alloc::AllocGlobal;
use std::random::RandomSource;
use std::time::{Clock, Duration, Instant};
use std::{io, thread};

const SHORTEST_NAP_NANOS: u64 = 50_000;

const LONGEST_NAP_NANOS: u64 = 5_000_000;

/// The next nap takes one part in `PART` of the time that the wait took so far.
const PART: u32 = 16;

/// One task, and the time that its wait may take. No thread ever waits at the `Doorbell` of the
/// task, so a wake of the task ends no thread's wait.
#[derive(Drop)]
pub struct Napper {
    task: Solo,
    start: Instant,
    limit: Duration,
}

impl Napper {
    /// Makes a `Napper`, which is one task, whose wait begins now. Fails if there is no clock, no
    /// memory, or no random number to identify the task.
    pub fn new<R>(rt: &R, limit: Duration) -> io::Result<Napper>
    where
        R: Clock + RandomSource + AllocGlobal,
    {
        let start = Instant::now(rt)?;
        let task = Solo::new(rt, Doorbell::parking())?;
        Ok(Napper { task, start, limit })
    }

    /// Whether the limit has passed.
    pub fn is_over(&self, clock: &impl Clock) -> io::Result<bool> {
        Ok(self.start.elapsed(clock)? >= self.limit)
    }

    /// Polls the future as this task.
    pub fn poll<F: Future>(&self, future: &mut F) -> Poll<F::Output>
        requires { F.can_poll future.old }
        ensures value { IfReady result (F.gives future.old) }
        ensures again { OnPending result (F.can_poll future.new) }
        ensures same { OnPending result ((x : _) → F.gives future.new x → F.gives future.old x) }
    {
        let mut cx = self.task.begin();
        let polled = future.poll(&mut cx);
        cx.end(&polled);
        polled
    }

    /// Polls each future that has no output as this task, in one poll of the task. It is ready if
    /// each future has an output then.
    pub fn poll_each<F: Future<Output: Drop>>(
        &self,
        futures: &mut [F],
        outputs: &mut Vec<Option<F::Output>>,
    ) -> Poll<()>
        requires length { length outputs.old.items ≡ length futures.old }
        requires late { EachLate F.can_poll futures.old outputs.old.items }
        ensures ready { IfReady result (λ _. All IsSome outputs.new.items) }
        ensures fills { EachFills F.can_poll F.gives
            futures.old outputs.old.items futures.new outputs.new.items }
    {
        let mut cx = self.task.begin();
        let all = poll_each(futures, outputs, &mut cx);
        cx.end(&all);
        all
    }

    /// Naps until the task is woken, or until the limit has passed. Takes no nap if the task was
    /// woken since its last poll began.
    pub fn nap_until_woken(&self, clock: &impl Clock) -> io::Result<()> {
        for _ in 0..u64::MAX {
            let passed = self.start.elapsed(clock)?;
            if self.is_woken() || passed >= self.limit {
                return Ok(());
            }
            let left = self.limit.saturating_sub(passed);
            thread::sleep(clock, nap_after(passed).min(left));
        }
        Ok(())
    }

    /// Whether the task was woken since its last poll began.
    fn is_woken(&self) -> bool {
        match self.task.sleep() {
            Some(asleep) => {
                asleep.end();
                false
            }
            None => true,
        }
    }
}

/// How long to nap in a wait that took so long.
fn nap_after(passed: Duration) -> Duration
    ensures { as_nanos result ≡ min (max (as_nanos passed / 16) 50000) 5000000 }
{
    let shortest = Duration::from_nanos(SHORTEST_NAP_NANOS);
    let longest = Duration::from_nanos(LONGEST_NAP_NANOS);
    (passed / PART).max(shortest).min(longest)
}
