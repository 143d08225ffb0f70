//! Sharing a recorded cell among threads, without a proof by the caller.
ghost use Rattle.std.specs.Prelude.{◌≡◌, ◌≤◌, ⊤, false, [], length, vec_len, vec_capacity, map};
ghost use Rattle.std.specs.{Prelude.IfOk, List.All, List.AllZip};
ghost use Rattle.async_cell_model.specs.Refusal.{FailsWithMemory};
ghost use Rattle.async_cell_recorded.specs.Counting.{ShareState, Test};
ghost use Rattle.async_cell_recorded.specs.Outcomes.{AreOutcomes, HasEnded, IsNew};
ghost use Rattle.async_cell_recorded.specs.Recording.{IsRecorded};

use crate::{Blanks, History, Marker, Pick, Recorded, Refusal, Share};
use std::alloc::{AllocError, Global};
use std::marker::Brand;
use std::sync::Wait;
use std::thread::{self, Threads};

/// What threads do with a recorded cell.
pub trait Session {
    /// The type of the values of the cell.
    type Value;

    /// What a thread returns.
    type Outcome;

    /// Which results of calls are picked, as [`Pick`] says. If you leave it out, none is.
    ghost pick: { Test Self.Value } = { λ _ _. false };

    /// What an outcome says of its thread's share: of the share's number, its count of calls, and
    /// how many of its results were picked. If you leave it out, an outcome says nothing.
    ghost describes: { Self.Outcome → ShareState → Type 0 } = { λ _ _. ⊤ };

    /// What one thread does with the cell, through its share, which is new. Each thread has a share
    /// with another number.
    fn run<M: Pick<Self::Value>, R: Wait>(
        &self,
        rt: &R,
        cell: &Recorded<Self::Value, M>,
        share: &mut Share<M>,
    ) -> Self::Outcome
        requires new { (share.old.count ≡ 0) × (share.old.picked ≡ 0) }
        requires pick { M.pick ≡ pick }
        ensures described { describes result (record share.new { number = share.old.number }) };
}

/// Runs a session on a new cell, once for each share, each run in a thread of its own, if one can
/// be started. The cell begins open, without a value and with an owner for each share. Once all
/// runs have ended, the cell is finished, by `Recorded::finish`.
///
/// Returns the outcomes of the threads, in the order of the shares' numbers, and the history. Each
/// outcome is related to its share as `Session::describes` says. The length of the history is the
/// sum of the shares' counts of calls. The number of the history's entries that pass the test
/// `Session::pick` is the sum of the shares' counts of picked results.
///
/// Fails with `Memory` if there is no memory for the cell, its shares or the outcomes. All of that
/// is allocated before the first run begins. If calls of a run fail, the run's outcome may report
/// the failures. If no thread can be started, the runs are executed one after another. So a run
/// must not wait for another run.
pub fn with_recorded<
    T: Copy + Send,
    O: Send + Drop,
    S: Session<Value = T, Outcome = O> + Sync,
    R: Threads + Wait + Sync,
>(rt: &R, alloc: Global, shares: u32, session: &S) -> Result<(Vec<O>, History<T>), Refusal>
    requires { 1 ≤ shares }
    ensures one_each { IfOk result (λ done. vec_len done.0 ≡ shares) }
    ensures begins { IfOk result (λ done. done.1.begin ≡ shares) }
    ensures recorded { IfOk result (λ done. IsRecorded done.1) }
    ensures outcomes { IfOk result (λ done.
        AreOutcomes S.describes S.pick shares done.0.items done.1) }
    ensures refused { FailsWithMemory result }
{
    run_marked::<T, O, S, R, Brand>(rt, alloc, shares, Blanks::new(shares), session)
}

/// Does the same for a cell that is named by `M`.
fn run_marked<
    T: Copy + Send,
    O: Send + Drop,
    S: Session<Value = T, Outcome = O> + Sync,
    R: Threads + Wait + Sync,
    M: Pick<T> + Send + Sync,
>(
    rt: &R,
    alloc: Global,
    shares: u32,
    blanks: Blanks,
    session: &S,
) -> Result<(Vec<O>, History<T>), Refusal>
    requires some { 1 ≤ shares }
    requires shares { shares ≡ M.shares }
    requires pick { M.pick ≡ S.pick }
    requires calls { (blanks.calls.name ≡ M.calls) × (blanks.calls.parts ≡ M.shares) }
    requires picked { (blanks.picked.name ≡ M.picked) × (blanks.picked.parts ≡ M.shares) }
    ensures one_each { IfOk result (λ done. vec_len done.0 ≡ shares) }
    ensures begins { IfOk result (λ done. done.1.begin ≡ shares) }
    ensures recorded { IfOk result (λ done. IsRecorded done.1) }
    ensures outcomes { IfOk result (λ done.
        AreOutcomes S.describes S.pick shares done.0.items done.1) }
    ensures refused { FailsWithMemory result }
{
    let (cell, made) = Recorded::<T, M>::new(alloc, shares, blanks)?;
    let mut outcomes = Vec::new(alloc);
    outcomes.reserve_exact(made.len())?;
    let mut ended = Vec::new(alloc);
    ended.reserve_exact(made.len())?;
    let mut seats = seated(alloc, made)?;
    in_threads::<T, O, S, R, M>(rt, &cell, &mut seats, session);
    part::<O, S, M>(seats, &mut outcomes, &mut ended);
    match cell.finish(ended) {
        Ok(history) => Ok((outcomes, history)),
        Err(_) => Err(Refusal::ShareMissing),
    }
}

/// A share, and what its thread returned, once it has ended.
#[derive(Drop)]
struct Seat<S, O> {
    share: S,
    outcome: Option<O>,
}

/// Makes a seat for each share. Fails if there is no memory.
fn seated<O: Drop, M: Marker>(
    alloc: Global,
    shares: Vec<Share<M>>,
) -> Result<Vec<Seat<Share<M>, O>>, AllocError>
    ensures one_each { IfOk result (λ seats. vec_len seats ≡ vec_len shares) }
    ensures shares { IfOk result (λ seats.
        seats.items ≡ map (λ share. record { share = share; outcome = None }) shares.items) }
{
    let seats = shares.into_iter().map(|share| Seat {
        share,
        outcome: None,
    });
    seats.collect(alloc)
}

/// Runs the session for each share, in a thread of its own. Takes no memory.
fn in_threads<
    T: Copy + Send,
    O: Send + Drop,
    S: Session<Value = T, Outcome = O> + Sync,
    R: Threads + Wait + Sync,
    M: Pick<T> + Send + Sync,
>(rt: &R, cell: &Recorded<T, M>, seats: &mut [Seat<Share<M>, O>], session: &S)
    requires pick { M.pick ≡ S.pick }
    requires new { All (λ seat. IsNew seat.share) seats.old }
    ensures one_each { length seats.new ≡ length seats.old }
    ensures numbers { map (λ share. share.number) (map (λ seat. seat.share) seats.new)
        ≡ map (λ share. share.number) (map (λ seat. seat.share) seats.old) }
    ensures ended { All (HasEnded S.describes) seats.new }
{
    let threads = seats.len().max(1);
    thread::for_each_mut(
        rt,
        seats,
        threads,
        &|_, seat| run_one::<T, O, S, R, M>(rt, cell, seat, session),
    );
}

/// Runs the session for one share. Whatever the session does, the share's number stays the same.
fn run_one<T: Copy, O: Drop, S: Session<Value = T, Outcome = O>, R: Wait, M: Pick<T>>(
    rt: &R,
    cell: &Recorded<T, M>,
    seat: &mut Seat<Share<M>, O>,
    session: &S,
)
    requires pick { M.pick ≡ S.pick }
    requires new { IsNew seat.old.share }
    ensures number { seat.new.share.number ≡ seat.old.share.number }
    ensures ended { HasEnded S.describes seat.new }
{
    let given = seat.share.number;
    let outcome = session.run::<M, R>(rt, cell, &mut seat.share);
    seat.share.number = given;
    seat.outcome = Some(outcome);
}

/// Splits the seats into the outcomes and the shares. There is room for both.
fn part<O: Drop, S: Session<Outcome = O>, M: Marker>(
    seats: Vec<Seat<Share<M>, O>>,
    outcomes: &mut Vec<O>,
    shares: &mut Vec<Share<M>>,
)
    requires ended { All (HasEnded S.describes) seats.items }
    requires empty { (outcomes.old.items ≡ []) × (shares.old.items ≡ []) }
    requires room { (vec_len seats ≤ vec_capacity outcomes.old)
        × (vec_len seats ≤ vec_capacity shares.old) }
    ensures outcomes { vec_len outcomes.new ≡ vec_len seats }
    ensures one_each { vec_len shares.new ≡ vec_len seats }
    ensures described { AllZip S.describes outcomes.new.items shares.new.items }
    ensures shares { shares.new.items ≡ map (λ seat. seat.share) seats.items }
{
    for seat in seats {
        let Seat { share, outcome } = seat;
        let Some(outcome) = outcome else {
            unreachable!();
        };
        outcomes.push_reserved(outcome);
        shares.push_reserved(share);
    }
}
