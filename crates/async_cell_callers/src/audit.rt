//! An audit: four threads share a cell, and its history is looked at afterwards.
ghost use Rattle.std.specs.Prelude.{◌≡◌, length, IfOk};
ghost use Rattle.std.specs.List.{sum};
ghost use Rattle.async_cell_recorded.specs.Recording.{IsRecorded};

use crate::put::Put;
use async_cell_recorded::{History, Pick, Recorded, Refusal, Session, Share, with_recorded};
use std::alloc::Global;
use std::sync::Wait;
use std::thread::Threads;

/// How many values each thread puts in.
const CALLS: u64 = 100;

/// Each of the threads puts its own values into the cell, and replaces those of the others.
/// Then it makes two edits.
#[derive(Drop)]
struct Replacing;

impl Session for Replacing {
    type Value = u64;

    type Outcome = u64;

    ghost describes = { λ answered share. answered ≡ share.count };

    /// Gives how many calls were answered.
    fn run<M: Pick<u64>, R: Wait>(
        &self,
        rt: &R,
        cell: &Recorded<u64, M>,
        share: &mut Share<M>,
    ) -> u64 {
        let first = u64::from(share.number()) * CALLS;
        for value in first..first + CALLS {
            if let Ok((_, woken)) = cell.replace(share, value, rt) {
                woken.wake_all();
            }
        }
        let _ = cell.update(share, Put(4), rt);
        let _ = cell.update_some(share, Put(5), rt);
        share.count()
    }
}

/// What four threads did with one cell: how many calls of each were answered, and the history. It
/// is legal, begins with four owners, and has as many entries as calls were answered.
#[tactic(auto, using(crate::proofs::Audited::sum_counts))]
pub fn audited<R: Threads + Wait + Sync>(
    rt: &R,
    alloc: Global,
) -> Result<(Vec<u64>, History<u64>), Refusal>
    ensures recorded { IfOk result (λ done. IsRecorded done.1 × (done.1.begin ≡ 4)) }
    ensures counted { IfOk result (λ done. length done.1.entries ≡ sum done.0.items) }
{
    with_recorded(rt, alloc, 4, &Replacing)
}
