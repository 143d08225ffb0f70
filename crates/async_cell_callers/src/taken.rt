//! What a caller may conclude from a value that it was told: nobody else took it.
ghost use Rattle.std.specs.Prelude.{◌≡◌, ℕ, Some, IfOk};
ghost use Rattle.async_cell_recorded.specs.Counting.{from_bool, picked};
ghost use Rattle.async_cell_callers.specs.Taken.{hands_out};

use async_cell_model::Kept;
use async_cell_recorded::{Blanks, Entry, History, Named, Pick, Recorded, Refusal, Reply, Wakers};
use std::alloc::Global;
use std::marker::Brand;
use std::sync::Wait;

/// What a call was answered, and the history of its cell.
#[derive(Drop)]
pub struct FiveTaken {
    /// The entry of the call.
    pub entry: Entry<u32>,

    /// The names that it handed out.
    pub names: Wakers<Named>,

    /// The history, once the cell was finished.
    pub history: History<u32>,
}

/// The same for a cell that is named by `M`, whose test picks the entries that hand a value out.
fn take_five<M: Pick<u32>>(
    alloc: Global,
    blanks: Blanks,
    rt: &impl Wait,
) -> Result<FiveTaken, Refusal>
    requires calls { (blanks.calls.name ≡ M.calls) × (blanks.calls.parts ≡ 1) }
    requires picked { (blanks.picked.name ≡ M.picked) × (blanks.picked.parts ≡ 1) }
    requires shares { M.shares ≡ 1 }
    requires pick { M.pick ≡ hands_out }
    ensures take { IfOk result (λ told. told.entry.call ≡ Kept.TryTake) }
    ensures as_told { IfOk result (λ told.
        picked hands_out told.history ≡ from_bool (hands_out told.entry told.names)) }
{
    let (cell, mut shares) = Recorded::<u32, M>::new(alloc, 1, blanks)?;
    let Some(mut share) = shares.pop() else {
        return Err(Refusal::ShareMissing);
    };
    let (_, woken) = cell.set(&mut share, 5, rt)?;
    woken.wake_all();
    let (entry, names) = cell.try_take(&mut share, rt)?;
    shares.push_reserved(share);
    let history = cell.finish(shares).map_err(|_| Refusal::ShareMissing)?;
    Ok(FiveTaken {
        entry,
        names,
        history,
    })
}

/// Puts five into a new cell, and takes the value. If the take was told a value, exactly one entry
/// of the finished history hands a value out. So nobody else was handed it.
pub fn five_taken(alloc: Global, rt: &impl Wait) -> Result<FiveTaken, Refusal>
    ensures take { IfOk result (λ told. told.entry.call ≡ Kept.TryTake) }
    ensures as_told { IfOk result (λ told.
        picked hands_out told.history ≡ from_bool (hands_out told.entry told.names)) }
    ensures nobody_else { IfOk result (λ told. (v : ℕ)
        → told.entry.reply ≡ Reply.Value (Some v) → picked hands_out told.history ≡ 1) }
{
    take_five::<Brand>(alloc, Blanks::new(1), rt)
}
