//! An edit of a caller's own, for lists of calls.
ghost use Rattle.std.specs.Prelude.{◌≡◌, IfSome, Some, map, true, vec_len};
ghost use Rattle.async_cell_wakers.specs.Named.{same_name};
ghost use Rattle.async_cell_runs.specs.Kept.{history_of};
ghost use Rattle.async_cell_model.specs.Legal.{Runs};

use async_cell_core::{Answer, Core, Named};
use async_cell_model::laws::with_exact_clones_a_history_is_exact;
use async_cell_runs::{Call, Edit, run};

/// Sets the content to this number, whatever it was.
#[derive(Clone, Copy, Drop)]
pub struct Put(pub u64);

impl Edit<u64> for Put {
    ghost edit = { λ put content. Some put.0 };

    ghost edit_some = { λ put value. put.0 };

    fn edit(&self, _: Option<u64>) -> Option<u64>
        ensures { result ≡ Some self.now.0 }
    {
        Some(self.0)
    }

    fn edit_some(&self, _: u64) -> u64
        ensures { result ≡ self.now.0 }
    {
        self.0
    }
}

/// Makes the calls and returns one answer for each. The answers are exactly those of an optional
/// number with counted owners, since the clone of a number is the number. Returns `None` if there
/// is no memory for the answers; no call is made then.
pub fn made(
    core: &mut Core<u64, Named>,
    calls: Vec<Call<u64, Named, Put>>,
) -> Option<Vec<Answer<u64, Named>>>
    ensures one_each { IfSome result (λ answers. vec_len answers ≡ vec_len calls) }
    ensures model { IfSome result (λ answers.
        Runs same_name true core.old
        (history_of (λ put content. Some put.0) (λ put value. put.0) core.old.cell
        calls.items (map (λ a. a.reply) answers.items))
        (map (λ a. a.woken) answers.items) core.new) }
{
    // For the proof: what `run` promises up to clones holds exactly.
    with_exact_clones_a_history_is_exact::<u64, Named>();
    run(core, calls).ok()
}
