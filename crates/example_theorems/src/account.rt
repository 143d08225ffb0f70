//! The account of a cell. One thread puts values in, the other takes them out. The last owner
//! closes the cell, and by then all that went in has come out.
ghost use Rattle.std.specs.Prelude.{◌≡◌, ℕ, Bool, None, Some, IfSome, OnOk};
ghost use Rattle.std.specs.List.{count_by};
ghost use Rattle.async_cell_model.specs.Machine.{content};
ghost use Rattle.async_cell_history.specs.History.{IsNoSet, OnlyMakes, come_out, gone_in, start_of};

use crate::Host;
use async_cell_sync::{Blank, Kept, Owner, Protocol, Refusal, TaskWaker, Witness, laws};
use std::marker::Brand;
use std::thread::join;

/// One thread pays into a till, and the other is paid from it. Then the till is closed. Returns
/// what was left in it.
pub fn close<R: Host>(rt: R) -> Result<Option<u64>, Refusal> {
    let till = Blank::new(rt.alloc(), None);
    close_named::<Brand, R>(rt, till)
}

/// Does so with the cell that `N` names.
fn close_named<N: Protocol<u64, TaskWaker> + Send + Sync, R: Host>(
    rt: R,
    till: Blank<u64, TaskWaker>,
) -> Result<Option<u64>, Refusal>
    requires named { N.named ≡ Some till }
    requires rule { IfSome (content till.start.cell) N.holds }
    requires empty { content till.start.cell ≡ None }
    requires only { OnlyMakes N.may IsNoSet }
    requires pays { (value : ℕ) → N.may (Kept.Replace value) }
    requires takes { N.may Kept.TryTake }
    requires closes { N.may Kept.TakeInner }
{
    let (owner, mut seen) = Owner::<u64, R, N>::witnessed(rt.alloc(), till, rt)?;
    let other = owner.another()?;
    let ((), owner) = join(
        &rt,
        move ||
            requires { (value : ℕ) → N.may (Kept.Replace value) }
        {
            let _ = other.replace(1);
            let _ = other.replace(2);
        },
        move || -> Owner<u64, R, N>
            requires { N.may Kept.TryTake }
        {
            let _ = owner.try_take();
            owner
        },
    );
    settle(owner, &mut seen).map_err(|_| Refusal::StillShared)
}

/// Closes the cell, and returns what was left in it. For each kind of values, as many have come out
/// as went in, by whatever call of whatever thread.
fn settle<N: Protocol<u64, TaskWaker>, R: Host>(
    owner: Owner<u64, R, N>,
    seen: &mut Witness<u64, TaskWaker, N>,
) -> Result<Option<u64>, Owner<u64, R, N>>
    requires closes { N.may Kept.TakeInner }
    requires empty { content (start_of N.named).cell ≡ None }
    requires only { OnlyMakes N.may IsNoSet }
    ensures balanced { OnOk result ((is_counted : ℕ → Bool)
        → count_by is_counted (come_out seen.new.calls)
        ≡ count_by is_counted (gone_in seen.new.calls)) }
{
    let left = owner.try_into_inner_as(seen)?;
    seen.lawful();
    laws::after_a_close_nothing_is_left::<u64, TaskWaker, N>();
    laws::as_many_come_out_or_are_left_as_went_in::<u64, TaskWaker, N>();
    Ok(left)
}
