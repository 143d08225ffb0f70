//! Calls of an owner that extend a witness, and what laws say of them.
ghost use Rattle.std.specs.Prelude.{◌≡◌, ◌+◌, ℕ, Bool, Some, true, IfSome, option_to_list};
ghost use Rattle.std.specs.List.{count_by};
ghost use Rattle.async_cell_model.specs.declared.entry.Kept.{Kept as Called};
ghost use Rattle.async_cell_model.specs.Machine.{content, ends_waiting};
ghost use Rattle.async_cell_model.specs.History.{IsCovered, cell_after};
ghost use Rattle.async_cell_history.specs.History.{IsLinearized, StillWaits, come_out, dropped, gone_in, start_of, write_reply};
ghost use Rattle.async_cell_sync.specs.declared.TaskWaker.{TaskWaker as Waker};

use crate::Host;
use async_cell_model::Kept;
use async_cell_sync::{Author, Blank, Owner, Protocol, TaskWaker, Wakes, Witness, laws};
use futures::StreamExt;
use futures::executor::block_on;
use std::marker::Brand;
use std::sync::Wait;

/// The number of the first taker.
struct First;

impl Author for First {
    ghost number = { 1 };
}

/// Takes the value, if there is one. All that went in so far has then come out, or was dropped.
fn take_last<N: Protocol<u64, TaskWaker>, R: Wait + Copy>(
    owner: &Owner<u64, R, N>,
    seen: &mut Witness<u64, TaskWaker, N>,
) -> Option<u64>
    requires may { N.may Kept.TryTake }
    ensures none_left { (is_counted : ℕ → Bool)
        → count_by is_counted (come_out seen.new.calls)
        + count_by is_counted (dropped (start_of N.named).cell seen.new.calls)
        ≡ count_by is_counted (option_to_list (content (start_of N.named).cell))
        + count_by is_counted (gone_in seen.new.calls) }
{
    let last = owner.try_take_as(seen);
    seen.lawful();
    laws::as_many_come_out_or_are_left_as_went_in::<u64, TaskWaker, N>();
    last
}

/// Sets the value if there is none. If that fills the cell, it wakes the waker of each poll that
/// waits, or one that would wake it.
fn fill<N: Protocol<u64, TaskWaker>, R: Wait + Copy>(
    owner: &Owner<u64, R, N>,
    seen: &mut Witness<u64, TaskWaker, N>,
    value: u64,
) -> Result<Option<u64>, u64>
    requires may { N.may (Kept.OrSet value) }
    ensures wakes { (told : IsLinearized ⟦<TaskWaker as Wakes>⟧ N.named seen.old.calls
        (Kept.OrSet value) (write_reply result) seen.new.calls)
        × ((w : Waker) → StillWaits (start_of N.named).cell w told.before
        → ends_waiting (cell_after (start_of N.named).cell told.before)
        (cell_after (start_of N.named).cell seen.new.calls) ≡ true
        → IsCovered ⟦<TaskWaker as Wakes>⟧.will_wake told.woken w) }
{
    let set = owner.or_set_as(seen, value);
    seen.lawful();
    laws::a_fill_or_close_wakes_who_waits::<u64, TaskWaker, N>();
    set
}

/// Makes each call that extends a witness, and a get that extends none, on the cell that `N` names.
fn all_named<N: Protocol<u64, TaskWaker>, R: Host>(
    rt: R,
    blank: Blank<u64, TaskWaker>,
) -> anyhow::Result<()>
    requires named { N.named ≡ Some blank }
    requires rule { IfSome (content blank.start.cell) N.holds }
    requires may { (call : Called ℕ Waker) → N.may call }
{
    let (owner, mut one) = Owner::<u64, R, N>::witnessed(rt.alloc(), blank, rt)?;
    let other = one.again();
    one.sign_as::<First>();
    drop(owner.another_as(&mut one)?);
    let _ = owner.set_as(&mut one, 1);
    let _ = take_last(&owner, &mut one);
    let _ = fill(&owner, &mut one, 2);
    let _ = owner.replace_as(&mut one, 3);
    let _ = owner.update_as(&mut one, |content| content.map(|value| value / 2));
    let _ = owner.update_some_as(&mut one, |value| value / 2);
    let _ = owner.try_get_as(&mut one)?;
    owner.set(4);
    let (_, one) = block_on(&rt, owner.get_as(one))??;
    let (_, one) = block_on(&rt, owner.take_as(one))??;
    let one = one.longer(&other);
    owner.set(1);
    let _ = block_on(&rt, owner.get())??;
    let weak = owner.downgrade();
    let _ = weak.is_closed()?;
    let _ = weak.is_set()?;
    let _ = block_on(&rt, weak.get_as(one.again()))??;
    let mut values = weak.take_as(one).values();
    let _ = block_on(&rt, values.next())?;
    Ok(())
}

/// Makes them, on a cell of which any call may be made.
pub fn all<R: Host>(rt: R) -> anyhow::Result<()> {
    all_named::<Brand, R>(rt, Blank::new(rt.alloc(), None))
}
