//! Calls of an owner, which extend a witness or do not: a value is set, and then taken (`reply`) or
//! cloned (`watch`).
ghost use Rattle.std.specs.Prelude.{◌≡◌, ℕ, Some, IfSome};
ghost use Rattle.async_cell_model.specs.Machine.{content};
ghost use Rattle.async_cell_model.specs.declared.entry.Kept.{Kept};
ghost use Rattle.async_cell_sync.specs.declared.TaskWaker.{TaskWaker as Waker};

use crate::asked::{Asked, Hidden};
use async_cell_sync::{Blank, Owner, Protocol, Refusal, TaskWaker};
use std::alloc::AllocGlobal;
use std::marker::Brand;
use std::sync::Wait;

/// Runs what is asked for on a cell with a history, and returns what it counted: 0 if there is no
/// memory.
pub fn count<R: Wait + AllocGlobal + Copy>(asked: &Asked, hidden: &Hidden, rt: R) -> u64 {
    count_named::<Brand, R>(asked, hidden, Blank::new(rt.alloc(), None), rt).unwrap_or(0)
}

/// Sets each number, and adds up what the second call finds.
macro_rules! summed {
    ($asked:ident, $hidden:ident, |$value:ident| $set:expr, $found:expr) => {{
        let mut sum = 0u64;
        for i in 0..$asked.rounds {
            let $value = $hidden.number(i);
            $set;
            sum = sum.wrapping_add($found);
        }
        sum
    }};
}

/// Does the same on the cell that `N` names, of which any call may be made.
fn count_named<N: Protocol<u64, TaskWaker>, R: Wait + AllocGlobal + Copy>(
    asked: &Asked,
    hidden: &Hidden,
    blank: Blank<u64, TaskWaker>,
    rt: R,
) -> Result<u64, Refusal>
    requires named { N.named ≡ Some blank }
    requires rule { IfSome (content blank.start.cell) N.holds }
    requires may { (call : Kept ℕ Waker) → N.may call }
{
    let (owner, mut seen) = Owner::<u64, R, N>::witnessed(rt.alloc(), blank, rt)?;
    Ok(match (asked.kind.as_str(), asked.workload.as_str()) {
        ("as", "reply") => summed!(
            asked,
            hidden,
            |value| drop(owner.set_as(&mut seen, value)),
            owner.try_take_as(&mut seen).unwrap_or(0)
        ),
        ("as", _) => summed!(
            asked,
            hidden,
            |value| drop(owner.set_as(&mut seen, value)),
            owner.try_get_as(&mut seen)?.unwrap_or(0)
        ),
        (_, "reply") => summed!(
            asked,
            hidden,
            |value| owner.set(value),
            owner.try_take().unwrap_or(0)
        ),
        _ => summed!(
            asked,
            hidden,
            |value| owner.set(value),
            owner.try_get()?.unwrap_or(0)
        ),
    })
}
