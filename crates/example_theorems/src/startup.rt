//! A start-up value. Two threads offer one each, the first that comes is set, and both get it.
ghost use Rattle.std.specs.Prelude.{◌≡◌, ℕ, Some, IfOk, IfSome};
ghost use Rattle.async_cell_model.specs.Machine.{content};
ghost use Rattle.async_cell_model.specs.declared.entry.Kept.TheVariants.{TryGet};
ghost use Rattle.async_cell_model.specs.declared.reply.Reply.TheVariants.{Value};
ghost use Rattle.async_cell_history.specs.History.{HasEntry, IsOrSet, OnlyMakes};

use crate::Host;
use async_cell_sync::{Blank, Kept, Owner, Protocol, Refusal, TaskWaker, Witness, laws};
use futures::executor::block_on;
use std::io;
use std::marker::Brand;
use std::thread::join;

/// Two threads get one and the same value, if both get one.
pub fn start<R: Host>(rt: R) -> Result<(io::Result<u64>, io::Result<u64>), Refusal>
    ensures alike { IfOk result (λ both. IfOk both.0 (λ v. IfOk both.1 (λ w. v ≡ w))) }
{
    let value = Blank::new(rt.alloc(), None);
    start_named::<Brand, R>(rt, value)
}

/// Does so on the cell that `N` names: values are set where there is none, and in no other way.
fn start_named<N: Protocol<u64, TaskWaker> + Send + Sync, R: Host>(
    rt: R,
    value: Blank<u64, TaskWaker>,
) -> Result<(io::Result<u64>, io::Result<u64>), Refusal>
    requires named { N.named ≡ Some value }
    requires rule { IfSome (content value.start.cell) N.holds }
    requires only { OnlyMakes N.may IsOrSet }
    requires may { (value : ℕ) → N.may (Kept.OrSet value) }
    ensures alike { IfOk result (λ both. IfOk both.0 (λ v. IfOk both.1 (λ w. v ≡ w))) }
{
    let (owner, seen) = Owner::<u64, R, N>::witnessed(rt.alloc(), value, rt)?;
    let other = owner.another()?;
    let (mut one, mut two) = (seen.again(), seen);
    let ((first, one), (second, two)) = join(
        &rt,
        move || -> (io::Result<u64>, Witness<u64, TaskWaker, N>)
            requires { (value : ℕ) → N.may (Kept.OrSet value) }
            ensures { IfOk result.0 (λ v. HasEntry result.1.calls TryGet (Value (Some v))) }
        { (offer(1, rt, &owner, &mut one), one) },
        move || -> (io::Result<u64>, Witness<u64, TaskWaker, N>)
            requires { (value : ℕ) → N.may (Kept.OrSet value) }
            ensures { IfOk result.0 (λ v. HasEntry result.1.calls TryGet (Value (Some v))) }
        { (offer(2, rt, &other, &mut two), two) },
    );
    let seen = one.longer(&two);
    seen.lawful();
    laws::what_was_seen_stays::<u64, TaskWaker, N>();
    laws::what_is_set_once_all_get::<u64, TaskWaker, N>();
    Ok((first, second))
}

/// Sets this value if there is none, and gets the one that is there.
fn offer<N: Protocol<u64, TaskWaker>, R: Host>(
    value: u64,
    rt: R,
    owner: &Owner<u64, R, N>,
    seen: &mut Witness<u64, TaskWaker, N>,
) -> io::Result<u64>
    requires may { N.may (Kept.OrSet value) }
    ensures got { IfOk result (λ v. HasEntry seen.new.calls TryGet (Value (Some v))) }
{
    let _ = owner.try_set(value);
    let (value, now) = block_on(&rt, owner.get_as(seen.again()))??;
    *seen = now;
    laws::an_exact_get_is_linearized::<u64, TaskWaker, N>();
    laws::what_was_seen_stays::<u64, TaskWaker, N>();
    Ok(value)
}
