//! A watcher. One thread raises a level, and the other looks at it twice: it never sees it fall.
ghost use Rattle.std.specs.Prelude.{◌≡◌, ◌≤◌, ℕ, true, nat_le, Option, None, Some, IfOk, IfSome};
ghost use Rattle.async_cell_model.specs.Machine.{content};
ghost use Rattle.async_cell_history.specs.History.{GoesOn, OnlyMakes};

use crate::Host;
use async_cell_sync::{Blank, Kept, Owner, Protocol, Refusal, TaskWaker, Witness, laws};
use futures::executor::block_on;
use std::io;
use std::marker::Brand;
use std::thread::join;

/// One thread raises a level, and the other sees it twice. It does not fall meanwhile.
pub fn watch<R: Host>(rt: R) -> Result<io::Result<(u64, u64)>, Refusal>
    ensures rises { IfOk result (λ looks. IfOk looks (λ both. both.0 ≤ both.1)) }
{
    let level = Blank::new(rt.alloc(), None);
    watch_named::<Brand, R>(rt, level)
}

/// Does so on the cell that `N` names: its level rises, and is never taken out.
fn watch_named<N, R>(rt: R, level: Blank<u64, TaskWaker>) -> Result<io::Result<(u64, u64)>, Refusal>
where
    N: Protocol<u64, TaskWaker> + Send + Sync,
    R: Host,
    requires named { N.named ≡ Some level }
    requires rule { IfSome (content level.start.cell) N.holds }
    requires only { OnlyMakes N.may (GoesOn (λ old new. nat_le old new ≡ true)) }
    requires may { (old : Option ℕ) (new : ℕ) → IfSome old (λ level. level ≤ new)
        → N.may (Kept.Update old (Some new)) }
    requires may_fail { N.may (Kept.Update None None) }
    ensures rises { IfOk result (λ looks. IfOk looks (λ both. both.0 ≤ both.1)) }
{
    let (owner, seen) = Owner::<u64, R, N>::witnessed(rt.alloc(), level, rt)?;
    let other = owner.another()?;
    let ((), looks) = join(
        &rt,
        move ||
            requires { ((old : Option ℕ) (new : ℕ) → IfSome old (λ level. level ≤ new)
                → N.may (Kept.Update old (Some new))) × N.may (Kept.Update None None) }
        {
            raise(1, &owner);
            raise(2, &owner);
        },
        move || -> io::Result<(u64, u64)>
            requires { OnlyMakes N.may (GoesOn (λ old new. nat_le old new ≡ true)) }
            ensures { IfOk result (λ both. both.0 ≤ both.1) }
        { look_twice(rt, &other, seen) },
    );
    Ok(looks)
}

/// Raises the level to this one, if it is lower. It tells nobody.
fn raise<N: Protocol<u64, TaskWaker>, R: Host>(level: u64, owner: &Owner<u64, R, N>)
    requires may { (old : Option ℕ) (new : ℕ) → IfSome old (λ level. level ≤ new)
        → N.may (Kept.Update old (Some new)) }
    requires may_fail { N.may (Kept.Update None None) }
{
    owner.update(|old| match old {
        Some(old) if old > level => Some(old),
        _ => Some(level),
    });
}

/// Returns two levels, one after the other.
fn look_twice<N: Protocol<u64, TaskWaker>, R: Host>(
    rt: R,
    owner: &Owner<u64, R, N>,
    seen: Witness<u64, TaskWaker, N>,
) -> io::Result<(u64, u64)>
    requires may { OnlyMakes N.may (GoesOn (λ old new. nat_le old new ≡ true)) }
    ensures rises { IfOk result (λ both. both.0 ≤ both.1) }
{
    let (first, once) = block_on(&rt, owner.get_as(seen))??;
    let (second, twice) = block_on(&rt, owner.get_as(once))??;
    twice.lawful();
    laws::an_exact_get_is_linearized::<u64, TaskWaker, N>();
    laws::what_is_got_never_goes_back::<u64, TaskWaker, N>();
    Ok((first, second))
}
