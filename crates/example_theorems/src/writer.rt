//! A cell that one thread writes, and others may only read or write again. Who writes finds exactly
//! what he wrote last.
//!
//! Each value has a token of the list of all that was written, of which the writer has the only
//! `Log`. So no other thread can make a value with a higher number.
ghost use Rattle.std.specs.Prelude.{◌≡◌, ◌≤◌, ◌+◌, ◌⊎◌, [], length, true, nat_le, Option, None, Some, IfOk, IfSome, OnOk};
ghost use Rattle.async_cell_model.specs.Machine.{content};
ghost use Rattle.async_cell_history.specs.History.{GoesOn, IsLinearized, OnlyMakes};
ghost use Rattle.example_theorems.specs.declared.stamped.Stamped.{Stamped as StampedValue};

use crate::Host;
use crate::stamped::{IsWritten, Stamped, newer};
use async_cell_sync::{
    Blank, Kept, Owner, Protocol, Refusal, Reply, TaskWaker, Wakes, Witness, laws,
};
use futures::executor::block_on;
use ghost_tokens::Log;
use std::io;
use std::marker::Brand;
use std::thread::join;

/// A thread writes twice, and finds each time what it wrote, while another one reads.
pub fn write_twice<R: Host>(rt: R) -> Result<io::Result<(u64, u64)>, Refusal>
    ensures exact { IfOk result (λ done. IfOk done (λ both. (both.0 ≡ 5) × (both.1 ≡ 7))) }
{
    let level = Blank::new(rt.alloc(), None);
    let written = Log::open();
    write_named::<Brand, R>(rt, level, written)
}

/// Does so on the cell that `N` names: its values are of this list, and their numbers rise.
fn write_named<N: Protocol<Stamped, TaskWaker> + Send + Sync, R: Host>(
    rt: R,
    level: Blank<Stamped, TaskWaker>,
    written: Log<u64>,
) -> Result<io::Result<(u64, u64)>, Refusal>
    requires named { N.named ≡ Some level }
    requires rule { IfSome (content level.start.cell) N.holds }
    requires none { written.list ≡ [] }
    requires of_list { (it : StampedValue) → N.holds it → it.written.name ≡ written.name }
    requires only { OnlyMakes N.may (GoesOn (λ old new. nat_le old.number new.number ≡ true)) }
    requires may { (old : Option StampedValue) (new : StampedValue)
        → IfSome old (λ it. it.number ≤ new.number) → new.written.name ≡ written.name
        → N.may (Kept.Update old (Some new)) }
    requires may_fail { N.may (Kept.Update None None) }
    ensures exact { IfOk result (λ done. IfOk done (λ both. (both.0 ≡ 5) × (both.1 ≡ 7))) }
{
    let (owner, seen) = Owner::<Stamped, R, N>::witnessed(rt.alloc(), level, rt)?;
    let other = owner.another()?;
    let (both, _) = join(
        &rt,
        move || -> io::Result<(u64, u64)>
            requires { (written.list ≡ [])
                × ((it : StampedValue) → N.holds it → it.written.name ≡ written.name)
                × OnlyMakes N.may (GoesOn (λ old new. nat_le old.number new.number ≡ true))
                × ((old : Option StampedValue) (new : StampedValue)
                → IfSome old (λ it. it.number ≤ new.number) → new.written.name ≡ written.name
                → N.may (Kept.Update old (Some new)))
                × N.may (Kept.Update None None) }
            ensures { IfOk result (λ both. (both.0 ≡ 5) × (both.1 ≡ 7)) }
        { write_both(rt, &owner, written, seen) },
        move || -> io::Result<u64> { Ok(block_on(&rt, other.get())??.value) },
    );
    Ok(both)
}

/// Writes 5, and then 7. Returns what it found after each.
fn write_both<N: Protocol<Stamped, TaskWaker>, R: Host>(
    rt: R,
    owner: &Owner<Stamped, R, N>,
    mut written: Log<u64>,
    seen: Witness<Stamped, TaskWaker, N>,
) -> io::Result<(u64, u64)>
    requires none { written.list ≡ [] }
    requires of_list { (it : StampedValue) → N.holds it → it.written.name ≡ written.name }
    requires only { OnlyMakes N.may (GoesOn (λ old new. nat_le old.number new.number ≡ true)) }
    requires may { (old : Option StampedValue) (new : StampedValue)
        → IfSome old (λ it. it.number ≤ new.number) → new.written.name ≡ written.name
        → N.may (Kept.Update old (Some new)) }
    requires may_fail { N.may (Kept.Update None None) }
    ensures exact { IfOk result (λ both. (both.0 ≡ 5) × (both.1 ≡ 7)) }
{
    let (first, seen) = write(rt, owner, &mut written, 1, 5, seen)?;
    let (second, _) = write(rt, owner, &mut written, 2, 7, seen)?;
    Ok((first, second))
}

/// Writes the value, which is the one of this number, and returns what the cell then holds.
fn write<N: Protocol<Stamped, TaskWaker>, R: Host>(
    rt: R,
    owner: &Owner<Stamped, R, N>,
    written: &mut Log<u64>,
    number: u64,
    value: u64,
    mut seen: Witness<Stamped, TaskWaker, N>,
) -> io::Result<(u64, Witness<Stamped, TaskWaker, N>)>
    requires counted { number ≡ length written.old.list + 1 }
    requires of_list { (it : StampedValue) → N.holds it → it.written.name ≡ written.old.name }
    requires only { OnlyMakes N.may (GoesOn (λ old new. nat_le old.number new.number ≡ true)) }
    requires may { (old : Option StampedValue) (new : StampedValue)
        → IfSome old (λ it. it.number ≤ new.number) → new.written.name ≡ written.old.name
        → N.may (Kept.Update old (Some new)) }
    requires may_fail { N.may (Kept.Update None None) }
    ensures exact { IfOk result (λ found. found.0 ≡ value) }
    ensures of_this { written.new.name ≡ written.old.name }
    ensures counted { length written.new.list ≡ number }
{
    written.push::<_, IsWritten>(&value);
    let new = Stamped {
        value,
        number,
        written: written.seen(),
    };
    put(owner, new, &mut seen)?;
    let (found, now) = look(rt, owner, seen)?;
    let Stamped {
        value: got,
        number: _,
        written: mut known,
    } = found;
    known.learn(&*written);
    now.lawful();
    laws::what_is_got_follows_what_was_put::<Stamped, TaskWaker, N>();
    Ok((got, now))
}

/// Puts the value in, unless the cell holds one of a higher number.
fn put<N: Protocol<Stamped, TaskWaker>, R: Host>(
    owner: &Owner<Stamped, R, N>,
    new: Stamped,
    seen: &mut Witness<Stamped, TaskWaker, N>,
) -> Result<(), Refusal>
    requires of_list { (it : StampedValue) → N.holds it → it.written.name ≡ new.written.name }
    requires may { (old : Option StampedValue) (it : StampedValue)
        → IfSome old (λ was. was.number ≤ it.number) → it.written.name ≡ new.written.name
        → N.may (Kept.Update old (Some it)) }
    requires may_fail { N.may (Kept.Update None None) }
    ensures put { OnOk result ((saw : Option StampedValue) × ((it : StampedValue)
        × (IsLinearized ⟦<TaskWaker as Wakes>⟧ N.named seen.old.calls (Kept.Update saw (Some it))
        Reply.Done seen.new.calls × (new.number ≤ it.number)))) }
{
    owner.update_as(
        seen,
        move |old: Option<Stamped>| -> Option<Stamped>
            ensures { (it : StampedValue) × ((result ≡ Some it) × ((new.number ≤ it.number)
                × (((it ≡ new) ⊎ (old ≡ Some it)) × IfSome old (λ was. was.number ≤ it.number)))) }
        { Some(newer(old, new)) },
    )?;
    Ok(())
}

/// Gets what the cell holds.
fn look<N: Protocol<Stamped, TaskWaker>, R: Host>(
    rt: R,
    owner: &Owner<Stamped, R, N>,
    seen: Witness<Stamped, TaskWaker, N>,
) -> io::Result<(Stamped, Witness<Stamped, TaskWaker, N>)>
    ensures got { IfOk result (λ got. IsLinearized ⟦<TaskWaker as Wakes>⟧ N.named seen.calls
        Kept.TryGet (Reply.Value (Some got.0)) got.1.calls) }
    ensures rule { IfOk result (λ got. N.holds got.0) }
{
    let (found, now) = block_on(&rt, owner.get_as(seen))??;
    laws::an_exact_get_is_linearized::<Stamped, TaskWaker, N>();
    Ok((found, now))
}
