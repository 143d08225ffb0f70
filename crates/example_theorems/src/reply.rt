//! A reply is what was set. The thread that replies picks a value, and says afterwards which: the
//! asker has got that one.
ghost use Rattle.std.specs.Prelude.{◌≡◌, [], ◌∷◌, IfOk};
ghost use Rattle.example_theorems.specs.declared.signed.Signed.{Signed as SignedValue};

use crate::Host;
use crate::signed::{IsSet, Signed};
use anyhow::Result;
use async_cell_sync::{Replier, Rule, Ruled, reply_slot_of};
use futures::executor::block_on;
use ghost_tokens::Log;
use std::io;
use std::marker::Brand;
use std::thread::join;

/// Asks a thread for a number. Returns the reply, and the number that the thread set.
pub fn ask<R: Host>(rt: R) -> Result<(u64, u64)>
    ensures same { IfOk result (λ both. both.0 ≡ both.1) }
{
    let set = Log::open();
    ask_named::<Brand, R>(rt, set)
}

/// Does so by a slot whose rule is `P`: that the value was set in this list.
fn ask_named<P: Rule<Signed> + Send + Sync, R: Host>(rt: R, set: Log<u64>) -> Result<(u64, u64)>
    requires none { set.list ≡ [] }
    requires rule { (it : SignedValue) → it.set.name ≡ set.name → P.holds it }
    requires only { (it : SignedValue) → P.holds it → it.set.name ≡ set.name }
    ensures same { IfOk result (λ both. both.0 ≡ both.1) }
{
    let (replier, reply) = reply_slot_of::<P, Signed, _>(rt.alloc(), rt)?;
    let (given, (value, set)) = join(
        &rt,
        move || -> io::Result<Signed>
            ensures { IfOk result P.holds }
        { Ok(block_on(&rt, reply)??) }, // `Closed`, if the replier was dropped
        move || -> (u64, Log<u64>)
            requires { (set.list ≡ [])
                × ((it : SignedValue) → it.set.name ≡ set.name → P.holds it) }
            ensures { (result.1.list ≡ result.0 ∷ []) × (result.1.name ≡ set.name) }
        { answer(replier, set) },
    );
    let Signed {
        value: given,
        set: mut seen,
    } = given?;
    seen.learn(&set);
    Ok((given, value))
}

/// Picks a value, sets it, and returns it with the list of what was set.
fn answer<P: Rule<Signed>, R: Host>(
    replier: Replier<Signed, R, Ruled<P>>,
    mut set: Log<u64>,
) -> (u64, Log<u64>)
    requires none { set.list ≡ [] }
    requires rule { (it : SignedValue) → it.set.name ≡ set.name → P.holds it }
    ensures set { result.1.list ≡ result.0 ∷ [] }
    ensures of_this { result.1.name ≡ set.name }
{
    let value = pick();
    set.push::<_, IsSet>(&value);
    let _ = replier.set(Signed {
        value,
        set: set.seen(),
    });
    (value, set)
}

/// Returns some value. No contract says which.
fn pick() -> u64 {
    42
}
