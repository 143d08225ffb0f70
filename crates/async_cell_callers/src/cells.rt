//! Calls of both cells: the same words, with the right to wait for those of `sync`. Each is the
//! body of a function, whose module imports the names.

/// Calls that take a closure or clone the value: of a cell, an owner or a locked core.
macro_rules! content {
    ($cell:expr $(, $right:expr)?) => {{
        let cell = $cell;
        let _ = cell.update(|content| content.map(|value: u32| value / 2) $(, $right)?);
        let _ = cell.update_some(|value| value / 2 $(, $right)?);
        let _ = cell.peek(half $(, $right)?);
        let _ = cell.try_get($($right)?);
    }};
}

/// Futures over each pointer to a cell, weak ones that become owners, a stream, guards, and a reply
/// slot. Each future is ready.
macro_rules! waits {
    ($rt:ident $(, $right:ident)?) => {{
        let owner = Owner::new_with($rt.alloc(), 1u32 $(, $right)?)?;
        let _ = block_on(&$rt, owner.get());
        let _ = block_on(&$rt, owner.get_shared()?);
        let taker = owner.take_weak();
        let _ = block_on(&$rt, owner.get_weak());
        drop(taker.upgrade());
        taker.cancel();
        drop(owner.guard_shared(2).ok());
        let _ = block_on(&$rt, owner.take());
        let mut values = owner.take_weak().values();
        drop(owner);
        let _ = block_on(&$rt, values.next());
        values.cancel();
        let (replier, reply) = reply_slot($rt.alloc() $(, $right)?)?;
        let _ = replier.set(1u32);
        let _ = block_on(&$rt, reply);
        Ok(())
    }};
}

/// An owner and a cell of even values: each write puts in an even value, so what is taken is even.
/// `$ruled` makes the owner of a cell that holds 2.
macro_rules! ruled {
    ($rt:ident, $ruled:expr $(, $right:expr)?) => {{
        let owner = $ruled?;
        owner.set(4);
        owner.update(|content| content.map(|value| if value > 100 { 0 } else { value + 2 }));
        drop(owner.guard_shared(6).ok());
        let cell = AsyncCell::<u32, Ruled<Even>>::ruled_with($rt.alloc(), 2);
        cell.set(owner.replace(8).unwrap_or(0) $(, $right)?);
        cell.update_some(|value| if value > 100 { 0 } else { value + 2 } $(, $right)?);
        drop(owner.try_into_inner());
        Ok(cell.try_take($($right)?))
    }};
}

pub(crate) use content;
pub(crate) use ruled;
pub(crate) use waits;
