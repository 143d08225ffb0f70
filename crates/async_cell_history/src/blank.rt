//! How the history of a cell begins.
ghost use Rattle.std.specs.Prelude.{◌≡◌, [], None, Option, IsSome};
ghost use Rattle.async_cell_model.specs.declared.cell.Cell.TheVariants.{Open};
ghost use Rattle.async_cell_model.specs.Machine.{owners_of};

use crate::Signed;
use async_cell_core::{Core, Wakes};
use ghost_tokens::{Count, Log, Makes, Permit};
use std::alloc::Global;
use std::marker::Model;

/// What a cell will be made of: its first content. The cell's history begins here. A type can name
/// the history. To get a type that names the history, write a function that is generic over this
/// type, and call the function with `std::marker::Brand` as the type argument (see `Protocol`).
pub struct Blank<T: Drop, W: Wakes> {
    core: Core<T, W>,
    opened: Opened<T, W>,
    permit: Permit,
}

/// Contracts see how the history begins.
impl<T: Drop, W: Wakes> Model for Blank<T, W> {
    ghost use Rattle.std.specs.Prelude.{◌≡◌, IsSome};
    ghost use Rattle.async_cell_history.specs.History.{Begun};

    ghost Value = { Begun T W };

    ghost view = { λ b. b.opened };

    ghost invariant = { λ b. (b.opened.start ≡ b.core) × (b.permit.name ≡ b.opened.permits)
        × IsSome b.opened.permits };
}

impl<T: Drop, W: Wakes> Blank<T, W> {
    /// Makes the blank of a cell that begins with this content and one owner.
    pub fn new(alloc: Global, content: Option<T>) -> Self
        ensures { result.start ≡ record { cell = Open content 1; waiting = []; room = 0 } }
    {
        let core = Core::owned_by(alloc, content, 1);
        let (opened, permit) = Opened::counted(&core);
        Blank {
            core,
            opened,
            permit,
        }
    }

    /// Returns the core, the history that begins with this core, and the permit of the core's
    /// owner.
    pub(crate) fn into_parts(self) -> (Core<T, W>, Opened<T, W>, Permit)
        ensures core { result.0 ≡ self.start }
        ensures opened { result.1 ≡ self }
        ensures counted { IsSome self.permits }
        ensures permit { result.2.name ≡ self.permits }
    {
        let Blank {
            core,
            opened,
            permit,
        } = self;
        (core, opened, permit)
    }
}

impl<T: Drop, W: Wakes> Drop for Blank<T, W> {
    fn drop(self) {
        let Blank {
            core: _,
            opened: _,
            permit,
        } = self;
        permit.lose();
    }
}

/// A history that begins with a core. No `Protocol` type names this history yet.
#[derive(Drop)]
pub struct Opened<T, W: Wakes> {
    pub(crate) log: Log<Signed<T, W>>,
    pub(crate) start: Start<T, W>,
    pub(crate) count: Count,
}

/// Contracts see how the history begins.
impl<T, W: Wakes> Model for Opened<T, W> {
    ghost use Rattle.std.specs.Prelude.{◌≡◌, []};
    ghost use Rattle.async_cell_model.specs.Machine.{owners_of};
    ghost use Rattle.async_cell_history.specs.History.{Begun};

    ghost Value = { Begun T W };

    ghost view = { λ o. record { name = o.log.name; permits = o.count.name; start = o.start } };

    ghost invariant = { λ o. (o.log.list ≡ []) × (o.count.out ≡ owners_of o.start.cell) };
}

impl<T: Drop, W: Wakes> Opened<T, W> {
    /// Begins a history with this core. The history does not count owners.
    #[inline(always)]
    pub fn of(core: &Core<T, W>) -> Self
        ensures start { result.start ≡ core.now }
        ensures blind { result.permits ≡ None }
    {
        Opened {
            log: Log::open(),
            start: Start::of(core),
            count: Count::blind(core.owners()),
        }
    }

    /// Begins a history with this core, and gives the permit of its one owner.
    #[inline(always)]
    pub fn counted(core: &Core<T, W>) -> (Self, Permit)
        requires sole { owners_of core.now.cell ≡ 1 }
        ensures start { result.0.start ≡ core.now }
        ensures counted { IsSome result.0.permits }
        ensures permit { result.1.name ≡ result.0.permits }
    {
        let mut count = Count::open();
        let permit = count.give();
        let opened = Opened {
            log: Log::open(),
            start: Start::of(core),
            count,
        };
        (opened, permit)
    }
}

/// The first state of a cell. A `Start` is zero-sized. (`Start` is not a `Snapshot`, because the
/// prover does not see that a struct with a `Snapshot` and another field can be sent to another
/// thread.)
#[derive(Drop)]
pub(crate) struct Start<T, W: Wakes> {
    log: Log<Core<T, W>>,
}

/// Contracts see the state.
impl<T, W: Wakes> Model for Start<T, W> {
    ghost use Rattle.std.specs.Prelude.{None, get_or};
    ghost use Rattle.async_cell_model.specs.Machine.{State};
    ghost use Rattle.async_cell_history.specs.History.{start_of};

    ghost Value = { State T W };

    ghost view = { λ s. get_or s.log.list 0 (start_of None) };
}

impl<T, W: Wakes> Start<T, W> {
    /// Makes a `Start` that keeps the state that this core has now.
    #[inline(always)]
    pub(crate) fn of(core: &Core<T, W>) -> Self
        ensures { result ≡ core.now }
    {
        let mut log = Log::open();
        log.push::<_, Identity>(core);
        Start { log }
    }
}

/// The entry is the core itself.
struct Identity;

impl<T, W: Wakes> Makes<Core<T, W>, Core<T, W>> for Identity {
    ghost entry = { λ core. core };
}
