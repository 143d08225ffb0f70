//! The list of the values that a state has had, and what is known of them. The list exists only in
//! proofs.
ghost use Rattle.std.specs.Prelude.{◌≡◌, ◌⊎◌, ⊤, ℕ, List, [], ◌∷◌, ◌++◌, length, true, false, Option, Some, None, IsSome};
ghost use Rattle.async_cell_latest_sync.specs.Life.{Begun, Fits, GoesOn, IsLawful, Life, life_of, permits_of, values_of};

use async_cell_latest::{Latest, TaskWaker};
use async_cell_step::{Rule, Ruled};
use ghost_tokens::{Count, Log, Makes, Permit, Seen};
use std::marker::{Brand, Model, PhantomData};

/// Names a state, and says which values may be written to the state, and what is known of each
/// value. Only contracts read a protocol.
pub trait Protocol<T> {
    /// The name of the list of its values. If it is `None`, the list has no name, and no witness
    /// sees it.
    ghost named: { Option Begun };

    /// Whether this value may be written after these.
    ghost may: { List T → T → Type 0 };

    /// The rule: what is known of each value.
    ghost holds: { T → Type 0 };

    /// Each value that may be written satisfies the rule.
    ghost keeps: { (before : List T) → (value : T) → may before value → holds value };
}

/// As the protocol of a state, `Unruled` says that the state has no name and that every value may
/// be written to the state.
pub struct Unruled;

impl<T> Protocol<T> for Unruled {
    ghost named = { None };

    ghost may = { λ _ _. ⊤ };

    ghost holds = { λ _. ⊤ };

    ghost keeps = { λ _ _ may. may };
}

/// A state without a name, whose values satisfy the rule `P`.
impl<T, P: Rule<T>> Protocol<T> for Ruled<P> {
    ghost named = { None };

    ghost may = { λ _ value. P.holds value };

    ghost holds = { P.holds };

    ghost keeps = { λ _ _ may. may };
}

/// A caller that passes `Brand` defines its own members in place of these. The caller's members may
/// name the program's values.
impl<T> Protocol<T> for Brand {
    ghost named = { None };

    ghost may = { λ _ _. ⊤ };

    ghost holds = { λ _. ⊤ };

    ghost keeps = { λ _ _ may. may };
}

/// The empty list of values of a state that is not made yet. A protocol can name this list. To get
/// a protocol that names this list, write a function that is generic over the protocol, and call
/// the function with `std::marker::Brand`. A `Blank` is zero-sized.
pub struct Blank<T> {
    log: Log<Option<T>>,
    count: Count,
    permit: Permit,
}

/// Contracts see the name of the list, and that of the count of the state's owners.
impl<T> Model for Blank<T> {
    ghost use Rattle.std.specs.Prelude.{◌≡◌, [], IsSome};
    ghost use Rattle.async_cell_latest_sync.specs.Life.{Begun};

    ghost Value = { Begun };

    ghost view = { λ b. record { name = b.log.name; permits = b.count.name } };

    ghost invariant = { λ b. (b.log.list ≡ []) × (b.permit.name ≡ b.count.name)
        × IsSome b.count.name × (b.count.out ≡ 1) };
}

impl<T> Blank<T> {
    /// Begins the list of values of a state that is not made yet, and the count of the state's
    /// owners, which begins with one. Gives both a new name.
    pub fn new() -> Self {
        let mut count = Count::open();
        let permit = count.give();
        Blank {
            log: Log::open(),
            count,
            permit,
        }
    }

    /// Returns the list, the count of the owners, and the permit of the first owner.
    pub(crate) fn into_parts(self) -> (Log<Option<T>>, Count, Permit)
        ensures list { result.0.name ≡ self.name }
        ensures empty { result.0.list ≡ [] }
        ensures count { result.1.name ≡ self.permits }
        ensures counted { IsSome self.permits }
        ensures one { result.1.out ≡ 1 }
        ensures permit { result.2.name ≡ self.permits }
    {
        let Blank { log, count, permit } = self;
        (log, count, permit)
    }
}

impl<T> Drop for Blank<T> {
    fn drop(self) {
        let Blank {
            log: _,
            count: _,
            permit,
        } = self;
        permit.lose();
    }
}

/// All values that a state has had, and the right to add one. A `Values` is zero-sized.
#[derive(Drop)]
pub struct Values<T, N: Protocol<T>> {
    log: Log<Option<T>>,
    of: PhantomData<N>,
}

/// Contracts see the life of the state so far.
impl<T, N: Protocol<T>> Model for Values<T, N> {
    ghost Value = { Life T };

    ghost view = { λ v. life_of v.log.list };

    ghost invariant = { λ v. Fits N.named v.log.name
        × IsLawful N.may (values_of v.log.list) };
}

impl<T: Drop, N: Protocol<T>> Values<T, N> {
    /// Begins the list of values of a new state.
    #[tactic(auto, using(crate::proofs::Lives::first_lawful))]
    pub(crate) fn begin(mut log: Log<Option<T>>, state: &Latest<T, TaskWaker>) -> Self
        requires named { Fits N.named log.name }
        requires empty { log.list ≡ [] }
        requires may { N.may [] state.now.value }
        ensures begun { result ≡ record { values = state.now.value ∷ []; closed = false } }
        ensures rule { N.holds state.now.value }
    {
        log.push::<_, Entry>(state);
        Values {
            log,
            of: PhantomData,
        }
    }

    /// Adds the value that was just written to the state.
    #[inline(always)]
    #[tactic(auto, using(crate::proofs::Lives::life_written, crate::proofs::Lives::lawful_more))]
    pub(crate) fn add(&mut self, state: &Latest<T, TaskWaker>)
        requires open { self.old.closed ≡ false }
        requires may { N.may self.old.values state.now.value }
        ensures added { self.new ≡ record
            { values = self.old.values ++ state.now.value ∷ []; closed = false } }
        ensures rule { N.holds state.now.value }
    {
        self.log.push::<_, Entry>(state);
    }

    /// Ends the list: the state was closed.
    #[inline(always)]
    #[tactic(auto, using(crate::proofs::Lives::life_closed))]
    pub(crate) fn close(&mut self)
        ensures { self.new ≡ record { values = self.old.values; closed = true } }
    {
        self.log.push::<_, Entry>(&());
    }
}

/// What a write of a state adds, and what its close adds.
struct Entry;

impl<T> Makes<Latest<T, TaskWaker>, Option<T>> for Entry {
    ghost entry = { λ state. Some state.value };
}

impl<T> Makes<(), Option<T>> for Entry {
    ghost entry = { λ _. None };
}

/// Knows the values of the state that `N` names, up to some moment. After a call whose name ends in
/// `_as`, it knows all values so far, unless that is a `read_and_update_as` or a `next_as` that
/// failed. It belongs to no owner or follower: every owner and every follower of the state can be
/// called with it. At run time it is the version of the last value that it has seen.
#[derive(Drop)]
pub struct Witness<T, N: Protocol<T>> {
    version: u64,
    seen: Seen<Option<T>>,
    of: PhantomData<N>,
}

/// Contracts see the life of the state, as far as it was seen.
impl<T, N: Protocol<T>> Model for Witness<T, N> {
    ghost Value = { Life T };

    ghost view = { λ w. life_of w.seen.list };

    ghost invariant = { λ w.
        (N.named ≡ Some (record { name = w.seen.name; permits = permits_of N.named }))
        × IsLawful N.may (values_of w.seen.list)
        × (w.version ≡ length (values_of w.seen.list)) };
}

impl<T, N: Protocol<T>> Witness<T, N> {
    /// Makes a witness that has seen the whole life of the state, up to this version.
    pub(crate) fn of(values: &Values<T, N>, version: u64) -> Self
        requires named { IsSome N.named }
        requires counted { version ≡ length values.now.values }
        ensures { result ≡ values.now }
    {
        Witness {
            version,
            seen: values.log.seen(),
            of: PhantomData,
        }
    }

    /// Lets the witness see the whole life of the state, up to this version. What the witness saw
    /// before is a prefix of this life.
    #[inline(always)]
    #[tactic(auto, using(crate::proofs::Lives::more_goes_on))]
    pub(crate) fn learn(&mut self, values: &Values<T, N>, version: u64)
        requires counted { version ≡ length values.now.values }
        ensures whole { self.new ≡ values.now }
        ensures goes_on { GoesOn self.old values.now }
        ensures named { IsSome N.named }
    {
        self.seen.learn(&values.log);
        self.version = version;
    }

    /// Returns the version of the last value that was seen.
    #[inline(always)]
    pub(crate) fn version(&self) -> u64
        ensures { result ≡ length self.now.values }
    {
        self.version
    }

    /// Does nothing. Its contract states that `N.may` allows each seen value after the values
    /// before it.
    pub fn lawful(&self)
        ensures { IsLawful N.may self.now.values }
    {
        let _ = &self.seen;
    }

    /// Does nothing. Its contract states that one of the two witnesses has seen a prefix of what
    /// the other witness has seen.
    #[tactic(auto, using(crate::proofs::Lives::more_goes_on))]
    pub fn agrees(&self, other: &Self)
        ensures { GoesOn self.now other.now ⊎ GoesOn other.now self.now }
    {
        let _longer = self.seen.longer(&other.seen);
    }

    /// Returns a copy.
    pub fn again(&self) -> Self
        ensures { result ≡ self.now }
    {
        Witness {
            version: self.version,
            seen: self.seen.again(),
            of: PhantomData,
        }
    }
}
