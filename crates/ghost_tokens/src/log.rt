//! The tokens of a list that only grows.
ghost use Rattle.std.specs.Prelude.{◌≡◌, ◌≢◌, ◌≤◌, ◌+◌, ℕ, List, [], ◌∷◌, ◌++◌, ◌⊎◌, length, None, Some};
ghost use Rattle.std.specs.List.{last_or};
ghost use mathlib.Core.List.{IsPrefix};
ghost use base.Stored.{coded_list};
ghost use base.Fraction.{full_share};
ghost use denote.Sharing.{one, said};
ghost use Rattle.ghost_tokens.specs.Owned.{log_owns, seen_owns};

use std::marker::{Model, PhantomData};

/// Says which entry is made from an `X`. An `X` may be, for example, the arguments of a call and
/// its result. Only contracts read `entry`.
pub trait Makes<X, E> {
    /// The entry that is made from an `X`.
    ghost entry: { X → E };
}

/// The whole list, and the right to make it longer. Each list has one such token, so keep it where
/// only one thread at a time can use it: under a lock, or behind a `&mut`.
pub struct Log<E> {
    marker: PhantomData<E>,
    /// The name of the list.
    pub ghost name: { ℕ },
    /// The whole list.
    pub ghost list: { List E } by { coded_list E.code },
}

impl<E> Model for Log<E> {
    ghost also_owns = { λ l. log_owns E.row.coded.code l.name l.list full_share };

    ghost also_shares = { λ l _. one (log_owns E.row.coded.code l.name l.list) };
}

/// A token that knows how the list with its name begins. What the token knows stays true, as the
/// list only grows. The token can be copied by `again`, and sent to another thread.
pub struct Seen<E> {
    marker: PhantomData<E>,
    /// The name of the list.
    pub ghost name: { ℕ },
    /// How the list begins.
    pub ghost list: { List E } by { coded_list E.code },
}

impl<E> Model for Seen<E> {
    ghost also_owns = { λ s. seen_owns E.row.coded.code s.name s.list };

    ghost also_shares = { λ s _ κ. said (seen_owns E.row.coded.code s.name s.list) κ };
}

impl<E> Log<E> {
    /// Begins an empty list under a new name.
    pub fn open() -> Log<E>
        ensures empty { result.list ≡ [] }
    {
        Log {
            marker: PhantomData,
        }
    }

    /// Adds an entry at the end of the list. `M` says which entry is made from `about`.
    pub fn push<X, M: Makes<X, E>>(&mut self, about: &X)
        ensures of_this { self.new.name ≡ self.old.name }
        ensures pushed { self.new.list ≡ self.old.list ++ M.entry about.now ∷ [] }
        ensures last { last_or None self.new.list ≡ Some (M.entry about.now) }
        ensures counted { length self.new.list ≡ length self.old.list + 1 }
    {}

    /// Returns a `Seen` of the whole list, as it is now.
    pub fn seen(&self) -> Seen<E>
        ensures of_this { result.name ≡ self.now.name }
        ensures whole { result.list ≡ self.now.list }
    {
        Seen {
            marker: PhantomData,
        }
    }

    /// Does nothing. Its contract states that two `Log`s, at one time, are of two lists. So whoever
    /// has the `Log` of a list is alone.
    pub fn proves_alone(&mut self, other: &Log<E>)
        ensures stays { self.new ≡ self.old }
        ensures apart { self.old.name ≢ other.now.name }
    {}
}

impl<E> Seen<E> {
    /// Makes this `Seen` know the whole list, as the list is now. What this `Seen` knew before is a
    /// prefix of the list, and the whole list if it is as long.
    pub fn learn(&mut self, log: &Log<E>)
        requires of_this { self.old.name ≡ log.now.name }
        ensures of_this { self.new.name ≡ self.old.name }
        ensures whole { self.new.list ≡ log.now.list }
        ensures begins { IsPrefix self.old.list log.now.list }
        ensures same { length log.now.list ≤ length self.old.list → self.old.list ≡ log.now.list }
    {}

    /// Does nothing. Its contract states that two prefixes of one list are the same if they are
    /// equally long.
    pub fn agrees(&self, other: &Seen<E>)
        requires of_this { other.now.name ≡ self.now.name }
        ensures same { length self.now.list ≡ length other.now.list
            → self.now.list ≡ other.now.list }
    {
        let _longer = self.longer(other);
    }

    /// Returns a copy.
    pub fn again(&self) -> Seen<E>
        ensures { result ≡ self.now }
    {
        Seen {
            marker: PhantomData,
        }
    }

    /// Returns the longer of two prefixes of the same list. The shorter prefix is a prefix of the
    /// longer one.
    pub fn longer(&self, other: &Seen<E>) -> Seen<E>
        requires of_this { other.now.name ≡ self.now.name }
        ensures of_this { result.name ≡ self.now.name }
        ensures one_of_both { (result.list ≡ self.now.list) ⊎ (result.list ≡ other.now.list) }
        ensures begins { IsPrefix self.now.list result.list }
        ensures other_begins { IsPrefix other.now.list result.list }
    {
        Seen {
            marker: PhantomData,
        }
    }
}

impl<E> Drop for Log<E> {
    fn drop(self) {
        let Self { marker: _ } = self;
    }
}

impl<E> Drop for Seen<E> {
    fn drop(self) {
        let Self { marker: _ } = self;
    }
}

unsafe impl<E> Send for Log<E> {}

unsafe impl<E> Sync for Log<E> {}

unsafe impl<E> Send for Seen<E> {}

unsafe impl<E> Sync for Seen<E> {}
