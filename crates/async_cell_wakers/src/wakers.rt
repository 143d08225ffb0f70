ghost use Rattle.std.specs.Prelude.{◌≡◌, List, [], ◌∷◌, ◌++◌, length, MatchOption, IsTrue, IsNone, IfSome, IfNone, ◌↔◌};
ghost use Rattle.std.specs.{Iterator.at_most, Vec.Iter.into_iter_items};
ghost use Rattle.async_cell_wakers.specs.WaitList.{first_then, items_left};

use crate::wakes::Wakes;
use std::iter::FusedIterator;
use std::marker::Model;
use std::{fmt, vec};

/// Waiting wakers that a call returned, in order of registration. The caller must wake them.
/// Dropping the list drops the wakers that are left, but does not call their `wake`.
#[derive(Drop)]
pub struct Wakers<W> {
    pub(crate) first: Option<W>,
    /// The wakers after the first. `None` if the list had not allocated memory for such wakers.
    pub(crate) rest: Option<vec::IntoIter<W>>,
}

/// Contracts see the list of the wakers that are left, the next one first.
impl<W> Model for Wakers<W> {
    ghost Value = { List W };

    ghost view = { λ s. first_then s.first (items_left into_iter_items s.rest) };
}

impl<W> Wakers<W> {
    /// Creates an empty list, for a call that wakes nobody. Allocates nothing.
    pub fn none() -> Self
        ensures { result ≡ [] }
    {
        Wakers {
            first: None,
            rest: None,
        }
    }

    /// Returns whether no waker is left.
    pub fn is_empty(&self) -> bool
        ensures { IsTrue result ↔ (self.now ≡ []) }
    {
        self.left() == 0
    }

    /// Returns the number of wakers that are left. It is what `len` returns, also where `W` is not
    /// `Drop`.
    fn left(&self) -> usize
        ensures { result ≡ length self.now }
    {
        let rest = match &self.rest {
            Some(rest) => rest.len(),
            None => 0,
        };
        match &self.first {
            Some(_) => 1 + rest,
            None => rest,
        }
    }
}

impl<W: Drop> Wakers<W> {
    /// Removes and returns the next waker, or `None` if none is left. Allocates nothing. Taking out
    /// all wakers takes time in proportion to their number.
    #[inline(always)]
    pub fn next(&mut self) -> Option<W>
        ensures first { IfSome result (λ waker. self.old ≡ waker ∷ self.new) }
        ensures end { IsNone result ↔ (self.old ≡ []) }
        ensures stays_empty { IfNone result (self.new ≡ []) }
    {
        match self.first.take() {
            Some(waker) => Some(waker),
            None => match &mut self.rest {
                Some(rest) => rest.next(),
                None => None,
            },
        }
    }
}

/// Iterates over the wakers that are left, in the order in which `next` returns them.
impl<W: Drop> Iterator for Wakers<W> {
    type Item = W;

    ghost next_gives = { λ s r t. MatchOption r ((s ≡ []) × (t ≡ [])) (λ waker. s ≡ waker ∷ t) };

    ghost remaining = { λ s. at_most (length s) };

    fn next(&mut self) -> Option<W> {
        Wakers::next(self)
    }

    fn size_hint(&self) -> (usize, Option<usize>) {
        let len = self.len();
        (len, Some(len))
    }
}

/// Also iterates from the back: removes and returns the waker that was registered last.
impl<W: Drop> DoubleEndedIterator for Wakers<W> {
    ghost next_back_gives = { λ s r t.
        MatchOption r ((s ≡ []) × (t ≡ [])) (λ waker. s ≡ t ++ waker ∷ []) };

    fn next_back(&mut self) -> Option<W> {
        let last = match &mut self.rest {
            Some(rest) => rest.next_back(),
            None => None,
        };
        match last {
            Some(waker) => Some(waker),
            None => self.first.take(),
        }
    }
}

/// `len` returns the number of wakers that are left, in constant time.
impl<W: Drop> ExactSizeIterator for Wakers<W> {
    fn len(&self) -> usize {
        Wakers::left(self)
    }
}

/// After the last waker, `next` and `next_back` return `None` each time.
impl<W: Drop> FusedIterator for Wakers<W> {}

impl<W: Wakes> Wakers<W> {
    /// Wakes all wakers that are left, in order.
    #[inline(always)]
    pub fn wake_all(self) {
        let Wakers { first, rest } = self;
        if let Some(waker) = first {
            waker.wake();
        }
        if let Some(rest) = rest {
            wake_rest(rest);
        }
    }
}

/// Wakes these wakers. It is not part of `wake_all`, so `wake_all` is small where there is one or
/// none.
#[inline(never)]
fn wake_rest<W: Wakes>(rest: vec::IntoIter<W>) {
    for waker in rest {
        waker.wake();
    }
}

/// Prints how many wakers are left.
impl<W> fmt::Debug for Wakers<W> {
    fn fmt<F: fmt::Write>(&self, f: &mut fmt::Formatter<F>) -> fmt::Result {
        write!(f, "Wakers({})", self.left())
    }
}
