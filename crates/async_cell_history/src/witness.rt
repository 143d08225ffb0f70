ghost use Rattle.std.specs.Prelude.{◌≡◌, ◌⊎◌, ◌+◌, IsSome, length};
ghost use mathlib.Core.List.{IsPrefix};
ghost use Rattle.async_cell_history.specs.History.{IsLawful, permits_of, start_of};

use crate::{Author, Nobody, Number, Past, Protocol, Signed, number_after, number_of};
use async_cell_core::Wakes;
use ghost_tokens::Seen;
use std::marker::{Model, PhantomData};

/// What one thread has seen of the history of the cell that `N` names. A witness also has the
/// number that calls made with it are signed with, and how many calls were made with it. A witness
/// is zero-sized.
pub struct Witness<T, W: Wakes, N: Protocol<T, W>> {
    seen: Seen<Signed<T, W>>,
    author: Number,
    own: Number,
    of: PhantomData<N>,
}

/// Does nothing. It is written out, so that the crates above call it: the derived drop would have
/// each of them prove the drop of an entry.
impl<T, W: Wakes, N: Protocol<T, W>> Drop for Witness<T, W, N> {
    #[inline(always)]
    fn drop(self) {
        let Witness {
            seen: _,
            author: _,
            own: _,
            of: _,
        } = self;
    }
}

/// Contracts see the calls that were seen, who made each, who the thread is, and how many calls
/// were made with the witness.
impl<T, W: Wakes, N: Protocol<T, W>> Model for Witness<T, W, N> {
    ghost use Rattle.std.specs.Prelude.{map};
    ghost use Rattle.async_cell_history.specs.History.{first_number, IsSeen, Seen as SeenCalls};

    ghost Value = { SeenCalls T W };

    ghost view = { λ w. record {
      calls = map (λ s. s.entry) w.seen.list;
      authors = map (λ s. s.who) w.seen.list;
      author = first_number w.author.list;
      own = first_number w.own.list;
    } };

    ghost invariant = { λ w. IsSeen W.will_wake W.SURE_CLONE N.may N.named w.seen.name
        (map (λ s. s.entry) w.seen.list) };
}

impl<T, W: Wakes, N: Protocol<T, W>> Witness<T, W, N> {
    /// Makes a witness that has seen the whole history. The witness signs its calls as `Nobody`.
    pub(crate) fn of(past: &Past<T, W, N>) -> Self
        requires named { IsSome N.named }
        requires counted { IsSome (permits_of N.named) }
        ensures calls { result.calls ≡ past.now.calls }
        ensures authors { result.authors ≡ past.now.authors }
        ensures nobody { result.author ≡ 0 }
        ensures none_made { result.own ≡ 0 }
    {
        Witness {
            seen: past.log.seen(),
            author: number_of::<Nobody>(),
            own: number_of::<Nobody>(),
            of: PhantomData,
        }
    }

    /// Lets the witness see the whole history. What the witness saw before is a prefix of the whole
    /// history.
    #[inline(always)]
    pub(crate) fn learn(&mut self, past: &Past<T, W, N>)
        ensures calls { self.new.calls ≡ past.now.calls }
        ensures authors { self.new.authors ≡ past.now.authors }
        ensures author { self.new.author ≡ self.old.author }
        ensures own { self.new.own ≡ self.old.own }
        ensures goes_on { IsPrefix self.old.calls past.now.calls }
        ensures authors_go_on { IsPrefix self.old.authors past.now.authors }
        ensures begun { past.now.begun.start ≡ start_of N.named }
    {
        self.seen.learn(&past.log);
    }

    /// As `learn`, for a history whose last call was made with this witness.
    #[inline(always)]
    pub(crate) fn learn_own(&mut self, past: &Past<T, W, N>)
        ensures calls { self.new.calls ≡ past.now.calls }
        ensures authors { self.new.authors ≡ past.now.authors }
        ensures author { self.new.author ≡ self.old.author }
        ensures own { self.new.own ≡ self.old.own + 1 }
    {
        self.learn(past);
        self.own = number_after(&self.own);
    }

    /// Does nothing. Its contract states what is true of the calls that the witness has seen: the
    /// calls are legal, the protocol allows the changes among them, each call has one author, and
    /// the cell's owners are counted.
    #[inline(always)]
    pub fn lawful(&self)
        ensures lawful { IsLawful W.will_wake W.SURE_CLONE N.may (start_of N.named) self.now.calls }
        ensures as_many { length self.now.authors ≡ length self.now.calls }
        ensures counted { IsSome (permits_of N.named) }
    {
        let _ = &self.seen;
    }

    /// From now on, the calls made with this witness are signed with the number of `A`.
    #[inline(always)]
    pub fn sign_as<A: Author>(&mut self)
        ensures calls { self.new.calls ≡ self.old.calls }
        ensures authors { self.new.authors ≡ self.old.authors }
        ensures author { self.new.author ≡ A.number }
        ensures own { self.new.own ≡ self.old.own }
    {
        self.author = number_of::<A>();
    }

    /// Returns a copy.
    pub fn again(&self) -> Self
        ensures { result ≡ self.now }
    {
        Witness {
            seen: self.seen.again(),
            author: self.author.again(),
            own: self.own.again(),
            of: PhantomData,
        }
    }

    /// Returns a witness that has seen what `self` has seen or what `other` has seen, whichever is
    /// longer. What each of the two has seen is a prefix of what the result has seen. The result
    /// signs as `self` does, and has made as many calls as `self`.
    pub fn longer(&self, other: &Self) -> Self
        ensures one_of_both { (result.calls ≡ self.now.calls) ⊎ (result.calls ≡ other.now.calls) }
        ensures begins { IsPrefix self.now.calls result.calls }
        ensures other_begins { IsPrefix other.now.calls result.calls }
        ensures authors_begin { IsPrefix self.now.authors result.authors }
        ensures others_begin { IsPrefix other.now.authors result.authors }
        ensures author { result.author ≡ self.now.author }
        ensures own { result.own ≡ self.now.own }
    {
        let author = self.author.again();
        let own = self.own.again();
        Witness {
            seen: self.seen.longer(&other.seen),
            author,
            own,
            of: PhantomData,
        }
    }
}
