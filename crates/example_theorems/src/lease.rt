//! The right to lead an office, which one thread at a time can have, and the terms that were led.
ghost use Rattle.std.specs.Prelude.{◌≡◌, ℕ, [], length, None, Some, IfSome};
ghost use Rattle.std.specs.List.{last_or};

use ghost_tokens::{Log, Makes, Seen};
use std::marker::{Brand, PhantomData};

/// Names the list of the terms of an office.
pub trait Office {
    ghost terms: { ℕ };
}

impl Office for Brand {
    ghost terms = { 0 };
}

/// The right to lead. Its list has an entry for each term: who led it.
#[derive(Drop)]
pub struct Lease<N: Office> {
    number: u64,
    terms: Log<u64>,
    of: PhantomData<N>,
    ghost of_this: { terms.name ≡ N.terms },
    ghost counted: { number ≡ length terms.list },
}

/// A term, with its number and who led it.
#[derive(Drop)]
pub struct Term<N: Office> {
    pub number: u64,
    pub leader: u64,
    terms: Seen<u64>,
    of: PhantomData<N>,
    ghost of_this: { terms.name ≡ N.terms },
    ghost counted: { number ≡ length terms.list },
    ghost last: { last_or None terms.list ≡ Some leader },
}

/// Who leads is an entry of the list.
struct Leads;

impl Makes<u64, u64> for Leads {
    ghost entry = { λ leader. leader };
}

impl<N: Office> Lease<N> {
    /// Makes the right to lead. No term was led.
    pub fn new(terms: Log<u64>) -> Lease<N>
        requires of_this { terms.name ≡ N.terms }
        requires none { terms.list ≡ [] }
    {
        Lease {
            number: 0,
            terms,
            of: PhantomData,
        }
    }

    /// Begins a term, unless the numbers have run out.
    pub fn begin(&mut self, leader: u64) -> Option<Term<N>>
        ensures leader { IfSome result (λ term. term.leader ≡ leader) }
    {
        let number = self.number.checked_add(1)?;
        self.terms.push::<_, Leads>(&leader);
        self.number = number;
        Some(Term {
            number,
            leader,
            terms: self.terms.seen(),
            of: PhantomData,
        })
    }
}

/// There is one leader at a time: two threads never have the right to lead at once.
pub fn one_at_a_time<N: Office>(one: &mut Lease<N>, other: &Lease<N>)
    ensures never { ⊥ }
{
    one.terms.proves_alone(&other.terms);
}

/// Each term has one leader.
pub fn one_leader<N: Office>(one: &Term<N>, other: &Term<N>)
    ensures same { one.now.number ≡ other.now.number → one.now.leader ≡ other.now.leader }
{
    one.terms.agrees(&other.terms);
}
