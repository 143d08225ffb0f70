//! Numbers that exist only in proofs: the numbers that calls of a history are signed with, and how
//! many calls were made with a witness.
ghost use Rattle.std.specs.Prelude.{◌≡◌, ◌+◌, ℕ};
ghost use Rattle.async_cell_history.specs.History.{first_number};

use async_cell_model::Entry;
use ghost_tokens::{Log, Makes, Seen};
use std::marker::PhantomData;

/// A number that calls are signed with. Only contracts read it. 0 stands for nobody.
pub trait Author {
    /// The number.
    ghost number: { ℕ };
}

/// A call in a history, and the number that the call is signed with.
pub(crate) struct Signed<T, W> {
    pub(crate) who: u64,
    pub(crate) entry: Entry<T, W>,
}

/// The number that an author signs calls with, or a count of calls. It is the first item of the
/// `Seen`'s list. A `Number` is zero-sized.
pub(crate) type Number = Seen<u64>;

/// The number of this author.
#[inline(always)]
pub(crate) fn number_of<A: Author>() -> Number
    ensures { first_number result.list ≡ A.number }
{
    let mut log = Log::open();
    log.push::<_, NumberOf<A>>(&());
    log.seen()
}

/// The number after this one.
#[inline(always)]
pub(crate) fn number_after(number: &Number) -> Number
    ensures { first_number result.list ≡ first_number number.now.list + 1 }
{
    let mut log = Log::open();
    log.push::<_, Next>(number);
    log.seen()
}

/// The entry is the number of the author.
struct NumberOf<A>(PhantomData<A>);

impl<A: Author> Makes<(), u64> for NumberOf<A> {
    ghost entry = { λ _. A.number };
}

/// The entry is the number after it.
struct Next;

impl Makes<Number, u64> for Next {
    ghost use Rattle.std.specs.Prelude.{◌+◌};
    ghost use Rattle.async_cell_history.specs.History.{first_number};

    ghost entry = { λ number. first_number number.list + 1 };
}
