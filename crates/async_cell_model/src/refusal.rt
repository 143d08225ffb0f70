use std::alloc::AllocError;
use std::error::Error;
use std::{fmt, io};

/// The reason why a call was refused. A refused call of a `Core` changes neither the cell nor its
/// wait list.
#[derive(Clone, Copy, Debug, PartialEq, Eq)]
pub enum Refusal {
    /// There was no memory, or a clone of a value failed. Or the reference count of an `Arc` or an
    /// `Rc` is full, a value's `Debug` failed, or the `block_on` of a `Lazy`.
    Memory,
    /// The cell, slot or latest state is closed, or the `ReplyFuture` has already given its result,
    /// or the latest state takes no further write. (Some writes return their value instead. Weak
    /// futures and `upgrade` give `None`.)
    Closed,
    /// The cell has 4,294,967,295 owners already, as many as it can count.
    OwnersFull,
    /// The cell has other owners.
    StillShared,
    /// A recorded call was made with a share whose count is not the number of that share's entries
    /// in the history.
    OutOfTurn,
    /// A share of a recorded cell is missing. No call returns this: `Recorded::finish` gives back
    /// the cell and the shares.
    ShareMissing,
}

impl Refusal {
    /// Returns the reason in words.
    fn text(self) -> &'static str {
        match self {
            Refusal::Memory => "there was no memory",
            Refusal::Closed => "the cell is closed",
            Refusal::OwnersFull => "the cell has as many owners as it can count",
            Refusal::StillShared => "the cell has other owners",
            Refusal::OutOfTurn => "the share does not fit the history",
            Refusal::ShareMissing => "a share is missing",
        }
    }
}

impl fmt::Display for Refusal {
    fn fmt<W: fmt::Write>(&self, f: &mut fmt::Formatter<W>) -> fmt::Result {
        f.write_str(self.text())
    }
}

impl Error for Refusal {}

impl From<AllocError> for Refusal {
    ghost use Rattle.std.specs.Prelude.{◌≡◌};
    ghost use Rattle.async_cell_model.specs.declared.refusal.Refusal.TheVariants.{Memory};

    ghost from_gives = { λ refused result. result ≡ Memory };

    fn from(_: AllocError) -> Refusal {
        Refusal::Memory
    }
}

/// For `?` in code whose errors are of the type `io::Error`. The kind is `OutOfMemory` for
/// `Memory`, and otherwise `Other`.
impl From<Refusal> for io::Error {
    ghost use Rattle.std.specs.Prelude.{◌≡◌};
    ghost use Rattle.std.specs.IoError.{error_kind};
    ghost use Rattle.async_cell_model.specs.Refusal.{io_kind};

    ghost from_gives = { λ refused result. error_kind result ≡ io_kind refused };

    fn from(refused: Refusal) -> io::Error {
        let kind = match refused {
            Refusal::Memory => io::ErrorKind::OutOfMemory,
            _ => io::ErrorKind::Other,
        };
        io::Error::new(kind, refused.text())
    }
}
