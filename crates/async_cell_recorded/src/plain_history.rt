ghost use Rattle.std.specs.Prelude.{◌≡◌, ◌↔◌, [], IsTrue, length};
ghost use Rattle.async_cell_recorded.specs.Recording.{PlainRecording, IsPlain};

use crate::Plain;
use std::marker::Model;

/// A recorded history without the shares that made the calls: the calls in the order in which they
/// took effect, each with its reply.
#[derive(Drop)]
pub struct PlainHistory<T> {
    pub(crate) begin: u32,
    pub(crate) entries: Vec<Plain<T>>,
}

/// Contracts see the number of owners at the start, and the list of the entries.
impl<T> Model for PlainHistory<T> {
    ghost Value = { PlainRecording T };

    ghost view = { λ h. record { begin = h.begin; entries = h.entries.items } };

    ghost invariant = { λ h. IsPlain (record { begin = h.begin; entries = h.entries.items }) };
}

impl<T> PlainHistory<T> {
    /// Returns the number of owners that the cell started with.
    pub fn begin(&self) -> u32
        ensures { result ≡ self.now.begin }
    {
        self.begin
    }

    /// Returns the number of entries.
    pub fn len(&self) -> usize
        ensures { result ≡ length self.now.entries }
    {
        self.entries.len()
    }

    /// Returns whether there is no entry.
    pub fn is_empty(&self) -> bool
        ensures { IsTrue result ↔ (self.now.entries ≡ []) }
    {
        self.entries.is_empty()
    }

    /// Returns the entries, in order. They are a legal history from the first state of the cell,
    /// and no reply says that there was no memory.
    pub fn entries(&self) -> &[Plain<T>]
        ensures entries { result.now ≡ self.now.entries }
        ensures legal { IsPlain self.now }
    {
        self.entries.as_slice()
    }
}
