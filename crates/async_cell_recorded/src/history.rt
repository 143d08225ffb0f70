ghost use Rattle.std.specs.Prelude.{◌≡◌, ◌↔◌, [], false, IsTrue, IfOk, IfErr, length, map};
ghost use Rattle.async_cell_model.specs.Taken.{IsDistinct, put_in, taken_out, has_update};
ghost use Rattle.async_cell_model.specs.Refusal.{FailsWithMemory};
ghost use Rattle.async_cell_recorded.specs.Recording.{Recording, IsRecorded, plain_entry, without_shares, with_one_share};

use crate::{Named, PlainHistory, Refusal, Reply};
use async_cell_model::laws::exact::a_value_is_taken_once;
use std::marker::Model;

/// A call, in the form in which a history stores the call. An update is stored with the argument
/// and the result of its edit.
pub type Kept<T> = async_cell_model::Kept<T, Named>;

/// A call of a recorded cell and its reply, without the share that made it.
pub type Plain<T> = async_cell_model::Entry<T, Named>;

/// A call of a recorded cell and its reply, with the share that made it.
#[derive(Clone, Copy, Debug, Drop, PartialEq, Eq)]
pub struct Entry<T> {
    /// The number of the share that made the call.
    pub share: u32,

    /// How many calls the share made before this one. So the calls of a share have the serials 0,
    /// 1, 2, .. in order.
    pub serial: u64,

    /// The call. If it has an edit, the argument and the result of the edit are stored with the
    /// call.
    pub call: Kept<T>,

    /// The reply of the cell. A refusal is a reply, too.
    pub reply: Reply<T>,
}

/// The calls that were made on a recorded cell, in the order in which they took effect, each with
/// its reply.
#[derive(Drop)]
pub struct History<T> {
    pub(crate) begin: u32,
    pub(crate) entries: Vec<Entry<T>>,
}

/// Contracts see the number of owners at the start, and the list of the entries.
impl<T> Model for History<T> {
    ghost Value = { Recording T };

    ghost view = { λ h. record { begin = h.begin; entries = h.entries.items } };

    ghost invariant = { λ h. IsRecorded (record { begin = h.begin; entries = h.entries.items }) };
}

impl<T> History<T> {
    /// Returns the number of owners that the cell started with: one for each share.
    pub fn begin(&self) -> u32
        ensures { result ≡ self.now.begin }
    {
        self.begin
    }

    /// Returns the number of entries.
    pub fn len(&self) -> usize
        ensures { result ≡ length self.now.entries }
    {
        self.entries.len()
    }

    /// Returns whether there is no entry.
    pub fn is_empty(&self) -> bool
        ensures { IsTrue result ↔ (self.now.entries ≡ []) }
    {
        self.entries.is_empty()
    }

    /// Returns the entries, in order. They are a legal history from the first state of the cell,
    /// and no reply says that there was no memory. The serials of each share's entries are 0, 1, 2,
    /// .. in order.
    pub fn entries(&self) -> &[Entry<T>]
        ensures entries { result.now ≡ self.now.entries }
        ensures recorded { IsRecorded self.now }
    {
        self.entries.as_slice()
    }

    /// Does nothing. Its contract is a law: no value is taken twice. If no call is an update, and
    /// all values that the calls put in differ, then all values that the replies move out differ. A
    /// get moves none out.
    pub fn a_value_is_taken_once(&self)
        ensures law { has_update (map plain_entry self.now.entries) ≡ false
            → IsDistinct (put_in (map plain_entry self.now.entries))
            → IsDistinct (taken_out (map plain_entry self.now.entries)) }
    {
        let _ = self.entries();
        a_value_is_taken_once::<T, Named>();
    }
}

impl<T: Copy> History<T> {
    /// Returns a copy of this history that does not say which share made each call. Fails with
    /// `Memory` if there is no memory.
    pub fn plain(&self) -> Result<PlainHistory<T>, Refusal>
        ensures same { IfOk result (λ plain. plain ≡ without_shares self.now) }
        ensures refused { FailsWithMemory result }
    {
        let all = self.entries.as_slice();
        let mut entries = Vec::new(*self.entries.allocator());
        entries.reserve_exact(all.len())?;
        for entry in all {
            entries.push_reserved(Plain {
                call: entry.call,
                reply: entry.reply,
            });
        }
        Ok(PlainHistory {
            begin: self.begin,
            entries,
        })
    }

    /// Makes a history from a plain history, as if share 0 had made all calls. The serials of the
    /// calls are 0, 1, 2, .. in order. If there is no memory, the plain history is returned in the
    /// error, beside `Memory`.
    pub fn carry(old: PlainHistory<T>) -> Result<History<T>, (Refusal, PlainHistory<T>)>
        ensures entries { IfOk result (λ history. history ≡ with_one_share old) }
        ensures recorded { IfOk result (λ history. IsRecorded history) }
        ensures plain { IfOk result (λ history. without_shares history ≡ old) }
        ensures refused { IfErr result (λ back. back.0 ≡ Refusal.Memory) }
        ensures comes_back { IfErr result (λ back. back.1 ≡ old) }
    {
        let mut entries = Vec::new(*old.entries.allocator());
        let Ok(()) = entries.reserve_exact(old.entries.len()) else {
            return Err((Refusal::Memory, old));
        };
        let begin = old.begin;
        let mut serial = 0;
        for plain in old.entries {
            entries.push_reserved(Entry {
                share: 0,
                serial,
                call: plain.call,
                reply: plain.reply,
            });
            serial += 1;
        }
        Ok(History { begin, entries })
    }

    /// As `carry`, but drops the plain history if there is no memory, so that `?` can be used on
    /// the result.
    pub fn carry_or_drop(old: PlainHistory<T>) -> Result<History<T>, Refusal>
        ensures entries { IfOk result (λ history. history ≡ with_one_share old) }
        ensures recorded { IfOk result (λ history. IsRecorded history) }
        ensures plain { IfOk result (λ history. without_shares history ≡ old) }
        ensures refused { FailsWithMemory result }
    {
        History::carry(old).map_err(|(why, _)| why)
    }
}
