ghost use Rattle.std.specs.Prelude.{◌≡◌, ◌≢◌, ◌↔◌, ◌⊎◌, ◌≤◌, ◌<◌, ◌^◌, ◌+◌, ◌++◌, ◌∷◌, ℕ, []};
ghost use Rattle.std.specs.Prelude.{length, vec_len, replicate, slice_index, slice_set};
ghost use Rattle.std.specs.{Prelude.IfOk, Prelude.IfErr, Prelude.OnErr, List.sum_by};
ghost use Rattle.async_cell_model.specs.{Machine.reply, Legal.woken_by, Refusal.FailsWithMemory};
ghost use Rattle.async_cell_runs.specs.Kept.{kept_call};
ghost use Rattle.async_cell_recorded.specs.Recording.{Recording, IsRecorded, state, plain_entry, made_by};
ghost use Rattle.async_cell_recorded.specs.Counting.{IsJournal, Totals, new_shares, share_after, picked};

use crate::made::make;
use crate::share::{CallsLedger, PickedLedger, ShareCount};
use crate::{Blanks, Call, Edit, Entry, History, Marker, Named, Pick, Refusal, Share, Wakers};
use async_cell_core::Core;
use std::alloc::{AllocError, Global};
use std::marker::Model;
use std::sync::ledger::{self, Ledger};

/// What the lock of a recorded cell guards: the cell, the cell's history, and the `Books`. These
/// books count the calls of the shares. In proofs, the type `M` tells this cell from others.
#[derive(Drop)]
pub struct Journal<T, M: Pick<T>> {
    core: Core<T, Named>,
    count: ShareCount<M>,
    entries: Vec<Entry<T>>,
    books: Books<M>,
}

/// Contracts see the history. It is legal, and leads to the cell and its wait list. The serials of
/// each share's entries are 0, 1, 2, .. in order. The number of entries in the history is the
/// number of calls that the books count.
impl<T, M: Pick<T>> Model for Journal<T, M> {
    ghost Value = { Recording T };

    ghost view = { λ j. record { begin = j.count.shares; entries = j.entries.items } };

    ghost invariant = { λ j.
        let history : Recording T = record { begin = j.count.shares; entries = j.entries.items } in
        IsJournal M.pick history j.core j.books };
}

impl<T: Copy, M: Pick<T>> Journal<T, M> {
    /// Makes an open cell without a value and with one owner for each share. Also makes the shares
    /// of the cell, numbered from 0. Fails with `Memory` if there is no memory.
    #[tactic(auto, using(crate::proofs::Counted::length_new_shares))]
    pub fn new(alloc: Global, shares: u32, blanks: Blanks) -> Result<(Self, Vec<Share<M>>), Refusal>
        requires some { 1 ≤ shares }
        requires shares { shares ≡ M.shares }
        requires calls { (blanks.calls.name ≡ M.calls) × (blanks.calls.parts ≡ M.shares) }
        requires picked { (blanks.picked.name ≡ M.picked) × (blanks.picked.parts ≡ M.shares) }
        ensures begins { IfOk result (λ new. new.0 ≡ record { begin = shares; entries = [] }) }
        ensures one_each { IfOk result (λ new. vec_len new.1 ≡ shares) }
        ensures new_shares { IfOk result (λ new. new.1.items ≡ new_shares shares) }
        ensures refused { FailsWithMemory result }
    {
        let (books, made) = Books::open(alloc, shares, blanks)?;
        let journal = Journal {
            core: Core::owned_by(alloc, None, shares),
            count: ShareCount::new(shares),
            entries: Vec::new(alloc),
            books,
        };
        Ok((journal, made))
    }

    /// Makes a call. Returns its entry, and the wakers that the caller must wake. The entry has the
    /// share's number. The entry's serial is the share's count before the call. If the cell refuses
    /// the call, the refusal is the reply in the entry.
    ///
    /// A call that fails leaves no entry. It fails with `OutOfTurn` if the share's count is not the
    /// number of the share's entries in the history. This count is checked first. It fails with
    /// `Memory` if there is no memory.
    pub fn step<E: Edit<T> + Drop>(
        &mut self,
        share: &mut Share<M>,
        call: Call<T, Named, E>,
    ) -> Result<(Entry<T>, Wakers<Named>), Refusal>
        ensures share { IfOk result (λ answer. answer.0.share ≡ share.old.number) }
        ensures serial { IfOk result (λ answer. answer.0.serial ≡ share.old.count) }
        ensures call { IfOk result (λ answer.
            answer.0.call ≡ kept_call E.edit E.edit_some (state self.old).cell call) }
        ensures reply { IfOk result (λ answer.
            answer.0.reply ≡ reply (state self.old).cell answer.0.call) }
        ensures appended { IfOk result (λ answer.
            self.new ≡ record self.old { entries = self.old.entries ++ answer.0 ∷ [] }) }
        ensures hands_out { IfOk result (λ answer.
            answer.1 ≡ woken_by (state self.old) (plain_entry answer.0)) }
        ensures counted { IfOk result (λ answer.
            share.new ≡ share_after M.pick share.old answer.0 answer.1) }
        ensures recorded { IsRecorded self.new }

        ensures out_of_turn { (result ≡ Err Refusal.OutOfTurn)
            ↔ (share.old.count ≢ made_by share.old.number self.old.entries) }
        ensures in_turn { result ≢ Err Refusal.OutOfTurn
            → share.old.count ≡ made_by share.old.number self.old.entries }
        ensures refused { IfErr result (λ why.
            (why ≡ Refusal.OutOfTurn) ⊎ (why ≡ Refusal.Memory)) }
        ensures unchanged { OnErr result ((self.new ≡ self.old) × (share.new ≡ share.old)) }
    {
        if share.count() != self.books.next_serial(share) {
            return Err(Refusal::OutOfTurn);
        }
        self.entries.reserve(1)?;
        let (made, woken) = make(&mut self.core, call)?;
        let entry = Entry {
            share: share.number(),
            serial: share.count(),
            call: made.call,
            reply: made.reply,
        };
        self.entries.push_reserved(entry);
        let answer = (entry, woken);
        count(&mut self.books, share, &answer);
        Ok(answer)
    }

    /// Takes all shares back, and returns the history.
    pub(crate) fn close(self, shares: Vec<Share<M>>) -> History<T>
        requires { vec_len shares ≡ M.shares }
        ensures history { result ≡ self }
        ensures begins { self.begin ≡ M.shares }
        ensures recorded { IsRecorded self }
        ensures counted { length self.entries ≡ sum_by (λ s. s.count) shares.items }
        ensures picked { picked M.pick self ≡ sum_by (λ s. s.picked) shares.items }
    {
        let books = self.books;
        let Books {
            mut calls,
            mut picked,
            mut calls_left,
            mut picked_left,
            next_serials: _,
        } = books;
        for share in shares {
            calls_left.merge(share.calls);
            picked_left.merge(share.picked);
        }
        calls.audit(&mut calls_left);
        picked.audit(&mut picked_left);
        History {
            begin: self.count.shares,
            entries: self.entries,
        }
    }
}

/// Two books, which count what a cell's shares count, and the serial of each share's next call.
/// Beside each book is the part of its ledger that no share has.
#[derive(Drop)]
struct Books<M: Marker> {
    calls: ledger::Book<CallsLedger<M>>,
    picked: ledger::Book<PickedLedger<M>>,
    calls_left: ledger::Share<CallsLedger<M>>,
    picked_left: ledger::Share<PickedLedger<M>>,
    next_serials: Vec<u64>,
}

/// Contracts see the sum of the shares' counts, and the serial of each share's next call.
impl<M: Marker> Model for Books<M> {
    ghost Value = { Totals };

    ghost view = { λ b. record {
      calls = b.calls.total;
      picked = b.picked.total;
      next_serials = b.next_serials.items;
    } };

    ghost invariant = { λ b.
        (b.calls_left.parts ≡ 0) × (b.calls_left.amount ≡ 0)
        × (b.picked_left.parts ≡ 0) × (b.picked_left.amount ≡ 0)
        × (vec_len b.next_serials ≡ M.shares) };
}

impl<M: Marker> Books<M> {
    /// Makes new books, and the shares. Fails if there is no memory, which is checked first.
    fn open(alloc: Global, shares: u32, blanks: Blanks) -> Result<(Self, Vec<Share<M>>), AllocError>
        requires calls { (blanks.calls.name ≡ M.calls) × (blanks.calls.parts ≡ M.shares) }
        requires picked { (blanks.picked.name ≡ M.picked) × (blanks.picked.parts ≡ M.shares) }
        requires shares { shares ≡ M.shares }
        ensures empty { IfOk result (λ new.
            new.0 ≡ record { calls = 0; picked = 0; next_serials = replicate shares 0 }) }
        ensures new_shares { IfOk result (λ new. new.1.items ≡ new_shares shares) }
    {
        let mut made = Vec::new(alloc);
        made.reserve_exact(shares as usize)?;
        let next_serials = Vec::from_elem(alloc, 0, shares as usize)?;
        let Blanks { calls, picked } = blanks;
        let (calls, mut calls_left) = calls.open::<CallsLedger<M>>();
        let (picked, mut picked_left) = picked.open::<PickedLedger<M>>();
        for number in 0..shares {
            made.push_reserved(Share {
                number,
                count: 0,
                calls: calls_left.split_off(1, 0),
                picked: picked_left.split_off(1, 0),
            });
        }
        let books = Books {
            calls,
            picked,
            calls_left,
            picked_left,
            next_serials,
        };
        Ok((books, made))
    }

    /// Returns the serial of the next call of this share.
    fn next_serial(&self, share: &Share<M>) -> u64
        ensures serial { result ≡ slice_index self.now.next_serials share.now.number }
        ensures shares { length self.now.next_serials ≡ M.shares }
        ensures of_shares { share.now.number < M.shares }
    {
        self.next_serials[share.number as usize]
    }
}

/// Counts a call. Also counts the call's result, if it is picked: the call's answer decides this,
/// and only contracts know it.
fn count<T, M: Marker>(
    books: &mut Books<M>,
    share: &mut Share<M>,
    answer: &(Entry<T>, Wakers<Named>),
)
    ghost amount: { ℕ }
    requires { share.old.count + 1 < 2 ^ 64 }
    ensures books { books.new ≡ record {
      calls = books.old.calls + 1;
      picked = books.old.picked + amount;
      next_serials = slice_set books.old.next_serials share.old.number (share.old.count + 1);
    } }
    ensures share { share.new ≡ record share.old {
      count = share.old.count + 1;
      picked = share.old.picked + amount;
    } }
{
    let _ = answer;
    books.calls.add(&mut share.calls, 1);
    share.count += 1;
    books.next_serials[share.number as usize] = share.count;
    add_unseen(&mut books.picked, &mut share.picked);
}

/// Adds an amount to a share and to its book, as `Book::add` does. The caller's proof picks the
/// amount, which exists only in proofs. Does nothing at run time.
fn add_unseen<L: Ledger>(book: &mut ledger::Book<L>, share: &mut ledger::Share<L>)
    ghost amount: { ℕ }
    requires { 0 < share.old.parts }
    ensures total { book.new.total ≡ book.old.total + amount }
    ensures amount { share.new.amount ≡ share.old.amount + amount }
    ensures parts { share.new.parts ≡ share.old.parts }
{}
