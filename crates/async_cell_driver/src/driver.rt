ghost use Rattle.std.specs.Prelude.{◌≡◌, ◌≢◌, ◌≤◌, ℕ, List, [], map, length, vec_len, true, false, Some, None, Ok, ◌↔◌, IsTrue, IsOk, IsSomeAnd, IfOk, IfErr, OnOk, OnErr, MatchOption};
ghost use Rattle.async_cell_model.specs.Machine.{content, is_closed, is_vacant, may_refuse, DoesUpTo};
ghost use Rattle.async_cell_model.specs.Refusal.{FailsWithMemory};
ghost use Rattle.async_cell_wakers.specs.{Named.same_name, declared.named.Named.Named as Name};
ghost use Rattle.async_cell_driver.specs.Asked.{ClonesContent, TakesContent, waiting_when, mark_after};
ghost use Rattle.async_cell_driver.specs.{DriverState.is_named, DriverState.kind_at, DriverState.result_at, History.poll_of, History.reply_of, History.told_of};
ghost use Rattle.async_cell_driver.specs.Drives.{AllSpared, Drives, Happens, IsSpared, ResultsStay};
ghost use Rattle.async_cell_driver.specs.Log.{Log, is_ready, waits, log_of, with_edit};
ghost use Rattle.async_cell_driver.specs.{Settle.Settles, Settle.SettlesOne, declared.event.Told.Told as Answer};

mod calls;

use crate::event::{Event, Kind, Polled, Told};
use crate::tasks::{Mark, Tasks};
use async_cell_core::{Core, Named, Poll, Refusal};
use async_cell_model::Cell;
use async_cell_runs::Edit;
use std::alloc::Global;
use std::marker::Model;

/// Numbered tasks that wait for the value of one cell. The driver owns the cell. It knows which
/// tasks are ready to be polled.
///
/// ```rust
/// let mut driver = Driver::new(rt.alloc(), Some(7));
/// let task = driver.start(Kind::Take)?;
/// println!(rt; "{} poll", driver.settle()?)?; // prints 1 poll
/// println!(rt; "{:?}", driver.result(task))?; // prints Some(Some(7))
/// ```
#[derive(Drop)]
pub struct Driver<T> {
    core: Core<T, Named>,
    tasks: Tasks<T>,
}

/// Contracts see the core, and the tasks by number.
impl<T> Model for Driver<T> {
    ghost use Rattle.async_cell_driver.specs.DriverState.{DriverState, NamesMatch};

    ghost Value = { DriverState T };

    ghost view = { λ s. record { core = s.core; tasks = s.tasks } };

    ghost invariant = { λ s. NamesMatch (record { core = s.core; tasks = s.tasks }) };
}

impl<T: Clone> Driver<T> {
    /// Makes a driver without tasks. Its cell has the content `value` and one owner.
    pub fn new(alloc: Global, value: Option<T>) -> Self
        ensures { result ≡ record
            { core = record { cell = Cell.Open value 1; waiting = []; room = 0 }; tasks = [] } }
    {
        Driver {
            core: Core::owned_by(alloc, value, 1),
            tasks: Tasks::new(alloc),
        }
    }

    /// Starts a task and returns its number, which is the number of tasks before it. Fails with
    /// `Memory` if there is no memory for it.
    #[tactic(auto, using(crate::proofs::Logs::results_stay))]
    pub fn start(&mut self, kind: Kind) -> Result<usize, Refusal>
        ensures started { IfOk result (λ number.
            Happens T.is_clone self.old (Event.Start kind) (Told.Started number) self.new) }
        ensures refused { IfErr result (λ why.
            Happens T.is_clone self.old (Event.Start kind) (Told.Refused why) self.new) }

        ensures number { IfOk result (λ number. number ≡ length self.old.tasks) }
        ensures results_stay { ResultsStay self.old self.new }
        ensures unchanged { OnErr result (self.new ≡ self.old) }
    {
        self.core.soundness();
        self.tasks.start(kind)
    }

    /// Polls a task that is ready. Returns `NotReady`, without a poll, for a task that is done, not
    /// ready or not there. Fails with `Memory` if there is no memory for the waker's place in the
    /// wait list or for a clone of the value. The task is then still ready.
    #[tactic(auto, using(crate::proofs::CoreCalls::poll_steps))]
    pub fn poll(&mut self, i: usize) -> Result<Polled<T>, Refusal>
        ensures drives { Happens T.is_clone self.old (Event.Poll i) (told_of result) self.new }

        // A task that is not ready.
        ensures not_ready { (result ≡ Ok Polled.NotReady) ↔ (is_ready self.old [] i ≡ false) }
        ensures untouched { result ≡ Ok Polled.NotReady → self.new ≡ self.old }

        // What a ready task gets.
        ensures taker { kind_at self.old.tasks i ≡ Some Kind.Take → is_ready self.old [] i ≡ true
            → TakesContent self.old.core self.new.core result }
        ensures getter { kind_at self.old.tasks i ≡ Some Kind.Get → is_ready self.old [] i ≡ true
            → ClonesContent T.is_clone self.old.core self.new.core result }

        // When it is refused.
        ensures refused { IfErr result (λ why. (why ≡ Refusal.Memory)
            × (self.new.core.cell ≡ self.old.core.cell)
            × (self.new.core.waiting ≡ self.old.core.waiting)) }
        ensures spared { may_refuse same_name true self.old.core
            (poll_of (kind_at self.old.tasks i) i) ≡ false → IsOk result }
        ensures if_infallible { is_vacant self.old.core.cell ≡ false
            → MatchOption (content self.old.core.cell) (IsOk result)
            (λ value. T.is_infallible value → IsOk result) }

        // What stays.
        ensures results_stay { ResultsStay self.old self.new }
        ensures ready_no_more { OnOk result (is_ready self.new [] i ≡ false) }
        ensures others_stay { (j : ℕ) → j ≢ i → is_ready self.new [] j ≡ is_ready self.old [] j }
    {
        self.core.soundness();
        let Some(kind) = self.tasks.ready(i) else {
            return Ok(Polled::NotReady);
        };
        let asked = ask(&mut self.core, kind, Named(i as u64));
        self.core.soundness();
        self.tasks.set_mark(i, mark_after(&asked));
        asked
    }

    /// Makes room in the core's wait list for `additional` more wakers. Polls that add these need
    /// no memory, until a fill or a close gives up the room. Fails with `Memory` if there is no
    /// memory for this room. Does nothing on a closed cell.
    pub fn reserve(&mut self, additional: usize) -> Result<(), Refusal>
        ensures tasks_stay { self.new.tasks ≡ self.old.tasks }
        ensures cell_stays { self.new.core.cell ≡ self.old.core.cell }
        ensures waiting_stay { self.new.core.waiting ≡ self.old.core.waiting }
        ensures makes_room { is_closed self.old.core.cell ≡ false
            → OnOk result (additional ≤ self.new.core.room) }
        ensures keeps_room { self.old.core.room ≤ self.new.core.room }
        ensures refused { FailsWithMemory result }
        ensures closed { is_closed self.old.core.cell ≡ true → IsOk result × (self.new ≡ self.old) }
        ensures enough { additional ≤ self.old.core.room → IsOk result }
        ensures unchanged { OnErr result (self.new ≡ self.old) }
    {
        self.core.reserve(additional)
    }

    /// Returns whether a task is ready. A task that was started and is not done is ready in three
    /// cases: it was never polled, its last poll was refused, or it was woken since its last poll.
    pub fn is_ready(&self, i: usize) -> bool
        ensures { result ≡ is_ready self.now [] i }
    {
        self.tasks.ready(i).is_some()
    }

    /// Returns whether a task waits: its last poll returned `Pending`. A task that waits is also
    /// ready whenever the cell is full or closed.
    pub fn waits(&self, i: usize) -> bool
        ensures log { result ≡ waits self.now [] i }
        ensures none_forgotten { IsTrue result
            → is_vacant self.now.core.cell ≡ false → is_ready self.now [] i ≡ true }
    {
        self.core.soundness();
        matches!(self.tasks.get(i), Some((_, Mark::Waiting | Mark::Woken)))
    }

    /// Returns how many wakers wait for a value of the cell. This is never more than the number of
    /// tasks that were started, however often they are polled.
    pub fn waiting(&self) -> usize
        ensures list { result ≡ length self.now.core.waiting }
        ensures at_most { result ≤ length self.now.tasks }
    {
        self.core.soundness();
        self.core.waiting()
    }

    /// Takes out the result that `settle` got for a task: `Some(Some(v))`, or `Some(None)` from a
    /// closed cell. Returns `None` if there is no result, or if it was taken out already.
    #[tactic(auto, using(crate::proofs::Settled::result_steps))]
    pub fn result(&mut self, i: usize) -> Option<Option<T>>
        ensures gives { result ≡ result_at self.old.tasks i }
        ensures once { result_at self.new.tasks i ≡ None }
        ensures others { (j : ℕ) → j ≢ i → result_at self.new.tasks j ≡ result_at self.old.tasks j }
        ensures nothing_else { Drives T.is_clone self.old [] self.new }
    {
        self.core.soundness();
        self.tasks.replace_result(i, None)
    }

    /// Makes one poll of each task that is now ready, in order of task number, and returns how many
    /// polls were made. If a poll returns `Ready`, stores the poll's result, so that the method
    /// `result` can return it. If a poll fails with `Memory`, the call does, too: the task of that
    /// poll and the ready tasks after it are still ready. The call visits every task that was ever
    /// started, since done tasks stay in the list.
    #[tactic(auto, using(crate::proofs::CoreCalls::poll_steps))]
    pub fn settle(&mut self) -> Result<usize, Refusal>
        ensures settles { (log : Log T) × Settles T.is_clone self.old result log self.new }
        ensures none_ready { OnOk result ((i : ℕ) → is_ready self.new [] i ≡ false) }
        ensures none_waits { OnOk result
            (is_vacant self.new.core.cell ≡ false → (i : ℕ) → waits self.new [] i ≡ false) }
        ensures if_infallible { is_vacant self.new.core.cell ≡ false
            → MatchOption (content self.new.core.cell) (IsOk result)
            (λ value. T.is_infallible value → IsOk result) }
    {
        self.core.soundness();
        let mut polls = 0;
        for i in 0..self.tasks.len() {
            if !self.is_ready(i) {
                continue;
            }
            self.poll_and_keep(i)?;
            polls += 1;
        }
        Ok(polls)
    }

    /// Polls a task that is ready to be polled. If the poll returns `Ready`, stores the poll's
    /// result.
    #[tactic(auto, using(crate::proofs::Settled::keep_steps))]
    fn poll_and_keep(&mut self, i: usize) -> Result<(), Refusal>
        requires { is_ready self.old [] i ≡ true }
        ensures settles { (answer : Answer T)
            × SettlesOne T.is_clone self.old i result answer self.new }
        ensures ready_no_more { OnOk result (is_ready self.new [] i ≡ false) }
        ensures others_stay { (j : ℕ) → j ≢ i → is_ready self.new [] j ≡ is_ready self.old [] j }
        ensures size { length self.new.tasks ≡ length self.old.tasks }
        ensures if_infallible { is_vacant self.new.core.cell ≡ false
            → MatchOption (content self.new.core.cell) (IsOk result)
            (λ value. T.is_infallible value → IsOk result) }
    {
        if let Polled::Ready(content) = self.poll(i)? {
            drop(self.tasks.replace_result(i, Some(content)));
        }
        Ok(())
    }

    /// Makes the events happen in order, and returns one outcome for each. If an event is refused,
    /// its outcome is the refusal, and the events after it still happen. Room for the outcomes is
    /// reserved first. If there is no memory for it, nothing is done and the list is returned in
    /// the error. An empty list needs no memory.
    pub fn apply<E: Edit<T> + Drop>(
        &mut self,
        events: Vec<Event<T, E>>,
    ) -> Result<Vec<Told<T>>, Vec<Event<T, E>>>
        ensures empty_ok { events.items ≡ [] → IsOk result }
        ensures one_each { IfOk result (λ told. vec_len told ≡ vec_len events) }
        ensures drives { IfOk result (λ told.
            (names : List (List Name)) × (length names ≡ vec_len events)
            × Drives T.is_clone self.old
            (log_of (map (with_edit E.edit) events.items) told.items names) self.new
            × AllSpared T.is_infallible self.old
            (log_of (map (with_edit E.edit) events.items) told.items names)) }
        ensures results_stay { ResultsStay self.old self.new }
        ensures comes_back { IfErr result (λ back. back ≡ events) }
        ensures unchanged { OnErr result (self.new ≡ self.old) }
    {
        self.core.soundness();
        let mut told = Vec::new(*events.allocator());
        if told.reserve_exact(events.len()).is_err() {
            return Err(events);
        }
        for event in events {
            told.push_reserved(self.happen(event));
        }
        Ok(told)
    }

    /// Makes one event happen, and returns its outcome.
    fn happen<E: Edit<T> + Drop>(&mut self, event: Event<T, E>) -> Told<T>
        ensures drives { Happens T.is_clone self.old (with_edit E.edit event) result self.new }
        ensures spared { IsSpared T.is_infallible self.old.core.cell
            (with_edit E.edit event) result }
        ensures results_stay { ResultsStay self.old self.new }
    {
        match event {
            Event::Start(kind) => match self.start(kind) {
                Ok(number) => Told::Started(number),
                Err(why) => Told::Refused(why),
            },
            Event::Poll(i) => match self.poll(i) {
                Ok(polled) => Told::Polled(polled),
                Err(why) => Told::Refused(why),
            },
            event => Told::Reply(self.call(event)),
        }
    }
}

/// Polls the core for a task of this kind. The task's name is not in the wait list. So a poll that
/// has to wait adds the name without searching the list.
#[tactic(auto, using(crate::proofs::CoreCalls::sure_anyway, async_cell_model::proofs::Machine::does_up_to))]
fn ask<T: Clone>(core: &mut Core<T, Named>, kind: Kind, name: Named) -> Result<Polled<T>, Refusal>
    requires { is_named name.0 core.old.waiting ≡ false }
    ensures model { IsSomeAnd (reply_of (told_of result)) (λ reply.
        DoesUpTo same_name true T.is_clone core.old
        (record { call = poll_of (Some kind) name.0; reply = reply }) [] core.new) }
    ensures refused { IfErr result (λ why. (why ≡ Refusal.Memory)
        × (core.new.cell ≡ core.old.cell) × (core.new.waiting ≡ core.old.waiting)) }
    ensures waiting { IfOk result (λ polled.
        core.new.waiting ≡ waiting_when polled name core.old.waiting) }
    ensures taker { kind ≡ Kind.Take → TakesContent core.old core.new result }
    ensures getter { kind ≡ Kind.Get → ClonesContent T.is_clone core.old core.new result }
    ensures spared { may_refuse same_name true core.old (poll_of (Some kind) name.0) ≡ false
        → IsOk result }
    ensures if_infallible { is_vacant core.old.cell ≡ false
        → MatchOption (content core.old.cell) (IsOk result)
        (λ value. T.is_infallible value → IsOk result) }
{
    if core.is_vacant() {
        core.add_unique(&name)?;
        return Ok(Polled::Pending);
    }
    let polled = match kind {
        Kind::Take => core.poll_take(&name)?,
        Kind::Get => core.poll_get(&name)?,
    };
    Ok(match polled {
        Poll::Ready(content) => Polled::Ready(content),
        Poll::Pending => Polled::Pending,
    })
}

/// Returns the mark of a task after a poll of the core that returned this.
fn mark_after<T>(asked: &Result<Polled<T>, Refusal>) -> Mark
    ensures { result ≡ mark_after asked.now }
{
    match asked {
        Ok(Polled::Ready(_)) => Mark::Done,
        Ok(_) => Mark::Waiting,
        Err(_) => Mark::Ready,
    }
}
