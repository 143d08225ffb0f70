ghost use Rattle.std.specs.Prelude.{◌≡◌, ◌<◌, [], ◌∷◌, ◌++◌, length, slice_get, IfOk, IfErr, IfSome, IfNone, true, false};
ghost use Rattle.std.specs.Option.{option_map};
ghost use Rattle.async_cell_driver.specs.Mark.{woken, is_ready_mark};
ghost use Rattle.async_cell_driver.specs.DriverState.{mark_at, kind_at, result_at, change, with_mark, with_result, wake, wake_each};

use crate::Kind;
use async_cell_core::{Named, Refusal, Wakers};
use std::alloc::Global;
use std::marker::Model;

/// The progress of a task.
#[derive(Clone, Copy, Debug, PartialEq, Eq)]
pub(crate) enum Mark {
    /// The task was never polled, or its last poll was refused.
    Ready,
    /// The task's last poll returned `Pending`, and its name is in the cell's wait list.
    Waiting,
    /// The task's last poll returned `Pending`, and the task was woken after that poll.
    Woken,
    /// A poll of the task returned `Polled::Ready`.
    Done,
}

impl Mark {
    /// Returns the mark that a task with this mark has after it is woken.
    pub fn woken(self) -> Mark
        ensures { result ≡ woken self }
    {
        match self {
            Mark::Waiting => Mark::Woken,
            mark => mark,
        }
    }

    /// Returns whether the task is to be polled.
    pub fn is_ready(self) -> bool
        ensures { result ≡ is_ready_mark (Some self) }
    {
        matches!(self, Mark::Ready | Mark::Woken)
    }
}

/// A numbered task.
#[derive(Drop)]
pub(crate) struct Task<T> {
    pub kind: Kind,
    pub mark: Mark,
    /// The result that `settle` got for the task, until the method `result` takes it out.
    pub result: Option<Option<T>>,
}

/// The tasks that were started, by number.
#[derive(Drop)]
pub(crate) struct Tasks<T> {
    tasks: Vec<Task<T>>,
}

/// Contracts see the list of the tasks.
impl<T> Model for Tasks<T> {
    ghost use Rattle.std.specs.Prelude.{List};
    ghost use Rattle.async_cell_driver.specs.declared.tasks.Task.{Task};

    ghost Value = { List (Task T) };

    ghost view = { λ s. s.tasks.items };
}

impl<T: Drop> Tasks<T> {
    /// Makes an empty list of tasks. Needs no memory.
    pub fn new(alloc: Global) -> Self
        ensures { result ≡ [] }
    {
        Tasks {
            tasks: Vec::new(alloc),
        }
    }

    /// Returns how many tasks were started.
    pub fn len(&self) -> usize
        ensures { result ≡ length self.now }
    {
        self.tasks.len()
    }

    /// Starts a task, and returns its number.
    pub fn start(&mut self, kind: Kind) -> Result<usize, Refusal>
        ensures started { IfOk result (λ number. (number ≡ length self.old)
            × (self.new ≡ self.old
            ++ record { kind = kind; mark = Mark.Ready; result = None } ∷ [])) }
        ensures refused { IfErr result (λ why. (why ≡ Refusal.Memory) × (self.new ≡ self.old)) }
    {
        let number = self.tasks.len();
        let task = Task {
            kind,
            mark: Mark::Ready,
            result: None,
        };
        match self.tasks.push(task) {
            Ok(()) => Ok(number),
            Err(_) => Err(Refusal::Memory),
        }
    }

    /// Returns the kind and the mark of a task, if it was started.
    pub fn get(&self, i: usize) -> Option<(Kind, Mark)>
        ensures { result ≡ option_map (λ task. (task.kind, task.mark)) (slice_get self.now i) }
    {
        let task = self.tasks.get(i)?;
        Some((task.kind, task.mark))
    }

    /// Returns the kind of a task, if it is ready.
    pub fn ready(&self, i: usize) -> Option<Kind>
        ensures not_ready { IfNone result (is_ready_mark (mark_at self.now i) ≡ false) }
        ensures kind { IfSome result (λ kind. (kind_at self.now i ≡ Some kind)
            × (is_ready_mark (mark_at self.now i) ≡ true)) }
    {
        let (kind, mark) = self.get(i)?;
        mark.is_ready().then_some(kind)
    }

    /// Sets the mark of task `i`, if that task was started.
    #[tactic(auto, using(crate::proofs::TaskList::change_past, crate::proofs::TaskList::change_within))]
    pub fn set_mark(&mut self, i: usize, mark: Mark)
        ensures { self.new ≡ change (with_mark mark) i self.old }
    {
        if i < self.tasks.len() {
            let task = &mut self.tasks[i];
            task.mark = mark;
        }
    }

    /// Stores `content` as the result of task `i`, if that task was started. Returns the result
    /// that was stored before.
    #[tactic(auto, using(crate::proofs::TaskList::change_past, crate::proofs::TaskList::result_within, crate::proofs::TaskList::change_within))]
    pub fn replace_result(&mut self, i: usize, content: Option<Option<T>>) -> Option<Option<T>>
        ensures gives { result ≡ result_at self.old i }
        ensures once { self.new ≡ change (with_result content) i self.old }
    {
        if i >= self.tasks.len() {
            return None;
        }
        let task = &mut self.tasks[i];
        std::mem::replace(&mut task.result, content)
    }

    /// Wakes the tasks whose numbers are in `names`. Each of these tasks that waits is then ready.
    pub fn wake(&mut self, mut names: Wakers<Named>)
        ensures { self.new ≡ wake_each names self.old }
    {
        while let Some(Named(name)) = names.next() {
            self.wake_one(name as usize);
        }
    }

    /// Wakes one task, if it was started.
    #[tactic(auto, using(crate::proofs::TaskList::change_past, crate::proofs::TaskList::change_within))]
    fn wake_one(&mut self, i: usize)
        ensures { self.new ≡ change wake i self.old }
    {
        if i < self.tasks.len() {
            let task = &mut self.tasks[i];
            task.mark = task.mark.woken();
        }
    }
}
