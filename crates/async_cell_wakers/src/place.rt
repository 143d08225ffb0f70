ghost use Rattle.std.specs.Prelude.{◌≡◌};

/// The place of a waiting future in a wait list. While the future waits, each of its polls renews
/// the waker there. When the list hands out its wakers, no future has a place any more.
#[derive(Drop)]
pub struct Place {
    /// The round of the list in which the place was taken: 0 if there is no place.
    pub(crate) round: u64,
    /// The index of the place in the list.
    pub(crate) index: usize,
    /// The number of the task whose waker the future stored there last.
    pub(crate) task: usize,
}

impl Place {
    /// Makes the value that stands for no place.
    pub fn new() -> Place
        ensures { result.round ≡ 0 }
    {
        Place {
            round: 0,
            index: 0,
            task: 0,
        }
    }

    /// Notes the number of the task whose waker the future has stored, as `Context::task` gives it.
    /// The position stays.
    #[inline(always)]
    pub fn note(&mut self, task: usize)
        ensures { (self.new.round ≡ self.old.round) × (self.new.index ≡ self.old.index) }
    {
        self.task = task;
    }

    /// Returns whether the future stored the waker of a task with this number last. That may be a
    /// task of another queue, as each queue of tasks counts its own.
    #[inline(always)]
    pub(crate) fn is_of(&self, task: usize) -> bool {
        self.task == task
    }

    /// Gives up the place. This is for use after the list has handed out its wakers, so the list
    /// need not be changed.
    #[inline(always)]
    pub fn forget(&mut self)
        ensures { self.new.round ≡ 0 }
    {
        self.round = 0;
    }

    /// Returns whether the future took a place and did not give it up. If not, there is no place to
    /// give up. If so, the list may still have freed the place since, when it handed out its
    /// wakers.
    #[inline(always)]
    pub fn was_held(&self) -> bool {
        self.round != 0
    }
}
