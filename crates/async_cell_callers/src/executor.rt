//! An executor of tasks that wait for one cell.
ghost use Rattle.std.specs.Prelude.{◌≡◌, ℕ, [], false, OnOk};
ghost use Rattle.async_cell_driver.specs.Log.{is_ready};

use async_cell_driver::{Driver, Kind, Refusal};
use std::alloc::Global;

/// Polls the ready tasks, turn by turn, and collects what they got.
#[derive(Drop)]
pub struct Executor {
    driver: Driver<u64>,
    spawned: usize,
}

impl Executor {
    /// No tasks, and a cell without a value.
    pub fn new(alloc: Global) -> Self {
        Executor {
            driver: Driver::new(alloc, None),
            spawned: 0,
        }
    }

    /// Starts a task, and gives its number.
    pub fn spawn(&mut self, kind: Kind) -> Result<usize, Refusal> {
        let number = self.driver.start(kind)?;
        self.spawned = number.saturating_add(1);
        Ok(number)
    }

    /// Puts a value into the cell. It comes back where the cell is closed.
    pub fn send(&mut self, value: u64) -> Result<(), u64> {
        self.driver.set(value)
    }

    /// Polls all ready tasks, and adds to `finished` what they got. Afterwards no task is ready.
    pub fn turn(&mut self, finished: &mut Vec<(usize, Option<u64>)>) -> Result<usize, Refusal>
        ensures { OnOk result ((i : ℕ) → is_ready self.new.driver [] i ≡ false) }
    {
        finished.reserve(self.spawned)?;
        let polls = self.driver.settle()?;
        for i in 0..self.spawned {
            if let Some(content) = self.driver.result(i) {
                finished.push_reserved((i, content));
            }
        }
        Ok(polls)
    }
}
