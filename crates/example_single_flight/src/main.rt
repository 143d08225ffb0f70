//! One call a key (single flight): the first caller makes the value of a key, and the other callers
//! of that key wait for it. If it fails, those that wait fail, too, and the next call tries again.
//! Calls of different keys do not wait for each other.
#![tactic(auto)]

use anyhow::{Context, Result, bail};
use async_cell_sync::{Get, Owner, With};
use futures::executor::block_on;
use std::alloc::{AllocError, AllocGlobal, Global};
use std::collections::HashMap;
use std::random::RandomSource;
use std::sync::atomic::{AtomicU64, Ordering};
use std::sync::{Mutex, Wait};
use std::thread;

/// The cell of a key. It holds the value, or `None` if its maker failed.
type Cell<V, R> = Owner<Option<V>, R>;

/// What a caller is to do.
enum Turn<V: Drop, R: Wait + Drop> {
    /// Makes the value of this cell.
    Make(Cell<V, R>),
    /// Waits for the value, which another caller makes or has made.
    Wait(With<Get<Cell<V, R>>, R>),
}

/// The values by their keys. A value that was made stays.
#[derive(Drop)]
struct Flights<V: Drop, R: Wait + Drop> {
    cells: Mutex<HashMap<u32, Cell<V, R>>>,
    rt: R,
}

impl<V: Clone, R: AllocGlobal + Copy + RandomSource + Wait> Flights<V, R> {
    fn new(alloc: Global, rt: R) -> Self {
        let cells = Mutex::new(HashMap::new(alloc));
        Flights { cells, rt }
    }

    /// Returns the value of the key. The first caller makes it, without a lock.
    fn get<F: FnOnce() -> Result<V> + Drop>(&self, key: u32, make: F) -> Result<V>
        requires { F.pre make }
    {
        match self.turn(key)? {
            Turn::Wait(value) => block_on(&self.rt, value)??.context("another caller failed"),
            Turn::Make(cell) => self.make(key, cell, make),
        }
    }

    /// Finds the cell of the key, or makes one.
    fn turn(&self, key: u32) -> Result<Turn<V, R>> {
        let mut cells = self.cells.lock(&self.rt);
        if let Some(cell) = cells.get(&key) {
            return Ok(Turn::Wait(cell.get_shared()?));
        }
        let cell = Owner::new(self.rt.alloc(), self.rt)?;
        cells.insert(key, cell.another()?)?;
        Ok(Turn::Make(cell))
    }

    /// Makes the value, and tells those that wait. The next call makes another cell, if this fails.
    fn make<F: FnOnce() -> Result<V> + Drop>(
        &self,
        key: u32,
        cell: Cell<V, R>,
        make: F,
    ) -> Result<V>
        requires { F.pre make }
    {
        let guard = cell.into_guard(None);
        match make() {
            Ok(value) => {
                let copy: Result<V, AllocError> = value.clone();
                guard.set(Some(value));
                Ok(copy?)
            }
            Err(why) => {
                // First the cell goes, so that the next call does not find it. Then the guard ends.
                let _failed = self.cells.lock(&self.rt).remove(&key);
                Err(why)
            }
        }
    }
}

/// Reads the price of an article, and counts that it did.
fn read(reads: &AtomicU64, text: &str) -> Result<u64> {
    reads.fetch_add(1, Ordering::SeqCst);
    text.parse::<u64>().ok().context("no price")
}

fn main(rt: HostRuntime) -> Result<()> {
    let prices = Flights::new(rt.alloc(), rt);
    let reads = AtomicU64::new(0);
    let pen = || prices.get(1, || read(&reads, "2"));
    let ink = || prices.get(2, || read(&reads, "5"));
    let both = || prices.get(3, || Ok(pen()?.saturating_add(ink()?)));
    let none = || prices.get(4, || read(&reads, "x")).is_err();
    let (first, (second, failed)) = thread::join(&rt, both, || thread::join(&rt, both, none));
    println!(rt; "pen and ink: {}, {}", first?, second?)?;
    println!(rt; "read {} prices", reads.load(Ordering::SeqCst))?;
    println!(rt; "no price: {failed}, {}", none())?;
    println!(rt; "then {}", prices.get(4, || read(&reads, "9"))?)?;
    Ok(())
}
