//! What a run is asked for, by KIND WORKLOAD ROUNDS WAITERS, and what the compiler must not know.
use std::alloc::{AllocError, Global};
use std::env::Env;
use std::io;
use std::sync::atomic::{AtomicU64, Ordering};

/// The words of the command.
#[derive(Drop)]
pub struct Asked {
    pub kind: String,
    pub workload: String,
    pub rounds: u64,
    /// How many futures wait in a round.
    pub waiters: u64,
}

impl Asked {
    /// Reads the words of the command. One that is not there is empty, or 0.
    pub fn read<R: Env + AllocGlobal>(rt: &R) -> io::Result<Asked> {
        let mut words = std::env::args(rt)?.skip(1);
        let mut word = || words.next().unwrap_or(String::new(rt.alloc()));
        Ok(Asked {
            kind: word(),
            workload: word(),
            rounds: word().parse().unwrap_or(0),
            waiters: word().parse().unwrap_or(0),
        })
    }
}

/// A zero of which the compiler knows nothing: what is written must not be known ahead.
#[derive(Drop)]
pub struct Hidden {
    zero: AtomicU64,
}

impl Hidden {
    /// Makes it. It is never given back.
    pub fn make(alloc: Global) -> Result<&'static Hidden, AllocError> {
        let zero = AtomicU64::new(0);
        Ok(Box::leak(Box::new(alloc, Hidden { zero })?))
    }

    /// Returns the number.
    pub fn number(&self, known: u64) -> u64 {
        known.wrapping_add(self.zero.load(Ordering::SeqCst))
    }
}
