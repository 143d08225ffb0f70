//! The free connections, and who waits for one.

ghost use Rattle.std.specs.Prelude.{
  IfNone,
  IfSome,
  vec_capacity,
  vec_len,
  ◌++◌,
  ◌<◌,
  ◌∷◌,
  ◌≡◌,
  [],
};
ghost use Rattle.std.specs.VecDeque.{deque_len};

use async_cell_sync::Replier;
use std::alloc::{AllocError, Global};
use std::collections::VecDeque;
use std::sync::Wait;

/// A connection, which counts its queries.
#[derive(Drop)]
pub struct Connection {
    pub queries: u32,
}

impl Connection {
    pub fn query(&mut self) {
        self.queries = self.queries.wrapping_add(1);
    }
}

/// Hands a connection to the one who waits for it.
type Waiter<R> = Replier<Connection, R>;

/// The free connections, and who waits for one. While one is free, nobody waits.
#[derive(Drop)]
pub struct Shelf<R: Wait + Copy> {
    free: Vec<Connection>,
    waiting: VecDeque<Waiter<R>>,
    ghost nobody_waits: { 0 < vec_len free → deque_len waiting ≡ 0 },
}

impl<R: Wait + Copy> Shelf<R> {
    /// Opens `count` connections, and makes room for as many to come back.
    pub fn new(alloc: Global, count: usize) -> Result<Self, AllocError> {
        let mut free = Vec::with_capacity(alloc, count)?;
        for _ in 0..count {
            free.push(Connection { queries: 0 })?;
        }
        let waiting = VecDeque::new(alloc);
        Ok(Shelf { free, waiting })
    }

    /// Takes a free connection. If there is none, queues the waiter. Forgets those that gave up.
    pub fn take_or_queue(&mut self, waiter: Waiter<R>) -> Result<Option<Connection>, AllocError> {
        if let Some(connection) = self.free.pop() {
            return Ok(Some(connection));
        }
        self.waiting.retain(|waiter| !waiter.is_closed());
        self.waiting.push_back(waiter)?;
        Ok(None)
    }

    /// Returns the connection with the first waiter. If nobody waits, the connection is free.
    pub fn put(&mut self, connection: Connection) -> Option<(Waiter<R>, Connection)>
        ensures handed { IfSome result (λ handed. handed.1 ≡ connection) }
        ensures kept { IfNone result (vec_len self.old.free < vec_capacity self.old.free
            → self.new.free.items ≡ self.old.free.items ++ connection ∷ []) }
    {
        let Some(waiter) = self.waiting.pop_front() else {
            let _ = self.free.push(connection); // `new` made room for it.
            return None;
        };
        Some((waiter, connection))
    }
}
