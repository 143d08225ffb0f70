//! A pool of connections: a semaphore whose permits are values. A lease gives its connection back
//! when it is dropped. Who finds none free waits for one, with a limit.
#![tactic(auto)]

mod shelf;

use anyhow::{Context, Result};
use async_cell_sync::{ReplyFuture, reply_slot};
use async_cell_within::within;
use shelf::{Connection, Shelf};
use std::alloc::AllocGlobal;
use std::random::RandomSource;
use std::sync::{Arc, Mutex, Wait};
use std::thread;
use std::time::{Clock, Duration};

type Pool<R> = Arc<Mutex<Shelf<R>>>;

/// A connection, which goes back to the pool when this is dropped.
struct Lease<R: Wait + Copy> {
    connection: Connection,
    pool: Pool<R>,
    rt: R,
}

impl<R: Wait + Copy> Drop for Lease<R> {
    fn drop(self) {
        let Lease {
            connection,
            pool,
            rt,
        } = self;
        let mut connection = connection;
        for _ in rt.forever() {
            let handed = pool.lock(&rt).put(connection);
            let Some((waiter, taken)) = handed else {
                return;
            };
            match waiter.set(taken) {
                Ok(()) => return,
                Err(back) => connection = back, // This waiter gave up: ask the next.
            }
        }
    }
}

/// Leases a connection. Returns `None` if none came before `limit` has passed.
fn checkout<R>(rt: R, pool: &Pool<R>, limit: Duration) -> Result<Option<Lease<R>>>
where
    R: Wait + Copy + Clock + RandomSource + AllocGlobal,
{
    let pool = Arc::try_clone(pool)?; // Now, as a `?` below would lose a connection.
    let (replier, reply) = reply_slot(rt.alloc(), rt)?;
    let free = pool.lock(&rt).take_or_queue(replier)?;
    let found = match free {
        Some(connection) => Some(connection),
        None => wait_for(&rt, reply, limit)?,
    };
    Ok(found.map(|connection| Lease {
        connection,
        pool,
        rt,
    }))
}

/// Waits for a connection. A waiter that gives up returns one that came at the last moment.
fn wait_for<R>(
    rt: &R,
    mut reply: ReplyFuture<Connection, R>,
    limit: Duration,
) -> Result<Option<Connection>>
where
    R: Wait + Copy + Clock + RandomSource + AllocGlobal,
{
    let late = match within(rt, &mut reply, limit) {
        Ok(Some(Ok(connection))) => return Ok(Some(connection)),
        late => late,
    };
    match reply.close() {
        Some(connection) => Ok(Some(connection)),
        None => Ok(late?.transpose()?),
    }
}

/// Makes three queries, each with a lease of its own.
fn work<R>(rt: R, pool: &Pool<R>, limit: Duration) -> Result<()>
where
    R: Wait + Copy + Clock + RandomSource + AllocGlobal,
{
    for _ in 0..3 {
        let mut lease = checkout(rt, pool, limit)?.context("no connection in time")?;
        lease.connection.query();
    }
    Ok(())
}

fn main(rt: HostRuntime) -> Result<()> {
    let minute = Duration::from_secs(60);
    let pool = Arc::new(rt.alloc(), Mutex::new(Shelf::new(rt.alloc(), 2)?))?;
    let leases = (checkout(rt, &pool, minute)?, checkout(rt, &pool, minute)?);
    let third = checkout(rt, &pool, Duration::from_millis(20))?;
    println!(rt; "a third in 20 ms: {}", third.is_some())?;
    let mut workers = Vec::new(rt.alloc());
    for _ in 0..4 {
        let pool = Arc::try_clone(&pool)?;
        workers.push(thread::spawn(&rt, move || work(rt, &pool, minute))?)?;
    }
    drop(leases);
    for worker in workers {
        worker.join(&rt)?;
    }
    let one = checkout(rt, &pool, Duration::ZERO)?.context("one is lost")?;
    let other = checkout(rt, &pool, Duration::ZERO)?.context("one is lost")?;
    let (one, other) = (one.connection.queries, other.connection.queries);
    println!(rt; "{} queries, and both came back", one.wrapping_add(other))?;
    Ok(())
}
