//! What a program proves by the tokens of a list that exists in the proofs alone.
ghost use Rattle.std.specs.Prelude.{◌≡◌, [], ◌∷◌};
ghost use mathlib.Core.List.{IsPrefix};

use ghost_tokens::{Log, Makes, Seen};
use std::snapshot::Snapshot;

/// The entry is the number itself.
pub struct Number;

impl Makes<Snapshot<u64>, u64> for Number {
    ghost entry = { λ s. s.value };
}

/// Adds two numbers. Whoever looked in between has seen the first alone, which begins the list.
pub fn two(a: u64, b: u64) -> (Log<u64>, Seen<u64>, Seen<u64>)
    ensures log { result.0.list ≡ a ∷ b ∷ [] }
    ensures between { result.1.list ≡ a ∷ [] }
    ensures whole { result.2.list ≡ a ∷ b ∷ [] }
    ensures begins { IsPrefix result.1.list result.2.list }
{
    let mut log = Log::open();
    log.push::<Snapshot<u64>, Number>(&Snapshot::of(&a));
    let between = log.seen();
    log.push::<Snapshot<u64>, Number>(&Snapshot::of(&b));
    let mut whole = between.again();
    whole.learn(&log);
    (log, between, whole)
}

/// What two threads have seen of one list begins what the longer of them has.
pub fn both(one: &Seen<u64>, two: &Seen<u64>) -> Seen<u64>
    requires of_one { two.now.name ≡ one.now.name }
    ensures one { IsPrefix one.now.list result.list }
    ensures two { IsPrefix two.now.list result.list }
{
    one.longer(two)
}

/// Whoever has the log has all that anybody has seen of it.
pub fn has(log: &Log<u64>, seen: &Seen<u64>)
    requires of_one { seen.now.name ≡ log.now.name }
    ensures all { IsPrefix seen.now.list log.now.list }
{
    let mut mine = seen.again();
    mine.learn(log);
}
