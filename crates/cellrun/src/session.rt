//! The cell that a script calls, and what the calls print.
ghost use Rattle.std.specs.Prelude.{◌≡◌, ◌++◌, [], true, false, OnOk, Option, Some, None, codes, decimal};
ghost use Rattle.std.specs.{BTreeSet.contains, Ordering.nat_cmp};
ghost use Rattle.async_cell_model.specs.{Machine.Does, Machine.skips, Machine.waker_of};
ghost use Rattle.async_cell_wakers.specs.Named.{same_name};
ghost use Rattle.cellrun.specs.CallPrints.{CallPrints, KnowsNames, call_of, kept_call, edited, increased, reply_text, value_text, refusal_text, end_text};
ghost use Rattle.cellrun.specs.Script.{new_cell};

use crate::command::Command;
use async_cell_core::{Answer, Core, Named, Refusal, Reply, Wakers};
use async_cell_runs::{Call, Edit, step_copied};
use itoa::Buffer;
use std::alloc::{AllocError, Global};
use std::collections::BTreeSet;
use std::io::Write;

/// The cell of a script, and the names of its waiting wakers. If the name of a poll is not among
/// these names, the poll need not compare its name with the name of each waiting waker.
#[derive(Drop)]
pub struct Session {
    core: Core<i64, Named>,
    /// The names that polled since the last time when nobody waited.
    names: BTreeSet<u64>,
    /// Whether all that wait are among these. It is false if there was no memory for one of them.
    are_all: bool,
    ghost known: { KnowsNames core.waiting names are_all },
}

impl Session {
    /// Makes an open cell without a value, with one owner.
    #[tactic(auto, using(crate::proofs::Calls::nobody))]
    pub fn new(alloc: Global) -> Session
        ensures { result.core ≡ new_cell }
    {
        Session {
            core: Core::new(alloc),
            names: BTreeSet::new(alloc),
            are_all: true,
        }
    }

    /// Makes the call, and appends what it prints to `out`, which must be empty. Fails if there is
    /// no memory for the text.
    #[tactic(auto, using(crate::proofs::Calls::prints))]
    pub fn step(&mut self, command: Command, out: &mut Vec<u8>) -> Result<(), AllocError>
        requires { out.old.items ≡ [] }
        ensures { OnOk result (CallPrints self.old.core command out.new.items self.new.core) }
    {
        if command == Command::Debug {
            return writeln!(out, "{:?}", self.core).map_err(|_| AllocError);
        }
        let answer = self.call(command);
        replied(out, command, answer.reply, self.core.owners())?;
        woke(out, answer.woken)
    }

    /// Makes the call.
    #[tactic(auto, using(crate::proofs::Calls::known_after))]
    fn call(&mut self, command: Command) -> Answer<i64, Named>
        ensures { Does same_name true self.old.core
            (record { call = kept_call self.old.core.cell command; reply = result.reply })
            result.woken self.new.core }
    {
        match command {
            Command::Take(name) | Command::Get(name) => self.poll(name, command),
            _ => step_copied(&mut self.core, call_of(command)),
        }
    }

    /// Makes the poll `command`, whose waker has the name `name`.
    #[tactic(auto, using(crate::proofs::Calls::known_after))]
    fn poll(&mut self, name: u64, command: Command) -> Answer<i64, Named>
        requires { waker_of (kept_call self.old.core.cell command) ≡ Some (record { 0 = name }) }
        ensures { Does same_name true self.old.core
            (record { call = kept_call self.old.core.cell command; reply = result.reply })
            result.woken self.new.core }
    {
        if self.is_new(name) && self.core.is_vacant() {
            let reply = match self.core.add_unique(&Named(name)) {
                Ok(()) => Reply::Pending,
                Err(why) => Reply::Refused(why, None),
            };
            return Answer {
                reply,
                woken: Wakers::none(),
            };
        }
        step_copied(&mut self.core, call_of(command))
    }

    /// Adds the name to the known ones. Returns whether it is known that no poll of this name
    /// waits.
    #[tactic(auto, using(crate::proofs::Calls::nobody, crate::proofs::Calls::noted, crate::proofs::Calls::not_known, crate::proofs::Calls::no_skip))]
    fn is_new(&mut self, name: u64) -> bool
        ensures core { self.new.core ≡ self.old.core }
        ensures none { result ≡ true
            → skips same_name self.old.core.waiting (record { 0 = name }) ≡ false }
        ensures noted { self.new.are_all ≡ true → contains nat_cmp self.new.names name ≡ true }
    {
        if self.core.waiting() == 0 {
            self.names.clear();
            self.are_all = true;
        }
        let were_all = self.are_all;
        match self.names.insert(name) {
            Ok(is_new) => is_new && were_all,
            Err(_) => {
                self.are_all = false;
                were_all
            }
        }
    }
}

/// Returns the call that the command makes: `IsSet` for `debug`, which makes none.
fn call_of(command: Command) -> Call<i64, Named, Command>
    ensures { result ≡ call_of command }
{
    match command {
        Command::Set(value) => Call::Set(value),
        Command::OrSet(value) => Call::OrSet(value),
        Command::Replace(value) => Call::Replace(value),
        Command::UpdatePut(_) | Command::UpdateNone | Command::UpdateKeep => Call::Update(command),
        Command::UpdateSomeAdd(_) => Call::UpdateSome(command),
        Command::Take(name) => Call::PollTake(Named(name)),
        Command::Get(name) => Call::PollGet(Named(name)),
        Command::TryTake => Call::TryTake,
        Command::TryGet => Call::TryGet,
        Command::Own => Call::AddOwner,
        Command::End => Call::EndOwner,
        Command::Inner => Call::TakeInner,
        Command::IsSet | Command::Debug => Call::IsSet,
    }
}

impl Edit<i64> for Command {
    ghost edit = { edited };

    ghost edit_some = { increased };

    fn edit(&self, content: Option<i64>) -> Option<i64>
        ensures { result ≡ edited self.now content }
    {
        match self {
            Command::UpdatePut(value) => Some(*value),
            Command::UpdateNone => None,
            _ => content,
        }
    }

    fn edit_some(&self, value: i64) -> i64
        ensures { result ≡ increased self.now value }
    {
        match self {
            Command::UpdateSomeAdd(more) => value.saturating_add(*more),
            _ => value,
        }
    }
}

/// Appends the reply to a call, on a cell that then has this number of owners.
#[tactic(auto, using(crate::proofs::Calls::done_text, crate::proofs::Calls::found_text))]
fn replied(
    out: &mut Vec<u8>,
    command: Command,
    reply: Reply<i64>,
    owners: u32,
) -> Result<(), AllocError>
    ensures { OnOk result (out.new.items ≡ out.old.items ++ reply_text reply command owners) }
{
    match reply {
        Reply::Done => match command {
            Command::Own => owned(out, owners),
            _ => out.extend_from_slice(b"done"),
        },
        Reply::Value(value) => match command {
            Command::Replace(_) => labelled(out, b"old ", value, b"old none"),
            Command::OrSet(_) => out.extend_from_slice(b"done"),
            Command::End => owned(out, owners),
            _ => labelled(out, b"some ", value, b"none"),
        },
        Reply::Is(true) => out.extend_from_slice(b"true"),
        Reply::Is(false) => out.extend_from_slice(b"false"),
        Reply::Pending => out.extend_from_slice(b"pending"),
        Reply::Ready(value) => labelled(out, b"ready ", value, b"closed"),
        Reply::Refused(why, _) => out.extend_from_slice(reason(why)),
    }
}

/// Appends the label and the value, or what stands for no value.
fn labelled(
    out: &mut Vec<u8>,
    label: &[u8],
    value: Option<i64>,
    none: &[u8],
) -> Result<(), AllocError>
    ensures { OnOk result (out.new.items ≡ out.old.items ++ value_text label.now none.now value) }
{
    match value {
        Some(value) => {
            out.extend_from_slice(label)?;
            out.extend_from_slice(Buffer::new().format(value).as_bytes())
        }
        None => out.extend_from_slice(none),
    }
}

/// Appends `owners` and the number of owners.
fn owned(out: &mut Vec<u8>, owners: u32) -> Result<(), AllocError>
    ensures { OnOk result (out.new.items ≡ out.old.items ++ codes "owners " ++ decimal owners) }
{
    out.extend_from_slice(b"owners ")?;
    out.extend_from_slice(Buffer::new().format(owners).as_bytes())
}

/// Returns the text of a refusal.
fn reason(why: Refusal) -> &'static [u8]
    ensures { result.now ≡ refusal_text why }
{
    match why {
        Refusal::Closed => b"refused closed",
        Refusal::OwnersFull => b"refused owners",
        Refusal::StillShared => b"refused shared",
        Refusal::Memory | Refusal::OutOfTurn | Refusal::ShareMissing => b"refused memory",
    }
}

/// Appends ` woke` and the names of the woken wakers, if there are any, and ends the line.
#[tactic(auto, using(crate::proofs::Calls::some_named))]
fn woke(out: &mut Vec<u8>, woken: Wakers<Named>) -> Result<(), AllocError>
    ensures { OnOk result (out.new.items ≡ out.old.items ++ end_text woken) }
{
    if woken.is_empty() {
        return out.extend_from_slice(b"\n");
    }
    out.extend_from_slice(b" woke")?;
    for Named(name) in woken {
        out.extend_from_slice(b" ")?;
        out.extend_from_slice(Buffer::new().format(name).as_bytes())?;
    }
    out.extend_from_slice(b"\n")
}
