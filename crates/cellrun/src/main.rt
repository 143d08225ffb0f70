//! Reads calls from standard input, one per line. Makes the calls on one cell, and prints the
//! result of each call.
#![tactic(auto)]

mod command;
mod lines;
mod output;
mod script;
mod session;

use script::Ended;
use std::env::{Env, FillError};
use std::process::ExitCode;

/// Printed on standard error if there is an argument.
const USAGE: &str = "\
usage: cellrun < SCRIPT
Steps one cell by the calls on standard input, one a line, and prints the result of each call.
It takes no arguments. The cell starts open, without a value and with one owner.

Each call, what it prints, and what it does:
  set V              done, or refused closed; sets V
  or_set V           done, or refused closed; sets V if there is no value
  replace V          old X, old none, or refused closed; sets V
  update put V       done, or refused closed; sets V
  update none        done, or refused closed; removes the value
  update keep        done, or refused closed; keeps the value, if there is one
  update_some add V  done, or refused closed; adds V to the value, if there is one, and saturates
  take W             ready X, pending, closed, or refused memory; takes the value, or W waits
  get W              ready X, pending, closed, or refused memory; copies the value, or W waits
  try_take           some X, or none; takes the value
  try_get            some X, or none; copies the value
  is_set             true, or false
  own                owners N, refused closed, or refused owners; adds an owner
  end                owners N, or refused closed; ends an owner, the last one closes the cell
  inner              some X, none, refused closed, or refused shared; closes the cell
  debug              AsyncCell::Empty, AsyncCell::Pending, AsyncCell::Full(X), or AsyncCell::Closed

V and X are numbers from -9223372036854775808 to 9223372036854775807. W is the name of a waker, a
number from 0 to 18446744073709551615. N is the number of owners. A call that wakes wakers prints
their names at the end of its line, as in: done woke 1 2

Words are separated by single spaces, and empty lines are skipped. A line that is neither empty nor
a call ends the program with status 2, and standard error then has its number: bad line 3
";

fn main(rt: HostRuntime) -> ExitCode {
    // Even one that is empty or not UTF-8 is an argument.
    if !matches!(rt.arg(1, &mut []), Err(FillError::NotPresent)) {
        let _ = eprint!(rt; "{USAGE}");
        return ExitCode::from(2);
    }
    let (ended, _) = script::script(rt.alloc(), rt.stdin(), rt.stdout());
    match ended {
        Ended::Done => ExitCode::SUCCESS,
        Ended::BadLine(number) => {
            let _ = eprintln!(rt; "bad line {number}");
            ExitCode::from(2)
        }
        Ended::Failed => ExitCode::FAILURE,
    }
}
