//! Runs a script of calls on one cell.
ghost use Rattle.std.specs.Result.{result_unwrap_or};
ghost use Rattle.cellrun.specs.{Lines.bytes_left, Output.output_contents, Script.Owes};

use crate::lines::{Lines, Next};
use crate::output::Output;
use crate::session::Session;
use std::alloc::Global;
use std::io::{self, Read, Write};

/// The number of bytes of output that are buffered before more memory is needed.
const ROOM: usize = 8_192;

/// How a script ended.
#[derive(Clone, Copy, Debug, PartialEq, Eq)]
pub enum Ended {
    /// At the end of its input.
    Done,
    /// At a line that is neither empty nor a call. The `u64` is the number of this line, counted
    /// from 1.
    BadLine(u64),
    /// By a failure: a read or a write failed, or there was no memory.
    Failed,
}

/// Makes the calls in the lines of `input` on a new cell, writes the result of each to `output`,
/// and returns `output`. All output is written before more input is read.
///
/// The contract covers readers whose bytes are known to contracts, such as a slice. It promises
/// nothing for any other reader, such as standard input. If the bytes of the writer are also known
/// to contracts, as for a `Vec`, the writer gets what the calls print, one after the other. The
/// script ends at the end of the input, or at the first line that is neither empty nor a call. The
/// model defines the printed text. If the script failed, the writer gets a prefix of the text of
/// the first `n` lines, for some `n`. `debug` leaves the cell as it was. The contract does not say
/// what `debug` prints.
#[tactic(auto, using(crate::proofs::Written::owes_nothing, crate::proofs::Written::owes_kept))]
pub fn script<R: Read + Drop, W: Write + Drop>(alloc: Global, input: R, output: W) -> (Ended, W)
    ensures { Owes (R.remaining input) (W.contents output) (W.contents result.1) result.0 }
{
    let Ok(mut lines) = Lines::new(alloc, input) else {
        return (Ended::Failed, output);
    };
    let Ok(room) = Vec::with_capacity(alloc, ROOM) else {
        return (Ended::Failed, output);
    };
    let mut out = Output::new(room, output);
    let ended = run(alloc, &mut lines, &mut out).unwrap_or(Ended::Failed);
    (ended, out.into_writer())
}

/// Makes the calls, and writes the rest of the output at the end.
#[tactic(auto, using(crate::proofs::Written::owes_cut))]
fn run<R: Read + Drop, W: Write + Drop>(
    alloc: Global,
    lines: &mut Lines<R>,
    out: &mut Output<W>,
) -> io::Result<Ended>
    ensures { Owes (bytes_left lines.old) (output_contents W.contents out.old)
        (W.contents out.new.writer) (result_unwrap_or result Ended.Failed) }
{
    let ended = step_all(alloc, lines, out)?;
    out.flush()?;
    Ok(ended)
}

/// Makes one call after the other on a new cell, up to the end or the first bad line.
#[tactic(auto, using(crate::proofs::Written::owes_failed, crate::proofs::Written::err_fails))]
fn step_all<R: Read + Drop, W: Write + Drop>(
    alloc: Global,
    lines: &mut Lines<R>,
    out: &mut Output<W>,
) -> io::Result<Ended>
    ensures { Owes (bytes_left lines.old) (output_contents W.contents out.old)
        (output_contents W.contents out.new) (result_unwrap_or result Ended.Failed) }
{
    let mut session = Session::new(alloc);
    let mut text = Vec::new(alloc);
    // Bounded, so that it is proved to end. No input has that many lines.
    for number in 1..u64::MAX {
        match lines.next(out)? {
            Next::Call(command) => {
                text.clear();
                if session.step(command, &mut text).is_err() {
                    return Ok(Ended::Failed);
                }
                if out.gather(&text).is_err() {
                    return Ok(Ended::Failed);
                }
            }
            Next::Blank => {}
            Next::Bad => return Ok(Ended::BadLine(number)),
            Next::End => return Ok(Ended::Done),
        }
    }
    Ok(Ended::Failed)
}
