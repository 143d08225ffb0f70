//! Reads an input a line at a time. Only the reader's buffer and one line are in memory.
ghost use Rattle.std.specs.Prelude.{◌≡◌, ◌<◌, ◌≤◌, ◌≢◌, [], ◌++◌, length, true, Option, Some, IfSome, IfNone, OnOk, IfOk, IfErr, IsOk, OnErr};
ghost use Rattle.std.specs.{IoError.error_kind, List.position, List.position_or_len};
ghost use Rattle.std.specs.Io.{Buffered.reader_buffer, Buffered.reader_remaining, KnownBytes.IsAtEnd, KnownBytes.Keeps};
ghost use Rattle.arrayvec.specs.ArrayVec.{array_vec_len};
ghost use Rattle.cellrun.specs.{Output.output_contents, Script.IsLine, Script.IsNext, Script.is_line_feed};

use crate::command::{self, Command, MAX_LINE};
use crate::output::Output;
use arrayvec::ArrayVec;
use std::alloc::Global;
use std::io::{self, BufRead, BufReader, ErrorKind, Read, Write};

/// The next thing in an input.
#[derive(Clone, Copy, Debug, PartialEq, Eq)]
pub enum Next {
    /// A line that is a call.
    Call(Command),
    /// An empty line.
    Blank,
    /// A line that is neither empty nor a call. If the line is too long, the rest of the line may
    /// be left unread.
    Bad,
    /// The end of the input.
    End,
}

/// An input that is read a line at a time.
#[derive(Drop)]
pub struct Lines<R: Read> {
    input: BufReader<R>,
    /// The bytes of a line whose end is not read yet.
    held: ArrayVec<u8, MAX_LINE>,
    is_done: bool,
    ghost one_line: { position_or_len is_line_feed held.items ≡ length held.items },
}

impl<R: Read + Drop> Lines<R> {
    ghost use Rattle.cellrun.specs.Lines.{bytes_left};

    /// Reads lines from `reader`. Fails if there is no memory for a buffer.
    pub fn new(alloc: Global, reader: R) -> io::Result<Lines<R>>
        ensures bytes { IfOk result (λ lines. Keeps (R.remaining reader) (bytes_left lines)) }
        ensures err { IfErr result (λ e. error_kind e ≡ ErrorKind.OutOfMemory) }
    {
        Ok(Lines {
            input: BufReader::new(alloc, reader)?,
            held: ArrayVec::new(),
            is_done: false,
        })
    }

    /// Returns the next line or the end. Flushes `out` before it reads more input.
    pub fn next<W: Write + Drop>(&mut self, out: &mut Output<W>) -> io::Result<Next>
        ensures next { IfOk result (λ next. IfSome (bytes_left self.old)
            (λ bytes. IsNext bytes (bytes_left self.new) next)) }
        ensures err { OnErr result (Keeps (bytes_left self.old) (bytes_left self.new)) }
        ensures out { Keeps (output_contents W.contents out.old)
            (output_contents W.contents out.new) }
    {
        loop {
            if let Some(next) = self.look(out)? {
                return Ok(next);
            }
        }
    }

    /// Returns the next line if the buffer has the end of it. If not, stores its bytes in `held`
    /// and returns `None`.
    fn look<W: Write + Drop>(&mut self, out: &mut Output<W>) -> io::Result<Option<Next>>
        ensures next { IfOk result (λ found. IfSome found (λ next. IfSome (bytes_left self.old)
            (λ bytes. IsNext bytes (bytes_left self.new) next))) }
        ensures longer { IfOk result (λ found. IfNone found
            (array_vec_len self.old.held < array_vec_len self.new.held)) }
        ensures fits { IfOk result (λ found. IfNone found
            (array_vec_len self.new.held ≤ MAX_LINE)) }
        ensures part { IfOk result (λ found. IfNone found
            (Keeps (bytes_left self.old) (bytes_left self.new))) }
        ensures err { OnErr result (Keeps (bytes_left self.old) (bytes_left self.new)) }
        ensures out { Keeps (output_contents W.contents out.old)
            (output_contents W.contents out.new) }
    {
        if self.is_done {
            return Ok(Some(Next::End));
        }
        refill(&mut self.input, out)?;
        let buffered = self.input.buffer();
        let front = &buffered[..buffered.len().min(MAX_LINE + 1)];
        if front.is_empty() {
            self.is_done = true;
            return Ok(Some(last(&mut self.held)));
        }
        let Some(end) = line_feed(front) else {
            let part = front.len();
            if self.held.try_extend_from_slice(front).is_err() {
                return Ok(Some(Next::Bad));
            }
            self.input.consume(part);
            return Ok(None);
        };
        let next = complete(&mut self.held, &front[..end]);
        self.input.consume(end + 1);
        Ok(Some(next))
    }
}

/// Fills the buffer if it is empty. Flushes `out` before it reads. The buffer is empty afterwards
/// only at the end of the input.
fn refill<R: Read, W: Write + Drop>(input: &mut BufReader<R>, out: &mut Output<W>) -> io::Result<()>
    ensures bytes { Keeps (reader_remaining R.remaining input.old)
        (reader_remaining R.remaining input.new) }
    ensures end { OnOk result (length (reader_buffer input.new) ≡ 0
        → IsAtEnd (reader_remaining R.remaining input.old)) }
    ensures ready { 0 < length (reader_buffer input.old) → IsOk result }
    ensures out { Keeps (output_contents W.contents out.old) (output_contents W.contents out.new) }
{
    if !input.buffer().is_empty() {
        return Ok(());
    }
    out.flush()?;
    // Bounded, so that it is proved to end. Only interrupted reads are tried again.
    for _ in 0..u64::MAX {
        match input.fill_buf() {
            Ok(_) => return Ok(()),
            Err(e) => {
                if e.kind() != ErrorKind::Interrupted {
                    return Err(e);
                }
            }
        }
    }
    Err(io::Error::from(ErrorKind::TimedOut))
}

/// Returns the index of the first line feed.
fn line_feed(bytes: &[u8]) -> Option<usize>
    ensures { result ≡ position is_line_feed bytes.now }
{
    bytes.iter().position(|byte| *byte == b'\n')
}

/// Returns the last line if it lacks its line feed, or else the end. Empties `held`.
fn last(held: &mut ArrayVec<u8, MAX_LINE>) -> Next
    ensures line { held.old.items ≢ [] → IsLine held.old.items result }
    ensures end { held.old.items ≡ [] → result ≡ Next.End }
    ensures emptied { held.new.items ≡ [] }
{
    if held.is_empty() {
        return Next::End;
    }
    complete(held, &[])
}

/// Says what the line is that begins with `held` and ends with `rest`. Empties `held`.
fn complete(held: &mut ArrayVec<u8, MAX_LINE>, rest: &[u8]) -> Next
    ensures line { IsLine (held.old.items ++ rest.now) result }
    ensures emptied { held.new.items ≡ [] }
{
    if held.is_empty() {
        return judge(rest);
    }
    let next = match held.try_extend_from_slice(rest) {
        Ok(()) => judge(held.as_slice()),
        Err(_) => Next::Bad,
    };
    held.clear();
    next
}

/// Returns whether the line is a call, empty or bad.
fn judge(line: &[u8]) -> Next
    ensures { IsLine line.now result }
{
    if line.is_empty() {
        return Next::Blank;
    }
    match command::parse(line) {
        Some(command) => Next::Call(command),
        None => Next::Bad,
    }
}
