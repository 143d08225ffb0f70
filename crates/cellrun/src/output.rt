//! Buffers what is printed.
ghost use Rattle.std.specs.Prelude.{◌≡◌, ◌≤◌, length, OnOk, OnErr};
ghost use Rattle.std.specs.Io.KnownBytes.{Keeps, Appends};

use std::alloc::AllocError;
use std::io::{self, ErrorKind, Write};

/// A buffered writer.
#[derive(Drop)]
pub struct Output<W> {
    writer: W,
    gathered: Vec<u8>,
    /// The number of gathered bytes that are written.
    written: usize,
    ghost within: { written ≤ length gathered.items },
}

impl<W: Write + Drop> Output<W> {
    ghost use Rattle.cellrun.specs.Output.{output_contents};

    /// Clears `room`, and makes an output that buffers in `room`.
    pub fn new(mut room: Vec<u8>, writer: W) -> Self
        ensures writer { result.writer ≡ writer }
        ensures bytes { Keeps (W.contents writer) (output_contents W.contents result) }
    {
        room.clear();
        Output {
            writer,
            gathered: room,
            written: 0,
        }
    }

    /// Appends the text to the buffer. Fails if there is no memory for it.
    #[tactic(auto, using(crate::proofs::Written::gathered_more))]
    pub fn gather(&mut self, text: &[u8]) -> Result<(), AllocError>
        ensures bytes { OnOk result
            (Appends (output_contents W.contents self.old) (output_contents W.contents self.new)
            text.now) }
        ensures unchanged { OnErr result
            (Keeps (output_contents W.contents self.old) (output_contents W.contents self.new)) }
    {
        self.gathered.extend_from_slice(text)?;
        Ok(())
    }

    /// Writes the buffer to the writer. If a write fails, the bytes that are not written yet stay
    /// in the buffer.
    pub fn flush(&mut self) -> io::Result<()>
        ensures bytes { Keeps (output_contents W.contents self.old)
            (output_contents W.contents self.new) }
        ensures all { OnOk result
            (Keeps (output_contents W.contents self.new) (W.contents self.new.writer)) }
    {
        // Bounded, so that it is proved to end. Each turn writes bytes or was interrupted.
        for _ in 0..u64::MAX {
            if self.written >= self.gathered.len() {
                self.gathered.clear();
                self.written = 0;
                return self.writer.flush();
            }
            match self.writer.write(&self.gathered[self.written..]) {
                Ok(0) => return Err(io::Error::from(ErrorKind::WriteZero)),
                Ok(count) => self.written += count,
                Err(e) => {
                    if e.kind() != ErrorKind::Interrupted {
                        return Err(e);
                    }
                }
            }
        }
        Err(io::Error::from(ErrorKind::TimedOut))
    }

    /// Returns the writer. Bytes that are not written yet are dropped.
    pub fn into_writer(self) -> W
        ensures { result ≡ self.writer }
    {
        self.writer
    }
}
