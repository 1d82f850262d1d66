//! An output that tells when its reader went away.
ghost use Rattle.std.specs.Prelude.{◌≡◌, false};

use std::io::{self, ErrorKind, Write};

/// A writer, and whether its reader went away, as `head -1` does.
#[derive(Drop)]
pub struct Output<W> {
    writer: W,
    is_closed: bool,
}

impl<W: Write> Output<W> {
    /// An output to which nothing was written yet.
    pub fn new(writer: W) -> Output<W>
        ensures writer { result.writer ≡ writer }
        ensures open { result.is_closed ≡ false }
    {
        Output {
            writer,
            is_closed: false,
        }
    }

    /// Whether the last write that failed found a closed pipe.
    pub fn is_closed(&self) -> bool
        ensures closed { result ≡ self.now.is_closed }
    {
        self.is_closed
    }
}

impl<W: Write> Write for Output<W> {
    ghost contents = { λ output. W.contents output.writer };

    fn write(&mut self, buf: &[u8]) -> io::Result<usize> {
        let written = self.writer.write(buf);
        if let Err(error) = &written {
            self.is_closed = error.kind() == ErrorKind::BrokenPipe;
        }
        written
    }

    fn flush(&mut self) -> io::Result<()> {
        self.writer.flush()
    }
}
