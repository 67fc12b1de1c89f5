//! An output that may be a pipe whose other end is closed.

use std::io::{self, ErrorKind, Write};

/// A writer, whether it has got anything, and whether a write has found that nobody reads what it writes.
#[derive(Drop)]
pub struct Piped<W: Write + Drop> {
    writer: W,
    closed: bool,
    written: bool,
}

impl<W: Write + Drop> Piped<W> {
    /// Nothing is found yet.
    pub fn new(writer: W) -> Piped<W> {
        Piped {
            writer,
            closed: false,
            written: false,
        }
    }

    /// Whether anything is written.
    pub fn is_written(&self) -> bool {
        self.written
    }

    /// Whether a write has found that nobody reads.
    pub fn is_closed(&self) -> bool {
        self.closed
    }
}

impl<W: Write + Drop> Write for Piped<W> {
    ghost contents = { λ p. W.contents p.writer };

    fn write(&mut self, octets: &[u8]) -> io::Result<usize> {
        let result = self.writer.write(octets);
        match &result {
            Ok(count) => self.written |= *count > 0,
            Err(error) => self.closed = error.kind() == ErrorKind::BrokenPipe,
        }
        result
    }

    fn flush(&mut self) -> io::Result<()> {
        self.writer.flush()
    }
}
