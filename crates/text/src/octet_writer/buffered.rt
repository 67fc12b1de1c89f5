//! A buffer in front of a writer: std's `BufWriter`, but that a line is made where it is kept back.

ghost use Rattle.std.specs.Prelude.{◌≡◌, ◌≤◌, ◌+◌, [], length, IfOk, IfErr, OnOk, OnErr};
ghost use Rattle.std.specs.Io.{WritesAtMost};
ghost use Rattle.std.specs.Io.KnownBytes.{Appends, Keeps, WriteAppends};
ghost use Rattle.std.specs.IoError.{error_kind};
ghost use Rattle.text.specs.Buffered.{writer_buffer, writer_capacity, writer_contents, writer_inner};

use crate::octet_writer::WriteFault;
use crate::octet_writer::held::Held;
use crate::octet_writer::line_writer::{HEAD, Line, PutLine, put_apart, put_both};
use crate::octet_writer::output::write_out;
use std::alloc::{Allocator, Global};
use std::io::{self, ErrorKind, Write};

/// The octets that are kept back where no number is said: std's.
const USUAL_CAPACITY: usize = 8192;

/// A writer, and what is kept back until it is let out. Dropping it lets out what can be.
pub struct BufWriter<W: Write + Drop, A: Allocator = Global> {
    inner: W,
    held: Held<A>,
}

impl<W: Write + Drop, A: Allocator> BufWriter<W, A> {
    /// Keeps up to 8,192 octets back. Where there is no memory the writer is dropped.
    pub fn new(alloc: A, inner: W) -> io::Result<BufWriter<W, A>>
        ensures inner { IfOk result (λ w. writer_inner w ≡ inner) }
        ensures empty { IfOk result (λ w. writer_buffer w ≡ []) }
        ensures capacity { IfOk result (λ w. writer_capacity w ≡ USUAL_CAPACITY) }
        ensures err { IfErr result (λ e. error_kind e ≡ ErrorKind.OutOfMemory) }
    {
        BufWriter::with_capacity(alloc, USUAL_CAPACITY, inner)
    }

    /// Keeps up to so many octets back. Where there is no memory the writer is dropped.
    pub fn with_capacity(alloc: A, capacity: usize, inner: W) -> io::Result<BufWriter<W, A>>
        ensures inner { IfOk result (λ w. writer_inner w ≡ inner) }
        ensures empty { IfOk result (λ w. writer_buffer w ≡ []) }
        ensures capacity { IfOk result (λ w. writer_capacity w ≡ capacity) }
        ensures err { IfErr result (λ e. error_kind e ≡ ErrorKind.OutOfMemory) }
    {
        let held = Held::with_capacity(alloc, capacity)?;
        Ok(BufWriter { inner, held })
    }

    /// The writer and the octets that are not yet written. Nothing is written here.
    pub fn into_parts(self) -> (W, Vec<u8, A>)
        ensures inner { result.0 ≡ writer_inner self }
        ensures buffer { result.1.items ≡ writer_buffer self }
    {
        let BufWriter { inner, held } = self;
        (inner, held.into_octets())
    }

    /// Lets out what is kept back. What a failure leaves unwritten stays.
    fn let_out(&mut self) -> io::Result<()>
        ensures empty { OnOk result (writer_buffer self.new ≡ []) }
        ensures room { OnOk result (self.new.held.filled ≡ 0) }
        ensures capacity { writer_capacity self.new ≡ writer_capacity self.old }
        ensures bytes { Keeps (writer_contents W.contents self.old)
            (writer_contents W.contents self.new) }
    {
        let (written, result) = write_out(self.held.as_slice(), &mut self.inner);
        self.held.drop_front(written);
        result
    }

    /// Keeps these octets back too, once what was is let out where there is no room.
    fn keep_back(&mut self, octets: &[u8]) -> io::Result<()>
        requires { length octets.now ≤ writer_capacity self.old }
        ensures ok { OnOk result
            (Appends (writer_contents W.contents self.old)
            (writer_contents W.contents self.new) octets.now) }
        ensures err { OnErr result
            (Keeps (writer_contents W.contents self.old) (writer_contents W.contents self.new)) }
    {
        if octets.len() > self.held.room() {
            self.let_out()?;
        }
        self.held.append(octets);
        Ok(())
    }

    /// Writes where there is no room. Apart, so that the test for room stands in the caller's place.
    #[cold]
    #[inline(never)]
    fn write_apart(&mut self, octets: &[u8]) -> io::Result<usize>
        ensures bound { WritesAtMost result octets.now }
        ensures bytes { WriteAppends (writer_contents W.contents self.old)
            (writer_contents W.contents self.new) result octets.now }
    {
        if octets.len() >= self.held.capacity() {
            self.let_out()?;
            return self.inner.write(octets);
        }
        self.keep_back(octets)?;
        Ok(octets.len())
    }
}

impl<W: Write + Drop, A: Allocator> Write for BufWriter<W, A> {
    ghost contents = { writer_contents W.contents };

    #[inline(always)]
    fn write(&mut self, octets: &[u8]) -> io::Result<usize> {
        if octets.len() < self.held.room() {
            self.held.append(octets);
            return Ok(octets.len());
        }
        self.write_apart(octets)
    }

    fn flush(&mut self) -> io::Result<()>
        ensures bytes { Keeps (writer_contents W.contents self.old)
            (writer_contents W.contents self.new) }
        ensures ok { OnOk result (writer_buffer self.new ≡ []) }
    {
        self.let_out()?;
        self.inner.flush()
    }
}

impl<W: Write + Drop, A: Allocator> PutLine for BufWriter<W, A> {
    #[inline(always)]
    fn put_line<L: Line>(&mut self, line: &L) -> Result<(), WriteFault> {
        if self.held.append_line(line) {
            return Ok(());
        }
        put_apart(self, line)
    }

    #[inline(always)]
    fn put_headed(&mut self, head: &[u8; HEAD], rest: &[u8]) -> Result<(), WriteFault> {
        if self.held.append_headed(head, rest) {
            return Ok(());
        }
        put_both(self, head, rest)
    }
}

impl<W: Write + Drop, A: Allocator> Drop for BufWriter<W, A> {
    fn drop(mut self) {
        let _ = self.let_out();
        let BufWriter {
            inner: _inner,
            held: _held,
        } = self;
    }
}
