//! The octets that were read and not yet given.

ghost use Rattle.std.specs.Prelude.{◌≡◌, ◌≤◌, ◌+◌, ◌-◌, ◌<◌, [], length, take, drop, IfOk, OnErr, MatchResult, vec_len};
ghost use Rattle.capture.specs.declared.read_ahead.TheConstants.{ROOM};
ghost use Rattle.std.specs.Io.KnownBytes.{Keeps, Consumes, IsAtEnd, prepend_known};

use crate::format::MAX_RECORD_OCTETS;
use std::alloc::{AllocError, Allocator, Global};
use std::io;
use std::io::Read;

/// The octets of a record header.
pub(crate) const RECORD_HEADER: usize = 16;

/// The octets of the longest record, its header among them.
pub(crate) const ROOM: usize = RECORD_HEADER + MAX_RECORD_OCTETS as usize;

/// The one buffer of a reader: `buffer[start..end]` is read and not yet given.
#[derive(Drop)]
pub(crate) struct ReadAhead<A: Allocator = Global> {
    buffer: Vec<u8, A>,
    start: usize,
    end: usize,
    ghost ordered: { start ≤ end },
    ghost within: { end ≤ vec_len buffer },
    ghost room: { vec_len buffer ≡ ROOM },
}

impl<A: Allocator> ReadAhead<A> {
    ghost use Rattle.capture.specs.ReadAhead.{held, last_given};

    /// Takes the room for one record.
    pub fn new(alloc: A) -> Result<ReadAhead<A>, AllocError>
        ensures { IfOk result (λ w. held w ≡ []) }
    {
        let buffer = vec![in alloc; 0u8; ROOM]?;
        Ok(ReadAhead {
            buffer,
            start: 0,
            end: 0,
        })
    }

    /// How many octets are held.
    pub fn len(&self) -> usize
        ensures { result ≡ length (held self.now) }
    {
        self.end - self.start
    }

    /// The octets that are held.
    pub fn octets(&self) -> &[u8]
        ensures { result.now ≡ held self.now }
    {
        let (start, end) = (self.start, self.end);
        let all = self.buffer.as_slice();
        &all[start..end]
    }

    /// The last octets that were given.
    pub fn given(&self, count: usize) -> &[u8]
        requires { count ≤ self.now.start }
        ensures { result.now ≡ last_given self.now count }
    {
        let (start, end) = (self.start - count, self.start);
        let all = self.buffer.as_slice();
        &all[start..end]
    }

    /// Gives the first octets.
    pub fn give(&mut self, count: usize)
        requires { count ≤ length (held self.old) }
        ensures held { held self.new ≡ drop count (held self.old) }
        ensures given { last_given self.new count ≡ take count (held self.old) }
        ensures start { count ≤ self.new.start }
    {
        self.start += count;
    }

    /// Moves what is held to the front of the buffer.
    pub fn pull(&mut self)
        ensures held { held self.new ≡ held self.old }
        ensures start { self.new.start ≡ 0 }
    {
        if self.start == 0 {
            return;
        }
        let (start, end) = (self.start, self.end);
        self.buffer.copy_within(start..end, 0);
        self.start = 0;
        self.end = end - start;
    }

    /// Reads once, into all the room there is after what is held.
    pub(crate) fn fill<R: Read>(&mut self, reader: &mut R) -> io::Result<usize>
        requires { self.old.start + length (held self.old) < ROOM }
        ensures octets { Keeps (prepend_known (held self.old) (R.remaining reader.old))
            (prepend_known (held self.new) (R.remaining reader.new)) }
        ensures more { IfOk result (λ n. length (held self.new) ≡ length (held self.old) + n) }
        ensures ended { IfOk result (λ n. n ≡ 0 → IsAtEnd (R.remaining reader.new)) }
        ensures err { OnErr result (held self.new ≡ held self.old) }
        ensures start { self.new.start ≡ self.old.start }
    {
        let at = self.end;
        let n = read_behind(reader, &mut self.buffer, at)?;
        self.end += n;
        Ok(n)
    }
}

/// Reads once, into the octets from `at` on.
pub(crate) fn read_behind<R: Read>(
    reader: &mut R,
    buffer: &mut [u8],
    at: usize,
) -> io::Result<usize>
    requires { at < length buffer.old }
    ensures front { take at buffer.new ≡ take at buffer.old }
    ensures octets { MatchResult result
        (λ n. Consumes (R.remaining reader.old) (R.remaining reader.new)
        (take n (drop at buffer.new)))
        (λ _. Keeps (R.remaining reader.old) (R.remaining reader.new)) }
    ensures bound { IfOk result (λ n. at + n ≤ length buffer.new) }
    ensures ended { IfOk result (λ n. n ≡ 0 → IsAtEnd (R.remaining reader.new)) }
{
    let (_, behind) = buffer.split_at_mut(at);
    reader.read(behind)
}
