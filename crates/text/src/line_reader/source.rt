//! The octets of a reader, a chunk in hand.

ghost use Rattle.std.specs.Prelude.{length, take, drop, ◌≡◌, ◌≤◌, ◌<◌, ℕ, [], IsSome, IfOk, OnErr, None, Ok, true, false, vec_len};
ghost use Rattle.text.specs.Script.{ends_in};
ghost use Rattle.text.specs.declared.line_reader.source.TheConstants.{CHUNK};

use crate::line_reader::feeds::whole_lines;
use std::alloc::{AllocError, Allocator, Global};
use std::io::Read;

/// How many octets a read asks for.
pub(crate) const CHUNK: usize = 131_072;

/// A read failed.
#[derive(Clone, Copy, Debug, PartialEq, Eq)]
pub(crate) struct ReadFault;

/// A reader with a chunk of what it gave. Once it has given no octets it is at its end, and isn't asked again.
#[derive(Drop)]
pub(crate) struct Source<R, A: Allocator = Global> {
    reader: R,
    chunk: Vec<u8, A>,
    at: usize,
    filled: usize,
    // Up to where lines stand whole in the chunk, so that it is searched for them once.
    whole: usize,
    ended: bool,
    ghost ordered: { at ≤ filled },
    ghost within: { filled ≤ vec_len chunk },
    ghost holds_chunk: { vec_len chunk ≡ CHUNK },
    ghost over: { ended ≡ true → at ≡ filled },
    ghost wholes: { (k : ℕ) → k < whole → ends_in [] (drop k (take filled chunk.items)) ≡ true },
}

impl<R: Read + Drop, A: Allocator> Source<R, A> {
    ghost use Rattle.text.specs.Source.{ahead, octets_left, TakesOctet};

    /// Makes the chunk, and reads nothing.
    pub fn new(alloc: A, reader: R) -> Result<Source<R, A>, AllocError>
        ensures left { IfOk result (λ s. octets_left R.remaining s ≡ R.remaining reader) }
        ensures open { IfOk result (λ s. s.ended ≡ false) }
    {
        let chunk = vec![in alloc; 0u8; CHUNK]?;
        Ok(Source {
            reader,
            chunk,
            at: 0,
            filled: 0,
            whole: 0,
            ended: false,
        })
    }

    /// The octets in hand: what was read and not taken yet.
    pub fn buffer(&self) -> &[u8]
        ensures octets { result.now ≡ ahead self.now }
        ensures open { 0 < length result.now → self.now.ended ≡ false }
    {
        &self.chunk[self.at..self.filled]
    }

    /// Whether a line is known to stand whole among the octets in hand.
    #[inline(always)]
    pub(crate) fn is_whole(&self) -> bool
        ensures { result ≡ true → ends_in [] (ahead self.now) ≡ true }
    {
        self.at < self.whole
    }

    /// Takes so many of the octets in hand.
    pub(crate) fn consume(&mut self, count: usize)
        requires { count ≤ length (ahead self.old) }
        ensures octets { ahead self.new ≡ drop count (ahead self.old) }
        ensures reader { self.new.reader ≡ self.old.reader }
        ensures ended { self.new.ended ≡ self.old.ended }
    {
        self.at += count;
    }

    /// The next octet, or None at the end, and from then on. It fails only where it has to read, with none in hand.
    pub(crate) fn next_octet(&mut self) -> Result<Option<u8>, ReadFault>
        ensures octet { TakesOctet (octets_left R.remaining self.old) result
            (octets_left R.remaining self.new) }
        ensures none { result ≡ Ok None → self.new.ended ≡ true }
        ensures some { IfOk result
            (λ o. IsSome o → (self.old.ended ≡ false) × (self.new.ended ≡ false)) }
        ensures over { self.old.ended ≡ true → self.new.ended ≡ true }
        ensures failed { OnErr result ((ahead self.new ≡ []) × (self.old.ended ≡ false)) }
    {
        if self.at == self.filled {
            if self.ended {
                return Ok(None);
            }
            self.whole = 0;
            let Ok(count) = self.reader.read(&mut self.chunk) else {
                return Err(ReadFault);
            };
            self.at = 0;
            self.filled = count;
            if count == 0 {
                self.ended = true;
                return Ok(None);
            }
            self.whole = whole_lines(&self.chunk[..count]);
        }
        let octet = self.chunk[self.at];
        self.at += 1;
        Ok(Some(octet))
    }
}
