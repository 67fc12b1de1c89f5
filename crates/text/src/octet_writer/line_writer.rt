//! Lines that put themselves where a writer has room for them.

ghost use Rattle.std.specs.Prelude.{◌≡◌, ◌≤◌, ◌++◌, ℕ, List, length, take};
ghost use Rattle.text.specs.Writes.{Writes};
ghost use Rattle.text.specs.declared.octet_writer.line_writer.TheConstants.{HEAD, LINE_ROOM};

use crate::octet_writer::{WriteFault, put};
use std::alloc::Allocator;
use std::io::Write;

/// The octets that a line has room for. It may use all of them, and fewer of them count.
pub const LINE_ROOM: usize = 144;

/// The octets of the head of what is written by `put_headed`.
pub const HEAD: usize = 16;

/// A line, which can be put at the front of room for it.
pub trait Line {
    ghost text: { Self → List ℕ };

    /// Puts the line at the front of the room, and answers its length. What is behind it there may change, too.
    fn put_into(&self, room: &mut [u8; LINE_ROOM]) -> usize
        ensures short { result ≤ LINE_ROOM }
        ensures text { take result room.new ≡ Self.text self.now };
}

/// A line by way of room of its own.
#[cold]
#[inline(never)]
pub(crate) fn put_apart<W: Write, L: Line>(writer: &mut W, line: &L) -> Result<(), WriteFault>
    ensures { Writes result (W.contents writer.old) (W.contents writer.new) (L.text line.now) }
{
    let mut room = [0; LINE_ROOM];
    let length = line.put_into(&mut room);
    put(writer, &room[..length])
}

/// A head and what follows it, one after the other.
#[cold]
#[inline(never)]
pub(crate) fn put_both<W: Write>(
    writer: &mut W,
    head: &[u8; HEAD],
    rest: &[u8],
) -> Result<(), WriteFault>
    ensures { Writes result (W.contents writer.old) (W.contents writer.new) (head.now ++ rest.now) }
{
    put(writer, head)?;
    put(writer, rest)
}

/// A writer that takes lines. Where it has a buffer with room, a line is made there, and copied nowhere.
pub trait PutLine: Write {
    /// Writes a line. At a fault a prefix of it is written, and not all.
    fn put_line<L: Line>(&mut self, line: &L) -> Result<(), WriteFault>
        ensures { Writes result (Self.contents self.old) (Self.contents self.new)
            (L.text line.now) }
    {
        put_apart(self, line)
    }

    /// Writes a head of a fixed length, and then the rest. At a fault a prefix of both is written, and not all.
    fn put_headed(&mut self, head: &[u8; HEAD], rest: &[u8]) -> Result<(), WriteFault>
        ensures { Writes result (Self.contents self.old) (Self.contents self.new)
            (head.now ++ rest.now) }
    {
        put_both(self, head, rest)
    }
}

impl<A: Allocator> PutLine for Vec<u8, A> {}
