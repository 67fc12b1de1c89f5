//! Writes octets whole, with a loop over `write` of its own: a write that fails or takes nothing isn't tried again.
//!
//! The contract is that of `put`, in the terms of specs/Writes.antt.
ghost use Rattle.text.specs.Writes.{Writes};

mod buffered;
mod held;
mod line_writer;
mod output;

pub use buffered::BufWriter;
pub use line_writer::{HEAD, LINE_ROOM, Line, PutLine};
use std::io::Write;

/// A write failed, or took nothing.
#[derive(Clone, Copy, Debug, PartialEq, Eq)]
pub struct WriteFault;

/// Writes all of the octets, by a loop apart. At a fault a prefix of them is written, and not all.
#[cold]
#[inline(never)]
pub fn put_rest<W: Write>(writer: &mut W, octets: &[u8]) -> Result<(), WriteFault>
    ensures { Writes result (W.contents writer.old) (W.contents writer.new) octets.now }
{
    let mut rest = octets;
    while !rest.is_empty() {
        match writer.write(rest) {
            Ok(0) | Err(_) => return Err(WriteFault),
            Ok(taken) => rest = &rest[taken..],
        }
    }
    Ok(())
}

/// Writes all of the octets. At a fault a prefix of them is written, and not all.
#[inline(always)]
pub fn put<W: Write>(writer: &mut W, octets: &[u8]) -> Result<(), WriteFault>
    ensures { Writes result (W.contents writer.old) (W.contents writer.new) octets.now }
{
    if octets.is_empty() {
        return Ok(());
    }
    // One call mostly takes them whole. It stands in the caller's place, where a buffer has room for a line without
    // a call; the loop is apart.
    match writer.write(octets) {
        Ok(0) | Err(_) => Err(WriteFault),
        Ok(taken) if taken == octets.len() => Ok(()),
        Ok(taken) => put_rest(writer, &octets[taken..]),
    }
}
