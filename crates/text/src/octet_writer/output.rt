//! What a buffer lets out, by std's way: a write that a signal interrupts is tried again.

ghost use Rattle.std.specs.Prelude.{◌≡◌, ◌≤◌, length, take, OnOk, OnErr, IfOk};
ghost use Rattle.std.specs.Io.KnownBytes.{Keeps, Appends};
ghost use Rattle.std.specs.Io.{WritesAtMost};

use std::io::{Error, ErrorKind, Result, Write};

/// One write, tried again where a signal interrupts it.
fn write_once<W: Write>(writer: &mut W, octets: &[u8]) -> Result<usize>
    ensures bound { WritesAtMost result octets.now }
    ensures ok { IfOk result
        (λ n. Appends (W.contents writer.old) (W.contents writer.new) (take n octets.now)) }
    ensures err { OnErr result (Keeps (W.contents writer.old) (W.contents writer.new)) }
{
    for _ in 0..u64::MAX {
        match writer.write(octets) {
            Ok(count) => return Ok(count),
            Err(error) => {
                if error.kind() != ErrorKind::Interrupted {
                    return Err(error);
                }
            }
        }
    }
    Err(Error::from(ErrorKind::TimedOut))
}

/// Writes until all is written or a write fails or takes nothing, and answers how many octets were written.
pub(crate) fn write_out<W: Write>(octets: &[u8], writer: &mut W) -> (usize, Result<()>)
    ensures bound { result.0 ≤ length octets.now }
    ensures all { OnOk result.1 (result.0 ≡ length octets.now) }
    ensures bytes { Appends (W.contents writer.old) (W.contents writer.new)
        (take result.0 octets.now) }
{
    let mut written = 0;
    while written < octets.len() {
        match write_once(writer, &octets[written..]) {
            Ok(0) => return (written, Err(Error::from(ErrorKind::WriteZero))),
            Ok(count) => written += count,
            Err(error) => return (written, Err(error)),
        }
    }
    (written, Ok(()))
}
