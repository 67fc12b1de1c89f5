//! What was passed over in lines, since the words ask for it.

use pasted::{Note, Others, Passed};
use port_text::answer_text::{Part, WriteFault, put_parts};
use std::io::Write;

/// Writes what was passed over, and where first, if it was.
fn put_kind<'a, W: Write>(
    writer: &mut W,
    what: &'a [u8],
    name: &'a [u8],
    passed: Passed,
) -> Result<(), WriteFault> {
    if passed.lines == 0 {
        return Ok(());
    }
    put_parts(
        writer,
        &[
            Part::Text(b"taprio_port: warning: passed over: "),
            Part::Text(what),
            Part::Text(name),
            Part::Text(b", lines: "),
            Part::Number(u128::from(passed.lines)),
            Part::Text(b", the first: "),
            Part::Number(u128::from(passed.first)),
            Part::Text(b"\n"),
        ],
    )
}

/// Writes what of pasted lines was passed over, each kind by itself.
pub fn put_passed<W: Write>(writer: &mut W, note: &Note) -> Result<(), WriteFault> {
    put_kind(writer, b"a byte order mark", b"", note.byte_order)?;
    put_kind(writer, b"the prompt of a shell", b"", note.prompt)?;
    put_kind(writer, b"sudo", b"", note.sudo)?;
    put_kind(writer, b"the path of tc", b"", note.path)?;
    put_kind(writer, b"blanks behind a backslash", b"", note.blanks)?;
    put_kind(writer, b"quotation marks", b"", note.quotes)?;
    put_kind(writer, b"semicolons", b"", note.semicolon)?;
    put_kind(writer, b"fp (frame preemption)", b"", note.fp)?;
    put_kind(writer, b"txtime-delay", b"", note.txtime_delay)?;
    put_kind(
        writer,
        b"flags 0x1 (txtime assist)",
        b"",
        note.txtime_assist,
    )
}

/// Writes how many lines of other devices were passed over, if any was.
pub fn put_others<W: Write>(writer: &mut W, others: &Others) -> Result<(), WriteFault> {
    let passed = Passed {
        lines: others.lines,
        first: others.first,
    };
    put_kind(
        writer,
        b"tc lines of other devices, such as ",
        others.name.as_slice(),
        passed,
    )
}
