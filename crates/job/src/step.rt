//! The next line of an input, where what was answered is let out first.

ghost use Rattle.std.specs.Prelude.{◌≡◌, ◌<◌, ◌↔◌, Err, Ok, false, true};
ghost use Rattle.std.specs.Io.KnownBytes.{Keeps};
ghost use Rattle.text.specs.LineReader.{current_line, current_number, most_lines, script_left};
ghost use Rattle.job.specs.Lines.{Steps};
ghost use Rattle.job.specs.declared.fault.Fault.TheVariants as Faults;

use crate::fault::Fault;
use crate::input::LineInput;
use std::alloc::Allocator;
use std::io::{Read, Write};
use text::line_reader::LineReader;

/// Goes on to the next line, if there is one, where what was written was let out. Else that is the fault, and no line is
/// taken.
fn line_behind<I: LineInput, A: Allocator, R: Read + Drop>(
    lines: &mut LineReader<R, A>,
    is_out: bool,
) -> Result<bool, Fault<I>>
    ensures step { Steps I.limited (script_left R.remaining lines.old) result
        (current_number lines.new) (current_line lines.new) (script_left R.remaining lines.new) }
    ensures write { (is_out ≡ false) ↔ (result ≡ Err Faults.Write) }
    ensures unread { result ≡ Err Faults.Write → lines.new ≡ lines.old }
    ensures fewer { result ≡ Ok true → most_lines lines.new < most_lines lines.old }
{
    if !is_out {
        return Err(Fault::Write);
    }
    match lines.advance() {
        Ok(more) => Ok(more),
        Err(fault) => Err(Fault::from(fault)),
    }
}

/// Goes on to the next line, if there is one. Where no whole line stands in hand, what was written is let out first, so
/// that whoever waits for it has it before more input is waited for. If that fails, no line is taken.
pub fn next_line<I: LineInput, A: Allocator, R: Read + Drop, W: Write>(
    lines: &mut LineReader<R, A>,
    writer: &mut W,
) -> Result<bool, Fault<I>>
    ensures step { Steps I.limited (script_left R.remaining lines.old) result
        (current_number lines.new) (current_line lines.new) (script_left R.remaining lines.new) }
    ensures kept { Keeps (W.contents writer.old) (W.contents writer.new) }
    ensures unread { result ≡ Err Faults.Write → lines.new ≡ lines.old }
    ensures fewer { result ≡ Ok true → most_lines lines.new < most_lines lines.old }
{
    let is_out = lines.has_line() || writer.flush().is_ok();
    line_behind(lines, is_out)
}
