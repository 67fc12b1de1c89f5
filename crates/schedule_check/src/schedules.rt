//! The lines of schedule commands, one after another.

ghost use Rattle.std.specs.Prelude.{◌≡◌, ℕ, List, Result, IfSome};
ghost use Rattle.schedule_check.specs.Alerts.{IsWatchedCheck, alerts_in};
ghost use Rattle.schedule_check.specs.Words.{Command, verdict_lines, checked_in, checked_of, is_command, IsTeller, Teller, current_number, script_left, RunsOut, bad_line, IsReader, TcFault, words_of};
ghost use Rattle.job.specs.declared.fault.Fault.TheVariants as Faults;
ghost use Rattle.script.specs.Alerts.{Watched};

use crate::schedule_report::put_line;
use crate::settings::CheckSettings;
use job::next_line;
use script::{BadLine, RunFault, ScriptFault, Watch};
use std::alloc::Allocator;
use std::io::{Read, Write};
use text::line_reader::LineReader;
use text::words::Words;

/// Whether a line is a schedule command. It is skipped where it has no words or is a comment, and any other line where
/// it is one of a script.
pub fn is_command(line: &[u8], script: bool) -> Result<bool, ScriptFault>
    ensures { result ≡ is_command script (words_of line.now) }
{
    let mut words = Words::new(line);
    let Some(first) = words.next_word() else {
        return Ok(false);
    };
    if let [b'#', ..] = first {
        return Ok(false);
    }
    if first == b"tc".as_slice() {
        return Ok(true);
    }
    if script {
        Ok(false)
    } else {
        Err(ScriptFault::UnknownLine)
    }
}

/// A fault of the line that was read last.
fn fault_here<A: Allocator, R: Read + Drop>(
    lines: &LineReader<R, A>,
    fault: ScriptFault,
) -> RunFault
    ensures { result ≡ Faults.Input (bad_line (current_number lines.now) fault) }
{
    RunFault::Input(BadLine::new(lines.line_number(), fault))
}

/// Reports on the lines that are to come.
fn check_lines<A: Allocator, R: Read + Drop, W: Write, H: Watch>(
    lines: &mut LineReader<R, A>,
    writer: &mut W,
    settings: &CheckSettings,
    watch: &mut H,
) -> Result<(), RunFault>
    ensures text { (tell : Teller) → IsTeller tell →
        (read : List (List ℕ) → Result Command TcFault) → IsReader read →
        IfSome (script_left R.remaining lines.old)
        (λ script. RunsOut result (W.contents writer.old) (W.contents writer.new)
        (checked_in settings.now.script read (verdict_lines tell settings.now) script)) }
    ensures alerts { (read : List (List ℕ) → Result Command TcFault) → IsReader read →
        IfSome (script_left R.remaining lines.old)
        (λ script. Watched H.alerted
        (alerts_in settings.now read script) result watch.old watch.new) }
{
    'lines: while next_line::<BadLine, _, _, _>(lines, writer)? {
        let line = lines.line();
        match is_command(line, settings.script) {
            Ok(false) => watch.line_skipped(lines.line_number(), line),
            Ok(true) => put_line(writer, settings, lines.line_number(), line, watch)?,
            Err(fault) => {
                watch.line_failed(line);
                return Err(fault_here(lines, fault));
            }
        }
    }
    Ok(())
}

/// Reads schedule commands to the end of the input, and reports on each by the settings: its fault where it is no
/// command; the refusal of its schedule; or `apart` with the classes that the schedule keeps apart, in rising order, of
/// those of the map that the port then has, or of all eight where that isn't known; a deletion keeps none apart. Where
/// it is asked what is shared, a line follows for each of these classes that shares windows with others of them. Where
/// windows are asked for, one follows behind these for each class: of what the schedule gives it, or that it is never
/// open, where some priority leads to it.
///
/// Lines without words and comments are skipped, and other lines too where they are those of a script; else any other
/// line is an `UnknownLine`, which ends the call after what is reported of the lines before it. What was reported is
/// let out before more input is waited for. A read or a write that fails, or takes nothing, isn't tried again. Who
/// watches is called for such a line, for each command that is malformed or that a port would refuse, and for each whose
/// schedule never opens a class that a priority leads to.
pub fn check<A: Allocator, R: Read + Drop, W: Write, H: Watch>(
    alloc: A,
    reader: R,
    writer: &mut W,
    settings: CheckSettings,
    watch: &mut H,
) -> Result<(), RunFault>
    ensures text { (tell : Teller) → IsTeller tell →
        (read : List (List ℕ) → Result Command TcFault) → IsReader read →
        IfSome (R.remaining reader)
        (λ input. RunsOut result (W.contents writer.old) (W.contents writer.new)
        (checked_of settings.script read (verdict_lines tell settings) input)) }
    ensures watched { IsWatchedCheck H.alerted settings
        (R.remaining reader) result watch.old watch.new }
{
    let mut lines = LineReader::new(&alloc, reader)?;
    check_lines(&mut lines, writer, &settings, watch)
}
