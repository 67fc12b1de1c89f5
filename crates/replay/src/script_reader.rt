//! Reads a script whole and keeps it.

ghost use Rattle.std.specs.Prelude.{◌≡◌, ◌<◌, ◌∷◌, ◌++◌, [], ℕ, List, Result, IfOk, IfSome, OnOk, Ok, Err, Some, length};
ghost use Rattle.job.specs.declared.fault.Fault.TheVariants as Faults;
ghost use Rattle.text.specs.LineReader.{how_ended};
ghost use Rattle.text.specs.declared.line_reader.lines.LineFault.TheVariants as LineFaults;
ghost use Rattle.replay.specs.Words.{Command, script_left, script_of, IsReader, TcFault, words_of, IsKept, kept_request, kept_requests, GivesScript, ReadsRest, IsEarly, line_request, reading_of};

use crate::faults::{ReplayFault, ReplayInput};
use crate::kept_script::{KeptLine, KeptScript};
use crate::line_beside::{Line, read_line_beside};
use script::{BadLine, Watch};
use std::alloc::{AllocError, Allocator};
use std::io::Read;
use text::line_reader::LineReader;

/// Puts the octets of the line of a number after those that are kept, and says where they lie.
fn keep_octets<A: Allocator>(
    script: &mut KeptScript<A>,
    octets: &[u8],
    number: u32,
) -> Result<KeptLine, AllocError>
    ensures lines { script.new.lines.items ≡ script.old.lines.items }
    ensures kept { OnOk result (script.new.octets.items ≡ script.old.octets.items ++ octets.now) }
    ensures place { IfOk result
        (λ line. line
        ≡ KeptLine.Tc (length script.old.octets.items) (length script.new.octets.items) number) }
{
    let start = script.octets.len();
    script.octets.extend_from_slice(octets)?;
    let end = script.octets.len();
    Ok(KeptLine::Tc { start, end, number })
}

/// What is kept of a line, whose octets are kept only where it begins with `tc`.
fn kept_line<A: Allocator>(
    script: &mut KeptScript<A>,
    line: Line,
    octets: &[u8],
    number: u32,
) -> Result<KeptLine, AllocError>
    requires { IsEarly line }
    ensures lines { script.new.lines.items ≡ script.old.lines.items }
    ensures within { IfOk result (λ kept. IsKept script.new.octets.items kept) }
    ensures says { (read : List (List ℕ) → Result Command TcFault) →
        IfOk result
        (λ kept. kept_request read script.new.octets.items kept
        ≡ line_request (read (words_of octets.now)) line) }
    ensures others { (read : List (List ℕ) → Result Command TcFault) →
        OnOk result
        (kept_requests read script.new.octets.items script.old.lines.items
        ≡ kept_requests read script.old.octets.items script.old.lines.items) }
{
    match line {
        Line::Clock(moment) => Ok(KeptLine::Clock(moment)),
        Line::Query => Ok(KeptLine::Query),
        Line::Count(class) => Ok(KeptLine::Count(class)),
        Line::Tc => keep_octets(script, octets, number),
    }
}

/// Keeps the line of a number.
fn keep<A: Allocator>(
    script: &mut KeptScript<A>,
    line: Line,
    octets: &[u8],
    number: u32,
) -> Result<(), AllocError>
    requires { IsEarly line }
    ensures { (read : List (List ℕ) → Result Command TcFault) →
        OnOk result
        (kept_requests read script.new.octets.items script.new.lines.items
        ≡ kept_requests read script.old.octets.items script.old.lines.items
        ++ line_request (read (words_of octets.now)) line ∷ []) }
{
    let kept = kept_line(script, line, octets, number)?;
    script.lines.push(kept)?;
    Ok(())
}

/// Keeps the lines that are to come, up to the first fault. A failed read is told only where the lines ended by one.
fn keep_lines<A: Allocator, B: Allocator, R: Read + Drop, P: Watch>(
    script: &mut KeptScript<A>,
    lines: &mut LineReader<R, B>,
    watch: &mut P,
) -> Result<(), ReplayFault>
    ensures rest { (read : List (List ℕ) → Result Command TcFault) → IsReader read →
        IfSome (script_left R.remaining lines.old)
        (λ rest. ReadsRest result
        (kept_requests read script.old.octets.items script.old.lines.items) (reading_of read rest)
        (kept_requests read script.new.octets.items script.new.lines.items)) }
    ensures read { result ≡ Err Faults.Read → how_ended lines.new ≡ Some (Err LineFaults.Read) }
    ensures alerts { P.alerted [] watch.old watch.new }
{
    'lines: while lines.advance()? {
        let octets = lines.line();
        match read_line_beside(octets) {
            Ok(None) => watch.line_skipped(lines.line_number(), octets),
            Ok(Some(line)) => keep(script, line, octets, lines.line_number())?,
            Err(fault) => {
                watch.line_failed(octets);
                return Err(ReplayFault::Input(ReplayInput::Script(BadLine::new(
                    lines.line_number(),
                    fault,
                ))));
            }
        }
    }
    Ok(())
}

/// Reads a script to its end, or to its first fault. Who watches is called for a malformed line, and for each that is
/// skipped.
pub fn read_script<A: Allocator + Clone, R: Read + Drop, P: Watch>(
    alloc: &A,
    reader: R,
    watch: &mut P,
) -> Result<KeptScript<A>, ReplayFault>
    ensures script { (read : List (List ℕ) → Result Command TcFault) → IsReader read →
        IfSome (R.remaining reader)
        (λ input. GivesScript read result (reading_of read (script_of input))) }
    ensures alerts { P.alerted [] watch.old watch.new }
{
    let mut lines = LineReader::new(alloc.clone()?, reader)?;
    let mut script = KeptScript {
        lines: Vec::new(alloc.clone()?),
        octets: Vec::new(alloc.clone()?),
    };
    keep_lines(&mut script, &mut lines, watch)?;
    Ok(script)
}
