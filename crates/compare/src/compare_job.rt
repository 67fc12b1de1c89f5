//! The program's job: two inputs are compared.

ghost use Rattle.std.specs.Prelude.{◌≡◌};
ghost use Rattle.text.specs.Buffered.{writer_contents};
ghost use Rattle.job.specs.Outcome.{Runs};
ghost use Rattle.compare.specs.CompareEnd.{ForOutcome, IsCompareEnding};
ghost use Rattle.compare.specs.Outcome.{whole};
ghost use Rattle.compare.specs.Pairs.{compared};
ghost use Rattle.compare.specs.Read.{fault_of};

use crate::faults::{CompareFault, CompareInput, Side, Trouble};
use crate::frame::Frame;
use crate::input::read_input;
use crate::lines::put_compared;
use crate::pairs::compared;
use crate::payloads::Numbers;
use crate::settings::CompareSettings;
use crate::tally::found_in;
use job::{Ended, Errors, Fault, end_run};
use std::alloc::Allocator;
use std::collections::HashMap;
use std::io::{Read, Write};
use text::octet_writer::BufWriter;

/// The fault of an input, by which of the two it is.
fn fault_of(side: Side, fault: Fault<Trouble>) -> CompareFault
    ensures { result ≡ fault_of side fault }
{
    match fault {
        Fault::Input(trouble) => Fault::Input(CompareInput::Input(side, trouble)),
        Fault::Read => Fault::Read,
        Fault::Write => Fault::Write,
        Fault::Memory => Fault::Memory,
    }
}

/// Writes what comes of two inputs with these frames.
fn put_outcome<A: Allocator + Clone, W: Write>(
    alloc: A,
    first: &[Frame],
    second: &[Frame],
    within: Option<u128>,
    writer: &mut W,
) -> Result<(), CompareFault>
    ensures { Runs result (W.contents writer.old) (W.contents writer.new)
        (whole within (compared first.now second.now)) }
{
    let Ok(all) = compared(alloc, first, second) else {
        return Err(Fault::Memory);
    };
    let all = all.as_slice();
    let Ok(()) = put_compared(writer, all) else {
        return Err(Fault::Write);
    };
    match found_in(all, within) {
        None => Ok(()),
        Some(finding) => Err(Fault::Input(CompareInput::Found(finding))),
    }
}

/// Reads two inputs to their ends, and writes how they differ.
pub fn compare<A: Allocator, R: Read + Drop, S: Read + Drop, W: Write>(
    alloc: A,
    settings: CompareSettings,
    first: R,
    second: S,
    writer: &mut W,
) -> Result<(), CompareFault>
    ensures { ForOutcome settings (R.remaining first) (S.remaining second)
        (λ whole. Runs result (W.contents writer.old) (W.contents writer.new) whole) }
{
    let alloc = &alloc;
    let mut numbers: Numbers<&A> = HashMap::new(alloc);
    let mut first_frames = Vec::new(alloc);
    match read_input(&alloc, first, &mut numbers, settings.by, &mut first_frames) {
        Ok(()) => {}
        Err(fault) => return Err(fault_of(Side::First, fault)),
    }
    let mut second_frames = Vec::new(alloc);
    match read_input(
        &alloc,
        second,
        &mut numbers,
        settings.by,
        &mut second_frames,
    ) {
        Ok(()) => {}
        Err(fault) => return Err(fault_of(Side::Second, fault)),
    }
    put_outcome(
        alloc,
        first_frames.as_slice(),
        second_frames.as_slice(),
        settings.within,
        writer,
    )
}

/// Compares two inputs.
pub fn answer_compare<
    A: Allocator,
    B: Allocator,
    R: Read + Drop,
    S: Read + Drop,
    W: Write + Drop,
    E: Errors,
>(
    alloc: A,
    settings: CompareSettings,
    first: R,
    second: S,
    mut answers: BufWriter<W, B>,
    errors: &mut E,
) -> (Ended, W)
    ensures { IsCompareEnding settings (R.remaining first) (S.remaining second) result.0
        (writer_contents W.contents answers) (W.contents result.1) (E.contents errors.old)
        (E.contents errors.new) }
{
    let run = compare(alloc, settings, first, second, &mut answers);
    end_run(run, answers, errors)
}
