//! A table of frames in memory.

ghost use Rattle.std.specs.Prelude.{List, ℕ, Result};
ghost use Rattle.abstract_port.specs.declared.Command.{Command};
ghost use Rattle.capture.specs.Records.{Entry};
ghost use Rattle.capture.specs.declared.fault.CapFault.{CapFault};
ghost use Rattle.capture.specs.declared.reader.End.{End};
ghost use Rattle.frame_table.specs.ByStream.{frames_by_stream};
ghost use Rattle.frame_table.specs.OfCapture.{frames_of_capture};
ghost use Rattle.frame_table.specs.Outcome.{frames_of};
ghost use Rattle.in_memory.specs.Slices.{Answers, slices, told_by};
ghost use Rattle.in_memory.specs.Values.{settings_at};
ghost use Rattle.replay.specs.Outcome.{ReadsAs};
ghost use Rattle.replay.specs.Texts.{replay_telling};
ghost use Rattle.script.specs.Texts.{script_telling};
ghost use Rattle.port_text.specs.Reader.{IsReader};
ghost use Rattle.port_text.specs.declared.tc_reader.fault.TcFault.{TcFault};
ghost use Rattle.traffic.specs.Faults.{streams_telling};

use crate::jobs::{Ran, end_in_memory, refuse_value};
use crate::values::{PortValues, settings_at};
use frame_table::{run_frames, run_frames_by_stream, run_frames_of_capture};
use script::Unwatched;
use std::alloc::Allocator;

/// Runs a script with these values: the table of its frames, as `frame_table::run_frames` writes it, comes into
/// `output`, and the text of a fault into `fault`, as the program writes it on its standard error.
///
/// Status 2 where a value is out of its limits, 3 where a line has a fault, after the rows of the lines before it.
pub fn frames_octets<A: Allocator>(
    alloc: &A,
    values: PortValues,
    script: &[u8],
    output: &mut [u8],
    fault: &mut [u8],
) -> Ran
    ensures { (read : List (List ℕ) → Result Command TcFault) → IsReader read →
        Answers
        (told_by script_telling (λ settings. frames_of read settings script.now)
        (settings_at values)) result (slices output.old fault.old) (slices output.new fault.new) }
{
    let settings = match settings_at(values) {
        Ok(settings) => settings,
        Err(value) => return refuse_value(alloc, value, output, fault),
    };
    let mut written = Vec::new(alloc);
    let run = run_frames(alloc, script, &mut written, settings, &mut Unwatched);
    end_in_memory(alloc, run, written.as_slice(), output, fault)
}

/// Runs a script with these values: the table of its frames with the stream of each, as
/// `frame_table::run_frames_by_stream` writes it, comes into `output`, and the text of a fault into `fault`, as the
/// program writes it on its standard error.
///
/// Status 2 where a value is out of its limits; 3 where a line of the table of streams has a fault, and nothing is
/// written then, or where one of the script has, after the rows of the lines before it.
pub fn frames_by_stream_octets<A: Allocator>(
    alloc: &A,
    values: PortValues,
    table: &[u8],
    script: &[u8],
    output: &mut [u8],
    fault: &mut [u8],
) -> Ran
    ensures { (read : List (List ℕ) → Result Command TcFault) → IsReader read →
        Answers
        (told_by streams_telling (λ settings. frames_by_stream read settings table.now script.now)
        (settings_at values)) result (slices output.old fault.old) (slices output.new fault.new) }
{
    let settings = match settings_at(values) {
        Ok(settings) => settings,
        Err(value) => return refuse_value(alloc, value, output, fault),
    };
    let mut written = Vec::new(alloc);
    let run = run_frames_by_stream(alloc, table, script, &mut written, settings, &mut Unwatched);
    end_in_memory(alloc, run, written.as_slice(), output, fault)
}

/// Runs a script and a capture with these values: the table of the frames of their replay, as
/// `frame_table::run_frames_of_capture` writes it, comes into `output`, and the text of a fault into `fault`, as the
/// program writes it on its standard error.
///
/// Without a moment to run to the port runs on until no frame can start any more.
///
/// Status 2 where a value is out of its limits, which for `until` is the last moment that a capture can say; 3 where
/// the script or the capture has a fault. Nothing is written at a fault of the script or of the capture's header; at
/// one of a record the table of the records before it, and of the whole script.
pub fn frames_of_capture_octets<A: Allocator>(
    alloc: &A,
    values: PortValues,
    script: &[u8],
    capture: &[u8],
    output: &mut [u8],
    fault: &mut [u8],
) -> Ran
    ensures { (read : List (List ℕ) → Result Command TcFault) → IsReader read →
        (records : Result (List Entry × End) CapFault) → ReadsAs capture.now records →
        Answers
        (told_by replay_telling (λ settings. frames_of_capture read settings script.now records)
        (settings_at values)) result (slices output.old fault.old) (slices output.new fault.new) }
{
    let settings = match settings_at(values) {
        Ok(settings) => settings,
        Err(value) => return refuse_value(alloc, value, output, fault),
    };
    let mut written = Vec::new(alloc);
    let run = run_frames_of_capture(
        alloc,
        script,
        capture,
        &mut written,
        settings,
        &mut Unwatched,
    );
    end_in_memory(alloc, run, written.as_slice(), output, fault)
}
