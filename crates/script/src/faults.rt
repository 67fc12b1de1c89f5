//! Why a run ends early, and the texts that say so.

ghost use Rattle.std.specs.Prelude.{◌≡◌};
ghost use Rattle.script.specs.Words.{IsTold, Writes, line_kind, line_text, option_name, script_fault_name, script_kind, script_telling, table_kind, value_text, bad_line, limit_fault, long_line};

use crate::settings::BadValue;
use job::{Ended, Fault, FaultKind, InputFault, LineInput, LineKind};
use port_text::answer_text::{Part, WriteFault, put_parts};
use std::io::Write;
use text::line_reader::Limit;
use thiserror::Error;

/// What is wrong with a line of a script.
#[derive(Clone, Copy, Debug, PartialEq, Eq)]
pub enum ScriptFault {
    /// It has more than 65,536 octets.
    LongLine,
    /// It is the 4,000,001st physical line.
    TooManyLines,
    /// Its first word is none that a script has.
    UnknownLine,
    /// It is a frame, in a script that runs beside a capture.
    FrameInReplay,
    /// It has too few or too many words, or a fifth word of a frame that isn't `tagged`.
    WordCount,
    /// A word is no decimal number, or one that is over its limit.
    BadNumber,
    /// The moment of a clock line is after the greatest; beside a capture, after what its time stamps can say.
    ClockTooLate,
}

/// The line of a script of this number, counted in physical lines from 1, has this fault.
#[derive(Clone, Copy, Debug, PartialEq, Eq, Error)]
#[error("line {line} of the script: {fault:?}")]
pub struct BadLine {
    /// The number of the line.
    pub line: u32,
    /// What is wrong with it.
    pub fault: ScriptFault,
}

impl BadLine {
    /// The line of this number has this fault.
    pub fn new(line: u32, fault: ScriptFault) -> BadLine
        ensures { result ≡ bad_line line fault }
    {
        BadLine { line, fault }
    }
}

/// Why a run on a script ended early.
pub type RunFault = Fault<BadLine>;

/// The fault of a line that passes a limit.
pub fn limit_fault(limit: Limit) -> ScriptFault
    ensures { result ≡ limit_fault limit }
{
    match limit {
        Limit::LongLine => ScriptFault::LongLine,
        Limit::TooManyLines => ScriptFault::TooManyLines,
    }
}

impl ScriptFault {
    /// What it is where the line is one of a script or of schedules.
    pub fn kind(self) -> LineKind
        ensures { result ≡ line_kind self }
    {
        match self {
            ScriptFault::LongLine => LineKind::LongLine,
            ScriptFault::TooManyLines => LineKind::TooManyLines,
            ScriptFault::UnknownLine => LineKind::UnknownLine,
            ScriptFault::FrameInReplay => LineKind::FrameInReplay,
            ScriptFault::WordCount => LineKind::WordCount,
            ScriptFault::BadNumber => LineKind::BadNumber,
            ScriptFault::ClockTooLate => LineKind::ClockTooLate,
        }
    }

    /// What it is where the line is one of a table of streams.
    pub fn kind_in_table(self) -> LineKind
        ensures { result ≡ table_kind self }
    {
        match self {
            ScriptFault::UnknownLine => LineKind::UnknownTableLine,
            ScriptFault::ClockTooLate => LineKind::StreamTooLate,
            fault => fault.kind(),
        }
    }
}

fn script_fault_name(fault: ScriptFault) -> &'static [u8]
    ensures { result.now ≡ script_fault_name fault }
{
    match fault {
        ScriptFault::LongLine => b"LongLine",
        ScriptFault::TooManyLines => b"TooManyLines",
        ScriptFault::UnknownLine => b"UnknownLine",
        ScriptFault::FrameInReplay => b"FrameInReplay",
        ScriptFault::WordCount => b"WordCount",
        ScriptFault::BadNumber => b"BadNumber",
        ScriptFault::ClockTooLate => b"ClockTooLate",
    }
}

/// Writes the text of a line's fault, after a beginning that names the input.
pub fn put_line_fault<W: Write>(
    writer: &mut W,
    begin: &[u8],
    line: u32,
    fault: ScriptFault,
) -> Result<(), WriteFault>
    ensures { Writes result (W.contents writer.old) (W.contents writer.new)
        (line_text begin.now line fault) }
{
    put_parts(
        writer,
        &[
            Part::Text(begin),
            Part::Number(u128::from(line)),
            Part::Text(b": "),
            Part::Text(script_fault_name(fault)),
            Part::Text(b"\n"),
        ],
    )
}

impl InputFault for BadLine {
    ghost telling = { script_telling };

    ghost kind_of = { script_kind };

    fn status(&self) -> u8 {
        3
    }

    fn kind(&self) -> FaultKind {
        FaultKind::Line(self.fault.kind())
    }

    fn put<W: Write>(&self, writer: &mut W) -> Result<(), WriteFault> {
        put_line_fault(writer, b"taprio_port: script line ", self.line, self.fault)
    }
}

impl LineInput for BadLine {
    ghost limited = { long_line };

    fn of_limit(line: u32, limit: Limit) -> BadLine {
        BadLine::new(line, limit_fault(limit))
    }
}

fn option_name(value: BadValue) -> &'static [u8]
    ensures { result.now ≡ option_name value }
{
    match value {
        BadValue::Rate => b"--rate",
        BadValue::Mtu => b"--mtu",
        BadValue::Room => b"--room",
        BadValue::Until => b"--until",
        BadValue::From => b"--from",
        BadValue::To => b"--to",
        BadValue::Width => b"--width",
        BadValue::Map => b"--map",
        BadValue::Frame => b"--frame",
        BadValue::Seed => b"--seed",
    }
}

/// Writes the text of a bad value.
pub fn put_value<W: Write>(writer: &mut W, value: BadValue) -> Result<(), WriteFault>
    ensures { Writes result (W.contents writer.old) (W.contents writer.new) (value_text value) }
{
    put_parts(
        writer,
        &[
            Part::Text(b"taprio_port: bad value of "),
            Part::Text(option_name(value)),
            Part::Text(b"\n"),
        ],
    )
}

/// Writes the text of a bad value. The exit status that goes with it is 2, also where that write fails.
pub fn say_value<W: Write>(value: &BadValue, writer: &mut W) -> Ended
    ensures status { result.status ≡ 2 }
    ensures told { IsTold result.told (W.contents writer.old) (W.contents writer.new)
        (value_text value.now) }
{
    let told = put_value(writer, *value).is_ok();
    Ended { status: 2, told }
}
