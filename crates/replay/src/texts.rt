//! The texts of faults.

ghost use Rattle.std.specs.Prelude.{◌≡◌};
ghost use Rattle.replay.specs.Kinds.{capture_kind, replay_kind};
ghost use Rattle.replay.specs.Words.{Writes, IsTold, capture_fault_name, capture_status, capture_text, header_text, record_text, open_text, replay_telling};

use crate::faults::ReplayInput;
use capture::CapFault;
use job::{CaptureKind, Ended, FaultKind, InputFault, ValueKind};
use port_text::answer_text::{Part, WriteFault, put, put_parts};
use script::{BadValue, put_value};
use std::io::Write;

fn capture_fault_name(fault: CapFault) -> &'static [u8]
    ensures { result.now ≡ capture_fault_name fault }
{
    match fault {
        CapFault::ShortHeader => b"ShortHeader",
        CapFault::BadMagic => b"BadMagic",
        CapFault::BadVersion => b"BadVersion",
        CapFault::BadLink => b"BadLink",
        CapFault::ShortRecord => b"ShortRecord",
        CapFault::LongRecord => b"LongRecord",
        CapFault::BadFraction => b"BadFraction",
        CapFault::TooManyRecords => b"TooManyRecords",
        CapFault::BadShift => b"BadShift",
        CapFault::Read => b"Read",
        CapFault::Write => b"Write",
        CapFault::Memory => b"Memory",
    }
}

fn put_header_fault<W: Write>(writer: &mut W, fault: CapFault) -> Result<(), WriteFault>
    ensures { Writes result (W.contents writer.old) (W.contents writer.new) (header_text fault) }
{
    put_parts(
        writer,
        &[
            Part::Text(b"taprio_port: capture header: "),
            Part::Text(capture_fault_name(fault)),
            Part::Text(b"\n"),
        ],
    )
}

fn put_record_fault<W: Write>(
    writer: &mut W,
    number: u32,
    fault: CapFault,
) -> Result<(), WriteFault>
    ensures { Writes result (W.contents writer.old) (W.contents writer.new)
        (record_text number fault) }
{
    put_parts(
        writer,
        &[
            Part::Text(b"taprio_port: capture record "),
            Part::Number(u128::from(number)),
            Part::Text(b": "),
            Part::Text(capture_fault_name(fault)),
            Part::Text(b"\n"),
        ],
    )
}

fn put_capture_fault<W: Write>(
    writer: &mut W,
    number: u32,
    fault: CapFault,
) -> Result<(), WriteFault>
    ensures { Writes result (W.contents writer.old) (W.contents writer.new)
        (capture_text number fault) }
{
    match fault {
        CapFault::ShortHeader => put_header_fault(writer, CapFault::ShortHeader),
        CapFault::BadMagic => put_header_fault(writer, CapFault::BadMagic),
        CapFault::BadVersion => put_header_fault(writer, CapFault::BadVersion),
        CapFault::BadLink => put_header_fault(writer, CapFault::BadLink),
        CapFault::ShortRecord => put_record_fault(writer, number, CapFault::ShortRecord),
        CapFault::LongRecord => put_record_fault(writer, number, CapFault::LongRecord),
        CapFault::BadFraction => put_record_fault(writer, number, CapFault::BadFraction),
        CapFault::TooManyRecords => put_record_fault(writer, number, CapFault::TooManyRecords),
        CapFault::BadShift => put_record_fault(writer, number, CapFault::BadShift),
        CapFault::Read => put(writer, b"taprio_port: read failed\n"),
        CapFault::Write => put(writer, b"taprio_port: write failed\n"),
        CapFault::Memory => put(writer, b"taprio_port: out of memory\n"),
    }
}

fn capture_status(fault: CapFault) -> u8
    ensures { result ≡ capture_status fault }
{
    match fault {
        CapFault::ShortHeader | CapFault::BadMagic | CapFault::BadVersion => 3,
        CapFault::BadLink | CapFault::ShortRecord | CapFault::LongRecord => 3,
        CapFault::BadFraction | CapFault::TooManyRecords | CapFault::BadShift => 3,
        CapFault::Read | CapFault::Write | CapFault::Memory => 4,
    }
}

fn capture_kind(fault: CapFault) -> FaultKind
    ensures { result ≡ capture_kind fault }
{
    match fault {
        CapFault::ShortHeader => FaultKind::Capture(CaptureKind::ShortHeader),
        CapFault::BadMagic => FaultKind::Capture(CaptureKind::BadMagic),
        CapFault::BadVersion => FaultKind::Capture(CaptureKind::BadVersion),
        CapFault::BadLink => FaultKind::Capture(CaptureKind::BadLink),
        CapFault::ShortRecord => FaultKind::Capture(CaptureKind::ShortRecord),
        CapFault::LongRecord => FaultKind::Capture(CaptureKind::LongRecord),
        CapFault::BadFraction => FaultKind::Capture(CaptureKind::BadFraction),
        CapFault::TooManyRecords => FaultKind::Capture(CaptureKind::TooManyRecords),
        CapFault::BadShift => FaultKind::Capture(CaptureKind::BadShift),
        CapFault::Read => FaultKind::ReadFailed,
        CapFault::Write => FaultKind::WriteFailed,
        CapFault::Memory => FaultKind::OutOfMemory,
    }
}

impl InputFault for ReplayInput {
    ghost telling = { replay_telling };

    ghost kind_of = { replay_kind };

    fn status(&self) -> u8 {
        match *self {
            ReplayInput::Until => 2,
            ReplayInput::Script(_) => 3,
            ReplayInput::Capture(_, fault) => capture_status(fault),
        }
    }

    fn kind(&self) -> FaultKind {
        match *self {
            ReplayInput::Until => FaultKind::Value(ValueKind::Until),
            ReplayInput::Script(bad) => bad.kind(),
            ReplayInput::Capture(_, fault) => capture_kind(fault),
        }
    }

    fn put<W: Write>(&self, writer: &mut W) -> Result<(), WriteFault> {
        match *self {
            ReplayInput::Until => put_value(writer, BadValue::Until),
            ReplayInput::Script(bad) => bad.put(writer),
            ReplayInput::Capture(number, fault) => put_capture_fault(writer, number, fault),
        }
    }
}

/// Writes the text of a path that can't be opened. The exit status that goes with it is 4, also where that write fails.
pub fn say_unopened<W: Write>(path: &str, writer: &mut W) -> Ended
    ensures status { result.status ≡ 4 }
    ensures told { IsTold result.told (W.contents writer.old) (W.contents writer.new)
        (open_text path.now) }
{
    let told = put_parts(
        writer,
        &[
            Part::Text(b"taprio_port: cannot open "),
            Part::Text(path.as_bytes()),
            Part::Text(b"\n"),
        ],
    )
    .is_ok();
    Ended { status: 4, told }
}
