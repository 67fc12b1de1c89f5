//! Why a run ends early, what is found, and the texts that say so.

ghost use Rattle.std.specs.Prelude.{◌≡◌};
ghost use Rattle.text.specs.Writes.{Writes};
ghost use Rattle.compare.specs.Faults.{apart_found, capture_kind, capture_name, compare_kind, compare_telling, found_text, header_text, place_text, record_name, side_name, single_found, table_kind, table_name, trouble_kind, trouble_text};

use capture::CapFault;
use job::{CaptureKind, Fault, FaultKind, InputFault, LineKind};
use port_text::answer_text::{Part, WriteFault, put, put_parts};
use std::io::Write;
use thiserror::Error;

/// One of the two inputs.
#[derive(Clone, Copy, Debug, PartialEq, Eq)]
pub enum Side {
    /// The first, A.
    First,
    /// The second, B.
    Second,
}

/// What is wrong with a line of a table.
#[derive(Clone, Copy, Debug, PartialEq, Eq)]
pub enum TableFault {
    /// It has too many octets.
    LongLine,
    /// It is a line too many.
    TooManyLines,
    /// It is the first one, and doesn't name the columns `id` and `start_ps`; or there is none.
    NoColumn,
    /// It has too few fields.
    FieldCount,
    /// A field is no number, or one over its limit.
    BadNumber,
    /// Payloads are to be compared, and a table has none.
    NoPayload,
}

/// What is wrong with a record of a capture.
#[derive(Clone, Copy, Debug, PartialEq, Eq)]
pub enum RecordFault {
    /// The capture has this fault there.
    Capture(CapFault),
    /// IDs are to be compared, and its frame carries none.
    NoId,
}

/// Where an input has a fault, and which one.
#[derive(Clone, Copy, Debug, PartialEq, Eq)]
pub enum Trouble {
    /// The line of this number of a table, counted in physical lines from 1.
    Line(u32, TableFault),
    /// The file header of a capture.
    Header(CapFault),
    /// The record of this number of a capture, from 0.
    Record(u32, RecordFault),
}

/// What is found first.
#[derive(Clone, Copy, Debug, PartialEq, Eq)]
pub enum Finding {
    /// The moments of the frames of these names differ by so many picoseconds, which are too many.
    Apart(u64, u64, u128),
    /// The frame of this name has no partner in B.
    Missing(u64),
    /// The frame of this name has no partner in A.
    Extra(u64),
    /// Nothing was compared.
    NoPair,
}

/// What ends a comparison.
#[derive(Clone, Copy, Debug, PartialEq, Eq, Error)]
pub enum CompareInput {
    /// An input has a fault. Nothing is written.
    #[error("{0:?}: {1:?}")]
    Input(Side, Trouble),
    /// This was found first. All is written.
    #[error("{0:?}")]
    Found(Finding),
}

/// Why a comparison ended early.
pub type CompareFault = Fault<CompareInput>;

fn side_name(side: Side) -> &'static [u8]
    ensures { result.now ≡ side_name side }
{
    match side {
        Side::First => b"A",
        Side::Second => b"B",
    }
}

fn table_name(fault: TableFault) -> &'static [u8]
    ensures { result.now ≡ table_name fault }
{
    match fault {
        TableFault::LongLine => b"LongLine",
        TableFault::TooManyLines => b"TooManyLines",
        TableFault::NoColumn => b"NoColumn",
        TableFault::FieldCount => b"FieldCount",
        TableFault::BadNumber => b"BadNumber",
        TableFault::NoPayload => b"NoPayload",
    }
}

fn capture_name(fault: CapFault) -> &'static [u8]
    ensures { result.now ≡ capture_name fault }
{
    match fault {
        CapFault::ShortHeader => b"ShortHeader",
        CapFault::BadMagic => b"BadMagic",
        CapFault::BadVersion => b"BadVersion",
        CapFault::BadLink => b"BadLink",
        CapFault::ShortRecord => b"ShortRecord",
        CapFault::LongRecord => b"LongRecord",
        CapFault::BadFraction => b"BadFraction",
        CapFault::TooManyRecords => b"TooManyRecords",
        CapFault::BadShift => b"BadShift",
        CapFault::Read => b"Read",
        CapFault::Write => b"Write",
        CapFault::Memory => b"Memory",
    }
}

fn record_name(fault: RecordFault) -> &'static [u8]
    ensures { result.now ≡ record_name fault }
{
    match fault {
        RecordFault::Capture(fault) => capture_name(fault),
        RecordFault::NoId => b"NoId",
    }
}

/// Writes where a fault is, and which one.
fn put_place<'a, W: Write>(
    writer: &mut W,
    side: Side,
    what: &'a [u8],
    number: u32,
    name: &'a [u8],
) -> Result<(), WriteFault>
    ensures { Writes result (W.contents writer.old) (W.contents writer.new)
        (place_text side what.now number name.now) }
{
    put_parts(
        writer,
        &[
            Part::Text(b"taprio_port: "),
            Part::Text(side_name(side)),
            Part::Text(what),
            Part::Number(u128::from(number)),
            Part::Text(b": "),
            Part::Text(name),
            Part::Text(b"\n"),
        ],
    )
}

/// Writes the fault of a file header.
fn put_header<W: Write>(writer: &mut W, side: Side, fault: CapFault) -> Result<(), WriteFault>
    ensures { Writes result (W.contents writer.old) (W.contents writer.new)
        (header_text side fault) }
{
    put_parts(
        writer,
        &[
            Part::Text(b"taprio_port: "),
            Part::Text(side_name(side)),
            Part::Text(b" header: "),
            Part::Text(capture_name(fault)),
            Part::Text(b"\n"),
        ],
    )
}

fn put_trouble<W: Write>(writer: &mut W, side: Side, trouble: Trouble) -> Result<(), WriteFault>
    ensures { Writes result (W.contents writer.old) (W.contents writer.new)
        (trouble_text side trouble) }
{
    match trouble {
        Trouble::Line(number, fault) => {
            put_place(writer, side, b" line ", number, table_name(fault))
        }
        Trouble::Header(fault) => put_header(writer, side, fault),
        Trouble::Record(number, fault) => {
            put_place(writer, side, b" record ", number, record_name(fault))
        }
    }
}

/// Writes the text of a pair whose moments differ by too much.
fn put_apart<W: Write>(writer: &mut W, a: u64, b: u64, by: u128) -> Result<(), WriteFault>
    ensures { Writes result (W.contents writer.old) (W.contents writer.new)
        (apart_found a b by) }
{
    put_parts(
        writer,
        &[
            Part::Text(b"taprio_port: compare: pair "),
            Part::Number(u128::from(a)),
            Part::Text(b" "),
            Part::Number(u128::from(b)),
            Part::Text(b" differs by "),
            Part::Number(by),
            Part::Text(b"\n"),
        ],
    )
}

/// Writes the text of a frame without a partner.
fn put_single<W: Write>(writer: &mut W, what: &[u8], name: u64) -> Result<(), WriteFault>
    ensures { Writes result (W.contents writer.old) (W.contents writer.new)
        (single_found what.now name) }
{
    put_parts(
        writer,
        &[
            Part::Text(what),
            Part::Number(u128::from(name)),
            Part::Text(b"\n"),
        ],
    )
}

fn put_finding<W: Write>(writer: &mut W, finding: Finding) -> Result<(), WriteFault>
    ensures { Writes result (W.contents writer.old) (W.contents writer.new) (found_text finding) }
{
    match finding {
        Finding::Apart(a, b, by) => put_apart(writer, a, b, by),
        Finding::Missing(a) => put_single(writer, b"taprio_port: compare: missing ", a),
        Finding::Extra(b) => put_single(writer, b"taprio_port: compare: extra ", b),
        Finding::NoPair => put(writer, b"taprio_port: compare: no pair\n"),
    }
}

fn table_kind(fault: TableFault) -> FaultKind
    ensures { result ≡ table_kind fault }
{
    match fault {
        TableFault::LongLine => FaultKind::Line(LineKind::LongLine),
        TableFault::TooManyLines => FaultKind::Line(LineKind::TooManyLines),
        TableFault::NoColumn => FaultKind::Line(LineKind::NoColumn),
        TableFault::FieldCount => FaultKind::Line(LineKind::FieldCount),
        TableFault::BadNumber => FaultKind::Line(LineKind::BadNumber),
        TableFault::NoPayload => FaultKind::Line(LineKind::NoPayload),
    }
}

fn capture_kind(fault: CapFault) -> FaultKind
    ensures { result ≡ capture_kind fault }
{
    match fault {
        CapFault::ShortHeader => FaultKind::Capture(CaptureKind::ShortHeader),
        CapFault::BadMagic => FaultKind::Capture(CaptureKind::BadMagic),
        CapFault::BadVersion => FaultKind::Capture(CaptureKind::BadVersion),
        CapFault::BadLink => FaultKind::Capture(CaptureKind::BadLink),
        CapFault::ShortRecord => FaultKind::Capture(CaptureKind::ShortRecord),
        CapFault::LongRecord => FaultKind::Capture(CaptureKind::LongRecord),
        CapFault::BadFraction => FaultKind::Capture(CaptureKind::BadFraction),
        CapFault::TooManyRecords => FaultKind::Capture(CaptureKind::TooManyRecords),
        CapFault::BadShift => FaultKind::Capture(CaptureKind::BadShift),
        CapFault::Read => FaultKind::ReadFailed,
        CapFault::Write => FaultKind::WriteFailed,
        CapFault::Memory => FaultKind::OutOfMemory,
    }
}

fn trouble_kind(trouble: Trouble) -> FaultKind
    ensures { result ≡ trouble_kind trouble }
{
    match trouble {
        Trouble::Line(_, fault) => table_kind(fault),
        Trouble::Header(fault) => capture_kind(fault),
        Trouble::Record(_, RecordFault::Capture(fault)) => capture_kind(fault),
        Trouble::Record(_, RecordFault::NoId) => FaultKind::Capture(CaptureKind::NoId),
    }
}

impl InputFault for CompareInput {
    ghost telling = { compare_telling };

    ghost kind_of = { compare_kind };

    fn status(&self) -> u8 {
        match self {
            CompareInput::Input(..) => 3,
            CompareInput::Found(_) => 1,
        }
    }

    fn kind(&self) -> FaultKind {
        match *self {
            CompareInput::Input(_, trouble) => trouble_kind(trouble),
            CompareInput::Found(_) => FaultKind::Found,
        }
    }

    fn put<W: Write>(&self, writer: &mut W) -> Result<(), WriteFault> {
        match *self {
            CompareInput::Input(side, trouble) => put_trouble(writer, side, trouble),
            CompareInput::Found(finding) => put_finding(writer, finding),
        }
    }
}
