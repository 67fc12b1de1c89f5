//! Reads the frames of a table.

ghost use Rattle.std.specs.Prelude.{◌≡◌, IfSome};
ghost use Rattle.text.specs.LineReader.{script_left};
ghost use Rattle.text.specs.Script.{script_of};
ghost use Rattle.compare.specs.Frames.{columns_in, frame_in, limit_fault, lines_reading, row_frame, rows_reading, table_reading};
ghost use Rattle.compare.specs.Read.{Reads, line_failed};

use crate::faults::{TableFault, Trouble};
use crate::fields::{field, place_of, without_return};
use crate::frame::Frame;
use crate::settings::By;
use job::Fault;
use std::alloc::Allocator;
use std::io::Read;
use text::line_reader::{Limit, LineFault, LineReader};
use text::words::number;

/// The places of the columns that count.
#[derive(Clone, Copy, Debug, PartialEq, Eq)]
pub struct Columns {
    /// That of the IDs.
    pub id: usize,
    /// That of the moments at which frames started.
    pub start: usize,
}

/// The columns that a line names.
fn columns_in(line: &[u8]) -> Option<Columns>
    ensures { result ≡ columns_in line.now }
{
    let line = without_return(line);
    let id = place_of(b"id", line)?;
    let start = place_of(b"start_ps", line)?;
    Some(Columns { id, start })
}

/// The frame with an ID that started at a moment.
fn row_frame(by: By, id: u64, moment: u128) -> Frame
    ensures { result ≡ row_frame by id moment }
{
    let key = match by {
        By::Id => id,
        By::Order | By::Payload => 0,
    };
    Frame {
        name: id,
        moment,
        key,
    }
}

/// The frame of a row, if it started; none of a line without an octet.
fn frame_in(by: By, columns: Columns, line: &[u8]) -> Result<Option<Frame>, TableFault>
    ensures { result ≡ frame_in by columns line.now }
{
    let line = without_return(line);
    if line.is_empty() {
        return Ok(None);
    }
    let Some(id) = field(line, columns.id) else {
        return Err(TableFault::FieldCount);
    };
    let Some(start) = field(line, columns.start) else {
        return Err(TableFault::FieldCount);
    };
    let Some(id) = number(id, u128::from(u64::MAX)) else {
        return Err(TableFault::BadNumber);
    };
    if start.is_empty() {
        return Ok(None);
    }
    let Some(moment) = number(start, u128::MAX) else {
        return Err(TableFault::BadNumber);
    };
    Ok(Some(row_frame(by, id as u64, moment)))
}

/// The fault of a line that passes a limit.
fn limit_fault(limit: Limit) -> TableFault
    ensures { result ≡ limit_fault limit }
{
    match limit {
        Limit::LongLine => TableFault::LongLine,
        Limit::TooManyLines => TableFault::TooManyLines,
    }
}

/// Why there is no next line.
fn line_failed(fault: LineFault) -> Fault<Trouble>
    ensures { result ≡ line_failed fault }
{
    match fault {
        LineFault::Limit(number, limit) => Fault::Input(Trouble::Line(number, limit_fault(limit))),
        LineFault::Read => Fault::Read,
    }
}

/// Reads the rows that are to come, and puts their frames behind others.
fn read_rows<A: Allocator, B: Allocator, R: Read + Drop>(
    lines: &mut LineReader<R, A>,
    by: By,
    columns: Columns,
    frames: &mut Vec<Frame, B>,
) -> Result<(), Fault<Trouble>>
    ensures { IfSome (script_left R.remaining lines.old)
        (λ script. Reads result (rows_reading by columns script) frames.old.items
        frames.new.items) }
{
    'rows: loop {
        let more = match lines.advance() {
            Ok(more) => more,
            Err(fault) => return Err(line_failed(fault)),
        };
        if !more {
            return Ok(());
        }
        match frame_in(by, columns, lines.line()) {
            Ok(None) => {}
            Ok(Some(frame)) => match frames.push(frame) {
                Ok(()) => {}
                Err(_) => return Err(Fault::Memory),
            },
            Err(fault) => return Err(Fault::Input(Trouble::Line(lines.line_number(), fault))),
        }
    }
}

/// Reads the names of the columns, and then the rows.
fn read_lines<A: Allocator, B: Allocator, R: Read + Drop>(
    lines: &mut LineReader<R, A>,
    by: By,
    frames: &mut Vec<Frame, B>,
) -> Result<(), Fault<Trouble>>
    ensures { IfSome (script_left R.remaining lines.old)
        (λ script. Reads result (lines_reading by script) frames.old.items frames.new.items) }
{
    let more = match lines.advance() {
        Ok(more) => more,
        Err(fault) => return Err(line_failed(fault)),
    };
    if !more {
        return Err(Fault::Input(Trouble::Line(1, TableFault::NoColumn)));
    }
    let Some(columns) = columns_in(lines.line()) else {
        let number = lines.line_number();
        return Err(Fault::Input(Trouble::Line(number, TableFault::NoColumn)));
    };
    read_rows(lines, by, columns, frames)
}

/// Reads a table, and puts its frames behind others. Where payloads are to be compared nothing is read.
pub(crate) fn read_table<A: Allocator, B: Allocator, R: Read + Drop>(
    alloc: A,
    table: R,
    by: By,
    frames: &mut Vec<Frame, B>,
) -> Result<(), Fault<Trouble>>
where
    A: Clone,
    ensures { IfSome (R.remaining table)
        (λ octets. Reads result (table_reading by (script_of octets)) frames.old.items
        frames.new.items) }
{
    if by == By::Payload {
        return Err(Fault::Input(Trouble::Line(1, TableFault::NoPayload)));
    }
    let Ok(mut lines) = LineReader::new(alloc, table) else {
        return Err(Fault::Memory);
    };
    read_lines(&mut lines, by, frames)
}
