//! The rows of a table, and their text.

ghost use Rattle.std.specs.Prelude.{◌≡◌};
ghost use Rattle.text.specs.Writes.{Writes};
ghost use Rattle.port_text.specs.Part.{text_of};
ghost use Rattle.script.specs.Alerts.{Alerting};
ghost use Rattle.frame_table.specs.Alerts.{judged_row};
ghost use Rattle.frame_table.specs.StreamOf.{stream_by};
ghost use Rattle.frame_table.specs.RowText.{end_text, fate_text, has_column, head_line, number_text, row_line, start_text, stream_comma, stream_text, wait_text};

use crate::deadline::{deadline_text, tell_judged};
use crate::streams::{Streams, stream_by};
use abstract_port::{Dropped, Start};
use port_text::answer_text::{Part, WriteFault, dropped_name, put, put_parts};
use script::Watch;
use std::alloc::Allocator;
use std::io::Write;
use traffic::Stream;

/// A frame that came.
#[derive(Clone, Copy, Debug, PartialEq, Eq)]
pub struct Arrival {
    /// The sender's name for the frame.
    pub id: u64,
    /// Its octets, as `Frame::len` counts them.
    pub len: u32,
    /// The moment at which it came, in picoseconds.
    pub at: u128,
}

/// What became of a frame.
#[derive(Clone, Copy, Debug, PartialEq, Eq)]
pub enum Fate {
    /// It started.
    Sent(Start),
    /// It still waits at the end of the run.
    Left,
    /// It was dropped when it came.
    Lost(Dropped),
}

/// A row of the table: a frame, and what became of it.
#[derive(Clone, Copy, Debug, PartialEq, Eq)]
pub struct FrameRow {
    /// The frame.
    pub arrival: Arrival,
    /// Its class, where its priority has one: 0 to 7.
    pub class: Option<u8>,
    /// What became of it.
    pub fate: Fate,
}

fn class_part<'a>(class: Option<u8>) -> Part<'a>
    ensures { text_of result ≡ number_text class }
{
    match class {
        None => Part::Text(b""),
        Some(class) => Part::Number(u128::from(class)),
    }
}

/// The moment at which a frame started, in picoseconds, if it did.
fn start_part<'a>(fate: &Fate) -> Part<'a>
    ensures { text_of result ≡ start_text fate.now }
{
    match fate {
        Fate::Sent(start) => Part::Number(start.at),
        Fate::Left | Fate::Lost(_) => Part::Text(b""),
    }
}

/// The moment from which the wire was free after it, in picoseconds.
fn end_part<'a>(fate: &Fate) -> Part<'a>
    ensures { text_of result ≡ end_text fate.now }
{
    match fate {
        Fate::Sent(start) => Part::Number(start.end),
        Fate::Left | Fate::Lost(_) => Part::Text(b""),
    }
}

/// How long it waited from the moment at which it came, in picoseconds.
fn wait_part<'a>(came: u128, fate: &Fate) -> Part<'a>
    ensures { text_of result ≡ wait_text came fate.now }
{
    match fate {
        Fate::Sent(start) => Part::Number(start.at.saturating_sub(came)),
        Fate::Left | Fate::Lost(_) => Part::Text(b""),
    }
}

fn fate_name(fate: &Fate) -> &'static [u8]
    ensures { result.now ≡ fate_text fate.now }
{
    match fate {
        Fate::Sent(_) => b"sent",
        Fate::Left => b"left",
        Fate::Lost(why) => dropped_name(*why),
    }
}

/// What stands before the stream of a frame, where there is a column of streams.
fn stream_comma<'a, A: Allocator>(streams: &Option<Streams<A>>) -> Part<'a>
    ensures { text_of result ≡ stream_comma streams.now }
{
    match streams {
        None => Part::Text(b""),
        Some(_) => Part::Text(b","),
    }
}

/// The stream of a frame, if it is of one.
fn stream_part<'a>(stream: &Option<Stream>) -> Part<'a>
    ensures { text_of result ≡ stream_text stream.now }
{
    match stream {
        None => Part::Text(b""),
        Some(stream) => Part::Number(u128::from(stream.first_id)),
    }
}

/// Whether there is a column of deadlines.
fn has_column<A: Allocator>(streams: &Option<Streams<A>>) -> bool
    ensures { result ≡ has_column streams.now }
{
    match streams {
        None => false,
        Some(streams) => streams.has_deadlines(),
    }
}

/// The names of the columns.
fn head_text<A: Allocator>(streams: &Option<Streams<A>>) -> &'static [u8]
    ensures { result.now ≡ head_line streams.now }
{
    if has_column(streams) {
        return b"id,class,len,arrival_ps,start_ps,end_ps,wait_ps,fate,stream,deadline\n";
    }
    match streams {
        None => b"id,class,len,arrival_ps,start_ps,end_ps,wait_ps,fate\n",
        Some(_) => b"id,class,len,arrival_ps,start_ps,end_ps,wait_ps,fate,stream\n",
    }
}

/// Writes the names of the columns. At a fault a prefix of them is written.
pub(crate) fn put_head<A: Allocator, W: Write>(
    streams: &Option<Streams<A>>,
    writer: &mut W,
) -> Result<(), WriteFault>
    ensures { Writes result (W.contents writer.old) (W.contents writer.new)
        (head_line streams.now) }
{
    put(writer, head_text(streams))
}

/// Writes a row, whose frame is of this stream, if it is of one. At a fault a prefix of it is written.
fn put_fields<A: Allocator, W: Write>(
    streams: &Option<Streams<A>>,
    stream: &Option<Stream>,
    writer: &mut W,
    row: &FrameRow,
) -> Result<(), WriteFault>
    requires { stream.now ≡ stream_by streams.now row.now.arrival.id }
    ensures { Writes result (W.contents writer.old) (W.contents writer.new)
        (row_line streams.now row.now) }
{
    put_parts(
        writer,
        &[
            Part::Number(u128::from(row.arrival.id)),
            Part::Text(b","),
            class_part(row.class),
            Part::Text(b","),
            Part::Number(u128::from(row.arrival.len)),
            Part::Text(b","),
            Part::Number(row.arrival.at),
            Part::Text(b","),
            start_part(&row.fate),
            Part::Text(b","),
            end_part(&row.fate),
            Part::Text(b","),
            wait_part(row.arrival.at, &row.fate),
            Part::Text(b","),
            Part::Text(fate_name(&row.fate)),
            stream_comma(streams),
            stream_part(stream),
            Part::Text(deadline_text(has_column(streams), stream, row.arrival.at, &row.fate)),
            Part::Text(b"\n"),
        ],
    )
}

/// Writes a row, and calls who watches where the stream of its frame has a deadline. At a fault a prefix of it is
/// written, and nobody is called.
pub(crate) fn put_row<A: Allocator, W: Write, H: Watch>(
    streams: &Option<Streams<A>>,
    writer: &mut W,
    row: &FrameRow,
    watch: &mut H,
) -> Result<(), WriteFault>
    ensures text { Writes result (W.contents writer.old) (W.contents writer.new)
        (row_line streams.now row.now) }
    ensures alerts { Alerting H.alerted
        (judged_row streams.now row.now) result watch.old watch.new }
{
    let stream = stream_by(streams, row.arrival.id);
    put_fields(streams, &stream, writer, row)?;
    tell_judged(&stream, row, watch);
    Ok(())
}
