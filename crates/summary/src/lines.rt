//! The lines of a summary.

ghost use Rattle.std.specs.Prelude.{◌≡◌, ◌≤◌, ◌&&◌, ◌==◌, [], if◌then◌else◌};
ghost use Rattle.text.specs.Writes.{Writes};
ghost use Rattle.wire_time.specs.Moment.{greatest_moment};
ghost use Rattle.port_text.specs.Part.{text_of};
ghost use Rattle.summary.specs.Lines.{class_line, dropped_of, first_text, open_line, open_text, share_of, time_since, wait_text, wire_line};

use crate::waits::Waits;
use abstract_port::Counters;
use port_text::answer_text::{Part, WriteFault, put_parts};
use std::io::Write;

/// A number of picoseconds, or - where no frame has started.
fn wait_part<'a>(waits: &Waits, number: u128) -> Part<'a>
    ensures { text_of result ≡ wait_text waits.now number }
{
    if waits.count == 0 {
        Part::Text(b"-")
    } else {
        Part::Number(number)
    }
}

/// The frames of a class that were dropped.
fn dropped_of(counters: &Counters) -> u128
    ensures { result ≡ dropped_of counters.now }
{
    let [runt, too_long, over_sdu, full] = counters.dropped;
    u128::from(runt) + u128::from(too_long) + u128::from(over_sdu) + u128::from(full)
}

/// Writes the line of a class.
fn put_class_line<W: Write>(
    class: u8,
    counters: &Counters,
    waits: &Waits,
    most: u64,
    writer: &mut W,
) -> Result<(), WriteFault>
    ensures { Writes result (W.contents writer.old) (W.contents writer.new)
        (class_line class counters.now waits.now most) }
{
    put_parts(
        writer,
        &[
            Part::Text(b"summary class "),
            Part::Number(u128::from(class)),
            Part::Text(b" queued "),
            Part::Number(u128::from(counters.accepted)),
            Part::Text(b" sent "),
            Part::Number(u128::from(counters.sent)),
            Part::Text(b" dropped "),
            Part::Number(dropped_of(counters)),
            Part::Text(b" octets "),
            Part::Number(u128::from(counters.sent_octets)),
            Part::Text(b" least "),
            wait_part(waits, waits.least),
            Part::Text(b" mean "),
            wait_part(waits, waits.mean()),
            Part::Text(b" greatest "),
            wait_part(waits, waits.greatest),
            Part::Text(b" most "),
            Part::Number(u128::from(most)),
            Part::Text(b"\n"),
        ],
    )
}

/// Writes the line of a class that had frames: what it has counted, how long its frames waited, and the greatest number
/// that waited at once.
pub(crate) fn put_class_text<W: Write>(
    class: u8,
    counters: &Counters,
    waits: &Waits,
    most: u64,
    writer: &mut W,
) -> Result<(), WriteFault>
    ensures { Writes result (W.contents writer.old) (W.contents writer.new)
        (if counters.now.accepted == 0
        && dropped_of counters.now == 0 then [] else class_line class counters.now waits.now most) }
{
    if counters.accepted == 0 && dropped_of(counters) == 0 {
        return Ok(());
    }
    put_class_line(class, counters, waits, most, writer)
}

/// The share of a time in parts per million, rounded down; 0 of no time.
fn share_of(busy: u128, time: u128) -> u128
    requires { busy ≤ greatest_moment }
    ensures { result ≡ share_of busy time }
{
    if time == 0 {
        0
    } else {
        busy * 1_000_000 / time
    }
}

/// The time up to a moment since the first frame was queued; none where none was.
fn time_since(first: Option<u128>, now: u128) -> u128
    ensures { result ≡ time_since first now }
{
    match first {
        Some(first) => now.saturating_sub(first),
        None => 0,
    }
}

/// The moment at which the first frame was queued, or - where none was.
fn first_part<'a>(first: Option<u128>) -> Part<'a>
    ensures { text_of result ≡ first_text first }
{
    match first {
        Some(first) => Part::Number(first),
        None => Part::Text(b"-"),
    }
}

/// Writes how long the wire was busy, in picoseconds, and the share of the time up to a moment; and the moment at which
/// the first frame was queued, with the share of the time since.
pub(crate) fn put_wire_line<W: Write>(
    busy: u128,
    now: u128,
    first: Option<u128>,
    writer: &mut W,
) -> Result<(), WriteFault>
    requires { busy ≤ greatest_moment }
    ensures { Writes result (W.contents writer.old) (W.contents writer.new)
        (wire_line busy now first) }
{
    put_parts(
        writer,
        &[
            Part::Text(b"summary wire busy "),
            Part::Number(busy),
            Part::Text(b" ppm "),
            Part::Number(share_of(busy, now)),
            Part::Text(b" from "),
            first_part(first),
            Part::Text(b" ppm "),
            Part::Number(share_of(busy, time_since(first, now))),
            Part::Text(b"\n"),
        ],
    )
}

/// Writes how many frames were queued before the change moment of the first command, in picoseconds, where a command was
/// accepted and there were such frames: all gates were open for them.
pub(crate) fn put_open_text<W: Write>(
    early: u128,
    change: Option<u128>,
    writer: &mut W,
) -> Result<(), WriteFault>
    ensures { Writes result (W.contents writer.old) (W.contents writer.new)
        (open_text early change) }
{
    match change {
        Some(change) if early > 0 => put_open_line(early, change, writer),
        _ => Ok(()),
    }
}

/// Writes the line of the frames that were queued before a moment, in picoseconds.
fn put_open_line<W: Write>(early: u128, change: u128, writer: &mut W) -> Result<(), WriteFault>
    ensures { Writes result (W.contents writer.old) (W.contents writer.new)
        (open_line early change) }
{
    put_parts(
        writer,
        &[
            Part::Text(b"summary open "),
            Part::Number(early),
            Part::Text(b" frames before "),
            Part::Number(change),
            Part::Text(b"\n"),
        ],
    )
}
