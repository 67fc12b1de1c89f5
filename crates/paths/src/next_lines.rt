//! The table of the streams that come to a port.

ghost use Rattle.text.specs.Writes.{Writes};
ghost use Rattle.paths.specs.NextLines.{count_text, entry_line, jitter_text, line_end, line_head, next_line, next_lines, offset_text, shortest_text, stream_line, tag_text, unknown_line};

use path_bounds::{Coming, Hop, is_at, moved};
use port_text::answer_text::{Part, WriteFault, put, put_parts};
use std::io::Write;
use traffic::Stream;

/// Writes the moment of a stream's first frame.
fn put_offset<W: Write>(writer: &mut W, offset: Option<u128>) -> Result<(), WriteFault>
    ensures { Writes result (W.contents writer.old) (W.contents writer.new) (offset_text offset) }
{
    match offset {
        None => put(writer, b" any "),
        Some(offset) => put_parts(
            writer,
            &[Part::Text(b" "), Part::Number(offset), Part::Text(b"ps ")],
        ),
    }
}

/// Writes whether frames have a tag.
fn put_tag<W: Write>(writer: &mut W, tagged: bool) -> Result<(), WriteFault>
    ensures { Writes result (W.contents writer.old) (W.contents writer.new) (tag_text tagged) }
{
    if tagged {
        put(writer, b" tagged")
    } else {
        put(writer, b"")
    }
}

/// Writes the length of the shortest frame, where it isn't that of the longest.
fn put_shortest<W: Write>(writer: &mut W, stream: &Stream) -> Result<(), WriteFault>
    ensures { Writes result (W.contents writer.old) (W.contents writer.new)
        (shortest_text stream.now) }
{
    if stream.shortest == stream.len {
        put(writer, b"")
    } else {
        put_parts(
            writer,
            &[
                Part::Text(b" shortest "),
                Part::Number(u128::from(stream.shortest)),
            ],
        )
    }
}

/// Writes the jitter, where there is any.
fn put_jitter<W: Write>(writer: &mut W, jitter: u128) -> Result<(), WriteFault>
    ensures { Writes result (W.contents writer.old) (W.contents writer.new) (jitter_text jitter) }
{
    if jitter == 0 {
        put(writer, b"")
    } else {
        put_parts(
            writer,
            &[
                Part::Text(b" jitter "),
                Part::Number(jitter),
                Part::Text(b"ps"),
            ],
        )
    }
}

/// Writes the beginning of a stream's line.
fn put_head<W: Write>(writer: &mut W, stream: &Stream) -> Result<(), WriteFault>
    ensures { Writes result (W.contents writer.old) (W.contents writer.new) (line_head stream.now) }
{
    put_parts(
        writer,
        &[
            Part::Text(b"stream "),
            Part::Number(u128::from(stream.first_id)),
            Part::Text(b" "),
            Part::Number(u128::from(stream.priority)),
            Part::Text(b" "),
            Part::Number(u128::from(stream.len)),
            Part::Text(b" "),
            Part::Number(stream.period),
            Part::Text(b"ps"),
        ],
    )
}

/// Writes the number of frames that come at once.
fn put_count<W: Write>(writer: &mut W, stream: &Stream) -> Result<(), WriteFault>
    ensures { Writes result (W.contents writer.old) (W.contents writer.new)
        (count_text stream.now) }
{
    put_parts(writer, &[Part::Number(u128::from(stream.count))])
}

/// Writes what may stand behind the number of frames.
fn put_parts_of<W: Write>(writer: &mut W, stream: &Stream) -> Result<(), WriteFault>
    ensures { Writes result (W.contents writer.old) (W.contents writer.new) (line_end stream.now) }
{
    put_tag(writer, stream.tagged)?;
    put_shortest(writer, stream)?;
    put_jitter(writer, stream.jitter)?;
    put(writer, b"\n")
}

/// Writes the line of a stream, as it stands in a table: without its deadline.
pub fn put_stream<W: Write>(writer: &mut W, stream: &Stream) -> Result<(), WriteFault>
    ensures { Writes result (W.contents writer.old) (W.contents writer.new)
        (stream_line stream.now) }
{
    put_head(writer, stream)?;
    put_offset(writer, stream.offset)?;
    put_count(writer, stream)?;
    put_parts_of(writer, stream)
}

/// Writes that it isn't known when the frames of a stream come.
fn put_unknown<W: Write>(writer: &mut W, stream: &Stream) -> Result<(), WriteFault>
    ensures { Writes result (W.contents writer.old) (W.contents writer.new)
        (unknown_line stream.now) }
{
    put_parts(
        writer,
        &[
            Part::Text(b"# stream "),
            Part::Number(u128::from(stream.first_id)),
            Part::Text(b": it is not known when its frames come\n"),
        ],
    )
}

/// Writes the line of a stream whose frames come so.
fn put_entry<W: Write>(writer: &mut W, stream: &Stream, coming: Coming) -> Result<(), WriteFault>
    ensures { Writes result (W.contents writer.old) (W.contents writer.new)
        (entry_line stream.now coming) }
{
    match coming {
        Coming::Within(span) => put_stream(writer, &moved(stream, span)),
        Coming::Awaited | Coming::Unknown | Coming::Never => put_unknown(writer, stream),
    }
}

/// Writes the line of a hop, where it is meant.
fn put_hop<W: Write>(writer: &mut W, at: bool, hop: &Hop) -> Result<(), WriteFault>
    ensures { Writes result (W.contents writer.old) (W.contents writer.new) (next_line at hop.now) }
{
    if at {
        put_entry(writer, &hop.stream, hop.coming)
    } else {
        put(writer, b"")
    }
}

/// Writes the table of the port of a number.
pub(crate) fn put_next<W: Write>(writer: &mut W, port: u32, hops: &[Hop]) -> Result<(), WriteFault>
    ensures { Writes result (W.contents writer.old) (W.contents writer.new)
        (next_lines port hops.now) }
{
    for hop in hops {
        put_hop(writer, is_at(hop, port), hop)?;
    }
    Ok(())
}
