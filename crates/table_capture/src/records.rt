//! The records of frames, one after another.

ghost use Rattle.std.specs.Prelude.{◌≡◌};
ghost use Rattle.table_capture.specs.Words.{AreCarried, IsCarried, IsRoom, IsTournament, Writes, capture_of, left_of_all, record_of, records_of, spelled_record, written_format};

use crate::frame_octets::{frame_octets, put_front};
use capture::CaptureWriter;
use text::octet_writer::{PutLine, WriteFault};
use traffic::{Coming, Node, Turn, next_frame};

/// Writes the record of a frame. At a fault a prefix of it is written.
fn put_frame<W: PutLine>(
    writer: &mut W,
    capture: &mut CaptureWriter,
    room: &mut [u8],
    coming: &Coming,
) -> Result<(), WriteFault>
    requires room { IsRoom room.old }
    requires carried { IsCarried coming.now }
    ensures room { IsRoom room.new }
    ensures record { Writes result (W.contents writer.old) (W.contents writer.new)
        (spelled_record written_format (record_of coming.now)) }
{
    let frame = &coming.frame;
    put_front(room, frame);
    let octets = frame_octets(room, frame);
    match capture.put(writer, coming.moment, frame.len, octets) {
        Ok(()) => Ok(()),
        Err(_) => Err(WriteFault),
    }
}

/// Writes the records of the frames of streams that are to come, by moment.
fn write_frames<W: PutLine>(
    writer: &mut W,
    capture: &mut CaptureWriter,
    room: &mut [u8],
    turns: &mut [Turn],
    nodes: &mut [Node],
) -> Result<(), WriteFault>
    requires room { IsRoom room.old }
    requires tournament { IsTournament turns.old nodes.old }
    requires carried { AreCarried (left_of_all turns.old) }
    ensures { Writes result (W.contents writer.old) (W.contents writer.new)
        (records_of (left_of_all turns.old)) }
{
    while let Some(coming) = next_frame(turns, nodes) {
        put_frame(writer, capture, room, &coming)?;
    }
    Ok(())
}

/// Writes a capture of the frames of streams that are to come. At a fault a prefix of it is written.
pub(crate) fn put_capture<W: PutLine>(
    writer: &mut W,
    room: &mut [u8],
    turns: &mut [Turn],
    nodes: &mut [Node],
) -> Result<(), WriteFault>
    requires room { IsRoom room.old }
    requires tournament { IsTournament turns.old nodes.old }
    requires carried { AreCarried (left_of_all turns.old) }
    ensures { Writes result (W.contents writer.old) (W.contents writer.new)
        (capture_of (left_of_all turns.old)) }
{
    let Ok(mut capture) = CaptureWriter::begin(writer) else {
        return Err(WriteFault);
    };
    write_frames(writer, &mut capture, room, turns, nodes)
}
