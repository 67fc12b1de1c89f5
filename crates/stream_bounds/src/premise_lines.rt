//! The lines of what is taken for granted: the classes that are kept apart, and those that send nothing.

ghost use Rattle.std.specs.Prelude.{◌≡◌, ◌<◌};
ghost use Rattle.abstract_port.specs.AbstractPort.{plan_asked};
ghost use Rattle.text.specs.Writes.{Writes};
ghost use Rattle.stream_bounds.specs.Answers.{has_stream, is_silent};
ghost use Rattle.stream_bounds.specs.BoundLines.{premise_lines, silent_classes, silent_line};
ghost use Rattle.wire_time.specs.declared.TheConstants.{CLASSES};

use crate::class_lines::put_flagged;
use crate::classes::{class_of, is_class};
use crate::settings::BoundsSettings;
use crate::shared::is_any;
use abstract_port::Change;
use gates::gate_list::Schedule;
use port_text::answer_text::{WriteFault, put};
use schedule_check::{class_count, classes_apart, map_after, put_apart};
use std::io::Write;
use traffic::Stream;
use wire_time::CLASSES;

/// Whether a stream is of a class.
fn has_stream(settings: &BoundsSettings, change: &Change, streams: &[Stream], class: u8) -> bool
    ensures { result ≡ has_stream settings.now change.now streams.now class }
{
    streams.iter().any(|stream| is_class(class, class_of(settings, change, stream)))
}

/// Whether it is taken for granted that a class sends nothing: so it is said, and it has no streams.
pub fn is_silent(settings: &BoundsSettings, change: &Change, streams: &[Stream], class: u8) -> bool
    requires { class < CLASSES }
    ensures { result ≡ is_silent settings.now change.now streams.now class }
{
    settings.silent[class as usize] && !has_stream(settings, change, streams, class)
}

/// Of each class whether it is taken for granted that it sends nothing.
fn silent_classes(settings: &BoundsSettings, change: &Change, streams: &[Stream]) -> [bool; CLASSES]
    ensures { result ≡ silent_classes settings.now change.now streams.now }
{
    [
        is_silent(settings, change, streams, 0),
        is_silent(settings, change, streams, 1),
        is_silent(settings, change, streams, 2),
        is_silent(settings, change, streams, 3),
        is_silent(settings, change, streams, 4),
        is_silent(settings, change, streams, 5),
        is_silent(settings, change, streams, 6),
        is_silent(settings, change, streams, 7),
    ]
}

/// Writes the line of the classes of which it is taken for granted that they send nothing, where any are given.
fn put_silent<W: Write>(
    writer: &mut W,
    settings: &BoundsSettings,
    change: &Change,
    streams: &[Stream],
) -> Result<(), WriteFault>
    ensures { Writes result (W.contents writer.old) (W.contents writer.new)
        (silent_line settings.now change.now streams.now) }
{
    if is_any(&settings.silent) {
        put_flagged(
            writer,
            b"silent",
            &silent_classes(settings, change, streams),
        )
    } else {
        put(writer, b"")
    }
}

/// Writes the line of the classes that a schedule keeps apart, and that of those that send nothing.
pub fn put_premises<W: Write>(
    writer: &mut W,
    settings: &BoundsSettings,
    change: &Change,
    schedule: &Schedule,
    streams: &[Stream],
) -> Result<(), WriteFault>
    requires plan { schedule.now ≡ plan_asked change.now }
    ensures { Writes result (W.contents writer.old) (W.contents writer.new)
        (premise_lines settings.now change.now streams.now) }
{
    let count = class_count(map_after(settings.map, change.map));
    put_apart(writer, &classes_apart(schedule, count))?;
    put_silent(writer, settings, change, streams)
}
