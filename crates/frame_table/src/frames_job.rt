//! The program's job: a script becomes a table of its frames.

ghost use Rattle.std.specs.Prelude.{◌≡◌, IfErr};
ghost use Rattle.text.specs.Buffered.{writer_contents};
ghost use Rattle.frame_table.specs.Alerts.{IsWatchedByStreamEnding, IsWatchedCaptureEnding, IsWatchedEnding};
ghost use Rattle.frame_table.specs.Words.{IsByStreamEnding, IsCaptureEnding, IsEnding, greatest_moment, settings_given, whole_frames, words_of_values};

use crate::by_stream::run_frames_by_stream;
use crate::capture_run::run_frames_of_capture;
use crate::table_run::run_frames;
use job::{Ended, Errors, end_run};
use script::{Settings, Values, Watch, end_with_value, settings_given};
use std::alloc::Allocator;
use std::io::{Read, Write};
use text::octet_writer::BufWriter;
use wire_time::MAX_MOMENT;

/// Writes the table of the frames of the script that `reader` gives, by these values, through `answers`, with the text
/// of a fault on `errors`; and gives the writer of the answers back. What was written is let out before a fault is
/// reported; after a failed write no other is tried. Where a value is bad nothing is read.
pub fn answer_frames<A: Allocator, B: Allocator, R: Read, W: Write + Drop, E: Errors, H: Watch>(
    alloc: A,
    values: Values<'_>,
    reader: &mut R,
    mut answers: BufWriter<W, B>,
    errors: &mut E,
    watch: &mut H,
) -> (Ended, W)
    ensures ending { IsEnding whole_frames
        (settings_given greatest_moment (words_of_values values.entry))
        (R.remaining reader.old) result.0 (writer_contents W.contents answers) (W.contents result.1)
        (E.contents errors.old) (E.contents errors.new) }
    ensures watched { IsWatchedEnding H.alerted
        (settings_given greatest_moment (words_of_values values.entry))
        (R.remaining reader.old) result.0 watch.old watch.new }
    ensures unread { IfErr (settings_given greatest_moment (words_of_values values.entry))
        (λ _. reader.new ≡ reader.old) }
{
    match settings_given(values, MAX_MOMENT) {
        Ok(settings) => {
            let run = run_frames(alloc, reader, &mut answers, settings, watch);
            end_run(run, answers, errors)
        }
        Err(value) => end_with_value(value, answers, errors),
    }
}

/// Writes the table of the frames of a replay of the script that `reader` gives and of the capture that `capture`
/// gives, with settings whose moment is judged as that of a replay, through `answers`, with the text of a fault on
/// `errors`; and gives the writer of the answers back. What was written is let out before a fault is reported; after a
/// failed write no other is tried.
pub fn answer_frames_of_capture<
    A: Allocator,
    B: Allocator,
    R: Read,
    S: Read + Drop,
    W: Write + Drop,
    E: Errors,
    H: Watch,
>(
    alloc: A,
    settings: Settings,
    capture: S,
    reader: &mut R,
    mut answers: BufWriter<W, B>,
    errors: &mut E,
    watch: &mut H,
) -> (Ended, W)
    ensures watched { IsWatchedCaptureEnding H.alerted settings (R.remaining reader.old)
        (S.remaining capture) result.0 watch.old watch.new }
    ensures ending { IsCaptureEnding settings (R.remaining reader.old)
        (S.remaining capture) result.0 (writer_contents W.contents answers) (W.contents result.1)
        (E.contents errors.old) (E.contents errors.new) }
{
    let run = run_frames_of_capture(alloc, reader, capture, &mut answers, settings, watch);
    end_run(run, answers, errors)
}

/// The same as `answer_frames` with settings, and with the stream of each frame, by the table of streams that `table`
/// gives, as `run_frames_by_stream` writes it.
pub fn answer_frames_by_stream<
    A: Allocator,
    B: Allocator,
    R: Read,
    S: Read + Drop,
    W: Write + Drop,
    E: Errors,
    H: Watch,
>(
    alloc: A,
    settings: Settings,
    table: S,
    reader: &mut R,
    mut answers: BufWriter<W, B>,
    errors: &mut E,
    watch: &mut H,
) -> (Ended, W)
    ensures watched { IsWatchedByStreamEnding H.alerted settings (S.remaining table)
        (R.remaining reader.old) result.0 watch.old watch.new }
    ensures ending { IsByStreamEnding settings (S.remaining table) (R.remaining reader.old) result.0
        (writer_contents W.contents answers) (W.contents result.1) (E.contents errors.old)
        (E.contents errors.new) }
{
    let run = run_frames_by_stream(alloc, table, reader, &mut answers, settings, watch);
    end_run(run, answers, errors)
}
