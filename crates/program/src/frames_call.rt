//! The table of the frames of a script, which may have the streams of a table from a file, or run beside a capture from
//! one.

ghost use Rattle.std.specs.Prelude.{◌≡◌, IfErr, IfOk, Some, codes};
ghost use Rattle.text.specs.Buffered.{writer_contents};
ghost use Rattle.clap.specs.Matches.{first_value, found_of};
ghost use Rattle.capture.specs.declared.writer.TheConstants.{CAPTURE_END};
ghost use Rattle.program.specs.Given.{IsGivenCapture, IsGivenFrames, IsGivenTable, settings_beside, settings_in};
ghost use Rattle.program.specs.Reading.{form_in};
ghost use Rattle.program.specs.Strict.{IsWatchedBeside, IsWatchedByFiles, IsWatchedTable};
ghost use Rattle.wire_time.specs.Moment.{greatest_moment};

use crate::capture_input::{classic_reader, end_unformed, form_given};
use crate::noted::Noted;
use crate::options::values_of;
use crate::replay_call::{end_unopened, open};
use capture::CAPTURE_END;
use clap::ArgMatches;
use frame_table::{answer_frames, answer_frames_by_stream, answer_frames_of_capture};
use job::{Ended, Errors};
use script::{Watch, end_with_value, settings_given};
use std::alloc::{Allocator, Global};
use std::io::{Read, Write};
use std::rt::Files;
use text::octet_writer::BufWriter;
use wire_time::MAX_MOMENT;

/// Writes the table of the frames of a replay of the script that `reader` gives and of the capture in the file of this
/// path, by the values that the words give to the options. The values are judged first, as those of a replay; then the
/// file is opened.
fn frames_of_capture<F: Files, B: Allocator, R: Read, W: Write + Drop, E: Errors, H: Watch>(
    files: &F,
    alloc: Global,
    matches: &ArgMatches<'_>,
    path: &str,
    reader: &mut R,
    answers: BufWriter<W, B>,
    errors: &mut E,
    watch: &mut H,
    noted: &mut Noted,
) -> (Ended, W)
    ensures ending { IsGivenCapture (settings_in CAPTURE_END (found_of matches.now))
        (form_in (found_of matches.now)) path.now
        (R.remaining reader.old) result.0 (writer_contents W.contents answers) (W.contents result.1)
        (E.contents errors.old) (E.contents errors.new) }
    ensures watched { IfOk (form_in (found_of matches.now))
        (λ _. IsWatchedBeside H.alerted (settings_in CAPTURE_END (found_of matches.now))
        (R.remaining reader.old) result.0 watch.old watch.new) }
    ensures unread { IfErr (settings_in CAPTURE_END (found_of matches.now))
        (λ _. reader.new ≡ reader.old) }
{
    let settings = match settings_given(values_of(matches), CAPTURE_END) {
        Ok(settings) => settings,
        Err(value) => return end_with_value(value, answers, errors),
    };
    let form = match form_given(matches) {
        Ok(form) => form,
        Err(bad) => return end_unformed(bad, answers, errors),
    };
    match open(files, path) {
        Ok(capture) => {
            let mut turned = None;
            let capture = classic_reader(alloc, capture, form, &mut turned);
            let ended = answer_frames_of_capture(
                alloc, settings, capture, reader, answers, errors, watch,
            );
            noted.take_capture(&turned);
            ended
        }
        Err(path) => end_unopened(path, answers, errors),
    }
}

/// Writes the table of the frames of the script that `reader` gives, by the values that the words give to the options,
/// and with the stream of each frame where the words name a file with a table of streams. The values are judged first;
/// then the file is opened, before anything is read.
fn frames_of_script<F: Files, B: Allocator, R: Read, W: Write + Drop, E: Errors, H: Watch>(
    files: &F,
    alloc: Global,
    matches: &ArgMatches<'_>,
    reader: &mut R,
    answers: BufWriter<W, B>,
    errors: &mut E,
    watch: &mut H,
) -> (Ended, W)
    ensures ending { IsGivenTable (settings_in greatest_moment (found_of matches.now))
        (first_value (found_of matches.now) (codes "by-stream")) (R.remaining reader.old) result.0
        (writer_contents W.contents answers) (W.contents result.1) (E.contents errors.old)
        (E.contents errors.new) }
    ensures watched { IsWatchedTable H.alerted (settings_in greatest_moment (found_of matches.now))
        (first_value (found_of matches.now) (codes "by-stream"))
        (R.remaining reader.old) result.0 watch.old watch.new }
    ensures unread { IfErr (settings_in greatest_moment (found_of matches.now))
        (λ _. reader.new ≡ reader.old) }
{
    let values = values_of(matches);
    let Some(path) = matches.get_str("by-stream") else {
        return answer_frames(alloc, values, reader, answers, errors, watch);
    };
    let settings = match settings_given(values, MAX_MOMENT) {
        Ok(settings) => settings,
        Err(value) => return end_with_value(value, answers, errors),
    };
    match open(files, path) {
        Ok(table) => {
            answer_frames_by_stream(alloc, settings, table, reader, answers, errors, watch)
        }
        Err(path) => end_unopened(path, answers, errors),
    }
}

/// Writes the table of the frames of the script that `reader` gives, or, where the words name a file with a capture, of
/// a replay of both, by the values that the words give to the options, through `answers`, with the text of a fault on
/// `errors`; and gives the writer of the answers back. Where the file can't be opened, nothing is answered.
pub fn frames_given<F: Files, B: Allocator, R: Read, W: Write + Drop, E: Errors, H: Watch>(
    files: &F,
    alloc: Global,
    matches: &ArgMatches<'_>,
    reader: &mut R,
    answers: BufWriter<W, B>,
    errors: &mut E,
    watch: &mut H,
    noted: &mut Noted,
) -> (Ended, W)
    ensures ending { IsGivenFrames (found_of matches.now)
        (first_value (found_of matches.now) (codes "capture"))
        (first_value (found_of matches.now) (codes "by-stream")) (R.remaining reader.old) result.0
        (writer_contents W.contents answers) (W.contents result.1) (E.contents errors.old)
        (E.contents errors.new) }
    ensures watched { IsWatchedByFiles H.alerted (found_of matches.now)
        (first_value (found_of matches.now) (codes "capture"))
        (first_value (found_of matches.now) (codes "by-stream"))
        (R.remaining reader.old) result.0 watch.old watch.new }
    ensures unread { IfErr (settings_beside (first_value (found_of matches.now) (codes "capture"))
        (found_of matches.now)) (λ _. reader.new ≡ reader.old) }
{
    match matches.get_str("capture") {
        None => frames_of_script(files, alloc, matches, reader, answers, errors, watch),
        Some(path) => frames_of_capture(
            files, alloc, matches, path, reader, answers, errors, watch, noted,
        ),
    }
}
