//! The picture of the run of a script, which may run beside a capture from a file.

ghost use Rattle.std.specs.Prelude.{◌≡◌, IfErr, codes};
ghost use Rattle.text.specs.Buffered.{writer_contents};
ghost use Rattle.clap.specs.Matches.{first_value, found_of};
ghost use Rattle.capture.specs.declared.writer.TheConstants.{CAPTURE_END};
ghost use Rattle.drawing.specs.PictureEnd.{IsDrawEnding};
ghost use Rattle.program.specs.Given.{IsGivenPicture, IsPictureBeside, draws_in, settings_beside, settings_in};
ghost use Rattle.program.specs.Reading.{form_in};
ghost use Rattle.wire_time.specs.Moment.{greatest_moment};

use crate::capture_input::{classic_reader, end_unformed, form_given};
use crate::noted::Noted;
use crate::options::{draws_of, values_of};
use crate::replay_call::{end_unopened, open};
use capture::CAPTURE_END;
use clap::ArgMatches;
use drawing::{answer_draw, answer_draw_of_capture, options_given};
use job::{Ended, Errors};
use script::{Watch, end_with_value, settings_given};
use std::alloc::{Allocator, Global};
use std::io::{Read, Write};
use std::rt::Files;
use text::octet_writer::BufWriter;

/// Draws the run of the script that `reader` gives, by the values that the words give to the options.
fn draw_script<B: Allocator, R: Read, W: Write + Drop, E: Errors, H: Watch>(
    alloc: Global,
    matches: &ArgMatches<'_>,
    reader: &mut R,
    answers: BufWriter<W, B>,
    errors: &mut E,
    watch: &mut H,
) -> (Ended, W)
    ensures ending { IsDrawEnding (settings_in greatest_moment (found_of matches.now))
        (draws_in (found_of matches.now)) (R.remaining reader.old) result.0
        (writer_contents W.contents answers) (W.contents result.1) (E.contents errors.old)
        (E.contents errors.new) }
    ensures unread { IfErr (settings_in greatest_moment (found_of matches.now))
        (λ _. reader.new ≡ reader.old) }
    ensures unused { IfErr (draws_in (found_of matches.now)) (λ _. reader.new ≡ reader.old) }
{
    answer_draw(
        alloc,
        values_of(matches),
        draws_of(matches),
        reader,
        answers,
        errors,
        watch,
    )
}

/// Draws the run of the script that `reader` gives and of the capture in the file of this path, by the values that the
/// words give to the options. The values are judged first: those of the port, of the picture, and of the capture's
/// form; then the file is opened.
fn draw_beside<F: Files, B: Allocator, R: Read, W: Write + Drop, E: Errors, H: Watch>(
    files: &F,
    alloc: Global,
    matches: &ArgMatches<'_>,
    path: &str,
    reader: &mut R,
    answers: BufWriter<W, B>,
    errors: &mut E,
    watch: &mut H,
    noted: &mut Noted,
) -> (Ended, W)
    ensures ending { IsPictureBeside (settings_in CAPTURE_END (found_of matches.now))
        (draws_in (found_of matches.now)) (form_in (found_of matches.now)) path.now
        (R.remaining reader.old) result.0 (writer_contents W.contents answers) (W.contents result.1)
        (E.contents errors.old) (E.contents errors.new) }
    ensures unread { IfErr (settings_in CAPTURE_END (found_of matches.now))
        (λ _. reader.new ≡ reader.old) }
    ensures unused { IfErr (draws_in (found_of matches.now)) (λ _. reader.new ≡ reader.old) }
{
    let settings = match settings_given(values_of(matches), CAPTURE_END) {
        Ok(settings) => settings,
        Err(value) => return end_with_value(value, answers, errors),
    };
    let options = match options_given(draws_of(matches)) {
        Ok(options) => options,
        Err(value) => return end_with_value(value, answers, errors),
    };
    let form = match form_given(matches) {
        Ok(form) => form,
        Err(bad) => return end_unformed(bad, answers, errors),
    };
    match open(files, path) {
        Ok(capture) => {
            let mut turned = None;
            let capture = classic_reader(alloc, capture, form, &mut turned);
            let ended = answer_draw_of_capture(
                alloc, settings, options, capture, reader, answers, errors, watch,
            );
            noted.take_capture(&turned);
            ended
        }
        Err(path) => end_unopened(path, answers, errors),
    }
}

/// Draws the run of the script that `reader` gives, or, where the words name a file with a capture, of a replay of both,
/// by the values that the words give to the options, through `answers`, with the text of a fault on `errors`; and gives
/// the writer of the answers back. At a fault of the script, and where the file can't be opened, nothing is drawn.
pub fn draw_given<F: Files, B: Allocator, R: Read, W: Write + Drop, E: Errors, H: Watch>(
    files: &F,
    alloc: Global,
    matches: &ArgMatches<'_>,
    reader: &mut R,
    answers: BufWriter<W, B>,
    errors: &mut E,
    watch: &mut H,
    noted: &mut Noted,
) -> (Ended, W)
    ensures ending { IsGivenPicture (found_of matches.now)
        (first_value (found_of matches.now) (codes "capture")) (R.remaining reader.old) result.0
        (writer_contents W.contents answers) (W.contents result.1) (E.contents errors.old)
        (E.contents errors.new) }
    ensures unread { IfErr
        (settings_beside (first_value (found_of matches.now) (codes "capture"))
        (found_of matches.now)) (λ _. reader.new ≡ reader.old) }
    ensures unused { IfErr (draws_in (found_of matches.now)) (λ _. reader.new ≡ reader.old) }
{
    match matches.get_str("capture") {
        None => draw_script(alloc, matches, reader, answers, errors, watch),
        Some(path) => draw_beside(
            files, alloc, matches, path, reader, answers, errors, watch, noted,
        ),
    }
}
