//! The program's job: a script becomes a picture, also beside a capture.

ghost use Rattle.std.specs.Prelude.{◌≡◌, IfErr};
ghost use Rattle.text.specs.Buffered.{writer_contents};
ghost use Rattle.drawing.specs.Words.{settings_given, words_of_values, greatest_moment, IsCapturePicture, IsDrawEnding, words_of_draws, options_of};

use crate::capture_run::draw_capture;
use crate::draw_run::draw;
use crate::options::{DrawOptions, DrawValues, options_given};
use job::{Ended, Errors, end_run};
use script::{Settings, Values, Watch, end_with_value, settings_given};
use std::alloc::{Allocator, Global};
use std::io::{Read, Write};
use text::octet_writer::BufWriter;
use wire_time::MAX_MOMENT;

/// Draws the run of the script that `reader` gives, by these values, through `answers`, with the text of a fault on
/// `errors`; and gives the writer of the answers back. At a fault of the script nothing is drawn.
pub fn answer_draw<B: Allocator, R: Read, W: Write + Drop, E: Errors, H: Watch>(
    alloc: Global,
    values: Values<'_>,
    draws: DrawValues<'_>,
    reader: &mut R,
    mut answers: BufWriter<W, B>,
    errors: &mut E,
    watch: &mut H,
) -> (Ended, W)
    ensures ending { IsDrawEnding (settings_given greatest_moment (words_of_values values.entry))
        (options_of (words_of_draws draws.entry)) (R.remaining reader.old) result.0
        (writer_contents W.contents answers) (W.contents result.1) (E.contents errors.old)
        (E.contents errors.new) }
    ensures unread { IfErr (settings_given greatest_moment (words_of_values values.entry))
        (λ _. reader.new ≡ reader.old) }
    ensures unused { IfErr (options_of (words_of_draws draws.entry))
        (λ _. reader.new ≡ reader.old) }
{
    let settings = match settings_given(values, MAX_MOMENT) {
        Ok(settings) => settings,
        Err(value) => return end_with_value(value, answers, errors),
    };
    match options_given(draws) {
        Ok(options) => {
            let run = draw(alloc, reader, &mut answers, settings, options, watch);
            end_run(run, answers, errors)
        }
        Err(value) => end_with_value(value, answers, errors),
    }
}

/// Draws the run of the script that `reader` gives and of the capture that `capture` gives, with settings whose moment is
/// judged as that of a replay, through `answers`, with the text of a fault on `errors`; and gives the writer of the
/// answers back. At a fault of the script, or of the file header of the capture, nothing is drawn. What was written is
/// let out before a fault is reported; after a failed write no other is tried.
pub fn answer_draw_of_capture<
    B: Allocator,
    R: Read,
    S: Read + Drop,
    W: Write + Drop,
    E: Errors,
    H: Watch,
>(
    alloc: Global,
    settings: Settings,
    options: DrawOptions,
    capture: S,
    reader: &mut R,
    mut answers: BufWriter<W, B>,
    errors: &mut E,
    watch: &mut H,
) -> (Ended, W)
    ensures { IsCapturePicture settings options (R.remaining reader.old) (S.remaining capture)
        result.0 (writer_contents W.contents answers) (W.contents result.1)
        (E.contents errors.old) (E.contents errors.new) }
{
    let run = draw_capture(
        alloc,
        reader,
        capture,
        &mut answers,
        settings,
        options,
        watch,
    );
    end_run(run, answers, errors)
}
