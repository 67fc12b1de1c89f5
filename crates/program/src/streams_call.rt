//! A table of streams, and a script from a file, become a script; or the table becomes a capture.

ghost use Rattle.std.specs.Prelude.{◌≡◌, ◌≤◌, IfErr, Some, codes};
ghost use Rattle.std.specs.Str.{bytes_eq};
ghost use Rattle.text.specs.Buffered.{writer_contents};
ghost use Rattle.clap.specs.Matches.{first_value, found_of};
ghost use Rattle.program.specs.Given.{IsCaptureTo, IsGivenScript, IsGivenStreams, IsGivenTableCapture, IsIntoOpened, plan_in};
ghost use Rattle.wire_time.specs.Moment.{greatest_moment};

use crate::BUFFER;
use crate::options::streams_of;
use crate::replay_call::{
    STANDARD_INPUT, Unopened, create_beside, end_over_input, end_unbuffered, end_unopened, open,
};
use clap::ArgMatches;
use job::{Ended, Errors, end_told};
use script::{Watch, end_with_value};
use std::alloc::{Allocator, Global};
use std::io::{Read, Write};
use std::rt::Files;
use table_capture::answer_capture;
use text::octet_writer::BufWriter;
use traffic::{Plan, answer_streams, plan_given};

/// Writes the script of the table of streams that `reader` gives through `answers`, with the lines of the script among
/// the frames whose file the words name, if they do, and with the frames as they say, with the text of a fault on
/// `errors`; and gives the writer of the answers back. The values are judged first; then the file is opened, before
/// anything is read. Where it can't be, nothing is answered.
fn script_of_streams<F: Files, B: Allocator, R: Read, W: Write + Drop, E: Errors, H: Watch>(
    files: &F,
    alloc: Global,
    matches: &ArgMatches<'_>,
    reader: &mut R,
    answers: BufWriter<W, B>,
    errors: &mut E,
    watch: &mut H,
) -> (Ended, W)
    ensures ending { IsGivenScript (plan_in (found_of matches.now))
        (first_value (found_of matches.now) (codes "with")) (R.remaining reader.old) result.0
        (writer_contents W.contents answers) (W.contents result.1) (E.contents errors.old)
        (E.contents errors.new) }
    ensures unread { IfErr (plan_in (found_of matches.now)) (λ _. reader.new ≡ reader.old) }
{
    let words = streams_of(matches);
    let Some(path) = matches.get_str("with") else {
        return answer_streams(alloc, words, reader, b"".as_slice(), answers, errors, watch);
    };
    if let Err(value) = plan_given(words) {
        return end_with_value(value, answers, errors);
    }
    match open(files, path) {
        Ok(script) => answer_streams(alloc, words, reader, script, answers, errors, watch),
        Err(path) => end_unopened(path, answers, errors),
    }
}

/// Writes the capture of the table of streams that `reader` gives into a file that is open, with the text of a fault on
/// `errors`; and gives the writer of the answers back. Nothing is answered.
fn capture_into<B: Allocator, R: Read, W: Write + Drop, V: Write + Drop, E: Errors, H: Watch>(
    alloc: Global,
    plan: Plan,
    reader: &mut R,
    out: V,
    answers: BufWriter<W, B>,
    errors: &mut E,
    watch: &mut H,
) -> (Ended, W)
    requires { plan.from ≤ greatest_moment }
    ensures { IsIntoOpened plan (R.remaining reader.old) result.0
        (writer_contents W.contents answers) (W.contents result.1) (E.contents errors.old)
        (E.contents errors.new) }
{
    let Ok(capture) = BufWriter::with_capacity(alloc, BUFFER, out) else {
        return end_unbuffered(answers, errors);
    };
    let (ended, _out) = answer_capture(alloc, plan, reader, capture, errors, watch);
    end_told(ended, answers)
}

/// Writes the capture of the table of streams that `reader` gives to a path: through `answers` where that is `-`, and
/// else into its file, which is made or emptied, but not where it is the standard input.
fn capture_to<F: Files, B: Allocator, R: Read, W: Write + Drop, E: Errors, H: Watch>(
    files: &F,
    alloc: Global,
    plan: Plan,
    path: &str,
    reader: &mut R,
    answers: BufWriter<W, B>,
    errors: &mut E,
    watch: &mut H,
) -> (Ended, W)
    requires { plan.from ≤ greatest_moment }
    ensures { IsCaptureTo (bytes_eq path.now (codes "-")) path.now plan (R.remaining reader.old)
        result.0 (writer_contents W.contents answers) (W.contents result.1)
        (E.contents errors.old) (E.contents errors.new) }
{
    if path == "-" {
        return answer_capture(alloc, plan, reader, answers, errors, watch);
    }
    match create_beside(files, path, &[STANDARD_INPUT]) {
        Ok(out) => capture_into(alloc, plan, reader, out, answers, errors, watch),
        Err(Unopened::Path(_)) => end_unopened(path, answers, errors),
        Err(Unopened::Input(_)) => end_over_input(path, answers, errors),
    }
}

/// Writes the capture of the table of streams that `reader` gives to a path, with the frames as the words say. The
/// values are judged first; then the file is made, before anything is read.
fn capture_of_streams<F: Files, B: Allocator, R: Read, W: Write + Drop, E: Errors, H: Watch>(
    files: &F,
    alloc: Global,
    matches: &ArgMatches<'_>,
    path: &str,
    reader: &mut R,
    answers: BufWriter<W, B>,
    errors: &mut E,
    watch: &mut H,
) -> (Ended, W)
    ensures ending { IsGivenTableCapture (plan_in (found_of matches.now)) path.now
        (R.remaining reader.old) result.0 (writer_contents W.contents answers) (W.contents result.1)
        (E.contents errors.old) (E.contents errors.new) }
    ensures unread { IfErr (plan_in (found_of matches.now)) (λ _. reader.new ≡ reader.old) }
{
    match plan_given(streams_of(matches)) {
        Ok(plan) => capture_to(files, alloc, plan, path, reader, answers, errors, watch),
        Err(value) => end_with_value(value, answers, errors),
    }
}

/// Writes the script of the table of streams that `reader` gives, or, where the words name an output capture, the
/// capture of its frames, with the frames as the words say, and with the text of a fault on `errors`; and gives the
/// writer of the answers back. Where a file can't be opened or made, nothing is answered.
pub fn streams_given<F: Files, B: Allocator, R: Read, W: Write + Drop, E: Errors, H: Watch>(
    files: &F,
    alloc: Global,
    matches: &ArgMatches<'_>,
    reader: &mut R,
    answers: BufWriter<W, B>,
    errors: &mut E,
    watch: &mut H,
) -> (Ended, W)
    ensures ending { IsGivenStreams (plan_in (found_of matches.now))
        (first_value (found_of matches.now) (codes "capture"))
        (first_value (found_of matches.now) (codes "with")) (R.remaining reader.old) result.0
        (writer_contents W.contents answers) (W.contents result.1) (E.contents errors.old)
        (E.contents errors.new) }
    ensures unread { IfErr (plan_in (found_of matches.now)) (λ _. reader.new ≡ reader.old) }
{
    match matches.get_str("capture") {
        None => script_of_streams(files, alloc, matches, reader, answers, errors, watch),
        Some(path) => capture_of_streams(
            files, alloc, matches, path, reader, answers, errors, watch,
        ),
    }
}
