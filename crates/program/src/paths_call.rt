//! The delays of the streams of a network from a file.

ghost use Rattle.std.specs.Prelude.{◌≡◌, IfErr, Some, codes};
ghost use Rattle.text.specs.Buffered.{writer_contents};
ghost use Rattle.clap.specs.Matches.{first_value, found_of};
ghost use Rattle.program.specs.Given.{IsGivenPaths, bounds_in};

use crate::bounds_call::bounds_settings;
use crate::options::value_of;
use crate::replay_call::{end_unopened, open};
use clap::ArgMatches;
use job::{Ended, Errors, end_told};
use paths::answer_paths;
use script::Watch;
use std::alloc::{Allocator, Global};
use std::io::{Read, Write};
use std::rt::Files;
use stream_bounds::end_with_bounds_value;
use text::octet_writer::BufWriter;

/// Answers about the schedules that `reader` gives and the network whose file the words name, through `answers`, with
/// the text of a fault on `errors`; and gives the writer of the answers back. The values are judged first; then the file
/// is opened, before anything is read. Where it can't be, nothing is answered.
pub fn paths_given<F: Files, B: Allocator, R: Read, W: Write + Drop, E: Errors, H: Watch>(
    files: &F,
    alloc: Global,
    matches: &ArgMatches<'_>,
    reader: &mut R,
    answers: BufWriter<W, B>,
    errors: &mut E,
    watch: &mut H,
) -> (Ended, W)
    ensures ending { IsGivenPaths (bounds_in (found_of matches.now))
        (first_value (found_of matches.now) (codes "next"))
        (first_value (found_of matches.now) (codes "network")) (R.remaining reader.old) result.0
        (writer_contents W.contents answers) (W.contents result.1) (E.contents errors.old)
        (E.contents errors.new) }
    ensures unread { IfErr (bounds_in (found_of matches.now)) (λ _. reader.new ≡ reader.old) }
{
    let next = value_of(matches, "next");
    let Some(path) = matches.get_str("network") else {
        let ended = Ended {
            status: 2,
            told: true,
        };
        return end_told(ended, answers);
    };
    let settings = match bounds_settings(matches) {
        Ok(settings) => settings,
        Err(value) => return end_with_bounds_value(value, answers, errors),
    };
    match open(files, path) {
        Ok(network) => answer_paths(
            alloc, &settings, next, network, reader, answers, errors, watch,
        ),
        Err(path) => end_unopened(path, answers, errors),
    }
}
