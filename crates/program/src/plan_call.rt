//! A schedule for the streams of a table from a file.

ghost use Rattle.std.specs.Prelude.{codes};
ghost use Rattle.text.specs.Buffered.{writer_contents};
ghost use Rattle.clap.specs.Matches.{first_value, found_of};
ghost use Rattle.program.specs.Given.{IsGivenPlan, flag_in, settings_in};
ghost use Rattle.wire_time.specs.Moment.{greatest_moment};

use crate::options::plan_of;
use crate::replay_call::{end_unopened, open};
use clap::ArgMatches;
use job::{Ended, Errors, end_told};
use plan::{answer_plan, end_with_plan_value, plan_given};
use script::Watch;
use std::alloc::{Allocator, Global};
use std::io::Write;
use std::rt::Files;
use text::octet_writer::BufWriter;

/// Plans for the streams of the table whose file the words name, through `answers`, with the text of a fault on
/// `errors`; and gives the writer of the answers back. The values are judged first; then the file is opened. Where it
/// can't be, nothing is answered. The standard input isn't read.
pub fn plan_for<F: Files, B: Allocator, W: Write + Drop, E: Errors, H: Watch>(
    files: &F,
    alloc: Global,
    matches: &ArgMatches<'_>,
    answers: BufWriter<W, B>,
    errors: &mut E,
    watch: &mut H,
) -> (Ended, W)
    ensures { IsGivenPlan (settings_in greatest_moment (found_of matches.now))
        (flag_in (codes "explain") (found_of matches.now))
        (first_value (found_of matches.now) (codes "table")) result.0
        (writer_contents W.contents answers) (W.contents result.1) (E.contents errors.old)
        (E.contents errors.new) }
{
    let words = plan_of(matches);
    let Some(path) = matches.get_str("table") else {
        let ended = Ended {
            status: 2,
            told: true,
        };
        return end_told(ended, answers);
    };
    let settings = match plan_given(&words) {
        Ok(settings) => settings,
        Err(value) => return end_with_plan_value(value, answers, errors),
    };
    match open(files, path) {
        Ok(mut table) => answer_plan(alloc, &settings, &mut table, answers, errors, watch),
        Err(path) => end_unopened(path, answers, errors),
    }
}
