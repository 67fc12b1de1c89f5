//! The program's job: a table of streams becomes a script.

ghost use Rattle.std.specs.Prelude.{◌≡◌, ◌≤◌, IfErr, IfOk};
ghost use Rattle.text.specs.Buffered.{writer_contents};
ghost use Rattle.traffic.specs.Words.{octets_of, IsStreamsEnding, drawn_where, from_given, greatest_moment, plan_given, timing_given, words_of_streams};
ghost use Rattle.traffic.specs.declared.streams_job.TheConstants.{GREATEST_SEED};
ghost use Rattle.text.specs.Numbers.{number_in};

use crate::plan::{Plan, Timing};
use crate::streams::write_streams;
use job::{Ended, Errors, end_run};
use script::{BadValue, Watch, end_with_value};
use std::alloc::Allocator;
use std::io::{Read, Write};
use text::octet_writer::BufWriter;
use text::times::moment;
use text::words::number;
use wire_time::MAX_MOMENT;

/// The greatest seed.
const GREATEST_SEED: u128 = u64::MAX as u128;

/// The words that stand as the values of the options.
#[derive(Clone, Copy, Debug)]
pub struct StreamsWords<'a> {
    /// The moment from which offsets count; 0 where none is given.
    pub from: Option<&'a str>,
    /// Whether each frame comes as late as it may.
    pub late: bool,
    /// What draws when frames come, and how long they are; not where they come as late as they may.
    pub seed: Option<&'a str>,
}

/// The moment that is given, in picoseconds, 0 where none is; or that it is bad: no moment, or after the greatest one.
fn from_given(from: Option<&str>) -> Result<u128, BadValue>
    ensures given { result ≡ from_given (octets_of from.entry) }
    ensures within { IfOk result (λ moment. moment ≤ greatest_moment) }
{
    let text = from.unwrap_or("0");
    match moment(text.as_bytes(), MAX_MOMENT) {
        Some(moment) => Ok(moment),
        None => Err(BadValue::From),
    }
}

/// When frames come by a seed; or that it is bad: no number of 64 bits.
fn drawn_by(seed: &str) -> Result<Timing, BadValue>
    ensures { result ≡ drawn_where (number_in 10 GREATEST_SEED seed.now) }
{
    match number(seed.as_bytes(), GREATEST_SEED) {
        Some(seed) => Ok(Timing::Drawn(seed as u64)),
        None => Err(BadValue::Seed),
    }
}

/// When frames come; or that the seed is bad, or stands beside the word that they come late.
fn timing_given(late: bool, seed: Option<&str>) -> Result<Timing, BadValue>
    ensures { result ≡ timing_given late (octets_of seed.entry) }
{
    match seed {
        Some(_) if late => Err(BadValue::Seed),
        Some(seed) => drawn_by(seed),
        None if late => Ok(Timing::Latest),
        None => Ok(Timing::Earliest),
    }
}

/// What is given: a bad moment is refused, and a bad seed.
pub fn plan_given(words: StreamsWords<'_>) -> Result<Plan, BadValue>
    ensures given { result ≡ plan_given (words_of_streams words.entry) }
    ensures within { IfOk result (λ plan. plan.from ≤ greatest_moment) }
{
    let from = match from_given(words.from) {
        Ok(from) => from,
        Err(value) => return Err(value),
    };
    match timing_given(words.late, words.seed) {
        Ok(timing) => Ok(Plan { from, timing }),
        Err(value) => Err(value),
    }
}

/// Writes the script of the table of streams that `reader` gives through `answers`, with the lines of `script` among
/// the frames, and with the text of a fault on `errors`; and gives the writer of the answers back. The words
/// say how the frames come; where one is bad nothing is read. What was written is let out before a
/// fault is reported; after a failed write no other is tried.
pub fn answer_streams<
    A: Allocator,
    B: Allocator,
    R: Read,
    S: Read + Drop,
    W: Write + Drop,
    E: Errors,
    H: Watch,
>(
    alloc: A,
    words: StreamsWords<'_>,
    reader: &mut R,
    script: S,
    mut answers: BufWriter<W, B>,
    errors: &mut E,
    watch: &mut H,
) -> (Ended, W)
    ensures ending { IsStreamsEnding (plan_given (words_of_streams words.entry))
        (R.remaining reader.old) (S.remaining script) result.0 (writer_contents W.contents answers)
        (W.contents result.1) (E.contents errors.old) (E.contents errors.new) }
    ensures unread { IfErr (plan_given (words_of_streams words.entry))
        (λ _. reader.new ≡ reader.old) }
{
    match plan_given(words) {
        Ok(plan) => {
            let run = write_streams(alloc, reader, script, &mut answers, plan, watch);
            end_run(run, answers, errors)
        }
        Err(value) => end_with_value(value, answers, errors),
    }
}
