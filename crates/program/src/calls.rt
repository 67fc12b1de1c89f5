//! What is answered to the words of the program.

ghost use Rattle.std.specs.Prelude.{◌≡◌, [], IfErr, IfSome, map, option_map, string_bytes, true};
ghost use Rattle.text.specs.Buffered.{writer_buffer, writer_contents};
ghost use Rattle.clap.specs.Values.{kind_of};
ghost use Rattle.clap.specs.Matches.{found_of, subcommand_name_of};
ghost use Rattle.program.specs.Jobs.{IsFound, IsJobEnding, IsProgramEnding, IsHelp, IsRefusedBy, IsUsage, IsWatchedEnding, Tells};
ghost use Rattle.program.specs.Strict.{IsWatchedJob};
ghost use Rattle.schedule_check.specs.Alerts as Checks;
ghost use Rattle.schedule_check.specs.Checked.{whole_check};
ghost use Rattle.schedule_check.specs.Windows.{IsTeller, Teller};
ghost use Rattle.program.specs.Plain.{input_of, lines_in};
ghost use Rattle.program.specs.Table.{name_of};
ghost use Rattle.program.specs.Given.{checks_in, settings_in};
ghost use Rattle.script.specs.Alerts as Scripts;
ghost use Rattle.script.specs.ScriptEnd.{IsEnding, whole_script};
ghost use Rattle.wire_time.specs.Moment.{greatest_moment};

use crate::bounds_call::bounds_given;
use crate::compare_call::compare_given;
use crate::draw_call::draw_given;
use crate::end_forgotten;
use crate::frames_call::frames_given;
use crate::job_name::JobName;
use crate::noted::Noted;
use crate::onlooker::{FaultText, Onlooker};
use crate::options::{JOBS, checks_of, command, is_given, looks_of, value_of, values_of};
use crate::paths_call::paths_given;
use crate::piped::Piped;
use crate::plain_input::{PassedOver, changes_lines, plain_reader};
use crate::plan_call::plan_for;
use crate::progress::Progress;
use crate::replay_call::{first_octets, replay_given};
use crate::streams_call::streams_given;
use clap::error::ErrorKind;
use clap::{ArgMatches, Error};
use hints::{put_others, put_passed};
use job::{Ended, Errors, end_told};
use schedule_check::answer_check;
use script::{Watch, answer_script};
use std::alloc::{Allocator, Global};
use std::io::{Read, Write};
use std::rt::Files;
use std::time::Clock;
use text::octet_writer::{BufWriter, put};

/// Answers the script that `reader` gives, by the values that the words give to the options, through `answers`, with
/// the text of a fault on `errors`; and gives the writer of the answers back.
pub fn answer_given<B: Allocator, R: Read, W: Write + Drop, E: Errors, H: Watch>(
    alloc: Global,
    matches: &ArgMatches<'_>,
    reader: &mut R,
    answers: BufWriter<W, B>,
    errors: &mut E,
    watch: &mut H,
) -> (Ended, W)
    ensures ending { IsEnding whole_script (settings_in greatest_moment (found_of matches.now))
        (R.remaining reader.old) result.0 (writer_contents W.contents answers) (W.contents result.1)
        (E.contents errors.old) (E.contents errors.new) }
    ensures watched { Scripts.IsWatchedEnding H.alerted
        (settings_in greatest_moment (found_of matches.now))
        (R.remaining reader.old) result.0 watch.old watch.new }
    ensures unread { IfErr (settings_in greatest_moment (found_of matches.now))
        (λ _. reader.new ≡ reader.old) }
{
    answer_script(alloc, values_of(matches), reader, answers, errors, watch)
}

/// Checks the schedules that `reader` gives, by the values that the words give to the options, through `answers`, with
/// the text of a fault on `errors`; and gives the writer of the answers back.
pub fn check_given<B: Allocator, R: Read, W: Write + Drop, E: Errors, H: Watch>(
    alloc: Global,
    matches: &ArgMatches<'_>,
    reader: &mut R,
    answers: BufWriter<W, B>,
    errors: &mut E,
    watch: &mut H,
) -> (Ended, W)
    ensures ending { (tell : Teller) → IsTeller tell →
        IsEnding (whole_check tell) (checks_in (found_of matches.now))
        (R.remaining reader.old) result.0 (writer_contents W.contents answers) (W.contents result.1)
        (E.contents errors.old) (E.contents errors.new) }
    ensures watched { Checks.IsWatchedEnding H.alerted (checks_in (found_of matches.now))
        (R.remaining reader.old) result.0 watch.old watch.new }
    ensures unread { IfErr (checks_in (found_of matches.now)) (λ _. reader.new ≡ reader.old) }
{
    answer_check(alloc, checks_of(matches), reader, answers, errors, watch)
}

/// Reports a text of words that are refused on `errors`, and gives the writer of the answers back. Nothing is answered.
fn end_usage<B: Allocator, W: Write + Drop, E: Write>(
    text: &str,
    answers: BufWriter<W, B>,
    errors: &mut E,
) -> (Ended, W)
    ensures { IsUsage text.now result.0 (writer_contents W.contents answers) (W.contents result.1)
        (E.contents errors.old) (E.contents errors.new) }
{
    let told = put(errors, text.as_bytes()).is_ok();
    end_told(Ended { status: 2, told }, answers)
}

/// Writes a text through a buffer, and lets it out. Whether both are done.
fn is_let_out<B: Allocator, W: Write + Drop>(text: &str, answers: &mut BufWriter<W, B>) -> bool
    ensures told { Tells result (writer_contents W.contents answers.old)
        (writer_contents W.contents answers.new) text.now }
    ensures empty { result ≡ true → writer_buffer answers.new ≡ [] }
{
    if put(answers, text.as_bytes()).is_err() {
        return false;
    }
    answers.flush().is_ok()
}

/// Answers a text that the words ask for, lets it out, and gives the writer of the answers back.
fn end_help<B: Allocator, W: Write + Drop>(text: &str, mut answers: BufWriter<W, B>) -> (Ended, W)
    ensures { IsHelp text.now result.0 (writer_contents W.contents answers) (W.contents result.1) }
{
    let told = is_let_out(text, &mut answers);
    end_told(Ended { status: 0, told }, answers)
}

/// Reports why the words are refused on `errors`, or the help that they ask for through `answers`. The status is 2, for
/// help 0, and 4 when out of memory.
fn answer_refusal<B: Allocator, W: Write + Drop, E: Write>(
    alloc: Global,
    error: &Error,
    answers: BufWriter<W, B>,
    errors: &mut E,
) -> (Ended, W)
    ensures { IsRefusedBy (kind_of error.now) result.0 (writer_contents W.contents answers)
        (W.contents result.1) (E.contents errors.old) (E.contents errors.new) }
{
    let Ok(text) = format!(in alloc; "{error}") else {
        return end_forgotten(answers, errors);
    };
    match error.kind() {
        ErrorKind::OutOfMemory => end_forgotten(answers, errors),
        ErrorKind::DisplayHelp | ErrorKind::DisplayVersion => end_help(text.as_str(), answers),
        _ => end_usage(text.as_str(), answers, errors),
    }
}

/// Answers a job with its options, as the words give them, and notes what was met in its inputs.
fn answer_job<F: Files, B: Allocator, R: Read, W: Write + Drop, E: Errors, H: Watch>(
    files: &F,
    alloc: Global,
    name: JobName,
    matches: &ArgMatches<'_>,
    reader: &mut R,
    answers: BufWriter<W, B>,
    errors: &mut E,
    watch: &mut H,
    noted: &mut Noted,
) -> (Ended, W)
    ensures ending { IsJobEnding name (found_of matches.now) (R.remaining reader.old) result.0
        (writer_contents W.contents answers) (W.contents result.1) (E.contents errors.old)
        (E.contents errors.new) }
    ensures watched { IsWatchedJob H.alerted name (found_of matches.now)
        (R.remaining reader.old) result.0 watch.old watch.new }
{
    match name {
        JobName::Compare => compare_given(files, alloc, matches, answers, errors, noted),
        JobName::Script => answer_given(alloc, matches, reader, answers, errors, watch),
        JobName::Replay => replay_given(
            files, alloc, matches, reader, answers, errors, watch, noted,
        ),
        JobName::Check => check_given(alloc, matches, reader, answers, errors, watch),
        JobName::Streams => streams_given(files, alloc, matches, reader, answers, errors, watch),
        JobName::Bounds => bounds_given(files, alloc, matches, reader, answers, errors, watch),
        JobName::Paths => paths_given(files, alloc, matches, reader, answers, errors, watch),
        JobName::Plan => plan_for(files, alloc, matches, answers, errors, watch),
        JobName::Draw => draw_given(files, alloc, matches, reader, answers, errors, watch, noted),
        JobName::Frames => frames_given(
            files, alloc, matches, reader, answers, errors, watch, noted,
        ),
    }
}

/// Reports the fault of a job that ended like this, if it has one, but not where nobody reads the answers any more.
fn report_fault<F: Files, C: Clock, P: Write + Drop, E: Write>(
    files: &F,
    matches: &ArgMatches<'_>,
    text: &FaultText,
    ended: Ended,
    is_closed: bool,
    noted: &Noted,
    onlooker: &mut Onlooker<'_, '_, C, P, E>,
)
    ensures { onlooker.new.found ≡ onlooker.old.found }
{
    if ended.status == 4 && is_closed {
        return;
    }
    if let Some(block) = &noted.block {
        onlooker.report_block(text, block, noted.is_of_two);
        return;
    }
    let capture = first_octets(files, matches, text);
    onlooker.report(text, capture.as_slice());
}

/// Answers a job, and reports on standard error how it ended, but not where nobody reads the answers any more.
fn answer_watched<
    F: Files,
    B: Allocator,
    R: Read,
    W: Write + Drop,
    E: Write,
    C: Clock,
    P: Write + Drop,
>(
    files: &F,
    alloc: Global,
    name: JobName,
    matches: &ArgMatches<'_>,
    reader: &mut R,
    answers: BufWriter<Piped<W>, B>,
    errors: &mut E,
    progress: &mut Progress<'_, C, P>,
    terminal: bool,
) -> (Ended, Piped<W>)
    ensures { IsWatchedEnding name (found_of matches.now) (R.remaining reader.old) result.0
        (writer_contents (⟦<Piped<W> as Write>⟧.contents) answers)
        ((⟦<Piped<W> as Write>⟧.contents) result.1) }
{
    if is_given(matches, "progress") {
        progress.start();
    }
    let looks = looks_of(matches, terminal);
    let mut text = FaultText::new();
    let mut noted = Noted::nothing();
    let mut onlooker = Onlooker::new(alloc, progress, errors, looks);
    let (ended, writer) = answer_job(
        files,
        alloc,
        name,
        matches,
        reader,
        answers,
        &mut text,
        &mut onlooker,
        &mut noted,
    );
    onlooker.warn_of_nothing(name, ended, writer.is_written());
    report_fault(
        files,
        matches,
        &text,
        ended,
        writer.is_closed(),
        &noted,
        &mut onlooker,
    );
    onlooker.tell_rounded(noted.rounded);
    onlooker.tell_passed(&noted.passed);
    (looks.judged(ended, onlooker.has_found()), writer)
}

/// Writes what was passed over in the lines of an input.
fn put_passed_over<E: Write>(errors: &mut E, passed: &PassedOver) {
    let _ = put_passed(errors, &passed.pasted);
    let _ = put_others(errors, &passed.others);
    let _ = errors.flush();
}

/// Answers a job on the lines that the words ask for, in place of those of the standard input, and reports what was
/// passed over.
fn answer_plain<
    F: Files,
    B: Allocator,
    R: Read,
    W: Write + Drop,
    E: Write,
    C: Clock,
    P: Write + Drop,
>(
    files: &F,
    alloc: Global,
    name: JobName,
    matches: &ArgMatches<'_>,
    reader: &mut R,
    answers: BufWriter<Piped<W>, B>,
    errors: &mut E,
    progress: &mut Progress<'_, C, P>,
    terminal: bool,
) -> (Ended, Piped<W>)
    ensures { IsWatchedEnding name (found_of matches.now)
        (option_map (lines_in (found_of matches.now)) (R.remaining reader.old)) result.0
        (writer_contents (⟦<Piped<W> as Write>⟧.contents) answers)
        ((⟦<Piped<W> as Write>⟧.contents) result.1) }
{
    let mut passed = PassedOver::none();
    let tolerant = is_given(matches, "tolerant");
    let device = value_of(matches, "device");
    let mut lines = plain_reader(alloc, reader, tolerant, device, &mut passed);
    let ended = answer_watched(
        files, alloc, name, matches, &mut lines, answers, errors, progress, terminal,
    );
    drop(lines);
    put_passed_over(errors, &passed);
    ended
}

/// Answers a job on the lines of the standard input, as the words ask for them.
fn answer_asked<
    F: Files,
    B: Allocator,
    R: Read,
    W: Write + Drop,
    E: Write,
    C: Clock,
    P: Write + Drop,
>(
    files: &F,
    alloc: Global,
    name: JobName,
    matches: &ArgMatches<'_>,
    reader: &mut R,
    answers: BufWriter<Piped<W>, B>,
    errors: &mut E,
    progress: &mut Progress<'_, C, P>,
    terminal: bool,
) -> (Ended, Piped<W>)
    ensures { IsWatchedEnding name (found_of matches.now)
        (input_of name (found_of matches.now) (R.remaining reader.old)) result.0
        (writer_contents (⟦<Piped<W> as Write>⟧.contents) answers)
        ((⟦<Piped<W> as Write>⟧.contents) result.1) }
{
    if changes_lines(name, matches) {
        return answer_plain(
            files, alloc, name, matches, reader, answers, errors, progress, terminal,
        );
    }
    answer_watched(
        files, alloc, name, matches, reader, answers, errors, progress, terminal,
    )
}

/// The job that the words name, and what they give it.
fn job_of<'m, 'a>(matches: &'m ArgMatches<'a>) -> Option<(JobName, &'m ArgMatches<'a>)>
    ensures some { IfSome result (λ found. IsFound matches.now found.0 found.1.now) }
    ensures none { result ≡ None → (job : JobName) →
        subcommand_name_of matches.now ≡ Some (name_of job) → ⊥ }
{
    for job in &JOBS {
        if let Some(given) = matches.subcommand_matches(job.name.text()) {
            return Some((job.name, given));
        }
    }
    None
}

/// Answers the words of the program, the first of which is its name: a job, help, or why they are refused. What is
/// answered goes through `answers`, whose writer is given back, and the text of a fault to `errors`, which may be a
/// terminal; how far a replay has come is said through `progress`, where the words ask for it.
pub(crate) fn answer_words<
    F: Files,
    B: Allocator,
    R: Read,
    W: Write + Drop,
    E: Write,
    C: Clock,
    P: Write + Drop,
>(
    files: &F,
    alloc: Global,
    words: &[String],
    reader: &mut R,
    answers: BufWriter<Piped<W>, B>,
    errors: &mut E,
    progress: &mut Progress<'_, C, P>,
    terminal: bool,
) -> (Ended, Piped<W>)
    ensures { IsProgramEnding (map string_bytes words.now) (R.remaining reader.old) result.0
        (writer_contents (⟦<Piped<W> as Write>⟧.contents) answers)
        ((⟦<Piped<W> as Write>⟧.contents) result.1) (E.contents errors.old)
        (E.contents errors.new) }
{
    let Ok(command) = command(alloc) else {
        return end_forgotten(answers, errors);
    };
    let matches = match command.try_get_matches_from(words) {
        Ok(matches) => matches,
        Err(error) => return answer_refusal(alloc, &error, answers, errors),
    };
    match job_of(&matches) {
        Some((name, given)) => answer_asked(
            files, alloc, name, given, reader, answers, errors, progress, terminal,
        ),
        // (the parser refuses words without a job)
        None => end_usage("", answers, errors),
    }
}
