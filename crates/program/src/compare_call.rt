//! Two captures or tables from files, compared.

ghost use Rattle.std.specs.Prelude.{◌≡◌, ◌^◌, ◌-◌, IfOk};
ghost use Rattle.text.specs.Buffered.{writer_contents};
ghost use Rattle.clap.specs.Matches.{found_of};
ghost use Rattle.job.specs.RunEnd.{IsUnanswered};
ghost use Rattle.job.specs.Texts.{IsTold};
ghost use Rattle.script.specs.Given.{octets_of};
ghost use Rattle.compare.specs.CompareEnd.{IsCompareEnding};
ghost use Rattle.program.specs.Compared.{IsComparedByFiles, IsGivenCompare, by_in, compare_by, compare_in, compare_text, within_in};

use crate::capture_input::{CaptureForm, classic_reader};
use crate::noted::Noted;
use crate::options::value_of;
use crate::replay_call::{end_unopened, open};
use clap::ArgMatches;
use compare::{By, CompareSettings, answer_compare, by_given, within_given};
use job::{Ended, Errors, FaultKind, ValueKind, end_told};
use pcapng::CaptureFormat;
use port_text::answer_text::put;
use std::alloc::{Allocator, Global};
use std::io::{Read, Write};
use std::rt::Files;
use text::octet_writer::BufWriter;

/// Which word that says how inputs are compared is bad.
#[derive(Clone, Copy, Debug, PartialEq, Eq)]
pub(crate) enum BadCompare {
    /// That of which frames are compared, which comes first.
    By,
    /// That of by how much they may differ.
    Within,
}

/// A capture is in either format, as its first octets say.
const ANY_CAPTURE: CaptureForm = CaptureForm {
    format: CaptureFormat::Auto,
    has_fcs: false,
};

/// Which frames are compared, as a word says; those of the same order, where there is none.
fn by_word(word: Option<&str>) -> Option<By>
    ensures { result ≡ by_in (octets_of word.entry) }
{
    match word {
        None => Some(By::Order),
        Some(word) => by_given(word.as_bytes()),
    }
}

/// By how much they may differ, as a word says, if there is one.
fn within_word(word: Option<&str>) -> Option<Option<u128>>
    ensures { result ≡ within_in (octets_of word.entry) }
{
    let Some(word) = word else {
        return Some(None);
    };
    match within_given(word.as_bytes()) {
        Some(time) => Some(Some(time)),
        None => None,
    }
}

/// Both, or the word that is bad.
fn compare_by(by: Option<By>, within: Option<Option<u128>>) -> Result<CompareSettings, BadCompare>
    ensures { result ≡ compare_by by within }
{
    let Some(by) = by else {
        return Err(BadCompare::By);
    };
    let Some(within) = within else {
        return Err(BadCompare::Within);
    };
    Ok(CompareSettings { by, within })
}

/// How inputs are compared, as the words say.
fn settings_of(matches: &ArgMatches<'_>) -> Result<CompareSettings, BadCompare>
    ensures { result ≡ compare_in (found_of matches.now) }
{
    let by = by_word(value_of(matches, "by"));
    let within = within_word(value_of(matches, "within"));
    compare_by(by, within)
}

/// The text of a word that is bad.
fn compare_text(bad: BadCompare) -> &'static [u8]
    ensures { result.now ≡ compare_text bad }
{
    match bad {
        BadCompare::By => b"taprio_port: bad value of --by\n",
        BadCompare::Within => b"taprio_port: bad value of --within\n",
    }
}

/// Writes the text of a word that is bad. The exit status that goes with it is 2, also where that write fails.
fn say_compare<W: Write>(bad: BadCompare, writer: &mut W) -> Ended
    ensures status { result.status ≡ 2 }
    ensures told { IsTold result.told (W.contents writer.old) (W.contents writer.new)
        (compare_text bad) }
{
    let told = put(writer, compare_text(bad)).is_ok();
    Ended { status: 2, told }
}

/// Whose value is bad.
fn kind_of(bad: BadCompare) -> ValueKind {
    match bad {
        BadCompare::By => ValueKind::By,
        BadCompare::Within => ValueKind::Within,
    }
}

/// Reports that a word is bad, and gives the writer of the answers back. Nothing is answered.
fn end_uncompared<B: Allocator, W: Write + Drop, E: Errors>(
    bad: BadCompare,
    answers: BufWriter<W, B>,
    errors: &mut E,
) -> (Ended, W)
    ensures { IsUnanswered 2 (compare_text bad) result.0 (writer_contents W.contents answers)
        (W.contents result.1) (E.contents errors.old) (E.contents errors.new) }
{
    let ended = say_compare(bad, errors);
    errors.found(FaultKind::Value(kind_of(bad)));
    end_told(ended, answers)
}

/// Two open files.
#[derive(Drop)]
struct Both<T: Drop> {
    first: T,
    second: T,
}

/// Opens both files in their order, or gives back the path of the one that can't be opened.
fn open_both<'a, F: Files>(
    files: &F,
    first: &'a str,
    second: &'a str,
) -> Result<Both<F::File>, &'a str> {
    let first = open(files, first)?;
    let second = open(files, second)?;
    Ok(Both { first, second })
}

/// Compares two open files, each in its form, and notes what was met in them.
fn compare_files<T: Read + Drop, B: Allocator, W: Write + Drop, E: Errors>(
    alloc: Global,
    settings: CompareSettings,
    files: Both<T>,
    answers: BufWriter<W, B>,
    errors: &mut E,
    noted: &mut Noted,
) -> (Ended, W)
    ensures { IsComparedByFiles settings result.0 (writer_contents W.contents answers)
        (W.contents result.1) (E.contents errors.old) (E.contents errors.new) }
{
    let Both { first, second } = files;
    let (mut one, mut two) = (None, None);
    let first = classic_reader(alloc, first, ANY_CAPTURE, &mut one);
    let second = classic_reader(alloc, second, ANY_CAPTURE, &mut two);
    let ended = answer_compare(alloc, settings, first, second, answers, errors);
    noted.take_captures(&one, &two);
    ended
}

/// Compares the two files that the words name, by the values that they give, through `answers`, with the text of a fault
/// on `errors`; and gives the writer of the answers back. The values are judged first; then the files are opened, before
/// anything is read.
pub fn compare_given<F: Files, B: Allocator, W: Write + Drop, E: Errors>(
    files: &F,
    alloc: Global,
    matches: &ArgMatches<'_>,
    answers: BufWriter<W, B>,
    errors: &mut E,
    noted: &mut Noted,
) -> (Ended, W)
    ensures { IsGivenCompare (compare_in (found_of matches.now)) result.0
        (writer_contents W.contents answers) (W.contents result.1) (E.contents errors.old)
        (E.contents errors.new) }
{
    let settings = match settings_of(matches) {
        Ok(settings) => settings,
        Err(bad) => return end_uncompared(bad, answers, errors),
    };
    let first = matches.get_str("first").unwrap_or("");
    let second = matches.get_str("second").unwrap_or("");
    match open_both(files, first, second) {
        Ok(both) => compare_files(alloc, settings, both, answers, errors, noted),
        Err(path) => end_unopened(path, answers, errors),
    }
}
