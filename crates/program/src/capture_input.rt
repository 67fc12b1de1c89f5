//! Captures as the words say that they are written.

ghost use Rattle.std.specs.Prelude.{◌≡◌, ℕ, List, false, true};
ghost use Rattle.text.specs.Buffered.{writer_contents};
ghost use Rattle.clap.specs.Matches.{found_of};
ghost use Rattle.job.specs.RunEnd.{IsUnanswered};
ghost use Rattle.job.specs.Texts.{IsTold};
ghost use Rattle.script.specs.Given.{octets_of};
ghost use Rattle.translated.specs.Outlook.{meaning_where};
ghost use Rattle.program.specs.Reading.{fcs_in, form_by, form_in, form_text, format_in, read_as, turned_by, without_fcs};

use crate::options::value_of;
use clap::ArgMatches;
use job::{Ended, Errors, FaultKind, ValueKind, end_told};
use pcapng::{AnyCapture, CaptureFormat, WithoutFcs};
use port_text::answer_text::put;
use std::alloc::{Allocator, Global};
use std::io::{Read, Write};
use text::octet_writer::BufWriter;
use translated::{Translated, Translation};

/// How a capture is written.
#[derive(Clone, Copy, Debug, PartialEq, Eq)]
pub(crate) struct CaptureForm {
    /// Its format.
    pub format: CaptureFormat,
    /// Whether its frames have their check sequences (IEEE Std 802.3, 3.2.9).
    pub has_fcs: bool,
}

/// Which word about a capture is bad.
#[derive(Clone, Copy, Debug, PartialEq, Eq)]
pub(crate) enum BadForm {
    /// That of the format, which comes first.
    Format,
    /// That of the check sequences.
    Fcs,
}

/// A reader of a capture in any form, which gives a classic one without check sequences.
pub(crate) type ClassicReader<'n, R> = Translated<
    Translated<R, &'n mut Option<AnyCapture>>,
    Option<WithoutFcs>,
>;

/// The format that a word names; that of classic captures, where there is none.
fn format_given(word: Option<&str>) -> Option<CaptureFormat>
    ensures { result ≡ format_in (octets_of word.entry) }
{
    match word {
        None | Some("pcap") => Some(CaptureFormat::Pcap),
        Some("pcapng") => Some(CaptureFormat::Pcapng),
        Some("auto") => Some(CaptureFormat::Auto),
        Some(_) => None,
    }
}

/// Whether frames have their check sequences, as a word says; where there is none, they haven't.
fn fcs_given(word: Option<&str>) -> Option<bool>
    ensures { result ≡ fcs_in (octets_of word.entry) }
{
    match word {
        None | Some("absent") => Some(false),
        Some("present") => Some(true),
        Some(_) => None,
    }
}

/// Both, or the word that is bad.
fn form_by(format: Option<CaptureFormat>, fcs: Option<bool>) -> Result<CaptureForm, BadForm>
    ensures { result ≡ form_by format fcs }
{
    let Some(format) = format else {
        return Err(BadForm::Format);
    };
    let Some(has_fcs) = fcs else {
        return Err(BadForm::Fcs);
    };
    Ok(CaptureForm { format, has_fcs })
}

/// How a capture is written, as the words say.
pub(crate) fn form_given(matches: &ArgMatches<'_>) -> Result<CaptureForm, BadForm>
    ensures { result ≡ form_in (found_of matches.now) }
{
    let format = format_given(value_of(matches, "format"));
    let fcs = fcs_given(value_of(matches, "fcs"));
    form_by(format, fcs)
}

/// What a capture in this format is turned into a classic one by: a classic one is read as it is.
fn turning(format: CaptureFormat) -> Option<AnyCapture>
    ensures { (octets : List ℕ) →
        meaning_where (⟦<AnyCapture as Translation>⟧.meaning) result octets
        ≡ turned_by format octets }
{
    match format {
        CaptureFormat::Pcap => None,
        other => Some(AnyCapture::new(other)),
    }
}

/// What takes the check sequences from frames that have them.
fn cutting(has_fcs: bool) -> Option<WithoutFcs>
    ensures { (octets : List ℕ) →
        meaning_where (⟦<WithoutFcs as Translation>⟧.meaning) result octets
        ≡ without_fcs has_fcs octets }
{
    if has_fcs {
        Some(WithoutFcs::new())
    } else {
        None
    }
}

/// A capture from `reader` as a classic one without check sequences; what turns it stands in `turned`, and notes what it
/// meets.
pub(crate) fn classic_reader<'n, R: Read>(
    alloc: Global,
    reader: R,
    form: CaptureForm,
    turned: &'n mut Option<AnyCapture>,
) -> ClassicReader<'n, R>
    ensures { ⟦<ClassicReader<'n, R> as Read>⟧.remaining result
        ≡ read_as form (R.remaining reader) }
{
    *turned = turning(form.format);
    let classic = Translated::new(alloc, alloc, reader, turned);
    Translated::new(alloc, alloc, classic, cutting(form.has_fcs))
}

/// The text of a word that is bad.
fn form_text(bad: BadForm) -> &'static [u8]
    ensures { result.now ≡ form_text bad }
{
    match bad {
        BadForm::Format => b"taprio_port: bad value of --format\n",
        BadForm::Fcs => b"taprio_port: bad value of --fcs\n",
    }
}

/// Writes the text of a word that is bad. The exit status that goes with it is 2, also where that write fails.
fn say_form<W: Write>(bad: BadForm, writer: &mut W) -> Ended
    ensures status { result.status ≡ 2 }
    ensures told { IsTold result.told (W.contents writer.old) (W.contents writer.new)
        (form_text bad) }
{
    let told = put(writer, form_text(bad)).is_ok();
    Ended { status: 2, told }
}

/// Whose value is bad.
fn kind_of(bad: BadForm) -> ValueKind {
    match bad {
        BadForm::Format => ValueKind::Format,
        BadForm::Fcs => ValueKind::Fcs,
    }
}

/// Reports that a word about a capture is bad, and gives the writer of the answers back. Nothing is answered.
pub(crate) fn end_unformed<B: Allocator, W: Write + Drop, E: Errors>(
    bad: BadForm,
    answers: BufWriter<W, B>,
    errors: &mut E,
) -> (Ended, W)
    ensures { IsUnanswered 2 (form_text bad) result.0 (writer_contents W.contents answers)
        (W.contents result.1) (E.contents errors.old) (E.contents errors.new) }
{
    let ended = say_form(bad, errors);
    errors.found(FaultKind::Value(kind_of(bad)));
    end_told(ended, answers)
}
