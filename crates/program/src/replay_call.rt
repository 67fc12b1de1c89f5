//! A script and a capture from files through the port.

ghost use Rattle.std.specs.Prelude.{◌≡◌, IfErr, IfOk, None, OnOk, Some, [], codes, false, option_map, true, unwrap_or};
ghost use Rattle.text.specs.Buffered.{writer_contents};
ghost use Rattle.clap.specs.Matches.{first_value, found_of};
ghost use Rattle.program.specs.Given.{memory_text, over_input_text, settings_in, timing_in};
ghost use Rattle.program.specs.Reading.{read_as};
ghost use Rattle.program.specs.Jobs.{IsGivenReplay, IsReplayed, IsReplayedOrForgotten};
ghost use Rattle.capture.specs.declared.writer.TheConstants.{CAPTURE_END};
ghost use Rattle.job.specs.RunEnd.{IsUnanswered};
ghost use Rattle.job.specs.Texts.{IsTold};
ghost use Rattle.script.specs.ScriptEnd.{IsRefusal};
ghost use Rattle.replay.specs.Texts.{open_text};
ghost use Rattle.replay.specs.Timing.{timing_text};

use crate::capture_input::{CaptureForm, classic_reader, end_unformed, form_given};
use crate::noted::Noted;
use crate::onlooker::FaultText;
use crate::options::{is_given, value_of, values_of};
use crate::plain_input::plain_reader;
use crate::same_file::{is_regular, is_same_file};
use crate::{BUFFER, end_without_memory};
use arrayvec::ArrayVec;
use capture::CAPTURE_END;
use clap::ArgMatches;
use job::{Ended, Errors, FaultKind, ValueKind, end_told};
use pcapng::CaptureFormat;
use port_text::answer_text::{Part, put_parts};
use replay::{
    BadTiming, Inputs, Outputs, Timing, answer_replay, say_timing, say_unopened, timing_given,
};
use script::{Settings, Watch, end_with_value, settings_given};
use std::alloc::{Allocator, Global};
use std::fs;
use std::io::{Read, Write};
use std::rt::Files;
use text::octet_writer::BufWriter;

/// The path that is given for one of the files.
fn path_of<'a>(matches: &ArgMatches<'a>, name: &str) -> &'a str
    ensures { result.now ≡ unwrap_or (first_value (found_of matches.now) name.now) [] }
{
    matches.get_str(name).unwrap_or("")
}

/// Opens the file of a path to be read, or gives the path back. `-` is no file: one of that name is reached as `./-`.
pub(crate) fn open<'a, F: Files>(files: &F, path: &'a str) -> Result<F::File, &'a str>
    ensures { IfErr result (λ unopened. unopened.now ≡ path.now) }
{
    if path == "-" {
        return Err(path);
    }
    match fs::open(files, path) {
        Ok(file) => Ok(file),
        Err(_) => Err(path),
    }
}

/// How many octets of a capture are looked at.
const FRONT: usize = 24;

/// The first octets of a capture in a file, to say what the file is: none where they say no more of the fault, and
/// where the words name no such file or it can't be read. What is no regular file is left alone: a pipe that was read
/// to its end may be waited for without an end.
pub(crate) fn first_octets<F: Files>(
    files: &F,
    matches: &ArgMatches<'_>,
    fault: &FaultText,
) -> ArrayVec<u8, FRONT> {
    let mut front = ArrayVec::new();
    let path = path_of(matches, "capture");
    if !fault.is_of_capture() || !is_regular(files, path) {
        return front;
    }
    let Ok(mut file) = open(files, path) else {
        return front;
    };
    let mut octets = [0u8; FRONT];
    if let Ok(count) = file.read(&mut octets) {
        let (read, _) = octets.split_at(count.min(FRONT));
        let _ = front.try_extend_from_slice(read);
    }
    front
}

/// Makes the file of a path, or empties it, or gives the path back. `-` is no file: one of that name is reached as
/// `./-`.
fn create<'a, F: Files>(files: &F, path: &'a str) -> Result<F::File, &'a str> {
    if path == "-" {
        return Err(path);
    }
    fs::create(files, path).map_err(|_| path)
}

/// The files of a replay.
#[derive(Drop)]
struct Opened<T: Drop> {
    /// The script.
    script: T,
    /// The capture; it is the standard input where there is none.
    capture: Option<T>,
    /// The capture of what leaves.
    out: T,
}

/// Why files are not opened.
pub(crate) enum Unopened<'a> {
    /// The file of this path can't be opened.
    Path(&'a str),
    /// The output of this path is one of the inputs.
    Input(&'a str),
}

/// The standard input, as a path (proc(5)).
pub(crate) const STANDARD_INPUT: &str = "/dev/stdin";

/// Makes the file of a path or empties it, unless it is one of the inputs, by whatever name.
pub(crate) fn create_beside<'a, F: Files>(
    files: &F,
    out: &'a str,
    inputs: &[&str],
) -> Result<F::File, Unopened<'a>> {
    for input in inputs {
        if is_same_file(files, out, input) {
            return Err(Unopened::Input(out));
        }
    }
    create(files, out).map_err(|path| Unopened::Path(path))
}

/// Makes the output or empties it, unless it is one of the inputs.
fn create_out<'a, F: Files>(files: &F, matches: &ArgMatches<'a>) -> Result<F::File, Unopened<'a>> {
    let capture = match path_of(matches, "capture") {
        "-" => STANDARD_INPUT,
        path => path,
    };
    let inputs = [path_of(matches, "script"), capture];
    create_beside(files, path_of(matches, "out"), &inputs)
}

/// Opens the files in their order, or says why they are not opened.
fn open_all<'a, F: Files>(
    files: &F,
    matches: &ArgMatches<'a>,
) -> Result<Opened<F::File>, Unopened<'a>>
    ensures { IfOk result
        (λ opened. first_value (found_of matches.now) (codes "capture") ≡ Some (codes "-") →
        opened.capture ≡ None) }
{
    let script = match open(files, path_of(matches, "script")) {
        Ok(script) => script,
        Err(path) => return Err(Unopened::Path(path)),
    };
    let capture = match path_of(matches, "capture") {
        "-" => None,
        path => match open(files, path) {
            Ok(capture) => Some(capture),
            Err(path) => return Err(Unopened::Path(path)),
        },
    };
    let out = create_out(files, matches)?;
    Ok(Opened {
        script,
        capture,
        out,
    })
}

/// Reports a path that can't be opened, and gives the writer of the answers back. Nothing is answered.
pub(crate) fn end_unopened<B: Allocator, W: Write + Drop, E: Errors>(
    path: &str,
    answers: BufWriter<W, B>,
    errors: &mut E,
) -> (Ended, W)
    ensures { IsUnanswered 4 (open_text path.now) result.0 (writer_contents W.contents answers)
        (W.contents result.1) (E.contents errors.old) (E.contents errors.new) }
{
    let ended = say_unopened(path, errors);
    errors.found(FaultKind::CannotOpen);
    end_told(ended, answers)
}

/// Writes the text of an output that is one of the inputs. The exit status that goes with it is 2, also where that
/// write fails.
fn say_over_input<W: Write>(path: &str, writer: &mut W) -> Ended
    ensures status { result.status ≡ 2 }
    ensures told { IsTold result.told (W.contents writer.old) (W.contents writer.new)
        (over_input_text path.now) }
{
    let told = put_parts(
        writer,
        &[
            Part::Text(b"taprio_port: OUT is one of the inputs: "),
            Part::Text(path.as_bytes()),
            Part::Text(b"\n"),
        ],
    )
    .is_ok();
    Ended { status: 2, told }
}

/// Reports an output that is one of the inputs, and gives the writer of the answers back. Nothing is answered.
pub(crate) fn end_over_input<B: Allocator, W: Write + Drop, E: Errors>(
    path: &str,
    answers: BufWriter<W, B>,
    errors: &mut E,
) -> (Ended, W)
    ensures { IsUnanswered 2 (over_input_text path.now) result.0
        (writer_contents W.contents answers) (W.contents result.1) (E.contents errors.old)
        (E.contents errors.new) }
{
    let ended = say_over_input(path, errors);
    errors.found(FaultKind::OutIsInput);
    end_told(ended, answers)
}

/// Whose value is bad.
fn kind_of(bad: BadTiming) -> ValueKind {
    match bad {
        BadTiming::Stamp => ValueKind::Stamp,
        BadTiming::Shift => ValueKind::Shift,
    }
}

/// Reports that a word about time stamps is bad, and gives the writer of the answers back. Nothing is answered.
fn end_untimed<B: Allocator, W: Write + Drop, E: Errors>(
    bad: BadTiming,
    answers: BufWriter<W, B>,
    errors: &mut E,
) -> (Ended, W)
    ensures { IsUnanswered 2 (timing_text bad) result.0 (writer_contents W.contents answers)
        (W.contents result.1) (E.contents errors.old) (E.contents errors.new) }
{
    let ended = say_timing(bad, errors);
    errors.found(FaultKind::Value(kind_of(bad)));
    end_told(ended, answers)
}

/// Reports that memory is out for the buffer of the output, and gives the writer of the answers back. Nothing is
/// answered.
pub(crate) fn end_unbuffered<B: Allocator, W: Write + Drop, E: Errors>(
    answers: BufWriter<W, B>,
    errors: &mut E,
) -> (Ended, W)
    ensures { IsUnanswered 4 memory_text result.0 (writer_contents W.contents answers)
        (W.contents result.1) (E.contents errors.old) (E.contents errors.new) }
{
    let ended = end_without_memory(errors);
    errors.found(FaultKind::OutOfMemory);
    end_told(ended, answers)
}

/// Replays these inputs, and gives the writer of the report back.
fn replay_files<
    T: Read + Drop,
    S: Read + Drop,
    B: Allocator,
    W: Write + Drop,
    V: Write + Drop,
    E: Errors,
    P: Watch,
>(
    alloc: Global,
    settings: Settings,
    timing: Timing,
    inputs: Inputs<T, S>,
    report: BufWriter<W, B>,
    departures: BufWriter<V>,
    errors: &mut E,
    watch: &mut P,
) -> (Ended, W)
    ensures { IsReplayed settings timing (S.remaining inputs.capture) result.0
        (writer_contents W.contents report) (W.contents result.1) (E.contents errors.old)
        (E.contents errors.new) }
{
    let outputs = Outputs { report, departures };
    let (ended, writer, _out) = answer_replay(
        alloc, settings, timing, inputs, outputs, errors, watch,
    );
    (ended, writer)
}

/// How the inputs of a replay are read.
#[derive(Clone, Copy)]
struct Reading<'a> {
    /// How the capture is written.
    form: CaptureForm,
    /// Whether the lines of the script are read as they are pasted.
    tolerant: bool,
    /// The device whose lines of the script are read, where one is named.
    device: Option<&'a str>,
}

/// Whether a capture is a classic one without check sequences.
fn is_classic(form: CaptureForm) -> bool
    ensures format { result ≡ true → form.format ≡ CaptureFormat.Pcap }
    ensures fcs { result ≡ true → form.has_fcs ≡ false }
{
    if form.has_fcs {
        return false;
    }
    match form.format {
        CaptureFormat::Pcap => true,
        _ => false,
    }
}

impl Reading<'_> {
    /// Whether both are read as they stand.
    fn is_plain(&self) -> bool
        ensures format { result ≡ true → self.now.form.format ≡ CaptureFormat.Pcap }
        ensures fcs { result ≡ true → self.now.form.has_fcs ≡ false }
    {
        !self.tolerant && self.device.is_none() && is_classic(self.form)
    }
}

/// Replays these inputs as they are to be read, notes what was met in them, and gives the writer of the report back.
fn replay_as<
    T: Read + Drop,
    S: Read + Drop,
    B: Allocator,
    W: Write + Drop,
    V: Write + Drop,
    E: Errors,
    P: Watch,
>(
    alloc: Global,
    settings: Settings,
    timing: Timing,
    reading: Reading<'_>,
    inputs: Inputs<T, S>,
    report: BufWriter<W, B>,
    departures: BufWriter<V>,
    errors: &mut E,
    watch: &mut P,
    noted: &mut Noted,
) -> (Ended, W)
    ensures { IsReplayed settings timing (read_as reading.entry.form (S.remaining inputs.capture))
        result.0 (writer_contents W.contents report) (W.contents result.1) (E.contents errors.old)
        (E.contents errors.new) }
{
    if reading.is_plain() {
        return replay_files(
            alloc, settings, timing, inputs, report, departures, errors, watch,
        );
    }
    let Inputs { script, capture } = inputs;
    let passed = &mut noted.passed;
    let script = plain_reader(alloc, script, reading.tolerant, reading.device, passed);
    let mut turned = None;
    let capture = classic_reader(alloc, capture, reading.form, &mut turned);
    let inputs = Inputs { script, capture };
    let ended = replay_files(
        alloc, settings, timing, inputs, report, departures, errors, watch,
    );
    noted.take_capture(&turned);
    ended
}

/// Replays what is open, the capture from `reader` where that is the standard input.
fn replay_opened<
    T: Read + Write + Drop,
    B: Allocator,
    R: Read,
    W: Write + Drop,
    E: Errors,
    P: Watch,
>(
    alloc: Global,
    settings: Settings,
    timing: Timing,
    reading: Reading<'_>,
    opened: Opened<T>,
    reader: &mut R,
    answers: BufWriter<W, B>,
    errors: &mut E,
    watch: &mut P,
    noted: &mut Noted,
) -> (Ended, W)
    ensures { IsReplayedOrForgotten settings timing reading.entry.form (option_map T.remaining opened.capture)
        (R.remaining reader.old) result.0 (writer_contents W.contents answers) (W.contents result.1)
        (E.contents errors.old) (E.contents errors.new) }
{
    let Opened {
        script,
        capture,
        out,
    } = opened;
    let Ok(departures) = BufWriter::with_capacity(alloc, BUFFER, out) else {
        return end_unbuffered(answers, errors);
    };
    match capture {
        Some(capture) => {
            let inputs = Inputs { script, capture };
            replay_as(
                alloc, settings, timing, reading, inputs, answers, departures, errors, watch, noted,
            )
        }
        None => {
            let inputs = Inputs {
                script,
                capture: reader,
            };
            replay_as(
                alloc, settings, timing, reading, inputs, answers, departures, errors, watch, noted,
            )
        }
    }
}

/// Replays a script and a capture from files into a file, by the values that the words give to the options, with the
/// report through `answers` and the text of a fault on `errors`; and gives the writer of the report back. The values
/// are judged first; then the files are opened: the script, the capture, which is `reader` where its path is `-`, and
/// the output, which is made or emptied, but not where it is one of the inputs.
pub fn replay_given<F: Files, B: Allocator, R: Read, W: Write + Drop, E: Errors, P: Watch>(
    files: &F,
    alloc: Global,
    matches: &ArgMatches<'_>,
    reader: &mut R,
    answers: BufWriter<W, B>,
    errors: &mut E,
    watch: &mut P,
    noted: &mut Noted,
) -> (Ended, W)
    ensures refused { IfErr (settings_in CAPTURE_END (found_of matches.now))
        (λ value. IsRefusal value result.0 (writer_contents W.contents answers)
        (W.contents result.1) (E.contents errors.old) (E.contents errors.new)) }
    ensures unread { IfErr (settings_in CAPTURE_END (found_of matches.now))
        (λ _. (reader.new ≡ reader.old) × (watch.new ≡ watch.old)) }
    ensures ending { IsGivenReplay (found_of matches.now) (R.remaining reader.old) result.0
        (writer_contents W.contents answers) (W.contents result.1) (E.contents errors.old)
        (E.contents errors.new) }
    ensures untimed { OnOk (settings_in CAPTURE_END (found_of matches.now))
        (IfErr (timing_in (found_of matches.now)) (λ bad.
        IsUnanswered 2 (timing_text bad) result.0 (writer_contents W.contents answers)
        (W.contents result.1) (E.contents errors.old) (E.contents errors.new))) }
{
    let settings = match settings_given(values_of(matches), CAPTURE_END) {
        Ok(settings) => settings,
        Err(value) => return end_with_value(value, answers, errors),
    };
    let timing = match timing_given(matches.get_str("stamp"), matches.get_str("shift")) {
        Ok(timing) => timing,
        Err(bad) => return end_untimed(bad, answers, errors),
    };
    let form = match form_given(matches) {
        Ok(form) => form,
        Err(bad) => return end_unformed(bad, answers, errors),
    };
    let reading = Reading {
        form,
        tolerant: is_given(matches, "tolerant"),
        device: value_of(matches, "device"),
    };
    match open_all(files, matches) {
        Ok(opened) => replay_opened(
            alloc, settings, timing, reading, opened, reader, answers, errors, watch, noted,
        ),
        Err(Unopened::Path(path)) => end_unopened(path, answers, errors),
        Err(Unopened::Input(path)) => end_over_input(path, answers, errors),
    }
}
