//! The program's job: the delays of streams, for ever.

ghost use Rattle.std.specs.Prelude.{◌≡◌, ◌<◌, IfSome, None, Some, false};
ghost use Rattle.text.specs.Buffered.{writer_contents};
ghost use Rattle.script.specs.Given.{octets_of, words_of_values};
ghost use Rattle.stream_bounds.specs.BoundsEnd.{IsBoundsEnding, IsBoundsRefusal, bounds_given, class_of_digit, frames_where, next_named, no_classes, read_classes, where_silent, with_named};
ghost use Rattle.stream_bounds.specs.declared.settings.TheConstants.{MAX_FRAMES};
ghost use Rattle.wire_time.specs.declared.TheConstants.{CLASSES};
ghost use Rattle.text.specs.Numbers.{number_in};

use crate::settings::{BoundsSettings, BoundsValue, MAX_FRAMES, say_bounds_value};
use crate::table_bounds::bounds;
use job::{Ended, Errors, FaultKind, end_run, end_told};
use schedule_check::given_map;
use script::{BadValue, Values, Watch, settings_given};
use std::alloc::{Allocator, Global};
use std::io::{Read, Write};
use text::octet_writer::BufWriter;
use text::words::number;
use wire_time::{CLASSES, MAX_MOMENT};

/// How many frames of a class are looked at, where no number is given.
const FRAMES: &str = "1000000";

/// The values of the options, where they are given, as words.
#[derive(Clone, Copy, Debug)]
pub struct BoundsWords<'a> {
    /// Those of the port.
    pub port: Values<'a>,
    /// The map that the port has already.
    pub map: Option<&'a str>,
    /// How many frames of a class are looked at, at most.
    pub frames: Option<&'a str>,
    /// Whether the run is strict.
    pub strict: bool,
    /// Whether it is told which jitter the streams with deadlines may have.
    pub slack: bool,
    /// Whether it is told what the greatest wait of each stream is made of.
    pub why: bool,
    /// The classes that send nothing.
    pub silent: Option<&'a str>,
    /// Whether frames may wait from before the schedule.
    pub leftovers: bool,
}

/// A number of frames that may be looked at.
fn read_frames(frames: &str) -> Option<u64>
    ensures { result ≡ frames_where (number_in 10 MAX_FRAMES frames.now) }
{
    let frames = number(frames.as_bytes(), u128::from(MAX_FRAMES))?;
    if frames >= 1 {
        Some(frames as u64)
    } else {
        None
    }
}

/// The class that a digit names, where it is one.
fn class_of_digit(digit: u8) -> Option<u8>
    ensures class { result ≡ class_of_digit digit }
    ensures within { IfSome result (λ class. class < CLASSES) }
{
    if b'0' <= digit && digit <= b'7' {
        Some(digit - b'0')
    } else {
        None
    }
}

/// The classes that are named, with one more, which is not among them yet.
fn with_named(named: [bool; CLASSES], class: Option<u8>) -> Option<[bool; CLASSES]>
    requires { IfSome class (λ class. class < CLASSES) }
    ensures { result ≡ with_named named class }
{
    let class = class? as usize;
    let mut more = named;
    if more[class] {
        return None;
    }
    more[class] = true;
    Some(more)
}

/// The classes that are named behind one octet more: a comma, where it stands behind a digit, and else a digit.
fn next_named(named: [bool; CLASSES], behind: bool, octet: u8) -> Option<[bool; CLASSES]>
    ensures { result ≡ next_named named behind octet }
{
    if !behind {
        with_named(named, class_of_digit(octet))
    } else if octet == b',' {
        Some(named)
    } else {
        None
    }
}

/// Which classes a text names: one digit each, with commas between them, and none twice.
fn read_classes(text: &[u8]) -> Option<[bool; CLASSES]>
    ensures { result ≡ read_classes no_classes false text.now }
{
    let mut named = [false; CLASSES];
    let mut behind = false;
    for octet in text {
        match next_named(named, behind, *octet) {
            Some(more) => named = more,
            None => return None,
        }
        behind = !behind;
    }
    if behind { Some(named) } else { None }
}

/// The classes that send nothing, where any are given.
fn given_silent(words: Option<&str>) -> Option<[bool; CLASSES]>
    ensures { result ≡ where_silent (octets_of words.entry) }
{
    match words {
        None => Some([false; CLASSES]),
        Some(words) => read_classes(words.as_bytes()),
    }
}

/// The settings of the values that are given, and of those that stand for the others. The first bad value is the fault.
pub fn bounds_given(words: BoundsWords<'_>) -> Result<BoundsSettings, BoundsValue>
    ensures { result ≡ bounds_given (words_of_values words.entry.port) (octets_of words.entry.map)
        (octets_of words.entry.frames) (octets_of words.entry.silent) (record {
          strict = words.entry.strict;
          slack = words.entry.slack;
          why = words.entry.why;
          leftovers = words.entry.leftovers;
        }) }
{
    let port = match settings_given(words.port, MAX_MOMENT) {
        Ok(port) => port,
        Err(value) => return Err(BoundsValue::Port(value)),
    };
    let Some(map) = given_map(words.map) else {
        return Err(BoundsValue::Port(BadValue::Map));
    };
    let Some(frames) = read_frames(words.frames.unwrap_or(FRAMES)) else {
        return Err(BoundsValue::Frames);
    };
    match given_silent(words.silent) {
        Some(silent) => Ok(BoundsSettings {
            port,
            map,
            frames,
            strict: words.strict,
            slack: words.slack,
            why: words.why,
            silent,
            leftovers: words.leftovers,
        }),
        None => Err(BoundsValue::Silent),
    }
}

/// Reports a bad value on `errors`, and gives the writer of the answers back. Nothing is answered.
pub fn end_with_bounds_value<B: Allocator, W: Write + Drop, E: Errors>(
    value: BoundsValue,
    answers: BufWriter<W, B>,
    errors: &mut E,
) -> (Ended, W)
    ensures { IsBoundsRefusal value result.0 (writer_contents W.contents answers)
        (W.contents result.1) (E.contents errors.old) (E.contents errors.new) }
{
    let ended = say_bounds_value(&value, errors);
    errors.found(FaultKind::Value(value.kind()));
    end_told(ended, answers)
}

/// Answers about the schedules that `reader` gives and the streams of `table`, with these settings, through `answers`,
/// with the text of a fault or of a strict run's finding on `errors`; and gives the writer of the answers back. What was
/// answered is let out before a fault is reported; after a failed write no other is tried. Who watches is called as by
/// `bounds`.
pub fn answer_bounds<B: Allocator, R: Read, S: Read + Drop, W: Write + Drop, E: Errors, H: Watch>(
    alloc: Global,
    settings: BoundsSettings,
    table: S,
    reader: &mut R,
    mut answers: BufWriter<W, B>,
    errors: &mut E,
    watch: &mut H,
) -> (Ended, W)
    ensures { IsBoundsEnding settings (S.remaining table) (R.remaining reader.old) result.0
        (writer_contents W.contents answers) (W.contents result.1) (E.contents errors.old)
        (E.contents errors.new) }
{
    let run = bounds(alloc, table, reader, &mut answers, settings, watch);
    end_run(run, answers, errors)
}
