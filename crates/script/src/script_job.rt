//! The program's main job: a script is answered by the values of options.

ghost use Rattle.std.specs.Prelude.{◌≡◌, ◌≤◌, IfErr};
ghost use Rattle.text.specs.Buffered.{writer_contents};
ghost use Rattle.script.specs.Alerts.{IsWatchedEnding};
ghost use Rattle.script.specs.Words.{greatest_moment, octets_of, words_of_values, IsEnding, IsRefusal, settings_given, settings_or_usual, whole_script};

use crate::faults::say_value;
use crate::script_run::run_script;
use crate::settings::{BadValue, Settings};
use crate::watch::Watch;
use job::{Ended, Errors, FaultKind, end_run, end_told};
use std::alloc::Allocator;
use std::io::{Read, Write};
use text::octet_writer::BufWriter;
use wire_time::MAX_MOMENT;

/// The line rate where none is given, in Mb/s.
const RATE: &str = "1000";

/// The mtu where none is given, in octets.
const MTU: &str = "1500";

/// The room where none is given, in frames a class.
const ROOM: &str = "128";

/// The values of the options, where they are given, as words.
#[derive(Clone, Copy, Debug)]
pub struct Values<'a> {
    /// The line rate, in Mb/s.
    pub rate: Option<&'a str>,
    /// The mtu, in octets.
    pub mtu: Option<&'a str>,
    /// The room, in frames a class.
    pub room: Option<&'a str>,
    /// The moment to run to after the input, in picoseconds.
    pub until: Option<&'a str>,
    /// Whether a summary is wanted at the end.
    pub summary: bool,
}

/// The settings of the values that are given, without a summary.
fn read_given(values: Values<'_>, greatest: u128) -> Result<Settings, BadValue>
    requires { greatest ≤ MAX_MOMENT }
    ensures { result ≡ settings_or_usual greatest (words_of_values values.entry) }
{
    Settings::read(
        values.rate.unwrap_or(RATE),
        values.mtu.unwrap_or(MTU),
        values.room.unwrap_or(ROOM),
        values.until,
        greatest,
    )
}

/// The settings of the values that are given, and of those that stand for the others, with a moment of at most
/// `greatest`, in picoseconds, and with a summary where one is wanted. The first bad value is the fault.
pub fn settings_given(values: Values<'_>, greatest: u128) -> Result<Settings, BadValue>
    requires { greatest ≤ MAX_MOMENT }
    ensures { result ≡ settings_given greatest (words_of_values values.entry) }
{
    match read_given(values, greatest) {
        Ok(settings) => Ok(settings.with_summary(values.summary)),
        Err(value) => Err(value),
    }
}

/// Reports a bad value on `errors`, and gives the writer of the answers back. Nothing is answered.
pub fn end_with_value<B: Allocator, W: Write + Drop, E: Errors>(
    value: BadValue,
    answers: BufWriter<W, B>,
    errors: &mut E,
) -> (Ended, W)
    ensures { IsRefusal value result.0 (writer_contents W.contents answers) (W.contents result.1)
        (E.contents errors.old) (E.contents errors.new) }
{
    let ended = say_value(&value, errors);
    errors.found(FaultKind::Value(value.kind()));
    end_told(ended, answers)
}

/// Answers the script that `reader` gives, by these values, through `answers`, with the text of a fault on `errors`;
/// and gives the writer of the answers back. What was answered is let out before a fault is reported; after a failed
/// write no other is tried. Who watches is called as by `run_script`.
pub fn answer_script<A: Allocator, B: Allocator, R: Read, W: Write + Drop, E: Errors, H: Watch>(
    alloc: A,
    values: Values<'_>,
    reader: &mut R,
    mut answers: BufWriter<W, B>,
    errors: &mut E,
    watch: &mut H,
) -> (Ended, W)
    ensures ending { IsEnding whole_script
        (settings_given greatest_moment (words_of_values values.entry))
        (R.remaining reader.old) result.0 (writer_contents W.contents answers) (W.contents result.1)
        (E.contents errors.old) (E.contents errors.new) }
    ensures watched { IsWatchedEnding H.alerted
        (settings_given greatest_moment (words_of_values values.entry))
        (R.remaining reader.old) result.0 watch.old watch.new }
    ensures unread { IfErr (settings_given greatest_moment (words_of_values values.entry))
        (λ _. reader.new ≡ reader.old) }
{
    match settings_given(values, MAX_MOMENT) {
        Ok(settings) => {
            let run = run_script(alloc, reader, &mut answers, settings, watch);
            end_run(run, answers, errors)
        }
        Err(value) => end_with_value(value, answers, errors),
    }
}
