//! What is answered about a schedule command.

ghost use Rattle.std.specs.Prelude.{◌≡◌, All, Err, IfOk, List, MatchResult, None, Ok, Option, Result, Some, true, false, ℕ};
ghost use Rattle.job.specs.declared.fault.Fault.TheVariants as Faults;
ghost use Rattle.text.specs.Writes.{Writes};
ghost use Rattle.stream_bounds.specs.Answers.{AreClassAnswers};
ghost use Rattle.stream_bounds.specs.declared.faults.Answered.{Answered};
ghost use Rattle.stream_bounds.specs.declared.settings.BoundsSettings.{BoundsSettings};
ghost use Rattle.abstract_port.specs.declared.Change.{Change};
ghost use Rattle.traffic.specs.declared.table.Stream.{Stream};
ghost use Rattle.schedule_check.specs.Refusals.{early_refusal};
ghost use Rattle.abstract_port.specs.AbstractPort.{plan_asked};
ghost use Rattle.abstract_port.specs.declared.Command.{Command};
ghost use Rattle.stream_bounds.specs.BoundLines.{accepted_finding, change_answered, change_lines, command_answered, command_lines};
ghost use Rattle.stream_bounds.specs.Classes.{IsPeriodic, port_before, refusal_of};
ghost use Rattle.stream_bounds.specs.TableRead.{Tells, TellsChange, TellsLine};
ghost use Rattle.port_text.specs.Reader.{IsReader};
ghost use Rattle.port_text.specs.declared.tc_reader.fault.TcFault.{TcFault};
ghost use Rattle.text.specs.Words.{words_of};

use crate::answers::Answers;
use crate::busy::tell_busy;
use crate::class_lines::{find_class, put_classes};
use crate::faults::{Answered, BoundsFault, Finding};
use crate::notes::tell_bases;
use crate::premise_lines::put_premises;
use crate::settings::BoundsSettings;
use crate::stream_lines::{first_of, put_streams};
use abstract_port::{Change, Command, Refused};
use gates::gate_list::Schedule;
use port_text::answer_text::{WriteFault, put_refused, put_tc_fault};
use port_text::tc_reader::TcFault;
use schedule_check::{early_refusal, put_apart};
use script::{Watch, read_tc};
use std::alloc::Global;
use std::io::Write;
use traffic::Stream;

/// What a call that writes answers, as what a call answers that may fail otherwise too.
fn told(written: Result<Answered, WriteFault>) -> Result<Answered, BoundsFault>
    ensures { MatchResult written (λ answered. result ≡ Ok answered)
        (λ _. result ≡ Err Faults.Write) }
{
    match written {
        Ok(answered) => Ok(answered),
        Err(_) => Err(BoundsFault::Write),
    }
}

/// Writes what is answered about an accepted schedule: the classes that it keeps apart, the verdict about each class,
/// and the delay of each stream.
fn put_answers<W: Write>(
    writer: &mut W,
    settings: &BoundsSettings,
    streams: &[Stream],
    change: &Change,
    schedule: &Schedule,
    answers: &mut Answers,
) -> Result<Answered, WriteFault>
    requires plan { schedule.now ≡ plan_asked change.now }
    ensures lines { Writes result (W.contents writer.old) (W.contents writer.new)
        (change_lines None settings.now change.now streams.now answers.old) }
    ensures answered { IfOk result (λ told. told ≡ record {
      finding = accepted_finding settings.now change.now streams.now answers.old;
      judged = true;
    }) }
{
    put_premises(writer, settings, change, schedule, streams)?;
    put_classes(writer, settings.port.room(), answers)?;
    let of_classes = find_class(answers);
    let of_streams = put_streams(writer, settings, change, answers, streams)?;
    Ok(Answered {
        finding: first_of(of_streams, of_classes),
        judged: true,
    })
}

/// Answers about an accepted schedule, that of the line of this number. Who watches is told by what the bounds of each
/// class are found, and of classes that have no time for one frame more, where it wants hints.
fn put_schedule<W: Write, H: Watch>(
    alloc: Global,
    writer: &mut W,
    settings: &BoundsSettings,
    streams: &[Stream],
    change: &Change,
    schedule: &Schedule,
    number: u32,
    watch: &mut H,
) -> Result<Answered, BoundsFault>
    requires plan { schedule.now ≡ plan_asked change.now }
    requires periodic { All IsPeriodic streams.now }
    ensures { TellsChange result number None settings.now change.now streams.now
        (W.contents writer.old) (W.contents writer.new) }
{
    match Answers::new(alloc, settings, change, schedule, streams) {
        Ok(mut answers) => {
            if watch.wants_hints() {
                tell_bases(
                    alloc, settings, change, schedule, streams, &answers, number, watch,
                );
                tell_busy(
                    alloc, settings, change, schedule, streams, &answers, number, watch,
                );
            }
            told(put_answers(writer, settings, streams, change, schedule, &mut answers))
        }
        Err(_) => Err(BoundsFault::Memory),
    }
}

/// Why a line changes nothing, in the words of an answer.
fn put_refusal<W: Write>(writer: &mut W, line: u32, why: Refused) -> Result<Answered, BoundsFault>
    ensures { (settings : BoundsSettings) (change : Change) (streams : List Stream) →
        TellsChange result line (Some why) settings change streams (W.contents writer.old)
        (W.contents writer.new) }
{
    match put_refused(writer, why) {
        Ok(()) => Ok(Answered {
            finding: Some(Finding::Refused(line)),
            judged: false,
        }),
        Err(_) => Err(BoundsFault::Write),
    }
}

/// Answers about a change that the port doesn't refuse for its map or its limits.
fn put_fitting<W: Write, H: Watch>(
    alloc: Global,
    writer: &mut W,
    settings: &BoundsSettings,
    streams: &[Stream],
    line: u32,
    change: &Change,
    watch: &mut H,
) -> Result<Answered, BoundsFault>
    requires periodic { All IsPeriodic streams.now }
    requires fitting { early_refusal (port_before settings.now) change.now ≡ None }
    ensures { TellsChange result line
        (refusal_of settings.now change.now) settings.now change.now streams.now
        (W.contents writer.old) (W.contents writer.new) }
{
    let schedule = Schedule::new(
        &change.list,
        change.base_ns,
        change.cycle_ns,
        change.extension_ns,
        settings.port.rate(),
    );
    match schedule {
        Ok(schedule) => put_schedule(
            alloc, writer, settings, streams, change, &schedule, line, watch,
        ),
        Err(fault) => put_refusal(writer, line, Refused::Schedule(fault)),
    }
}

/// Answers about a change: why the port refuses it, or what holds of its schedule.
fn put_change<W: Write, H: Watch>(
    alloc: Global,
    writer: &mut W,
    settings: &BoundsSettings,
    streams: &[Stream],
    line: u32,
    change: &Change,
    watch: &mut H,
) -> Result<Answered, BoundsFault>
    requires { All IsPeriodic streams.now }
    ensures { TellsChange result line
        (refusal_of settings.now change.now) settings.now change.now streams.now
        (W.contents writer.old) (W.contents writer.new) }
{
    match early_refusal(settings.port.mtu(), settings.map, change) {
        Some(why) => put_refusal(writer, line, why),
        None => put_fitting(alloc, writer, settings, streams, line, change, watch),
    }
}

/// Answers about a command, or a line that is none.
fn put_command<W: Write, H: Watch>(
    alloc: Global,
    writer: &mut W,
    settings: &BoundsSettings,
    streams: &[Stream],
    line: u32,
    read: Result<Command, TcFault>,
    watch: &mut H,
) -> Result<Answered, BoundsFault>
    requires { All IsPeriodic streams.now }
    ensures { TellsLine result line settings.now streams.now read (W.contents writer.old)
        (W.contents writer.new) }
{
    match read {
        Ok(Command::Replace(change)) => {
            put_change(alloc, writer, settings, streams, line, &change, watch)
        }
        Ok(Command::Delete) => match put_apart(writer, &[]) {
            Ok(()) => Ok(Answered {
                finding: None,
                judged: false,
            }),
            Err(_) => Err(BoundsFault::Write),
        },
        Err(fault) => match put_tc_fault(writer, fault) {
            Ok(()) => Ok(Answered {
                finding: Some(Finding::TcFault(line)),
                judged: false,
            }),
            Err(_) => Err(BoundsFault::Write),
        },
    }
}

/// Writes what is answered about a line that begins with `tc`, and which has this number; and answers what was
/// found, and whether a schedule was judged. Who watches is told of classes that have no time for one frame more, where
/// it wants hints.
pub fn put_line<W: Write, H: Watch>(
    alloc: Global,
    writer: &mut W,
    settings: &BoundsSettings,
    streams: &[Stream],
    number: u32,
    line: &[u8],
    watch: &mut H,
) -> Result<Answered, BoundsFault>
    requires { All IsPeriodic streams.now }
    ensures { (read : List (List ℕ) → Result Command TcFault) → IsReader read →
        TellsLine result number settings.now streams.now (read (words_of line.now))
        (W.contents writer.old) (W.contents writer.new) }
{
    put_command(
        alloc,
        writer,
        settings,
        streams,
        number,
        read_tc(line),
        watch,
    )
}
