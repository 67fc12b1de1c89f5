//! What is looked at in the end.

ghost use Rattle.std.specs.Prelude.{◌≡◌, Err, MatchResult, Ok, option_map};
ghost use Rattle.port_text.specs.Words.{view, ranges_of, classes_of, closed_change, eight_limits, command_given, heads_missing};

use crate::tc_reader::capped::CappedOptions;
use crate::tc_reader::fault::{Opt, TcFault};
use crate::tc_reader::heads::Seen;
use abstract_port::class_map::{ClassMap, Queues};
use abstract_port::{Change, Command};
use gates::gate_list::GateList;
use wire_time::CLASSES;

/// Whether the heads are there that every line has.
pub(crate) fn check_heads(seen: Seen) -> Result<(), TcFault>
    ensures { result ≡ heads_missing seen.dev seen.parent }
{
    if !seen.dev {
        return Err(TcFault::MissingWord(Opt::Dev));
    }
    if !seen.parent {
        return Err(TcFault::MissingWord(Opt::Parent));
    }
    Ok(())
}

/// Writes the ranges that the options give, or that they give none.
fn put_ranges(num_tc: u8, given: &CappedOptions, queues: &mut Option<Queues>) -> Result<(), TcFault>
    ensures { let wanted = ranges_of num_tc (view given.now).ranges in
        MatchResult result (λ _. wanted ≡ Ok queues.new) (λ f. wanted ≡ Err f) }
{
    let Some(ranges) = &given.ranges else {
        *queues = None;
        return Ok(());
    };
    match Queues::new(num_tc, ranges) {
        Ok(new) => {
            *queues = Some(new);
            Ok(())
        }
        Err(fault) => Err(TcFault::Ranges(fault)),
    }
}

/// Writes the map and the ranges that the options give. They are written where they are kept: in a result they would
/// be moved through the stack, which is slow for values of such odd sizes. After a fault each is the new or the old.
fn put_classes(
    given: &CappedOptions,
    map: &mut Option<ClassMap>,
    queues: &mut Option<Queues>,
) -> Result<(), TcFault>
    ensures { let g = view given.now in let wanted = classes_of g.num_tc g.priorities g.ranges in
        MatchResult result (λ _. wanted ≡ Ok (map.new, queues.new)) (λ f. wanted ≡ Err f) }
{
    match (given.num_tc, &given.priorities) {
        (None, None) => {
            if given.ranges.is_some() {
                return Err(TcFault::MissingWord(Opt::NumTc));
            }
            *map = None;
            *queues = None;
            Ok(())
        }
        (None, Some(_)) => Err(TcFault::MissingWord(Opt::NumTc)),
        (Some(_), None) => Err(TcFault::MissingWord(Opt::Map)),
        (Some(num_tc), Some(priorities)) => {
            match ClassMap::new(num_tc, priorities) {
                Ok(new) => *map = Some(new),
                Err(fault) => return Err(TcFault::Map(fault)),
            }
            put_ranges(num_tc, given, queues)
        }
    }
}

/// The limits of all classes, in octets, 0 for those that are missing.
fn eight_limits(limits: &[u32]) -> [u32; CLASSES]
    ensures { result ≡ eight_limits limits.now }
{
    let mut eight = [0; CLASSES];
    let count = limits.len().min(CLASSES);
    eight[..count].copy_from_slice(&limits[..count]);
    eight
}

fn limits_of(given: &CappedOptions) -> Option<[u32; CLASSES]>
    ensures { result ≡ option_map eight_limits (view given.now).limits }
{
    match &given.limits {
        Some(limits) => Some(eight_limits(limits)),
        None => None,
    }
}

/// A change to a list that closes all classes, with no times.
fn closed_change() -> Change
    ensures { result ≡ closed_change }
{
    Change {
        map: None,
        queues: None,
        max_sdu: None,
        list: GateList::closed(),
        base_ns: 0,
        cycle_ns: 0,
        extension_ns: 0,
    }
}

/// A place that commands are read into, one after another, since each takes two kilobytes, and so do its options while
/// they are read.
#[derive(Debug, Drop)]
pub struct CommandPlace {
    /// The command of the last line that was read, or its first fault.
    pub answer: Result<Command, TcFault>,
    /// Its options.
    pub(crate) given: CappedOptions,
}

impl CommandPlace {
    /// Before the first line: with a command that closes all classes.
    pub fn new() -> CommandPlace
        ensures { result.answer ≡ Ok (Command.Replace closed_change) }
    {
        CommandPlace {
            answer: Ok(Command::Replace(closed_change())),
            given: CappedOptions::new(),
        }
    }
}

/// The change that the options give takes the place of another one.
#[inline(always)]
fn give_change(given: &CappedOptions, change: &mut Change) -> Result<(), TcFault>
    ensures { MatchResult result
        (λ _. command_given (view given.now) ≡ Ok (Command.Replace change.new))
        (λ f. command_given (view given.now) ≡ Err f) }
{
    put_classes(given, &mut change.map, &mut change.queues)?;
    match change.list.set(&given.entries) {
        Ok(()) => {}
        Err(fault) => return Err(TcFault::Gates(fault)),
    }
    change.max_sdu = limits_of(given);
    change.base_ns = given.base_time.unwrap_or(0);
    change.cycle_ns = given.cycle_time.unwrap_or(0);
    change.extension_ns = given.extension.unwrap_or(0);
    Ok(())
}

/// The command that the options give, where no list is written over. Apart, since it is seldom, and a command is
/// large.
#[inline(never)]
fn put_command(given: &CappedOptions, answer: &mut Result<Command, TcFault>)
    ensures { answer.new ≡ command_given (view given.now) }
{
    let mut change = closed_change();
    *answer = match give_change(given, &mut change) {
        Ok(()) => Ok(Command::Replace(change)),
        Err(fault) => Err(fault),
    };
}

/// Answers with a fault. Apart, since it is seldom: the compiler would clear two kilobytes for it in the body of each
/// caller.
#[cold]
#[inline(never)]
pub(crate) fn put_fault(fault: TcFault, answer: &mut Result<Command, TcFault>)
    ensures { answer.new ≡ Err fault }
{
    *answer = Err(fault);
}

/// Answers with the command that the options give. Where there is a change already, it is written over, since a list of
/// entries takes two kilobytes.
pub(crate) fn give_command(given: &CappedOptions, answer: &mut Result<Command, TcFault>)
    ensures { answer.new ≡ command_given (view given.now) }
{
    match answer {
        Ok(Command::Replace(change)) => match give_change(given, change) {
            Ok(()) => {}
            Err(fault) => put_fault(fault, answer),
        },
        _ => put_command(given, answer),
    }
}
