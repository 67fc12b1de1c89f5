//! Lines that begin with `tc` and change nothing.

use crate::marks::{Hint, Span, put_hint, span_at, span_behind, span_of, word_at};
use crate::near::nearest;
use crate::shell_words::pasted_word;
use abstract_port::Refused;
use abstract_port::class_map::{MapFault, QueueFault};
use gates::gate_list::{GateFault, PlanFault};
use port_text::answer_text::{Part, WriteFault, put_parts, put_refused, put_tc_fault};
use port_text::tc_reader::{Opt, TcFault};
use script::Failure;
use std::io::Write;
use text::words::Words;

/// The options of taprio.
const OPTIONS: [&[u8]; 12] = [
    b"num_tc",
    b"map",
    b"queues",
    b"base-time",
    b"cycle-time",
    b"cycle-time-extension",
    b"sched-entry",
    b"clockid",
    b"flags",
    b"txtime-delay",
    b"max-sdu",
    b"fp",
];

/// The verbs of a command.
const VERBS: [&[u8]; 4] = [b"add", b"replace", b"change", b"del"];

/// Where a word stands for the time of this number, counted from 0.
fn span_of_word(line: &[u8], wanted: &[u8], turn: u32) -> Option<Span> {
    let mut words = Words::new(line);
    let mut left = turn;
    for _ in 0..line.len() {
        let word = words.next_word()?;
        if word == wanted {
            if left == 0 {
                return Some(span_of(line, &words, word));
            }
            left -= 1;
        }
    }
    None
}

/// The option that the word of a place is a value of.
fn option_before(line: &[u8], place: usize) -> &[u8] {
    let mut words = Words::new(line);
    let mut found: &[u8] = b"";
    for _ in 0..place {
        let Some(word) = words.next_word() else {
            return found;
        };
        for option in &OPTIONS {
            if word == *option {
                found = word;
            }
        }
    }
    found
}

/// What a value of an option is.
fn value_of(option: &[u8]) -> &'static [u8] {
    match option {
        b"num_tc" => b"num_tc N: how many classes there are, 1 to 8",
        b"map" =>
            b"map C0 C1 ..: the class of each priority, whole numbers below num_tc, at most 16",
        b"queues" => b"queues COUNT@OFFSET ..: a range for each class, such as 1@0",
        b"base-time" => b"base-time NS: whole nanoseconds, without a unit",
        b"cycle-time" => b"cycle-time NS: whole nanoseconds, without a unit",
        b"cycle-time-extension" => b"cycle-time-extension NS: whole nanoseconds, without a unit",
        b"sched-entry" =>
            b"sched-entry S MASK NS: a mask in hexadecimal up to ff, and whole nanoseconds without a unit",
        b"clockid" => b"clockid NAME: such as CLOCK_TAI",
        b"flags" => b"flags N: 0 or 2",
        b"max-sdu" => b"max-sdu N ..: octets for each class, 0 for no limit",
        _ => b"a whole number",
    }
}

/// What is missing in a line.
fn missing(option: Opt) -> &'static [u8] {
    match option {
        Opt::Dev => b"dev NAME is needed",
        Opt::Parent => b"root, or parent ID, is needed",
        Opt::NumTc => b"num_tc N is needed, with its number: num_tc and map stand together",
        Opt::Map => b"map C0 C1 .. is needed, with a number: num_tc and map stand together",
        _ => value_of(option.word()),
    }
}

/// Why a port doesn't serve an option.
fn unserved(option: Opt) -> &'static [u8] {
    match option {
        Opt::SchedEntry =>
            b"an entry sets gates: sched-entry S MASK NS. Hold and release (H, R) are frame preemption",
        Opt::Flags =>
            b"flags is 0 or 2: 1 asks for launch times (txtime assist), and sets no gate. Leave out both words, or give --tolerant",
        Opt::TxtimeDelay =>
            b"txtime-delay is for launch times (txtime assist), and sets no gate. Leave out both words, or give --tolerant",
        Opt::Fp =>
            b"fp says which classes are preemptible (frame preemption), and sets no gate. Leave out fp and its letters, or give --tolerant",
        _ => b"the port has no such option",
    }
}

/// What helps with a line that is no command for taprio.
fn no_taprio(line: &[u8]) -> Hint {
    let expected: &[u8] =
        b"a command is: tc qdisc add, replace, change or del, dev NAME, root or parent ID, taprio ..";
    for (place, wanted) in [(0usize, b"tc".as_slice()), (1, b"qdisc".as_slice())] {
        if word_at(line, place) != Some(wanted) {
            return Hint::marked(span_at(line, place), expected);
        }
    }
    let verb = word_at(line, 2).unwrap_or(b"");
    for known in &VERBS {
        if verb == *known {
            return Hint::plain(expected);
        }
    }
    Hint {
        span: span_at(line, 2),
        expected,
        meant: nearest(verb, &VERBS),
    }
}

/// What helps with the classes of priorities.
fn map_hint(line: &[u8], fault: MapFault) -> Hint {
    match fault {
        MapFault::BadClassCount => {
            Hint::marked(span_of_word(line, b"num_tc", 0), b"num_tc is 1 to 8")
        }
        MapFault::TooManyPriorities => Hint::marked(
            span_of_word(line, b"map", 0),
            b"map has at most 16 numbers, one for each priority from 0 to 15",
        ),
        MapFault::ClassOutOfRange => Hint::marked(
            span_of_word(line, b"map", 0),
            b"each number of map is below num_tc: with num_tc N the classes are 0 to N - 1",
        ),
    }
}

/// What helps with the ranges of queues.
fn queue_hint(line: &[u8], fault: QueueFault) -> Hint {
    let span = span_of_word(line, b"queues", 0);
    match fault {
        QueueFault::QueueCount => Hint::marked(span, b"queues has one COUNT@OFFSET for each class"),
        QueueFault::EmptyQueue => {
            Hint::marked(
                span,
                b"the count comes first and is at least 1: 1@0 is one queue, the first",
            )
        }
        QueueFault::QueueOverlap => {
            Hint::marked(
                span,
                b"no two ranges of queues overlap: 2@0 is queues 0 and 1, so the next begins at 2",
            )
        }
    }
}

/// What helps with entries.
fn gate_hint(line: &[u8], fault: GateFault) -> Hint {
    match fault {
        GateFault::NoEntries => Hint::marked(
            Some(span_behind(line)),
            b"at least one entry is needed: sched-entry S MASK NS",
        ),
        GateFault::TooManyEntries => Hint::plain(b"there are at most 256 entries"),
        GateFault::ZeroInterval => Hint::marked(
            span_of_word(line, b"sched-entry", 0),
            b"the interval of each entry is more than 0 ns",
        ),
    }
}

/// What helps with a word of a command that a shell takes for its own.
fn shell_hint(line: &[u8], fault: TcFault) -> Option<Hint> {
    match fault {
        TcFault::UnknownOption(place) | TcFault::BadNumber(place) => {
            let text = pasted_word(word_at(line, place)?)?;
            Some(Hint::marked(span_at(line, place), text))
        }
        _ => None,
    }
}

/// What helps with a line that is no command.
fn malformed_hint(line: &[u8], fault: TcFault) -> Hint {
    if let Some(hint) = shell_hint(line, fault) {
        return hint;
    }
    match fault {
        TcFault::NotTaprio => no_taprio(line),
        TcFault::MissingWord(option) => { Hint::marked(Some(span_behind(line)), missing(option)) }
        TcFault::UnknownOption(place) => Hint {
            span: span_at(line, place),
            expected: b"no option of taprio, or one value more than its option has",
            meant: nearest(word_at(line, place).unwrap_or(b""), &OPTIONS),
        },
        TcFault::Repeated(option) => Hint::marked(
            span_of_word(line, option.word(), 1),
            b"it may stand once: of the options sched-entry alone is repeated",
        ),
        TcFault::BadNumber(place) => {
            Hint::marked(span_at(line, place), value_of(option_before(line, place)))
        }
        TcFault::Unsupported(option) => {
            Hint::marked(span_of_word(line, option.word(), 0), unserved(option))
        }
        TcFault::Map(fault) => map_hint(line, fault),
        TcFault::Ranges(fault) => queue_hint(line, fault),
        TcFault::Gates(fault) => gate_hint(line, fault),
    }
}

/// What helps with a schedule that is refused.
fn plan_hint(line: &[u8], fault: PlanFault) -> Hint {
    match fault {
        PlanFault::IntervalTooShort(index) => Hint::marked(
            span_of_word(line, b"sched-entry", u32::from(index)),
            b"an entry is at least as long as 60 octets take: 480 ns at 1000 Mb/s",
        ),
        PlanFault::CycleTooShort => Hint::marked(
            span_of_word(line, b"cycle-time", 0),
            b"a cycle is at least as long as 60 octets take: without cycle-time it is the sum of the entries",
        ),
        PlanFault::CycleTooLong => Hint::marked(
            span_of_word(line, b"cycle-time", 0),
            b"a cycle is at most 2^40 ns, some 18 minutes: times are nanoseconds",
        ),
        PlanFault::ExtensionTooLong => Hint::marked(
            span_of_word(line, b"cycle-time-extension", 0),
            b"an extension is at most 2^40 ns: times are nanoseconds",
        ),
        PlanFault::BaseTooLate => Hint::marked(
            span_of_word(line, b"base-time", 0),
            b"the base time is at most 2^63 - 1 ns: times are nanoseconds",
        ),
    }
}

/// What helps with a command that is refused.
fn refused_hint(line: &[u8], why: Refused) -> Hint {
    match why {
        Refused::MapMissing => Hint::marked(
            Some(span_behind(line)),
            b"the first schedule of a port has num_tc and map; check and bounds take a port that has a map by --map",
        ),
        Refused::MapChanged => Hint::marked(
            span_of_word(line, b"num_tc", 0),
            b"num_tc, map and queues stay those of the first schedule: leave them out, or repeat them",
        ),
        Refused::SduTooLarge(_) => Hint::marked(
            span_of_word(line, b"max-sdu", 0),
            b"max-sdu is at most the mtu of the port (--mtu, 1500 where it isn't given)",
        ),
        Refused::Schedule(fault) => plan_hint(line, fault),
        Refused::Busy(_) => Hint::plain(
            b"the command before it is still announced: the number is the moment, in ps, from which on another is accepted; all devices are one port here",
        ),
    }
}

/// A mask that has one class in decimal, and another, or several, in hexadecimal as it is read.
fn decimal_mask(mask: &[u8]) -> Option<&'static [u8]> {
    match mask {
        b"16" => Some(
            b"a mask is hexadecimal: 16 opens classes 1, 2 and 4, and 10 is class 4 alone",
        ),
        b"32" => Some(
            b"a mask is hexadecimal: 32 opens classes 1, 4 and 5, and 20 is class 5 alone",
        ),
        b"64" => Some(
            b"a mask is hexadecimal: 64 opens classes 2, 5 and 6, and 40 is class 6 alone",
        ),
        b"128" => Some(b"a mask is hexadecimal, and has two digits at most: 80 is class 7 alone"),
        _ => None,
    }
}

/// What helps with a schedule that never opens a class that a priority leads to.
fn never_hint(line: &[u8]) -> Hint {
    let mut words = Words::new(line);
    for _ in 0..line.len() {
        let Some(word) = words.next_word() else {
            break;
        };
        if word != b"sched-entry".as_slice() {
            continue;
        }
        let _set = words.next_word();
        let Some(mask) = words.next_word() else {
            break;
        };
        if let Some(text) = decimal_mask(mask) {
            return Hint::marked(Some(span_of(line, &words, mask)), text);
        }
    }
    Hint::marked(
        span_of_word(line, b"sched-entry", 0),
        b"a priority leads to this class, and no entry opens it: none of its frames ever leaves",
    )
}

/// Writes what is wrong with the line of this number, which begins with `tc`; then, where that is wanted, what helps
/// with it.
pub fn put_failure<W: Write>(
    writer: &mut W,
    number: u32,
    line: &[u8],
    why: Failure,
    explain: bool,
) -> Result<(), WriteFault> {
    put_parts(
        writer,
        &[
            Part::Text(b"taprio_port: script line "),
            Part::Number(u128::from(number)),
            Part::Text(b": "),
        ],
    )?;
    let hint = match why {
        Failure::Malformed(fault) => {
            put_tc_fault(writer, fault)?;
            malformed_hint(line, fault)
        }
        Failure::Refused(why) => {
            put_refused(writer, why)?;
            refused_hint(line, why)
        }
        Failure::NeverOpens(class) => {
            put_parts(
                writer,
                &[
                    Part::Text(b"class "),
                    Part::Number(u128::from(class)),
                    Part::Text(b" never opens\n"),
                ],
            )?;
            never_hint(line)
        }
    };
    if explain {
        put_hint(writer, line, hint)?;
    }
    Ok(())
}
