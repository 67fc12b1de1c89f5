//! The words of the program.

ghost use Rattle.std.specs.Prelude.{◌≡◌, [], IfOk, codes, false};
ghost use Rattle.clap.specs.Words.{IsPlainArg, app_of, first_value, found_of, rule_of};
ghost use Rattle.clap.specs.declared.builder.command.Command.TheViews.{out-Command as fields_of};
ghost use Rattle.drawing.specs.Given.{words_of_draws};
ghost use Rattle.script.specs.Given.{octets_of, words_of_values};
ghost use Rattle.program.specs.Given.{draw_words_in, flag_in, is_strict, looks_at_frames, streams_in, words_in};
ghost use Rattle.traffic.specs.StreamsEnd.{words_of_streams};
ghost use Rattle.program.specs.Table.{free_rule, program_app, rule_of_word, shape_of_job};

use crate::job_name::JobName;
use crate::onlooker::Looks;
use clap::{Arg, ArgAction, ArgMatches, Command};
use drawing::DrawValues;
use plan::PlanWords;
use schedule_check::CheckWords;
use script::Values;
use std::alloc::{AllocError, Global};
use stream_bounds::BoundsWords;
use traffic::StreamsWords;

/// Whether the words ask for a job that reads the standard input, as far as can be told before they are read: for a
/// prompt alone.
pub(crate) fn reads_input(words: &[String]) -> bool {
    let mut words = words.iter().skip(1).map(|word| word.as_str());
    let waits = match words.next() {
        Some("replay" | "plan" | "compare") => false,
        Some(name) => JOBS.iter().any(|job| job.name.text() == name),
        None => false,
    };
    waits && words.all(|word| word != "--help" && word != "-h")
}

/// Whether a subcommand is given a flag.
pub(crate) fn is_given(matches: &ArgMatches<'_>, name: &str) -> bool
    ensures { result ≡ flag_in name.now (found_of matches.now) }
{
    match matches.get_str(name) {
        Some(text) => text == "true",
        None => false,
    }
}

/// The value of an option, where it is given.
pub(crate) fn value_of<'a>(matches: &ArgMatches<'a>, name: &str) -> Option<&'a str>
    ensures { octets_of result ≡ first_value (found_of matches.now) name.now }
{
    matches.get_str(name)
}

/// The values that a subcommand is given.
pub fn values_of<'a>(matches: &ArgMatches<'a>) -> Values<'a>
    ensures { words_of_values result ≡ words_in (found_of matches.now) }
{
    Values {
        rate: matches.get_str("rate"),
        mtu: matches.get_str("mtu"),
        room: matches.get_str("room"),
        until: matches.get_str("until"),
        summary: is_given(matches, "summary"),
    }
}

/// The values that a picture is given.
pub(crate) fn draws_of<'a>(matches: &ArgMatches<'a>) -> DrawValues<'a>
    ensures { words_of_draws result ≡ draw_words_in (found_of matches.now) }
{
    DrawValues {
        from: matches.get_str("from"),
        to: matches.get_str("to"),
        width: matches.get_str("width"),
    }
}

/// The words that say how the frames of a table of streams come.
pub(crate) fn streams_of<'a>(matches: &ArgMatches<'a>) -> StreamsWords<'a>
    ensures { words_of_streams result ≡ streams_in (found_of matches.now) }
{
    StreamsWords {
        from: matches.get_str("from"),
        late: is_given(matches, "late"),
        seed: matches.get_str("seed"),
    }
}

/// The values that bounds are given.
pub(crate) fn bounds_of<'a>(matches: &ArgMatches<'a>) -> BoundsWords<'a>
    ensures port { words_of_values result.port ≡ words_in (found_of matches.now) }
    ensures map { octets_of result.map ≡ first_value (found_of matches.now) (codes "map") }
    ensures frames { octets_of result.frames ≡ first_value (found_of matches.now) (codes "frames") }
    ensures strict { result.strict ≡ flag_in (codes "strict") (found_of matches.now) }
    ensures slack { result.slack ≡ flag_in (codes "slack") (found_of matches.now) }
    ensures why { result.why ≡ flag_in (codes "why") (found_of matches.now) }
    ensures silent { octets_of result.silent ≡ first_value (found_of matches.now) (codes "silent") }
    ensures leftovers { result.leftovers ≡ flag_in (codes "leftovers") (found_of matches.now) }
{
    BoundsWords {
        port: values_of(matches),
        map: matches.get_str("map"),
        frames: matches.get_str("frames"),
        strict: is_given(matches, "strict"),
        slack: is_given(matches, "slack"),
        why: is_given(matches, "why"),
        silent: matches.get_str("silent"),
        leftovers: is_given(matches, "leftovers"),
    }
}

/// The values that a plan is given.
pub(crate) fn plan_of<'a>(matches: &ArgMatches<'a>) -> PlanWords<'a>
    ensures port { words_of_values result.port ≡ words_in (found_of matches.now) }
    ensures explain { result.explain ≡ flag_in (codes "explain") (found_of matches.now) }
{
    PlanWords {
        port: values_of(matches),
        cycle: matches.get_str("cycle"),
        entries: matches.get_str("entries"),
        least_interval: matches.get_str("least-interval"),
        device: matches.get_str("device"),
        base_time: matches.get_str("base-time"),
        share: is_given(matches, "share"),
        explain: is_given(matches, "explain"),
    }
}

/// What a subcommand is asked to look at, where the standard error is a terminal or isn't.
pub(crate) fn looks_of(matches: &ArgMatches<'_>, terminal: bool) -> Looks
    ensures strict { result.strict ≡ is_strict (found_of matches.now) }
    ensures frames { result.frames ≡ looks_at_frames (found_of matches.now) }
{
    let frames = is_given(matches, "strict-frames");
    Looks {
        explain: terminal || is_given(matches, "explain"),
        strict: frames || is_given(matches, "strict"),
        frames,
    }
}

/// What a check is given, and asked for.
pub(crate) fn checks_of<'a>(matches: &ArgMatches<'a>) -> CheckWords<'a>
    ensures rate { octets_of result.rate ≡ first_value (found_of matches.now) (codes "rate") }
    ensures mtu { octets_of result.mtu ≡ first_value (found_of matches.now) (codes "mtu") }
    ensures map { octets_of result.map ≡ first_value (found_of matches.now) (codes "map") }
    ensures frame { octets_of result.frame ≡ first_value (found_of matches.now) (codes "frame") }
    ensures shares { result.shares ≡ flag_in (codes "shares") (found_of matches.now) }
    ensures windows { result.windows ≡ flag_in (codes "windows") (found_of matches.now) }
    ensures script { result.script ≡ flag_in (codes "script") (found_of matches.now) }
{
    CheckWords {
        rate: matches.get_str("rate"),
        mtu: matches.get_str("mtu"),
        map: matches.get_str("map"),
        frame: matches.get_str("frame"),
        shares: is_given(matches, "shares"),
        windows: is_given(matches, "windows"),
        script: is_given(matches, "script"),
    }
}

/// How a word is given.
#[derive(Clone, Copy)]
enum Given {
    /// As `--NAME VALUE`, or not at all.
    Value,
    /// As `--NAME`, or not at all.
    Flag,
    /// As the name of a file alone.
    File,
}

/// A word that a job understands: its name, what its value is called, and what it does.
#[derive(Clone, Copy)]
struct Word {
    given: Given,
    name: &'static str,
    value: &'static str,
    help: &'static str,
    /// The name of a word that may not stand beside it.
    without: Option<&'static str>,
}

/// A job of the program, with the words that it understands, in the order in which its help lists them.
#[derive(Clone, Copy)]
pub(crate) struct Job {
    pub name: JobName,
    about: &'static str,
    words: &'static [Word],
}

const RATE: Word = Word {
    given: Given::Value,
    name: "rate",
    value: "MBPS",
    help: "The line rate, in Mb/s [default: 1000]",
    without: None,
};

const MTU: Word = Word {
    given: Given::Value,
    name: "mtu",
    value: "OCTETS",
    help: "The greatest service data unit, 68 to 9216 octets [default: 1500]",
    without: None,
};

const ROOM: Word = Word {
    given: Given::Value,
    name: "room",
    value: "FRAMES",
    help: "How many frames a class holds, 1 to 4096 [default: 128]",
    without: None,
};

const UNTIL: Word = Word {
    given: Given::Value,
    name: "until",
    value: "MOMENT",
    help: "Run to this moment after the input: picoseconds, or a number with its unit, such as 2ms",
    without: None,
};

const UNTIL_AFTER_BOTH: Word = Word {
    help: "Run to this moment after the input, such as 2ms [default: until no frame can start any more]",
    ..UNTIL
};

const STAMP: Word = Word {
    given: Given::Value,
    name: "stamp",
    value: "POINT",
    help: "Which moment the records of OUT have: start, or end, when the last octet has been sent [default: start]",
    without: None,
};

const SHIFT: Word = Word {
    given: Given::Value,
    name: "shift",
    value: "TIME",
    help: "Add this time to the moment of each record, such as 5us; one that is taken off has - in front: --shift=-37s",
    without: None,
};

const FORMAT: Word = Word {
    given: Given::Value,
    name: "format",
    value: "FORMAT",
    help: "How the capture is written: pcap, pcapng, or auto, which looks at its first octets [default: pcap]",
    without: None,
};

const FCS: Word = Word {
    given: Given::Value,
    name: "fcs",
    value: "WORD",
    help: "Whether the frames of the capture have their check sequence, 4 octets each: absent or present [default: absent]",
    without: None,
};

const BY: Word = Word {
    given: Given::Value,
    name: "by",
    value: "WORD",
    help: "Which frames are compared: order, the n-th with the n-th; id, or payload [default: order]",
    without: None,
};

const WITHIN: Word = Word {
    given: Given::Value,
    name: "within",
    value: "TIME",
    help: "End with status 1 where moments differ by more, such as 1us, a frame has no partner, or there is no pair",
    without: None,
};

const FIRST: Word = Word {
    given: Given::File,
    name: "first",
    value: "A",
    help: "A file with a capture, or with a table as frames writes it",
    without: None,
};

const SECOND: Word = Word {
    given: Given::File,
    name: "second",
    value: "B",
    help: "The file that it is compared with",
    without: None,
};

const TOLERANT: Word = Word {
    given: Given::Flag,
    name: "tolerant",
    value: "",
    help: "Read tc lines as they are pasted: pass over prompts, sudo, paths of tc, quotes and semicolons, and say so",
    without: None,
};

const OF_DEVICE: Word = Word {
    given: Given::Value,
    name: "device",
    value: "NAME",
    help: "Take the tc lines of this device alone, and pass over those of others",
    without: None,
};

const SUMMARY: Word = Word {
    given: Given::Flag,
    name: "summary",
    value: "",
    help: "Report at the end how long the frames of each class waited, and how long the wire was busy",
    without: None,
};

const PROGRESS: Word = Word {
    given: Given::Flag,
    name: "progress",
    value: "",
    help: "Report progress on standard error, also where that is no terminal",
    without: None,
};

const SCRIPT: Word = Word {
    given: Given::File,
    name: "script",
    value: "SCRIPT",
    help: "The file with the script",
    without: None,
};

const CAPTURE: Word = Word {
    given: Given::File,
    name: "capture",
    value: "CAPTURE",
    help: "The file with the capture, or - for the standard input",
    without: None,
};

const OUT: Word = Word {
    given: Given::File,
    name: "out",
    value: "OUT",
    help: "The file for the capture of what leaves, created or overwritten",
    without: None,
};

const MAP: Word = Word {
    given: Given::Value,
    name: "map",
    value: "CLASSES",
    help: "The map that the port has already: the classes of the priorities from 0 up, as \"0 1 2\" [default: it is a new port]",
    without: None,
};

const SHARES: Word = Word {
    given: Given::Flag,
    name: "shares",
    value: "",
    help: "Report for each class which others share windows with it",
    without: None,
};

const WINDOWS: Word = Word {
    given: Given::Flag,
    name: "windows",
    value: "",
    help: "Report for how long each class is open and closed, its longest frame, and how long that can wait",
    without: None,
};

const FRAME: Word = Word {
    given: Given::Value,
    name: "frame",
    value: "OCTETS",
    help: "With --windows, report how long a frame of this length can wait, too",
    without: None,
};

const SCRIPT_LINES: Word = Word {
    given: Given::Flag,
    name: "script",
    value: "",
    help: "Read a script: lines that are no schedule commands are passed over",
    without: None,
};

const LINES: Word = Word {
    given: Given::Value,
    name: "with",
    value: "SCRIPT",
    help: "A file with a script whose lines are put among the frames, each at its moment",
    without: None,
};

const FROM: Word = Word {
    given: Given::Value,
    name: "from",
    value: "MOMENT",
    help: "The moment that the picture begins at: picoseconds, or a number with its unit [default: with --to 0, else the first frame]",
    without: None,
};

const OFFSETS_FROM: Word = Word {
    given: Given::Value,
    name: "from",
    value: "MOMENT",
    help: "A moment that is added to each offset: picoseconds, or a number with its unit [default: 0]",
    without: None,
};

const LATE: Word = Word {
    given: Given::Flag,
    name: "late",
    value: "",
    help: "Have each frame come as late as its jitter lets it, in place of as early",
    without: None,
};

const SEED: Word = Word {
    given: Given::Value,
    name: "seed",
    value: "NUMBER",
    help: "Have each frame come at a moment, and with a length, that are drawn from what the table allows: the same for the same number",
    without: None,
};

const FRAMES: Word = Word {
    given: Given::Value,
    name: "frames",
    value: "FRAMES",
    help: "Look at so many frames of a class at most, 1 to 1000000000 [default: 1000000]",
    without: None,
};

const SLACK: Word = Word {
    given: Given::Flag,
    name: "slack",
    value: "",
    help: "Report the greatest jitter with which each stream still makes its deadline",
    without: None,
};

const WHY: Word = Word {
    given: Given::Flag,
    name: "why",
    value: "",
    help: "Report what the greatest wait of each stream is made of: gates, lower classes, higher ones, its own queue",
    without: None,
};

const SILENT: Word = Word {
    given: Given::Value,
    name: "silent",
    value: "CLASSES",
    help: "Take it for granted that these classes send nothing, where they have no streams: classes with commas, 6,7",
    without: None,
};

const LEFTOVERS: Word = Word {
    given: Given::Flag,
    name: "leftovers",
    value: "",
    help: "Allow for frames of other classes that wait from before the schedule, but of silent ones",
    without: None,
};

const STRICT: Word = Word {
    given: Given::Flag,
    name: "strict",
    value: "",
    help: "End with status 1 where a deadline is missed or unknown, frames are lost, a command is refused, or nothing is judged",
    without: None,
};

const STRICT_COMMANDS: Word = Word {
    given: Given::Flag,
    name: "strict",
    value: "",
    help: "End with status 1 where a tc line is no command, or its command is refused",
    without: None,
};

const STRICT_FRAMES: Word = Word {
    given: Given::Flag,
    name: "strict-frames",
    value: "",
    help: "As --strict, and end with status 1 also where a frame is dropped, or left at the end",
    without: None,
};

const STRICT_CHECK: Word = Word {
    help: "End with status 1 where a tc line is no command, a new port refuses it, it never opens a class that is used, or there is no command",
    ..STRICT_COMMANDS
};

const STRICT_STREAMS: Word = Word {
    help: "End with status 1 where a tc line of SCRIPT is no command, or two streams share ids",
    ..STRICT_COMMANDS
};

const EXPLAIN: Word = Word {
    given: Given::Flag,
    name: "explain",
    value: "",
    help: "Report with a fault its line and what was expected, also where standard error is no terminal",
    without: None,
};

const TABLE: Word = Word {
    given: Given::File,
    name: "table",
    value: "TABLE",
    help: "The file with the table of streams",
    without: None,
};

const TABLE_OR_NETWORK: Word = Word {
    help: "The file with the table of streams, or with a network: its ports, links and streams",
    ..TABLE
};

const NETWORK: Word = Word {
    given: Given::File,
    name: "network",
    value: "NETWORK",
    help: "The file with the network: its ports, links and streams",
    without: None,
};

const NEXT: Word = Word {
    given: Given::Value,
    name: "next",
    value: "NAME",
    help: "Write the table of the streams that come to this port, as bounds reads it, in place of the answers",
    without: None,
};

const STRICT_PATHS: Word = Word {
    help: "End with status 1 where a deadline is missed or unknown, frames are lost, or nothing is judged",
    ..STRICT
};

const CYCLE: Word = Word {
    given: Given::Value,
    name: "cycle",
    value: "TIME",
    help: "The cycle of the schedule, such as 1ms [default: one that all periods go into, or that goes into them]",
    without: None,
};

const ENTRIES: Word = Word {
    given: Given::Value,
    name: "entries",
    value: "NUMBER",
    help: "How many entries the schedule has at most, 1 to 256 [default: 256]",
    without: None,
};

const LEAST_INTERVAL: Word = Word {
    given: Given::Value,
    name: "least-interval",
    value: "TIME",
    help: "How long each entry is at the least, such as 2us [default: as long as the shortest frame]",
    without: None,
};

const DEVICE: Word = Word {
    given: Given::Value,
    name: "device",
    value: "NAME",
    help: "The device of the schedule [default: eth0]",
    without: None,
};

const BASE_TIME: Word = Word {
    given: Given::Value,
    name: "base-time",
    value: "NS",
    help: "The base time of the schedule, in nanoseconds [default: 0]",
    without: None,
};

const SHARE: Word = Word {
    given: Given::Flag,
    name: "share",
    value: "",
    help: "Let lower classes without deadlines use what the windows of a class leave",
    without: None,
};

const EXPLAIN_PLAN: Word = Word {
    help: "Report what the plan leaves to class 0, and what bounds or paths says of it, on standard error",
    ..EXPLAIN
};

const BY_STREAM: Word = Word {
    given: Given::Value,
    name: "by-stream",
    value: "TABLE",
    help: "A file with the table of streams: a last column says which of them each frame is of",
    without: None,
};

const CAPTURE_OF_FRAMES: Word = Word {
    given: Given::Value,
    name: "capture",
    value: "CAPTURE",
    help: "A file with a capture: the table is that of its frames, run beside the script as by replay",
    without: Some("by-stream"),
};

const CAPTURE_DRAWN: Word = Word {
    given: Given::Value,
    name: "capture",
    value: "CAPTURE",
    help: "A file with a capture: its frames are drawn, run beside the script as by replay, until no frame can start any more",
    without: None,
};

const CAPTURE_OF_TABLE: Word = Word {
    given: Given::Value,
    name: "capture",
    value: "OUT",
    help: "Write the frames as a capture into this file, or with - to standard output, in place of a script",
    without: Some("with"),
};

const TO: Word = Word {
    given: Given::Value,
    name: "to",
    value: "MOMENT",
    help: "The moment that it ends at: picoseconds, or a number with its unit [default: the end of the run]",
    without: None,
};

const WIDTH: Word = Word {
    given: Given::Value,
    name: "width",
    value: "PX",
    help: "Its width, 400 to 2400 pixels [default: 1200]",
    without: None,
};

pub(crate) const JOBS: [Job; 10] = [
    Job {
        name: JobName::Script,
        about: "Answers the lines of a script on standard input",
        words: &[
            RATE,
            MTU,
            ROOM,
            UNTIL,
            TOLERANT,
            OF_DEVICE,
            SUMMARY,
            STRICT_COMMANDS,
            STRICT_FRAMES,
            EXPLAIN,
        ],
    },
    Job {
        name: JobName::Replay,
        about: "Runs a script and a capture by moment: a report on standard output, and a capture of what leaves",
        words: &[
            RATE,
            MTU,
            ROOM,
            UNTIL_AFTER_BOTH,
            STAMP,
            SHIFT,
            FORMAT,
            FCS,
            TOLERANT,
            OF_DEVICE,
            SUMMARY,
            PROGRESS,
            STRICT_COMMANDS,
            STRICT_FRAMES,
            EXPLAIN,
            SCRIPT,
            CAPTURE,
            OUT,
        ],
    },
    Job {
        name: JobName::Check,
        about: "Reports which classes the schedule commands on standard input keep apart",
        words: &[
            RATE,
            MTU,
            MAP,
            SHARES,
            WINDOWS,
            FRAME,
            SCRIPT_LINES,
            TOLERANT,
            OF_DEVICE,
            STRICT_CHECK,
            EXPLAIN,
        ],
    },
    Job {
        name: JobName::Streams,
        about: "Writes a script with the frames of the streams in a table on standard input",
        words: &[
            LINES,
            OFFSETS_FROM,
            LATE,
            SEED,
            CAPTURE_OF_TABLE,
            STRICT_STREAMS,
            EXPLAIN,
        ],
    },
    Job {
        name: JobName::Bounds,
        about: "Reports how long the frames of the streams in a table can ever wait, by the schedule commands on standard input",
        words: &[
            RATE, MTU, ROOM, MAP, FRAMES, SILENT, LEFTOVERS, SLACK, WHY, TOLERANT, OF_DEVICE,
            STRICT, EXPLAIN, TABLE,
        ],
    },
    Job {
        name: JobName::Paths,
        about: "Reports how long the frames of a network's streams can ever take, by the schedule commands of its ports on standard input",
        words: &[
            RATE,
            MTU,
            ROOM,
            FRAMES,
            SILENT,
            LEFTOVERS,
            NEXT,
            TOLERANT,
            STRICT_PATHS,
            EXPLAIN,
            NETWORK,
        ],
    },
    Job {
        name: JobName::Plan,
        about: "Finds schedules that meet the deadlines of the streams in a table or a network, and writes their tc lines",
        words: &[
            RATE,
            MTU,
            ROOM,
            CYCLE,
            ENTRIES,
            LEAST_INTERVAL,
            DEVICE,
            BASE_TIME,
            SHARE,
            EXPLAIN_PLAN,
            TABLE_OR_NETWORK,
        ],
    },
    Job {
        name: JobName::Draw,
        about: "Draws the run of a script on standard input, or of it and a capture, as an SVG picture",
        words: &[
            RATE,
            MTU,
            ROOM,
            UNTIL,
            CAPTURE_DRAWN,
            FORMAT,
            FCS,
            FROM,
            TO,
            WIDTH,
            TOLERANT,
            OF_DEVICE,
            STRICT_COMMANDS,
            EXPLAIN,
        ],
    },
    Job {
        name: JobName::Frames,
        about: "Writes a table of the frames of a script on standard input, as CSV: times, waits and fates",
        words: &[
            RATE,
            MTU,
            ROOM,
            UNTIL,
            CAPTURE_OF_FRAMES,
            FORMAT,
            FCS,
            BY_STREAM,
            TOLERANT,
            OF_DEVICE,
            STRICT_COMMANDS,
            EXPLAIN,
        ],
    },
    Job {
        name: JobName::Compare,
        about: "Compares two captures, or two tables of frames, frame by frame",
        words: &[BY, WITHIN, EXPLAIN, FIRST, SECOND],
    },
];

/// A word as `clap` has it, which may stand beside each other.
fn free_arg_of<'a>(alloc: Global, word: &Word) -> Arg<'a>
    ensures rule { rule_of result ≡ free_rule word.now.given word.now.name.now }
    ensures plain { IsPlainArg result }
    ensures local { result.global ≡ false }
{
    let arg = Arg::new(alloc, word.name).help(word.help);
    match word.given {
        Given::Value => arg.long(word.name).value_name(word.value),
        Given::Flag => arg.long(word.name).action(ArgAction::SetTrue),
        Given::File => arg.value_name(word.value).required(true),
    }
}

/// A word as `clap` has it.
fn arg_of<'a>(alloc: Global, word: &Word) -> Result<Arg<'a>, AllocError>
    ensures rule { IfOk result (λ arg. rule_of arg ≡ rule_of_word word.now) }
    ensures local { IfOk result (λ arg. arg.global ≡ false) }
{
    let arg = free_arg_of(alloc, word);
    match word.without {
        None => Ok(arg),
        Some(other) => arg.conflicts_with(other),
    }
}

/// What the help says of the exit status.
const STATUSES: &str =
    "Exit status: 0 done, 1 a strict run has found something, 2 a word or a value is refused,\n\
3 an input is malformed, 4 a file can't be opened, a read or a write failed, or out of memory";

/// A job with its words as `clap` has it.
fn command_of<'a>(alloc: Global, job: &Job) -> Result<Command<'a>, AllocError>
    ensures app { IfOk result
        (λ command. app_of command ≡ record { top = shape_of_job job.now; subs = [] }) }
    ensures local { IfOk result (λ command. (fields_of command).has_globals ≡ false) }
{
    let mut command = Command::new(alloc, job.name.text())
        .about(job.about)
        .after_help(STATUSES);
    for word in job.words {
        command = command.arg(arg_of(alloc, word)?)?;
    }
    Ok(command)
}

/// What the program understands.
pub(crate) fn command<'a>(alloc: Global) -> Result<Command<'a>, AllocError>
    ensures { IfOk result (λ command. app_of command ≡ program_app) }
{
    let mut program = Command::new(alloc, "taprio_port")
        .version("0.2.0")
        .about("An IEEE 802.1Qbv time-aware transmit port")
        .after_help(STATUSES)
        .subcommand_required(true);
    for job in &JOBS {
        program = program.subcommand(command_of(alloc, job)?)?;
    }
    Ok(program)
}
