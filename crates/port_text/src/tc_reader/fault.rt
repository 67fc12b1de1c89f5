//! Why a line is no command.

ghost use Rattle.std.specs.Prelude.{◌≡◌};
ghost use Rattle.port_text.specs.Words.{word_of};

use abstract_port::class_map::{MapFault, QueueFault};
use gates::gate_list::GateFault;

/// What a line names before and after `taprio`.
#[derive(Clone, Copy, Debug, PartialEq, Eq)]
pub enum Opt {
    /// The device: `dev`.
    Dev,
    /// The parent: `parent`, or `root`.
    Parent,
    /// The handle of the discipline: `handle`.
    Handle,
    /// The number of classes: `num_tc`.
    NumTc,
    /// The class of each priority: `map`.
    Map,
    /// The queues of each class: `queues`.
    Queues,
    /// The base time, in nanoseconds: `base-time`.
    BaseTime,
    /// The cycle time, in nanoseconds: `cycle-time`.
    CycleTime,
    /// The extension of the last cycle of a schedule, in nanoseconds: `cycle-time-extension`.
    CycleTimeExtension,
    /// An entry: its command, its mask and its interval in nanoseconds: `sched-entry`.
    SchedEntry,
    /// The clock of the times: `clockid`.
    Clockid,
    /// Launch time and offload: `flags`.
    Flags,
    /// How early frames are handed over for launch times: `txtime-delay`.
    TxtimeDelay,
    /// The greatest service data unit of each class, in octets: `max-sdu`.
    MaxSdu,
    /// Which classes are preemptible: `fp`.
    Fp,
}

impl Opt {
    /// The word of a line that names it; `parent` for `root` too.
    pub fn word(self) -> &'static [u8]
        ensures { result.now ≡ word_of self }
    {
        match self {
            Opt::Dev => b"dev",
            Opt::Parent => b"parent",
            Opt::Handle => b"handle",
            Opt::NumTc => b"num_tc",
            Opt::Map => b"map",
            Opt::Queues => b"queues",
            Opt::BaseTime => b"base-time",
            Opt::CycleTime => b"cycle-time",
            Opt::CycleTimeExtension => b"cycle-time-extension",
            Opt::SchedEntry => b"sched-entry",
            Opt::Clockid => b"clockid",
            Opt::Flags => b"flags",
            Opt::TxtimeDelay => b"txtime-delay",
            Opt::MaxSdu => b"max-sdu",
            Opt::Fp => b"fp",
        }
    }
}

/// The first fault of a line. A place counts the line's words from 0.
#[derive(Clone, Copy, Debug, PartialEq, Eq)]
pub enum TcFault {
    /// The line is no `tc qdisc` command for `taprio`.
    NotTaprio,
    /// The line ends before a value, or needs this option.
    MissingWord(Opt),
    /// The word at this place is no option.
    UnknownOption(usize),
    /// What may be given once is given again.
    Repeated(Opt),
    /// The word at this place is no value of its option, or too large.
    BadNumber(usize),
    /// An option, or a value of it, that a port doesn't serve.
    Unsupported(Opt),
    /// The classes of the priorities are refused.
    Map(MapFault),
    /// The queue ranges are refused.
    Ranges(QueueFault),
    /// The entries are refused.
    Gates(GateFault),
}
