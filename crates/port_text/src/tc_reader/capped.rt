//! The options of a line, as they are read.

ghost use Rattle.std.specs.Prelude.{◌≡◌};
ghost use Rattle.port_text.specs.Words.{no_options, is_given};

use crate::tc_reader::fault::Opt;
use arrayvec::ArrayVec;
use gates::gate_list::{Entry, MAX_ENTRIES};
use wire_time::{CLASSES, PRIORITIES};

/// How many priorities are kept: one more than there may be.
pub(crate) const KEPT_PRIORITIES: usize = PRIORITIES + 1;

/// How many ranges of queues are kept: one more than there may be.
pub(crate) const KEPT_RANGES: usize = CLASSES + 1;

/// How many entries are kept: one more than there may be.
pub(crate) const KEPT_ENTRIES: usize = MAX_ENTRIES + 1;

/// The options of a line so far. Of the priorities, ranges and entries one more than may stand is kept, which shows
/// that there were too many; of the size limits those that have an effect.
#[derive(Debug, Drop)]
pub struct CappedOptions {
    /// The number of classes.
    pub num_tc: Option<u8>,
    /// The class of each priority, from 0.
    pub priorities: Option<ArrayVec<u8, KEPT_PRIORITIES>>,
    /// The count and the offset of the queues of each class, from 0.
    pub ranges: Option<ArrayVec<(u16, u16), KEPT_RANGES>>,
    /// The base time, in nanoseconds.
    pub base_time: Option<u64>,
    /// The cycle time, in nanoseconds.
    pub cycle_time: Option<u64>,
    /// The cycle time extension, in nanoseconds.
    pub extension: Option<u64>,
    /// The entries, with intervals in nanoseconds.
    pub entries: ArrayVec<Entry, KEPT_ENTRIES>,
    /// Whether a clock was named.
    pub clock: bool,
    /// Whether flags were given.
    pub flags: bool,
    /// The size limit of each class, from 0, in octets.
    pub limits: Option<ArrayVec<u32, CLASSES>>,
}

impl CappedOptions {
    ghost use Rattle.port_text.specs.Capped.{view};

    /// Before the first option.
    pub fn new() -> CappedOptions
        ensures { view result ≡ no_options }
    {
        CappedOptions {
            num_tc: None,
            priorities: None,
            ranges: None,
            base_time: None,
            cycle_time: None,
            extension: None,
            entries: ArrayVec::new(),
            clock: false,
            flags: false,
            limits: None,
        }
    }

    /// Before the first option again. The places of the entries are not written anew but for those that were taken.
    pub fn clear(&mut self)
        ensures { view self.new ≡ no_options }
    {
        self.num_tc = None;
        self.priorities = None;
        self.ranges = None;
        self.base_time = None;
        self.cycle_time = None;
        self.extension = None;
        self.entries.clear();
        self.clock = false;
        self.flags = false;
        self.limits = None;
    }

    /// Whether an option may not come once more.
    pub fn has(&self, opt: Opt) -> bool
        ensures { result ≡ is_given (view self.now) opt }
    {
        match opt {
            Opt::NumTc => self.num_tc.is_some(),
            Opt::Map => self.priorities.is_some(),
            Opt::Queues => self.ranges.is_some(),
            Opt::BaseTime => self.base_time.is_some(),
            Opt::CycleTime => self.cycle_time.is_some(),
            Opt::CycleTimeExtension => self.extension.is_some(),
            Opt::Clockid => self.clock,
            Opt::Flags => self.flags,
            Opt::MaxSdu => self.limits.is_some(),
            _ => false,
        }
    }
}
