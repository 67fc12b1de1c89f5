//! Gate control lists and schedules.
//!
//! The definitions are specs/Gate.antt, specs/Open.antt and specs/Stay.antt, their laws specs/Laws.antt; the
//! contracts of `GateList` and `Schedule` cite them.
ghost use Rattle.std.specs.Prelude.{◌≡◌, ◌<◌, ◌≤◌, ◌==◌, OnErr, OnOk, length};
ghost use Rattle.std.specs.List.{list_any};
ghost use Rattle.gates.specs.Closed.{closed_entries};
ghost use Rattle.gates.specs.Gate.{IsGateList, gate_fault, ok_unless, opens};

use arrayvec::ArrayVec;
use std::marker::Model;
use wire_time::CLASSES;

pub mod laws;
mod schedule;
mod table;
mod visits;

pub use schedule::Schedule;
pub use visits::Visits;

/// How many entries a gate control list has at most.
pub const MAX_ENTRIES: usize = 256;

/// The longest cycle or extension that a schedule takes, in nanoseconds: 2^40.
pub const MAX_CYCLE_NS: u64 = 1 << 40;

/// The latest base time that a schedule takes, in nanoseconds: 2^63 - 1.
pub const MAX_BASE_NS: u64 = (1 << 63) - 1;

/// One entry of a gate control list.
#[derive(Clone, Copy, Debug, Default, PartialEq, Eq)]
pub struct Entry {
    /// Which classes are open: bit c is class c.
    pub mask: u8,
    /// For how many nanoseconds.
    pub interval: u32,
}

/// What a cycle shows for a while.
#[derive(Clone, Copy, Debug, Default, PartialEq, Eq)]
pub struct Slot {
    /// Which classes are open: bit c is class c.
    pub mask: u8,
    /// For how many picoseconds.
    pub span: u64,
}

/// How long a class stays open from the start of an entry, where the list is repeated for ever.
#[derive(Clone, Copy, Debug, PartialEq, Eq)]
pub enum Stay {
    /// For so many picoseconds: 0 where the entry closes the class.
    Lasts(u128),
    /// For ever: every entry that is shown opens the class.
    Always,
}

/// An entry, with how long each class stays open from its start.
#[derive(Clone, Copy, Debug, PartialEq, Eq)]
pub struct Row {
    /// The entry: its mask and its interval in nanoseconds.
    pub entry: Entry,
    /// How long each class stays open from the entry's start, by class.
    pub stay: [Stay; CLASSES],
}

/// Why entries are no gate control list.
#[derive(Clone, Copy, Debug, PartialEq, Eq)]
pub enum GateFault {
    /// There is no entry.
    NoEntries,
    /// There are more than 256 entries.
    TooManyEntries,
    /// An entry has the interval 0.
    ZeroInterval,
}

/// Why a list and its times are no schedule.
#[derive(Clone, Copy, Debug, PartialEq, Eq)]
pub enum PlanFault {
    /// The entry of this index, the first such, is shorter than the shortest frame.
    IntervalTooShort(u16),
    /// The cycle is shorter than the shortest frame.
    CycleTooShort,
    /// The cycle is longer than 2^40 ns.
    CycleTooLong,
    /// The extension is longer than 2^40 ns.
    ExtensionTooLong,
    /// The base time is later than 2^63 - 1 ns.
    BaseTooLate,
}

/// A gate control list: 1 to 256 entries, none of interval 0.
#[derive(Clone, Debug, Drop, PartialEq, Eq)]
pub struct GateList {
    entries: ArrayVec<Entry, MAX_ENTRIES>,
}

/// A contract sees a list as its entries.
impl Model for GateList {
    ghost use Rattle.std.specs.Prelude.{List};
    ghost use Rattle.gates.specs.declared.gate_list.Entry.{Entry};

    ghost Value = { List Entry };

    ghost use Rattle.gates.specs.Gate.{IsGateList};

    ghost view = { λ l. l.entries.items };

    ghost invariant = { λ l. IsGateList l.entries.items };

    ghost inverse = { λ entries. record { entries = record { items = entries } } };
}

/// Whether an entry lasts no time. All are asked, in a loop that the machine takes four at a time.
#[tactic(auto, using(std::proofs::lemmas::List::Folds::list_any_more))]
fn has_zero_interval(entries: &[Entry]) -> bool
    ensures { result ≡ list_any (λ e. e.interval == 0) entries.now }
{
    let mut found = false;
    for entry in entries {
        found |= entry.interval == 0;
    }
    found
}

/// Why entries are no gate control list, if they are none.
fn gate_fault(entries: &[Entry]) -> Option<GateFault>
    ensures { result ≡ gate_fault entries.now }
{
    if entries.is_empty() {
        Some(GateFault::NoEntries)
    } else if entries.len() > MAX_ENTRIES {
        Some(GateFault::TooManyEntries)
    } else if has_zero_interval(entries) {
        Some(GateFault::ZeroInterval)
    } else {
        None
    }
}

/// The entries take the place of those that are kept.
fn put_entries(entries: &[Entry], kept: &mut ArrayVec<Entry, MAX_ENTRIES>)
    requires { length entries.now ≤ MAX_ENTRIES }
    ensures { kept.new.items ≡ entries.now }
{
    kept.clear();
    let _ = kept.try_extend_from_slice(entries);
}

/// One entry, which closes all classes for a nanosecond.
fn closed_entries() -> ArrayVec<Entry, MAX_ENTRIES>
    ensures { result.items ≡ closed_entries }
{
    let mut entries = ArrayVec::new();
    entries.push(Entry {
        mask: 0,
        interval: 1,
    });
    entries
}

impl GateList {
    /// The list of one entry, which closes all classes for a nanosecond: a place for another list.
    pub fn closed() -> GateList
        ensures { result ≡ closed_entries }
    {
        GateList {
            entries: closed_entries(),
        }
    }

    /// The list of these entries, in order. Refused, in this order: no entry, more than 256, an interval of 0.
    pub fn new(entries: &[Entry]) -> Result<GateList, GateFault>
        ensures { result ≡ ok_unless (gate_fault entries.now) entries.now }
    {
        let mut list = GateList::closed();
        match list.set(entries) {
            Ok(()) => Ok(list),
            Err(fault) => Err(fault),
        }
    }

    /// These entries take the place of its own, unless they are refused, as `new` refuses them. A list takes two
    /// kilobytes, which are not moved so.
    pub fn set(&mut self, entries: &[Entry]) -> Result<(), GateFault>
        ensures answer { result ≡ ok_unless (gate_fault entries.now) tt }
        ensures entries { OnOk result (self.new ≡ entries.now) }
        ensures kept { OnErr result (self.new ≡ self.old) }
    {
        match gate_fault(entries) {
            Some(fault) => Err(fault),
            None => {
                put_entries(entries, &mut self.entries);
                Ok(())
            }
        }
    }

    /// The entries, in order.
    pub fn entries(&self) -> &[Entry]
        ensures value { result.now ≡ self.now }
        ensures kept { IsGateList result.now }
    {
        self.entries.as_slice()
    }
}

/// Whether a mask opens a class.
pub fn is_open(mask: u8, class: u8) -> bool
    requires { class < CLASSES }
    ensures { result ≡ opens mask class }
{
    (mask >> class) % 2 == 1
}
