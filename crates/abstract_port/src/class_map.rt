//! Priorities and traffic classes, and the queue ranges that are reported with them (tc-taprio(8)).
//!
//! The definitions are specs/Map.antt and specs/Ranges.antt; the contracts of `ClassMap` and `Queues` cite them.
ghost use Rattle.abstract_port.specs.Map.{filled, map_of};
ghost use Rattle.abstract_port.specs.Ranges.{AreRanges, have_overlap, overlap, plain_ranges, queue_fault, queues_of};
ghost use Rattle.std.specs.List.{list_any};
ghost use Rattle.std.specs.Prelude.{[], IfSome, List, None, length, slice_get, ℕ, ◌++◌, ◌<◌, ◌==◌, ◌≡◌, ◌↔◌, ◌≤◌, ◌∷◌, nat_le};

use std::marker::Model;
use wire_time::{CLASSES, PRIORITIES};

/// Why a map of priorities is none.
#[derive(Clone, Copy, Debug, PartialEq, Eq)]
pub enum MapFault {
    /// The number of classes is not 1 to 8.
    BadClassCount,
    /// There are more than 16 priorities.
    TooManyPriorities,
    /// A priority's class is not below the number of classes.
    ClassOutOfRange,
}

/// Why queue ranges are refused.
#[derive(Clone, Copy, Debug, PartialEq, Eq)]
pub enum QueueFault {
    /// The number of classes is not 1 to 8, or there is not one range a class.
    QueueCount,
    /// A range has no queue.
    EmptyQueue,
    /// Two ranges have a queue in common.
    QueueOverlap,
}

/// How many classes there are, and the class of each of the 16 priorities.
#[derive(Clone, Copy, Debug, PartialEq, Eq)]
pub struct ClassMap {
    num_tc: u8,
    classes: [u8; PRIORITIES],
}

impl Model for ClassMap {
    ghost use Rattle.std.specs.Prelude.{◌<◌, ◌≤◌, All};
    ghost use Rattle.abstract_port.specs.Map.{Map};
    ghost use Rattle.wire_time.specs.declared.TheConstants.{CLASSES};

    ghost Value = { Map };

    ghost view = { λ m. record { num_tc = m.num_tc; classes = m.classes } };

    ghost invariant = { λ m. (1 ≤ m.num_tc) × (m.num_tc ≤ CLASSES)
        × All (λ c. c < CLASSES) m.classes };

    ghost inverse = { λ v. record { num_tc = v.num_tc; classes = v.classes } };
}

/// Whether some class is at least so great.
fn any_at_least(classes: &[u8], least: u8) -> bool
    ensures { result ≡ list_any (λ class. nat_le least class) classes.now }
{
    classes.iter().any(|class| least <= *class)
}

/// The classes of 16 priorities, of which those past the list's end go to class 0.
#[tactic(auto, using(crate::proofs::MapLaws::filled_zeros))]
fn filled(classes: &[u8]) -> [u8; PRIORITIES]
    requires { length classes.now ≤ PRIORITIES }
    ensures { result ≡ filled classes.now }
{
    let mut filled = [0; PRIORITIES];
    filled[..classes.len()].copy_from_slice(classes);
    filled
}

impl ClassMap {
    /// A map of `num_tc` classes, 1 to 8, with the classes of the priorities from 0 up. Priorities past the list's end
    /// go to class 0; an empty list sends all 16 there.
    #[tactic(auto, using(crate::proofs::MapLaws::filled_within))]
    pub fn new(num_tc: u8, classes: &[u8]) -> Result<ClassMap, MapFault>
        ensures { result ≡ map_of num_tc classes.now }
    {
        if num_tc == 0 || num_tc as usize > CLASSES {
            return Err(MapFault::BadClassCount);
        }
        if classes.len() > PRIORITIES {
            return Err(MapFault::TooManyPriorities);
        }
        if any_at_least(classes, num_tc) {
            return Err(MapFault::ClassOutOfRange);
        }
        Ok(ClassMap {
            num_tc,
            classes: filled(classes),
        })
    }

    /// How many classes there are: 1 to 8.
    pub fn num_tc(&self) -> u8
        ensures count { result ≡ self.now.num_tc }
        ensures some { 1 ≤ result }
        ensures within { result ≤ CLASSES }
    {
        self.num_tc
    }

    /// The class of a priority; none above 15.
    pub fn class_of(&self, priority: u8) -> Option<u8>
        ensures class { result ≡ slice_get self.now.classes priority }
        ensures within { IfSome result (λ c. c < CLASSES) }
    {
        self.classes.get(priority as usize).copied()
    }
}

/// The queue range of each class: count and offset. A value is these ranges and nothing else.
#[derive(Clone, Copy, Debug, PartialEq, Eq)]
pub struct Queues {
    num_tc: u8,
    // (0, 0) past the last class
    ranges: [(u16, u16); CLASSES],
}

/// A contract sees the list of the ranges.
impl Model for Queues {
    ghost use Rattle.std.specs.Prelude.{ℕ, List, take};
    ghost use Rattle.abstract_port.specs.Ranges.{HoldsRanges, with_no_more, back, back_count};
    ghost use Rattle.std.specs.Prelude.{length};

    ghost Value = { List (ℕ × ℕ) };

    ghost view = { λ q. take q.num_tc q.ranges };

    ghost invariant = { λ q. HoldsRanges q.num_tc q.ranges };

    ghost inverse = { λ v. record { num_tc = length v; ranges = with_no_more v } };

    ghost inverse_ok = { λ q h. Prim.rw
        (back q.num_tc q.ranges h, back_count q.num_tc q.ranges h) };
}

/// Whether a range has no queue.
fn any_empty(ranges: &[(u16, u16)]) -> bool
    ensures { result ≡ list_any (λ r. r.0 == 0) ranges.now }
{
    ranges.iter().any(|range| range.0 == 0)
}

/// Whether two ranges have a queue in common. Ranges don't wrap.
fn overlap(a: (u16, u16), b: (u16, u16)) -> bool
    ensures { result ≡ overlap a b }
{
    u32::from(a.1) < u32::from(b.1) + u32::from(b.0)
        && u32::from(b.1) < u32::from(a.1) + u32::from(a.0)
}

/// Whether a range has a queue in common with one of the others.
fn overlaps_any(range: (u16, u16), others: &[(u16, u16)]) -> bool
    ensures { result ≡ list_any (overlap range) others.now }
{
    others.iter().any(|other| overlap(range, *other))
}

/// Whether some two ranges have a queue in common.
fn have_overlap(ranges: &[(u16, u16)]) -> bool
    ensures { result ≡ have_overlap ranges.now }
{
    let mut rest = ranges;
    while let [first, more @ ..] = rest {
        if overlaps_any(*first, more) {
            return true;
        }
        rest = more;
    }
    false
}

impl Queues {
    /// No class yet.
    fn none() -> Queues
        ensures { result ≡ [] }
    {
        Queues {
            num_tc: 0,
            ranges: [(0, 0); CLASSES],
        }
    }

    /// The range of one class more.
    fn push(&mut self, count: u16, offset: u16)
        requires { length self.old < CLASSES }
        ensures { self.new ≡ self.old ++ (count, offset) ∷ [] }
    {
        self.ranges[self.num_tc as usize] = (count, offset);
        self.num_tc += 1;
    }

    /// The ranges of `num_tc` classes, each a count of queues and the offset of the first.
    pub fn new(num_tc: u8, ranges: &[(u16, u16)]) -> Result<Queues, QueueFault>
        ensures { result ≡ queues_of num_tc ranges.now }
    {
        if num_tc == 0 || num_tc as usize > CLASSES || ranges.len() != num_tc as usize {
            return Err(QueueFault::QueueCount);
        }
        if any_empty(ranges) {
            return Err(QueueFault::EmptyQueue);
        }
        if have_overlap(ranges) {
            return Err(QueueFault::QueueOverlap);
        }
        Ok(Queues::from_ranges(ranges))
    }

    /// These ranges, unchecked.
    fn from_ranges(ranges: &[(u16, u16)]) -> Queues
        requires { length ranges.now ≤ CLASSES }
        ensures { result ≡ ranges.now }
    {
        let mut queues = Queues::none();
        for range in ranges {
            queues.push(range.0, range.1);
        }
        queues
    }

    /// One queue a class, in order: `1@0 1@1 ..`.
    #[tactic(auto, using(crate::proofs::RangesLaws::plain_count, crate::proofs::RangesLaws::plain_more))]
    pub fn plain(num_tc: u8) -> Queues
        requires some { 1 ≤ num_tc }
        requires few { num_tc ≤ CLASSES }
        ensures { result ≡ plain_ranges num_tc }
    {
        let mut queues = Queues::none();
        for class in 0..num_tc {
            queues.push(1, class as u16);
        }
        queues
    }

    /// How many classes have a range.
    pub fn num_tc(&self) -> u8
        ensures { result ≡ length self.now }
    {
        self.num_tc
    }

    /// The range of a class, a count and an offset; none for a class that has no range.
    pub fn get(&self, class: u8) -> Option<(u16, u16)>
        ensures { result ≡ slice_get self.now class }
    {
        if class < self.num_tc {
            Some(self.ranges[class as usize])
        } else {
            None
        }
    }
}

/// Nothing to run: its contract is the law that ranges are accepted exactly where they are one a class, not empty, and
/// pairwise without a common number.
pub fn ranges_law()
    ensures { (num_tc : ℕ) (ranges : List (ℕ × ℕ)) →
        (queue_fault num_tc ranges ≡ None) ↔ AreRanges num_tc ranges }
{}
