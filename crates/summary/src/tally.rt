//! What is seen of a run, answer by answer.

ghost use Rattle.std.specs.Prelude.{◌≡◌, ◌≤◌, ◌<◌, ◌-◌, ◌+◌, max, IfOk, slice_set};
ghost use Rattle.text.specs.Writes.{Writes};
ghost use Rattle.wire_time.specs.Moment.{greatest_moment};
ghost use Rattle.summary.specs.Observed.{class_at, nothing_seen, with_arrival, with_start};
ghost use Rattle.summary.specs.Lines.{busy_by, class_text, wire_text};

use crate::class_summary::ClassSummary;
use crate::lines::{put_class_text, put_open_text, put_wire_line};
use abstract_port::per_class::classes_of;
use abstract_port::{Answer, Counters, Start};
use port_text::answer_text::WriteFault;
use std::alloc::{AllocError, Allocator, Global};
use std::io::Write;
use std::marker::Model;
use wire_time::CLASSES;

/// A frame of a class is queued at a moment.
fn arrives_in<A: Allocator>(classes: &mut [ClassSummary<A>; CLASSES], class: u8, now: u128)
    requires { class < CLASSES }
    ensures { classes.new
        ≡ slice_set classes.old class (with_arrival now (class_at classes.old class)) }
{
    classes[class as usize].arrives(now);
}

/// The first frame of a class starts at a moment.
fn starts_in<A: Allocator>(classes: &mut [ClassSummary<A>; CLASSES], class: u8, at: u128)
    requires { class < CLASSES }
    ensures { classes.new
        ≡ slice_set classes.old class (with_start at (class_at classes.old class)) }
{
    classes[class as usize].starts(at);
}

/// What is seen of a class.
fn class_in<A: Allocator>(classes: &[ClassSummary<A>; CLASSES], class: u8) -> &ClassSummary<A>
    requires { class < CLASSES }
    ensures { result.now ≡ class_at classes.now class }
{
    &classes[class as usize]
}

/// What is seen of the wire, with moments and durations in picoseconds.
#[derive(Clone, Copy, Debug, PartialEq, Eq)]
struct WireSeen {
    /// For how long some frame has had it, and from when on it is free.
    busy: u128,
    free: u128,
    /// When the first frame was queued, if one was.
    first: Option<u128>,
}

/// What is seen of the time before the first command comes into force, when all gates are open.
#[derive(Clone, Copy, Debug, PartialEq, Eq)]
struct OpenSeen {
    /// The change moment of the first command that was accepted, in picoseconds, if one was.
    change: Option<u128>,
    /// How many frames were queued before it. It stays at the greatest u128.
    early: u128,
}

/// What is seen of a run, from the answers of a port: how long the frames of each class waited, and how long the wire
/// was busy.
#[derive(Drop)]
pub struct Summary<A: Allocator = Global> {
    classes: [ClassSummary<A>; CLASSES],
    wire: WireSeen,
    open: OpenSeen,
}

/// A contract sees what is seen of each class, of the wire, and of open gates.
impl<A: Allocator> Model for Summary<A> {
    ghost use Rattle.summary.specs.Observed.{Observed};

    ghost Value = { Observed };

    ghost use Rattle.std.specs.Prelude.{◌≤◌};

    ghost view = { λ s. record {
      classes = s.classes;
      busy = s.wire.busy;
      free = s.wire.free;
      first = s.wire.first;
      change = s.open.change;
      early = s.open.early;
    } };

    ghost invariant = { λ s. s.wire.busy ≤ s.wire.free };
}

impl<A: Allocator> Summary<A> {
    ghost use Rattle.summary.specs.Observed.{first_with, in_class, is_early, on_wire, seen, with_command, with_queued};

    /// Nothing is seen yet. All memory that is ever wanted is taken here: the arrival moments of so many frames a
    /// class.
    pub fn new(alloc: &A, room: u32) -> Result<Summary<A>, AllocError>
    where
        A: Clone,
        ensures { IfOk result (λ s. s ≡ nothing_seen room) }
    {
        let classes = classes_of(alloc, room as usize)?;
        Ok(Summary {
            classes,
            wire: WireSeen {
                busy: 0,
                free: 0,
                first: None,
            },
            open: OpenSeen {
                change: None,
                early: 0,
            },
        })
    }

    /// A frame of a class, if it is one, is queued at a moment.
    fn see_queued(&mut self, class: u8, now: u128)
        ensures { self.new ≡ in_class class (with_arrival now) self.old }
    {
        if class < CLASSES as u8 {
            arrives_in(&mut self.classes, class, now);
        }
    }

    /// Whether a moment is before the change moment of the first command.
    fn is_early(&self, now: u128) -> bool
        ensures { result ≡ is_early now self.now.change }
    {
        match self.open.change {
            None => true,
            Some(change) => now < change,
        }
    }

    /// A frame is queued at a moment, may be the first, and may come before the first command is in force.
    fn see_first(&mut self, now: u128)
        ensures { self.new ≡ with_queued now self.old }
    {
        if self.is_early(now) {
            self.open.early = self.open.early.saturating_add(1);
        }
        self.wire.first = Some(self.wire.first.unwrap_or(now));
    }

    /// A command is accepted, and comes into force at this moment.
    fn see_command(&mut self, change: u128)
        ensures { self.new ≡ with_command change self.old }
    {
        self.open.change = Some(self.open.change.unwrap_or(change));
    }

    /// The first frame of a class, if it is one, starts at a moment.
    fn see_started(&mut self, class: u8, at: u128)
        ensures { self.new ≡ in_class class (with_start at) self.old }
    {
        if class < CLASSES as u8 {
            starts_in(&mut self.classes, class, at);
        }
    }

    /// A frame takes the wire.
    fn see_on_wire(&mut self, start: &Start)
        ensures { self.new ≡ on_wire start.now self.old }
    {
        let from = start.at.max(self.wire.free);
        self.wire.busy += start.end.saturating_sub(from);
        self.wire.free = self.wire.free.max(start.end);
    }

    /// Takes note of an answer that a port gives at this moment, in picoseconds: a frame that is queued then, one that
    /// starts, or a command that is accepted.
    pub fn see(&mut self, now: u128, answer: &Answer)
        ensures { self.new ≡ seen now answer.now self.old }
    {
        match answer {
            Answer::Queued { id: _, class } => {
                self.see_queued(*class, now);
                self.see_first(now);
            }
            Answer::Start(start) => {
                self.see_started(start.class, start.at);
                self.see_on_wire(start);
            }
            Answer::Installed(change) => self.see_command(*change),
            _ => {}
        }
    }

    /// For how long some frame has had the wire by a moment, in picoseconds.
    fn busy_by(&self, now: u128) -> u128
        ensures busy { result ≡ busy_by now self.now }
        ensures within { result ≤ now }
    {
        self.wire
            .busy
            .saturating_sub(self.wire.free.saturating_sub(now))
    }

    /// Writes the line of a class, 0 to 7, with what it has counted, where it had frames. At a fault a prefix of it is
    /// written.
    pub fn put_class<W: Write>(
        &self,
        class: u8,
        counters: &Counters,
        writer: &mut W,
    ) -> Result<(), WriteFault>
        requires { class < CLASSES }
        ensures { Writes result (W.contents writer.old) (W.contents writer.new)
            (class_text class counters.now (class_at self.now.classes class)) }
    {
        let seen = class_in(&self.classes, class);
        put_class_text(class, counters, &seen.waits(), seen.most(), writer)
    }

    /// Writes the line of the wire, up to this moment, in picoseconds, and that of the frames for which all gates were
    /// open, where there were some before the first command. At a fault a prefix of both is written.
    pub fn put_wire<W: Write>(&self, now: u128, writer: &mut W) -> Result<(), WriteFault>
        requires { now ≤ greatest_moment }
        ensures { Writes result (W.contents writer.old) (W.contents writer.new)
            (wire_text now self.now) }
    {
        put_wire_line(self.busy_by(now), now, self.wire.first, writer)?;
        put_open_text(self.open.early, self.open.change, writer)
    }
}
