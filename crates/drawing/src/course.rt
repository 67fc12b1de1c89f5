//! What is drawn of a run, answer by answer.

ghost use Rattle.std.specs.Prelude.{◌≡◌, ◌<◌, ◌≤◌, IfOk};
ghost use Rattle.drawing.specs.Words.{all_wait_on, greatest_moment, nothing_seen, waiting_in, waits_on};

use crate::arrivals::Arrivals;
use crate::scope::Scope;
use crate::shapes::Shapes;
use crate::view::View;
use abstract_port::{Answer, Start};
use std::alloc::{AllocError, Allocator};
use std::marker::Model;
use wire_time::CLASSES;

/// What an event says beside its answers.
#[derive(Clone, Copy, Debug, PartialEq, Eq)]
pub struct Asked {
    /// The class of a frame that comes, if it has one.
    pub class: Option<u8>,
    /// How long the cycle of a schedule is that is given, in picoseconds.
    pub cycle: Option<u128>,
}

/// When the frames that wait have come, what is drawn so far, when the last frame so far ends, in picoseconds, and what
/// the run has had so far.
#[derive(Drop)]
pub struct Course<A: Allocator> {
    arrivals: Arrivals<A>,
    shapes: Shapes<A>,
    last: u128,
    lead: u128,
    scope: Scope,
}

/// A contract sees them.
impl<A: Allocator> Model for Course<A> {
    ghost use Rattle.drawing.specs.Course.{Course};

    ghost Value = { Course };

    ghost view = { λ c. record {
      waiting = c.arrivals;
      shown = c.shapes;
      last = c.last;
      lead = c.lead;
      scope = c.scope;
    } };
}

/// The frames of a class that wait wait on to this moment, in picoseconds.
fn wait_on<A: Allocator>(arrivals: &Arrivals<A>, shapes: &mut Shapes<A>, class: u8, upto: u128)
    requires class { class < CLASSES }
    requires within { upto ≤ greatest_moment }
    ensures { shapes.new ≡ waits_on class upto (waiting_in arrivals.now class).moments shapes.old }
{
    for place in 0..arrivals.len(class) {
        shapes.put_wait(class, arrivals.get(class, place), upto);
    }
}

/// The frames that wait wait on to this moment, in picoseconds.
fn all_wait_on<A: Allocator>(arrivals: &Arrivals<A>, shapes: &mut Shapes<A>, upto: u128)
    requires { upto ≤ greatest_moment }
    ensures { shapes.new ≡ all_wait_on upto CLASSES arrivals.now shapes.old }
{
    for class in 0..CLASSES as u8 {
        wait_on(arrivals, shapes, class, upto);
    }
}

impl<A: Allocator> Course<A> {
    ghost use Rattle.drawing.specs.Course.{changed, dropped, ended_at, queued, seen, started};
    ghost use Rattle.drawing.specs.Shapes.{IsJoined};

    /// Nothing is drawn, and of what comes what this view shows will be; there is room for so many frames a class, and
    /// a command has its lead moment so long after it is given, in picoseconds. All memory that is ever wanted is taken
    /// here.
    pub fn new(alloc: &A, room: u32, view: View, lead: u128) -> Result<Course<A>, AllocError>
    where
        A: Clone,
        ensures { IfOk result (λ c. c ≡ nothing_seen room view lead) }
    {
        let arrivals = Arrivals::new(alloc, room)?;
        let shapes = Shapes::new(alloc, view, lead)?;
        Ok(Course {
            arrivals,
            shapes,
            last: 0,
            lead,
            scope: Scope::Nothing,
        })
    }

    /// A frame starts.
    fn see_start(&mut self, start: &Start)
        ensures { self.new ≡ started start.now self.old }
    {
        let came = self.arrivals.take(start.class).unwrap_or(start.at);
        self.shapes.put_start(came, start);
        self.last = start.end;
    }

    /// A frame of a class is queued at this moment, in picoseconds.
    fn see_queued(&mut self, now: u128, class: u8)
        ensures { self.new ≡ queued now class self.old }
    {
        self.arrivals.put(class, now);
        self.scope = self.scope.with_frame(now);
    }

    /// A frame is dropped at this moment, in picoseconds.
    fn see_dropped(&mut self, now: u128, class: Option<u8>, id: u64)
        requires { now ≤ greatest_moment }
        ensures { self.new ≡ dropped now class id self.old }
    {
        self.shapes.put_drop(id, class, now);
        self.scope = self.scope.with_frame(now);
    }

    /// A command is accepted at this moment, by which the schedule changes at another, to one with this cycle; all are
    /// in picoseconds.
    fn see_change(&mut self, now: u128, change: u128, cycle: Option<u128>)
        ensures { self.new ≡ changed now change cycle self.old }
    {
        self.shapes.mark_change(now, change);
        self.scope = self.scope.with_command(self.lead, now, change, cycle);
    }

    /// Draws an answer to an event that a port gives at this moment, in picoseconds; the event says so much beside.
    pub fn see(&mut self, now: u128, asked: Asked, answer: &Answer)
        requires { now ≤ greatest_moment }
        ensures { self.new ≡ seen now asked answer.now self.old }
    {
        match answer {
            Answer::Queued { id: _, class } => self.see_queued(now, *class),
            Answer::Start(start) => self.see_start(start),
            Answer::Dropped { id, why: _ } => self.see_dropped(now, asked.class, *id),
            Answer::Installed(change) => self.see_change(now, *change, asked.cycle),
            Answer::Refused(_)
            | Answer::Backward
            | Answer::Report(_)
            | Answer::Counters { .. }
            | Answer::BadClass => {}
        }
    }

    /// The picture ends at this moment, in picoseconds: the frames that wait then wait on, and the last command is
    /// replaced by none.
    pub fn end_at(&mut self, upto: u128)
        requires { upto ≤ greatest_moment }
        ensures { self.new ≡ ended_at upto self.old }
    {
        all_wait_on(&self.arrivals, &mut self.shapes, upto);
        self.shapes.mark_last_change();
    }

    /// What is drawn.
    pub fn shapes(&self) -> &Shapes<A>
        ensures { result.now ≡ self.now.shown }
    {
        &self.shapes
    }

    /// Neighbours in a lane that are closer to one another than a gap, in picoseconds, are joined.
    pub fn join(&mut self, gap: u128)
        ensures shown { IsJoined gap self.old.shown self.new.shown }
        ensures same { (self.new.waiting ≡ self.old.waiting) × (self.new.last ≡ self.old.last)
            × (self.new.lead ≡ self.old.lead) × (self.new.scope ≡ self.old.scope) }
    {
        self.shapes.join(gap);
    }

    /// What the run has had so far.
    pub fn scope(&self) -> Scope
        ensures { result ≡ self.now.scope }
    {
        self.scope
    }

    /// When the last frame so far ends, in picoseconds; 0 where none started.
    pub fn last(&self) -> u128
        ensures { result ≡ self.now.last }
    {
        self.last
    }
}
