//! A walk over the frames of the flows of one class, as if there were no other class.

ghost use Rattle.std.specs.Prelude.{◌≡◌, ◌<◌, ◌≤◌, ◌↔◌, ◌+◌, ◌^◌, Some, None, Err, IfErr, IfOk, MatchResult, length, max, nat_le};
ghost use Rattle.wire_time.specs.Moment.{greatest_moment};
ghost use Rattle.gates.specs.Gate.{IsSchedule, in_ps};
ghost use Rattle.jumping.specs.Position.{IsPlaced};
ghost use Rattle.delay_bounds.specs.Backlog.{taken_at};
ghost use Rattle.delay_bounds.specs.Line.{before_any, when_come};
ghost use Rattle.delay_bounds.specs.Claim.{earliest, offsets_of, IsFlow};
ghost use Rattle.delay_bounds.specs.Bounds.{arrives, first_fit};
ghost use Rattle.delay_bounds.specs.Walk.{may_by};
ghost use Rattle.delay_bounds.specs.Stuck.{staying};
ghost use Rattle.delay_bounds.specs.Walked.{are_later, is_later, stop_of};

use crate::fit::fit;
use crate::moments::{come_later, copy_ring, drop_before, earliest, is_later, start_later};
use crate::{Flow, Told};
use circular_buffer::HeapCircularBuffer;
use gates::gate_list::Schedule;
use jumping::list_position::Position;
use std::alloc::{AllocError, Allocator};
use std::marker::Model;
use wire_time::{CLASSES, MAX_MOMENT};

/// Why a walk doesn't go on.
#[derive(Clone, Copy, Debug, PartialEq, Eq)]
pub enum Stop {
    /// The next frame finds no room.
    Full,
    /// The next frame never starts.
    Never,
    /// The next frame can't start before the greatest moment.
    Late,
}

/// Where a walk stands: when the next frame of each flow comes, from when the wire is free, and when those frames start
/// that wait. Moments are in picoseconds from the change moment of the schedule on. The memory for all that ever wait
/// is taken once.
#[derive(Drop)]
pub struct Line<A: Allocator> {
    nexts: Vec<u128, A>,
    free: u128,
    starts: HeapCircularBuffer<u128, A>,
}

/// A contract sees the track and the room.
impl<A: Allocator> Model for Line<A> {
    ghost use Rattle.delay_bounds.specs.Line.{Standing};

    ghost Value = { Standing };

    ghost view = { λ l. record {
      track = record {
        nexts = l.nexts.items;
        free = l.free;
        starts = l.starts.items;
      };
      room = l.starts.capacity;
    } };
}

// When the first frame of each flow comes.
fn first_moments<A: Allocator>(alloc: A, flows: &[Flow]) -> Result<Vec<u128, A>, AllocError>
    ensures { IfOk result (λ nexts. nexts.items ≡ offsets_of flows.now) }
{
    let mut nexts = Vec::with_capacity(alloc, flows.len())?;
    for flow in flows {
        nexts.push(flow.offset)?;
    }
    Ok(nexts)
}

impl<A: Allocator> Line<A> {
    /// Before any frame, with room for so many.
    pub fn new(alloc: &A, flows: &[Flow], room: usize) -> Result<Line<A>, AllocError>
    where
        A: Clone,
        ensures { IfOk result (λ line. line ≡ before_any flows.now room) }
    {
        let nexts = first_moments(alloc.clone()?, flows)?;
        let starts = HeapCircularBuffer::with_capacity(alloc.clone()?, room)?;
        Ok(Line {
            nexts,
            free: 0,
            starts,
        })
    }

    /// The next frame comes: its moment, and its flow's place. The frames that have started by then wait no more.
    pub fn next(&mut self) -> (u128, usize)
        requires some { 0 < length self.old.track.nexts }
        ensures frame { earliest self.old.track.nexts ≡ Some result }
        ensures within { result.1 < length self.old.track.nexts }
        ensures come { self.new ≡ when_come self.old }
    {
        let (t, place) = earliest(&self.nexts).unwrap();
        drop_before(&mut self.starts, t);
        self.free = self.free.max(t);
        (t, place)
    }

    /// The frame that came at `t`, of the flow at a place, is queued, and what is told of it.
    pub fn start(
        &mut self,
        schedule: &Schedule,
        first: &Position,
        class: u8,
        flow: Flow,
        t: u128,
        place: usize,
    ) -> Result<Told, Stop>
        requires sound { IsSchedule schedule.now }
        requires first { IsPlaced schedule.now 0 None 0 first.now }
        requires class { class < CLASSES }
        requires flow { IsFlow flow }
        requires place { place < length self.old.track.nexts }
        ensures told { IfOk result
            (λ told. arrives (may_by schedule.now class)
            (in_ps schedule.now.cycle) self.old.room t place flow self.old.track.free
            self.old.track.nexts self.old.track.starts ≡ Some (told, self.new.track)) }
        ensures fits { IfOk result (λ told. told.wait < 2 ^ 128) }
        ensures room { self.new.room ≡ self.old.room }
        ensures stop { MatchResult result
            (λ _. stop_of (may_by schedule.now class) (in_ps schedule.now.cycle) self.old.room t
            flow self.old.track.free self.old.track.starts ≡ None)
            (λ stop. stop_of (may_by schedule.now class) (in_ps schedule.now.cycle) self.old.room t
            flow self.old.track.free self.old.track.starts ≡ Some stop) }
        ensures same { IfErr result (λ _. self.new ≡ self.old) }
        ensures full { (result ≡ Err Stop.Full) ↔ (self.old.room ≤ length self.old.track.starts) }
        ensures late { (result ≡ Err Stop.Late) → (greatest_moment < max t self.old.track.free) }
        ensures never { (result ≡ Err Stop.Never) →
            first_fit (may_by schedule.now class) flow.need (max t self.old.track.free)
            (in_ps schedule.now.cycle) ≡ None }
    {
        if self.starts.len() >= self.starts.capacity() {
            return Err(Stop::Full);
        }
        let from = t.max(self.free);
        if from > MAX_MOMENT {
            return Err(Stop::Late);
        }
        let Some(at) = fit(schedule, first, class, from, flow.need) else {
            return Err(Stop::Never);
        };
        let _ = self.starts.try_push_back(at);
        self.nexts[place] = t + flow.period;
        self.free = at + flow.need;
        Ok(Told {
            place,
            wait: at - t,
            waiting: self.starts.len(),
        })
    }

    /// For how long the wire is taken, from a moment on.
    pub fn taken(&self, t: u128) -> u128
        ensures { result ≡ taken_at t self.now.track }
    {
        self.free.saturating_sub(t)
    }

    /// For how many frames there is room.
    pub fn room(&self) -> usize
        ensures { result ≡ self.now.room }
    {
        self.starts.capacity()
    }

    /// Whether there is no room for one more frame.
    pub fn is_full(&self) -> bool
        ensures { result ≡ nat_le self.now.room (length self.now.track.starts) }
    {
        self.starts.len() >= self.starts.capacity()
    }

    /// The frame that came at `t`, of the flow at a place, is queued, and never starts.
    pub fn stay(&mut self, flow: Flow, t: u128, place: usize)
        requires flow { IsFlow flow }
        requires place { place < length self.old.track.nexts }
        requires t { t ≤ greatest_moment }
        requires room { length self.old.track.starts < self.old.room }
        ensures { self.new
            ≡ record { track = staying flow (t, place) self.old.track; room = self.old.room } }
    {
        let _ = self.starts.try_push_back(u128::MAX);
        self.nexts[place] = t + flow.period;
    }

    /// Whether the next frames come as those of another walk, each so much later.
    pub fn comes_later(&self, old: &Line<A>, by: u128) -> bool
        ensures { result ≡ are_later by self.now.track.nexts old.now.track.nexts }
    {
        come_later(&self.nexts, &old.nexts, by)
    }

    /// Whether the walk stands as another one, so much later.
    pub fn is_later(&self, old: &Line<A>, by: u128) -> bool
        ensures { result ≡ is_later by self.now.track old.now.track }
    {
        is_later(self.free, old.free, by)
            && self.comes_later(old, by)
            && start_later(&self.starts, &old.starts, by)
    }

    /// Stands where another walk stands.
    pub fn copy(&mut self, from: &Line<A>)
        requires places { length self.old.track.nexts ≡ length from.now.track.nexts }
        requires room { self.old.room ≡ from.now.room }
        ensures { self.new ≡ from.now }
    {
        self.nexts.copy_from_slice(&from.nexts);
        self.free = from.free;
        copy_ring(&mut self.starts, &from.starts);
    }
}
