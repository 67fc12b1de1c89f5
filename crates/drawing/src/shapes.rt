//! What is drawn of a run.

ghost use Rattle.std.specs.Prelude.{◌≡◌, ◌<◌, ◌≤◌, ◌*◌, ℕ, IfOk, length, slice_set, true};
ghost use Rattle.drawing.specs.Words.{greatest_moment, change_drawn, in_time, drawn_in, empty_lanes, frame_drawn, is_drawn, nothing_shown, lane_at, lane_of, shape_of, shapes_to, wait_drawn, joined_at, no_shapes, MOST_SHAPES};

use crate::page::{LANES, WIRE};
use crate::view::View;
use abstract_port::Start;
use picture::{Lane, Shape, Span};
use std::alloc::{AllocError, Allocator};
use std::marker::Model;
use wire_time::MAX_MOMENT;

/// A frame, from one moment to another, both in picoseconds.
fn shape_of(from: u128, to: u128, id: u64) -> Shape
    ensures { result ≡ shape_of from to id }
{
    Shape {
        span: Span { from, to },
        id: Some(id),
    }
}

/// A lane in which nothing is drawn.
fn empty_lane<A: Allocator + Clone>(alloc: &A) -> Result<Lane<A>, AllocError>
    ensures { IfOk result (λ lane. lane ≡ no_shapes) }
{
    Lane::new(alloc.clone()?)
}

/// Three lanes in which nothing is drawn.
fn three_lanes<A: Allocator + Clone>(alloc: &A) -> Result<(Lane<A>, Lane<A>, Lane<A>), AllocError>
    ensures { IfOk result
        (λ three. (three.0 ≡ no_shapes) × (three.1 ≡ no_shapes) × (three.2 ≡ no_shapes)) }
{
    let first = empty_lane(alloc)?;
    let second = empty_lane(alloc)?;
    let third = empty_lane(alloc)?;
    Ok((first, second, third))
}

/// Nine lanes in which nothing is drawn: three by three, so that few are given back when out of memory.
fn empty_lanes<A: Allocator + Clone>(alloc: &A) -> Result<[Lane<A>; 9], AllocError>
    ensures { IfOk result (λ lanes. lanes ≡ empty_lanes) }
{
    let (lane_0, lane_1, lane_2) = three_lanes(alloc)?;
    let (lane_3, lane_4, lane_5) = three_lanes(alloc)?;
    let (lane_6, lane_7, lane_8) = three_lanes(alloc)?;
    Ok([
        lane_0, lane_1, lane_2, lane_3, lane_4, lane_5, lane_6, lane_7, lane_8,
    ])
}

/// One shape more in a lane, where something of it is shown.
fn draw_in<A: Allocator>(view: View, lanes: &mut [Lane<A>; 9], lane: u8, shape: Shape)
    requires lane { lane < LANES }
    requires within { shape.span.from ≤ greatest_moment }
    ensures { lanes.new ≡ drawn_in view lane shape lanes.old }
{
    if view.shows(shape.span) {
        lanes[lane as usize].push(shape);
    }
}

/// What is drawn in a lane.
fn shapes_in<A: Allocator>(lanes: &[Lane<A>; 9], lane: u8) -> &[Shape]
    requires { lane < LANES }
    ensures value { result.now ≡ (lane_at lanes.now lane).shapes }
    ensures few { length result.now ≤ MOST_SHAPES }
{
    lanes[lane as usize].shapes()
}

/// How many shapes there are in all lanes.
fn count_in<A: Allocator>(lanes: &[Lane<A>; 9]) -> usize
    ensures value { result ≡ shapes_to LANES lanes.now }
    ensures within { result ≤ LANES * MOST_SHAPES }
{
    let mut count = 0;
    for lane in 0..LANES {
        count += shapes_in(lanes, lane).len();
    }
    count
}

/// Neighbours in one lane that are closer to one another than a gap, in picoseconds, are joined.
fn join_in<A: Allocator>(lanes: &mut [Lane<A>; 9], lane: u8, gap: u128)
    requires { lane < LANES }
    ensures { lanes.new ≡ slice_set lanes.old lane (joined_at gap (lane_at lanes.old lane)) }
{
    lanes[lane as usize].join(gap);
}

/// Neighbours in each lane that are closer to one another than a gap, in picoseconds, are joined.
fn join_lanes<A: Allocator>(lanes: &mut [Lane<A>; 9], gap: u128)
    ensures { (lane : ℕ) → lane < LANES →
        lane_at lanes.new lane ≡ joined_at gap (lane_at lanes.old lane) }
{
    for lane in 0..LANES {
        join_in(lanes, lane, gap);
    }
}

/// Whether a start is drawn: its class has a lane, and its moment is at most the greatest.
fn is_drawn(start: &Start) -> bool
    ensures value { result ≡ is_drawn start.now }
    ensures within { result ≡ true → (start.now.class < WIRE) × (start.now.at ≤ greatest_moment) }
{
    start.class < WIRE && start.at <= MAX_MOMENT
}

/// A frame of a class that came at this moment waits up to another, where that is later; both are in picoseconds.
fn draw_wait<A: Allocator>(
    view: View,
    lanes: &mut [Lane<A>; 9],
    class: u8,
    came: u128,
    upto: u128,
    id: Option<u64>,
)
    requires class { class < WIRE }
    requires within { upto ≤ greatest_moment }
    ensures { lanes.new ≡ wait_drawn view class came upto id lanes.old }
{
    if came < upto {
        let span = Span {
            from: came,
            to: upto,
        };
        draw_in(view, lanes, class, Shape { span, id });
    }
}

/// A frame has the wire, drawn in the lane of its class and in the wire's.
fn draw_frame<A: Allocator>(view: View, lanes: &mut [Lane<A>; 9], start: &Start)
    requires class { start.now.class < WIRE }
    requires within { start.now.at ≤ greatest_moment }
    ensures { lanes.new ≡ frame_drawn view start.now lanes.old }
{
    let shape = shape_of(start.at, start.end, start.id);
    draw_in(view, lanes, start.class, shape);
    draw_in(view, lanes, WIRE, shape);
}

/// The change of a command, where it is in time: at or before the lead moment of the next command, which is given now
/// and has that moment so long after it, in picoseconds.
fn in_time(lead: u128, now: u128, change: Option<Shape>) -> Option<Shape>
    ensures { result ≡ in_time lead now change }
{
    let shape = change?;
    if shape.span.from.saturating_sub(lead) <= now {
        Some(shape)
    } else {
        None
    }
}

/// A change, if there is one and it is shown. One after the greatest moment isn't drawn.
fn draw_change<A: Allocator>(view: View, lane: &mut Lane<A>, change: Option<Shape>)
    ensures { lane.new ≡ change_drawn view change lane.old }
{
    match change {
        None => {}
        Some(shape) => {
            if shape.span.from <= MAX_MOMENT && view.shows(shape.span) {
                lane.push(shape);
            }
        }
    }
}

/// The lane of a class, or the wire's where there is none.
fn lane_of(class: Option<u8>) -> u8
    ensures lane { result ≡ lane_of class }
    ensures within { result < LANES }
{
    match class {
        Some(class) => if class < WIRE { class } else { WIRE },
        None => WIRE,
    }
}

/// The shapes of a run: by lane, the frames on the wire, how long they wait, and those that were dropped; when the
/// schedule changes; and the change of the last command, which a later one may replace.
#[derive(Drop)]
pub struct Shapes<A: Allocator> {
    view: View,
    frames: [Lane<A>; 9],
    waits: [Lane<A>; 9],
    drops: [Lane<A>; 9],
    changes: Lane<A>,
    next: Option<Shape>,
    accepted: u64,
    lead: u128,
}

/// A contract sees what is shown.
impl<A: Allocator> Model for Shapes<A> {
    ghost use Rattle.drawing.specs.Shapes.{Shown};

    ghost Value = { Shown };

    ghost view = { λ s. record {
      view = s.view;
      frames = s.frames;
      waits = s.waits;
      drops = s.drops;
      changes = s.changes;
      next = s.next;
      accepted = s.accepted;
      lead = s.lead;
    } };
}

impl<A: Allocator> Shapes<A> {
    ghost use Rattle.drawing.specs.Shapes.{IsJoined, lane_at, shape_count, with_start, with_dropped, with_change, with_last_change};
    ghost use Rattle.std.specs.Prelude.{None};

    /// Nothing is drawn, and of what comes what this view shows will be. A command has its lead moment so long after it
    /// is given, in picoseconds. All memory that is ever wanted is taken here.
    pub fn new(alloc: &A, view: View, lead: u128) -> Result<Shapes<A>, AllocError>
    where
        A: Clone,
        ensures { IfOk result (λ s. s ≡ nothing_shown view lead) }
    {
        let frames = empty_lanes(alloc)?;
        let waits = empty_lanes(alloc)?;
        let drops = empty_lanes(alloc)?;
        let changes = empty_lane(alloc)?;
        Ok(Shapes {
            view,
            frames,
            waits,
            drops,
            changes,
            next: None,
            accepted: 0,
            lead,
        })
    }

    /// The frames in a lane, that of a class, 0 to 7, or the wire's: each from its start to its end.
    pub fn frames(&self, lane: u8) -> &[Shape]
        requires { lane < LANES }
        ensures { result.now ≡ (lane_at self.now.frames lane).shapes }
    {
        shapes_in(&self.frames, lane)
    }

    /// The waits in a lane, each from a frame's arrival to its start, or to the end of the picture or a later moment.
    pub fn waits(&self, lane: u8) -> &[Shape]
        requires { lane < LANES }
        ensures { result.now ≡ (lane_at self.now.waits lane).shapes }
    {
        shapes_in(&self.waits, lane)
    }

    /// The frames of a lane that were dropped, each at its arrival.
    pub fn drops(&self, lane: u8) -> &[Shape]
        requires { lane < LANES }
        ensures { result.now ≡ (lane_at self.now.drops lane).shapes }
    {
        shapes_in(&self.drops, lane)
    }

    /// The changes of the schedule, each with the number of its command among those that were accepted.
    pub fn changes(&self) -> &[Shape]
        ensures { result.now ≡ self.now.changes.shapes }
    {
        self.changes.shapes()
    }

    /// A frame that came at this moment, in picoseconds, has the wire: it is drawn in the lane of its class and in the
    /// wire's, and its wait in that of its class.
    pub fn put_start(&mut self, came: u128, start: &Start)
        ensures { self.new ≡ with_start came start.now self.old }
    {
        if is_drawn(start) {
            draw_frame(self.view, &mut self.frames, start);
            let id = Some(start.id);
            draw_wait(self.view, &mut self.waits, start.class, came, start.at, id);
        }
    }

    /// A frame was dropped at this moment, in picoseconds: it is marked in the lane of its class, or in the wire's
    /// where it has none.
    pub fn put_drop(&mut self, id: u64, class: Option<u8>, now: u128)
        requires { now ≤ greatest_moment }
        ensures { self.new ≡ with_dropped id class now self.old }
    {
        draw_in(
            self.view,
            &mut self.drops,
            lane_of(class),
            shape_of(now, now, id),
        );
    }

    /// A frame of a class that came at this moment still waits at another; both are in picoseconds.
    pub fn put_wait(&mut self, class: u8, came: u128, upto: u128)
        requires class { class < WIRE }
        requires within { upto ≤ greatest_moment }
        ensures { self.new
            ≡ record self.old {
              waits = wait_drawn self.old.view class came upto None
                  self.old.waits;
            } }
    {
        draw_wait(self.view, &mut self.waits, class, came, upto, None);
    }

    /// One more command is accepted now: by it the schedule changes at this moment, unless a later command replaces it;
    /// both are in picoseconds. The command before it is drawn, unless this one replaces it.
    pub fn mark_change(&mut self, now: u128, change: u128)
        ensures { self.new ≡ with_change now change self.old }
    {
        let passed = in_time(self.lead, now, self.next);
        draw_change(self.view, &mut self.changes, passed);
        self.accepted = self.accepted.saturating_add(1);
        self.next = Some(shape_of(change, change, self.accepted));
    }

    /// No command follows the last, which is drawn.
    pub fn mark_last_change(&mut self)
        ensures { self.new ≡ with_last_change self.old }
    {
        draw_change(self.view, &mut self.changes, self.next);
        self.next = None;
    }

    /// How many shapes are drawn in all lanes.
    pub fn count(&self) -> usize
        ensures value { result ≡ shape_count self.now }
        ensures within { result ≤ 28 * MOST_SHAPES }
    {
        let frames = count_in(&self.frames);
        let waits = count_in(&self.waits);
        let drops = count_in(&self.drops);
        frames + waits + drops + self.changes.shapes().len()
    }

    /// Neighbours in a lane that are closer to one another than a gap, in picoseconds, are joined.
    pub fn join(&mut self, gap: u128)
        ensures { IsJoined gap self.old self.new }
    {
        join_lanes(&mut self.frames, gap);
        join_lanes(&mut self.waits, gap);
        join_lanes(&mut self.drops, gap);
        self.changes.join(gap);
    }
}
