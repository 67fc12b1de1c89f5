//! A lane of a picture, which has a bounded number of shapes.

ghost use Rattle.std.specs.Prelude.{◌≡◌, ◌≤◌, ◌<◌, ◌++◌, ◌∷◌, [], IfOk, false, length, take, true, vec_capacity};
ghost use Rattle.picture.specs.Words.{greatest_moment, are_joined, band_pushed, bunched, distance, is_short, join_all_by, joined, least_distance, no_shapes, pixel_to, pushed, put, joined_at, roomy};

use crate::span::{Shape, Span};
use crate::{MAX_WIDTH, MOST_SHAPES};
use std::alloc::{AllocError, Allocator, Global};
use std::marker::Model;
use wire_time::MAX_MOMENT;

/// How long it is from the end of a shape to the start of the next, in picoseconds.
fn distance(shape: &Shape, next: &Shape) -> u128
    ensures { result ≡ distance shape.now next.now }
{
    next.span.from.saturating_sub(shape.span.to)
}

/// Two shapes as one.
fn joined(shape: &Shape, next: &Shape) -> Shape
    ensures { result ≡ joined shape.now next.now }
{
    let span = Span {
        from: shape.span.from,
        to: shape.span.to.max(next.span.to),
    };
    Shape { span, id: None }
}

/// Whether a shape is shorter than a gap, in picoseconds, or joined already.
fn is_short(shape: &Shape, gap: u128) -> bool
    ensures { result ≡ is_short gap shape.now }
{
    shape.id.is_none() || shape.span.to.saturating_sub(shape.span.from) < gap
}

/// Whether neighbours are joined at a gap, in picoseconds: those that are nearer than it, or of those only the short.
fn are_joined(shape: &Shape, next: &Shape, gap: u128, only_short: bool) -> bool
    ensures { result ≡ are_joined gap only_short shape.now next.now }
{
    let is_near = distance(shape, next) < gap;
    if only_short {
        return is_near && is_short(shape, gap) && is_short(next, gap);
    }
    is_near
}

/// Joins shapes that are nearer to one another than a gap, in picoseconds, or of those only the short; how many are
/// left, at the front.
fn join(shapes: &mut [Shape], gap: u128, only_short: bool) -> usize
    ensures joined { take result shapes.new ≡ join_all_by (are_joined gap only_short) shapes.old }
    ensures within { result ≤ length shapes.old }
{
    if shapes.is_empty() {
        return 0;
    }
    let mut last = 0;
    for next in 1..shapes.len() {
        if are_joined(&shapes[last], &shapes[next], gap, only_short) {
            shapes[last] = joined(&shapes[last], &shapes[next]);
        } else {
            last += 1;
            shapes[last] = shapes[next];
        }
    }
    last + 1
}

/// Joins a shape to the last where it is nearer to it than a gap, in picoseconds; whether it is.
fn join_last(shapes: &mut [Shape], gap: u128, shape: &Shape) -> bool
    ensures joined { result ≡ true → shapes.new ≡ put gap shapes.old shape.now }
    ensures alone { result ≡ false → shapes.new ++ shape.now ∷ [] ≡ put gap shapes.old shape.now }
{
    if shapes.is_empty() {
        return false;
    }
    let last = shapes.len() - 1;
    if distance(&shapes[last], shape) >= gap {
        return false;
    }
    shapes[last] = joined(&shapes[last], shape);
    true
}

/// The least distance of neighbours, in picoseconds.
fn least_distance(shapes: &[Shape]) -> u128
    ensures value { result ≡ least_distance shapes.now }
    ensures within { result ≤ greatest_moment }
{
    let mut least = MAX_MOMENT;
    let mut place = shapes.len();
    while place > 1 {
        place -= 1;
        least = least.min(distance(&shapes[place - 1], &shapes[place]));
    }
    least
}

/// Puts a shape at the end of a list that has room, or joins it to the last, where it is nearer to it than a gap, in
/// picoseconds.
fn put<A: Allocator>(shapes: &mut Vec<Shape, A>, gap: u128, shape: Shape)
    requires { length shapes.old.items < vec_capacity shapes.old }
    ensures items { shapes.new.items ≡ put gap shapes.old.items shape }
    ensures capacity { vec_capacity shapes.old ≤ vec_capacity shapes.new }
{
    if join_last(shapes.as_mut_slice(), gap, &shape) {
        return;
    }
    let _ = shapes.push(shape);
}

/// Joins shapes that are nearer to one another than a gap, in picoseconds, or of those only the short.
fn join_all<A: Allocator>(shapes: &mut Vec<Shape, A>, gap: u128, only_short: bool)
    ensures items { shapes.new.items ≡ join_all_by (are_joined gap only_short) shapes.old.items }
    ensures capacity { vec_capacity shapes.old ≤ vec_capacity shapes.new }
{
    let left = join(shapes.as_mut_slice(), gap, only_short);
    shapes.truncate(left);
}

/// How long a pixel is at most that shows these shapes in the widest picture, to a moment; both are in picoseconds.
fn pixel_to(shapes: &[Shape], upto: u128) -> u128
    ensures { result ≡ pixel_to upto shapes.now }
{
    match shapes.first() {
        None => 0,
        Some(first) => upto.saturating_sub(first.span.from) / u128::from(MAX_WIDTH),
    }
}

/// Where there are too many shapes, joins the short: those that no pixel shows apart. The last ends at this moment, in
/// picoseconds.
fn bunch<A: Allocator>(shapes: &mut Vec<Shape, A>, upto: u128)
    ensures items { shapes.new.items ≡ bunched upto shapes.old.items }
    ensures capacity { vec_capacity shapes.old ≤ vec_capacity shapes.new }
{
    if shapes.len() > MOST_SHAPES {
        let gap = pixel_to(shapes.as_slice(), upto);
        join_all(shapes, gap, true);
    }
}

/// Where there are too many shapes, joins neighbours at a gap at which some are near. Answers the gap, in picoseconds.
fn make_room<A: Allocator>(shapes: &mut Vec<Shape, A>, gap: u128) -> u128
    ensures room { record { shapes = shapes.new.items; gap = result } ≡ roomy gap shapes.old.items }
    ensures capacity { vec_capacity shapes.old ≤ vec_capacity shapes.new }
{
    if shapes.len() <= MOST_SHAPES {
        return gap;
    }
    let wide = (2 * least_distance(shapes.as_slice())).max(1);
    join_all(shapes, wide, false);
    wide
}

/// The shapes of a lane, by rising start where they come so; their starts are at most `MAX_MOMENT`. There are at most
/// `MOST_SHAPES`. When one more comes, neighbours that are closer to one another than a gap are joined, and from then
/// on each shape that comes closer to the last. The gap is twice the least distance of neighbours, so that some are
/// joined, and at least twice the gap before.
#[derive(Drop)]
pub struct Lane<A: Allocator = Global> {
    shapes: Vec<Shape, A>,
    gap: u128,
}

/// A contract sees the shapes and the gap.
impl<A: Allocator> Model for Lane<A> {
    ghost use Rattle.picture.specs.Lanes.{Filled, IsLane};
    ghost use Rattle.std.specs.Prelude.{◌<◌, vec_capacity};
    ghost use Rattle.picture.specs.declared.TheConstants.{MOST_SHAPES};

    ghost Value = { Filled };

    ghost view = { λ r. record { shapes = r.shapes.items; gap = r.gap } };

    ghost invariant = { λ r. IsLane r.shapes.items × (MOST_SHAPES < vec_capacity r.shapes) };
}

impl<A: Allocator> Lane<A> {
    /// No shapes yet. The room for all that the lane ever has is got here.
    pub fn new(alloc: A) -> Result<Lane<A>, AllocError>
        ensures { IfOk result (λ lane. lane ≡ no_shapes) }
    {
        let shapes = Vec::with_capacity(alloc, MOST_SHAPES + 1)?;
        Ok(Lane { shapes, gap: 0 })
    }

    /// One shape more.
    pub fn push(&mut self, shape: Shape)
        requires { shape.span.from ≤ greatest_moment }
        ensures { self.new ≡ pushed shape self.old }
    {
        put(&mut self.shapes, self.gap, shape);
        self.gap = make_room(&mut self.shapes, self.gap);
    }

    /// One band more. Where there are too many, those are joined that no pixel shows apart: the short, to one another.
    /// One that is as long as a pixel stays as it is.
    pub fn push_band(&mut self, band: Shape)
        requires { band.span.from ≤ greatest_moment }
        ensures { self.new ≡ band_pushed band self.old }
    {
        put(&mut self.shapes, self.gap, band);
        bunch(&mut self.shapes, band.span.to);
        self.gap = make_room(&mut self.shapes, self.gap);
    }

    /// Neighbours that are closer to one another than a gap, in picoseconds, are joined, and from now on each shape
    /// that comes closer to the last.
    pub fn join(&mut self, gap: u128)
        ensures { self.new ≡ joined_at gap self.old }
    {
        join_all(&mut self.shapes, gap, false);
        self.gap = self.gap.max(gap);
    }

    /// No shapes any more; the room stays.
    pub fn clear(&mut self)
        ensures { self.new ≡ no_shapes }
    {
        self.shapes.truncate(0);
        self.gap = 0;
    }

    /// The shapes, in the order in which they came.
    pub fn shapes(&self) -> &[Shape]
        ensures value { result.now ≡ self.now.shapes }
        ensures few { length result.now ≤ MOST_SHAPES }
    {
        self.shapes.as_slice()
    }

    /// Shapes that are closer than this are joined, in picoseconds; 0: none was.
    pub fn gap(&self) -> u128
        ensures { result ≡ self.now.gap }
    {
        self.gap
    }
}
