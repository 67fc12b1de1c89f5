//! Windows, steps of an axis, and lanes.

ghost use Rattle.std.specs.Prelude.{◌≡◌, ◌≤◌, ◌<◌};
ghost use Rattle.wire_time.specs.Moment.{greatest_moment};

use picture::{Lane, MOST_SHAPES, Shape, Span, Unit, Viewport, tick_step, unit_of};
use std::process::Abort;
use std::test::Fail;
use wire_time::MAX_MOMENT;

/// The shape of a frame, or of no one frame.
fn shape(from: u128, to: u128, id: Option<u64>) -> Shape
    ensures { result.span.from ≡ from }
{
    Shape {
        span: Span { from, to },
        id,
    }
}

/// From and up to which moment a viewport of these values shows, and its width, or that there is none.
fn viewport_of(from: u128, to: u128, width: u32) -> Option<(u128, u128, u32)> {
    let viewport = Viewport::new(from, to, width)?;
    Some((viewport.from(), viewport.to(), viewport.width()))
}

#[test]
fn windows_are_refused_past_their_limits(rt: HostRuntime) {
    let refused = [
        (5, 5, 800),
        (6, 5, 800),
        (0, 5, 199),
        (0, 5, 2401),
        (0, MAX_MOMENT + 1, 800),
    ];
    for (from, to, width) in refused {
        assert_eq!(rt; viewport_of(from, to, width), None);
    }
    let widest = (MAX_MOMENT - 1, MAX_MOMENT, 2400);
    assert_eq!(rt; viewport_of(widest.0, widest.1, widest.2), Some(widest));
    let viewport = Viewport::new(0, MAX_MOMENT, 200).expect(&rt, "a viewport");
    assert_eq!(rt; viewport.x(MAX_MOMENT), 20_000);
    assert_eq!(rt; viewport.x(u128::MAX), 20_000);
}

/// A moment's place is rounded down, and taken into the viewport.
#[test]
fn moments_have_places(rt: HostRuntime) {
    let viewport = Viewport::new(1_000, 4_000, 300).expect(&rt, "a viewport");
    let lanes = [
        (0, 0),
        (1_000, 0),
        (1_001, 10),
        (1_999, 9_990),
        (2_000, 10_000),
        (3_999, 29_990),
        (4_000, 30_000),
        (9_000, 30_000),
    ];
    for (moment, place) in lanes {
        assert_eq!(rt; viewport.x(moment), place);
    }
    let coarse = Viewport::new(0, 7_000_000, 200).expect(&rt, "a viewport");
    assert_eq!(rt; coarse.x(349), 0);
    assert_eq!(rt; coarse.x(350), 1);
}

/// What is left of a time in a viewport, and marks at its edges.
#[test]
fn times_are_cut(rt: HostRuntime) {
    let viewport = Viewport::new(1_000, 4_000, 300).expect(&rt, "a viewport");
    let lanes = [
        (0, 1_000, None),
        (0, 1_001, Some((1_000, 1_001))),
        (0, 9_000, Some((1_000, 4_000))),
        (2_000, 3_000, Some((2_000, 3_000))),
        (3_999, 4_001, Some((3_999, 4_000))),
        (4_000, 4_001, None),
        (999, 999, None),
        (1_000, 1_000, Some((1_000, 1_000))),
        (3_999, 3_999, Some((3_999, 3_999))),
        (4_000, 4_000, None),
        (3_000, 2_000, None),
    ];
    for (from, to, left) in lanes {
        let left = left.map(|(from, to)| Span { from, to });
        assert_eq!(rt; viewport.cut(Span { from, to }), left);
    }
}

/// A step of an axis, the unit that it is written in, the unit's name, and what is left of the step beside whole units.
#[derive(Clone, Copy, Debug, PartialEq, Eq)]
struct Step {
    length: u128,
    unit: Unit,
    name: &'static str,
    rest: u128,
}

/// The step of an axis of a length that has so many at most.
fn step_of(length: u128, most: u32) -> Step
    requires length { length ≤ greatest_moment }
    requires most { 0 < most }
{
    let step = tick_step(length, most);
    let unit = unit_of(step);
    Step {
        length: step,
        unit,
        name: unit.name(),
        rest: step % unit.ps(),
    }
}

/// The least of 1, 2, 5, 10 and so on, and the unit that it is written in.
#[test]
fn steps_have_units(rt: HostRuntime) {
    let lanes = [
        (0, 1, 1, Unit::Ps, "ps"),
        (10, 10, 1, Unit::Ps, "ps"),
        (11, 10, 2, Unit::Ps, "ps"),
        (21, 10, 5, Unit::Ps, "ps"),
        (51, 10, 10, Unit::Ps, "ps"),
        (10_000, 10, 1_000, Unit::Ns, "ns"),
        (10_001, 10, 2_000, Unit::Ns, "ns"),
        (1_000_000, 1, 1_000_000, Unit::Us, "us"),
        (999_999_999, 1, 1_000_000_000, Unit::Ms, "ms"),
        (50_000_000_000_000, 10, 5_000_000_000_000, Unit::S, "s"),
    ];
    for (length, most, step, unit, name) in lanes {
        assert!(rt; length <= MAX_MOMENT);
        assert!(rt; most > 0);
        let wanted = Step {
            length: step,
            unit,
            name,
            rest: 0,
        };
        assert_eq!(rt; step_of(length, most), wanted);
    }
    assert_eq!(rt; unit_of(0), Unit::S);
    assert_eq!(rt; tick_step(MAX_MOMENT, u32::MAX), 5_000_000_000_000);
}

/// So many shapes as a lane has, a nanosecond from one to the next, but two of them, at a place, so far as `near`.
fn fill(rt: &impl Abort, lane: &mut Lane, place: u64, near: u128) {
    for k in 0..MOST_SHAPES as u64 {
        let start = 2_000 * u128::from(k);
        let end = if k == place {
            (start + 2_000).saturating_sub(near)
        } else {
            start + 1_000
        };
        lane.push(shape(start, end, Some(k)));
    }
    assert_eq!(rt; lane.shapes().len(), MOST_SHAPES);
    assert_eq!(rt; lane.gap(), 0);
}

/// What a lane has come to.
#[derive(Clone, Copy, Debug, PartialEq, Eq)]
struct LaneEnds {
    shapes: usize,
    gap: u128,
    first: Option<Shape>,
    last: Option<Shape>,
}

/// What a lane comes to with one shape more.
fn pushed(lane: &mut Lane, shape: Shape) -> LaneEnds
    requires { shape.span.from ≤ greatest_moment }
{
    lane.push(shape);
    let shapes = lane.shapes();
    LaneEnds {
        shapes: shapes.len(),
        gap: lane.gap(),
        first: shapes.first().copied(),
        last: shapes.last().copied(),
    }
}

/// The shapes of a lane at a place and the two after it.
fn three_at(lane: &Lane, place: usize) -> [Option<Shape>; 3]
    requires { place < 4096 }
{
    let shapes = lane.shapes();
    [
        shapes.get(place).copied(),
        shapes.get(place + 1).copied(),
        shapes.get(place + 2).copied(),
    ]
}

/// The last shape that there is room for changes none, and one more joins those that are close.
#[test]
fn neighbours_are_joined_where_there_are_too_many(rt: HostRuntime) -> Result<(), Fail> {
    let mut lane = Lane::new(rt.alloc())?;
    fill(&rt, &mut lane, 7, 10);
    let mut ends = LaneEnds {
        shapes: MOST_SHAPES,
        gap: 20,
        first: Some(shape(0, 1_000, Some(0))),
        last: Some(shape(20_000_000, 20_000_001, Some(5_000))),
    };
    assert_eq!(rt;
        pushed(&mut lane, shape(20_000_000, 20_000_001, Some(5_000))),
        ends
    );
    let near = [
        Some(shape(12_000, 13_000, Some(6))),
        Some(shape(14_000, 17_000, None)),
        Some(shape(18_000, 19_000, Some(9))),
    ];
    assert_eq!(rt; three_at(&lane, 6), near);
    ends.last = Some(shape(20_000_000, 20_000_021, None));
    assert_eq!(rt;
        pushed(&mut lane, shape(20_000_020, 20_000_021, Some(5_001))),
        ends
    );
    ends.gap = 40;
    ends.last = Some(shape(20_000_000, 20_000_042, None));
    assert_eq!(rt;
        pushed(&mut lane, shape(20_000_041, 20_000_042, Some(5_002))),
        ends
    );
    let ends = LaneEnds {
        shapes: 2,
        gap: 2_000,
        first: Some(shape(0, 9_999_000, None)),
        last: Some(shape(20_000_000, 20_002_001, None)),
    };
    assert_eq!(rt;
        pushed(&mut lane, shape(20_002_000, 20_002_001, Some(5_003))),
        ends
    );
    Ok(())
}

/// Marks of one moment overlap, and are one mark where there are too many.
#[test]
fn marks_of_one_moment_are_joined(rt: HostRuntime) -> Result<(), Fail> {
    let mut lane = Lane::new(rt.alloc())?;
    for k in 0..MOST_SHAPES as u64 {
        lane.push(shape(5, 5, Some(k)));
    }
    assert_eq!(rt; lane.shapes().len(), MOST_SHAPES);
    let ends = LaneEnds {
        shapes: 2,
        gap: 1,
        first: Some(shape(5, 5, None)),
        last: Some(shape(6, 6, None)),
    };
    assert_eq!(rt; pushed(&mut lane, shape(6, 6, None)), ends);
    Ok(())
}
