//! Flows at 100 Gb/s, in schedules of a few nanoseconds, so that a model can go from picosecond to picosecond.

ghost use Rattle.std.specs.Prelude.{◌<◌, All, length};
ghost use Rattle.window_bounds.specs.Flows.{IsFlow};

use delay_bounds::Bound;
use gates::gate_list::{Entry, GateList, Schedule};
use std::alloc::Global;
use window_bounds::{JitteredFlow, Unbound, window_bounds};
use wire_time::Rate;

/// A frame is longer than the window.
const STUCK: [JitteredFlow; 3] = [
    JitteredFlow {
        offset: 11_400,
        period: 8_000,
        jitter: 3_075,
        shortest: 1_796,
        longest: 1_796,
    },
    JitteredFlow {
        offset: 12_491,
        period: 10_000,
        jitter: 9_685,
        shortest: 450,
        longest: 450,
    },
    JitteredFlow {
        offset: 28_676,
        period: 40_000,
        jitter: 29_057,
        shortest: 4_261,
        longest: 4_261,
    },
];

/// More comes than the windows take.
const OVERLOADED: [JitteredFlow; 3] = [
    JitteredFlow {
        offset: 578,
        period: 5_000,
        jitter: 3_425,
        shortest: 370,
        longest: 370,
    },
    JitteredFlow {
        offset: 51_760,
        period: 40_000,
        jitter: 8_295,
        shortest: 2_315,
        longest: 2_315,
    },
    JitteredFlow {
        offset: 10_169,
        period: 12_000,
        jitter: 1_746,
        shortest: 394,
        longest: 394,
    },
];

/// In a schedule that never shuts the class.
const ALWAYS_OPEN: [JitteredFlow; 3] = [
    JitteredFlow {
        offset: 1_653,
        period: 5_000,
        jitter: 0,
        shortest: 1_671,
        longest: 1_671,
    },
    JitteredFlow {
        offset: 4_138,
        period: 10_000,
        jitter: 709,
        shortest: 318,
        longest: 1_509,
    },
    JitteredFlow {
        offset: 1_591,
        period: 10_000,
        jitter: 130,
        shortest: 1_424,
        longest: 1_424,
    },
];

/// Up to six frames wait.
const SIX_WAIT: [JitteredFlow; 2] = [
    JitteredFlow {
        offset: 10_536,
        period: 6_500,
        jitter: 14_907,
        shortest: 706,
        longest: 706,
    },
    JitteredFlow {
        offset: 10_856,
        period: 13_000,
        jitter: 7_340,
        shortest: 364,
        longest: 1_430,
    },
];

/// Up to six frames wait, of two lengths.
const SIX_MORE: [JitteredFlow; 2] = [
    JitteredFlow {
        offset: 6_847,
        period: 4_000,
        jitter: 6_494,
        shortest: 212,
        longest: 413,
    },
    JitteredFlow {
        offset: 5_158,
        period: 4_000,
        jitter: 3_205,
        shortest: 315,
        longest: 315,
    },
];

/// In a schedule with two windows.
const TWO_WINDOWS: [JitteredFlow; 5] = [
    JitteredFlow {
        offset: 11_939,
        period: 21_000,
        jitter: 23_912,
        shortest: 979,
        longest: 1_487,
    },
    JitteredFlow {
        offset: 46_160,
        period: 42_000,
        jitter: 35_253,
        shortest: 238,
        longest: 238,
    },
    JitteredFlow {
        offset: 9_717,
        period: 6_000,
        jitter: 234,
        shortest: 751,
        longest: 751,
    },
    JitteredFlow {
        offset: 32_806,
        period: 21_000,
        jitter: 0,
        shortest: 188,
        longest: 437,
    },
    JitteredFlow {
        offset: 48_896,
        period: 28_000,
        jitter: 4_793,
        shortest: 1_189,
        longest: 1_189,
    },
];

/// In a schedule with two windows, too.
const LATE_PAIR: [JitteredFlow; 2] = [
    JitteredFlow {
        offset: 5_684,
        period: 8_000,
        jitter: 7_130,
        shortest: 1_605,
        longest: 1_605,
    },
    JitteredFlow {
        offset: 1_127,
        period: 24_000,
        jitter: 25_443,
        shortest: 1_132,
        longest: 1_797,
    },
];

/// The jitter is longer than a period.
const VERY_LATE: [JitteredFlow; 2] = [
    JitteredFlow {
        offset: 27_302,
        period: 22_000,
        jitter: 4_965,
        shortest: 2_232,
        longest: 3_365,
    },
    JitteredFlow {
        offset: 70_849,
        period: 44_000,
        jitter: 88_365,
        shortest: 235,
        longest: 235,
    },
];

/// Frames of several lengths.
const SHORT_AND_LONG: [JitteredFlow; 2] = [
    JitteredFlow {
        offset: 36_094,
        period: 26_000,
        jitter: 11_340,
        shortest: 3_953,
        longest: 3_953,
    },
    JitteredFlow {
        offset: 16_355,
        period: 26_000,
        jitter: 0,
        shortest: 293,
        longest: 336,
    },
];

/// Talkers of little jitter.
const EXACT: [JitteredFlow; 2] = [
    JitteredFlow {
        offset: 5_309,
        period: 10_000,
        jitter: 3_004,
        shortest: 590,
        longest: 1_142,
    },
    JitteredFlow {
        offset: 31_261,
        period: 20_000,
        jitter: 0,
        shortest: 1_226,
        longest: 1_749,
    },
];

/// A schedule that opens class 7 in every other entry, each of so many nanoseconds, from the first on.
fn schedule(intervals: &[u32]) -> Option<Schedule> {
    let mut entries = [Entry {
        mask: 0x80,
        interval: 0,
    }; 4];
    if intervals.len() > 4 {
        return None;
    }
    for i in 0..intervals.len() {
        let mask = if i % 2 == 0 { 0x80 } else { 0x7f };
        entries[i] = Entry {
            mask,
            interval: intervals[i],
        };
    }
    let list = GateList::new(&entries[..intervals.len()]).ok()?;
    Schedule::new(&list, 0, 0, 0, Rate::from_mbps(100000).ok()?).ok()
}

/// In what the bounds of flows of class 7 differ from those that are wanted; empty: in nothing.
fn differs(
    alloc: Global,
    intervals: &[u32],
    flows: &[JitteredFlow],
    want: &[(u128, u128)],
    most: u64,
) -> &'static str
    requires some { 0 < length flows.now }
    requires flows { All IsFlow flows.now }
{
    let Some(schedule) = schedule(intervals) else {
        return "no schedule";
    };
    let Ok(got) = window_bounds(&alloc, &schedule, 7, flows, 10_000) else {
        return "no bounds";
    };
    if got.bounds.len() != want.len() {
        return "how many";
    }
    for i in 0..want.len() {
        let (least, greatest) = want[i];
        if got.bounds[i] != (Bound { least, greatest }) {
            return "bounds";
        }
    }
    if got.most != most {
        return "most";
    }
    ""
}

/// Why flows of class 7 have no bounds.
fn why(alloc: Global, intervals: &[u32], flows: &[JitteredFlow], limit: u64) -> Option<Unbound>
    requires some { 0 < length flows.now }
    requires flows { All IsFlow flows.now }
{
    let schedule = schedule(intervals)?;
    match window_bounds(&alloc, &schedule, 7, flows, limit) {
        Ok(_) => None,
        Err(why) => Some(why),
    }
}

#[test]
fn bounds_are_the_least(rt: HostRuntime) {
    let want = [(0, 1_671), (0, 857), (0, 1_733)];
    assert_eq!(rt; differs(rt.alloc(), &[5], &ALWAYS_OPEN, &want, 2), "");
    let want = [(0, 29_894), (2_144, 19_434)];
    assert_eq!(rt; differs(rt.alloc(), &[6, 7], &SIX_WAIT, &want, 6), "");
    let want = [(0, 13_566), (0, 10_255)];
    assert_eq!(rt; differs(rt.alloc(), &[5, 6], &SIX_MORE, &want, 6), "");
    let want = [
        (0, 39_061),
        (0, 46_840),
        (0, 14_283),
        (0, 10_681),
        (0, 16_104),
    ];
    assert_eq!(rt;
        differs(rt.alloc(), &[5, 4, 7, 5], &TWO_WINDOWS, &want, 5),
        ""
    );
    let want = [(0, 18_316), (0, 36_670)];
    assert_eq!(rt; differs(rt.alloc(), &[5, 7], &LATE_PAIR, &want, 3), "");
    let want = [(5_698, 20_063), (0, 105_151)];
    assert_eq!(rt; differs(rt.alloc(), &[7, 4], &VERY_LATE, &want, 4), "");
    let want = [(2_906, 28_906), (0, 22_645)];
    assert_eq!(rt; differs(rt.alloc(), &[7, 6], &SHORT_AND_LONG, &want, 2), "");
    let want = [(0, 4_691), (0, 488)];
    assert_eq!(rt; differs(rt.alloc(), &[6, 4], &EXACT, &want, 1), "");
}

#[test]
fn no_bounds(rt: HostRuntime) {
    assert_eq!(rt;
        why(rt.alloc(), &[4, 6], &STUCK, 10_000),
        Some(Unbound::Stuck)
    );
    assert_eq!(rt;
        why(rt.alloc(), &[4, 6], &OVERLOADED, 10_000),
        Some(Unbound::Overloaded)
    );
    assert_eq!(rt; why(rt.alloc(), &[6, 7], &SIX_WAIT, 5), Some(Unbound::Long));
}
