//! Classes at 100 Gb/s, in a schedule of 1 us: classes 6 and 7 share its first 300 ns, and 0 to 6 share the rest.

ghost use Rattle.std.specs.Prelude.{◌≡◌, ◌<◌, [], ◌∷◌, All, length};
ghost use Rattle.burst_bounds.specs.Talkers.{IsTalker};
ghost use Rattle.shared_bounds.specs.Traffic.{IsTraffic, arrivals_of, needs};

use burst_bounds::{Bounds, Talker};
use gates::gate_list::{Entry, GateList, Schedule};
use shared_bounds::sharing::shares_windows;
use shared_bounds::{ClassTraffic, Unbound, shared_bounds};
use std::alloc::Global;
use wire_time::Rate;

/// The schedule.
fn schedule() -> Option<Schedule> {
    let list = GateList::new(&[
        Entry {
            mask: 0xc0,
            interval: 300,
        },
        Entry {
            mask: 0x7f,
            interval: 700,
        },
    ]);
    Schedule::new(&list.ok()?, 0, 0, 0, Rate::from_mbps(100_000).ok()?).ok()
}

/// No bounds are known.
const NONE: Bounds = Bounds { wait: 0, most: 0 };

/// Frames of 100 octets each 1 us.
const CONTROL: [Talker; 1] = [Talker {
    need: 9_920,
    period: 1_000_000,
    jitter: 0,
}];

/// Frames of 100 octets each 1 us, and seldom one of 726.
const MIXED: [Talker; 2] = [
    Talker {
        need: 9_920,
        period: 1_000_000,
        jitter: 0,
    },
    Talker {
        need: 60_000,
        period: 5_000_000,
        jitter: 0,
    },
];

/// Frames of 226 octets, each 1 us and each 700 ns, these late by up to 400 ns.
const AUDIO: [Talker; 2] = [
    Talker {
        need: 20_000,
        period: 1_000_000,
        jitter: 0,
    },
    Talker {
        need: 20_000,
        period: 700_000,
        jitter: 400_000,
    },
];

/// More frames of 226 octets than there is time for.
const FAST: [Talker; 1] = [Talker {
    need: 20_000,
    period: 19_000,
    jitter: 0,
}];

/// A class that sends nothing.
const IDLE: ClassTraffic<'static> = ClassTraffic {
    need: 0,
    talkers: &[],
    bounds: NONE,
};

/// What is known of all classes: frames of class 0 have up to 1514 octets.
fn traffic<'a>(audio: &'a [Talker], control: ClassTraffic<'a>) -> [ClassTraffic<'a>; 8]
    requires audio { All IsTalker audio.now }
    requires some { 0 < length audio.now }
    requires control { IsTraffic control }
    requires sends { 0 < arrivals_of (control ∷ []) 0 0 }
    requires takes { 0 < control.need }
    ensures all { length result ≡ 8 }
    ensures traffic { All IsTraffic result }
    ensures six { (0 < needs result 6) × (0 < arrivals_of result 6 0) }
    ensures seven { (0 < needs result 7) × (0 < arrivals_of result 7 0) }
{
    let files = ClassTraffic {
        need: 123_040,
        talkers: &[],
        bounds: NONE,
    };
    let sixth = ClassTraffic {
        need: 20_000,
        talkers: audio,
        bounds: NONE,
    };
    [files, IDLE, IDLE, IDLE, IDLE, IDLE, sixth, control]
}

/// In what an answer about a class differs from the one that is wanted; empty: in nothing.
fn differs(
    alloc: Global,
    schedule: &Schedule,
    class: u8,
    traffic: &[ClassTraffic<'_>],
    want: Result<Bounds, Unbound>,
) -> &'static str
    requires class { class < 8 }
    requires all { length traffic.now ≡ 8 }
    requires traffic { All IsTraffic traffic.now }
    requires need { 0 < needs traffic.now class }
    requires some { 0 < arrivals_of traffic.now class 0 }
{
    match (shared_bounds(&alloc, schedule, class, traffic, 1000), want) {
        (Ok(got), Ok(want)) => if got == want { "" } else { "bounds" },
        (Err(got), Err(want)) => if got == want {
            ""
        } else {
            "why there are none"
        },
        (Ok(_), Err(_)) => "there are bounds",
        (Err(_), Ok(_)) => "there are no bounds",
    }
}

#[test]
fn bounds_are_the_least(rt: HostRuntime) {
    let alloc = rt.alloc();
    let plan = schedule().expect(&rt, "a schedule");
    let control = ClassTraffic {
        need: 9_920,
        talkers: &CONTROL,
        bounds: NONE,
    };
    let bounds = Bounds {
        wait: 749_917,
        most: 1,
    };
    assert_eq!(rt;
        differs(alloc, &plan, 7, &traffic(&AUDIO, control), Ok(bounds)),
        ""
    );
    let judged = ClassTraffic { bounds, ..control };
    let want = Ok(Bounds {
        wait: 162_719,
        most: 2,
    });
    assert_eq!(rt;
        differs(alloc, &plan, 6, &traffic(&AUDIO, judged), want),
        ""
    );
    assert_eq!(rt;
        differs(alloc, &plan, 6, &traffic(&FAST, judged), Err(Unbound::Long)),
        ""
    );
}

#[test]
fn a_higher_frame_counts_by_its_talker(rt: HostRuntime) {
    let alloc = rt.alloc();
    let plan = schedule().expect(&rt, "a schedule");
    let mixed = ClassTraffic {
        need: 60_000,
        talkers: &MIXED,
        bounds: NONE,
    };
    let bounds = Bounds {
        wait: 859_997,
        most: 2,
    };
    assert_eq!(rt;
        differs(alloc, &plan, 7, &traffic(&AUDIO, mixed), Ok(bounds)),
        ""
    );
    let judged = ClassTraffic { bounds, ..mixed };
    let want = Ok(Bounds {
        wait: 243_039,
        most: 2,
    });
    assert_eq!(rt;
        differs(alloc, &plan, 6, &traffic(&AUDIO, judged), want),
        ""
    );
}

#[test]
fn some_have_none(rt: HostRuntime) {
    let alloc = rt.alloc();
    let plan = schedule().expect(&rt, "a schedule");
    let large = ClassTraffic {
        need: 310_000,
        talkers: &CONTROL,
        bounds: NONE,
    };
    assert_eq!(rt;
        differs(
            alloc,
            &plan,
            7,
            &traffic(&AUDIO, large),
            Err(Unbound::Stuck)
        ),
        ""
    );
    let long = ClassTraffic {
        need: 290_000,
        ..large
    };
    assert_eq!(rt;
        differs(
            alloc,
            &plan,
            7,
            &traffic(&AUDIO, long),
            Err(Unbound::Blocked)
        ),
        ""
    );
}

#[test]
fn classes_share_windows(rt: HostRuntime) {
    let plan = schedule().expect(&rt, "a schedule");
    assert!(rt; shares_windows(&plan, 6, 7));
    assert!(rt; shares_windows(&plan, 6, 0));
    assert!(rt; !shares_windows(&plan, 7, 0));
}
