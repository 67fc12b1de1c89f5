//! Worked histories as tables, for any gates: how long classes stay open. The scripts of tests/histories.py and
//! examples/worked.txt have masks, change moments and what is shown.
use super::{Given, Step, play};
use gates::gate_list::Entry;
use gates::list_config::Gates;

/// What is done at moments in picoseconds, and what has to come of it.
pub type History = &'static [(u128, Step<'static>)];

/// A schedule of these masks and intervals, with its base time, its cycle and its extension.
macro_rules! given {
    ($([$mask:expr, $interval:expr]),+; $base:expr, $cycle:expr, $extension:expr) => {
        Given {
            entries: &[$(Entry { mask: $mask, interval: $interval }),+],
            base: $base,
            cycle: $cycle,
            extension: $extension,
        }
    };
}

/// A class stays open in the hold, up to the change.
const OPEN_IN_A_HOLD: History = &[
    (
        0,
        Step::Install(
            given!([0x1, 600000], [0x2, 400000]; 1000000, 0, 200000),
            Ok(1_000_000_000),
        ),
    ),
    (
        2000000000,
        Step::Install(given!([0x4, 1000000]; 5150000, 0, 0), Ok(5_150_000_000)),
    ),
    (5149990000, Step::Open(1, 10_000, true)),
    (5149990000, Step::Open(1, 10_001, false)),
];

/// A class stays open over the end of its cycle.
const OPEN_OVER_THE_BOUNDARY: History = &[
    (
        0,
        Step::Install(
            given!([0x8, 100000], [0x0, 100000], [0x8, 6000]; 20000, 0, 0),
            Ok(20_000_000),
        ),
    ),
    (225990000, Step::Open(3, 20_000, true)),
    (325990000, Step::Open(3, 10_000, true)),
    (325990000, Step::Open(3, 10_001, false)),
];

/// The pending change closes a class that the schedule in force leaves open.
const CLOSED_BY_THE_CHANGE: History = &[
    (
        0,
        Step::Install(given!([0x1, 1000000]; 1000000, 0, 0), Ok(1_000_000_000)),
    ),
    (
        2000000000,
        Step::Install(given!([0x2, 1000000]; 2100000, 0, 0), Ok(2_100_000_000)),
    ),
    (2099990000, Step::Open(0, 10_001, false)),
    (2099990000, Step::Open(0, 10_000, true)),
    (2100000000, Step::Open(1, 20_000, true)),
];

/// A class may stay open under one schedule and then the next.
const OPEN_OVER_THE_CHANGE: History = &[
    (
        0,
        Step::Install(given!([0x1, 1000000]; 1000000, 0, 0), Ok(1_000_000_000)),
    ),
    (
        2000000000,
        Step::Install(given!([0x1, 1000000]; 2100000, 0, 0), Ok(2_100_000_000)),
    ),
    (2099990000, Step::Open(0, 20_000, true)),
];

/// A schedule may follow a deletion.
const SCHEDULE_AFTER_A_DELETION: History = &[
    (
        0,
        Step::Install(given!([0x1, 100000]; 20000, 0, 0), Ok(20_000_000)),
    ),
    (20000000, Step::Delete(Ok(32_336_000))),
    (20000000, Step::Open(1, 1, false)),
    (32336000, Step::Open(1, 67_200, true)),
    (
        40000000,
        Step::Install(given!([0x2, 100000]; 0, 0, 0), Ok(100_000_000)),
    ),
];

/// Classes stay open for frames of full length: in a hold, over the end of a cycle, and over a change.
const OPEN_FOR_LONG_FRAMES: History = &[
    (
        0,
        Step::Install(
            given!([0x8, 100000], [0x0, 100000], [0x8, 6000]; 20000, 0, 0),
            Ok(20_000_000),
        ),
    ),
    (220000000, Step::Open(3, 12_304_000, true)),
    (220000000, Step::Open(3, 106_000_000, true)),
    (220000000, Step::Open(3, 106_000_001, false)),
    (
        2000000000,
        Step::Install(given!([0x8, 1000000]; 2100000, 0, 0), Ok(2_100_000_000)),
    ),
    (2099990000, Step::Open(3, 12_304_000, true)),
    (2100000000, Step::Open(3, 1_000_000_000_000_000, true)),
];

/// A command given after the short cycle began holds nothing: a class stays open up to the change.
const OPEN_WITHOUT_A_HOLD: History = &[
    (
        0,
        Step::Install(
            given!([0x1, 600000], [0x2, 400000]; 1000000, 0, 200000),
            Ok(1_000_000_000),
        ),
    ),
    (
        5050000000,
        Step::Install(
            given!([0x4, 500000], [0x4, 500000]; 5150000, 0, 0),
            Ok(5_150_000_000),
        ),
    ),
    (5050000000, Step::Open(0, 99_999_999, true)),
    (5050000000, Step::Open(0, 100_000_001, false)),
];

/// The tables that all gates play.
pub const TABLES: [History; 5] = [
    OPEN_IN_A_HOLD,
    OPEN_OVER_THE_BOUNDARY,
    CLOSED_BY_THE_CHANGE,
    OPEN_OVER_THE_CHANGE,
    SCHEDULE_AFTER_A_DELETION,
];

/// Those that ask for times too long to be asked at every picosecond.
pub const LONG_TABLES: [History; 2] = [OPEN_WITHOUT_A_HOLD, OPEN_FOR_LONG_FRAMES];

/// Plays each of these tables: the number of the first that doesn't come out as it has to, and of its step.
pub fn play_all<G: Gates + Drop>(tables: &[History]) -> Result<(), (usize, usize)> {
    for (table, steps) in tables.iter().enumerate() {
        if let Err(step) = play::<G>(steps) {
            return Err((table, step));
        }
    }
    Ok(())
}
