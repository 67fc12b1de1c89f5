//! Readers and writers of pictures that fail.

use drawing::{DrawOptions, draw};
use script::{RunFault, Settings, Unwatched};
use std::alloc::Global;
use std::process::Abort;
use std::test::Fail;
use test_support::test_streams::{Narrow, Pieces};
use wire_time::Rate;

/// A schedule, a frame that waits, and two that are dropped.
const SCRIPT: &[u8] = b"tc qdisc replace dev eth0 root taprio num_tc 8 map 0 1 2 3 4 5 6 7 \
base-time 20000 sched-entry S 80 10000 sched-entry S 7f 10000\n\
clock 25000000\nframe 12 0 60\nframe 13 16 60\nframe 14 7 13\nclock 100000000\n";

/// The whole run.
const WHOLE: DrawOptions = DrawOptions {
    from: Some(0),
    to: Some(100_000_000),
    width: 1096,
};

/// The settings that a test has: 1000 Mb/s, an mtu of 1500 octets and room for 128 frames a class.
fn usual(rt: &impl Abort) -> Settings {
    let rate = Rate::from_mbps(1000).expect(rt, "a rate");
    Settings::new(rate, 1500, 128, None).expect(rt, "settings")
}

/// Whether a read that fails draws nothing.
fn is_read(alloc: Global, settings: Settings) -> bool {
    let mut failing = Pieces::new(SCRIPT, 40);
    failing.fails_at = 2;
    let mut got = Vec::new(alloc);
    let run = draw(alloc, failing, &mut got, settings, WHOLE, &mut Unwatched);
    run == Err(RunFault::Read) && got.is_empty()
}

/// Whether a writer with room for so many octets, and no more, gets a prefix of the picture.
fn is_written(alloc: Global, settings: Settings, picture: &[u8], room: usize) -> bool {
    let mut narrow = Narrow {
        got: Vec::new(alloc),
        piece: 7,
        room,
        fails: room % 2 == 0,
        recovers: true,
    };
    let run = draw(alloc, SCRIPT, &mut narrow, settings, WHOLE, &mut Unwatched);
    run == Err(RunFault::Write) && picture.starts_with(narrow.got.as_slice())
}

/// A read that fails draws nothing, and a writer that takes no more gets a prefix.
#[test]
fn failed_reads_and_writes_end_it(rt: HostRuntime) -> Result<(), Fail> {
    let settings = usual(&rt);
    assert!(rt; is_read(rt.alloc(), settings));
    let mut picture = Vec::new(rt.alloc());
    draw(
        rt.alloc(),
        SCRIPT,
        &mut picture,
        settings,
        WHOLE,
        &mut Unwatched,
    )?;
    for room in [0, 1, 100, 3_000] {
        assert!(rt;
            is_written(rt.alloc(), settings, picture.as_slice(), room),
            "at {room}"
        );
    }
    Ok(())
}
