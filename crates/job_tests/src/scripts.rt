//! Readers and writers that fail, and heaps that are too small.

use job::{Ended, say_fault};
use linked_list_allocator::LocalHeap;
use script::{RunFault, Settings, Unwatched, Values, answer_script, run_script};
use std::alloc::Global;
use std::io::{self, Read, Write};
use std::process::Abort;
use std::test::Fail;
use test_support::test_streams::{Narrow, Pieces};
use text::octet_writer::BufWriter;
use wire_time::Rate;

/// Takes all that it is given, but at one call, which fails.
#[derive(Drop)]
struct Once {
    got: Vec<u8>,
    fails_at: u32,
    calls: u32,
}

impl Write for Once {
    fn write(&mut self, buf: &[u8]) -> io::Result<usize> {
        let call = self.calls;
        self.calls = call.saturating_add(1);
        if call == self.fails_at {
            return Err(io::Error::from(io::ErrorKind::Other));
        }
        self.got.extend_from_slice(buf)?;
        Ok(buf.len())
    }

    fn flush(&mut self) -> io::Result<()> {
        Ok(())
    }
}

const SCRIPT: &[u8] = b"frame 1 0 60\nclock 1000000\n";

const ANSWERS: &[u8] = b"queued 1 class 0\nstart 1 class 0 at 0 end 672000\n";

/// The settings that a test has: 1000 Mb/s, an mtu of 1500 octets and room for 128 frames a class.
fn usual(rt: &impl Abort) -> Settings {
    let rate = Rate::from_mbps(1000).expect(rt, "a rate");
    Settings::new(rate, 1500, 128, None).expect(rt, "settings")
}

/// Whether octets are a prefix and what comes after it.
fn is_front_and(octets: &[u8], front: &[u8], behind: &[u8]) -> bool {
    octets.starts_with(front) && &octets[front.len().min(octets.len())..] == behind
}

/// Whether a heap of so many octets is enough for a script, which is then answered so, with this summary; where it
/// isn't, nothing is answered. Nothing where it comes out otherwise.
fn is_enough(
    alloc: Global,
    octets: usize,
    script: &[u8],
    settings: Settings,
    answers: &[u8],
    summary: &[u8],
) -> Option<bool> {
    let heap = LocalHeap::new(alloc, octets).ok()?;
    let mut got = Vec::new(alloc);
    match run_script(&heap, script, &mut got, settings, &mut Unwatched) {
        Ok(()) => is_front_and(&got, answers, summary).then_some(true),
        Err(fault) => (fault == RunFault::Memory && got.is_empty()).then_some(false),
    }
}

/// A heap that is too small refuses the room of one queue after another, then the line's and the chunk's.
#[test]
fn refuses_each_growth(rt: HostRuntime) {
    let settings = usual(&rt);
    let mut enough = Some(false);
    for size in 1..40usize {
        let before = enough;
        enough = is_enough(rt.alloc(), 6000 * size, SCRIPT, settings, ANSWERS, b"");
        assert!(rt; enough >= before, "at {size}");
    }
    assert_eq!(rt; enough, Some(true));
}

/// Whether a script whose read with this number fails is answered as it should be: it has 28.
fn is_read(alloc: Global, settings: Settings, fails_at: u32) -> bool {
    let mut reader = Pieces::new(SCRIPT, 1);
    reader.fails_at = fails_at;
    let mut got = Vec::new(alloc);
    let outcome = run_script(alloc, reader, &mut got, settings, &mut Unwatched);
    if fails_at > 27 {
        outcome == Ok(()) && got.as_slice() == ANSWERS
    } else {
        outcome == Err(RunFault::Read) && ANSWERS.starts_with(&got)
    }
}

#[test]
fn reads_pieces(rt: HostRuntime) {
    let settings = usual(&rt);
    for fails_at in 0..40u32 {
        assert!(rt; is_read(rt.alloc(), settings, fails_at), "at {fails_at}");
    }
}

/// Whether a script is answered as it should be where its writer has room for so many octets, and then fails or takes
/// nothing.
fn is_written(alloc: Global, settings: Settings, room: usize, piece: usize, fails: bool) -> bool {
    let mut writer = Narrow {
        got: Vec::new(alloc),
        piece,
        room,
        fails,
        recovers: false,
    };
    let outcome = run_script(alloc, SCRIPT, &mut writer, settings, &mut Unwatched);
    let want = (room < 49).then_some(RunFault::Write);
    outcome.err() == want && ANSWERS.starts_with(&writer.got) && writer.got.len() == room.min(49)
}

#[test]
fn stops_at_each_write(rt: HostRuntime) {
    let settings = usual(&rt);
    for room in 0..50usize {
        for (piece, fails) in [(1, false), (1, true), (20, false), (20, true)] {
            let is_right = is_written(rt.alloc(), settings, room, piece, fails);
            assert!(rt; is_right, "{room} {piece} {fails}");
        }
    }
}

/// Where no text can be written, it is not reported, and the status stays.
#[test]
fn says_nothing_where_no_write_is_taken(rt: HostRuntime) {
    let mut writer = Narrow {
        got: Vec::new(rt.alloc()),
        piece: 1,
        room: 5,
        fails: true,
        recovers: false,
    };
    let ended = Ended {
        status: 4,
        told: false,
    };
    assert_eq!(rt; say_fault(&RunFault::Read, &mut writer), ended);
    assert_eq!(rt; writer.got.as_slice(), b"tapri".as_slice());
}

/// No option is given.
const NONE: Values<'static> = Values {
    rate: None,
    mtu: None,
    room: None,
    until: None,
    summary: false,
};

/// The frames of a worked example: two of class 0 at moment 0, then one of class 0 and one of class 5 a picosecond
/// after 1000000.
const FRAMES: &[u8] =
    b"frame 1 0 60\nframe 2 0 60\nclock 1000001\nframe 3 0 60\nframe 4 5 1514\nclock 20000000\n";

/// What is reported of them, without a summary.
const FRAMES_TOLD: &[u8] =
    b"queued 1 class 0\nqueued 2 class 0\nstart 1 class 0 at 0 end 672000\nstart 2 class 0 at 672000 end 1344000\nqueued 3 class 0\nqueued 4 class 5\nstart 4 class 5 at 1344000 end 13648000\nstart 3 class 0 at 13648000 end 14320000\n";

/// Their summary: class 0 waited for 0, 672000 and 12647999, a third of a picosecond more than a whole mean.
const FRAMES_SUMMED: &[u8] =
    b"summary class 0 queued 3 sent 3 dropped 0 octets 180 least 0 mean 4439999 greatest 12647999 most 2\nsummary class 5 queued 1 sent 1 dropped 0 octets 1514 least 343999 mean 343999 greatest 343999 most 1\nsummary wire busy 14320000 ppm 716000 from 0 ppm 716000\n";

/// Where there is no room for the arrivals of a summary, nothing is read or written.
#[test]
fn sums_nothing_up(rt: HostRuntime) {
    let wanted = usual(&rt).with_summary(true);
    assert!(rt; wanted.summary() && !usual(&rt).summary());
    let mut enough = Some(false);
    for size in 1..60usize {
        let before = enough;
        enough = is_enough(
            rt.alloc(),
            6000 * size,
            FRAMES,
            wanted,
            FRAMES_TOLD,
            FRAMES_SUMMED,
        );
        assert!(rt; enough >= before, "at {size}");
    }
    assert_eq!(rt; enough, Some(true));
}

/// Where a read or a write failed.
const FAILED: Ended = Ended {
    status: 4,
    told: true,
};

/// How the script that `reader` gives ends, what its answers go to, and the text of a fault.
fn ended_into<R: Read, W: Write + Drop>(
    alloc: Global,
    reader: &mut R,
    writer: W,
) -> io::Result<(Ended, W, Vec<u8>)> {
    let answers = BufWriter::new(alloc, writer)?;
    let mut errors = Vec::new(alloc);
    let (ended, writer) = answer_script(alloc, NONE, reader, answers, &mut errors, &mut Unwatched);
    Ok((ended, writer, errors))
}

/// Whether a failed read is reported, and what was answered before it let out.
fn is_failed_read_told(alloc: Global) -> io::Result<bool> {
    let mut reader = Pieces::new(b"frame 1 0 60\nframe 2 0 60\n", 1);
    reader.fails_at = 14;
    let (ended, got, said) = ended_into(alloc, &mut reader, Vec::new(alloc))?;
    Ok(
        ended == FAILED
            && got.as_slice() == b"queued 1 class 0\n".as_slice()
            && said.as_slice() == b"taprio_port: read failed\n".as_slice(),
    )
}

/// Whether a failed write is reported, and is the last.
fn is_failed_write_told(alloc: Global) -> io::Result<bool> {
    let mut reader = SCRIPT;
    let narrow = Once {
        got: Vec::new(alloc),
        fails_at: 0,
        calls: 0,
    };
    let (ended, once, said) = ended_into(alloc, &mut reader, narrow)?;
    Ok(
        ended == FAILED
            && once.calls == 1
            && once.got.is_empty()
            && said.as_slice() == b"taprio_port: write failed\n".as_slice(),
    )
}

/// What was answered before a failed read is let out before the fault is reported; a write that fails is the last.
#[test]
fn lets_out_before_a_fault(rt: HostRuntime) -> Result<(), Fail> {
    assert!(rt; is_failed_read_told(rt.alloc())?);
    assert!(rt; is_failed_write_told(rt.alloc())?);
    Ok(())
}

/// Whether a first read that fails once is reported, and nothing is answered.
fn is_told_at_once(alloc: Global, settings: Settings) -> bool {
    let mut reader = Pieces::new(SCRIPT, usize::MAX);
    reader.fails_at = 0;
    reader.recovers = true;
    let mut got = Vec::new(alloc);
    run_script(alloc, reader, &mut got, settings, &mut Unwatched) == Err(RunFault::Read)
        && got.is_empty()
}

/// A read that fails once is not tried again, though it would work then.
#[test]
fn no_read_is_tried_again(rt: HostRuntime) {
    assert!(rt; is_told_at_once(rt.alloc(), usual(&rt)));
}
