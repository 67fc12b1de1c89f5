//! Answers, and what they come to.

use abstract_port::{Answer, Counters, Start};
use linked_list_allocator::LocalHeap;
use std::test::Fail;
use summary::{Summary, Waits};
use wire_time::MAX_MOMENT;

/// A frame of class 0 that starts.
fn start(at: u128, end: u128) -> Answer {
    Answer::Start(Start {
        id: 0,
        class: 0,
        at,
        end,
    })
}

/// A frame of class 0 that is queued.
const QUEUED: Answer = Answer::Queued { id: 0, class: 0 };

/// Of three frames that were queued two were sent.
const COUNTERS: Counters = Counters {
    accepted: 3,
    sent: 2,
    sent_octets: 120,
    waiting: 1,
    dropped: [1, 2, 3, 4],
};

/// The waits of these frames: each with the moment at which it comes, that at which it starts and that at which the
/// wire is free again.
fn lines_of(rt: &HostRuntime, frames: &[(u128, u128, u128)], now: u128) -> Result<Vec<u8>, Fail> {
    let mut summary = Summary::new(&rt.alloc(), 4)?;
    for (came, at, end) in frames.iter() {
        summary.see(*came, &QUEUED);
        summary.see(now, &start(*at, *end));
    }
    let mut got = Vec::new(rt.alloc());
    summary.put_class(0, &COUNTERS, &mut got)?;
    summary.put_wire(now.min(MAX_MOMENT), &mut got)?;
    Ok(got)
}

/// A wait goes from the arrival to the start, whatever the frame's own time on the wire is. A mean that isn't whole is
/// rounded down, and so is a share. What a frame needs after the last moment isn't counted.
#[test]
fn waits_and_the_wire(rt: HostRuntime) -> Result<(), Fail> {
    let rows: [(&[(u128, u128, u128)], u128, &[u8]); 6] = [
        (
            &[],
            0,
            b"summary class 0 queued 3 sent 2 dropped 10 octets 120 least - mean - greatest - most 0\nsummary wire busy 0 ppm 0 from - ppm 0\n",
        ),
        (
            &[(7, 7, 679)],
            679,
            b"summary class 0 queued 3 sent 2 dropped 10 octets 120 least 0 mean 0 greatest 0 most 1\nsummary wire busy 672 ppm 989690 from 7 ppm 1000000\n",
        ),
        (
            &[(0, 1, 2), (0, 2, 3)],
            3,
            b"summary class 0 queued 3 sent 2 dropped 10 octets 120 least 1 mean 1 greatest 2 most 1\nsummary wire busy 2 ppm 666666 from 0 ppm 666666\n",
        ),
        (
            &[(0, 4, 5), (0, 6, 7), (5, 7, 9)],
            8,
            b"summary class 0 queued 3 sent 2 dropped 10 octets 120 least 2 mean 4 greatest 6 most 1\nsummary wire busy 3 ppm 375000 from 0 ppm 375000\n",
        ),
        (
            &[(10, 20, 1020)],
            520,
            b"summary class 0 queued 3 sent 2 dropped 10 octets 120 least 10 mean 10 greatest 10 most 1\nsummary wire busy 500 ppm 961538 from 10 ppm 980392\n",
        ),
        (
            &[(0, 0, 9223372036854775807000)],
            9223372036854775807000,
            b"summary class 0 queued 3 sent 2 dropped 10 octets 120 least 0 mean 0 greatest 0 most 1\nsummary wire busy 9223372036854775807000 ppm 1000000 from 0 ppm 1000000\n",
        ),
    ];
    for (frames, now, lines) in rows {
        assert_eq!(rt; lines_of(&rt, frames, now)?.as_slice(), lines);
    }
    Ok(())
}

/// The greatest number that waited at once stays, and each class has its own frames, first in, first out.
#[test]
fn classes_apart(rt: HostRuntime) -> Result<(), Fail> {
    let mut summary = Summary::new(&rt.alloc(), 2)?;
    summary.see(1, &QUEUED);
    summary.see(3, &QUEUED);
    summary.see(3, &Answer::Queued { id: 9, class: 7 });
    summary.see(100, &start(11, 12));
    summary.see(100, &start(21, 22));
    summary.see(100, &Answer::BadClass);
    let mut got = Vec::new(rt.alloc());
    summary.put_class(0, &COUNTERS, &mut got)?;
    summary.put_class(7, &COUNTERS, &mut got)?;
    let none = Counters {
        accepted: 0,
        dropped: [0; 4],
        ..COUNTERS
    };
    summary.put_class(3, &none, &mut got)?;
    assert_eq!(rt;
        got.as_slice(),
        b"summary class 0 queued 3 sent 2 dropped 10 octets 120 least 10 mean 14 greatest 18 most 2\nsummary class 7 queued 3 sent 2 dropped 10 octets 120 least - mean - greatest - most 1\n".as_slice()
    );
    Ok(())
}

/// Waits by themselves; sums stay at the greatest u128.
#[test]
fn waits(rt: HostRuntime) {
    let none = Waits::default();
    assert_eq!(rt; none.mean(), 0);
    let two = none.with(5).with(4);
    assert_eq!(rt;
        two,
        Waits {
            count: 2,
            least: 4,
            sum: 9,
            greatest: 5
        }
    );
    assert_eq!(rt; two.mean(), 4);
    assert_eq!(rt; two.with(u128::MAX).sum, u128::MAX);
}

/// All memory is taken at the beginning, and a heap that is too small is reported.
#[test]
fn fixed_memory(rt: HostRuntime) -> Result<(), Fail> {
    let small = LocalHeap::new(rt.alloc(), 4096)?;
    assert!(rt; Summary::new(&&small, 4).is_ok());
    assert!(rt; Summary::new(&&small, 4096).is_err());
    Ok(())
}
