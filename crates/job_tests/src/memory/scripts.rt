//! Scripts in memory.

use crate::memory::lent::{DOTS, USUAL, done, has};
use in_memory::{Ran, run_octets};
use std::alloc::Global;
use test_support::refusing_heap::RefusingHeap;

/// A frame, and a microsecond.
const SCRIPT: &[u8] = b"frame 1 0 60\nclock 1000000\n";

/// What is answered.
const ANSWERS: &[u8] = b"queued 1 class 0\nstart 1 class 0 at 0 end 672000\n";

/// Whether the script is answered.
fn is_answered(alloc: Global) -> bool {
    let (mut output, mut fault) = (DOTS, DOTS);
    let ran = run_octets(&alloc, USUAL, SCRIPT, &mut output, &mut fault);
    ran == done(ANSWERS.len()) && has(&output, ANSWERS) && has(&fault, b"")
}

#[test]
fn the_answers_stand_at_the_front(rt: HostRuntime) {
    assert!(rt; is_answered(rt.alloc()));
}

#[test]
fn an_empty_script_has_no_answers(rt: HostRuntime) {
    let ran = run_octets(&rt.alloc(), USUAL, b"", &mut [], &mut []);
    assert_eq!(rt; ran, done(0));
}

/// The script with a fault behind it.
const BROKEN: &[u8] = b"frame 1 0 60\nclock 1000000\nclok 5\n";

/// The text of that fault.
const UNKNOWN: &[u8] = b"taprio_port: script line 3: UnknownLine\n";

/// Whether a growth of this number is refused, which is told by the status alone, and nothing is written; or it isn't
/// asked for. None where it comes out otherwise.
fn is_refused(alloc: Global, number: u64) -> Option<bool> {
    let (mut output, mut fault) = (DOTS, DOTS);
    let heap = RefusingHeap::new(alloc, number, false);
    let ran = run_octets(&heap, USUAL, BROKEN, &mut output, &mut fault);
    if heap.asked() > number {
        let wanted = Ran {
            status: 4,
            ..done(0)
        };
        (ran == wanted && has(&output, b"") && has(&fault, b"")).then_some(true)
    } else {
        (ran.status == 3 && has(&output, ANSWERS) && has(&fault, UNKNOWN)).then_some(false)
    }
}

/// Each growth refused in turn, until a run asks for no further one.
#[test]
fn memory_is_wanting_only_where_it_is_refused(rt: HostRuntime) {
    let mut refused = 0u32;
    for number in 0..64u64 {
        let met = is_refused(rt.alloc(), number);
        assert!(rt; met.is_some(), "growth {number}");
        if met == Some(true) {
            refused = refused.saturating_add(1);
        }
    }
    assert!(rt; 4 < refused && refused < 64);
}
