//! Schedule commands in memory.

use crate::memory::lent::{DOTS, done, has};
use in_memory::check_octets;
use std::alloc::Global;

/// A guard band keeps classes 2 and 3 free of frames of the others; no entry opens class 2.
const SCHEDULES: &[u8] = b"tc qdisc replace dev eth0 root taprio num_tc 4 map 0 1 2 3 \
sched-entry S 08 100000 sched-entry S 00 12000 sched-entry S 03 388000\n";

/// What is reported of it, with the classes that share windows, and with windows.
const TOLD: &[u8] = b"apart 2 3\n\
shares 0 with 1\n\
shares 1 with 0\n\
window class 0 open 388000000 closed 112000000 share 388000000 of 500000000 frame 48476 wait 499999999\n\
window class 1 open 388000000 closed 112000000 share 388000000 of 500000000 frame 48476 wait 499999999\n\
never 2\n\
window class 3 open 100000000 closed 400000000 share 100000000 of 500000000 frame 12476 wait 499999999\n";

/// Whether that is reported.
fn is_told(alloc: Global) -> bool {
    let (mut output, mut fault) = (DOTS, DOTS);
    let ran = check_octets(&alloc, 1000, true, true, SCHEDULES, &mut output, &mut fault);
    ran == done(TOLD.len()) && has(&output, TOLD) && has(&fault, b"")
}

#[test]
fn tells_of_a_schedule_with_windows(rt: HostRuntime) {
    assert!(rt; is_told(rt.alloc()));
}
