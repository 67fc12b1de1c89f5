//! Faults in memory: what was answered before is written, and the text of the fault.

use crate::memory::jobs::{Job, ran_by};
use crate::memory::lent::{DOTS, has_told, room_for};
use std::alloc::Global;

/// A job whose inputs have a fault.
struct Broken {
    job: Job,
    inputs: [&'static [u8]; 2],
    /// What is answered before.
    answers: &'static [u8],
    /// The text of the fault.
    text: &'static [u8],
}

/// A script of one frame, with a fault behind it.
const SCRIPT: &[u8] = b"frame 1 0 60\nclock 1000000\nclok 5\n";

/// The text of that fault.
const UNKNOWN: &[u8] = b"taprio_port: script line 3: UnknownLine\n";

/// A window for each of two classes, and a line that is no command.
const SCHEDULES: &[u8] = b"tc qdisc replace dev eth0 root taprio num_tc 2 map 0 1 base-time 0 \
sched-entry S 2 50000 sched-entry S 1 200000\nclock 5\n";

/// The bounds of a stream that just misses its window, and meets its deadline.
const MET: &[u8] = b"apart 0 1\n\
class 1 most 1 of 128 frames 1 every 250000000\n\
bound 1 class 1 wait 190000000 to 190000000 end 190672000 to 190672000 deadline 200000000 met\n";

/// Each job with a fault of each of its inputs.
const BROKEN: [Broken; 10] = [
    Broken {
        job: Job::Script,
        inputs: [SCRIPT, b""],
        answers: b"queued 1 class 0\nstart 1 class 0 at 0 end 672000\n",
        text: UNKNOWN,
    },
    Broken {
        job: Job::Check,
        inputs: [b"tc\nclok 5\n", b""],
        answers: b"tc-fault NotTaprio\n",
        text: b"taprio_port: script line 2: UnknownLine\n",
    },
    Broken {
        job: Job::Streams,
        inputs: [b"stream 1 5 60 1us 0s 1\nstream 2\n", b""],
        answers: b"",
        text: b"taprio_port: table line 2: WordCount\n",
    },
    Broken {
        job: Job::Frames,
        inputs: [SCRIPT, b""],
        answers: b"id,class,len,arrival_ps,start_ps,end_ps,wait_ps,fate\n1,0,60,0,0,672000,0,sent\n",
        text: UNKNOWN,
    },
    Broken {
        job: Job::ByStream,
        inputs: [b"stream 2\n", b"frame 1 0 60\n"],
        answers: b"",
        text: b"taprio_port: table line 1: WordCount\n",
    },
    Broken {
        job: Job::OfCapture,
        inputs: [b"clok 5\n", b""],
        answers: b"",
        text: b"taprio_port: script line 1: UnknownLine\n",
    },
    Broken {
        job: Job::OfCapture,
        inputs: [b"", b"\xa1\xb2\x3c\x4d"],
        answers: b"",
        text: b"taprio_port: capture header: ShortHeader\n",
    },
    Broken {
        job: Job::Draw,
        inputs: [SCRIPT, b""],
        answers: b"",
        text: UNKNOWN,
    },
    Broken {
        job: Job::Bounds,
        inputs: [b"stream 2\n", b""],
        answers: b"",
        text: b"taprio_port: table line 1: WordCount\n",
    },
    Broken {
        job: Job::Bounds,
        inputs: [b"stream 1 1 60 250us 60us 1 deadline 200us\n", SCHEDULES],
        answers: MET,
        text: b"taprio_port: script line 2: UnknownLine\n",
    },
];

/// Whether the answers are written and the fault is told; or, where the slice of this number lacks an octet, nothing is
/// written.
fn is_told(alloc: Global, broken: &Broken, lacking: u8) -> bool {
    let (mut output, mut fault) = (DOTS, DOTS);
    let is_short = lacking == 1 || lacking == 0 && !broken.answers.is_empty();
    let ran = ran_by(
        broken.job,
        alloc,
        broken.inputs,
        &mut output[..room_for(broken.answers, lacking == 0)],
        &mut fault[..room_for(broken.text, lacking == 1)],
    );
    has_told(
        ran,
        is_short,
        [broken.answers, broken.text],
        &output,
        &fault,
    )
}

/// With too little room for the answers by one octet, and for the text of the fault, and then with just enough.
#[test]
fn the_room_that_is_told_is_enough(rt: HostRuntime) {
    for (number, broken) in BROKEN.iter().enumerate() {
        for lacking in 0..3u8 {
            assert!(rt;
                is_told(rt.alloc(), broken, lacking),
                "row {number}, slice {lacking}"
            );
        }
    }
}
