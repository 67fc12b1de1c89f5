//! A port inside another program: a schedule is built and installed, two frames arrive, the clock runs, and each start
//! is reported.
//!
//! An example: it has no contract, and its output is compared with the file beside it.
#![tactic(auto)]

use std::alloc::Global;
use std::io;
use taprio::{
    Answer, Change, ClassMap, Command, Entry, Event, Frame, GateList, Jumping, Port, Rate,
};

/// Class 7 alone for 20 microseconds, then all others for 80, over and over; each priority from 0 to 7 is its own
/// class.
fn schedule() -> Option<Command> {
    let entries = [(0x80, 20_000), (0x7f, 80_000)].map(|(mask, interval)| Entry { mask, interval });
    Some(Command::Replace(Change {
        map: ClassMap::new(8, &[0, 1, 2, 3, 4, 5, 6, 7]).ok(),
        queues: None,
        max_sdu: None,
        list: GateList::new(&entries).ok()?,
        base_ns: 0,
        cycle_ns: 0,
        extension_ns: 0,
    }))
}

/// A frame of 1000 octets without a tag.
fn frame(id: u64, priority: u8) -> Frame {
    Frame {
        id,
        priority,
        len: 1000,
        tagged: false,
    }
}

/// The answers of a port of 1000 Mb/s to two frames that come as the schedule comes into force, and to 100 microseconds
/// more.
fn answers(alloc: Global) -> Option<Vec<Answer>> {
    let rate = Rate::from_mbps(1000).ok()?;
    let mut port = Port::<Jumping>::new(alloc, rate, 1500, 128).ok()?;
    let command = schedule()?;
    let change = port.install(&command).ok()?;
    let events = [
        Event::Clock(change),
        Event::Arrive(frame(1, 0)),
        Event::Arrive(frame(2, 7)),
        Event::Clock(change.checked_add(100_000_000)?),
    ];
    let mut answers = Vec::new(alloc);
    port.run(&events, &mut answers).ok()?;
    Some(answers)
}

fn main(rt: HostRuntime) -> io::Result<()> {
    let Some(answers) = answers(rt.alloc()) else {
        return println!(rt; "out of memory");
    };
    for answer in answers.as_slice() {
        if let Answer::Start(start) = answer {
            println!(rt;
                "frame {} of class {} from {} to {} ps",
                start.id, start.class, start.at, start.end
            )?;
        }
    }
    Ok(())
}
