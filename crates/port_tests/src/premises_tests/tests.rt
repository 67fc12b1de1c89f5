//! Ports, scripts and events, by the calls that the laws speak of.

use abstract_port::class_map::ClassMap;
use abstract_port::{Change, Command, Event};
use claims::premises::apart::separated;
use claims::premises::bounds::{answered as bounds_answered, is_run};
use claims::premises::counted;
use claims::premises::scripts::answered;
use delay_bounds::{Bound, Flow, Unbound};
use gates::gate_list::{Entry, GateList, Schedule};
use script::Settings;
use std::test::Fail;
use wire_time::{Frame, Rate};

/// A schedule of two entries with this base time, in nanoseconds, and a class to each priority from 0 to 7.
fn command(base_ns: u64, masks: [u8; 2], intervals: [u32; 2]) -> Option<Command> {
    let entries = [
        Entry {
            mask: masks[0],
            interval: intervals[0],
        },
        Entry {
            mask: masks[1],
            interval: intervals[1],
        },
    ];
    Some(Command::Replace(Change {
        map: ClassMap::new(8, &[0, 1, 2, 3, 4, 5, 6, 7]).ok(),
        queues: None,
        max_sdu: None,
        list: GateList::new(&entries).ok()?,
        base_ns,
        cycle_ns: 0,
        extension_ns: 0,
    }))
}

fn frame(id: u64, priority: u8) -> Event<'static> {
    Event::Arrive(Frame {
        id,
        priority,
        len: 1514,
        tagged: false,
    })
}

/// A schedule, and a frame of class 0 before one of class 7.
fn of_two_classes(command: &Command) -> [Event<'_>; 6] {
    [
        Event::Install(command),
        Event::Clock(108_000_000),
        frame(1, 0),
        Event::Clock(110_000_000),
        frame(2, 7),
        Event::Clock(200_000_000),
    ]
}

/// Class 7 is open alone, or closed: the law of separation speaks of it. The others are open with each other.
#[test]
fn a_class_that_is_open_alone_is_separated(rt: HostRuntime) -> Result<(), Fail> {
    let rate = Rate::from_mbps(1000).ok().ok_or("a rate")?;
    let command = command(20_000, [0x80, 0x7f], [13_000, 87_000]).ok_or("a command")?;
    let events = of_two_classes(&command);
    assert_eq!(rt; separated(rt.alloc(), rate, 7, &events), Ok(true));
    assert_eq!(rt; separated(rt.alloc(), rate, 0, &events), Ok(false));
    Ok(())
}

/// Frames of other classes may come before a schedule is in force, and what is refused may be any command.
#[test]
fn what_does_not_concern_a_class_is_not_asked(rt: HostRuntime) -> Result<(), Fail> {
    let rate = Rate::from_mbps(1000).ok().ok_or("a rate")?;
    let alone = command(20_000, [0x80, 0x7f], [13_000, 87_000]).ok_or("a command")?;
    let shared = command(20_000, [0x81, 0x7f], [13_000, 87_000]).ok_or("a command")?;
    let early = [Event::Install(&alone), frame(1, 0)];
    assert_eq!(rt; separated(rt.alloc(), rate, 7, &early), Ok(true));
    let busy = [
        Event::Install(&alone),
        Event::Install(&shared),
        Event::Install(&Command::Delete),
    ];
    assert_eq!(rt; separated(rt.alloc(), rate, 7, &busy), Ok(true));
    let later = [
        Event::Install(&alone),
        Event::Clock(20_000_000),
        Event::Install(&shared),
    ];
    assert_eq!(rt; separated(rt.alloc(), rate, 7, &later), Ok(false));
    Ok(())
}

/// Not so where a frame of the class comes before the schedule is in force, or after a deletion.
#[test]
fn no_class_is_separated_without_a_schedule(rt: HostRuntime) -> Result<(), Fail> {
    let rate = Rate::from_mbps(1000).ok().ok_or("a rate")?;
    let command = command(20_000, [0x80, 0x7f], [13_000, 87_000]).ok_or("a command")?;
    let early = [Event::Install(&command), frame(1, 7)];
    assert_eq!(rt; separated(rt.alloc(), rate, 7, &early), Ok(false));
    let deleted = [
        Event::Install(&command),
        Event::Clock(20_000_000),
        Event::Install(&Command::Delete),
    ];
    assert_eq!(rt; separated(rt.alloc(), rate, 7, &deleted), Ok(false));
    Ok(())
}

/// Frames of 1514 octets, each 100 us from the change moment on.
const FLOW: Flow = Flow {
    need: 12_304_000,
    period: 100_000_000,
    offset: 0,
};

/// Two frames of the flow of class 7, whose windows begin with each cycle, and one of class 0.
#[test]
fn the_claim_of_bounds_speaks_of_a_run(rt: HostRuntime) -> Result<(), Fail> {
    let rate = Rate::from_mbps(1000).ok().ok_or("a rate")?;
    let command = command(20_000, [0x80, 0x7f], [13_000, 87_000]).ok_or("a command")?;
    let run = [
        Event::Clock(20_000_000),
        frame(1, 0),
        frame(2, 7),
        Event::Clock(120_000_000),
        frame(3, 7),
        Event::Query,
    ];
    assert_eq!(rt; is_run(rt.alloc(), rate, 7, &command, FLOW, &run), Ok(true));
    assert_eq!(rt;
        is_run(rt.alloc(), rate, 0, &command, FLOW, &run),
        Ok(false)
    );
    Ok(())
}

/// Not of one with a frame at another time, one frame more, or another command.
#[test]
fn the_claim_of_bounds_does_not_speak_of_other_runs(rt: HostRuntime) -> Result<(), Fail> {
    let rate = Rate::from_mbps(1000).ok().ok_or("a rate")?;
    let command = command(20_000, [0x80, 0x7f], [13_000, 87_000]).ok_or("a command")?;
    let late = [Event::Clock(20_000_001), frame(1, 7)];
    assert_eq!(rt;
        is_run(rt.alloc(), rate, 7, &command, FLOW, &late),
        Ok(false)
    );
    let more = [Event::Clock(20_000_000), frame(1, 7), frame(2, 7)];
    assert_eq!(rt;
        is_run(rt.alloc(), rate, 7, &command, FLOW, &more),
        Ok(false)
    );
    let again = [Event::Clock(20_000_000), Event::Install(&command)];
    assert_eq!(rt;
        is_run(rt.alloc(), rate, 7, &command, FLOW, &again),
        Ok(false)
    );
    Ok(())
}

/// Of a run with commands that are refused it speaks: while the first one waits, and with another map.
#[test]
fn the_claim_of_bounds_speaks_of_a_run_with_refused_commands(rt: HostRuntime) -> Result<(), Fail> {
    let rate = Rate::from_mbps(1000).ok().ok_or("a rate")?;
    let alone = command(20_000, [0x80, 0x7f], [13_000, 87_000]).ok_or("a command")?;
    let short = command(20_000, [0x80, 0x7f], [1, 87_000]).ok_or("a command")?;
    let run = [
        Event::Install(&Command::Delete),
        Event::Clock(20_000_000),
        Event::Install(&short),
        frame(1, 7),
    ];
    assert_eq!(rt; is_run(rt.alloc(), rate, 7, &alone, FLOW, &run), Ok(true));
    Ok(())
}

/// Not where the command is refused or a deletion, nor where a frame comes behind the last moment of a flow.
#[test]
fn the_claim_of_bounds_begins_with_a_schedule(rt: HostRuntime) -> Result<(), Fail> {
    let rate = Rate::from_mbps(1000).ok().ok_or("a rate")?;
    let short = command(20_000, [0x80, 0x7f], [1, 87_000]).ok_or("a command")?;
    assert_eq!(rt; is_run(rt.alloc(), rate, 7, &short, FLOW, &[]), Ok(false));
    assert_eq!(rt;
        is_run(rt.alloc(), rate, 7, &Command::Delete, FLOW, &[]),
        Ok(false)
    );
    let alone = command(20_000, [0x80, 0x7f], [13_000, 87_000]).ok_or("a command")?;
    let once = Flow {
        period: u128::MAX,
        offset: 1,
        ..FLOW
    };
    let one = [Event::Clock(20_000_001), frame(1, 7)];
    assert_eq!(rt; is_run(rt.alloc(), rate, 7, &alone, once, &one), Ok(true));
    let two = [Event::Clock(20_000_001), frame(1, 7), frame(2, 7)];
    assert_eq!(rt; is_run(rt.alloc(), rate, 7, &alone, once, &two), Ok(false));
    Ok(())
}

/// What is answered about that flow, about one that comes twice as often, with little room and with much, and about one
/// that fits into no window.
#[test]
fn what_is_answered_is_worth_what_the_claim_says(rt: HostRuntime) -> Result<(), Fail> {
    let rate = Rate::from_mbps(1000).ok().ok_or("a rate")?;
    let list = GateList::new(&[
        Entry {
            mask: 0x80,
            interval: 13_000,
        },
        Entry {
            mask: 0x7f,
            interval: 87_000,
        },
    ]);
    let list = list.ok().ok_or("a list")?;
    let schedule = Schedule::new(&list, 20_000, 0, 0, rate)
        .ok()
        .ok_or("a schedule")?;
    let bounded = bounds_answered(&rt.alloc(), &schedule, 7, 128, &[FLOW], 1000)
        .ok()
        .ok_or("bounds")?;
    let none = [Bound {
        least: 0,
        greatest: 0,
    }];
    assert_eq!(rt; bounded.bounds.as_slice(), none.as_slice());
    let often = [Flow {
        period: 50_000_000,
        ..FLOW
    }];
    assert!(rt;
        matches!(
            bounds_answered(&rt.alloc(), &schedule, 7, 4, &often, 1000),
            Err(Unbound::Full(_))
        )
    );
    assert!(rt;
        matches!(
            bounds_answered(&rt.alloc(), &schedule, 7, 128, &often, 20),
            Err(Unbound::Overloaded)
        )
    );
    let long = [Flow {
        need: 13_000_001,
        ..FLOW
    }];
    assert!(rt;
        matches!(
            bounds_answered(&rt.alloc(), &schedule, 7, 4, &long, 1000),
            Err(Unbound::Never(_, Some(_)))
        )
    );
    Ok(())
}

#[test]
fn a_port_is_made(rt: HostRuntime) -> Result<(), Fail> {
    let rate = Rate::from_mbps(1000).ok().ok_or("a rate")?;
    assert!(rt; counted(rt.alloc(), rate).is_ok());
    Ok(())
}

/// A script is answered in memory, so the law of its output speaks of one that is there.
#[test]
fn a_script_is_answered(rt: HostRuntime) -> Result<(), Fail> {
    let rate = Rate::from_mbps(1000).ok().ok_or("a rate")?;
    let settings = Settings::new(rate, 1500, 128, Some(1))
        .ok()
        .ok_or("settings")?;
    let mut output = Vec::new(rt.alloc());
    assert!(rt; answered(rt.alloc(), settings, b"frame 1 0 60", &mut output).is_ok());
    assert_eq!(rt;
        output.as_slice(),
        b"queued 1 class 0\nstart 1 class 0 at 0 end 672000\n".as_slice()
    );
    Ok(())
}
