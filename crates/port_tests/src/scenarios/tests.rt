use super::ports::{frame, gigabit_port, new_port, plain_map, replace};
use super::random::{agree, answers, rows_tell_open_time};
use super::tables::{LONG_TABLES, TABLES, play_all};
use super::*;
use abstract_port::{Answer, Command, Counters, Dropped, Event, Start};
use jumping::Jumping;
use jumping::stepped::Stepped;
use linked_list_allocator::LocalHeap;
use port::{Port, PortFault};
use std::alloc::{AllocError, Global};
use test_support::reference::Plain;

#[test]
fn classes_stay_open_as_worked(rt: HostRuntime) {
    assert_eq!(rt; play_all::<Plain>(&TABLES), Ok(()));
    for tables in [TABLES.as_slice(), LONG_TABLES.as_slice()] {
        assert_eq!(rt; play_all::<Stepped>(tables), Ok(()));
        assert_eq!(rt; play_all::<Jumping>(tables), Ok(()));
    }
}

/// The start of a frame.
fn start(id: u64, class: u8, at: u128, end: u128) -> Answer {
    Answer::Start(Start { id, class, at, end })
}

fn entry(mask: u8, interval: u32) -> Entry {
    Entry { mask, interval }
}

/// Whether a port answers just so to these events.
fn answers_just<G: Gates>(
    alloc: Global,
    port: &mut Port<G>,
    events: &[Event<'_>],
    want: &[Answer],
) -> bool {
    let mut answers = Vec::new(alloc);
    port.run(events, &mut answers).is_ok() && answers.as_slice() == want
}

/// Whether a new port has no counts of a class that there isn't.
fn has_no_class_8(alloc: Global) -> Option<bool> {
    let mut port = gigabit_port::<Plain>(alloc, 128)?;
    Some(answers_just(alloc, &mut port, &[Event::Count(8)], &[Answer::BadClass]))
}

#[test]
fn a_class_that_there_is_not_has_no_counts(rt: HostRuntime) {
    assert!(rt; has_no_class_8(rt.alloc()) == Some(true));
}

/// Why a port with this mtu and room isn't made, if it isn't.
fn fault_at(alloc: Global, mtu: u32, room: u32) -> Option<Option<PortFault>> {
    let rate = Rate::from_mbps(1000).ok()?;
    Some(Port::<Plain>::new(alloc, rate, mtu, room).err())
}

#[test]
fn ports_are_refused_at_their_limits(rt: HostRuntime) {
    for (mtu, room, want) in [
        (67, 0, Some(PortFault::BadMtu)),
        (9217, 1, Some(PortFault::BadMtu)),
        (68, 0, Some(PortFault::BadRoom)),
        (9216, 4097, Some(PortFault::BadRoom)),
        (68, 1, None),
        (9216, 4096, None),
    ] {
        assert_eq!(rt; fault_at(rt.alloc(), mtu, room), Some(want));
    }
}

/// A list of events on a port with room for two frames a class, before a gate that opens later.
fn closed_at_first(command: &Command) -> [Event<'_>; 7] {
    [
        Event::Install(command),
        Event::Clock(20_000_000),
        Event::Arrive(frame(1, 0, 60)),
        Event::Arrive(frame(2, 0, 60)),
        Event::Arrive(frame(3, 0, 60)),
        Event::Clock(121_000_000),
        Event::Count(0),
    ]
}

fn answers_of_closed_at_first() -> [Answer; 7] {
    [
        Answer::Installed(20_000_000),
        Answer::Queued { id: 1, class: 0 },
        Answer::Queued { id: 2, class: 0 },
        Answer::Dropped {
            id: 3,
            why: Dropped::Full,
        },
        start(1, 0, 120_000_000, 120_672_000),
        start(2, 0, 120_672_000, 121_344_000),
        Answer::Counters {
            class: 0,
            counters: Counters {
                accepted: 2,
                sent: 2,
                sent_octets: 120,
                waiting: 0,
                dropped: [0, 0, 0, 1],
            },
        },
    ]
}

/// The command of the gate that opens later.
fn closed_then_open() -> Option<Command> {
    replace(&[entry(0, 100_000), entry(1, 100_000)], 20_000, plain_map())
}

#[test]
fn stepped_agrees_with_plain_at_every_picosecond(rt: HostRuntime) {
    for seed in 0..24 {
        assert_eq!(rt;
            agree::<Plain, Stepped>(seed, 60_000),
            Ok(()),
            "seed {seed}"
        );
    }
}

#[test]
fn jumping_agrees_with_plain_at_every_picosecond(rt: HostRuntime) {
    for seed in 24..28 {
        assert_eq!(rt;
            agree::<Plain, Jumping>(seed, 60_000),
            Ok(()),
            "seed {seed}"
        );
    }
}

/// What a port answers to so many random events, if it is one.
fn random_answers<G: Gates + Drop>(
    alloc: Global,
    port: Option<Port<G>>,
    seed: u64,
    many: u32,
) -> Option<Vec<Answer>> {
    let mut port = port?;
    answers(alloc, &mut port, seed, many).ok()
}

/// Whether a port answers just so to so many random events.
fn answers_so<G: Gates + Drop>(
    alloc: Global,
    port: Option<Port<G>>,
    seed: u64,
    want: &[Answer],
) -> bool {
    match random_answers(alloc, port, seed, 60) {
        Some(got) => got.as_slice() == want,
        None => false,
    }
}

/// Whether ports at 100 Gb/s with an mtu of 68 octets, on stepped and on jumping gates, answer as one on plain gates.
fn answer_alike(alloc: Global, seed: u64) -> (bool, bool) {
    let plain = new_port::<Plain>(alloc, 100_000, 68, 3);
    let Some(want) = random_answers(alloc, plain, seed, 60) else {
        return (false, false);
    };
    let stepped = new_port::<Stepped>(alloc, 100_000, 68, 3);
    let is_stepped = answers_so(alloc, stepped, seed, want.as_slice());
    let jumping = new_port::<Jumping>(alloc, 100_000, 68, 3);
    (
        is_stepped,
        answers_so(alloc, jumping, seed, want.as_slice()),
    )
}

#[test]
fn ports_answer_alike_on_all_gates(rt: HostRuntime) {
    for seed in 0..12 {
        assert_eq!(rt; answer_alike(rt.alloc(), seed), (true, true), "seed {seed}");
    }
}

/// How many events a port takes with so many octets of memory for its answers, and these answers, out of that memory.
fn answers_within(
    alloc: Global,
    size: usize,
    port: &mut Port<Stepped>,
    events: &[Event<'_>],
) -> Result<(usize, Vec<Answer>), AllocError> {
    let heap = LocalHeap::new(alloc, size)?;
    let mut few = Vec::new(&heap);
    let taken = match port.run(events, &mut few) {
        Ok(()) => events.len(),
        Err(memory) => memory.taken,
    };
    Ok((taken, few.to_vec(alloc)?))
}

/// Whether a port that has given these answers gives just the others to the rest of the events.
fn ends_just(
    port: &mut Port<Stepped>,
    rest: Option<&[Event<'_>]>,
    mut answers: Vec<Answer>,
    want: &[Answer],
) -> bool {
    match rest {
        Some(events) => port.run(events, &mut answers).is_ok() && answers.as_slice() == want,
        None => false,
    }
}

/// How many events a new port takes with so many octets of memory, if it answers just so once it has taken the rest of
/// them.
fn goes_on(alloc: Global, size: usize, events: &[Event<'_>], want: &[Answer]) -> Option<usize> {
    let mut port = gigabit_port::<Stepped>(alloc, 2)?;
    let (taken, few) = answers_within(alloc, size, &mut port, events).ok()?;
    if ends_just(&mut port, events.get(taken..), few, want) {
        Some(taken)
    } else {
        None
    }
}

/// Whether there was too little memory, and whether there was enough, each at some size. Or the first size with which
/// the answers come out otherwise.
fn go_on(alloc: Global) -> Result<(bool, bool), usize> {
    let Some(command) = closed_then_open() else {
        return Err(0);
    };
    let events = closed_at_first(&command);
    let want = answers_of_closed_at_first();
    let mut wanted = false;
    let mut enough = false;
    for size in [512, 1024, 1536, 2048, 3072, 4096, 6144, 8192] {
        match goes_on(alloc, size, &events, &want) {
            Some(taken) if taken < events.len() => wanted = true,
            Some(_) => enough = true,
            None => return Err(size),
        }
    }
    Ok((wanted, enough))
}

/// A frame waits for its gate, and the next schedule comes: through calls of `run` with little memory the answers are
/// those of one call.
#[test]
fn runs_go_on_where_memory_is_wanting(rt: HostRuntime) {
    assert_eq!(rt; go_on(rt.alloc()), Ok((true, true)));
}

/// Why a port with so many octets of memory isn't made, if it isn't.
fn fault_within(alloc: Global, size: usize) -> Option<Option<PortFault>> {
    let rate = Rate::from_mbps(1000).ok()?;
    let heap = LocalHeap::new(alloc, size).ok()?;
    Some(Port::<Stepped, &LocalHeap>::new(&heap, rate, 1500, 8).err())
}

#[test]
fn ports_want_memory_only_where_it_is_refused(rt: HostRuntime) {
    for (size, want) in [
        (256, Some(PortFault::Memory)),
        (1024, Some(PortFault::Memory)),
        (16_384, None),
    ] {
        assert!(rt; fault_within(rt.alloc(), size) == Some(want), "size {size}");
    }
}

#[test]
fn rows_tell_the_open_time_of_every_picosecond(rt: HostRuntime) {
    for seed in 0..20 {
        assert!(rt; rows_tell_open_time::<Plain>(seed), "seed {seed}");
    }
}
