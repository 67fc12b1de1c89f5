//! Random lists of events that lie far apart, on two implementations of the gates: long lists and short ones, cycles
//! that cut them or outlast them, holds, commands that replace one another, deletions, and moments up to the greatest.

use crate::scenarios::ports::{new_port, plain_map};
use abstract_port::{Answer, Change, Command, Event};
use gates::gate_list::{Entry, GateList};
use gates::list_config::Gates;
use jumping::Jumping;
use jumping::stepped::Stepped;
use port::Port;
use std::alloc::{AllocError, Global};
use test_support::random_lists::Numbers;
use wire_time::{Frame, MAX_MOMENT};

/// How far events lie apart, and where they begin.
#[derive(Clone, Copy)]
pub struct Reach {
    /// The moment of the first clock event, in picoseconds.
    pub first: u128,
    /// The most bits of the picoseconds between two clock events: up to 40.
    pub bits: u32,
}

/// A list of up to so many entries of 4 ns to 1 us. Three of four classes are shut in most of them.
fn list(numbers: &mut Numbers, most: usize) -> Option<GateList> {
    let mut entries = [Entry {
        mask: 0,
        interval: 4,
    }; 256];
    for entry in entries.iter_mut() {
        *entry = Entry {
            mask: (numbers.between(0, 256) & numbers.between(0, 256)) as u8,
            interval: numbers.between(4, 1000),
        };
    }
    let many = 1 + numbers.between(0, 256) as usize % most.clamp(1, 256);
    match GateList::new(&entries[..many]) {
        Ok(list) => Some(list),
        Err(_) => None,
    }
}

/// A cycle of the list's length, of 100 ns to 2 us, or of up to 1 ms; in nanoseconds.
fn cycle(numbers: &mut Numbers) -> u64 {
    match numbers.between(0, 3) {
        0 => 0,
        1 => u64::from(numbers.between(100, 1900)),
        _ => u64::from(numbers.between(100, 1_000_000)),
    }
}

/// A base time in nanoseconds: long past, or up to 1 ms after a moment in picoseconds.
fn base(numbers: &mut Numbers, moment: u128) -> u64 {
    let now = (moment.min(MAX_MOMENT) / 1000) as u64;
    match numbers.between(0, 3) {
        0 => u64::from(numbers.between(0, 1000)),
        1 => now + u64::from(numbers.between(0, 2000)),
        _ => now + u64::from(numbers.between(0, 1_000_000)),
    }
}

/// A random command at a moment, in picoseconds. Most of them are lists of a few entries.
fn command(numbers: &mut Numbers, moment: u128) -> Command {
    let most = match numbers.between(0, 3) {
        0 => 256,
        _ => 5,
    };
    let Some(list) = list(numbers, most) else {
        return Command::Delete;
    };
    let change = Change {
        map: plain_map(),
        queues: None,
        max_sdu: None,
        list,
        base_ns: base(numbers, moment),
        cycle_ns: cycle(numbers),
        extension_ns: u64::from(numbers.between(0, 1_000_000)),
    };
    match numbers.between(0, 6) {
        0 => Command::Delete,
        _ => Command::Replace(change),
    }
}

/// A frame of any length that may be, and some that may not.
fn arrival(numbers: &mut Numbers, id: u64) -> Frame {
    Frame {
        id,
        priority: numbers.between(0, 9) as u8,
        len: numbers.between(10, 1520),
        tagged: numbers.between(0, 2) == 0,
    }
}

/// A while of up to so many bits, in picoseconds: each number of bits is as likely as each other.
fn while_of(numbers: &mut Numbers, bits: u32) -> u128 {
    let many = numbers.between(0, bits.clamp(1, 40) + 1).min(40);
    u128::from(numbers.draw()) << 10 >> (41 - many)
}

/// The answers of a port to so many rounds of a clock event, a query, a frame and now and then a command.
pub fn answers<G: Gates>(
    alloc: Global,
    port: &mut Port<G>,
    seed: u64,
    many: u32,
    reach: Reach,
) -> Result<Vec<Answer>, AllocError> {
    let mut numbers = Numbers::new(seed);
    let mut moment = reach.first;
    let mut answers = Vec::new(alloc);
    for round in 0..many {
        let command = command(&mut numbers, moment);
        let frame = arrival(&mut numbers, u64::from(round));
        let events = [
            Event::Clock(moment),
            Event::Query,
            Event::Arrive(frame),
            Event::Install(&command),
        ];
        let taken = match numbers.between(0, 3) {
            0 => port.run(&events, &mut answers),
            _ => port.run(&events[..3], &mut answers),
        };
        if taken.is_err() {
            return Err(AllocError);
        }
        let pause = while_of(&mut numbers, reach.bits).min(MAX_MOMENT);
        moment = (moment.min(MAX_MOMENT) + pause).min(MAX_MOMENT);
    }
    Ok(answers)
}

/// What a port answers to so many rounds, if it is one.
fn answers_of<G: Gates + Drop>(
    alloc: Global,
    port: Option<Port<G>>,
    seed: u64,
    many: u32,
    reach: Reach,
) -> Option<Vec<Answer>> {
    let mut port = port?;
    answers(alloc, &mut port, seed, many, reach).ok()
}

/// Whether a port answers just so to so many rounds.
fn answers_just<G: Gates + Drop>(
    alloc: Global,
    port: Option<Port<G>>,
    (seed, many, reach): (u64, u32, Reach),
    want: &[Answer],
) -> bool {
    match answers_of(alloc, port, seed, many, reach) {
        Some(got) => got.as_slice() == want,
        None => false,
    }
}

/// Whether new ports at 100 Gb/s, on stepped and on jumping gates, answer the same events alike.
fn answer_alike(alloc: Global, seed: u64, many: u32, reach: Reach) -> bool {
    let stepped = new_port::<Stepped>(alloc, 100_000, 1500, 3);
    let jumping = new_port::<Jumping>(alloc, 100_000, 1500, 3);
    match answers_of(alloc, stepped, seed, many, reach) {
        Some(want) => answers_just(alloc, jumping, (seed, many, reach), want.as_slice()),
        None => false,
    }
}

/// Clock events up to 137 ms apart: up to 1,370,000 cycles of 100 ns, each of which the stepped gates take.
#[test]
fn ports_answer_alike_from_the_beginning_on(rt: HostRuntime) {
    let reach = Reach { first: 0, bits: 37 };
    for seed in 0..40 {
        assert!(rt; answer_alike(rt.alloc(), seed, 40, reach), "seed {seed}");
    }
}

/// Clock events up to 137 ms apart, from 275 ms before the greatest moment up to it.
#[test]
fn ports_answer_alike_up_to_the_greatest_moment(rt: HostRuntime) {
    let reach = Reach {
        first: MAX_MOMENT - (1 << 38),
        bits: 37,
    };
    for seed in 40..80 {
        assert!(rt; answer_alike(rt.alloc(), seed, 40, reach), "seed {seed}");
    }
}
