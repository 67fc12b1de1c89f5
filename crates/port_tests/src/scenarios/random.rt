//! Small random histories and lists of events, on two implementations of the gates at once.

ghost use Rattle.std.specs.Prelude.{◌≡◌, ◌≤◌, ◌<◌};

use crate::scenarios::ports::plain_map;
use abstract_port::{Answer, Change, Command, Event};
use gates::gate_list::{Row, Schedule, Stay, Visits};
use gates::list_config::Gates;
use port::Port;
use std::alloc::{AllocError, Global};
use test_support::random_lists::Numbers;
use wire_time::{CLASSES, Frame, Rate};

/// A base time, a cycle and an extension, in nanoseconds.
fn times(numbers: &mut Numbers) -> (u64, u64, u64) {
    let cycle = match numbers.between(0, 3) {
        0 => numbers.between(4, 17),
        _ => 0,
    };
    (
        u64::from(numbers.between(0, 100)),
        u64::from(cycle),
        u64::from(numbers.between(0, 30)),
    )
}

/// The fastest rate, at which the shortest interval is 4 nanoseconds.
fn fastest() -> Option<Rate> {
    match Rate::from_mbps(100000) {
        Ok(rate) => Some(rate),
        Err(_) => None,
    }
}

/// A random schedule, if it is one.
fn schedule(numbers: &mut Numbers) -> Option<Schedule> {
    let list = numbers.list()?;
    let (base, cycle, extension) = times(numbers);
    match Schedule::new(&list, base, cycle, extension, fastest()?) {
        Ok(schedule) => Some(schedule),
        Err(_) => None,
    }
}

/// Whether a class is open from now on for just so long.
fn stays_for<G: Gates>(gates: &G, class: u8, stay: Stay) -> bool
    requires sound { G.is_sound gates.now }
    requires class { class < CLASSES }
{
    let mut visits = Visits::zero();
    match stay {
        Stay::Always => gates.stays_open(class, 200_000, &mut visits),
        Stay::Lasts(0) => !gates.stays_open(class, 1, &mut visits),
        Stay::Lasts(t) => {
            t < 1_000_000
                && gates.stays_open(class, t, &mut visits)
                && !gates.stays_open(class, t + 1, &mut visits)
        }
    }
}

/// Whether a row says for each class how long it stays open from now on.
fn tells_open_time<G: Gates>(gates: &G, row: &Row) -> bool
    requires { G.is_sound gates.now }
{
    for class in 0..CLASSES as u8 {
        if !stays_for(gates, class, row.stay[class as usize]) {
            return false;
        }
    }
    true
}

/// Whether each row of a random schedule says the open time that the gates show from the entry's start on.
pub fn rows_tell_open_time<G: Gates + Drop>(seed: u64) -> bool {
    let mut numbers = Numbers::new(seed);
    let mut again = numbers;
    let mut visits = Visits::zero();
    let Some(table) = schedule(&mut numbers) else {
        return false;
    };
    let Some(given) = schedule(&mut again) else {
        return false;
    };
    let mut gates = G::begin();
    let Ok(change) = gates.install(&given, 1) else {
        return false;
    };
    if change > 1_000_000_000 {
        return false;
    }
    let mut at = change;
    for i in 0..table.len() {
        if at < gates.now() || at > 1_000_000_000 {
            return false;
        }
        if at >= change + 1000 * u128::from(table.cycle_ns()) {
            return true;
        }
        gates.move_to(at, &mut visits);
        let row = table.row(i, &mut visits);
        if !tells_open_time(&gates, &row) {
            return false;
        }
        at += 1000 * u128::from(row.entry.interval);
    }
    true
}

/// Gives both the same command, and whether they answer alike.
fn commanded_alike<G: Gates, H: Gates>(first: &mut G, second: &mut H, numbers: &mut Numbers) -> bool
    requires first { G.is_sound first.old }
    requires second { H.is_sound second.old }
    requires early { G.moment first.old ≤ 1000000000 }
    requires same { H.moment second.old ≡ G.moment first.old }
    ensures first { G.is_sound first.new }
    ensures second { H.is_sound second.new }
    ensures moment { G.moment first.new ≡ G.moment first.old }
    ensures same { H.moment second.new ≡ G.moment first.new }
{
    let e = first.now() + 1 + u128::from(numbers.between(0, 9000));
    if numbers.between(0, 5) == 0 {
        return first.delete(e) == second.delete(e);
    }
    let mut again = *numbers;
    let Some(one) = schedule(numbers) else {
        return true;
    };
    let Some(other) = schedule(&mut again) else {
        return true;
    };
    first.install(&one, e) == second.install(&other, e)
}

/// Whether both show the same mask and the same commands.
fn shown_alike<G: Gates, H: Gates>(first: &G, second: &H) -> bool
    requires first { G.is_sound first.now }
    requires second { H.is_sound second.now }
{
    first.mask() == second.mask()
        && first.in_force() == second.in_force()
        && first.pending() == second.pending()
        && first.announced() == second.announced()
}

/// Whether both keep a class open alike through a while of less than so many picoseconds.
fn open_alike<G: Gates, H: Gates>(first: &G, second: &H, numbers: &mut Numbers, many: u32) -> bool
    requires first { G.is_sound first.now }
    requires second { H.is_sound second.now }
    requires some { 0 < many }
    requires few { many ≤ 1000000 }
{
    let class = numbers.between(0, CLASSES as u32) as u8;
    let for_ps = u128::from(numbers.between(0, many));
    let mut visits = Visits::zero();
    let mut others = Visits::zero();
    first.stays_open(class, for_ps, &mut visits) == second.stays_open(class, for_ps, &mut others)
}

/// Moves both to each picosecond up to `until`, gives commands now and then, and compares at each what they show and
/// whether a class stays open for a short while, and now and then for a long one. The first moment at which they
/// differ.
pub fn agree<G: Gates + Drop, H: Gates + Drop>(seed: u64, until: u32) -> Result<(), u32> {
    let mut numbers = Numbers::new(seed);
    let mut first = G::begin();
    let mut second = H::begin();
    let mut visits = Visits::zero();
    for t in 0..until.min(1000000) {
        first.move_to(u128::from(t), &mut visits);
        second.move_to(u128::from(t), &mut visits);
        if numbers.between(0, 4000) == 0
            && !commanded_alike(&mut first, &mut second, &mut numbers)
        {
            return Err(t);
        }
        let many = if numbers.between(0, 500) == 0 {
            30_000
        } else {
            8
        };
        if !shown_alike(&first, &second) || !open_alike(&first, &second, &mut numbers, many) {
            return Err(t);
        }
    }
    Ok(())
}

/// A random command.
fn command(numbers: &mut Numbers) -> Command {
    let Some(list) = numbers.list() else {
        return Command::Delete;
    };
    let (base_ns, cycle_ns, extension_ns) = times(numbers);
    if numbers.between(0, 6) == 0 {
        return Command::Delete;
    }
    Command::Replace(Change {
        map: plain_map(),
        queues: None,
        max_sdu: None,
        list,
        base_ns,
        cycle_ns,
        extension_ns,
    })
}

/// A random event: the moment goes on by up to 6 nanoseconds at a time.
fn event<'a>(numbers: &mut Numbers, moment: &mut u128, command: &'a Command) -> Event<'a> {
    match numbers.between(0, 8) {
        0 => Event::Query,
        1 => Event::Install(command),
        2 => Event::Count(numbers.between(0, 9) as u8),
        3 | 4 | 5 => Event::Arrive(Frame {
            id: u64::from(numbers.draw()),
            priority: numbers.between(0, 9) as u8,
            len: numbers.between(10, 60),
            tagged: numbers.between(0, 2) == 0,
        }),
        _ => {
            *moment = (*moment).min(900_000_000) + u128::from(numbers.between(0, 6001));
            Event::Clock(*moment)
        }
    }
}

/// The answers of a port to so many random events.
pub fn answers<G: Gates>(
    alloc: Global,
    port: &mut Port<G>,
    seed: u64,
    many: u32,
) -> Result<Vec<Answer>, AllocError> {
    let mut numbers = Numbers::new(seed);
    let mut moment = 0u128;
    let mut answers = Vec::new(alloc);
    for _ in 0..many.min(1000) {
        let command = command(&mut numbers);
        let events = [event(&mut numbers, &mut moment, &command)];
        if port.run(&events, &mut answers).is_err() {
            return Err(AllocError);
        }
    }
    Ok(answers)
}
