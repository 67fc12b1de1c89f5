//! What shows by the list of accepted commands, case by case as the definitions have it.
ghost use Rattle.std.specs.Prelude.{◌≡◌, ◌-◌, ◌<◌, map};
ghost use Rattle.gates.specs.Gate.{mask_at, last_mask};
ghost use Rattle.gates.specs.History.{announced, gates, in_force, is_held, is_in_time, kept, last, latest, mask_under, pending, planned_mask};
ghost use Rattle.test_support.specs.Plain.{accepted_in, command_of, counts, AreSound};

use crate::reference::accepted::RecordedCommand;
use arrayvec::ArrayVec;
use gates::gate_list::{Schedule, Visits};

/// Whether a command is in time: with a follower, only where its change moment is at or before the follower's lead.
fn is_in_time(command: &RecordedCommand, rest: &[RecordedCommand]) -> bool
    ensures { result ≡ is_in_time (accepted_in command.now) (map accepted_in rest.now) }
{
    match rest {
        [] => true,
        [next, ..] => command.change <= next.lead,
    }
}

/// The last command that has come into force by a moment.
pub fn in_force(history: &[RecordedCommand], m: u128) -> Option<&RecordedCommand>
    ensures { command_of result ≡ in_force (map accepted_in history.now) m }
{
    match history {
        [] => None,
        [first, rest @ ..] => {
            let later = in_force(rest, m);
            if later.is_some() {
                return later;
            }
            if first.change <= m && is_in_time(first, rest) {
                Some(first)
            } else {
                None
            }
        }
    }
}

/// The last command whose lead moment has come.
fn latest(history: &[RecordedCommand], m: u128) -> Option<&RecordedCommand>
    ensures { command_of result ≡ latest (map accepted_in history.now) m }
{
    match history {
        [] => None,
        [first, rest @ ..] => {
            let later = latest(rest, m);
            if later.is_some() {
                return later;
            }
            if first.lead <= m { Some(first) } else { None }
        }
    }
}

/// The last command whose lead moment has come, if its change moment has not.
pub fn pending(history: &[RecordedCommand], m: u128) -> Option<&RecordedCommand>
    ensures { command_of result ≡ pending (map accepted_in history.now) m }
{
    match latest(history, m) {
        None => None,
        Some(command) => if m < command.change {
            Some(command)
        } else {
            None
        },
    }
}

/// The last command.
fn last(history: &[RecordedCommand]) -> Option<&RecordedCommand>
    ensures { command_of result ≡ last (map accepted_in history.now) }
{
    match history {
        [] => None,
        [first, rest @ ..] => {
            let later = last(rest);
            if later.is_some() {
                return later;
            }
            Some(first)
        }
    }
}

/// The last command, if its lead moment has not come.
pub fn announced(history: &[RecordedCommand], m: u128) -> Option<&RecordedCommand>
    ensures { command_of result ≡ announced (map accepted_in history.now) m }
{
    match last(history) {
        None => None,
        Some(command) => if m < command.lead {
            Some(command)
        } else {
            None
        },
    }
}

/// Whether a command counts at a moment, where these follow it: as the one announced, pending or in force.
fn counts(command: &RecordedCommand, rest: &[RecordedCommand], m: u128) -> bool
    ensures { result ≡ counts (accepted_in command.now) (map accepted_in rest.now) m }
{
    if m < command.lead {
        rest.is_empty()
    } else if m < command.change {
        latest(rest, m).is_none()
    } else {
        in_force(rest, m).is_none() && is_in_time(command, rest)
    }
}

/// What is left of a history at a moment: the commands in force, pending and announced.
pub fn kept(mut history: ArrayVec<RecordedCommand, 3>, m: u128) -> ArrayVec<RecordedCommand, 3>
    requires { AreSound (map accepted_in history.items) }
    ensures { map accepted_in result.items ≡ kept (map accepted_in history.items) m }
{
    let mut kept = ArrayVec::new();
    while let Some(first) = history.pop_at(0) {
        if counts(&first, history.as_slice(), m) {
            kept.push(first);
        }
    }
    kept
}

/// Whether the last state is held at a boundary for the change that is pending. All are in picoseconds.
fn is_held(start: u128, extension: u128, boundary: u128, pending: Option<&RecordedCommand>) -> bool
    ensures { result ≡ is_held start extension boundary (command_of pending.entry) }
{
    match pending {
        None => false,
        Some(next) => start < boundary
            && next.lead <= boundary
            && next.change.saturating_sub(boundary) <= extension,
    }
}

/// What a list shows at a phase of its cycle, in picoseconds.
fn mask_at(schedule: &Schedule, phase: u128) -> u8
    ensures { result ≡ mask_at schedule.now.entries phase }
{
    let mut visits = Visits::zero();
    let last = schedule.len() - 1;
    let mut rest = phase;
    for i in 0..last {
        let entry = schedule.entry(i, &mut visits);
        let span = 1000 * u128::from(entry.interval);
        if rest < span {
            return entry.mask;
        }
        rest -= span;
    }
    schedule.entry(last, &mut visits).mask
}

/// What a list shows at its end.
fn last_mask(schedule: &Schedule) -> u8
    ensures { result ≡ last_mask schedule.now.entries }
{
    schedule.entry(schedule.len() - 1, &mut Visits::zero()).mask
}

/// What a schedule in force since `start` shows at a moment, with this change pending. All are in picoseconds.
fn planned_mask(schedule: &Schedule, start: u128, pending: Option<&RecordedCommand>, m: u128) -> u8
    ensures { result ≡ planned_mask schedule.now start (command_of pending.entry) m }
{
    let cycle = 1000 * u128::from(schedule.cycle_ns());
    let extension = 1000 * u128::from(schedule.extension_ns());
    let boundary = m - m.saturating_sub(start) % cycle;
    if is_held(start, extension, boundary, pending) {
        last_mask(schedule)
    } else {
        mask_at(schedule, m - boundary)
    }
}

/// What the command in force shows at a moment, in picoseconds, with this change pending.
fn mask_under(in_force: Option<&RecordedCommand>, pending: Option<&RecordedCommand>, m: u128) -> u8
    ensures { result ≡ mask_under (command_of in_force.entry) (command_of pending.entry) m }
{
    match in_force {
        None => u8::MAX,
        Some(command) => match &command.schedule {
            None => u8::MAX,
            Some(schedule) => planned_mask(schedule, command.change, pending, m),
        },
    }
}

/// The classes that are open at a moment, in picoseconds: bit c is class c.
pub fn gates(history: &[RecordedCommand], m: u128) -> u8
    ensures { result ≡ gates (map accepted_in history.now) m }
{
    mask_under(in_force(history, m), pending(history, m), m)
}
