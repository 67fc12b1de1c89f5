//! What is answered.

ghost use Rattle.std.specs.Prelude.{◌≡◌};
ghost use Rattle.driven_port.specs.Codes.{dropped_code, plan_code, schedule_code};
ghost use Rattle.driven_port.specs.Slots.{no_report};
ghost use Rattle.driven_port.specs.Told.{answer, arrival_told, command_told, counted, high, low, malformed_told, refused_told, shown, start_told};

use crate::taken::ScheduleFault;
use crate::values::{CAnswer, CCounters, CReport};
use abstract_port::class_map::{MapFault, QueueFault};
use abstract_port::{Counters, Dropped, Refused, Report, Start};
use gates::gate_list::{GateFault, PlanFault};

/// 2^64.
const TWO_TO_64: u128 = 0x1_0000_0000_0000_0000;

/// The lower half of a moment.
fn low(moment: u128) -> u64
    ensures { result ≡ low moment }
{
    (moment % TWO_TO_64) as u64
}

/// The upper half of a moment.
fn high(moment: u128) -> u64
    ensures { result ≡ high moment }
{
    (moment / TWO_TO_64) as u64
}

/// An answer of this kind that names nothing.
pub fn answer(kind: u32) -> CAnswer
    ensures { result ≡ answer kind }
{
    CAnswer {
        id: 0,
        at_low: 0,
        at_high: 0,
        end_low: 0,
        end_high: 0,
        kind,
        reason: 0,
        class: 0,
        entry: 0,
    }
}

/// The number of a reason to drop a frame.
fn dropped_code(why: Dropped) -> u32
    ensures { result ≡ dropped_code why }
{
    match why {
        Dropped::NoClass => 1,
        Dropped::Runt => 2,
        Dropped::TooLong => 3,
        Dropped::OverSdu => 4,
        Dropped::Full => 5,
    }
}

/// The answer to an arrival.
pub fn arrival_told(id: u64, verdict: Result<u8, Dropped>) -> CAnswer
    ensures { result ≡ arrival_told id verdict }
{
    match verdict {
        Ok(class) => CAnswer {
            id,
            class: u32::from(class),
            ..answer(1)
        },
        Err(why) => CAnswer {
            id,
            reason: dropped_code(why),
            ..answer(2)
        },
    }
}

/// The number of a reason why a schedule can't run, and the entry that it names.
fn plan_code(fault: PlanFault) -> (u32, u32)
    ensures { result ≡ plan_code fault }
{
    match fault {
        PlanFault::IntervalTooShort(index) => (9, u32::from(index)),
        PlanFault::CycleTooShort => (10, 0),
        PlanFault::CycleTooLong => (11, 0),
        PlanFault::ExtensionTooLong => (12, 0),
        PlanFault::BaseTooLate => (13, 0),
    }
}

/// The answer to a command that is refused.
fn refused_told(why: Refused) -> CAnswer
    ensures { result ≡ refused_told why }
{
    let refused = answer(4);
    match why {
        Refused::MapMissing => CAnswer {
            reason: 6,
            ..refused
        },
        Refused::MapChanged => CAnswer {
            reason: 7,
            ..refused
        },
        Refused::SduTooLarge(class) => CAnswer {
            reason: 8,
            class: u32::from(class),
            ..refused
        },
        Refused::Schedule(fault) => {
            let (reason, entry) = plan_code(fault);
            CAnswer {
                reason,
                entry,
                ..refused
            }
        }
        Refused::Busy(lead) => CAnswer {
            reason: 14,
            at_low: low(lead),
            at_high: high(lead),
            ..refused
        },
    }
}

/// The answer to a command.
pub fn command_told(answered: Result<u128, Refused>) -> CAnswer
    ensures { result ≡ command_told answered }
{
    match answered {
        Ok(change) => CAnswer {
            at_low: low(change),
            at_high: high(change),
            ..answer(3)
        },
        Err(why) => refused_told(why),
    }
}

/// The number of a reason why a schedule is none.
fn schedule_code(fault: ScheduleFault) -> u32
    ensures { result ≡ schedule_code fault }
{
    match fault {
        ScheduleFault::Map(MapFault::BadClassCount) => 15,
        ScheduleFault::Map(MapFault::TooManyPriorities) => 16,
        ScheduleFault::Map(MapFault::ClassOutOfRange) => 17,
        ScheduleFault::Ranges(QueueFault::QueueCount) => 18,
        ScheduleFault::Ranges(QueueFault::EmptyQueue) => 19,
        ScheduleFault::Ranges(QueueFault::QueueOverlap) => 20,
        ScheduleFault::Gates(GateFault::NoEntries) => 21,
        ScheduleFault::Gates(GateFault::TooManyEntries) => 22,
        ScheduleFault::Gates(GateFault::ZeroInterval) => 23,
    }
}

/// The answer to a schedule that is none.
pub fn malformed_told(fault: ScheduleFault) -> CAnswer
    ensures { result ≡ malformed_told fault }
{
    CAnswer {
        reason: schedule_code(fault),
        ..answer(5)
    }
}

/// The answer to a step that starts a frame, or none.
pub fn start_told(start: Option<Start>) -> CAnswer
    ensures { result ≡ start_told start }
{
    match start {
        Some(start) => CAnswer {
            id: start.id,
            at_low: low(start.at),
            at_high: high(start.at),
            end_low: low(start.end),
            end_high: high(start.end),
            class: u32::from(start.class),
            ..answer(6)
        },
        None => answer(7),
    }
}

/// The answer to a step back.
pub fn backward_told() -> CAnswer
    ensures { result ≡ answer 8 }
{
    answer(8)
}

/// What a port shows.
pub fn report_told(report: Report) -> CReport
    ensures { result ≡ shown report }
{
    CReport {
        now_low: low(report.now),
        now_high: high(report.now),
        no_class: report.no_class,
        gates: report.mask,
        pending: u8::from(report.pending.is_some() || report.announced.is_some()),
    }
}

/// What a class shows; zeros where there is none.
pub fn counters_told(counters: Option<Counters>) -> CCounters
    ensures { result ≡ counted counters }
{
    match counters {
        Some(counters) => CCounters {
            accepted: counters.accepted,
            sent: counters.sent,
            sent_octets: counters.sent_octets,
            waiting: counters.waiting,
            runt: counters.dropped[0],
            too_long: counters.dropped[1],
            over_sdu: counters.dropped[2],
            full: counters.dropped[3],
        },
        None => CCounters {
            accepted: 0,
            sent: 0,
            sent_octets: 0,
            waiting: 0,
            runt: 0,
            too_long: 0,
            over_sdu: 0,
            full: 0,
        },
    }
}

/// A report with nothing.
pub fn no_report() -> CReport
    ensures { result ≡ no_report }
{
    CReport {
        now_low: 0,
        now_high: 0,
        no_class: 0,
        gates: 0,
        pending: 0,
    }
}
