//! The names in answer lines.

ghost use Rattle.std.specs.Prelude.{◌≡◌, option_map};
ghost use Rattle.port_text.specs.AnswerNames.{dropped_name, plan_fault_name, plan_fault_number, refused_name, refused_number, map_fault_name, queue_fault_name, gate_fault_name, tc_fault_name, tc_fault_word, tc_fault_place};

use crate::tc_reader::TcFault;
use abstract_port::class_map::{MapFault, QueueFault};
use abstract_port::{Dropped, Refused};
use gates::gate_list::{GateFault, PlanFault};

/// The name of the reason why a frame is dropped.
pub fn dropped_name(why: Dropped) -> &'static [u8]
    ensures { result.now ≡ dropped_name why }
{
    match why {
        Dropped::NoClass => b"NoClass",
        Dropped::Runt => b"Runt",
        Dropped::TooLong => b"TooLong",
        Dropped::OverSdu => b"OverSdu",
        Dropped::Full => b"Full",
    }
}

fn plan_fault_name(fault: PlanFault) -> &'static [u8]
    ensures { result.now ≡ plan_fault_name fault }
{
    match fault {
        PlanFault::IntervalTooShort(_) => b"IntervalTooShort",
        PlanFault::CycleTooShort => b"CycleTooShort",
        PlanFault::CycleTooLong => b"CycleTooLong",
        PlanFault::ExtensionTooLong => b"ExtensionTooLong",
        PlanFault::BaseTooLate => b"BaseTooLate",
    }
}

fn plan_fault_number(fault: PlanFault) -> Option<u128>
    ensures { result ≡ plan_fault_number fault }
{
    match fault {
        PlanFault::IntervalTooShort(index) => Some(u128::from(index)),
        _ => None,
    }
}

/// The name of the reason why a command was refused.
pub(crate) fn refused_name(why: Refused) -> &'static [u8]
    ensures { result.now ≡ refused_name why }
{
    match why {
        Refused::MapMissing => b"MapMissing",
        Refused::MapChanged => b"MapChanged",
        Refused::SduTooLarge(_) => b"SduTooLarge",
        Refused::Schedule(fault) => plan_fault_name(fault),
        Refused::Busy(_) => b"Busy",
    }
}

/// The number that stands after that name, if it has one.
pub(crate) fn refused_number(why: Refused) -> Option<u128>
    ensures { result ≡ refused_number why }
{
    match why {
        Refused::MapMissing | Refused::MapChanged => None,
        Refused::SduTooLarge(class) => Some(u128::from(class)),
        Refused::Schedule(fault) => plan_fault_number(fault),
        Refused::Busy(lead_moment) => Some(lead_moment),
    }
}

fn map_fault_name(fault: MapFault) -> &'static [u8]
    ensures { result.now ≡ map_fault_name fault }
{
    match fault {
        MapFault::BadClassCount => b"BadClassCount",
        MapFault::TooManyPriorities => b"TooManyPriorities",
        MapFault::ClassOutOfRange => b"ClassOutOfRange",
    }
}

fn queue_fault_name(fault: QueueFault) -> &'static [u8]
    ensures { result.now ≡ queue_fault_name fault }
{
    match fault {
        QueueFault::QueueCount => b"QueueCount",
        QueueFault::EmptyQueue => b"EmptyQueue",
        QueueFault::QueueOverlap => b"QueueOverlap",
    }
}

fn gate_fault_name(fault: GateFault) -> &'static [u8]
    ensures { result.now ≡ gate_fault_name fault }
{
    match fault {
        GateFault::NoEntries => b"NoEntries",
        GateFault::TooManyEntries => b"TooManyEntries",
        GateFault::ZeroInterval => b"ZeroInterval",
    }
}

/// The name of the reason why a line is no command.
pub(crate) fn tc_fault_name(fault: TcFault) -> &'static [u8]
    ensures { result.now ≡ tc_fault_name fault }
{
    match fault {
        TcFault::NotTaprio => b"NotTaprio",
        TcFault::MissingWord(_) => b"MissingWord",
        TcFault::UnknownOption(_) => b"UnknownOption",
        TcFault::Repeated(_) => b"Repeated",
        TcFault::BadNumber(_) => b"BadNumber",
        TcFault::Unsupported(_) => b"Unsupported",
        TcFault::Map(map_fault) => map_fault_name(map_fault),
        TcFault::Ranges(queue_fault) => queue_fault_name(queue_fault),
        TcFault::Gates(gate_fault) => gate_fault_name(gate_fault),
    }
}

/// The option word that stands after that name, if one does.
pub(crate) fn tc_fault_word(fault: TcFault) -> Option<&'static [u8]>
    ensures { option_map (λ word. word.now) result ≡ tc_fault_word fault }
{
    match fault {
        TcFault::MissingWord(option) => Some(option.word()),
        TcFault::Repeated(option) => Some(option.word()),
        TcFault::Unsupported(option) => Some(option.word()),
        _ => None,
    }
}

/// The place that stands after that name, if one does.
pub(crate) fn tc_fault_place(fault: TcFault) -> Option<u128>
    ensures { result ≡ tc_fault_place fault }
{
    match fault {
        TcFault::UnknownOption(place) | TcFault::BadNumber(place) => Some(place as u128),
        _ => None,
    }
}
