//! The program's job: a plan for a table of streams.

ghost use Rattle.std.specs.Prelude.{◌≡◌, List, ℕ, IfErr, IfOk, true};
ghost use Rattle.text.specs.Buffered.{writer_contents};
ghost use Rattle.plan.specs.PlanEnd.{IsNoted, IsPlanEnding, IsPlanRefusal, IsPlanned};
ghost use Rattle.plan.specs.Given.{IsGiven};
ghost use Rattle.plan.specs.Search.{IsGoodOr};
ghost use Rattle.script.specs.Given.{words_of_values};
ghost use Rattle.script.specs.ScriptEnd.{settings_given};
ghost use Rattle.script.specs.Setup.{Setup};
ghost use Rattle.wire_time.specs.Moment.{greatest_moment};
ghost use Rattle.text.specs.Writes.{Writes};

use crate::faults::PlanFault;
use crate::plans::{Found, Planned, plan_for, put_planned};
use crate::settings::{PlanSettings, PlanValue, PlanWords, say_plan_value};
use gates::gate_list::{MAX_BASE_NS, MAX_ENTRIES};
use job::{Ended, Errors, FaultKind, end_run, end_told};
use port_text::answer_text::{Part, WriteFault, put_parts};
use script::{Watch, settings_given};
use std::alloc::{Allocator, Global};
use std::io::{Read, Write};
use text::octet_writer::BufWriter;
use text::times::time;
use text::words::number;
use wire_time::MAX_MOMENT;

/// The longest interval and cycle that a plan has, in nanoseconds.
const LONGEST: u64 = 4_294_967_295;

/// The device where none is named.
const DEVICE: &[u8] = b"eth0";

/// A time of whole nanoseconds, from so many up.
fn read_time(text: &str, least: u64) -> Option<u64> {
    let most = u128::from(LONGEST).saturating_mul(1000);
    let time = time(text.as_bytes(), most)?;
    let ns = (time / 1000).min(u128::from(u64::MAX)) as u64;
    if time % 1000 == 0 && is_interval(ns, least) {
        Some(ns)
    } else {
        None
    }
}

/// The cycle that is given, where one is.
fn read_cycle(text: Option<&str>) -> Option<Option<u64>> {
    match text {
        None => Some(None),
        Some(text) => match read_time(text, 1) {
            Some(cycle) => Some(Some(cycle)),
            None => None,
        },
    }
}

/// How many entries there may be.
fn read_entries(text: Option<&str>) -> Option<usize> {
    let Some(text) = text else {
        return Some(MAX_ENTRIES);
    };
    let entries = number(text.as_bytes(), MAX_ENTRIES as u128)?;
    if entries >= 1 {
        Some(entries as usize)
    } else {
        None
    }
}

/// How long an entry is at the least.
fn read_least(text: Option<&str>) -> Option<u64> {
    match text {
        None => Some(0),
        Some(text) => read_time(text, 0),
    }
}

/// Whether an octet may stand in the name of a device.
fn is_of_name(octet: u8) -> bool {
    b'!' <= octet && octet <= b'~' && octet != b'/' && octet != b':' && octet != b'\\'
}

/// The name of the device.
fn read_device<'a>(text: Option<&'a str>) -> Option<&'a [u8]> {
    let Some(name) = text else {
        return Some(DEVICE);
    };
    let octets = name.as_bytes();
    if is_device(octets) {
        Some(octets)
    } else {
        None
    }
}

/// The base time.
fn read_base(text: Option<&str>) -> Option<u64> {
    match text {
        None => Some(0),
        Some(text) => match number(text.as_bytes(), u128::from(MAX_BASE_NS)) {
            Some(base) => Some(base as u64),
            None => None,
        },
    }
}

/// The settings of the values that are given, and of those that stand for the others. The first bad value is the fault.
pub fn plan_given<'a>(words: &PlanWords<'a>) -> Result<PlanSettings<'a>, PlanValue>
    ensures { IsGiven
        (settings_given greatest_moment (words_of_values words.now.port)) words.now.explain result }
{
    let port = match settings_given(words.port, MAX_MOMENT) {
        Ok(port) => port,
        Err(value) => return Err(PlanValue::Port(value)),
    };
    let Some(cycle) = read_cycle(words.cycle) else {
        return Err(PlanValue::Cycle);
    };
    let Some(entries) = read_entries(words.entries) else {
        return Err(PlanValue::Entries);
    };
    let Some(least) = read_least(words.least_interval) else {
        return Err(PlanValue::Least);
    };
    let Some(device) = read_device(words.device) else {
        return Err(PlanValue::Device);
    };
    let Some(base_time) = read_base(words.base_time) else {
        return Err(PlanValue::Base);
    };
    Ok(PlanSettings {
        port,
        cycle,
        entries,
        least,
        device,
        base_time,
        share: words.share,
        explain: words.explain,
    })
}

/// Whether a time of nanoseconds is one of an interval, from so many up.
fn is_interval(time: u64, least: u64) -> bool {
    least <= time && time <= LONGEST
}

/// Whether octets are the name of a device.
fn is_device(octets: &[u8]) -> bool {
    !octets.is_empty()
        && octets.len() <= 15
        && octets != b".".as_slice()
        && octets != b"..".as_slice()
        && octets.iter().all(|octet| is_of_name(*octet))
}

/// The first value of settings that is out of its limits, but for those of the port.
pub fn bad_value(settings: &PlanSettings<'_>) -> Option<PlanValue> {
    let cycle_fits = match settings.cycle {
        Some(cycle) => is_interval(cycle, 1),
        None => true,
    };
    if !cycle_fits {
        Some(PlanValue::Cycle)
    } else if settings.entries == 0 || settings.entries > MAX_ENTRIES {
        Some(PlanValue::Entries)
    } else if !is_interval(settings.least, 0) {
        Some(PlanValue::Least)
    } else if !is_device(settings.device) {
        Some(PlanValue::Device)
    } else if settings.base_time > MAX_BASE_NS {
        Some(PlanValue::Base)
    } else {
        None
    }
}

/// Reports a bad value on `errors`, and gives the writer of the answers back. Nothing is answered.
pub fn end_with_plan_value<B: Allocator, W: Write + Drop, E: Errors>(
    value: PlanValue,
    answers: BufWriter<W, B>,
    errors: &mut E,
) -> (Ended, W)
    ensures { IsPlanRefusal value result.0 (writer_contents W.contents answers)
        (W.contents result.1) (E.contents errors.old) (E.contents errors.new) }
{
    let ended = say_plan_value(&value, errors);
    errors.found(FaultKind::Value(value.kind()));
    end_told(ended, answers)
}

/// Tells what a plan leaves to the classes without deadlines, and what `bounds` or `paths` answers about it.
fn put_note<E: Errors>(errors: &mut E, plan: &Found) -> Result<(), WriteFault>
    ensures { IsNoted true (E.contents errors.old) (E.contents errors.new) }
{
    put_parts(
        errors,
        &[
            Part::Text(plan.note.as_slice()),
            Part::Text(plan.answers.as_slice()),
        ],
    )
}

/// Tells what helps with a plan, where that is wanted.
fn tell<E: Errors>(errors: &mut E, planned: &Planned, explain: bool)
    ensures { IsNoted explain (E.contents errors.old) (E.contents errors.new) }
{
    if !explain {
        return;
    }
    if let Planned::Plan(plan) = planned {
        let _ = put_note(errors, plan);
    }
}

/// Writes what a search came to, if it has ended well, and tells what helps with it, where that is wanted.
fn put_result<W: Write, E: Errors>(
    planned: Result<Planned, PlanFault>,
    explain: bool,
    writer: &mut W,
    errors: &mut E,
) -> Result<(), PlanFault>
    ensures written { (port : Setup) (table : List ℕ) → IsGoodOr port table planned
        → IsPlanned port table result (W.contents writer.old) (W.contents writer.new) }
    ensures noted { IsNoted explain (E.contents errors.old) (E.contents errors.new) }
{
    match planned {
        Ok(planned) => {
            tell(errors, &planned, explain);
            put_planned(writer, &planned)
        }
        Err(fault) => Err(fault),
    }
}

/// Plans for the table that `table` gives, through `answers`, with the text of a fault on `errors`; and gives the writer
/// of the answers back.
pub fn answer_plan<B: Allocator, R: Read, W: Write + Drop, E: Errors, H: Watch>(
    alloc: Global,
    settings: &PlanSettings<'_>,
    table: &mut R,
    mut answers: BufWriter<W, B>,
    errors: &mut E,
    watch: &mut H,
) -> (Ended, W)
    ensures { IsPlanEnding settings.now.port settings.now.explain (R.remaining table.old) result.0
        (writer_contents W.contents answers) (W.contents result.1) (E.contents errors.old)
        (E.contents errors.new) }
{
    let planned = plan_for(alloc, table, settings, watch);
    let run = put_result(planned, settings.explain, &mut answers, errors);
    end_run(run, answers, errors)
}
