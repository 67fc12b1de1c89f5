//! What is reported of a schedule command.

ghost use Rattle.std.specs.Prelude.{◌≡◌, ◌<◌, ◌≤◌, ◌+◌, ◌++◌, ℕ, List, None, Ok, Result, []};
ghost use Rattle.abstract_port.specs.declared.Command.TheVariants.{Replace};
ghost use Rattle.schedule_check.specs.Alerts.{alert_of, first_never, line_wrong, never_opens, wrong_with};
ghost use Rattle.schedule_check.specs.Words.{array_vec_len, apart_line, change_lines, class_count, classes_apart, itself_apart, some_line, verdict_lines, IsTeller, Teller, Writes, plan_asked, Command, plan_fault, IsReader, TcFault, CLASSES, words_of, alone, in_ps, open_total};

use crate::class_words::put_classes;
use crate::refusals::{early_refusal, is_led_after, map_after};
use crate::settings::CheckSettings;
use crate::share_lines::put_shares;
use crate::window_lines::put_asked;
use crate::windows::shares_of;
use abstract_port::class_map::ClassMap;
use abstract_port::{Change, Command, Refused};
use arrayvec::ArrayVec;
use gates::gate_list::Schedule;
use port_text::answer_text::{WriteFault, put, put_refused, put_tc_fault};
use port_text::tc_reader::TcFault;
use script::{Failure, Watch, read_tc};
use std::io::Write;
use wire_time::CLASSES;

/// How many classes a change speaks of: those of its map, or all.
pub fn class_count(map: Option<ClassMap>) -> u8
    ensures count { result ≡ class_count map }
    ensures within { result ≤ CLASSES }
{
    match map {
        Some(map) => map.num_tc(),
        None => CLASSES as u8,
    }
}

/// Adds a class where a schedule keeps it apart.
fn add_apart(classes: &mut ArrayVec<u8, CLASSES>, schedule: &Schedule, class: u8)
    requires within { class < CLASSES }
    requires room { array_vec_len classes.old ≤ class }
    ensures items { classes.new.items
        ≡ classes.old.items ++ itself_apart class schedule.now.entries }
    ensures few { array_vec_len classes.new ≤ class + 1 }
{
    if schedule.keeps_apart(class) {
        classes.push(class);
    }
}

/// The classes below a count that a schedule keeps apart, in rising order.
pub fn classes_apart(schedule: &Schedule, count: u8) -> ArrayVec<u8, CLASSES>
    requires { count ≤ CLASSES }
    ensures { result.items ≡ classes_apart count 0 schedule.now.entries }
{
    let mut classes = ArrayVec::new();
    for class in 0..count {
        add_apart(&mut classes, schedule, class);
    }
    classes
}

/// Writes the line of some classes.
fn put_some<W: Write>(writer: &mut W, classes: &[u8]) -> Result<(), WriteFault>
    ensures { Writes result (W.contents writer.old) (W.contents writer.new)
        (some_line classes.now) }
{
    put(writer, b"apart")?;
    put_classes(writer, classes)?;
    put(writer, b"\n")
}

/// Writes the line of classes that are kept apart.
pub fn put_apart<W: Write>(writer: &mut W, classes: &[u8]) -> Result<(), WriteFault>
    ensures { Writes result (W.contents writer.old) (W.contents writer.new)
        (apart_line classes.now) }
{
    match classes {
        [] => put(writer, b"apart none\n"),
        [_, ..] => put_some(writer, classes),
    }
}

/// Whether some priority leads to a class of this share of a cycle, which is never open.
fn never_opens(settings: &CheckSettings, change: &Change, class: u8, share: u64) -> bool
    requires { share ≡ open_total (alone (plan_asked change.now)) class
        (in_ps (plan_asked change.now).cycle) }
    ensures { result ≡ never_opens settings.now change.now class }
{
    share == 0 && is_led_after(settings.map, change.map, class)
}

/// The first class that a schedule never opens, though some priority leads to it.
fn first_never(settings: &CheckSettings, change: &Change, schedule: &Schedule) -> Option<u8>
    requires { schedule.now ≡ plan_asked change.now }
    ensures { result ≡ first_never settings.now change.now 8 0 }
{
    let shares = shares_of(schedule);
    for class in 0..CLASSES as u8 {
        if never_opens(settings, change, class, shares[usize::from(class)]) {
            return Some(class);
        }
    }
    None
}

/// The first thing that is wrong with an accepted schedule: a new port refuses its map or its limits; or a priority
/// leads to a class that it never opens.
fn wrong_with(settings: &CheckSettings, change: &Change, schedule: &Schedule) -> Option<Failure>
    requires { schedule.now ≡ plan_asked change.now }
    ensures { result ≡ wrong_with settings.now change.now }
{
    if let Some(why) = early_refusal(settings.mtu, settings.map, change) {
        return Some(Failure::Refused(why));
    }
    match first_never(settings, change, schedule) {
        None => None,
        Some(class) => Some(Failure::NeverOpens(class)),
    }
}

/// Calls who watches where this is wrong with the line of this number.
fn tell_wrong<H: Watch>(number: u32, line: &[u8], wrong: Option<Failure>, watch: &mut H)
    ensures { H.alerted (alert_of wrong) watch.old watch.new }
{
    if let Some(why) = wrong {
        watch.command_failed(number, line, why);
    }
}

/// Reports on an accepted schedule: the classes that it keeps apart and, where they are asked for, those that share
/// windows, and what it gives each class.
fn put_schedule<W: Write>(
    writer: &mut W,
    settings: &CheckSettings,
    change: &Change,
    schedule: &Schedule,
) -> Result<(), WriteFault>
    requires plan { schedule.now ≡ plan_asked change.now }
    requires accepted { plan_fault settings.now.rate (plan_asked change.now) ≡ None }
    ensures { (tell : Teller) → IsTeller tell →
        Writes result (W.contents writer.old) (W.contents writer.new)
        (change_lines tell settings.now change.now) }
{
    let count = class_count(map_after(settings.map, change.map));
    put_apart(writer, &classes_apart(schedule, count))?;
    put_shares(writer, settings.shares, schedule, count)?;
    put_asked(writer, settings, change, schedule, count)
}

/// Reports on the change that the line of this number asks: the refusal of its schedule, or what the schedule promises.
fn put_change<W: Write, H: Watch>(
    writer: &mut W,
    settings: &CheckSettings,
    number: u32,
    line: &[u8],
    change: &Change,
    watch: &mut H,
) -> Result<(), WriteFault>
    ensures text { (tell : Teller) → IsTeller tell →
        Writes result (W.contents writer.old) (W.contents writer.new)
        (change_lines tell settings.now change.now) }
    ensures alerts { H.alerted
        (alert_of (line_wrong settings.now (Ok (Replace change.now)))) watch.old watch.new }
{
    let schedule = Schedule::new(
        &change.list,
        change.base_ns,
        change.cycle_ns,
        change.extension_ns,
        settings.rate,
    );
    match schedule {
        Ok(schedule) => {
            let wrong = wrong_with(settings, change, &schedule);
            tell_wrong(number, line, wrong, watch);
            put_schedule(writer, settings, change, &schedule)
        }
        Err(fault) => {
            let why = Refused::Schedule(fault);
            watch.command_failed(number, line, Failure::Refused(why));
            put_refused(writer, why)
        }
    }
}

/// Writes what is reported of the command that the line of this number is, or why it is none.
fn put_verdict<W: Write, H: Watch>(
    writer: &mut W,
    settings: &CheckSettings,
    number: u32,
    line: &[u8],
    read: Result<Command, TcFault>,
    watch: &mut H,
) -> Result<(), WriteFault>
    ensures text { (tell : Teller) → IsTeller tell →
        Writes result (W.contents writer.old) (W.contents writer.new)
        (verdict_lines tell settings.now read) }
    ensures alerts { H.alerted (alert_of (line_wrong settings.now read)) watch.old watch.new }
{
    match read {
        Ok(Command::Replace(change)) => put_change(writer, settings, number, line, &change, watch),
        Ok(Command::Delete) => put_apart(writer, &[]),
        Err(fault) => {
            watch.command_failed(number, line, Failure::Malformed(fault));
            put_tc_fault(writer, fault)
        }
    }
}

/// Tells who watches which command the line of this number is, if it is one.
fn tell_read<H: Watch>(number: u32, line: &[u8], read: &Result<Command, TcFault>, watch: &mut H)
    ensures { H.alerted [] watch.old watch.new }
{
    if let Ok(command) = read {
        watch.command_read(number, line, command);
    }
}

/// Writes what is reported of the line of this number, which begins with `tc`, by settings. Who watches is told which
/// command it is, and is called where it is none, where a port would refuse it, and where it never opens a class that a priority leads to. At a fault
/// a prefix of that is written.
pub(crate) fn put_line<W: Write, H: Watch>(
    writer: &mut W,
    settings: &CheckSettings,
    number: u32,
    line: &[u8],
    watch: &mut H,
) -> Result<(), WriteFault>
    ensures text { (tell : Teller) → IsTeller tell →
        (read : List (List ℕ) → Result Command TcFault) → IsReader read →
        Writes result (W.contents writer.old) (W.contents writer.new)
        (verdict_lines tell settings.now (read (words_of line.now))) }
    ensures alerts { (read : List (List ℕ) → Result Command TcFault) → IsReader read →
        H.alerted
        (alert_of (line_wrong settings.now (read (words_of line.now)))) watch.old watch.new }
{
    let read = read_tc(line);
    tell_read(number, line, &read, watch);
    put_verdict(writer, settings, number, line, read, watch)
}
