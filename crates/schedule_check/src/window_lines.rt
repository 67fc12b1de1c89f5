//! The lines of what a schedule gives each class.

ghost use Rattle.std.specs.Prelude.{◌≡◌, ◌<◌, ◌≤◌, ◌++◌, None};
ghost use Rattle.schedule_check.specs.Words.{plan_asked, text_of, plan_fault, Writes, IsTeller, Teller, asked_lines, class_line, frame_text, given_wait_text, longest_wait_of, never_line, open_lines, time_text, told_line, turned_plan, wait_text, waits_text, window_line, CLASSES};

use crate::refusals::is_led_after;
use crate::settings::CheckSettings;
use crate::windows::{
    Longest, Window, longest_closed, longest_open, shares_of, turned_schedule, window_of,
};
use abstract_port::Change;
use delay_bounds::longest_wait;
use gates::gate_list::{Schedule, Stay};
use port_text::answer_text::{Part, WriteFault, put, put_parts};
use std::io::Write;
use wire_time::{Rate, occupancy};

/// How many lengths a frame may have: 0 to 2^32 - 1 octets.
const LENGTHS: u128 = 1 << 32;

/// A time, as a part of a line.
fn time_part(time: Stay) -> Part<'static>
    ensures { text_of result ≡ time_text time }
{
    match time {
        Stay::Lasts(picoseconds) => Part::Number(picoseconds),
        Stay::Always => Part::Text(b"always"),
    }
}

/// The longest frame, as a part of a line.
fn frame_part(frame: Longest) -> Part<'static>
    ensures { text_of result ≡ frame_text frame }
{
    match frame {
        Longest::NoFrame => Part::Text(b"none"),
        Longest::Octets(octets) if octets < LENGTHS => Part::Number(octets),
        Longest::Octets(_) | Longest::AnyFrame => Part::Text(b"any"),
    }
}

/// A wait, as a part of a line.
fn wait_part(wait: Option<u128>) -> Part<'static>
    ensures { text_of result ≡ wait_text wait }
{
    match wait {
        None => Part::Text(b"none"),
        Some(picoseconds) => Part::Number(picoseconds),
    }
}

/// The longest wait of the longest frame that can start, where it comes to a class that is idle, in picoseconds.
fn longest_wait_of(schedule: &Schedule, rate: Rate, class: u8, longest: Longest) -> Option<u128>
    requires { class < CLASSES }
    ensures { result ≡ longest_wait_of rate schedule.now class longest }
{
    match longest {
        Longest::NoFrame => None,
        Longest::Octets(octets) => {
            let len = octets.min(LENGTHS - 1) as u32;
            longest_wait(schedule, class, occupancy(rate, len))
        }
        Longest::AnyFrame => Some(0),
    }
}

/// Writes how long a frame of the length that is given waits at the longest, where one is.
fn put_given_wait<W: Write>(
    writer: &mut W,
    schedule: &Schedule,
    rate: Rate,
    class: u8,
    frame: Option<u32>,
) -> Result<(), WriteFault>
    requires { class < CLASSES }
    ensures { Writes result (W.contents writer.old) (W.contents writer.new)
        (given_wait_text rate schedule.now class frame) }
{
    match frame {
        None => put_parts(writer, &[]),
        Some(len) => put_parts(
            writer,
            &[
                Part::Text(b" length "),
                Part::Number(u128::from(len)),
                Part::Text(b" wait "),
                wait_part(longest_wait(schedule, class, occupancy(rate, len))),
            ],
        ),
    }
}

/// Writes the end of the line of a class: how long its longest frame waits, and one whose length is given.
fn put_waits<W: Write>(
    writer: &mut W,
    schedule: &Schedule,
    rate: Rate,
    class: u8,
    frame: Option<u32>,
    longest: Longest,
) -> Result<(), WriteFault>
    requires { class < CLASSES }
    ensures { Writes result (W.contents writer.old) (W.contents writer.new)
        (waits_text rate schedule.now class frame longest) }
{
    let wait = longest_wait_of(schedule, rate, class, longest);
    put_parts(writer, &[Part::Text(b" wait "), wait_part(wait)])?;
    put_given_wait(writer, schedule, rate, class, frame)?;
    put(writer, b"\n")
}

/// Writes the line of a class up to how long its frames wait.
fn put_window<W: Write>(writer: &mut W, class: u8, window: &Window) -> Result<(), WriteFault>
    ensures { Writes result (W.contents writer.old) (W.contents writer.new)
        (window_line class window.now) }
{
    put_parts(
        writer,
        &[
            Part::Text(b"window class "),
            Part::Number(u128::from(class)),
            Part::Text(b" open "),
            time_part(window.open_time),
            Part::Text(b" closed "),
            time_part(window.closed_time),
            Part::Text(b" share "),
            Part::Number(window.share),
            Part::Text(b" of "),
            Part::Number(window.cycle),
            Part::Text(b" frame "),
            frame_part(window.longest_frame),
        ],
    )
}

/// Writes the line of a class that is never open, where some priority leads to it.
fn put_never<W: Write>(writer: &mut W, led: bool, class: u8) -> Result<(), WriteFault>
    ensures { Writes result (W.contents writer.old) (W.contents writer.new) (never_line led class) }
{
    if led {
        put_parts(
            writer,
            &[
                Part::Text(b"never "),
                Part::Number(u128::from(class)),
                Part::Text(b"\n"),
            ],
        )
    } else {
        put_parts(writer, &[])
    }
}

/// Writes the whole line of a class that is ever open.
fn put_open<W: Write>(
    writer: &mut W,
    settings: &CheckSettings,
    schedule: &Schedule,
    class: u8,
    window: &Window,
) -> Result<(), WriteFault>
    requires { class < CLASSES }
    ensures { Writes result (W.contents writer.old) (W.contents writer.new)
        (window_line class window.now
        ++ waits_text settings.now.rate schedule.now class settings.now.frame
        window.now.longest_frame) }
{
    put_window(writer, class, window)?;
    put_waits(
        writer,
        schedule,
        settings.rate,
        class,
        settings.frame,
        window.longest_frame,
    )
}

/// Writes the line of a class, to which some priority leads or none does.
fn put_told<W: Write>(
    writer: &mut W,
    settings: &CheckSettings,
    schedule: &Schedule,
    class: u8,
    led: bool,
    window: &Window,
) -> Result<(), WriteFault>
    requires { class < CLASSES }
    ensures { Writes result (W.contents writer.old) (W.contents writer.new)
        (told_line led class window.now
        (waits_text settings.now.rate schedule.now class settings.now.frame
        window.now.longest_frame)) }
{
    if window.share == 0 {
        put_never(writer, led, class)
    } else {
        put_open(writer, settings, schedule, class, window)
    }
}

/// Writes the lines of the classes below a number, by the schedule of a change and the schedule that opens what it
/// closes.
fn put_windows<W: Write>(
    writer: &mut W,
    settings: &CheckSettings,
    change: &Change,
    schedule: &Schedule,
    turned: &Schedule,
    count: u8,
) -> Result<(), WriteFault>
    requires plan { schedule.now ≡ plan_asked change.now }
    requires turned { turned.now ≡ turned_plan schedule.now }
    requires few { count ≤ CLASSES }
    ensures { (tell : Teller) → IsTeller tell →
        Writes result (W.contents writer.old) (W.contents writer.new)
        (open_lines
        (class_line settings.now change.now
        (tell settings.now.rate (plan_asked change.now))) count 0) }
{
    let open = longest_open(schedule);
    let closed = longest_closed(turned);
    let shares = shares_of(schedule);
    for class in 0..count {
        let place = usize::from(class);
        let window = window_of(
            schedule,
            settings.rate,
            class,
            open[place],
            closed[place],
            shares[place],
        );
        let led = is_led_after(settings.map, change.map, class);
        put_told(writer, settings, schedule, class, led, &window)?;
    }
    Ok(())
}

/// Writes, where windows are asked for, a line for each class below a number: of what the schedule of a change gives it,
/// or that it is never open, where some priority leads to it. At a fault a prefix of them is written.
pub(crate) fn put_asked<W: Write>(
    writer: &mut W,
    settings: &CheckSettings,
    change: &Change,
    schedule: &Schedule,
    count: u8,
) -> Result<(), WriteFault>
    requires plan { schedule.now ≡ plan_asked change.now }
    requires accepted { plan_fault settings.now.rate (plan_asked change.now) ≡ None }
    requires few { count ≤ CLASSES }
    ensures { (tell : Teller) → IsTeller tell →
        Writes result (W.contents writer.old) (W.contents writer.new)
        (asked_lines settings.now.windows
        (class_line settings.now change.now
        (tell settings.now.rate (plan_asked change.now))) count) }
{
    if !settings.windows {
        return Ok(());
    }
    let turned = turned_schedule(
        &change.list,
        change.base_ns,
        change.cycle_ns,
        change.extension_ns,
        settings.rate,
    );
    put_windows(writer, settings, change, schedule, &turned, count)
}
