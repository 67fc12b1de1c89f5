//! The lines of classes that share windows.

ghost use Rattle.std.specs.Prelude.{◌≡◌, ◌<◌, ◌≤◌, ◌+◌, ◌++◌};
ghost use Rattle.schedule_check.specs.Words.{array_vec_len, asked_lines, classes_sharing, is_sharing, itself_sharing, open_lines, shares_line, sharing_line, with_line, Writes, CLASSES};

use crate::class_words::put_classes;
use arrayvec::ArrayVec;
use gates::gate_list::Schedule;
use port_text::answer_text::{Part, WriteFault, put, put_parts};
use shared_bounds::sharing::shares_windows;
use std::io::Write;
use wire_time::CLASSES;

/// Whether a class is another one than the first, and shares windows with it.
fn is_sharing(schedule: &Schedule, class: u8, other: u8) -> bool
    requires class { class < CLASSES }
    requires other { other < CLASSES }
    ensures { result ≡ is_sharing schedule.now class other }
{
    let _cycle = schedule.cycle_ns();
    other != class && shares_windows(schedule, class, other)
}

/// Adds a class where it is another one than the first, and shares windows with it.
fn add_sharing(others: &mut ArrayVec<u8, CLASSES>, schedule: &Schedule, class: u8, other: u8)
    requires class { class < CLASSES }
    requires within { other < CLASSES }
    requires room { array_vec_len others.old ≤ other }
    ensures items { others.new.items ≡ others.old.items ++ itself_sharing schedule.now class other }
    ensures few { array_vec_len others.new ≤ other + 1 }
{
    if is_sharing(schedule, class, other) {
        others.push(other);
    }
}

/// The classes below a count that share windows with a class, in rising order, without the class itself.
fn classes_sharing(schedule: &Schedule, class: u8, count: u8) -> ArrayVec<u8, CLASSES>
    requires class { class < CLASSES }
    requires few { count ≤ CLASSES }
    ensures { result.items ≡ classes_sharing schedule.now class count 0 }
{
    let mut others = ArrayVec::new();
    for other in 0..count {
        add_sharing(&mut others, schedule, class, other);
    }
    others
}

/// Writes the line of a class and some others.
fn put_with<W: Write>(writer: &mut W, class: u8, others: &[u8]) -> Result<(), WriteFault>
    ensures { Writes result (W.contents writer.old) (W.contents writer.new)
        (with_line class others.now) }
{
    put_parts(
        writer,
        &[
            Part::Text(b"shares "),
            Part::Number(u128::from(class)),
            Part::Text(b" with"),
        ],
    )?;
    put_classes(writer, others)?;
    put(writer, b"\n")
}

/// Writes the line of a class and those that share windows with it, where some do.
fn put_sharing<W: Write>(writer: &mut W, class: u8, others: &[u8]) -> Result<(), WriteFault>
    ensures { Writes result (W.contents writer.old) (W.contents writer.new)
        (shares_line class others.now) }
{
    match others {
        [] => put_parts(writer, &[]),
        [_, ..] => put_with(writer, class, others),
    }
}

/// Writes the lines of the classes below a count.
fn put_each<W: Write>(writer: &mut W, schedule: &Schedule, count: u8) -> Result<(), WriteFault>
    requires { count ≤ CLASSES }
    ensures { Writes result (W.contents writer.old) (W.contents writer.new)
        (open_lines (sharing_line schedule.now count) count 0) }
{
    for class in 0..count {
        put_sharing(writer, class, &classes_sharing(schedule, class, count))?;
    }
    Ok(())
}

/// Writes, where that is asked for, a line for each class below a count that shares windows with others below it. At a
/// fault a prefix of them is written.
pub(crate) fn put_shares<W: Write>(
    writer: &mut W,
    asked: bool,
    schedule: &Schedule,
    count: u8,
) -> Result<(), WriteFault>
    requires { count ≤ CLASSES }
    ensures { Writes result (W.contents writer.old) (W.contents writer.new)
        (asked_lines asked (sharing_line schedule.now count) count) }
{
    if !asked {
        return Ok(());
    }
    put_each(writer, schedule, count)
}
