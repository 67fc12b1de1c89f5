//! The lines of a report.

ghost use Rattle.port_text.specs.Reports.{class_text, num_tc_text, map_text, range_text, ranges_text, map_and_ranges_line, classes_line, open_text, list_text, installed_text, schedule_line, report_lines};
ghost use Rattle.text.specs.Writes.{Writes};

use crate::answer_text::report_lines::NowLine;
use crate::answer_text::text_writer::{Part, put_parts};
use abstract_port::Report;
use abstract_port::class_map::{ClassMap, Queues};
use gates::list_config::Installed;
use std::io::Write;
use text::octet_writer::{PutLine, WriteFault, put};
use wire_time::PRIORITIES;

fn put_class<W: Write>(writer: &mut W, class: u8) -> Result<(), WriteFault>
    ensures { Writes result (W.contents writer.old) (W.contents writer.new) (class_text class) }
{
    put_parts(writer, &[Part::Text(b" "), Part::Number(u128::from(class))])
}

/// The class of each priority.
fn put_map<W: Write>(writer: &mut W, map: &ClassMap) -> Result<(), WriteFault>
    ensures { Writes result (W.contents writer.old) (W.contents writer.new) (map_text map.now) }
{
    for priority in 0..PRIORITIES as u8 {
        let Some(class) = map.class_of(priority) else {
            return Ok(());
        };
        put_class(writer, class)?;
    }
    Ok(())
}

fn put_range<W: Write>(writer: &mut W, range: (u16, u16)) -> Result<(), WriteFault>
    ensures { Writes result (W.contents writer.old) (W.contents writer.new) (range_text range) }
{
    let (count, offset) = range;
    put_parts(
        writer,
        &[
            Part::Text(b" "),
            Part::Number(u128::from(count)),
            Part::Text(b"@"),
            Part::Number(u128::from(offset)),
        ],
    )
}

/// The range of each class.
fn put_ranges<W: Write>(writer: &mut W, queues: &Queues) -> Result<(), WriteFault>
    ensures { Writes result (W.contents writer.old) (W.contents writer.new)
        (ranges_text queues.now) }
{
    for class in 0..queues.num_tc() {
        let Some(range) = queues.get(class) else {
            return Ok(());
        };
        put_range(writer, range)?;
    }
    Ok(())
}

fn put_num_tc<W: Write>(writer: &mut W, map: &ClassMap) -> Result<(), WriteFault>
    ensures { Writes result (W.contents writer.old) (W.contents writer.new)
        (num_tc_text map.now.num_tc) }
{
    put_parts(
        writer,
        &[
            Part::Text(b"classes "),
            Part::Number(u128::from(map.num_tc())),
            Part::Text(b" map"),
        ],
    )
}

fn put_map_and_ranges<W: Write>(
    writer: &mut W,
    map: &ClassMap,
    queues: &Queues,
) -> Result<(), WriteFault>
    ensures { Writes result (W.contents writer.old) (W.contents writer.new)
        (map_and_ranges_line map.now queues.now) }
{
    put_num_tc(writer, map)?;
    put_map(writer, map)?;
    put(writer, b" queues")?;
    put_ranges(writer, queues)?;
    put(writer, b"\n")
}

fn put_classes<W: Write>(
    writer: &mut W,
    classes: &Option<(ClassMap, Queues)>,
) -> Result<(), WriteFault>
    ensures { Writes result (W.contents writer.old) (W.contents writer.new)
        (classes_line classes.now) }
{
    match classes {
        Some((map, queues)) => put_map_and_ranges(writer, map, queues),
        None => put(writer, b"classes none\n"),
    }
}

/// All gates open from a change on.
fn put_open<W: Write>(writer: &mut W, place: &[u8], change: u128) -> Result<(), WriteFault>
    ensures { Writes result (W.contents writer.old) (W.contents writer.new)
        (open_text place.now change) }
{
    put_parts(
        writer,
        &[
            Part::Text(place),
            Part::Text(b" open change "),
            Part::Number(change),
            Part::Text(b"\n"),
        ],
    )
}

/// A list of entries from a change on.
fn put_list<W: Write>(writer: &mut W, place: &[u8], installed: &Installed) -> Result<(), WriteFault>
    ensures { Writes result (W.contents writer.old) (W.contents writer.new)
        (list_text place.now installed.now) }
{
    put_parts(
        writer,
        &[
            Part::Text(place),
            Part::Text(b" change "),
            Part::Number(installed.change),
            Part::Text(b" base "),
            Part::Number(u128::from(installed.base_ns)),
            Part::Text(b" cycle "),
            Part::Number(u128::from(installed.cycle_ns)),
            Part::Text(b" extension "),
            Part::Number(u128::from(installed.extension_ns)),
            Part::Text(b" entries "),
            Part::Number(u128::from(installed.entries)),
            Part::Text(b"\n"),
        ],
    )
}

fn put_installed<W: Write>(
    writer: &mut W,
    place: &[u8],
    installed: &Installed,
) -> Result<(), WriteFault>
    ensures { Writes result (W.contents writer.old) (W.contents writer.new)
        (installed_text place.now installed.now) }
{
    if installed.entries == 0 {
        put_open(writer, place, installed.change)
    } else {
        put_list(writer, place, installed)
    }
}

fn put_schedule<W: Write>(
    writer: &mut W,
    place: &[u8],
    schedule: &Option<Installed>,
) -> Result<(), WriteFault>
    ensures { Writes result (W.contents writer.old) (W.contents writer.new)
        (schedule_line place.now schedule.now) }
{
    match schedule {
        Some(installed) => put_installed(writer, place, installed),
        None => {
            put(writer, place)?;
            put(writer, b" none\n")
        }
    }
}

/// Writes the five lines of a report: its moments in picoseconds, and the times of a list in nanoseconds. At a fault a
/// prefix of them is written.
pub fn put_report<W: PutLine>(writer: &mut W, report: &Report) -> Result<(), WriteFault>
    ensures { Writes result (W.contents writer.old) (W.contents writer.new)
        (report_lines report.entry.now) }
{
    writer.put_line(&NowLine { report })?;
    put_classes(writer, &report.classes)?;
    put_schedule(writer, b"in-force", &report.in_force)?;
    put_schedule(writer, b"pending", &report.pending)?;
    put_schedule(writer, b"announced", &report.announced)
}
