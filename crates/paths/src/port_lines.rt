//! The lines of ports, and of circles.

ghost use Rattle.std.specs.Prelude.{◌≡◌, ◌<◌, All, Some, slice_get};
ghost use Rattle.network.specs.Network.{name_at};
ghost use Rattle.text.specs.Writes.{Writes};
ghost use Rattle.path_bounds.specs.Hops.{IsPort};
ghost use Rattle.paths.specs.PortLines.{circles_line, cyclic_line, cyclic_names, has_cyclic, head_by, is_cyclic, is_quiet, lines_by, pair_line, pair_lines, pair_name, ports_lines, premises_at, quiet_classes, verdict_line};
ghost use Rattle.stream_bounds.specs.BoundLines.{word_line};
ghost use Rattle.wire_time.specs.declared.TheConstants.{CLASSES};

use network::network_table::Name;
use path_bounds::{Hop, Judgement, PairVerdict, PathPort, has_own, verdict_at};
use port_text::answer_text::{Part, WriteFault, put, put_parts};
use std::io::Write;
use stream_bounds::{BoundsSettings, put_class, put_premises};
use wire_time::CLASSES;

/// Writes the line of the name of the port of a number, where it has one.
fn put_head<W: Write>(writer: &mut W, names: &[Name], port: u32) -> Result<(), WriteFault>
    ensures { Writes result (W.contents writer.old) (W.contents writer.new)
        (head_by (slice_get names.now port)) }
{
    match names.get(port as usize) {
        None => put(writer, b""),
        Some(name) => put_parts(
            writer,
            &[
                Part::Text(b"port "),
                Part::Text(name.as_slice()),
                Part::Text(b"\n"),
            ],
        ),
    }
}

/// Writes the line of a class about which one word is said.
fn put_word<'a, W: Write>(writer: &mut W, class: u8, word: &'a [u8]) -> Result<(), WriteFault>
    ensures { Writes result (W.contents writer.old) (W.contents writer.new)
        (word_line class word.now) }
{
    put_parts(
        writer,
        &[
            Part::Text(b"class "),
            Part::Number(u128::from(class)),
            Part::Text(word),
            Part::Text(b"\n"),
        ],
    )
}

/// Writes the line of a class that has streams.
fn put_verdict<W: Write>(
    writer: &mut W,
    room: u32,
    class: u8,
    verdict: Option<PairVerdict>,
) -> Result<(), WriteFault>
    ensures { Writes result (W.contents writer.old) (W.contents writer.new)
        (verdict_line room class verdict) }
{
    match verdict {
        None => put_word(writer, class, b" cyclic"),
        Some(PairVerdict::Unheard) => put_word(writer, class, b" unknown"),
        Some(PairVerdict::Known(verdict)) => put_class(writer, class, room, verdict),
    }
}

/// Writes the line of a class, where it has streams.
fn put_pair<W: Write>(
    writer: &mut W,
    has: bool,
    room: u32,
    class: u8,
    verdict: Option<PairVerdict>,
) -> Result<(), WriteFault>
    ensures { Writes result (W.contents writer.old) (W.contents writer.new)
        (pair_line has room class verdict) }
{
    if has {
        put_verdict(writer, room, class, verdict)
    } else {
        put(writer, b"")
    }
}

/// Writes the lines of all classes of a port.
fn put_pairs<W: Write>(
    writer: &mut W,
    known: &Judgement,
    room: u32,
    port: u32,
) -> Result<(), WriteFault>
    ensures { Writes result (W.contents writer.old) (W.contents writer.new)
        (pair_lines known.now room port 8 0) }
{
    for class in 0..CLASSES as u8 {
        let has = has_own(known.hops(), port, class);
        let verdict = verdict_at(known.verdicts(), port, class);
        put_pair(writer, has, room, class, verdict)?;
    }
    Ok(())
}

/// Whether it is taken for granted that a class of a port sends nothing: so it is said, and it has no streams there.
fn is_quiet(port: u32, hops: &[Hop], silent: &[bool; CLASSES], class: u8) -> bool
    requires { class < CLASSES }
    ensures { result ≡ is_quiet port hops.now silent.now class }
{
    silent[class as usize] && !has_own(hops, port, class)
}

/// Of each class whether that is so.
fn quiet_classes(port: u32, hops: &[Hop], silent: &[bool; CLASSES]) -> [bool; CLASSES]
    ensures { result ≡ quiet_classes port hops.now silent.now }
{
    [
        is_quiet(port, hops, silent, 0),
        is_quiet(port, hops, silent, 1),
        is_quiet(port, hops, silent, 2),
        is_quiet(port, hops, silent, 3),
        is_quiet(port, hops, silent, 4),
        is_quiet(port, hops, silent, 5),
        is_quiet(port, hops, silent, 6),
        is_quiet(port, hops, silent, 7),
    ]
}

/// Writes the line of the classes that the schedule keeps apart, and that of those that send nothing.
fn put_taken<W: Write>(
    writer: &mut W,
    number: u32,
    hops: &[Hop],
    port: &PathPort,
) -> Result<(), WriteFault>
    requires { IsPort port.now }
    ensures { Writes result (W.contents writer.old) (W.contents writer.new)
        (premises_at number hops.now port.now) }
{
    let settings = BoundsSettings {
        silent: quiet_classes(number, hops, &port.settings.silent),
        ..port.settings
    };
    put_premises(writer, &settings, &port.change, &port.schedule, &[])
}

/// Writes the lines of a port: its name, what is taken for granted, and its classes.
fn put_told<W: Write>(
    writer: &mut W,
    names: &[Name],
    known: &Judgement,
    number: u32,
    port: &PathPort,
) -> Result<(), WriteFault>
    requires { IsPort port.now }
    ensures { Writes result (W.contents writer.old) (W.contents writer.new)
        (lines_by known.now names.now number (Some port.now)) }
{
    put_head(writer, names, number)?;
    put_taken(writer, number, known.hops(), port)?;
    put_pairs(writer, known, port.settings.port.room(), number)
}

/// Writes the lines of the port of a number.
fn put_port<W: Write>(
    writer: &mut W,
    names: &[Name],
    ports: &[PathPort],
    known: &Judgement,
    number: u32,
) -> Result<(), WriteFault>
    requires { All IsPort ports.now }
    ensures { Writes result (W.contents writer.old) (W.contents writer.new)
        (lines_by known.now names.now number (slice_get ports.now number)) }
{
    match ports.get(number as usize) {
        Some(port) => put_told(writer, names, known, number, port),
        None => put(writer, b""),
    }
}

/// Writes the lines of ports, one after another.
pub(crate) fn put_ports<W: Write>(
    writer: &mut W,
    names: &[Name],
    ports: &[PathPort],
    known: &Judgement,
    order: &[u32],
) -> Result<(), WriteFault>
    requires { All IsPort ports.now }
    ensures { Writes result (W.contents writer.old) (W.contents writer.new)
        (ports_lines known.now names.now ports.now order.now) }
{
    for number in order {
        put_port(writer, names, ports, known, *number)?;
    }
    Ok(())
}

/// Whether a class has streams, and no verdict.
fn is_cyclic(known: &Judgement, pair: u32) -> bool
    ensures { result ≡ is_cyclic known.now pair }
{
    let port = pair / 8;
    let class = (7 - pair % 8) as u8;
    has_own(known.hops(), port, class) && verdict_at(known.verdicts(), port, class).is_none()
}

/// Whether that is so of any of so many classes.
fn has_cyclic(known: &Judgement, count: u32) -> bool
    ensures { result ≡ has_cyclic known.now count 0 }
{
    for pair in 0..count {
        if is_cyclic(known, pair) {
            return true;
        }
    }
    false
}

/// The name of the port of a number, or nothing.
fn name_at(names: &[Name], port: u32) -> &[u8]
    ensures { result.now ≡ name_at names.now port }
{
    match names.get(port as usize) {
        Some(name) => name.as_slice(),
        None => b"",
    }
}

/// Writes the port and the class, where they are meant.
fn put_name<W: Write>(writer: &mut W, names: &[Name], is: bool, pair: u32) -> Result<(), WriteFault>
    ensures { Writes result (W.contents writer.old) (W.contents writer.new)
        (pair_name names.now is pair) }
{
    if !is {
        return put(writer, b"");
    }
    put_parts(
        writer,
        &[
            Part::Text(b" "),
            Part::Text(name_at(names, pair / 8)),
            Part::Text(b"/"),
            Part::Number(u128::from(7 - pair % 8)),
        ],
    )
}

/// Writes the classes that have streams and no verdict.
fn put_names<W: Write>(
    writer: &mut W,
    names: &[Name],
    known: &Judgement,
    count: u32,
) -> Result<(), WriteFault>
    ensures { Writes result (W.contents writer.old) (W.contents writer.new)
        (cyclic_names known.now names.now count 0) }
{
    for pair in 0..count {
        put_name(writer, names, is_cyclic(known, pair), pair)?;
    }
    Ok(())
}

/// Writes the line of the classes that have streams and no verdict.
fn put_circles<W: Write>(
    writer: &mut W,
    names: &[Name],
    known: &Judgement,
    count: u32,
) -> Result<(), WriteFault>
    ensures { Writes result (W.contents writer.old) (W.contents writer.new)
        (circles_line known.now names.now count) }
{
    put(writer, b"cyclic")?;
    put_names(writer, names, known, count)?;
    put(writer, b"\n")
}

/// Writes the line of the classes that have streams and no verdict, where there are any.
pub(crate) fn put_cyclic<W: Write>(
    writer: &mut W,
    names: &[Name],
    known: &Judgement,
    count: u32,
) -> Result<(), WriteFault>
    ensures { Writes result (W.contents writer.old) (W.contents writer.new)
        (cyclic_line known.now names.now count) }
{
    if has_cyclic(known, count) {
        put_circles(writer, names, known, count)
    } else {
        put(writer, b"")
    }
}
