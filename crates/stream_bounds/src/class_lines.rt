//! The lines of classes.

ghost use Rattle.std.specs.Prelude.{◌≡◌, Some};
ghost use Rattle.text.specs.Writes.{Writes};
ghost use Rattle.stream_bounds.specs.BoundLines.{behind_line, bounded_line, class_finding, class_finding_in, class_head, class_line, class_lines, flag_text, flag_texts, flagged_line, full_end, full_line, open_line, place_text, stuck_line, within_line, word_line};
ghost use Rattle.wire_time.specs.declared.TheConstants.{CLASSES};

use crate::answers::Answers;
use crate::faults::Finding;
use crate::stream_lines::first_of;
use crate::verdicts::{Place, Verdict};
use port_text::answer_text::{Part, WriteFault, put, put_parts};
use std::io::Write;
use wire_time::CLASSES;

/// Writes the beginning of a class's line.
fn put_head<W: Write>(writer: &mut W, class: u8) -> Result<(), WriteFault>
    ensures { Writes result (W.contents writer.old) (W.contents writer.new) (class_head class) }
{
    put_parts(
        writer,
        &[Part::Text(b"class "), Part::Number(u128::from(class))],
    )
}

/// Writes the line of a class about which one word is said.
fn put_word<W: Write>(writer: &mut W, class: u8, word: &[u8]) -> Result<(), WriteFault>
    ensures { Writes result (W.contents writer.old) (W.contents writer.new)
        (word_line class word.now) }
{
    put_parts(
        writer,
        &[
            Part::Text(b"class "),
            Part::Number(u128::from(class)),
            Part::Text(word),
            Part::Text(b"\n"),
        ],
    )
}

/// Writes a frame, behind the word that says what it is the first of.
fn put_place<W: Write>(writer: &mut W, word: &[u8], place: Place) -> Result<(), WriteFault>
    ensures { Writes result (W.contents writer.old) (W.contents writer.new)
        (place_text word.now place) }
{
    put_parts(
        writer,
        &[
            Part::Text(word),
            Part::Text(b" at "),
            Part::Number(place.moment),
            Part::Text(b" stream "),
            Part::Number(u128::from(place.id)),
            Part::Text(b" frame "),
            Part::Number(place.number),
        ],
    )
}

/// Writes the first frame that finds no room, to the end of the line.
fn put_first_full<W: Write>(writer: &mut W, place: Place) -> Result<(), WriteFault>
    ensures { Writes result (W.contents writer.old) (W.contents writer.new)
        (full_end (Some place)) }
{
    put_place(writer, b" full", place)?;
    put(writer, b"\n")
}

/// Writes the end of a class's line: the first frame that finds no room, if there is one.
fn put_full<W: Write>(writer: &mut W, full: Option<Place>) -> Result<(), WriteFault>
    ensures { Writes result (W.contents writer.old) (W.contents writer.new) (full_end full) }
{
    match full {
        None => put(writer, b"\n"),
        Some(place) => put_first_full(writer, place),
    }
}

/// Writes the line of a class whose queue is full at last.
fn put_full_class<W: Write>(writer: &mut W, class: u8, first: Place) -> Result<(), WriteFault>
    ensures { Writes result (W.contents writer.old) (W.contents writer.new)
        (full_line class first) }
{
    put_head(writer, class)?;
    put_first_full(writer, first)
}

/// Writes the line of a class that is stuck.
fn put_stuck<W: Write>(
    writer: &mut W,
    class: u8,
    never: Place,
    full: Option<Place>,
) -> Result<(), WriteFault>
    ensures { Writes result (W.contents writer.old) (W.contents writer.new)
        (stuck_line class never full) }
{
    put_head(writer, class)?;
    put_place(writer, b" stuck", never)?;
    put_full(writer, full)
}

/// Writes the line of a class with bounds.
fn put_bounded<W: Write>(
    writer: &mut W,
    class: u8,
    room: u32,
    most: usize,
    frames: u64,
    every: u128,
) -> Result<(), WriteFault>
    ensures { Writes result (W.contents writer.old) (W.contents writer.new)
        (bounded_line class room most frames every) }
{
    put_parts(
        writer,
        &[
            Part::Text(b"class "),
            Part::Number(u128::from(class)),
            Part::Text(b" most "),
            Part::Number(most as u128),
            Part::Text(b" of "),
            Part::Number(u128::from(room)),
            Part::Text(b" frames "),
            Part::Number(u128::from(frames)),
            Part::Text(b" every "),
            Part::Number(every),
            Part::Text(b"\n"),
        ],
    )
}

/// Writes the line of a class whose frames wait within bounds, whenever they come.
fn put_within<W: Write>(writer: &mut W, class: u8, room: u32, most: u64) -> Result<(), WriteFault>
    ensures { Writes result (W.contents writer.old) (W.contents writer.new)
        (within_line class room most) }
{
    put_parts(
        writer,
        &[
            Part::Text(b"class "),
            Part::Number(u128::from(class)),
            Part::Text(b" within most "),
            Part::Number(u128::from(most)),
            Part::Text(b" of "),
            Part::Number(u128::from(room)),
            Part::Text(b"\n"),
        ],
    )
}

/// Writes a class, where it is meant.
fn put_flag<W: Write>(writer: &mut W, is: bool, class: u8) -> Result<(), WriteFault>
    ensures { Writes result (W.contents writer.old) (W.contents writer.new) (flag_text is class) }
{
    if is {
        put_parts(writer, &[Part::Text(b" "), Part::Number(u128::from(class))])
    } else {
        put_parts(writer, &[])
    }
}

/// Writes those of the classes that are meant, in rising order.
fn put_flags<W: Write>(writer: &mut W, flags: &[bool; CLASSES]) -> Result<(), WriteFault>
    ensures { Writes result (W.contents writer.old) (W.contents writer.new)
        (flag_texts flags.now CLASSES 0) }
{
    for class in 0..CLASSES as u8 {
        put_flag(writer, flags[class as usize], class)?;
    }
    Ok(())
}

/// Writes those of the classes that are meant, in rising order, behind some words, to the end of the line.
pub fn put_flagged<W: Write>(
    writer: &mut W,
    words: &[u8],
    flags: &[bool; CLASSES],
) -> Result<(), WriteFault>
    ensures { Writes result (W.contents writer.old) (W.contents writer.new)
        (flagged_line words.now flags.now) }
{
    put(writer, words)?;
    put_flags(writer, flags)?;
    put(writer, b"\n")
}

/// Writes the line of a class that is open to others above it.
fn put_open<W: Write>(writer: &mut W, class: u8, to: &[bool; CLASSES]) -> Result<(), WriteFault>
    ensures { Writes result (W.contents writer.old) (W.contents writer.new)
        (open_line class to.now) }
{
    put_head(writer, class)?;
    put_flagged(writer, b" open to", to)
}

/// Writes the line of a class behind one that has no bounds.
fn put_behind<W: Write>(writer: &mut W, class: u8, other: u8) -> Result<(), WriteFault>
    ensures { Writes result (W.contents writer.old) (W.contents writer.new)
        (behind_line class other) }
{
    put_parts(
        writer,
        &[
            Part::Text(b"class "),
            Part::Number(u128::from(class)),
            Part::Text(b" behind "),
            Part::Number(u128::from(other)),
            Part::Text(b"\n"),
        ],
    )
}

/// Writes the line of a class, where it has streams.
pub fn put_class<W: Write>(
    writer: &mut W,
    class: u8,
    room: u32,
    verdict: Verdict,
) -> Result<(), WriteFault>
    ensures { Writes result (W.contents writer.old) (W.contents writer.new)
        (class_line class room verdict) }
{
    match verdict {
        Verdict::Idle => put_parts(writer, &[]),
        Verdict::Open { to } => put_open(writer, class, &to),
        Verdict::Behind(other) => put_behind(writer, class, other),
        Verdict::Sharing(bounds) => put_within(writer, class, room, bounds.most as u64),
        Verdict::NoWindow => put_word(writer, class, b" stuck"),
        Verdict::Blocked => put_word(writer, class, b" blocked"),
        Verdict::Bounded {
            most,
            frames,
            every,
        } => put_bounded(writer, class, room, most, frames, every),
        Verdict::Within { most, .. } => put_within(writer, class, room, most),
        Verdict::Crowded { most } => put_within(writer, class, room, most),
        Verdict::Full { first, .. } => put_full_class(writer, class, first),
        Verdict::Stuck { never, full } => put_stuck(writer, class, never, full),
        Verdict::Unfit => put_word(writer, class, b" stuck"),
        Verdict::Overloaded { .. } => put_word(writer, class, b" overloaded"),
        Verdict::Long => put_word(writer, class, b" long"),
        Verdict::Late => put_word(writer, class, b" late"),
    }
}

/// Writes the lines of all classes that have streams, in rising order.
pub fn put_classes<W: Write>(writer: &mut W, room: u32, answers: &Answers) -> Result<(), WriteFault>
    ensures { Writes result (W.contents writer.old) (W.contents writer.new)
        (class_lines room answers.now CLASSES 0) }
{
    for class in 0..CLASSES as u8 {
        put_class(writer, class, room, answers.verdict(class))?;
    }
    Ok(())
}

/// The finding about a class: it loses frames, or never sends some.
fn class_finding(class: u8, verdict: Verdict) -> Option<Finding>
    ensures { result ≡ class_finding class verdict }
{
    match verdict {
        Verdict::Full { .. } => Some(Finding::Full(class)),
        Verdict::Stuck { .. } | Verdict::Unfit | Verdict::NoWindow => Some(Finding::Stuck(class)),
        Verdict::Overloaded { .. } => Some(Finding::Overloaded(class)),
        Verdict::Bounded { .. } | Verdict::Within { .. } | Verdict::Crowded { .. } => None,
        Verdict::Sharing(_) | Verdict::Open { .. } | Verdict::Behind(_) | Verdict::Blocked => None,
        Verdict::Idle | Verdict::Long | Verdict::Late => None,
    }
}

/// The first finding among all classes.
pub fn find_class(answers: &Answers) -> Option<Finding>
    ensures { result ≡ class_finding_in answers.now CLASSES 0 }
{
    let mut first = None;
    for class in 0..CLASSES as u8 {
        first = first_of(first, class_finding(class, answers.verdict(class)));
    }
    first
}
