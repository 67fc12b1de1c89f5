//! What is told of a class that shares its windows: with which classes, in which entries, what may be in its way, and what
//! its longest wait is made of.

use abstract_port::Change;
use gates::gate_list::{Entry, is_open};
use port_text::answer_text::{Part, WriteFault, put_parts};
use script::{Sharers, Shares};
use std::io::Write;
use text::octet_writer::put;

/// Writes the numbers of the classes that are meant.
fn put_classes<W: Write>(writer: &mut W, classes: &[bool; 8]) -> Result<(), WriteFault> {
    for class in 0..8u8 {
        if classes[class as usize] {
            put_parts(writer, &[Part::Text(b" "), Part::Number(u128::from(class))])?;
        }
    }
    Ok(())
}

/// How many classes are meant.
fn count_of(classes: &[bool; 8]) -> usize {
    classes.iter().filter(|is| **is).count()
}

/// How many of the entries begin before the end of the cycle: the others open nothing.
fn begun_entries(change: &Change) -> usize {
    let mut begin: u64 = 0;
    let mut count: usize = 0;
    for entry in change.list.entries() {
        if change.cycle_ns != 0 && change.cycle_ns <= begin {
            return count;
        }
        begin = begin.saturating_add(u64::from(entry.interval));
        count = count.saturating_add(1);
    }
    count
}

/// Whether an entry opens a class and another one.
fn is_shared(entry: &Entry, class: u8) -> bool {
    class < 8 && is_open(entry.mask, class) && entry.mask.count_ones() > 1
}

/// Whether an entry before this place opens the same classes as the one there.
fn is_told(entries: &[Entry], place: usize, mask: u8) -> bool {
    for entry in entries.iter().take(place) {
        if entry.mask == mask {
            return true;
        }
    }
    false
}

/// How many entries open just these classes.
fn same_count(entries: &[Entry], mask: u8) -> usize {
    entries.iter().filter(|entry| entry.mask == mask).count()
}

/// Writes the numbers, from 1, of the entries that open just these classes, and with which others they open this one.
fn put_same<W: Write>(
    writer: &mut W,
    entries: &[Entry],
    class: u8,
    mask: u8,
) -> Result<(), WriteFault> {
    let several = same_count(entries, mask) > 1;
    if several {
        put(writer, b"    entries")?;
    } else {
        put(writer, b"    entry")?;
    }
    let mut number: u128 = 0;
    for entry in entries {
        number = number.saturating_add(1);
        if entry.mask == mask {
            put_parts(writer, &[Part::Text(b" "), Part::Number(number)])?;
        }
    }
    if several {
        put(writer, b" open it with")?;
    } else {
        put(writer, b" opens it with")?;
    }
    put_others(writer, class, mask)
}

/// Writes which other classes an entry opens, and ends the line.
fn put_others<W: Write>(writer: &mut W, class: u8, mask: u8) -> Result<(), WriteFault> {
    for other in 0..8u8 {
        if other != class && is_open(mask, other) {
            put_parts(writer, &[Part::Text(b" "), Part::Number(u128::from(other))])?;
        }
    }
    put(writer, b"\n")
}

/// Writes in which entries a class is open with others: a line for each set of classes.
fn put_entries<W: Write>(writer: &mut W, entries: &[Entry], class: u8) -> Result<(), WriteFault> {
    let mut place: usize = 0;
    for entry in entries {
        if is_shared(entry, class) && !is_told(entries, place, entry.mask) {
            put_same(writer, entries, class, entry.mask)?;
        }
        place = place.saturating_add(1);
    }
    Ok(())
}

/// Writes what may be in the way of a class: a frame of which classes, and for how long.
fn put_blockers<W: Write>(writer: &mut W, sharers: &Sharers) -> Result<(), WriteFault> {
    match count_of(&sharers.blockers) {
        0 => return put(writer, b"    no lower class is in its way\n"),
        1 => put(writer, b"    a frame of class")?,
        _ => put(writer, b"    a frame of one of the classes")?,
    }
    put_classes(writer, &sharers.blockers)?;
    put_parts(
        writer,
        &[
            Part::Text(b" may be in its way for "),
            Part::Number(sharers.blocking),
            Part::Text(b"\n"),
        ],
    )
}

/// Writes what the greatest wait of a stream of this id is made of.
fn put_shares<W: Write>(writer: &mut W, id: u64, shares: Shares) -> Result<(), WriteFault> {
    put_parts(
        writer,
        &[
            Part::Text(b"    stream "),
            Part::Number(u128::from(id)),
            Part::Text(b" waits the longest: by its gates "),
            Part::Number(shares.gates),
            Part::Text(b", behind a lower class "),
            Part::Number(shares.blocking),
            Part::Text(b", behind higher ones "),
            Part::Number(shares.higher),
            Part::Text(b", in its own queue "),
            Part::Number(shares.queue),
            Part::Text(b"\n"),
        ],
    )
}

/// Writes with which classes a class shares windows, in which entries of a change, what may be in its way, and what its
/// longest wait is made of.
pub fn put_sharers<W: Write>(
    writer: &mut W,
    class: u8,
    change: &Change,
    sharers: Sharers,
) -> Result<(), WriteFault> {
    if count_of(&sharers.classes) == 1 {
        put(writer, b" beside class")?;
    } else {
        put(writer, b" beside classes")?;
    }
    put_classes(writer, &sharers.classes)?;
    put(writer, b"\n")?;
    let entries = change.list.entries();
    let begun = begun_entries(change).min(entries.len());
    put_entries(writer, &entries[..begun], class)?;
    put_blockers(writer, &sharers)?;
    match sharers.longest {
        Some((id, shares)) => put_shares(writer, id, shares),
        None => Ok(()),
    }
}
