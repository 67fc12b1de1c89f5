//! What the software mode of Linux does otherwise with a command, as far as the line says so.
//!
//! It is read in the source of the kernel: see "The software mode of Linux" in docs/compare.md.

use abstract_port::{Change, Command};
use port_text::answer_text::{Part, WriteFault, put_parts};
use std::io::Write;
use text::words::Words;

/// The greatest cycle that Linux takes, in nanoseconds: that of a number of 32 bits with a sign.
const GREATEST_CYCLE: u64 = 2_147_483_647;

/// Whether a line leaves its list to the kernel: it has no `flags`, or says 0.
fn is_software(line: &[u8]) -> bool {
    let mut words = Words::new(line);
    for _ in 0..line.len() {
        match words.next_word() {
            Some(b"flags") => return matches!(words.next_word(), Some(b"0" | b"0x0" | b"0x00")),
            Some(_) => {}
            None => break,
        }
    }
    true
}

/// The sum of the intervals of a list, in nanoseconds.
fn sum_of(change: &Change) -> u64 {
    let mut sum: u64 = 0;
    for entry in change.list.entries() {
        sum = sum.saturating_add(u64::from(entry.interval));
    }
    sum
}

/// Writes the beginning of a note about the line of this number, and then its text.
fn put_note<W: Write>(writer: &mut W, number: u32, parts: &[Part<'_>]) -> Result<(), WriteFault> {
    put_parts(
        writer,
        &[
            Part::Text(b"taprio_port: note: script line "),
            Part::Number(u128::from(number)),
            Part::Text(b": the software mode of Linux "),
        ],
    )?;
    put_parts(writer, parts)
}

/// Writes what Linux does with the cycle of a change.
fn put_cycle<W: Write>(writer: &mut W, number: u32, change: &Change) -> Result<(), WriteFault> {
    let sum = sum_of(change);
    let cycle = if change.cycle_ns == 0 {
        sum
    } else {
        change.cycle_ns
    };
    if cycle > GREATEST_CYCLE {
        return put_note(
            writer,
            number,
            &[
                Part::Text(b"refuses this cycle\n    its cycles are of "),
                Part::Number(u128::from(GREATEST_CYCLE)),
                Part::Text(b" ns at most\n"),
            ],
        );
    }
    if cycle <= sum {
        return Ok(());
    }
    put_note(
        writer,
        number,
        &[
            Part::Text(b"begins this list again each "),
            Part::Number(u128::from(sum)),
            Part::Text(b" ns, and not each "),
            Part::Number(u128::from(cycle)),
            Part::Text(
                b" ns\n    here, and by the standard, its last state is held to the end of the cycle\n",
            ),
        ],
    )
}

/// Writes what Linux does with the cycle time extension of a change.
fn put_extension<W: Write>(writer: &mut W, number: u32, change: &Change) -> Result<(), WriteFault> {
    if change.extension_ns == 0 {
        return Ok(());
    }
    put_note(
        writer,
        number,
        &[Part::Text(
            b"holds no state for cycle-time-extension\n    a next list shows its first entry early there, by up to an entry and the extension\n",
        )],
    )
}

/// Writes what Linux does where the schedule of an earlier line runs.
fn put_running<W: Write>(writer: &mut W, number: u32, earlier: u32) -> Result<(), WriteFault> {
    put_note(
        writer,
        number,
        &[
            Part::Text(
                b"changes at the start or the end of an entry\n    where the schedule of line ",
            ),
            Part::Number(u128::from(earlier)),
            Part::Text(
                b" runs, all gates are open there until its entry ends, and the change is early by up to an entry\n",
            ),
        ],
    )
}

/// Writes what the software mode of Linux does otherwise with the command that the line of this number is, whose text
/// this is. Before it the line of another number was a schedule, or none was. With offload the network card decides, and
/// nothing is written.
pub fn put_linux<W: Write>(
    writer: &mut W,
    number: u32,
    line: &[u8],
    command: &Command,
    earlier: Option<u32>,
) -> Result<(), WriteFault> {
    if !is_software(line) {
        return Ok(());
    }
    let change = match command {
        Command::Replace(change) => change,
        Command::Delete => {
            return put_note(
                writer,
                number,
                &[Part::Text(
                    b"deletes at once, and throws the frames away that wait\n    here they wait on, and all gates open at the lead moment\n",
                )],
            );
        }
    };
    put_cycle(writer, number, change)?;
    put_extension(writer, number, change)?;
    match earlier {
        Some(earlier) => put_running(writer, number, earlier),
        None => Ok(()),
    }
}
