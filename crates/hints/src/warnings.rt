//! What is no fault, and is perhaps not meant.

use crate::marks::{Hint, put_hint, span_at};
use crate::sharers::put_sharers;
use abstract_port::{Change, Dropped};
use port_text::answer_text::{Part, WriteFault, dropped_name, put_parts};
use script::{Basis, Missed};
use std::io::Write;
use text::octet_writer::put;

/// The ids of the frames of a stream, and the number of its line in a table.
#[derive(Clone, Copy, Debug, PartialEq, Eq)]
pub struct Ids {
    /// The number of the line.
    pub line: u32,
    /// The first id.
    pub first: u64,
    /// The last one.
    pub last: u64,
}

impl Ids {
    /// Whether an id is one of both.
    pub fn meet(&self, other: &Ids) -> bool {
        self.first <= other.last && other.first <= self.last
    }
}

/// Writes that the frames of two streams share ids.
pub fn put_shared_ids<W: Write>(
    writer: &mut W,
    earlier: &Ids,
    later: &Ids,
    explain: bool,
) -> Result<(), WriteFault> {
    put_parts(
        writer,
        &[
            Part::Text(b"taprio_port: warning: table lines "),
            Part::Number(u128::from(earlier.line)),
            Part::Text(b" and "),
            Part::Number(u128::from(later.line)),
            Part::Text(b" share ids: "),
            Part::Number(u128::from(earlier.first)),
            Part::Text(b" to "),
            Part::Number(u128::from(earlier.last)),
            Part::Text(b", "),
            Part::Number(u128::from(later.first)),
            Part::Text(b" to "),
            Part::Number(u128::from(later.last)),
            Part::Text(b"\n"),
        ],
    )?;
    if explain {
        put(
            writer,
            b"    answers tell a frame by its id: a stream takes COUNT of them from FIRST_ID on\n",
        )?;
    }
    Ok(())
}

/// Writes that an input has no schedule command.
pub fn put_no_command<W: Write>(writer: &mut W) -> Result<(), WriteFault> {
    put(
        writer,
        b"taprio_port: warning: no schedule command: no line begins with tc\n",
    )
}

/// Writes that no frame came in a run.
pub fn put_no_frame<W: Write>(writer: &mut W) -> Result<(), WriteFault> {
    put(writer, b"taprio_port: warning: no frame came\n")
}

/// Writes that no frame of a run was judged by the deadlines of a table.
pub fn put_none_judged<W: Write>(writer: &mut W) -> Result<(), WriteFault> {
    put(
        writer,
        b"taprio_port: warning: no frame was judged: none that came is of a stream with a deadline\n",
    )
}

/// Writes that the line of this number is a comment, where a command was perhaps meant.
pub fn put_comment<W: Write>(writer: &mut W, number: u32, line: &[u8]) -> Result<(), WriteFault> {
    put_parts(
        writer,
        &[
            Part::Text(b"taprio_port: warning: script line "),
            Part::Number(u128::from(number)),
            Part::Text(b" is a comment\n"),
        ],
    )?;
    let hint = Hint::marked(
        span_at(line, 0),
        b"if a prompt was pasted, leave it out: a line that begins with # is skipped",
    );
    put_hint(writer, line, hint)
}

/// Writes that the commands of two lines, with these numbers, are of two devices: one port answers both.
pub fn put_devices<'a, W: Write>(
    writer: &mut W,
    earlier: (u32, &'a [u8]),
    later: (u32, &'a [u8]),
) -> Result<(), WriteFault> {
    put_parts(
        writer,
        &[
            Part::Text(b"taprio_port: warning: script line "),
            Part::Number(u128::from(later.0)),
            Part::Text(b" is of device "),
            Part::Text(later.1),
            Part::Text(b", line "),
            Part::Number(u128::from(earlier.0)),
            Part::Text(b" of "),
            Part::Text(earlier.1),
            Part::Text(
                b"\n    one port answers all lines: --device NAME takes those of one device\n",
            ),
        ],
    )
}

/// Writes that the frame of this id, which came at this moment, in picoseconds, was dropped, and why.
pub fn put_frame_dropped<W: Write>(
    writer: &mut W,
    moment: u128,
    id: u64,
    why: Dropped,
) -> Result<(), WriteFault> {
    put_parts(
        writer,
        &[
            Part::Text(b"taprio_port: frame "),
            Part::Number(u128::from(id)),
            Part::Text(b" at "),
            Part::Number(moment),
            Part::Text(b" is dropped: "),
            Part::Text(dropped_name(why)),
            Part::Text(b"\n"),
        ],
    )
}

/// Writes that a class still has so many frames at the end of a run.
pub fn put_frames_left<W: Write>(writer: &mut W, class: u8, count: u64) -> Result<(), WriteFault> {
    let noun: &[u8] = if count == 1 {
        b" frame left\n"
    } else {
        b" frames left\n"
    };
    put_parts(
        writer,
        &[
            Part::Text(b"taprio_port: class "),
            Part::Number(u128::from(class)),
            Part::Text(b" has "),
            Part::Number(u128::from(count)),
            Part::Text(noun),
        ],
    )
}

/// Writes that by the schedule of the line of this number a class has no time for one frame more in each `every`
/// picoseconds.
pub fn put_busy_class<W: Write>(
    writer: &mut W,
    number: u32,
    class: u8,
    every: u128,
) -> Result<(), WriteFault> {
    put_parts(
        writer,
        &[
            Part::Text(b"taprio_port: warning: script line "),
            Part::Number(u128::from(number)),
            Part::Text(b": class "),
            Part::Number(u128::from(class)),
            Part::Text(b" has no time for one frame more in each "),
            Part::Number(every),
            Part::Text(
                b"\n    after a frame that is added once, those behind it can be late for ever\n",
            ),
        ],
    )
}

/// For which frames the bounds of a class are found, and the premise that is the weakest.
fn put_premise<W: Write>(
    writer: &mut W,
    class: u8,
    change: &Change,
    basis: Basis,
) -> Result<(), WriteFault> {
    match basis {
        Basis::ExactMoments => put(
            writer,
            b" for exact moments\n    if a frame may be later than its moment, by 1 ns too, give its stream a jitter\n",
        ),
        Basis::Windows => put(
            writer,
            b" for windows\n    no frame may come before its moment, nor after its jitter, by the clock of the port\n",
        ),
        Basis::AnyMoments(id) => put_parts(
            writer,
            &[
                Part::Text(b" for any moments, since stream "),
                Part::Number(u128::from(id)),
                Part::Text(
                    b" has the offset any\n    the frames of a stream may come no nearer than its period less its jitter\n",
                ),
            ],
        ),
        Basis::ManyFrames => put(
            writer,
            b" for any moments, since its windows come again after more frames than --frames\n    with more --frames its bounds may be lower\n",
        ),
        Basis::Shared(sharers) => put_sharers(writer, class, change, sharers),
    }
}

/// Whether the class has bounds, in words.
fn said_of(basis: Basis) -> &'static [u8] {
    match basis {
        Basis::Shared(sharers) if !sharers.bounded => b" has no bounds",
        _ => b" is bounded",
    }
}

/// Writes for which frames the bounds of a class are found, by the schedule of the line of this number.
pub fn put_basis<W: Write>(
    writer: &mut W,
    number: u32,
    class: u8,
    change: &Change,
    basis: Basis,
) -> Result<(), WriteFault> {
    put_parts(
        writer,
        &[
            Part::Text(b"taprio_port: note: script line "),
            Part::Number(u128::from(number)),
            Part::Text(b": class "),
            Part::Number(u128::from(class)),
            Part::Text(said_of(basis)),
        ],
    )?;
    put_premise(writer, class, change, basis)
}

/// Writes that the port of this name has no schedule.
pub fn put_open_port<W: Write>(writer: &mut W, name: &[u8]) -> Result<(), WriteFault> {
    put_parts(
        writer,
        &[
            Part::Text(b"taprio_port: note: port "),
            Part::Text(name),
            Part::Text(b" has no schedule: its gates are always open\n"),
        ],
    )
}

/// Writes when a frame of the stream with this first id would end at the latest, if no stream of its class came at any
/// moments.
pub fn put_end_without<W: Write>(writer: &mut W, id: u64, end: u128) -> Result<(), WriteFault> {
    put_parts(
        writer,
        &[
            Part::Text(b"    without such streams, stream "),
            Part::Number(u128::from(id)),
            Part::Text(b" would end within "),
            Part::Number(end),
            Part::Text(b"\n"),
        ],
    )
}

/// Why a frame isn't in time.
fn put_why<W: Write>(writer: &mut W, why: Missed) -> Result<(), WriteFault> {
    match why {
        Missed::Late => put(writer, b" missed its deadline\n"),
        Missed::Left => put(writer, b" is left\n"),
        Missed::Dropped(why) => put_parts(
            writer,
            &[
                Part::Text(b" is dropped: "),
                Part::Text(dropped_name(why)),
                Part::Text(b"\n"),
            ],
        ),
    }
}

/// Writes that the frame of this id, which is of the stream with this first id, isn't in time for the deadline that
/// the stream has.
pub fn put_missed<W: Write>(
    writer: &mut W,
    id: u64,
    stream: u64,
    why: Missed,
) -> Result<(), WriteFault> {
    put_parts(
        writer,
        &[
            Part::Text(b"taprio_port: frame "),
            Part::Number(u128::from(id)),
            Part::Text(b" of stream "),
            Part::Number(u128::from(stream)),
        ],
    )?;
    put_why(writer, why)
}
