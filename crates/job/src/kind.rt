//! What ended a run, for who explains it.

ghost use Rattle.std.specs.Prelude.{◌≡◌};

use std::alloc::Allocator;
use std::io::Write;

/// What ended a run early, whichever job it was: a case for each fault that is explained in its own way. The name or
/// the text in a case's comment is what is printed.
#[derive(Clone, Copy, Debug, PartialEq, Eq)]
pub enum FaultKind {
    /// The fault of a line.
    Line(LineKind),
    /// The fault of a capture.
    Capture(CaptureKind),
    /// The value of an option is bad.
    Value(ValueKind),
    /// `bounds`: a strict run has found something about a line, a stream or a class.
    Found,
    /// `bounds: no schedule was judged`, in a strict run.
    NoSchedule,
    /// `bounds: no stream is in the table`, in a strict run.
    NoStream,
    /// `OUT is one of the inputs`.
    OutIsInput,
    /// `cannot open`: a file can't be opened, or made.
    CannotOpen,
    /// `read failed`.
    ReadFailed,
    /// `write failed`.
    WriteFailed,
    /// `out of memory`.
    OutOfMemory,
}

/// What is wrong with a line of a script, of schedules or of a table of streams.
#[derive(Clone, Copy, Debug, PartialEq, Eq)]
pub enum LineKind {
    /// `LongLine`: it has too many octets.
    LongLine,
    /// `TooManyLines`: it is a line too many, or what is written would have too many.
    TooManyLines,
    /// `UnknownLine`: its first word is none that a script or schedules may have.
    UnknownLine,
    /// `UnknownLine`: its first word is none that a table may have.
    UnknownTableLine,
    /// `FrameInReplay`: it is a frame, in a script that runs beside a capture.
    FrameInReplay,
    /// `WordCount`: it has too few or too many words.
    WordCount,
    /// `BadNumber`: a word is no number, or one over its limit.
    BadNumber,
    /// `ClockTooLate`: its moment is after the greatest.
    ClockTooLate,
    /// `ClockTooLate`: the last frame of its stream would come after the greatest moment.
    StreamTooLate,
    /// `UnknownLine`: its first word is none that a network may have.
    UnknownNetworkLine,
    /// `BadName`: a word is no name of a port.
    BadName,
    /// `SecondPort`: a line says of the same port what it has, already.
    SecondPort,
    /// `SecondLink`: a line says a link between the same ports, in this direction, already.
    SecondLink,
    /// `SecondClocks`: a line says by how much clocks differ, already.
    SecondClocks,
    /// `PortTwice`: a way goes over the same port twice.
    PortTwice,
    /// `NoLink`: a way goes from a port to one to which no link leads.
    NoLink,
    /// `NoWay`: a stream has no way, and there are several ports.
    NoWay,
    /// `tc-fault`: it is no command, where each line is the schedule of a port.
    NoCommand,
    /// `Deletion`: it deletes the schedule of a port, where each line is one.
    Deletion,
    /// `UnknownPort`: the network has no port of this name.
    UnknownPort,
    /// `Uncrossed`: no stream crosses the port of this name.
    Uncrossed,
    /// `SecondSchedule`: a line is a command for the same port, already.
    SecondSchedule,
    /// `NoColumn`: the first line of a table of frames names no column `id` or `start_ps`.
    NoColumn,
    /// `FieldCount`: a line of a table of frames has too few fields.
    FieldCount,
    /// `NoPayload`: the payloads of a table of frames are asked for, and it has none.
    NoPayload,
}

/// What is wrong with a capture.
#[derive(Clone, Copy, Debug, PartialEq, Eq)]
pub enum CaptureKind {
    /// `ShortHeader`: it ends within its header.
    ShortHeader,
    /// `BadMagic`: it is no capture that is read.
    BadMagic,
    /// `BadVersion`: it is of another version.
    BadVersion,
    /// `BadLink`: it is of another link type.
    BadLink,
    /// `ShortRecord`: it ends within a record.
    ShortRecord,
    /// `LongRecord`: a record has too many octets.
    LongRecord,
    /// `BadFraction`: the fraction of a time stamp is a second or more.
    BadFraction,
    /// `TooManyRecords`: it has too many records.
    TooManyRecords,
    /// `BadShift`: the time of a shift brings a record before moment 0, or past the greatest moment.
    BadShift,
    /// `NoId`: IDs are asked for, and the frame of a record carries none.
    NoId,
}

/// Whose value is bad.
#[derive(Clone, Copy, Debug, PartialEq, Eq)]
pub enum ValueKind {
    /// `bad value of --rate`.
    Rate,
    /// `bad value of --mtu`.
    Mtu,
    /// `bad value of --room`.
    Room,
    /// `bad value of --map`.
    Map,
    /// `bad value of --frame`.
    Frame,
    /// `bad value of --frames`.
    Frames,
    /// `bad value of --silent`.
    Silent,
    /// `bad value of --until`.
    Until,
    /// `bad value of --stamp`.
    Stamp,
    /// `bad value of --seed`.
    Seed,
    /// `bad value of --from`.
    From,
    /// `bad value of --to`.
    To,
    /// `bad value of --width`.
    Width,
    /// `bad value of --cycle`.
    Cycle,
    /// `bad value of --entries`.
    Entries,
    /// `bad value of --least-interval`.
    LeastInterval,
    /// `bad value of --device`.
    Device,
    /// `bad value of --base-time`.
    BaseTime,
    /// `bad value of --next`.
    Next,
    /// `bad value of --shift`.
    Shift,
    /// `bad value of --format`.
    Format,
    /// `bad value of --fcs`.
    Fcs,
    /// `bad value of --by`.
    By,
    /// `bad value of --within`.
    Within,
}

/// Where the end of a run is reported: its text, and what it was.
pub trait Errors: Write {
    ghost use Rattle.job.specs.declared.kind.FaultKind.{FaultKind};

    /// What was told last, where that is kept.
    ghost knows: { Self → FaultKind → Type 0 } = { λ _ _. Unit {0} };

    /// This ended the run whose text is written here. Nothing is written.
    fn found(&mut self, kind: FaultKind)
        ensures known { knows self.new kind }
        ensures kept { Self.contents self.new ≡ Self.contents self.old };
}

impl<A: Allocator> Errors for Vec<u8, A> {
    fn found(&mut self, _kind: FaultKind) {}
}
