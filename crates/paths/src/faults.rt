//! Why a run ends early, what a strict run stops for, and the texts that say so.

ghost use Rattle.std.specs.Prelude.{◌≡◌};
ghost use Rattle.text.specs.Writes.{Writes};
ghost use Rattle.paths.specs.Faults.{class_end, class_found, finding_kind, found_text, network_fault, paths_kind, paths_telling, port_text, refusal_head, refusal_text, schedules_fault, stream_found};

use abstract_port::Refused;
use job::{Fault, FaultKind, InputFault, ValueKind};
use network::network_table::{BadNetwork, Name, NetworkRunFault};
use network::port_schedules::{BadSchedules, SchedulesRunFault};
use port_text::answer_text::{Part, WriteFault, put, put_parts, put_refused};
use std::io::Write;
use thiserror::Error;

/// What a strict run stops a build for.
#[derive(Clone, Copy, Debug, PartialEq, Eq)]
pub enum PathsFinding {
    /// The deadline of the stream with this first id is missed, or its frames are dropped on their way.
    Missed(u64),
    /// Whether the deadline of the stream with this first id is met is not known.
    Unknown(u64),
    /// Frames of the stream with this first id, which has no deadline, are dropped on their way.
    Dropped(u64),
    /// A frame of this class of the port of this name finds its queue full.
    Full(Option<Name>, u8),
    /// A frame of this class of the port of this name never starts.
    Stuck(Option<Name>, u8),
    /// The backlog of this class of the port of this name grows for ever.
    Overloaded(Option<Name>, u8),
    /// No schedule was given.
    NoSchedule,
    /// The network has no stream.
    NoStream,
}

/// What is wrong with a network and the schedules of its ports.
#[derive(Clone, Copy, Debug, PartialEq, Eq, Error)]
pub enum PathsInput {
    /// A line of the network has a fault. Nothing is written.
    #[error("{0:?}")]
    Network(BadNetwork),
    /// A line of the schedules has a fault. Nothing is written.
    #[error("{0:?}")]
    Schedules(BadSchedules),
    /// A new port refuses the command of the line of the schedules of this number. Nothing is written.
    #[error("line {0} of the schedules: {1:?}")]
    Refused(u32, Refused),
    /// The network has too many ports. Nothing is written.
    #[error("there are too many ports")]
    Ports,
    /// The network has no port of the name whose table is asked for. Nothing is written.
    #[error("no port of this name")]
    Next,
    /// A strict run has found this first. All is written.
    #[error("{0:?}")]
    Found(PathsFinding),
}

/// Why a run on a network and schedules ended early.
pub type PathsFault = Fault<PathsInput>;

impl PathsFinding {
    /// What it is.
    fn kind(self) -> FaultKind
        ensures { result ≡ finding_kind self }
    {
        match self {
            PathsFinding::Missed(_) | PathsFinding::Unknown(_) => FaultKind::Found,
            PathsFinding::Dropped(_) | PathsFinding::Full(..) => FaultKind::Found,
            PathsFinding::Stuck(..) | PathsFinding::Overloaded(..) => FaultKind::Found,
            PathsFinding::NoSchedule => FaultKind::NoSchedule,
            PathsFinding::NoStream => FaultKind::NoStream,
        }
    }
}

/// A fault that reading a network has, as one of the job.
pub(crate) fn network_fault(fault: NetworkRunFault) -> PathsFault
    ensures { result ≡ network_fault fault }
{
    match fault {
        Fault::Input(bad) => Fault::Input(PathsInput::Network(bad)),
        Fault::Read => Fault::Read,
        Fault::Write => Fault::Write,
        Fault::Memory => Fault::Memory,
    }
}

/// A fault that reading schedules has, as one of the job.
pub(crate) fn schedules_fault(fault: SchedulesRunFault) -> PathsFault
    ensures { result ≡ schedules_fault fault }
{
    match fault {
        Fault::Input(bad) => Fault::Input(PathsInput::Schedules(bad)),
        Fault::Read => Fault::Read,
        Fault::Write => Fault::Write,
        Fault::Memory => Fault::Memory,
    }
}

/// Writes what is found about a stream.
fn put_stream<'a, W: Write>(writer: &mut W, id: u64, found: &'a [u8]) -> Result<(), WriteFault>
    ensures { Writes result (W.contents writer.old) (W.contents writer.new)
        (stream_found id found.now) }
{
    put_parts(
        writer,
        &[
            Part::Text(b"taprio_port: paths: stream "),
            Part::Number(u128::from(id)),
            Part::Text(found),
        ],
    )
}

/// Writes which port is meant, where it has a name.
fn put_port<W: Write>(writer: &mut W, name: Option<Name>) -> Result<(), WriteFault>
    ensures { Writes result (W.contents writer.old) (W.contents writer.new) (port_text name) }
{
    match name {
        None => put(writer, b""),
        Some(name) => put_parts(
            writer,
            &[
                Part::Text(b"port "),
                Part::Text(name.as_slice()),
                Part::Text(b" "),
            ],
        ),
    }
}

/// Writes a class, and what is found about it.
fn put_class_end<'a, W: Write>(writer: &mut W, class: u8, found: &'a [u8]) -> Result<(), WriteFault>
    ensures { Writes result (W.contents writer.old) (W.contents writer.new)
        (class_end class found.now) }
{
    put_parts(
        writer,
        &[
            Part::Text(b"class "),
            Part::Number(u128::from(class)),
            Part::Text(found),
        ],
    )
}

/// Writes what is found about a class of a port.
fn put_class<'a, W: Write>(
    writer: &mut W,
    name: Option<Name>,
    class: u8,
    found: &'a [u8],
) -> Result<(), WriteFault>
    ensures { Writes result (W.contents writer.old) (W.contents writer.new)
        (class_found name class found.now) }
{
    put(writer, b"taprio_port: paths: ")?;
    put_port(writer, name)?;
    put_class_end(writer, class, found)
}

/// Writes the text of a finding.
fn put_finding<W: Write>(writer: &mut W, finding: PathsFinding) -> Result<(), WriteFault>
    ensures { Writes result (W.contents writer.old) (W.contents writer.new) (found_text finding) }
{
    match finding {
        PathsFinding::Missed(id) => put_stream(writer, id, b": deadline missed\n"),
        PathsFinding::Unknown(id) => put_stream(writer, id, b": deadline unknown\n"),
        PathsFinding::Dropped(id) => put_stream(writer, id, b": dropped\n"),
        PathsFinding::Full(name, class) => put_class(writer, name, class, b": full\n"),
        PathsFinding::Stuck(name, class) => put_class(writer, name, class, b": stuck\n"),
        PathsFinding::Overloaded(name, class) => {
            put_class(writer, name, class, b": overloaded\n")
        }
        PathsFinding::NoSchedule => put(writer, b"taprio_port: paths: no schedule was judged\n"),
        PathsFinding::NoStream => {
            put(writer, b"taprio_port: paths: no stream is in the network\n")
        }
    }
}

/// Writes which line of the schedules is meant.
fn put_refusal_head<W: Write>(writer: &mut W, line: u32) -> Result<(), WriteFault>
    ensures { Writes result (W.contents writer.old) (W.contents writer.new) (refusal_head line) }
{
    put_parts(
        writer,
        &[
            Part::Text(b"taprio_port: schedules line "),
            Part::Number(u128::from(line)),
            Part::Text(b": "),
        ],
    )
}

/// Writes that the command of the line of the schedules of this number is refused.
fn put_refusal<W: Write>(writer: &mut W, line: u32, why: Refused) -> Result<(), WriteFault>
    ensures { Writes result (W.contents writer.old) (W.contents writer.new)
        (refusal_text line why) }
{
    put_refusal_head(writer, line)?;
    put_refused(writer, why)
}

impl InputFault for PathsInput {
    ghost telling = { paths_telling };

    ghost kind_of = { paths_kind };

    fn status(&self) -> u8 {
        match self {
            PathsInput::Network(_) | PathsInput::Schedules(_) => 3,
            PathsInput::Refused(..) | PathsInput::Ports => 3,
            PathsInput::Next => 2,
            PathsInput::Found(_) => 1,
        }
    }

    fn kind(&self) -> FaultKind {
        match *self {
            PathsInput::Network(bad) => bad.kind(),
            PathsInput::Schedules(bad) => bad.kind(),
            PathsInput::Refused(..) | PathsInput::Ports => FaultKind::Found,
            PathsInput::Next => FaultKind::Value(ValueKind::Next),
            PathsInput::Found(finding) => finding.kind(),
        }
    }

    fn put<W: Write>(&self, writer: &mut W) -> Result<(), WriteFault> {
        match *self {
            PathsInput::Network(bad) => bad.put(writer),
            PathsInput::Schedules(bad) => bad.put(writer),
            PathsInput::Refused(line, why) => put_refusal(writer, line, why),
            PathsInput::Ports => put(
                writer,
                b"taprio_port: paths: there are more than 65536 ports\n",
            ),
            PathsInput::Next => put(writer, b"taprio_port: bad value of --next\n"),
            PathsInput::Found(finding) => put_finding(writer, finding),
        }
    }
}
