//! What is wrong with the lines of a network.

ghost use Rattle.std.specs.Prelude.{◌≡◌};
ghost use Rattle.text.specs.Writes.{Writes};
ghost use Rattle.network.specs.Faults.{line_kind_of, named_text, network_kind, network_telling, network_text, second_text, shared_kind, twice_text, unlinked_text};
ghost use Rattle.network.specs.Network.{bad_network, lines_fault, numbered_fault};

use crate::network_table::name::Name;
use job::{Fault, FaultKind, InputFault, LineKind};
use port_text::answer_text::{Part, WriteFault, put_parts};
use script::{ScriptFault, limit_fault, put_line_fault};
use std::io::Write;
use text::line_reader::LineFault;
use thiserror::Error;

/// What the text of a fault begins with.
const NETWORK_LINE: &[u8] = b"taprio_port: network line ";

/// What is wrong with a line of a network.
#[derive(Clone, Copy, Debug, PartialEq, Eq)]
pub enum NetworkFault {
    /// What a line of another input may have, too: one of the faults that a table of streams has.
    Line(ScriptFault),
    /// A word is no name of a port.
    BadName,
    /// The line of this number says of the same port what it has, already.
    SecondPort(u32),
    /// The line of this number says a link between the same two ports, in this direction, already.
    SecondLink(u32),
    /// The line of this number says by how much clocks differ, already.
    SecondClocks(u32),
    /// The way goes over the port of this name twice.
    PortTwice(Name),
    /// The way goes from the first of these ports to the second, and no line says a link in this direction.
    NoLink(Name, Name),
    /// The stream has no way, and there are several ports.
    NoWay,
}

/// The line of a network of this number, counted in physical lines from 1, has this fault.
#[derive(Clone, Copy, Debug, PartialEq, Eq, Error)]
#[error("line {line} of the network: {fault:?}")]
pub struct BadNetwork {
    /// The number of the line.
    pub line: u32,
    /// What is wrong with it.
    pub fault: NetworkFault,
}

/// Why reading a network ended early.
pub type NetworkRunFault = Fault<BadNetwork>;

impl BadNetwork {
    /// The line of this number has this fault.
    pub fn new(line: u32, fault: NetworkFault) -> BadNetwork
        ensures { result ≡ bad_network line fault }
    {
        BadNetwork { line, fault }
    }
}

/// The fault of the line of a number, which couldn't be taken for this.
pub(crate) fn numbered_fault(line: u32, why: Fault<NetworkFault>) -> NetworkRunFault
    ensures { result ≡ numbered_fault line why }
{
    match why {
        Fault::Input(fault) => Fault::Input(BadNetwork::new(line, fault)),
        Fault::Read => Fault::Read,
        Fault::Write => Fault::Write,
        Fault::Memory => Fault::Memory,
    }
}

/// The fault of lines that can't be read.
pub(crate) fn lines_fault(fault: LineFault) -> NetworkRunFault
    ensures { result ≡ lines_fault fault }
{
    match fault {
        LineFault::Limit(line, limit) => Fault::Input(BadNetwork::new(
            line,
            NetworkFault::Line(limit_fault(limit)),
        )),
        LineFault::Read => Fault::Read,
    }
}

/// Writes the text of a line's fault that has this name, after a beginning that names the input. At a fault a prefix of
/// it is written.
pub fn put_named_fault<'a, W: Write>(
    writer: &mut W,
    begin: &'a [u8],
    line: u32,
    name: &'a [u8],
) -> Result<(), WriteFault>
    ensures { Writes result (W.contents writer.old) (W.contents writer.new)
        (named_text begin.now line name.now) }
{
    put_parts(
        writer,
        &[
            Part::Text(begin),
            Part::Number(u128::from(line)),
            Part::Text(b": "),
            Part::Text(name),
            Part::Text(b"\n"),
        ],
    )
}

/// The same of a line that says what another line says already, with the number of that one.
pub fn put_second_fault<'a, W: Write>(
    writer: &mut W,
    begin: &'a [u8],
    line: u32,
    name: &'a [u8],
    other: u32,
) -> Result<(), WriteFault>
    ensures { Writes result (W.contents writer.old) (W.contents writer.new)
        (second_text begin.now line name.now other) }
{
    put_parts(
        writer,
        &[
            Part::Text(begin),
            Part::Number(u128::from(line)),
            Part::Text(b": "),
            Part::Text(name),
            Part::Text(b" (line "),
            Part::Number(u128::from(other)),
            Part::Text(b")\n"),
        ],
    )
}

/// Writes the text of a way that goes over the port of this name twice.
fn put_twice<W: Write>(writer: &mut W, line: u32, name: &Name) -> Result<(), WriteFault>
    ensures { Writes result (W.contents writer.old) (W.contents writer.new)
        (twice_text line name.now) }
{
    put_parts(
        writer,
        &[
            Part::Text(NETWORK_LINE),
            Part::Number(u128::from(line)),
            Part::Text(b": PortTwice "),
            Part::Text(name.as_slice()),
            Part::Text(b"\n"),
        ],
    )
}

/// Writes the text of a way from one port to another, to which no link leads.
fn put_unlinked<'a, W: Write>(
    writer: &mut W,
    line: u32,
    from: &'a Name,
    to: &'a Name,
) -> Result<(), WriteFault>
    ensures { Writes result (W.contents writer.old) (W.contents writer.new)
        (unlinked_text line from.now to.now) }
{
    put_parts(
        writer,
        &[
            Part::Text(NETWORK_LINE),
            Part::Number(u128::from(line)),
            Part::Text(b": NoLink "),
            Part::Text(from.as_slice()),
            Part::Text(b" "),
            Part::Text(to.as_slice()),
            Part::Text(b"\n"),
        ],
    )
}

/// Writes the text of the fault of the line of a number.
fn put_network_fault<W: Write>(
    writer: &mut W,
    line: u32,
    fault: NetworkFault,
) -> Result<(), WriteFault>
    ensures { Writes result (W.contents writer.old) (W.contents writer.new)
        (network_text line fault) }
{
    match fault {
        NetworkFault::Line(fault) => put_line_fault(writer, NETWORK_LINE, line, fault),
        NetworkFault::BadName => put_named_fault(writer, NETWORK_LINE, line, b"BadName"),
        NetworkFault::SecondPort(other) => {
            put_second_fault(writer, NETWORK_LINE, line, b"SecondPort", other)
        }
        NetworkFault::SecondLink(other) => {
            put_second_fault(writer, NETWORK_LINE, line, b"SecondLink", other)
        }
        NetworkFault::SecondClocks(other) => {
            put_second_fault(writer, NETWORK_LINE, line, b"SecondClocks", other)
        }
        NetworkFault::PortTwice(name) => put_twice(writer, line, &name),
        NetworkFault::NoLink(from, to) => put_unlinked(writer, line, &from, &to),
        NetworkFault::NoWay => put_named_fault(writer, NETWORK_LINE, line, b"NoWay"),
    }
}

/// What a fault is that a line of another input may have, too.
fn shared_kind(fault: ScriptFault) -> LineKind
    ensures { result ≡ shared_kind fault }
{
    match fault {
        ScriptFault::UnknownLine => LineKind::UnknownNetworkLine,
        other => other.kind_in_table(),
    }
}

impl NetworkFault {
    /// What it is.
    fn kind(self) -> LineKind
        ensures { result ≡ line_kind_of self }
    {
        match self {
            NetworkFault::Line(fault) => shared_kind(fault),
            NetworkFault::BadName => LineKind::BadName,
            NetworkFault::SecondPort(_) => LineKind::SecondPort,
            NetworkFault::SecondLink(_) => LineKind::SecondLink,
            NetworkFault::SecondClocks(_) => LineKind::SecondClocks,
            NetworkFault::PortTwice(_) => LineKind::PortTwice,
            NetworkFault::NoLink(..) => LineKind::NoLink,
            NetworkFault::NoWay => LineKind::NoWay,
        }
    }
}

impl InputFault for BadNetwork {
    ghost telling = { network_telling };

    ghost kind_of = { network_kind };

    fn status(&self) -> u8 {
        3
    }

    fn kind(&self) -> FaultKind {
        FaultKind::Line(self.fault.kind())
    }

    fn put<W: Write>(&self, writer: &mut W) -> Result<(), WriteFault> {
        put_network_fault(writer, self.line, self.fault)
    }
}
