//! Why a run ends without a plan.

ghost use Rattle.std.specs.Prelude.{◌≡◌};
ghost use Rattle.plan.specs.Faults.{network_fault, plan_kind, plan_telling, table_fault};

use crate::reasons::Reason;
use job::{Fault, FaultKind, InputFault};
use network::network_table::{BadNetwork, NetworkRunFault};
use port_text::answer_text::{WriteFault, put};
use script::{RunFault, ScriptFault, put_line_fault};
use std::io::Write;
use thiserror::Error;

/// What is wrong with a table.
#[derive(Clone, Copy, Debug, PartialEq, Eq, Error)]
pub enum PlanInput {
    /// The line of the table of this number, counted in physical lines from 1, has this fault. Nothing is written.
    #[error("line {0} of the table: {1:?}")]
    Table(u32, ScriptFault),
    /// A line of the network has this fault. Nothing is written.
    #[error("the network: {0:?}")]
    Network(BadNetwork),
    /// The table has too many octets. Nothing is written.
    #[error("the table has too many octets")]
    Large,
    /// No schedule is found, for this reason, which is written.
    #[error("no schedule is found: {0:?}")]
    Without(Reason),
}

/// Why a run ends without a plan.
pub type PlanFault = Fault<PlanInput>;

/// A fault that reading a table has, as one of the job.
pub(crate) fn table_fault(fault: RunFault) -> PlanFault
    ensures { result ≡ table_fault fault }
{
    match fault {
        Fault::Input(bad) => Fault::Input(PlanInput::Table(bad.line, bad.fault)),
        Fault::Read => Fault::Read,
        Fault::Write => Fault::Write,
        Fault::Memory => Fault::Memory,
    }
}

/// A fault that reading a network has, as one of the job.
pub(crate) fn network_fault(fault: NetworkRunFault) -> PlanFault
    ensures { result ≡ network_fault fault }
{
    match fault {
        Fault::Input(bad) => Fault::Input(PlanInput::Network(bad)),
        Fault::Read => Fault::Read,
        Fault::Write => Fault::Write,
        Fault::Memory => Fault::Memory,
    }
}

impl InputFault for PlanInput {
    ghost telling = { plan_telling };

    ghost kind_of = { plan_kind };

    fn status(&self) -> u8 {
        match self {
            PlanInput::Table(..) | PlanInput::Network(_) | PlanInput::Large => 3,
            PlanInput::Without(_) => 1,
        }
    }

    fn kind(&self) -> FaultKind {
        match *self {
            PlanInput::Table(_, fault) => FaultKind::Line(fault.kind_in_table()),
            PlanInput::Network(bad) => bad.kind(),
            PlanInput::Large | PlanInput::Without(_) => FaultKind::Found,
        }
    }

    fn put<W: Write>(&self, writer: &mut W) -> Result<(), WriteFault> {
        match *self {
            PlanInput::Table(line, fault) => {
                put_line_fault(writer, b"taprio_port: table line ", line, fault)
            }
            PlanInput::Network(bad) => bad.put(writer),
            PlanInput::Large => put(
                writer,
                b"taprio_port: plan: the table has more than 16777216 octets\n",
            ),
            PlanInput::Without(_) => put(writer, b"taprio_port: plan: no schedule is found\n"),
        }
    }
}
