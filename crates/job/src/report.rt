//! What is reported of a run.

ghost use Rattle.std.specs.Prelude.{◌≡◌, IfErr};
ghost use Rattle.text.specs.Writes.{Writes};
ghost use Rattle.job.specs.Kinds.{fault_kind};
ghost use Rattle.job.specs.Texts.{IsTold, fault_status, fault_text, run_status, run_text};

use crate::fault::Fault;
use crate::input::InputFault;
use crate::kind::{Errors, FaultKind};
use std::io::Write;
use text::octet_writer::{WriteFault, put};

fn put_fault<I: InputFault, W: Write>(fault: &Fault<I>, writer: &mut W) -> Result<(), WriteFault>
    ensures { Writes result (W.contents writer.old) (W.contents writer.new)
        (fault_text I.telling fault.now) }
{
    match fault {
        Fault::Input(fault) => fault.put(writer),
        Fault::Read => put(writer, b"taprio_port: read failed\n"),
        Fault::Write => put(writer, b"taprio_port: write failed\n"),
        Fault::Memory => put(writer, b"taprio_port: out of memory\n"),
    }
}

fn status_of<I: InputFault>(fault: &Fault<I>) -> u8
    ensures { result ≡ fault_status I.telling fault.now }
{
    match fault {
        Fault::Input(fault) => fault.status(),
        Fault::Read | Fault::Write | Fault::Memory => 4,
    }
}

/// What a fault is.
fn kind_of<I: InputFault>(fault: &Fault<I>) -> FaultKind
    ensures { result ≡ fault_kind I.kind_of fault.now }
{
    match fault {
        Fault::Input(fault) => fault.kind(),
        Fault::Read => FaultKind::ReadFailed,
        Fault::Write => FaultKind::WriteFailed,
        Fault::Memory => FaultKind::OutOfMemory,
    }
}

/// How a run of the program ends: its exit status, and whether the text that goes with it was written whole.
#[derive(Clone, Copy, Debug, PartialEq, Eq)]
pub struct Ended {
    /// 0 done, 1 a strict run has found something, 2 a value is refused, 3 the input is, 4 a read, a write or memory
    /// failed.
    pub status: u8,
    /// Whether all of the text was written; else a prefix of it was.
    pub told: bool,
}

/// Writes the text of a fault. The exit status that goes with it, also where that write fails.
pub fn say_fault<I: InputFault, W: Write>(fault: &Fault<I>, writer: &mut W) -> Ended
    ensures status { result.status ≡ fault_status I.telling fault.now }
    ensures told { IsTold result.told (W.contents writer.old) (W.contents writer.new)
        (fault_text I.telling fault.now) }
{
    let told = put_fault(fault, writer).is_ok();
    Ended {
        status: status_of(fault),
        told,
    }
}

/// Reports how a run ended: a fault's text and what it was, where there is one, and the status.
pub fn say_run<I: InputFault, E: Errors>(run: Result<(), Fault<I>>, errors: &mut E) -> Ended
    ensures status { result.status ≡ run_status I.telling run }
    ensures told { IsTold result.told (E.contents errors.old) (E.contents errors.new)
        (run_text I.telling run) }
    ensures known { IfErr run (λ fault. E.knows errors.new (fault_kind I.kind_of fault)) }
{
    match run {
        Ok(()) => Ended {
            status: 0,
            told: true,
        },
        Err(fault) => {
            let ended = say_fault(&fault, errors);
            errors.found(kind_of(&fault));
            ended
        }
    }
}
