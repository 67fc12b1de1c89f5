//! What the jobs of the program have in common: why a run ends early, what is reported of that, and how a run ends
//! whose output goes through a buffer.
//!
//! The definitions are specs/Outcome.antt, specs/Report.antt and specs/RunEnd.antt; the contracts of `end_run`,
//! `end_told` and `say_run` cite them.
#![tactic(auto)]

mod fault;
mod halt;
mod input;
mod kind;
mod report;
mod run_end;
mod step;

pub use fault::Fault;
pub use halt::{Halt, halted};
pub use input::{InputFault, LineInput};
pub use kind::{CaptureKind, Errors, FaultKind, LineKind, ValueKind};
pub use report::{Ended, say_fault, say_run};
pub use run_end::{end_run, end_told};
pub use step::next_line;
