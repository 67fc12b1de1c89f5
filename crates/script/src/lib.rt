//! Runs the lines of a script on a port, and writes what the port answers.
//!
//! The definition is specs/Outcome.antt, over specs/Requests.antt and specs/Responses.antt; the contracts of
//! `run_script` and `answer_script` cite it.
#![tactic(auto)]

mod answering;
mod answers;
mod event_taker;
mod faults;
mod fronts;
pub mod laws;
mod plain;
mod script_job;
mod script_line;
mod script_run;
mod script_walk;
mod settings;
mod summary_lines;
mod watch;

pub use answers::{RunningPort, put_answers, put_tc};
pub use event_taker::EventTaker;
pub use faults::{
    BadLine, RunFault, ScriptFault, limit_fault, put_line_fault, put_value, say_value,
};
pub use script_job::{Values, answer_script, end_with_value, settings_given};
pub use script_line::{Said, read_line, read_tc, read_tc_into};
pub use script_run::run_script;
pub use script_walk::{rests, walk};
pub use settings::{BadValue, Settings};
pub use summary_lines::put_end;
pub use watch::{Basis, Failure, Missed, Sharers, Shares, Unwatched, Watch, tell_command};
