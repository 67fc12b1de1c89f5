//! A script and a capture through the port, by moment: a report, and a capture of what left.
//!
//! The definition is specs/Outcome.antt, over specs/Merge.antt and specs/Outputs.antt; the contracts of `replay`
//! and `answer_replay` cite it.
#![tactic(auto)]

mod both_walk;
mod by_events;
mod cursor;
mod end_lines;
mod faults;
mod kept_script;
pub mod laws;
mod line_beside;
mod lines;
mod outputs;
mod queued;
mod replay_job;
mod replay_run;
mod replay_taker;
mod script_reader;
mod sender;
mod shifts;
mod stamps;
mod taker;
mod texts;
mod timing;

pub use both_walk::walk_both;
pub use by_events::ByEvents;
pub use cursor::Cursor;
pub use faults::{ReplayFault, ReplayInput, Stop};
pub use kept_script::{KeptLine, KeptScript};
pub use lines::line_by;
pub use outputs::Outputs;
pub use replay_job::{Inputs, answer_replay};
pub use replay_run::{ended_by, is_too_late, open_capture, replay, replay_timed, run_end};
pub use script_reader::read_script;
pub use shifts::Shift;
pub use stamps::Stamp;
pub use taker::Taker;
pub use texts::say_unopened;
pub use timing::{BadTiming, Timing, say_timing, timing_given};
