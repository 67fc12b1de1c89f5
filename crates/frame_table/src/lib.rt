//! The table of the frames of a script: of each its class, its length, when it came, started and ended, how long it
//! waited, and its fate.
//!
//! The definition is specs/Rows.antt, with its text in specs/RowText.antt; the contracts of `run_frames` and
//! `answer_frames` cite it by specs/Outcome.antt, and what who watches is told is specs/Alerts.antt. Those of
//! `run_frames_by_stream` and `answer_frames_by_stream`, which also say of which stream of a table a frame is
//! (specs/StreamOf.antt) and whether it is in time for that stream's deadline (specs/Deadline.antt), cite it by
//! specs/ByStream.antt. Those of `run_frames_of_capture` and `answer_frames_of_capture`, for the frames of a replay, cite
//! it by specs/OfCapture.antt.
#![tactic(auto)]

mod arrivals;
mod by_stream;
mod capture_run;
mod deadline;
mod frames_job;
pub mod laws;
mod rows;
mod streams;
mod table_run;
mod tabled;

pub use by_stream::run_frames_by_stream;
pub use capture_run::run_frames_of_capture;
pub use frames_job::{answer_frames, answer_frames_by_stream, answer_frames_of_capture};
pub use rows::{Arrival, Fate, FrameRow};
pub use table_run::run_frames;
