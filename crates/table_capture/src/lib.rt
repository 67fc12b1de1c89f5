//! The frames of a table of streams as a capture, which a port can take as its input.
//!
//! The definition is specs/Outcome.antt, over specs/Octets.antt and specs/Carried.antt; the contracts of
//! `write_capture` and `answer_capture` cite it. That who reads the capture finds the frames is `laws::capture_law`.
#![tactic(auto)]

mod capture_job;
mod carried;
mod frame_octets;
mod kept;
pub mod laws;
mod records;

pub use capture_job::{answer_capture, write_capture};
