//! What a run comes to: how long the frames of each class waited, and how long the wire was busy.
//!
//! The definitions are specs/Observed.antt and specs/Lines.antt; the contract of `Summary` cites them.
#![tactic(auto)]

mod class_summary;
pub mod laws;
mod lines;
mod tally;
mod waits;
mod wanted;

pub use tally::Summary;
pub use waits::Waits;
pub use wanted::{note, note_installation, note_start, note_verdict, summary_wanted};
