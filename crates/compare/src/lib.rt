//! Two captures, or two tables of frames, compared frame by frame.
//!
//! What a frame of an input is stands in specs/Frames.antt, which frames are compared with each other in specs/Pairs.antt,
//! and the text in specs/Lines.antt; the contract of `answer_compare` cites them by specs/Outcome.antt and
//! specs/CompareEnd.antt. The law of `laws` says what the keys of octets are worth.
#![tactic(auto)]

mod compare_job;
mod counted;
mod faults;
mod fields;
mod frame;
mod input;
pub mod laws;
mod lines;
mod pairs;
mod payloads;
mod places;
mod records;
mod settings;
mod table;
mod tally;

pub use compare_job::{answer_compare, compare};
pub use counted::NthFrame;
pub use faults::{CompareFault, CompareInput, Finding, RecordFault, Side, TableFault, Trouble};
pub use frame::Frame;
pub use pairs::Comparison;
pub use settings::{By, CompareSettings, by_given, within_given};
pub use table::Columns;
