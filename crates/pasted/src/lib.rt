//! Lines of `tc` as people paste them, and the lines of one device, as translations of octets.
//!
//! `Tolerant` gives the plain lines that pasted ones mean, `OfDevice` the `tc` lines of one device. What each of them
//! gives is a definition of specs/: Plain.antt and Device.antt, a line at a time by Lines.antt.
#![tactic(auto)]

mod device;
mod ends;
mod fronts;
pub mod laws;
mod line_rule;
mod line_words;
mod lines;
mod note;
mod of_device;
mod others;
mod place;
mod plain;
mod readers;
mod roles;
mod runs;
mod tail;
mod tolerant;
mod words;

pub use device::device_in;
pub use line_rule::{Line, LineRule};
pub use lines::Lines;
pub use note::{Marks, Note, Passed};
pub use of_device::OfDevice;
pub use others::{MAX_NAME, Others};
pub use place::Place;
pub use readers::{device_reader, tolerant_reader};
pub use roles::Role;
pub use tail::{LongRun, Tail};
pub use tolerant::Tolerant;
