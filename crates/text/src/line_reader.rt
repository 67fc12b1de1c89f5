//! The lines of a script, as its octets come.
//!
//! The definitions are specs/Script.antt and specs/LineReader.antt; the contract of `LineReader` cites them.
mod feeds;
pub mod laws;
mod lines;
mod source;

pub use lines::{Limit, LineFault, LineReader, MAX_LINE_OCTETS, MAX_LINES};
