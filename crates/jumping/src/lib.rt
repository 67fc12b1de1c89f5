//! The gates of a port that pass whole cycles by division: what a step looks at doesn't grow with how far the clock
//! goes.
//!
//! The contract of `Jumping` is that of the trait `Gates` in `list_config`; how a search goes is specs/Search.antt.
#![tactic(auto)]

pub mod accepted_commands;
mod alone;
mod jumping_gates;
pub mod list_position;
mod search;
pub mod stepped;

pub use jumping_gates::Jumping;
