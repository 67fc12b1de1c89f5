//! What a port is told, and what it answers, as lines.
#![tactic(auto)]

pub mod answer_text;
pub mod tc_reader;
