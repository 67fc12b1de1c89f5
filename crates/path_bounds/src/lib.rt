//! The bounds of streams that go through several ports: each class of a port is judged by what the ports before it
//! send, one after another.
//!
//! What is known of a stream at a port is specs/Hops.antt, the answer about a class there specs/Answers.antt, and in
//! what order classes are judged specs/Judged.antt; the contract of `judge_all` cites it.
#![tactic(auto)]

mod hop;
mod judge;
mod pass;
mod standings;
mod start;
mod tables;

pub use hop::{Coming, Hop, PathPort, Span, coming_of, entry_of, first_span, greatest_of, moved};
pub use judge::{Judgement, MOST_PORTS, judge_all};
pub use standings::{PairVerdict, verdict_at};
pub use start::{WayHop, start_hops};
pub use tables::{has_own, is_at};
