//! Traffic by streams: a table of streams becomes a script with the frames of all of them, and with the lines of
//! another script among them.
//!
//! The definition is specs/Outcome.antt, over specs/Table.antt, specs/Frames.antt, specs/Merge.antt and
//! specs/Room.antt; the contracts of `write_streams` and `answer_streams` cite it.
#![tactic(auto)]

mod course;
mod draws;
mod faults;
mod frame_count;
mod frame_lines;
mod kept;
pub mod laws;
mod merge;
mod parts;
mod plan;
mod room;
mod streams;
mod streams_job;
mod table;
mod table_reader;
mod tournament;
mod turn;
mod turns;

pub use course::Coming;
pub use faults::{StreamsFault, StreamsInput, table_fault};
pub use frame_count::FrameCount;
pub use kept::turns_of;
pub use plan::{Plan, Timing, greatest_offset};
pub use streams::write_streams;
pub use streams_job::{StreamsWords, answer_streams, plan_given};
pub use table::{Stream, earliest, has_ids, read_stream_line, tell_stream};
pub use table_reader::{StreamTaker, Untaken, read_table};
pub use tournament::{Node, tournament as tournament_of};
pub use turn::Turn;
pub use turns::next_frame;
