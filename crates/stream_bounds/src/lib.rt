//! How long the frames of streams wait, for ever: for each schedule command, the verdict about each class of a table of
//! streams, and the least and the greatest delay of each stream.
//!
//! The claim is specs/Verdicts.antt, and specs/Answers.antt of all classes. What is written is specs/Outcome.antt, over specs/BoundLines.antt; the contracts
//! of `bounds` and `answer_bounds` cite it.
#![tactic(auto)]

mod answers;
mod bounds_job;
mod bounds_report;
mod busy;
mod case;
mod class_answer;
mod class_lines;
mod classes;
mod extras;
mod faults;
mod notes;
mod premise_lines;
mod settings;
mod shared;
mod shares;
mod slack;
mod standing;
mod stream_lines;
mod table;
mod table_bounds;
mod verdicts;

pub use bounds_job::{BoundsWords, answer_bounds, bounds_given, end_with_bounds_value};
pub use case::Case;
pub use class_answer::{ClassAnswer, unbounded, windows_answer};
pub use class_lines::put_class;
pub use classes::{class_of, dropped_of};
pub use faults::{Answered, BoundsFault, BoundsInput, Finding};
pub use premise_lines::put_premises;
pub use settings::{BoundsSettings, BoundsValue, MAX_FRAMES};
pub use shared::sharing_answer;
pub use standing::{Standing, standing_of};
pub use stream_lines::needs_of;
pub use table::PeriodicStreams;
pub use table_bounds::bounds;
pub use verdicts::{Met, Needs, Verdict, plus};
