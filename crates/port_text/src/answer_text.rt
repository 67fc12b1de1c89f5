//! The text of a port's answers, and the writing of text.
//!
//! The text is defined in specs/Lines.antt and specs/Reports.antt; `put_answer` and its neighbours promise to write
//! it.
mod event_lines;
mod lines;
mod names;
mod report_lines;
mod reports;
mod span;
mod text_writer;

pub use lines::{
    put_answer, put_arrival, put_counters, put_installation, put_left, put_refused, put_start,
    put_tc_fault,
};
pub use names::dropped_name;
pub use reports::put_report;
pub use text::decimal_text::NearNumbers;
pub use text::octet_writer::{WriteFault, put};
pub use text_writer::{Part, put_parts};
