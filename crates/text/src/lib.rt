//! Lines of text, as they are read and written: words, numbers and times of a line, and a reader and a writer of lines.
#![tactic(auto)]

pub mod decimal_text;
pub mod line_reader;
pub mod octet_writer;
pub mod times;
pub mod words;
