//! The words of a line, and the numbers that words are.
//!
//! The definitions are specs/Words.antt and specs/Numbers.antt; the contracts of `Words` and of the readers of
//! numbers cite them.
mod cursor;
pub mod laws;
mod numbers;

pub use cursor::Words;
pub use numbers::{front_digit, front_number, front_short, hex_number, is_digits, number};
