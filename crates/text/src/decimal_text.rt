//! Numbers and texts in decimal that are put at a place of octets, forwards, by stores of a fixed size.
//!
//! The contract of each is a `Placed` of specs/Placed.antt. What is behind the text may change: a number takes room for
//! its last store.
mod digits;
mod near_numbers;
mod numbers;
mod places;

pub use digits::EIGHT_DIGITS;
pub use near_numbers::NearNumbers;
pub use numbers::{
    NUMBER_ROOM, OCTET_ROOM, SHORT_ROOM, put_digit, put_few, put_number, put_octet, put_short,
};
pub use places::put_text;
