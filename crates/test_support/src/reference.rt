//! A slow implementation of the gates, by the definitions: it keeps the list of accepted commands that count, and asks
//! for the mask at every picosecond.
//!
//! Its contract is that of the trait `Gates` in `list_config`; what it keeps is specs/Plain.antt.
mod accepted;
mod history;
mod plain;

pub use plain::Plain;
