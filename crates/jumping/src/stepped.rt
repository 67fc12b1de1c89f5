//! The gates of a port by a cycle timer and a walk of the list in force, which go from boundary to boundary.
//!
//! The contract of `Stepped` is that of the trait `Gates` in `list_config`.
mod stepped_gates;

pub use stepped_gates::Stepped;
