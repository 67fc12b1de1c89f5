//! The octets of frames that wait in the eight queues of a port, beside the queues: first in, first out in each class.
//!
//! The contract is that of each call of `OctetStore`, in the terms of specs/Stored.antt.
mod class_octets;
mod queue;
mod store;

pub use class_octets::First;
pub use store::OctetStore;

/// The most octets that are kept of one frame: those of the longest record of a capture.
pub const MAX_OCTETS: usize = crate::MAX_RECORD_OCTETS as usize;
