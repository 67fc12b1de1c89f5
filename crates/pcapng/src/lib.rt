//! Captures in pcapng (draft-ietf-opsawg-pcapng) as the classic ones that they come to.
//!
//! `PcapngToClassic` is a `Translation`: a `translated::Translated` with it gives the octets of a classic capture,
//! which `capture::CaptureReader` reads. What the octets of a pcapng come to is defined in specs/Classic.antt.
#![tactic(auto)]

mod any;
mod block;
mod fault;
mod interface;
pub mod laws;
mod number;
mod packet;
mod plain;
mod stage;
mod to_classic;
mod without_fcs;

pub use any::{AnyCapture, CaptureFormat};
pub use block::{MAX_BLOCK_OCTETS, MAX_INTERFACES};
pub use fault::{BlockFault, BlockKind, Note};
pub use to_classic::PcapngToClassic;
pub use without_fcs::WithoutFcs;
