//! Classic pcap files (pcap-savefile(5)): captures of Ethernet frames, read record by record, and written.
//!
//! The format is defined in specs/FileHeader.antt, specs/Records.antt and specs/Captures.antt; the contracts of
//! `CaptureReader` and `CaptureWriter` cite it.
#![tactic(auto)]

mod fault;
mod format;
mod header;
pub mod laws;
pub mod octet_store;
mod read_ahead;
mod reader;
mod record;
mod writer;

pub use fault::CapFault;
pub use format::{Endian, Format, MAX_RECORD_OCTETS, MAX_RECORDS, RecordHeader, Resolution};
pub use reader::{CaptureReader, End};
pub use record::{Record, frame_of};
pub use writer::{CAPTURE_END, CaptureWriter};
