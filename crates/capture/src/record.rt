//! A record, and the frame that it is of.

ghost use Rattle.std.specs.Prelude.{◌≡◌, ◌/◌, Some, None, slice_index, if◌then◌else◌};
ghost use Rattle.capture.specs.Words.{entry, is_tagged, frame_of};

use wire_time::Frame;

/// The type of a customer tag (IEEE Std 802.1Q-2018, table 9-1).
const CUSTOMER_TAG: [u8; 2] = [0x81, 0x00];

/// A record, which lends its octets from the reader's buffer.
#[derive(Clone, Copy, Debug)]
pub struct Record<'a> {
    /// When the frame came, in picoseconds.
    pub moment: u128,
    /// How many octets of the frame were captured.
    pub captured: u32,
    /// How many octets the frame had.
    pub original: u32,
    /// The octets that were captured, from the destination address on.
    pub octets: &'a [u8],
}

/// The priority in the customer tag, if one stands there whole.
fn tag_priority(octets: &[u8]) -> Option<u8>
    ensures { result
        ≡ (if is_tagged octets.now then Some (slice_index octets.now 14 / 32) else None) }
{
    if octets.len() >= 16 && octets[12] == CUSTOMER_TAG[0] && octets[13] == CUSTOMER_TAG[1] {
        Some(octets[14] >> 5)
    } else {
        None
    }
}

/// The frame that a record is of.
///
/// Its length is the longer of the two lengths. It is tagged where at least 16 octets are captured and 81 00 stands
/// after the addresses; its priority is then the three high bits after that. Any other frame has priority 0, also one
/// that was captured up to its tag alone and one with a service tag (88 a8).
pub fn frame_of(record: &Record<'_>, id: u64) -> Frame
    ensures { result ≡ frame_of (entry record.now) id }
{
    let priority = tag_priority(record.octets);
    Frame {
        id,
        priority: priority.unwrap_or(0),
        len: record.captured.max(record.original),
        tagged: priority.is_some(),
    }
}
