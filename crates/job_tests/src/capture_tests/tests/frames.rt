//! The frames that records are of.

use capture::{Record, frame_of};
use std::test::Fail;
use wire_time::Frame;

fn record<'a>(octets: &'a [u8], captured: u32, original: u32) -> Record<'a> {
    Record {
        moment: 0,
        captured,
        original,
        octets,
    }
}

fn untagged(len: u32) -> Frame {
    Frame {
        id: 7,
        priority: 0,
        len,
        tagged: false,
    }
}

fn tagged(priority: u8, len: u32) -> Frame {
    Frame {
        id: 7,
        priority,
        len,
        tagged: true,
    }
}

/// The number of the first row whose frame is another: octets, how many were captured, how many the frame had, and the
/// frame.
fn first_frame_to_differ(rows: &[(&[u8], u32, u32, Frame)]) -> Option<usize> {
    for (number, (octets, captured, original, frame)) in rows.iter().enumerate() {
        if frame_of(&record(octets, *captured, *original), 7) != *frame {
            return Some(number);
        }
    }
    None
}

#[test]
fn frames_have_a_customer_tag_or_none(rt: HostRuntime) -> Result<(), Fail> {
    // Priority 3 and VLAN 5, priority 7 with the drop eligible bit, and a priority tag: VLAN 0.
    let three = [2, 0, 0, 0, 0, 2, 2, 0, 0, 0, 0, 1, 0x81, 0, 0x60, 5, 8, 0];
    let seven = [
        2, 0, 0, 0, 0, 2, 2, 0, 0, 0, 0, 1, 0x81, 0, 0xff, 0xff, 8, 0,
    ];
    let priority = [2, 0, 0, 0, 0, 2, 2, 0, 0, 0, 0, 1, 0x81, 0, 0xa0, 0, 8, 0];
    let plain = [2, 0, 0, 0, 0, 2, 2, 0, 0, 0, 0, 1, 8, 0, 0x81, 0, 0x60, 5];
    // A service tag, and after it a customer tag.
    let double = [
        2, 0, 0, 0, 0, 2, 2, 0, 0, 0, 0, 1, 0x88, 0xa8, 0x60, 5, 0x81, 0, 0xa0, 5, 8, 0,
    ];
    // Half of the type.
    let half = [2, 0, 0, 0, 0, 2, 2, 0, 0, 0, 0, 1, 0x81, 1, 0x60, 5, 8, 0];
    let other = [2, 0, 0, 0, 0, 2, 2, 0, 0, 0, 0, 1, 0x80, 0, 0x60, 5, 8, 0];
    let rows: [(&[u8], u32, u32, Frame); 11] = [
        (&three, 18, 60, tagged(3, 60)),
        (&seven, 18, 60, tagged(7, 60)),
        (&priority, 18, 60, tagged(5, 60)),
        (&plain, 18, 60, untagged(60)),
        (&double, 22, 64, untagged(64)),
        (&half, 18, 60, untagged(60)),
        (&other, 18, 60, untagged(60)),
        // Frames that are short.
        (&three[..16], 16, 16, tagged(3, 16)),
        (&three[..15], 15, 10, untagged(15)),
        (&three[..15], 15, 60, untagged(60)),
        (&three[..0], 0, 0, untagged(0)),
    ];
    assert_eq!(rt; first_frame_to_differ(&rows), None);
    Ok(())
}
