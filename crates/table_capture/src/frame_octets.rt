//! The octets of a frame, in room for the longest.

ghost use Rattle.std.specs.Prelude.{◌≡◌, ◌<◌, ◌≤◌, ◌++◌, drop, length, take, true, false};
ghost use Rattle.table_capture.specs.Words.{MAX_RECORD_OCTETS, IsRoom, captured_of, filled, frame_octets, front_of, has_tag};
ghost use Rattle.table_capture.specs.declared.frame_octets.TheConstants.{FRONT};

use crate::carried::has_tag;
use byteorder::{BigEndian, ByteOrder};
use capture::MAX_RECORD_OCTETS;
use wire_time::Frame;

/// Octets of the longest front of a frame: the addresses, a tag, the type and the id.
pub(crate) const FRONT: usize = 26;

/// The front of a frame that has a tag, with the priority 0 and the id 0. The addresses are locally administered, and
/// the type is that of local experiments.
const TAGGED: [u8; FRONT] = [
    0x02, 0x00, 0x00, 0x00, 0x00, 0x02, 0x02, 0x00, 0x00, 0x00, 0x00, 0x01, 0x81, 0x00, 0x00, 0x00,
    0x88, 0xb5, 0x00, 0x00, 0x00, 0x00, 0x00, 0x00, 0x00, 0x00,
];

/// The front of a frame that has none, with the id 0, and zeros behind it.
const UNTAGGED: [u8; FRONT] = [
    0x02, 0x00, 0x00, 0x00, 0x00, 0x02, 0x02, 0x00, 0x00, 0x00, 0x00, 0x01, 0x88, 0xb5, 0x00, 0x00,
    0x00, 0x00, 0x00, 0x00, 0x00, 0x00, 0x00, 0x00, 0x00, 0x00,
];

/// The front of a frame that has a tag.
fn tagged_front(frame: &Frame) -> [u8; FRONT]
    requires priority { frame.now.priority < 8 }
    requires tag { has_tag frame.now.tagged frame.now.priority ≡ true }
    ensures { result ≡ filled FRONT (front_of frame.now) }
{
    let mut front = TAGGED;
    front[14] = frame.priority * 32;
    BigEndian::write_u64(&mut front[18..], frame.id);
    front
}

/// The front of a frame that has none, and zeros behind it.
fn untagged_front(frame: &Frame) -> [u8; FRONT]
    requires { has_tag frame.now.tagged frame.now.priority ≡ false }
    ensures { result ≡ filled FRONT (front_of frame.now) }
{
    let mut front = UNTAGGED;
    BigEndian::write_u64(&mut front[14..], frame.id);
    front
}

/// The front of a frame, and zeros behind it.
fn front_of(frame: &Frame) -> [u8; FRONT]
    requires { frame.now.priority < 8 }
    ensures { result ≡ filled FRONT (front_of frame.now) }
{
    if has_tag(frame.tagged, frame.priority) {
        tagged_front(frame)
    } else {
        untagged_front(frame)
    }
}

/// Puts octets at the front of room.
fn put_octets(room: &mut [u8], front: &[u8])
    requires { length front.now ≤ length room.old }
    ensures { room.new ≡ front.now ++ drop (length front.now) room.old }
{
    room[..front.len()].copy_from_slice(front);
}

/// Puts the front of a frame at the front of room, and zeros behind it.
pub(crate) fn put_front(room: &mut [u8], frame: &Frame)
    requires room { IsRoom room.old }
    requires priority { frame.now.priority < 8 }
    ensures room { IsRoom room.new }
    ensures front { take FRONT room.new ≡ filled FRONT (front_of frame.now) }
{
    let front = front_of(frame);
    put_octets(room, &front);
}

/// The octets of a frame that are captured, in room that has its front.
pub(crate) fn frame_octets<'a>(room: &'a [u8], frame: &Frame) -> &'a [u8]
    requires room { IsRoom room.now }
    requires front { take FRONT room.now ≡ filled FRONT (front_of frame.now) }
    ensures octets { result.now ≡ frame_octets frame.now }
    ensures captured { length result.now ≡ captured_of frame.now.len }
{
    &room[..frame.len.min(MAX_RECORD_OCTETS) as usize]
}
