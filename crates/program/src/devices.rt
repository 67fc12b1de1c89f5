//! The devices of the commands that a port is given.

use arrayvec::ArrayVec;
use pasted::device_in;

/// How many octets of a name are kept, to be shown: a device has 15 at most (netdevice(7)).
const NAME: usize = 64;

/// A command's line: its number, and the device that it names.
#[derive(Drop)]
pub(crate) struct Named {
    pub number: u32,
    pub name: ArrayVec<u8, NAME>,
}

/// The line of a command with this number, where it names a device.
pub(crate) fn named_in(number: u32, line: &[u8]) -> Option<Named> {
    let device = device_in(line)?;
    let mut name = ArrayVec::new();
    let (front, _) = device.split_at(device.len().min(NAME));
    let _ = name.try_extend_from_slice(front);
    Some(Named { number, name })
}
