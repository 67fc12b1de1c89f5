//! What was passed over of other devices.

ghost use Rattle.std.specs.Prelude.{◌≡◌, [], take};
ghost use Rattle.pasted.specs.declared.others.TheConstants.{MAX_NAME};

use arrayvec::ArrayVec;

/// How many octets of a name are kept.
pub const MAX_NAME: usize = 64;

/// The lines of tc of other devices that were passed over, each with those that it joins.
#[derive(Clone, Drop)]
pub struct Others {
    /// How many, at most `u64::MAX`.
    pub lines: u64,
    /// The number of the first physical line of the first of them, from 1; 0 where there is none.
    pub first: u64,
    /// The device of that line, at most `MAX_NAME` octets of it.
    pub name: ArrayVec<u8, MAX_NAME>,
}

/// The front of a name, as far as it is kept.
fn kept_name(device: &[u8]) -> ArrayVec<u8, MAX_NAME>
    ensures { result.items ≡ take MAX_NAME device.now }
{
    let mut name = ArrayVec::new();
    for octet in device {
        if name.is_full() {
            return name;
        }
        name.push(*octet);
    }
    name
}

impl Others {
    ghost use Rattle.pasted.specs.OthersNoted.{IsCounted};

    /// None was passed over.
    pub fn none() -> Others
        ensures lines { result.lines ≡ 0 }
        ensures first { result.first ≡ 0 }
        ensures name { result.name.items ≡ [] }
    {
        Others {
            lines: 0,
            first: 0,
            name: ArrayVec::new(),
        }
    }

    /// One line more, of this number and device.
    pub(crate) fn count(&mut self, number: u64, device: &[u8])
        ensures { IsCounted self.old number device.now self.new }
    {
        if self.lines == 0 {
            self.first = number;
            self.name = kept_name(device);
        }
        self.lines = self.lines.saturating_add(1);
    }
}
