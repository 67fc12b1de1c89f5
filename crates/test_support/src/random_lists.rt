//! Numbers that look random, and short gate control lists made of them. Nothing but tests stands on them.
//!
//! The contracts say how large its numbers are.
ghost use Rattle.std.specs.Prelude.{◌≤◌, ◌<◌, ◌+◌};

use gates::gate_list::{Entry, GateList};

/// Numbers that look random, from a seed.
#[derive(Clone, Copy)]
pub struct Numbers {
    state: u64,
}

impl Numbers {
    pub fn new(seed: u64) -> Numbers {
        Numbers { state: seed }
    }

    /// The next number below 2^31.
    pub fn draw(&mut self) -> u32
        ensures { result < 2147483648 }
    {
        self.state = self
            .state
            .wrapping_mul(6364136223846793005)
            .wrapping_add(1442695040888963407);
        (self.state >> 33) as u32
    }

    /// The next number from `least` on, one of so many.
    pub fn between(&mut self, least: u32, many: u32) -> u32
        requires some { 0 < many }
        requires low { least ≤ 1000000 }
        requires few { many ≤ 1000000 }
        ensures least { least ≤ result }
        ensures below { result < least + many }
    {
        least + self.draw() % many
    }

    /// One to three entries of 4 to 12 nanoseconds.
    pub fn list(&mut self) -> Option<GateList> {
        let mut entries = [Entry {
            mask: 0,
            interval: 4,
        }; 3];
        for entry in entries.iter_mut() {
            *entry = Entry {
                mask: self.between(0, 256) as u8,
                interval: self.between(4, 9),
            };
        }
        let many = self.between(1, 3) as usize;
        GateList::new(&entries[..many]).ok()
    }
}
