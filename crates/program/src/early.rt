//! Frames that come before a schedule is in force.

use hints::Early;

/// A second, in picoseconds.
const SECOND: u128 = 1_000_000_000_000;

/// What is seen of the frames that come before the first command is in force, with moments in picoseconds.
#[derive(Clone, Copy, Debug)]
pub(crate) struct Openness {
    /// Whether the next frame has to be looked at: it may be the first one, or the first since a command was in force.
    awaits: bool,
    /// How many frames came.
    came: u64,
    first: u128,
    /// From when on the first command is in force, once one is accepted.
    change: Option<u128>,
    /// How many frames had come when the first one came since a command was in force, once it has.
    met: Option<u64>,
}

impl Openness {
    /// No frame came, and no command is accepted.
    pub fn new() -> Openness {
        Openness {
            awaits: true,
            came: 0,
            first: 0,
            change: None,
            met: None,
        }
    }

    /// A frame comes at a moment. Mostly only their number is counted, since each frame of a run passes here.
    #[inline(always)]
    pub fn come(&mut self, moment: u128) {
        if self.awaits {
            self.look(moment);
        }
        self.came = self.came.wrapping_add(1);
    }

    /// The next frame, which is looked at, comes at a moment.
    #[inline(never)]
    fn look(&mut self, moment: u128) {
        if self.came == 0 {
            self.first = moment;
        }
        match self.change {
            None => self.awaits = false,
            Some(change) if moment >= change => {
                self.awaits = false;
                self.met = Some(self.came);
            }
            Some(_) => {}
        }
    }

    /// A command is accepted, and comes into force at a moment. The first one counts.
    pub fn begin(&mut self, change: u128) {
        if self.change.is_none() {
            self.change = Some(change);
            self.awaits = true;
        }
    }

    /// The frames that came too early, where a command was accepted and some did.
    pub fn early(&self) -> Option<Early> {
        let change = self.change?;
        let count = self.met.unwrap_or(self.came);
        if count == 0 {
            return None;
        }
        Some(Early {
            count,
            first: self.first,
            change,
        })
    }

    /// Whether the run says nothing of the schedule: no frame came once it was in force, or the clocks differ by a second
    /// and more, so that they count from different moments.
    pub fn is_of_no_use(&self) -> bool {
        match self.early() {
            Some(early) => self.met.is_none() || early.change.saturating_sub(early.first) >= SECOND,
            None => false,
        }
    }
}
