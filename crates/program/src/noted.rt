//! What was met in the inputs of a job beside what it answers.

use crate::plain_input::PassedOver;
use pcapng::{AnyCapture, BlockFault};

/// What was met in the inputs of a job.
#[derive(Drop)]
pub struct Noted {
    /// The block of a capture in pcapng that can't be read, if there is one.
    pub(crate) block: Option<BlockFault>,
    /// Whether two captures are read.
    pub(crate) is_of_two: bool,
    /// How many packets came at a moment that is no whole number of nanoseconds.
    pub(crate) rounded: u64,
    /// What was passed over in the lines of a script.
    pub(crate) passed: PassedOver,
}

impl Noted {
    /// Nothing was met.
    pub fn nothing() -> Noted {
        Noted {
            block: None,
            is_of_two: false,
            rounded: 0,
            passed: PassedOver::none(),
        }
    }

    /// What was met in a capture that was turned into a classic one, if it was.
    pub(crate) fn take_capture(&mut self, turned: &Option<AnyCapture>) {
        if let Some(turned) = turned {
            let note = turned.note();
            self.block = note.fault;
            self.rounded = note.rounded;
        }
    }

    /// What was met in two captures: the first fault of either.
    pub(crate) fn take_captures(&mut self, one: &Option<AnyCapture>, two: &Option<AnyCapture>) {
        self.is_of_two = true;
        self.take_capture(two);
        let (block, rounded) = (self.block, self.rounded);
        self.take_capture(one);
        self.block = self.block.or(block);
        self.rounded = self.rounded.saturating_add(rounded);
    }
}
