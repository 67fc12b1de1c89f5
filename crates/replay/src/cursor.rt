//! A place in a kept script.

ghost use Rattle.std.specs.Prelude.{◌≤◌};
ghost use Rattle.capture.specs.declared.writer.TheConstants.{CAPTURE_END};

/// Where a kept script stands: so many of its lines are answered.
#[derive(Clone, Copy, Debug, PartialEq, Eq)]
pub struct Cursor {
    /// How many lines are answered.
    pub at: usize,
    /// The greatest clock number among them, or 0, in picoseconds.
    pub clock: u128,
    ghost early: { clock ≤ CAPTURE_END },
}
