//! The waits of frames.

ghost use Rattle.std.specs.Prelude.{◌≡◌};
ghost use Rattle.summary.specs.Observed.{least_with, mean_of, with_wait};

/// How long frames waited from their arrival to their start, in picoseconds.
#[derive(Clone, Copy, Debug, Default, PartialEq, Eq)]
pub struct Waits {
    /// Of how many frames. It stays at the greatest u128.
    pub count: u128,
    /// The least wait.
    pub least: u128,
    /// All waits together. It stays at the greatest u128.
    pub sum: u128,
    /// The greatest wait.
    pub greatest: u128,
}

impl Waits {
    /// The least wait with one more.
    fn least_with(&self, wait: u128) -> u128
        ensures { result ≡ least_with wait self.now }
    {
        if self.count == 0 {
            wait
        } else {
            self.least.min(wait)
        }
    }

    /// These waits and one more.
    pub fn with(&self, wait: u128) -> Waits
        ensures { result ≡ with_wait wait self.now }
    {
        Waits {
            count: self.count.saturating_add(1),
            least: self.least_with(wait),
            sum: self.sum.saturating_add(wait),
            greatest: self.greatest.max(wait),
        }
    }

    /// The mean wait, rounded down; 0 where no frame waited.
    pub fn mean(&self) -> u128
        ensures { result ≡ mean_of self.now }
    {
        if self.count == 0 {
            0
        } else {
            self.sum / self.count
        }
    }
}
