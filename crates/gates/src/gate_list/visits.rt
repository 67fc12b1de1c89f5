//! Counts of the entries that are looked at.
ghost use Rattle.std.specs.Prelude.{◌≡◌};
ghost use Rattle.gates.specs.Visits.{AddsVisits, one_more};

use std::marker::Model;

/// Counts the entries that are looked at. It stays at the greatest u64.
#[derive(Clone, Copy, Debug, PartialEq, Eq)]
pub struct Visits {
    count: u64,
}

/// A contract sees the count alone.
impl Model for Visits {
    ghost use Rattle.std.specs.Prelude.{ℕ};

    ghost Value = { ℕ };

    ghost view = { λ v. v.count };

    ghost inverse = { λ n. record { count = n } };
}

impl Visits {
    /// A counter that stands at 0.
    pub fn zero() -> Visits
        ensures { result ≡ 0 }
    {
        Visits { count: 0 }
    }

    /// How many entries were looked at.
    pub fn count(&self) -> u64
        ensures { result ≡ self.now }
    {
        self.count
    }

    /// Counts one entry.
    pub fn add(&mut self)
        ensures exact { self.new ≡ one_more self.old }
        ensures bound { AddsVisits self.old self.new 1 }
    {
        self.count = self.count.saturating_add(1);
    }
}
