//! What a comparison comes to.

ghost use Rattle.std.specs.Prelude.{◌≡◌, count_by, find};
ghost use Rattle.compare.specs.Outcome.{found_in, offence, offends};
ghost use Rattle.compare.specs.Pairs.{difference, greatest_difference, is_earlier, is_later, is_missing, is_pair, is_same, is_surplus};

use crate::faults::Finding;
use crate::pairs::Comparison;

impl Comparison {
    /// By how many picoseconds the moments of a pair differ; 0 of a frame without a partner.
    pub fn difference(&self) -> u128
        ensures { result ≡ difference self.now }
    {
        match self {
            Comparison::Pair(a, b) => a.moment.abs_diff(b.moment),
            Comparison::Missing(_) | Comparison::Extra(_) => 0,
        }
    }

    /// Whether it is a pair.
    pub fn is_pair(&self) -> bool
        ensures { result ≡ is_pair self.now }
    {
        match self {
            Comparison::Pair(..) => true,
            Comparison::Missing(_) | Comparison::Extra(_) => false,
        }
    }

    fn is_missing(&self) -> bool
        ensures { result ≡ is_missing self.now }
    {
        match self {
            Comparison::Missing(_) => true,
            Comparison::Pair(..) | Comparison::Extra(_) => false,
        }
    }

    fn is_surplus(&self) -> bool
        ensures { result ≡ is_surplus self.now }
    {
        match self {
            Comparison::Extra(_) => true,
            Comparison::Pair(..) | Comparison::Missing(_) => false,
        }
    }

    fn is_later(&self) -> bool
        ensures { result ≡ is_later self.now }
    {
        match self {
            Comparison::Pair(a, b) => a.moment < b.moment,
            Comparison::Missing(_) | Comparison::Extra(_) => false,
        }
    }

    fn is_earlier(&self) -> bool
        ensures { result ≡ is_earlier self.now }
    {
        match self {
            Comparison::Pair(a, b) => b.moment < a.moment,
            Comparison::Missing(_) | Comparison::Extra(_) => false,
        }
    }

    fn is_same(&self) -> bool
        ensures { result ≡ is_same self.now }
    {
        match self {
            Comparison::Pair(a, b) => a.moment == b.moment,
            Comparison::Missing(_) | Comparison::Extra(_) => false,
        }
    }

    /// Whether it is a frame without a partner, or a pair whose moments differ by more picoseconds than this.
    fn offends(&self, within: u128) -> bool
        ensures { result ≡ offends within self.now }
    {
        match self {
            Comparison::Pair(a, b) => a.moment.abs_diff(b.moment) > within,
            Comparison::Missing(_) | Comparison::Extra(_) => true,
        }
    }

    /// What is found where it offends.
    fn offence(&self) -> Finding
        ensures { result ≡ offence self.now }
    {
        match self {
            Comparison::Pair(a, b) => Finding::Apart(a.name, b.name, a.moment.abs_diff(b.moment)),
            Comparison::Missing(a) => Finding::Missing(a.name),
            Comparison::Extra(b) => Finding::Extra(b.name),
        }
    }
}

/// How many are pairs.
pub(crate) fn pairs(all: &[Comparison]) -> usize
    ensures { result ≡ count_by is_pair all.now }
{
    all.iter().filter(|c| c.is_pair()).count()
}

/// How many frames of A have no partner.
pub(crate) fn missing(all: &[Comparison]) -> usize
    ensures { result ≡ count_by is_missing all.now }
{
    all.iter().filter(|c| c.is_missing()).count()
}

/// How many frames of B have no partner.
pub(crate) fn surplus(all: &[Comparison]) -> usize
    ensures { result ≡ count_by is_surplus all.now }
{
    all.iter().filter(|c| c.is_surplus()).count()
}

/// Of how many pairs both frames left at one moment.
pub(crate) fn same(all: &[Comparison]) -> usize
    ensures { result ≡ count_by is_same all.now }
{
    all.iter().filter(|c| c.is_same()).count()
}

/// Of how many pairs the frame of B left later.
pub(crate) fn later(all: &[Comparison]) -> usize
    ensures { result ≡ count_by is_later all.now }
{
    all.iter().filter(|c| c.is_later()).count()
}

/// Of how many pairs the frame of B left earlier.
pub(crate) fn earlier(all: &[Comparison]) -> usize
    ensures { result ≡ count_by is_earlier all.now }
{
    all.iter().filter(|c| c.is_earlier()).count()
}

/// The greatest difference of a pair, in picoseconds; 0 where there is none.
pub(crate) fn greatest_difference(all: &[Comparison]) -> u128
    ensures { result ≡ greatest_difference all.now }
{
    all.iter()
        .fold(0, |greatest, c| greatest.max(c.difference()))
}

/// The first frame that offends, if one does.
fn offender(all: &[Comparison], within: u128) -> Option<Comparison>
    ensures { result ≡ find (offends within) all.now }
{
    for compared in all {
        if compared.offends(within) {
            return Some(*compared);
        }
    }
    None
}

/// What is found first, where it is asked for.
pub(crate) fn found_in(all: &[Comparison], within: Option<u128>) -> Option<Finding>
    ensures { result ≡ found_in within all.now }
{
    let Some(within) = within else {
        return None;
    };
    if let Some(offender) = offender(all, within) {
        return Some(offender.offence());
    }
    if pairs(all) == 0 {
        Some(Finding::NoPair)
    } else {
        None
    }
}
