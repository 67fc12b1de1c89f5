//! The steps of a time axis.

ghost use Rattle.std.specs.Prelude.{◌≡◌, ◌≤◌, ◌<◌, ◌*◌};
ghost use Rattle.picture.specs.Words.{greatest_moment, IsTickStep, name_of, ps_of, unit_of};

/// A unit of time.
#[derive(Clone, Copy, Debug, PartialEq, Eq)]
pub enum Unit {
    /// A picosecond.
    Ps,
    /// A nanosecond.
    Ns,
    /// A microsecond.
    Us,
    /// A millisecond.
    Ms,
    /// A second.
    S,
}

/// The step of an axis over a time of this length, both in picoseconds: the least of 1, 2, 5, 10, 20, 50 and so on such
/// that at most `most` steps are as long as the time.
pub fn tick_step(length: u128, most: u32) -> u128
    requires some { 0 < most }
    requires within { length ≤ greatest_moment }
    ensures { IsTickStep length most result }
{
    let most = u128::from(most);
    let mut step = 1;
    loop {
        if length <= step * most {
            return step;
        }
        if length <= 2 * step * most {
            return 2 * step;
        }
        if length <= 5 * step * most {
            return 5 * step;
        }
        step *= 10;
    }
}

/// The greatest unit that divides a time, in picoseconds; of no time it is a second.
pub fn unit_of(time: u128) -> Unit
    ensures { result ≡ unit_of time }
{
    if time % Unit::S.ps() == 0 {
        return Unit::S;
    }
    if time % Unit::Ms.ps() == 0 {
        return Unit::Ms;
    }
    if time % Unit::Us.ps() == 0 {
        return Unit::Us;
    }
    if time % Unit::Ns.ps() == 0 {
        return Unit::Ns;
    }
    Unit::Ps
}

impl Unit {
    /// How long the unit is, in picoseconds.
    pub fn ps(self) -> u128
        ensures { result ≡ ps_of self }
    {
        match self {
            Unit::Ps => 1,
            Unit::Ns => 1_000,
            Unit::Us => 1_000_000,
            Unit::Ms => 1_000_000_000,
            Unit::S => 1_000_000_000_000,
        }
    }

    /// How it is written, in ASCII.
    pub fn name(self) -> &'static str
        ensures { result.now ≡ name_of self }
    {
        match self {
            Unit::Ps => "ps",
            Unit::Ns => "ns",
            Unit::Us => "us",
            Unit::Ms => "ms",
            Unit::S => "s",
        }
    }
}
