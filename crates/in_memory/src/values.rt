//! What a run is given, as numbers.

ghost use Rattle.std.specs.Prelude.{◌≡◌, ◌≤◌, IfOk};
ghost use Rattle.in_memory.specs.Values.{from_at, rate_at, settings_at};
ghost use Rattle.wire_time.specs.Moment.{greatest_moment};

use script::{BadValue, Settings};
use wire_time::{MAX_MOMENT, Rate};

/// What a port runs with, as numbers that are still to be judged.
#[derive(Clone, Copy, Debug, PartialEq, Eq)]
pub struct PortValues {
    /// The line rate, one of the ten, in Mb/s.
    pub rate: u32,
    /// The mtu, 68 to 9216 octets.
    pub mtu: u32,
    /// The room, 1 to 4096 frames a class.
    pub room: u32,
    /// The moment to run to after the input, where there is one, in picoseconds, at most `MAX_MOMENT`.
    pub until: Option<u128>,
    /// Whether a summary is wanted at the end.
    pub summary: bool,
}

/// The line rate of so many Mb/s.
pub fn rate_at(mbps: u32) -> Result<Rate, BadValue>
    ensures { result ≡ rate_at mbps }
{
    match Rate::from_mbps(mbps) {
        Ok(rate) => Ok(rate),
        Err(_) => Err(BadValue::Rate),
    }
}

/// A moment that offsets count from, in picoseconds.
pub fn from_at(from: u128) -> Result<u128, BadValue>
    ensures given { result ≡ from_at from }
    ensures within { IfOk result (λ moment. moment ≤ greatest_moment) }
{
    if from <= MAX_MOMENT {
        Ok(from)
    } else {
        Err(BadValue::From)
    }
}

/// The settings of these values. The first that is out of its limits is the fault.
pub fn settings_at(values: PortValues) -> Result<Settings, BadValue>
    ensures { result ≡ settings_at values }
{
    let rate = match rate_at(values.rate) {
        Ok(rate) => rate,
        Err(value) => return Err(value),
    };
    match Settings::new(rate, values.mtu, values.room, values.until) {
        Ok(settings) => Ok(settings.with_summary(values.summary)),
        Err(value) => Err(value),
    }
}
