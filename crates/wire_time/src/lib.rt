//! Line rates, frames, and how long a frame occupies the wire (IEEE Std 802.3).
//!
//! The definitions are specs/Wire.antt and specs/Moment.antt; the contracts of `Rate`, `occupancy`, `lead` and
//! `sdu` cite them.
#![tactic(auto)]

ghost use Rattle.std.specs.Prelude.{◌≡◌, ◌<◌, ◌≤◌, ◌+◌, ◌*◌, ◌/◌, ℕ, Some};
ghost use Rattle.wire_time.specs.Moment.{greatest_moment, greatest_lead};
ghost use Rattle.wire_time.specs.Wire.{lead_of, occupancy_of, rate_of, sdu_of};

use std::marker::Model;

/// The greatest moment that is handed in, in picoseconds: 2^63 - 1 ns.
pub const MAX_MOMENT: u128 = 9_223_372_036_854_775_807_000;

/// How many traffic classes a port has at most (IEEE Std 802.1Q-2018, 8.6.6); they are numbered from 0.
pub const CLASSES: usize = 8;

/// How many priorities frames have; they are numbered from 0.
pub const PRIORITIES: usize = 16;

/// The least mtu that a port takes, in octets of a service data unit.
pub const MIN_MTU: u32 = 68;

/// The greatest mtu that a port takes, in octets of a service data unit.
pub const MAX_MTU: u32 = 9216;

/// What an octet takes at the fastest rate, in picoseconds.
pub const MIN_PS_PER_OCTET: u128 = 80;

/// What an octet takes at the slowest rate, in picoseconds.
pub const MAX_PS_PER_OCTET: u128 = 800_000;

/// How many times one time goes into another. Mostly both fit a word of the machine, whose division is quick.
#[inline]
pub fn quotient(time: u128, by: u128) -> u128
    requires { 0 < by }
    ensures { result ≡ time / by }
{
    let most = u128::from(u64::MAX);
    if time > most || by > most {
        return time / by;
    }
    u128::from(time as u64 / by as u64)
}

/// A line rate, kept as the time that one octet takes.
#[derive(Clone, Copy, Debug, PartialEq, Eq)]
pub struct Rate {
    ps_per_octet: u128,
}

/// A contract sees a rate as its picoseconds an octet.
impl Model for Rate {
    ghost use Rattle.std.specs.Prelude.{ℕ, ◌<◌, ◌≤◌};
    ghost use Rattle.wire_time.specs.declared.TheConstants.{MIN_PS_PER_OCTET, MAX_PS_PER_OCTET};

    ghost Value = { ℕ };

    ghost view = { λ r. r.ps_per_octet };

    ghost invariant = { λ r. (MIN_PS_PER_OCTET ≤ r.ps_per_octet)
        × (r.ps_per_octet ≤ MAX_PS_PER_OCTET) };

    ghost inverse = { λ n. record { ps_per_octet = n } };
}

/// Why a number is no line rate.
#[derive(Clone, Copy, Debug, PartialEq, Eq)]
pub enum RateFault {
    /// The number is none of the ten rates.
    UnknownRate,
}

/// A frame that waits or is sent.
#[derive(Clone, Copy, Debug, PartialEq, Eq)]
pub struct Frame {
    /// The sender's name for the frame, which answers repeat.
    pub id: u64,
    /// The priority: 0 to 15 have a class.
    pub priority: u8,
    /// Octets from the destination address to the end of the payload, without the frame check sequence.
    pub len: u32,
    /// Whether the frame has a customer VLAN tag.
    pub tagged: bool,
}

impl Rate {
    /// The rate of so many Mb/s: 10, 100, 1000, 2500, 5000, 10000, 25000, 40000, 50000 or 100000.
    pub fn from_mbps(mbps: u32) -> Result<Rate, RateFault>
        ensures { result ≡ rate_of mbps }
    {
        let ps_per_octet = match mbps {
            10 => 800000,
            100 => 80000,
            1000 => 8000,
            2500 => 3200,
            5000 => 1600,
            10000 => 800,
            25000 => 320,
            40000 => 200,
            50000 => 160,
            100000 => 80,
            _ => return Err(RateFault::UnknownRate),
        };
        Ok(Rate { ps_per_octet })
    }

    /// The picoseconds that one octet takes: 80 to 800,000.
    pub fn ps_per_octet(&self) -> u128
        ensures value { result ≡ self.now }
        ensures within { (MIN_PS_PER_OCTET ≤ result) × (result ≤ MAX_PS_PER_OCTET) }
    {
        self.ps_per_octet
    }
}

/// How long a frame of so many octets occupies the wire, in picoseconds, with preamble, start delimiter, check
/// sequence and gap.
pub fn occupancy(rate: Rate, len: u32) -> u128
    ensures value { result ≡ occupancy_of rate len }
    ensures within { result ≤ greatest_moment }
{
    (len.max(60) as u128 + 24) * rate.ps_per_octet
}

/// The occupancy of the longest frame that a port of this mtu (octets of a service data unit) accepts, in picoseconds.
pub fn lead(rate: Rate, mtu: u32) -> u128
    ensures value { result ≡ lead_of rate mtu }
    ensures above { 0 < result }
    ensures within { mtu ≤ MAX_MTU → result ≤ greatest_lead }
{
    (mtu as u128 + 42) * rate.ps_per_octet
}

/// The octets of the service data unit of a frame; none where the frame is shorter than its header.
pub fn sdu(frame: &Frame) -> Option<u32>
    ensures { result ≡ sdu_of frame.now }
{
    let header = if frame.tagged { 18 } else { 14 };
    if frame.len >= header {
        Some(frame.len - header)
    } else {
        None
    }
}

/// Nothing to run: its contract is the law that no frame whose service data unit is within the mtu occupies the wire
/// for longer than the lead.
pub fn lead_law()
    ensures { (ps mtu : ℕ) (f : Frame) (sdu : ℕ) → 42 ≤ mtu → sdu_of f ≡ Some sdu → sdu ≤ mtu →
        occupancy_of ps f.len ≤ lead_of ps mtu }
{}
