//! Values as C hands them over: fields of a fixed size, none of which has a value that is no value.

ghost use Rattle.std.specs.Prelude.{◌≡◌, ◌≤◌, IfSome};
ghost use Rattle.wire_time.specs.Moment.{greatest_moment};
ghost use Rattle.taprio_c.specs.FromC.{asked_of, is_wanted, moment_of, moment_said, moment_told, moment_unless_none, moment_where, picture_values, port_values, stamp_of};

use in_memory::{BoundsAsked, PictureValues, PlanValues, PortValues};
use replay::Stamp;
use text::times::moment;
use wire_time::MAX_MOMENT;

/// 2^64.
const TWO_TO_64: u128 = 0x1_0000_0000_0000_0000;

/// What C says where a picture has no moment that it begins at: 2^128 - 1, in picoseconds, which is no moment.
const NO_MOMENT: u128 = 0xffff_ffff_ffff_ffff_ffff_ffff_ffff_ffff;

/// What a port runs with.
#[repr(C)]
#[derive(Clone, Copy, Debug, PartialEq, Eq)]
pub struct CPortValues {
    /// The line rate, in Mb/s.
    pub rate: u32,
    /// The mtu, in octets.
    pub mtu: u32,
    /// The room, in frames a class.
    pub room: u32,
    /// Whether a summary is wanted: 0 no, else yes.
    pub summary: u32,
    /// Whether there is a moment to run to after the input: 0 no, else yes.
    pub has_until: u64,
    /// That moment, in picoseconds: `until_high * 2^64 + until_low`.
    pub until_low: u64,
    /// See `until_low`.
    pub until_high: u64,
}

/// What a picture shows.
#[repr(C)]
#[derive(Clone, Copy, Debug, PartialEq, Eq)]
pub struct CPictureValues {
    /// The moment that it begins at, in picoseconds: `from_high * 2^64 + from_low`; 2^128 - 1: none.
    pub from_low: u64,
    /// See `from_low`.
    pub from_high: u64,
    /// Whether there is a moment that it ends at: 0 no, else yes.
    pub has_to: u64,
    /// That moment, in picoseconds: `to_high * 2^64 + to_low`.
    pub to_low: u64,
    /// See `to_low`.
    pub to_high: u64,
    /// Its width, in pixels.
    pub width: u32,
    /// Nothing: it fills the last eight octets.
    pub unused: u32,
}

/// What a plan is made for.
#[repr(C)]
#[derive(Clone, Copy, Debug, PartialEq, Eq)]
pub struct CPlanValues {
    /// The cycle, in nanoseconds; 0: one that suits the periods.
    pub cycle: u64,
    /// How long each entry is at the least, in nanoseconds.
    pub least_interval: u64,
    /// The base time, in nanoseconds.
    pub base_time: u64,
    /// How many entries a schedule has at most.
    pub entries: u32,
    /// Whether classes without deadlines may use what the windows of higher ones leave: 0 no, else yes.
    pub share: u32,
}

/// What a word says as a moment.
#[repr(C)]
#[derive(Clone, Copy, Debug, PartialEq, Eq)]
pub struct CMoment {
    /// The moment, in picoseconds: `high * 2^64 + low`. 0 where the word says none.
    pub low: u64,
    /// See `low`.
    pub high: u64,
    /// Whether the word says a moment: 1 yes, 0 no.
    pub is_moment: u64,
}

/// Whether something is wanted.
pub fn is_wanted(value: u32) -> bool
    ensures { result ≡ is_wanted value }
{
    value != 0
}

/// Which moment the records of a replay carry.
pub fn stamp_of(value: u32) -> Stamp
    ensures { result ≡ stamp_of value }
{
    if is_wanted(value) {
        Stamp::End
    } else {
        Stamp::Start
    }
}

/// What is asked of bounds: bit 0 that slack is told, bit 1 that frames may wait from before the schedule, bit 2 what waits
/// are made of, and bits 8 to 15 which classes send nothing.
pub fn asked_of(flags: u32) -> BoundsAsked
    ensures { result ≡ asked_of flags }
{
    BoundsAsked {
        slack: flags % 2 == 1,
        leftovers: flags / 2 % 2 == 1,
        why: flags / 4 % 2 == 1,
        silent: (flags / 256 % 256) as u8,
    }
}

/// The moment of two halves.
pub fn moment_of(low: u64, high: u64) -> u128
    ensures { result ≡ moment_of low high }
{
    u128::from(high) * TWO_TO_64 + u128::from(low)
}

/// The moment of two halves, where there is one.
fn moment_where(is_there: u64, low: u64, high: u64) -> Option<u128>
    ensures { result ≡ moment_where is_there low high }
{
    if is_there != 0 {
        Some(moment_of(low, high))
    } else {
        None
    }
}

/// What a port runs with, as Rattle has it.
pub fn port_values(values: &CPortValues) -> PortValues
    ensures { result ≡ port_values values.now }
{
    PortValues {
        rate: values.rate,
        mtu: values.mtu,
        room: values.room,
        until: moment_where(values.has_until, values.until_low, values.until_high),
        summary: is_wanted(values.summary),
    }
}

/// What a plan is made for, with the name of the device.
pub fn plan_values<'a>(values: &CPlanValues, device: &'a [u8]) -> PlanValues<'a> {
    let cycle = if values.cycle == 0 {
        None
    } else {
        Some(values.cycle)
    };
    PlanValues {
        cycle,
        entries: values.entries as usize,
        least: values.least_interval,
        base_time: values.base_time,
        share: is_wanted(values.share),
        device,
    }
}

/// The moment of two halves, where it isn't `NO_MOMENT`.
fn moment_unless_none(low: u64, high: u64) -> Option<u128>
    ensures { result ≡ moment_unless_none low high }
{
    let moment = moment_of(low, high);
    if moment < NO_MOMENT {
        Some(moment)
    } else {
        None
    }
}

/// What a picture shows, as Rattle has it.
pub fn picture_values(values: &CPictureValues) -> PictureValues
    ensures { result ≡ picture_values values.now }
{
    PictureValues {
        from: moment_unless_none(values.from_low, values.from_high),
        to: moment_where(values.has_to, values.to_low, values.to_high),
        width: values.width,
    }
}

/// A moment, where there is one, as C has it.
fn moment_told(moment: Option<u128>) -> CMoment
    requires within { IfSome moment (λ m. m ≤ greatest_moment) }
    ensures { result ≡ moment_told moment }
{
    match moment {
        None => CMoment {
            low: 0,
            high: 0,
            is_moment: 0,
        },
        Some(moment) => CMoment {
            low: (moment % TWO_TO_64) as u64,
            high: (moment / TWO_TO_64) as u64,
            is_moment: 1,
        },
    }
}

/// What a word says as a moment, as C has it.
pub fn moment_said(word: &[u8]) -> CMoment
    ensures { result ≡ moment_said word.now }
{
    moment_told(moment(word, MAX_MOMENT))
}
