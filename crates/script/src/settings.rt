//! What a port runs with, as numbers or as words.

ghost use Rattle.std.specs.Prelude.{◌≡◌, ◌≤◌};
ghost use Rattle.std.specs.Option.{ForSome};
ghost use Rattle.script.specs.Words.{IsMtu, IsRoom, octets_of, is_until, mtu_in, rate_in, room_in, settings_of, settings_with, value_kind, with_summary};

use job::ValueKind;
use port::{is_mtu, is_room};
use std::marker::Model;
use text::times::moment;
use text::words::number;
use wire_time::{MAX_MOMENT, Rate};

/// What a port runs with, each value within its limits: a line rate, an mtu of 68 to 9216 octets, room for 1 to 4096
/// frames a class, and, where it is given, the moment in picoseconds, at most `MAX_MOMENT`, up to which the port runs
/// after the input; and whether a summary is wanted at the end.
#[derive(Clone, Copy, Debug, PartialEq, Eq)]
pub struct Settings {
    rate: Rate,
    mtu: u32,
    room: u32,
    until: Option<u128>,
    summary: bool,
}

/// A contract sees the values, which are within their limits.
impl Model for Settings {
    ghost use Rattle.script.specs.Setup.{Setup, AreGood};

    ghost Value = { Setup };

    ghost view = { λ s. record {
      rate = s.rate;
      mtu = s.mtu;
      room = s.room;
      until = s.until;
      summary = s.summary;
    } };

    ghost invariant = { λ s. AreGood s.mtu s.room s.until };

    ghost inverse = { λ v. record {
      rate = v.rate;
      mtu = v.mtu;
      room = v.room;
      until = v.until;
      summary = v.summary;
    } };
}

/// The first value that is no decimal number or out of its limits, by the option that gives it.
#[derive(Clone, Copy, Debug, PartialEq, Eq)]
pub enum BadValue {
    /// The line rate is none of the ten, in Mb/s.
    Rate,
    /// The mtu is not 68 to 9216 octets.
    Mtu,
    /// The room is not 1 to 4096 frames a class.
    Room,
    /// The moment to run to is over the greatest, in picoseconds.
    Until,
    /// The moment that a picture begins at is over the greatest, in picoseconds.
    From,
    /// The moment that a picture ends at is over the greatest, in picoseconds, or not after the one that it begins at.
    To,
    /// The width of a picture is not 400 to 2400 pixels.
    Width,
    /// The map that a port has already is not 1 to 16 classes of 0 to 7, one for each priority from 0 up.
    Map,
    /// The length of a frame is not 0 to 4294967295 octets.
    Frame,
    /// The seed is not a number of 64 bits, or stands beside another word that says when frames come.
    Seed,
}

impl BadValue {
    /// Whose value it is.
    pub fn kind(self) -> ValueKind
        ensures { result ≡ value_kind self }
    {
        match self {
            BadValue::Rate => ValueKind::Rate,
            BadValue::Mtu => ValueKind::Mtu,
            BadValue::Room => ValueKind::Room,
            BadValue::Until => ValueKind::Until,
            BadValue::From => ValueKind::From,
            BadValue::To => ValueKind::To,
            BadValue::Width => ValueKind::Width,
            BadValue::Map => ValueKind::Map,
            BadValue::Frame => ValueKind::Frame,
            BadValue::Seed => ValueKind::Seed,
        }
    }
}

/// The rate of a decimal number of Mb/s, if there is one.
pub(crate) fn read_rate(text: &str) -> Option<Rate>
    ensures { result ≡ rate_in text.now }
{
    let mbps = number(text.as_bytes(), u128::from(u32::MAX))?;
    Rate::from_mbps(mbps as u32).ok()
}

fn read_mtu(text: &str) -> Option<u32>
    ensures { result ≡ mtu_in text.now }
{
    let mtu = number(text.as_bytes(), u128::from(u32::MAX))? as u32;
    if is_mtu(mtu) { Some(mtu) } else { None }
}

fn read_room(text: &str) -> Option<u32>
    ensures { result ≡ room_in text.now }
{
    let room = number(text.as_bytes(), u128::from(u32::MAX))? as u32;
    if is_room(room) { Some(room) } else { None }
}

/// Whether a moment, where there is one, is at most the greatest.
fn is_until(until: Option<u128>) -> bool
    ensures { result ≡ is_until until }
{
    match until {
        None => true,
        Some(moment) => moment <= MAX_MOMENT,
    }
}

impl Settings {
    /// The settings of a rate, an mtu in octets, a room in frames a class, and a moment in picoseconds to run to. The
    /// first that is out of its limits is the fault. No summary is wanted.
    pub fn new(rate: Rate, mtu: u32, room: u32, until: Option<u128>) -> Result<Settings, BadValue>
        ensures { result ≡ settings_with rate mtu room until }
    {
        if !is_mtu(mtu) {
            return Err(BadValue::Mtu);
        }
        if !is_room(room) {
            return Err(BadValue::Room);
        }
        if !is_until(until) {
            return Err(BadValue::Until);
        }
        Ok(Settings {
            rate,
            mtu,
            room,
            until,
            summary: false,
        })
    }

    /// Reads a rate in Mb/s, an mtu in octets, a room in frames a class, and the moment up to which a port runs, at
    /// most `greatest` picoseconds, in this order. The first bad value is the fault. No summary is wanted.
    pub fn read(
        rate: &str,
        mtu: &str,
        room: &str,
        until: Option<&str>,
        greatest: u128,
    ) -> Result<Settings, BadValue>
        requires { greatest ≤ MAX_MOMENT }
        ensures { result ≡ settings_of rate.now mtu.now room.now (octets_of until.entry) greatest }
    {
        let Some(rate) = read_rate(rate) else {
            return Err(BadValue::Rate);
        };
        let Some(mtu) = read_mtu(mtu) else {
            return Err(BadValue::Mtu);
        };
        let Some(room) = read_room(room) else {
            return Err(BadValue::Room);
        };
        let until = match until {
            None => None,
            Some(text) => match moment(text.as_bytes(), greatest) {
                None => return Err(BadValue::Until),
                Some(moment) => Some(moment),
            },
        };
        Ok(Settings {
            rate,
            mtu,
            room,
            until,
            summary: false,
        })
    }

    /// These settings, with a summary at the end or without one.
    pub fn with_summary(self, wanted: bool) -> Settings
        ensures { result ≡ with_summary wanted self }
    {
        Settings {
            summary: wanted,
            ..self
        }
    }

    /// Whether a summary is wanted at the end.
    pub fn summary(&self) -> bool
        ensures { result ≡ self.now.summary }
    {
        self.summary
    }

    /// The line rate.
    pub fn rate(&self) -> Rate
        ensures { result ≡ self.now.rate }
    {
        self.rate
    }

    /// The mtu, in octets.
    pub fn mtu(&self) -> u32
        ensures value { result ≡ self.now.mtu }
        ensures within { IsMtu result }
    {
        self.mtu
    }

    /// How many frames a class has room for.
    pub fn room(&self) -> u32
        ensures value { result ≡ self.now.room }
        ensures within { IsRoom result }
    {
        self.room
    }

    /// The moment up to which the port runs after the input, in picoseconds, where it is given.
    pub fn until(&self) -> Option<u128>
        ensures value { result ≡ self.now.until }
        ensures within { ForSome result (λ moment. moment ≤ MAX_MOMENT) }
    {
        self.until
    }
}
