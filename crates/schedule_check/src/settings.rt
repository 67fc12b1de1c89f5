//! How schedules are checked.

ghost use Rattle.std.specs.Prelude.{◌≡◌, IfOk, false};
ghost use Rattle.schedule_check.specs.CheckEnd.{checks_given, length_in, usual};
ghost use Rattle.schedule_check.specs.Refusals.{where_given};
ghost use Rattle.schedule_check.specs.Words.{octets_of};

use crate::refusals::given_map;
use abstract_port::class_map::ClassMap;
use script::{BadValue, Values, settings_given};
use text::words::number;
use wire_time::{MAX_MOMENT, Rate};

/// What schedules are judged by, and what is reported of them.
#[derive(Clone, Copy, Debug, PartialEq, Eq)]
pub struct CheckSettings {
    /// The line rate.
    pub rate: Rate,
    /// The mtu, in octets, which no size limit may pass.
    pub mtu: u32,
    /// The map that the port has already, if it has one.
    pub map: Option<ClassMap>,
    /// Whether classes that share windows are reported beside the classes that a schedule keeps apart.
    pub shares: bool,
    /// Whether what a schedule gives each class is reported beside the classes that it keeps apart.
    pub windows: bool,
    /// The length of a frame, in octets, whose longest wait is reported beside what a schedule gives each class.
    pub frame: Option<u32>,
    /// Whether the lines are those of a script: what is no command is passed over.
    pub script: bool,
}

impl CheckSettings {
    /// Schedules are judged at this rate, for a new port of an mtu of 1500 octets, with windows or without; classes that
    /// share windows aren't reported.
    pub fn usual(rate: Rate, windows: bool) -> CheckSettings
        ensures { result ≡ usual false windows rate }
    {
        CheckSettings {
            rate,
            mtu: 1500,
            map: None,
            shares: false,
            windows,
            frame: None,
            script: false,
        }
    }
}

/// What a check is asked for, as words.
#[derive(Clone, Copy, Debug)]
pub struct CheckWords<'a> {
    /// The line rate, in Mb/s; 1000 where none is given.
    pub rate: Option<&'a str>,
    /// The mtu, in octets; 1500 where none is given.
    pub mtu: Option<&'a str>,
    /// The map that the port has already, if it has one.
    pub map: Option<&'a str>,
    /// The length of a frame, in octets.
    pub frame: Option<&'a str>,
    /// Whether classes that share windows are reported.
    pub shares: bool,
    /// Whether windows are reported.
    pub windows: bool,
    /// Whether the lines are those of a script.
    pub script: bool,
}

/// The length of a frame that is given, if it is one; none where none is given.
fn given_length(text: Option<&str>) -> Option<Option<u32>>
    ensures { result ≡ where_given length_in (octets_of text.entry) }
{
    match text {
        None => Some(None),
        Some(text) => match number(text.as_bytes(), u128::from(u32::MAX)) {
            Some(length) => Some(Some(length as u32)),
            None => None,
        },
    }
}

/// The settings of the values that are given, and of those that stand for the others. The first bad value is the fault.
pub fn checks_given(words: CheckWords<'_>) -> Result<CheckSettings, BadValue>
    ensures { result
        ≡ checks_given (octets_of words.entry.rate) (octets_of words.entry.mtu)
        (octets_of words.entry.map)
        (octets_of words.entry.frame) words.entry.shares words.entry.windows words.entry.script }
{
    let port = Values {
        rate: words.rate,
        mtu: words.mtu,
        room: None,
        until: None,
        summary: false,
    };
    let settings = match settings_given(port, MAX_MOMENT) {
        Ok(settings) => settings,
        Err(value) => return Err(value),
    };
    let Some(map) = given_map(words.map) else {
        return Err(BadValue::Map);
    };
    let Some(frame) = given_length(words.frame) else {
        return Err(BadValue::Frame);
    };
    Ok(CheckSettings {
        rate: settings.rate(),
        mtu: settings.mtu(),
        map,
        shares: words.shares,
        windows: words.windows,
        frame,
        script: words.script,
    })
}
