//! What a plan is made for.

ghost use Rattle.std.specs.Prelude.{◌≡◌};
ghost use Rattle.job.specs.Texts.{IsTold};
ghost use Rattle.plan.specs.PlanEnd.{plan_value_kind, plan_value_text};

use crate::judge::strict_settings;
use job::{Ended, ValueKind};
use script::{BadValue, Settings, Values, put_value};
use std::io::Write;
use stream_bounds::BoundsSettings;
use text::octet_writer::put;

/// What a plan is made for.
#[derive(Clone, Copy, Debug)]
pub struct PlanSettings<'a> {
    /// The line rate, the mtu and the room of the port.
    pub port: Settings,
    /// The cycle in nanoseconds, where it is given.
    pub cycle: Option<u64>,
    /// How many entries a schedule has at most.
    pub entries: usize,
    /// How long each entry is at the least, in nanoseconds.
    pub least: u64,
    /// The name of the device.
    pub device: &'a [u8],
    /// The base time, in nanoseconds.
    pub base_time: u64,
    /// Whether classes without deadlines may use what the windows of higher ones leave.
    pub share: bool,
    /// Whether it is told what the plan leaves, and what its bounds are.
    pub explain: bool,
}

impl PlanSettings<'_> {
    /// The settings of a run on new ports, whose findings are no fault.
    pub(crate) fn asked(&self) -> BoundsSettings {
        BoundsSettings {
            strict: false,
            ..strict_settings(self.port)
        }
    }
}

/// The values of the options, where they are given, as words.
#[derive(Clone, Copy, Debug)]
pub struct PlanWords<'a> {
    /// Those of the port.
    pub port: Values<'a>,
    /// The cycle.
    pub cycle: Option<&'a str>,
    /// How many entries a schedule has at most.
    pub entries: Option<&'a str>,
    /// How long each entry is at the least.
    pub least_interval: Option<&'a str>,
    /// The name of the device.
    pub device: Option<&'a str>,
    /// The base time.
    pub base_time: Option<&'a str>,
    /// Whether classes without deadlines may use what the windows of higher ones leave.
    pub share: bool,
    /// Whether it is told what the plan leaves, and what its bounds are.
    pub explain: bool,
}

/// The first value that is bad.
#[derive(Clone, Copy, Debug, PartialEq, Eq)]
pub enum PlanValue {
    /// One of the port's.
    Port(BadValue),
    /// The cycle is not 1 to 4294967295 whole nanoseconds.
    Cycle,
    /// The number of entries is not 1 to 256.
    Entries,
    /// The least interval is not 0 to 4294967295 whole nanoseconds.
    Least,
    /// The device's name is none.
    Device,
    /// The base time is not 0 to 2^63 - 1.
    Base,
}

impl PlanValue {
    /// Whose value it is.
    pub fn kind(self) -> ValueKind
        ensures { result ≡ plan_value_kind self }
    {
        match self {
            PlanValue::Port(value) => value.kind(),
            PlanValue::Cycle => ValueKind::Cycle,
            PlanValue::Entries => ValueKind::Entries,
            PlanValue::Least => ValueKind::LeastInterval,
            PlanValue::Device => ValueKind::Device,
            PlanValue::Base => ValueKind::BaseTime,
        }
    }
}

/// Writes the text of a bad value. The exit status that goes with it is 2, also where that write fails.
pub fn say_plan_value<W: Write>(value: &PlanValue, writer: &mut W) -> Ended
    ensures status { result.status ≡ 2 }
    ensures told { IsTold result.told (W.contents writer.old) (W.contents writer.new)
        (plan_value_text value.now) }
{
    let told = match *value {
        PlanValue::Port(value) => put_value(writer, value).is_ok(),
        PlanValue::Cycle => put(writer, b"taprio_port: bad value of --cycle\n").is_ok(),
        PlanValue::Entries => put(writer, b"taprio_port: bad value of --entries\n").is_ok(),
        PlanValue::Least => put(writer, b"taprio_port: bad value of --least-interval\n").is_ok(),
        PlanValue::Device => put(writer, b"taprio_port: bad value of --device\n").is_ok(),
        PlanValue::Base => put(writer, b"taprio_port: bad value of --base-time\n").is_ok(),
    };
    Ended { status: 2, told }
}
