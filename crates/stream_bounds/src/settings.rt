//! What bounds are judged by.

ghost use Rattle.std.specs.Prelude.{◌≡◌};
ghost use Rattle.job.specs.Texts.{IsTold};
ghost use Rattle.stream_bounds.specs.BoundsEnd.{bounds_value_kind, bounds_value_text};

use abstract_port::class_map::ClassMap;
use job::{Ended, ValueKind};
use script::{BadValue, Settings, put_value};
use std::io::Write;
use text::octet_writer::put;
use wire_time::CLASSES;

/// The greatest number of frames that may be asked for.
pub const MAX_FRAMES: u64 = 1_000_000_000;

/// What bounds are judged by.
#[derive(Clone, Copy, Debug, PartialEq, Eq)]
pub struct BoundsSettings {
    /// The line rate, the mtu and the room of the port.
    pub port: Settings,
    /// The map that the port has already, if it has one.
    pub map: Option<ClassMap>,
    /// How many frames of a class are looked at, at most.
    pub frames: u64,
    /// Whether the run fails where a deadline is not known to be met, or a command is none or is refused.
    pub strict: bool,
    /// Whether it is told which jitter the streams with deadlines may have.
    pub slack: bool,
    /// Whether it is told what the greatest wait of each stream is made of.
    pub why: bool,
    /// Of each class whether it sends nothing, where it has no streams.
    pub silent: [bool; CLASSES],
    /// Whether frames may wait from before the schedule came into force, of any class that isn't silent.
    pub leftovers: bool,
}

/// The first value that is bad.
#[derive(Clone, Copy, Debug, PartialEq, Eq)]
pub enum BoundsValue {
    /// One of the port's.
    Port(BadValue),
    /// The number of frames is not 1 to `MAX_FRAMES`.
    Frames,
    /// The silent classes are not such, each once.
    Silent,
}

impl BoundsValue {
    /// Whose value it is.
    pub fn kind(self) -> ValueKind
        ensures { result ≡ bounds_value_kind self }
    {
        match self {
            BoundsValue::Port(value) => value.kind(),
            BoundsValue::Frames => ValueKind::Frames,
            BoundsValue::Silent => ValueKind::Silent,
        }
    }
}

/// Writes the text of a bad value. The exit status that goes with it is 2, also where that write fails.
pub fn say_bounds_value<W: Write>(value: &BoundsValue, writer: &mut W) -> Ended
    ensures status { result.status ≡ 2 }
    ensures told { IsTold result.told (W.contents writer.old) (W.contents writer.new)
        (bounds_value_text value.now) }
{
    let told = match *value {
        BoundsValue::Port(value) => put_value(writer, value).is_ok(),
        BoundsValue::Frames => put(writer, b"taprio_port: bad value of --frames\n").is_ok(),
        BoundsValue::Silent => put(writer, b"taprio_port: bad value of --silent\n").is_ok(),
    };
    Ended { status: 2, told }
}
