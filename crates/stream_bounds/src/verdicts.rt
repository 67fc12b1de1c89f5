//! The verdict about a class, and the delay of a stream.

ghost use Rattle.std.specs.Prelude.{◌≡◌, Err};
ghost use Rattle.stream_bounds.specs.Verdicts.{delay_by, full_behind, is_alone, losing, met_by, met_within, place_of, plus, verdict_of};

use abstract_port::Dropped;
use burst_bounds::Bounds;
use delay_bounds::{Bound, Refused, Unbound};
use wire_time::CLASSES;

/// A frame that finds no room, or never starts.
#[derive(Clone, Copy, Debug, PartialEq, Eq)]
pub struct Place {
    /// When it comes, in picoseconds since the change moment of the schedule.
    pub moment: u128,
    /// The first id of its stream.
    pub id: u64,
    /// Which frame of its stream it is, from 1.
    pub number: u128,
}

/// How long the frames of a stream occupy the wire, in picoseconds.
#[derive(Clone, Copy, Debug, PartialEq, Eq)]
pub struct Needs {
    /// The shortest.
    pub shortest: u128,
    /// The longest.
    pub longest: u128,
}

/// The verdict about a class.
#[derive(Clone, Copy, Debug, PartialEq, Eq)]
pub enum Verdict {
    /// It has no streams.
    Idle,
    /// It shares windows with these classes above it, of which nothing is known but that they may send.
    Open {
        to: [bool; CLASSES],
    },
    /// It shares windows with this class above it, the highest that has streams and no bounds.
    Behind(u8),
    /// It shares its windows, and its delays have bounds, whenever its frames come: the longest wait, in picoseconds, and
    /// the most frames that may wait at once.
    Sharing(Bounds),
    /// It shares its windows, and none takes its longest frame.
    NoWindow,
    /// It shares its windows, and none takes its longest frame behind one of another class that may have the wire when
    /// it opens.
    Blocked,
    /// Its delays are known: the most frames that ever wait at once, and how many frames come in how many picoseconds.
    Bounded {
        most: usize,
        frames: u64,
        every: u128,
    },
    /// Its delays have bounds, whenever its frames come: the most frames that may wait at once, and whether a frame of
    /// each stream may wait for so long.
    Within {
        most: u64,
        reached: bool,
    },
    /// More of its frames may wait at once than there is room for.
    Crowded {
        most: u64,
    },
    /// The first frame that finds no room, and whether the class has no other stream than its.
    Full {
        first: Place,
        alone: bool,
    },
    /// A frame never starts, nor does any behind it; and the first that then finds no room, if it comes by the greatest
    /// moment.
    Stuck {
        never: Place,
        full: Option<Place>,
    },
    /// No window takes its longest frame: that one never starts, nor does any behind it.
    Unfit,
    /// In the long run more frames come than leave; and whether it is known that its only stream loses some.
    Overloaded {
        alone: bool,
    },
    /// So many frames as may be were looked at.
    Long,
    /// A moment is after the greatest.
    Late,
}

/// The delay of a stream.
#[derive(Clone, Copy, Debug, PartialEq, Eq)]
pub enum Delay {
    /// Its frames are of this class, and wait for just so long.
    Exact(u8, Bound),
    /// They are of this class, and start within such a time, whenever they come; and whether one may take so long.
    Within(u8, Bound, bool),
    /// They are of this class, and some are lost, or never start.
    Unbounded(u8),
    /// They are of this class, some of whose streams lose frames. Which ones do is not known.
    Unsettled(u8),
    /// They are of this class, about which nothing is known.
    Unknown(u8),
    /// Each frame is dropped when it comes.
    Lost(Dropped),
}

/// Whether a deadline is met.
#[derive(Clone, Copy, Debug, PartialEq, Eq)]
pub enum Met {
    /// Each frame has left by then.
    Met,
    /// Some frame has not.
    Missed,
    /// It is not known.
    Unknown,
}

/// A sum, or what 128 bits hold at most.
pub fn plus(a: u128, b: u128) -> u128
    ensures { result ≡ plus a b }
{
    a.saturating_add(b)
}

/// A frame of the stream at a place of its class.
pub fn place_of(ids: &[u64], place: usize, before: u128, moment: u128) -> Place
    ensures { result ≡ place_of ids.now place before moment }
{
    Place {
        moment,
        id: ids.get(place).copied().unwrap_or(0),
        number: plus(before, 1),
    }
}

/// Where no frame starts any more, the first that finds no room, if there is one.
fn full_behind(ids: &[u64], refused: Option<Refused>) -> Option<Place>
    ensures { result ≡ full_behind ids.now refused }
{
    match refused {
        Some(frame) => Some(place_of(ids, frame.place, frame.before, frame.moment)),
        None => None,
    }
}

/// Whether a class with these streams has one only.
fn is_alone(ids: &[u64]) -> bool
    ensures { result ≡ is_alone ids.now }
{
    ids.len() == 1
}

/// The verdict about a class whose flows have no bounds.
pub fn verdict_of(ids: &[u64], why: Unbound) -> Verdict
    ensures { result ≡ verdict_of ids.now (Err why) }
{
    match why {
        Unbound::Full(frame) => Verdict::Full {
            first: place_of(ids, frame.place, frame.before, frame.moment),
            alone: is_alone(ids),
        },
        Unbound::Never(frame, refused) => Verdict::Stuck {
            never: place_of(ids, frame.place, frame.before, frame.moment),
            full: full_behind(ids, refused),
        },
        Unbound::Overloaded => Verdict::Overloaded {
            alone: is_alone(ids),
        },
        Unbound::Long => Verdict::Long,
        Unbound::Late | Unbound::Memory => Verdict::Late,
    }
}

/// The delay of a stream of a class that loses frames: it loses some where the class has no other.
fn losing(class: u8, alone: bool) -> Delay
    ensures { result ≡ losing class alone }
{
    if alone {
        Delay::Unbounded(class)
    } else {
        Delay::Unsettled(class)
    }
}

/// The delay of a stream of a class, by the verdict and the stream's bounds.
pub fn delay_by(class: u8, verdict: Verdict, bound: Bound) -> Delay
    ensures { result ≡ delay_by class verdict bound }
{
    match verdict {
        Verdict::Bounded { .. } => Delay::Exact(class, bound),
        Verdict::Within { reached, .. } => Delay::Within(class, bound, reached),
        Verdict::Sharing(_) => Delay::Within(class, bound, false),
        Verdict::Stuck { .. } | Verdict::Unfit => Delay::Unbounded(class),
        Verdict::Full { alone, .. } | Verdict::Overloaded { alone } => losing(class, alone),
        Verdict::Open { .. } | Verdict::Behind(_) => Delay::Unknown(class),
        Verdict::NoWindow | Verdict::Blocked => Delay::Unknown(class),
        Verdict::Idle | Verdict::Crowded { .. } => Delay::Unknown(class),
        Verdict::Long | Verdict::Late => Delay::Unknown(class),
    }
}

/// Whether a deadline is met, where a frame has left by `end`, and whether one may take so long.
fn met_within(end: u128, deadline: u128, reached: bool) -> Met
    ensures { result ≡ met_within end deadline reached }
{
    if end <= deadline {
        Met::Met
    } else if reached {
        Met::Missed
    } else {
        Met::Unknown
    }
}

/// Whether a deadline is met, in picoseconds from when a frame comes, or of a stream with a known offset from its
/// earliest moment, to the end of its time on the wire.
pub fn met_by(needs: Needs, delay: Delay, deadline: u128) -> Met
    ensures { result ≡ met_by needs delay deadline }
{
    match delay {
        Delay::Exact(_, bound) => {
            met_within(plus(bound.greatest, needs.longest), deadline, true)
        }
        Delay::Within(_, bound, reached) => {
            met_within(plus(bound.greatest, needs.longest), deadline, reached)
        }
        Delay::Unbounded(_) | Delay::Lost(_) => Met::Missed,
        Delay::Unsettled(_) | Delay::Unknown(_) => Met::Unknown,
    }
}
