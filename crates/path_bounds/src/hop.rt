//! What is known of a stream at a port on its way.

ghost use Rattle.std.specs.Prelude.{◌≡◌};
ghost use Rattle.path_bounds.specs.Hops.{IsHeard, IsHop, coming_of, entry_of, first_span, gap_of, greatest_of, moved, moved_offset, spread_of};
ghost use Rattle.stream_bounds.specs.Classes.{IsPeriodic};

use abstract_port::Change;
use delay_bounds::Bound;
use gates::gate_list::Schedule;
use stream_bounds::{BoundsSettings, needs_of, plus};
use traffic::{Stream, earliest};
use wire_time::{MAX_MOMENT, Rate};

/// A port of a network, with the schedule that is in force there for ever.
#[derive(Clone, Debug, Drop)]
pub struct PathPort {
    /// By what its classes are judged.
    pub settings: BoundsSettings,
    /// The change that set up its schedule.
    pub change: Change,
    /// The schedule.
    pub schedule: Schedule,
    /// For how long the schedule is in force at moment zero, in picoseconds. Offsets count from that moment.
    pub since: u128,
}

/// When frames of a stream come to a port, in picoseconds: each counts from the frame's nominal moment, and has in it
/// for how long the port's schedule is in force at moment zero.
#[derive(Clone, Copy, Debug, PartialEq, Eq)]
pub struct Span {
    /// The earliest.
    pub earliest: u128,
    /// The latest.
    pub latest: u128,
}

/// What is known of when frames of a stream come to a port.
#[derive(Clone, Copy, Debug, PartialEq, Eq)]
pub enum Coming {
    /// Nothing yet: the port before is still to be judged.
    Awaited,
    /// Nothing: a port before gives no bounds.
    Unknown,
    /// None comes: a port before drops each.
    Never,
    /// Each comes within a span.
    Within(Span),
}

/// A port on the way of a stream. The ways follow one another, and each has its ports in order.
#[derive(Clone, Copy, Debug, PartialEq, Eq)]
pub struct Hop {
    /// The stream, as its talker sends it.
    pub stream: Stream,
    /// The stream's number.
    pub number: u32,
    /// Whether its frames come from the talker.
    pub first: bool,
    /// The number of the port.
    pub port: u32,
    /// The class of the frames there; None where the port drops each.
    pub class: Option<u8>,
    /// The least time from the last octet that the port before sends to the arrival, in picoseconds.
    pub least: u128,
    /// The greatest.
    pub greatest: u128,
    /// When the frames come.
    pub coming: Coming,
    /// How long they wait here, where the class is judged and has bounds.
    pub bound: Option<Bound>,
}

/// By how much a frame may come later than at the earliest moment that is known, in picoseconds.
fn spread_of(stream: &Stream, span: Span) -> u128
    ensures { result ≡ spread_of stream.now span }
{
    let width = span.latest.saturating_sub(span.earliest);
    match stream.offset {
        Some(_) => width,
        None => plus(stream.jitter, width),
    }
}

/// The offset of a stream at a port, where it is known.
fn moved_offset(offset: Option<u128>, span: Span) -> Option<u128>
    ensures { result ≡ moved_offset offset span }
{
    match offset {
        Some(offset) => Some(plus(offset, span.earliest)),
        None => None,
    }
}

/// A stream as a port gets it.
pub fn moved(stream: &Stream, span: Span) -> Stream
    ensures { result ≡ moved stream.now span }
{
    Stream {
        offset: moved_offset(stream.offset, span),
        jitter: spread_of(stream, span),
        ..*stream
    }
}

/// When frames come, where their span is one that can be judged by: its moments are no later than the greatest.
pub fn coming_of(stream: &Stream, span: Span) -> Coming
    requires { IsPeriodic stream.now }
    ensures coming { result ≡ coming_of stream.now span }
    ensures heard { IsHeard stream.now result }
{
    let moved = moved(stream, span);
    if earliest(&moved) <= MAX_MOMENT && moved.jitter <= MAX_MOMENT {
        Coming::Within(span)
    } else {
        Coming::Unknown
    }
}

/// The span of a stream's frames at its first port, whose schedule is in force for so long at moment zero: from the
/// nominal moment on, for as long as the jitter of its talker, where its offset is known.
pub fn first_span(stream: &Stream, since: u128) -> Span
    ensures { result ≡ first_span stream.now since }
{
    let width = match stream.offset {
        Some(_) => stream.jitter,
        None => 0,
    };
    Span {
        earliest: since,
        latest: plus(since, width),
    }
}

/// A stream as a port gets it, where that is known, and else as its talker sends it.
pub fn entry_of(hop: &Hop) -> Stream
    requires { IsHop hop.now }
    ensures entry { result ≡ entry_of hop.now }
    ensures periodic { IsPeriodic result }
{
    match hop.coming {
        Coming::Within(span) => moved(&hop.stream, span),
        Coming::Awaited | Coming::Unknown | Coming::Never => hop.stream,
    }
}

/// For how long the gap behind a frame occupies the wire, in picoseconds.
///
/// IEEE Std 802.3, 4.4.2.
pub fn gap_of(rate: Rate) -> u128
    ensures { result ≡ gap_of rate }
{
    12 * u128::from(rate.ps_per_octet())
}

/// How long frames wait at most, from the earliest moment at which they may come, in picoseconds.
pub fn greatest_of(stream: &Stream, span: Span, bound: Bound) -> u128
    ensures { result ≡ greatest_of stream.now span bound }
{
    match stream.offset {
        Some(_) => bound.greatest,
        None => plus(bound.greatest, span.latest.saturating_sub(span.earliest)),
    }
}
