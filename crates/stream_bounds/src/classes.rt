//! Which streams are of which class, and what they are as flows.

ghost use Rattle.std.specs.Prelude.{◌≡◌, ◌<◌, ◌≤◌, All, IfErr, IfOk, IfSome, map};
ghost use Rattle.abstract_port.specs.AbstractPort.{class_for, limit_of, verdict};
ghost use Rattle.wire_time.specs.declared.TheConstants.{CLASSES};
ghost use Rattle.burst_bounds.specs.Talkers.{IsTalker};
ghost use Rattle.delay_bounds.specs.Claim.{IsFlow};
ghost use Rattle.window_bounds.specs.Flows.{IsFlow as IsJittered};
ghost use Rattle.job.specs.declared.fault.Fault.TheVariants as Faults;
ghost use Rattle.stream_bounds.specs.Classes.{are_any, are_equal, class_of, dropped_of, first_len, flow_of, frame_of, has_any, has_inexact, has_len, header, is_any, jittered_of, is_class, is_exact, len_within, most_sdu, port_of, streams_of, talker_of, whole_len, IsPeriodic, IsShort};
ghost use Rattle.stream_bounds.specs.Verdicts.{late_by, range_of};

use crate::faults::BoundsFault;
use crate::settings::BoundsSettings;
use crate::verdicts::plus;
use abstract_port::{Change, Dropped};
use burst_bounds::Talker;
use delay_bounds::{Bound, Flow};
use port::default_class;
use schedule_check::map_after;
use std::alloc::Allocator;
use traffic::{Stream, earliest};
use window_bounds::JitteredFlow;
use wire_time::{CLASSES, Frame, Rate, occupancy, sdu};

/// A frame of a stream, of this length.
fn frame_of(stream: &Stream, len: u32) -> Frame
    ensures { result ≡ frame_of stream.now len }
{
    Frame {
        id: stream.first_id,
        priority: stream.priority,
        len,
        tagged: stream.tagged,
    }
}

/// The class of a priority by the map that the port has once it has accepted a change; by no map the class of that
/// number, and class 0 for 8 to 15.
fn class_for(settings: &BoundsSettings, change: &Change, priority: u8) -> Option<u8>
    ensures class { result ≡ class_for (port_of settings.now change.now) priority }
    ensures within { IfSome result (λ class. class < CLASSES) }
{
    match map_after(settings.map, change.map) {
        Some(map) => map.class_of(priority),
        None => default_class(priority),
    }
}

/// The longest service data unit of a class by a change, in octets; 0 for none.
fn limit_of(settings: &BoundsSettings, change: &Change, class: u8) -> u32
    requires { class < CLASSES }
    ensures { result ≡ limit_of (port_of settings.now change.now) class }
{
    match change.max_sdu {
        Some(limits) => limits[class as usize],
        None => 0,
    }
}

/// The class whose queue takes a frame, where there is room, or why it is dropped.
fn class_by(settings: &BoundsSettings, change: &Change, frame: &Frame) -> Result<u8, Dropped>
    ensures class { result ≡ verdict (port_of settings.now change.now) frame.now }
    ensures within { IfOk result (λ class. class < CLASSES) }
{
    let Some(class) = class_for(settings, change, frame.priority) else {
        return Err(Dropped::NoClass);
    };
    let Some(octets) = sdu(frame) else {
        return Err(Dropped::Runt);
    };
    if settings.port.mtu() < octets {
        return Err(Dropped::TooLong);
    }
    let limit = limit_of(settings, change, class);
    if limit != 0 && limit < octets {
        return Err(Dropped::OverSdu);
    }
    if settings.port.room() == 0 {
        return Err(Dropped::Full);
    }
    Ok(class)
}

/// The octets of the header of a stream's frames, with a customer VLAN tag or without.
fn header(stream: &Stream) -> u32
    ensures { result ≡ header stream.now }
{
    if stream.tagged { 18 } else { 14 }
}

/// The length of its shortest frame that has a whole header, if one has.
fn whole_len(stream: &Stream) -> u32
    ensures { result ≡ whole_len stream.now }
{
    stream.len.min(stream.shortest.max(header(stream)))
}

/// The class whose queue takes some frames of a stream, where there is room; or why each of them is dropped.
pub fn class_of(settings: &BoundsSettings, change: &Change, stream: &Stream) -> Result<u8, Dropped>
    ensures class { result ≡ class_of settings.now change.now stream.now }
    ensures within { IfOk result (λ class. class < CLASSES) }
{
    class_by(settings, change, &frame_of(stream, whole_len(stream)))
}

/// Why the longest frames of a stream are dropped, or else the shortest, if they are.
pub fn dropped_of(settings: &BoundsSettings, change: &Change, stream: &Stream) -> Option<Dropped>
    ensures { result ≡ dropped_of settings.now change.now stream.now }
{
    if let Err(why) = class_by(settings, change, &frame_of(stream, stream.len)) {
        return Some(why);
    }
    class_by(settings, change, &frame_of(stream, stream.shortest)).err()
}

/// The greatest service data unit that a class takes, in octets.
pub fn most_sdu(settings: &BoundsSettings, change: &Change, class: u8) -> u32
    requires { class < CLASSES }
    ensures most { result ≡ most_sdu settings.now change.now class }
    ensures within { result ≤ settings.now.port.mtu }
{
    let limit = limit_of(settings, change, class);
    if limit == 0 {
        settings.port.mtu()
    } else {
        settings.port.mtu().min(limit)
    }
}

/// Whether that is this class.
pub fn is_class(class: u8, found: Result<u8, Dropped>) -> bool
    ensures { result ≡ is_class class found }
{
    match found {
        Ok(other) => other == class,
        Err(_) => false,
    }
}

/// The streams of a class, in the order of the table.
pub fn streams_of<A: Allocator>(
    alloc: A,
    settings: &BoundsSettings,
    change: &Change,
    streams: &[Stream],
    class: u8,
) -> Result<Vec<Stream, A>, BoundsFault>
    requires { All IsPeriodic streams.now }
    ensures streams { IfOk result
        (λ own. own.items ≡ streams_of settings.now change.now class streams.now) }
    ensures periodic { IfOk result (λ own. All IsPeriodic own.items) }
    ensures memory { IfErr result (λ fault. fault ≡ Faults.Memory) }
{
    let mut own = Vec::new(alloc);
    for stream in streams {
        if is_class(class, class_of(settings, change, stream)) {
            match own.push(*stream) {
                Ok(()) => {}
                Err(_) => return Err(BoundsFault::Memory),
            }
        }
    }
    Ok(own)
}

/// A stream as a flow that goes on for ever.
fn flow_of(rate: Rate, stream: &Stream) -> Flow
    requires { IsPeriodic stream.now }
    ensures flow { result ≡ flow_of rate stream.now }
    ensures fits { IsFlow result }
{
    Flow {
        need: occupancy(rate, stream.len),
        period: stream.period,
        offset: earliest(stream),
    }
}

/// Streams as flows.
pub fn flows_of<A: Allocator>(
    alloc: A,
    rate: Rate,
    streams: &[Stream],
) -> Result<Vec<Flow, A>, BoundsFault>
    requires { All IsPeriodic streams.now }
    ensures flows { IfOk result (λ flows. flows.items ≡ map (flow_of rate) streams.now) }
    ensures fit { IfOk result (λ flows. All IsFlow flows.items) }
    ensures memory { IfErr result (λ fault. fault ≡ Faults.Memory) }
{
    let mut flows = Vec::new(alloc);
    for stream in streams {
        match flows.push(flow_of(rate, stream)) {
            Ok(()) => {}
            Err(_) => return Err(BoundsFault::Memory),
        }
    }
    Ok(flows)
}

/// The octets of the longest frame of a stream, of those up to a service data unit.
fn len_within(sdu: u32, stream: &Stream) -> u32
    ensures { result ≡ len_within sdu stream.now }
{
    let len = stream.len;
    let most = u64::from(header(stream)) + u64::from(sdu);
    if most < u64::from(len) {
        most as u32
    } else {
        len
    }
}

/// A stream as a talker, of whose frames is known how far apart they come; those up to a service data unit are taken.
#[tactic(auto, unfolding(crate::specs::Classes::talker_of))]
fn talker_of(rate: Rate, sdu: u32, stream: &Stream) -> Talker
    requires { IsPeriodic stream.now }
    ensures talker { result ≡ talker_of rate sdu stream.now }
    ensures fits { IsTalker result }
    ensures short { IsShort result }
{
    Talker {
        need: occupancy(rate, len_within(sdu, stream)),
        period: stream.period,
        jitter: stream.jitter,
    }
}

/// Streams as talkers, of whose frames those up to a service data unit are taken.
pub fn talkers_of<A: Allocator>(
    alloc: A,
    rate: Rate,
    sdu: u32,
    streams: &[Stream],
) -> Result<Vec<Talker, A>, BoundsFault>
    requires { All IsPeriodic streams.now }
    ensures talkers { IfOk result
        (λ talkers. talkers.items ≡ map (talker_of rate sdu) streams.now) }
    ensures fit { IfOk result (λ talkers. All IsTalker talkers.items) }
    ensures short { IfOk result (λ talkers. All IsShort talkers.items) }
    ensures memory { IfErr result (λ fault. fault ≡ Faults.Memory) }
{
    let mut talkers = Vec::new(alloc);
    for stream in streams {
        match talkers.push(talker_of(rate, sdu, stream)) {
            Ok(()) => {}
            Err(_) => return Err(BoundsFault::Memory),
        }
    }
    Ok(talkers)
}

/// A stream as a flow, each of whose frames comes in a window of its own; those up to a service data unit are taken.
#[tactic(auto, unfolding(crate::specs::Classes::jittered_of))]
fn jittered_of(rate: Rate, sdu: u32, stream: &Stream) -> JitteredFlow
    requires { IsPeriodic stream.now }
    ensures flow { result ≡ jittered_of rate sdu stream.now }
    ensures fits { IsJittered result }
{
    let longest = occupancy(rate, len_within(sdu, stream));
    JitteredFlow {
        offset: earliest(stream),
        period: stream.period,
        jitter: stream.jitter,
        shortest: occupancy(rate, whole_len(stream)).min(longest),
        longest,
    }
}

/// Streams as flows with windows, of whose frames those up to a service data unit are taken.
pub fn jittered_flows_of<A: Allocator>(
    alloc: A,
    rate: Rate,
    sdu: u32,
    streams: &[Stream],
) -> Result<Vec<JitteredFlow, A>, BoundsFault>
    requires { All IsPeriodic streams.now }
    ensures flows { IfOk result (λ flows. flows.items ≡ map (jittered_of rate sdu) streams.now) }
    ensures fit { IfOk result (λ flows. All IsJittered flows.items) }
    ensures memory { IfErr result (λ fault. fault ≡ Faults.Memory) }
{
    let mut flows = Vec::new(alloc);
    for stream in streams {
        match flows.push(jittered_of(rate, sdu, stream)) {
            Ok(()) => {}
            Err(_) => return Err(BoundsFault::Memory),
        }
    }
    Ok(flows)
}

/// By how much a frame of a stream may come later than the moment that its bounds count from.
fn late_by(stream: &Stream) -> u128
    ensures { result ≡ late_by stream.now }
{
    match stream.offset {
        Some(_) => stream.jitter,
        None => 0,
    }
}

/// The bounds of a stream of a class whose frames wait for so long at most.
fn range_of(wait: u128, stream: &Stream) -> Bound
    ensures { result ≡ range_of wait stream.now }
{
    Bound {
        least: 0,
        greatest: plus(wait, late_by(stream)),
    }
}

/// The bounds of the streams of a class whose frames wait for so long at most.
pub fn ranges_of<A: Allocator>(
    alloc: A,
    wait: u128,
    streams: &[Stream],
) -> Result<Vec<Bound, A>, BoundsFault>
    ensures ranges { IfOk result (λ ranges. ranges.items ≡ map (range_of wait) streams.now) }
    ensures memory { IfErr result (λ fault. fault ≡ Faults.Memory) }
{
    let mut ranges = Vec::new(alloc);
    for stream in streams {
        match ranges.push(range_of(wait, stream)) {
            Ok(()) => {}
            Err(_) => return Err(BoundsFault::Memory),
        }
    }
    Ok(ranges)
}

/// The first ids of streams.
pub fn ids_of<A: Allocator>(alloc: A, streams: &[Stream]) -> Result<Vec<u64, A>, BoundsFault>
    ensures ids { IfOk result (λ ids. ids.items ≡ map (λ x. x.first_id) streams.now) }
    ensures memory { IfErr result (λ fault. fault ≡ Faults.Memory) }
{
    let mut ids = Vec::new(alloc);
    for stream in streams {
        match ids.push(stream.first_id) {
            Ok(()) => {}
            Err(_) => return Err(BoundsFault::Memory),
        }
    }
    Ok(ids)
}

/// Whether the frames of a stream come at exact moments, and have one length.
fn is_exact(stream: &Stream) -> bool
    ensures { result ≡ is_exact stream.now }
{
    stream.offset.is_some() && stream.jitter == 0 && stream.shortest == stream.len
}

/// Whether those of some stream do not.
pub fn has_inexact(streams: &[Stream]) -> bool
    ensures { result ≡ has_inexact streams.now }
{
    streams.iter().any(|stream| !is_exact(stream))
}

/// Whether nothing is known of when the frames of a stream come but how far apart.
fn is_any(stream: &Stream) -> bool
    ensures { result ≡ is_any stream.now }
{
    stream.offset.is_none()
}

/// Whether it is so of all streams.
pub fn are_any(streams: &[Stream]) -> bool
    ensures { result ≡ are_any streams.now }
{
    streams.iter().all(|stream| is_any(stream))
}

/// Whether it is so of some.
pub fn has_any(streams: &[Stream]) -> bool
    ensures { result ≡ has_any streams.now }
{
    streams.iter().any(|stream| is_any(stream))
}

/// The length of the first stream's frames.
fn first_len(streams: &[Stream]) -> u32
    ensures { result ≡ first_len streams.now }
{
    match streams {
        [] => 0,
        [first, ..] => first.len,
    }
}

/// Whether the frames of a stream have this length.
fn has_len(len: u32, stream: &Stream) -> bool
    ensures { result ≡ has_len len stream.now }
{
    stream.len == len && stream.shortest == len
}

/// Whether the frames of all streams have one length.
pub fn are_equal(streams: &[Stream]) -> bool
    ensures { result ≡ are_equal streams.now }
{
    let len = first_len(streams);
    streams.iter().all(|stream| has_len(len, stream))
}
