//! What is known of all hops before any class is judged.

ghost use Rattle.std.specs.Prelude.{◌≡◌, ◌++◌, All, Bool, IfErr, IfOk, IfSome, List, false, option_to_list, slice_get};
ghost use Rattle.job.specs.declared.fault.Fault.TheVariants as Faults;
ghost use Rattle.path_bounds.specs.Hops.{IsHeard, IsHop};
ghost use Rattle.path_bounds.specs.Start.{begun, class_at, hop_of, start_hops, with_port};
ghost use Rattle.path_bounds.specs.declared.hop.Hop.{Hop};
ghost use Rattle.stream_bounds.specs.Classes.{IsPeriodic};

use crate::hop::{Coming, Hop, PathPort, coming_of, first_span};
use std::alloc::Global;
use stream_bounds::{BoundsFault, class_of, dropped_of};
use traffic::Stream;

/// A port on the way of a stream, as it is given.
#[derive(Clone, Copy, Debug, PartialEq, Eq)]
pub struct WayHop {
    /// The stream.
    pub stream: Stream,
    /// Its number.
    pub number: u32,
    /// Whether its frames come from the talker.
    pub first: bool,
    /// The number of the port.
    pub port: u32,
    /// The least time from the last octet that the port before sends to the arrival, in picoseconds.
    pub least: u128,
    /// The greatest.
    pub greatest: u128,
}

/// The class of a stream's frames at a port; None where it drops each.
fn class_at(port: &PathPort, stream: &Stream) -> Option<u8>
    ensures { result ≡ class_at port.now stream.now }
{
    match class_of(&port.settings, &port.change, stream) {
        Ok(class) => Some(class),
        Err(_) => None,
    }
}

/// What is known of when frames come to a port, where no port before drops each: of a stream of whose frames the port
/// drops some, nothing.
fn begun(port: &PathPort, hop: &WayHop) -> Coming
    requires { IsPeriodic hop.now.stream }
    ensures coming { result ≡ begun port.now hop.now }
    ensures heard { IsHeard hop.now.stream result }
{
    if dropped_of(&port.settings, &port.change, &hop.stream).is_some() {
        Coming::Unknown
    } else if hop.first {
        coming_of(&hop.stream, first_span(&hop.stream, port.since))
    } else {
        Coming::Awaited
    }
}

/// A hop, where a port before drops each frame or not.
fn hop_of(port: &PathPort, hop: &WayHop, never: bool) -> Hop
    requires { IsPeriodic hop.now.stream }
    ensures hop { result ≡ hop_of port.now hop.now never }
    ensures is { IsHop result }
{
    let coming = if never {
        Coming::Never
    } else {
        begun(port, hop)
    };
    Hop {
        stream: hop.stream,
        number: hop.number,
        first: hop.first,
        port: hop.port,
        class: class_at(port, &hop.stream),
        least: hop.least,
        greatest: hop.greatest,
        coming,
        bound: None,
    }
}

/// A hop before any class is judged, where its port is there; and whether none comes to the one behind it.
#[derive(Clone, Copy)]
struct NextHop {
    hop: Option<Hop>,
    never: bool,
}

/// A hop, where none comes to it from the one before or not.
fn begin_one(ports: &[PathPort], way: &WayHop, never: bool) -> NextHop
    requires { IsPeriodic way.now.stream }
    ensures begun { (behind : Bool → List Hop) →
        with_port (slice_get ports.now way.now.port) way.now never behind
        ≡ option_to_list result.hop ++ behind result.never }
    ensures is { IfSome result.hop IsHop }
{
    let Some(port) = ports.get(way.port as usize) else {
        return NextHop { hop: None, never };
    };
    let never = never && !way.first;
    let hop = hop_of(port, way, never);
    NextHop {
        hop: Some(hop),
        never: never || hop.class.is_none(),
    }
}

/// Puts a hop behind others, where there is one.
fn push_some(hops: &mut Vec<Hop, Global>, hop: Option<Hop>) -> Result<(), BoundsFault>
    requires all { All IsHop hops.old.items }
    requires is { IfSome hop IsHop }
    ensures hops { IfOk result (λ done. hops.new.items ≡ hops.old.items ++ option_to_list hop) }
    ensures all { All IsHop hops.new.items }
    ensures memory { IfErr result (λ fault. fault ≡ Faults.Memory) }
{
    let Some(hop) = hop else {
        return Ok(());
    };
    match hops.push(hop) {
        Ok(()) => Ok(()),
        Err(_) => Err(BoundsFault::Memory),
    }
}

/// All hops of ways, before any class is judged. A hop at a port that isn't there is left out.
pub fn start_hops(
    alloc: Global,
    ports: &[PathPort],
    ways: &[WayHop],
) -> Result<Vec<Hop, Global>, BoundsFault>
    requires { All (λ hop. IsPeriodic hop.stream) ways.now }
    ensures hops { IfOk result (λ hops. hops.items ≡ start_hops ports.now false ways.now) }
    ensures all { IfOk result (λ hops. All IsHop hops.items) }
    ensures memory { IfErr result (λ fault. fault ≡ Faults.Memory) }
{
    let mut hops = Vec::new(alloc);
    let mut never = false;
    for way in ways {
        let begun = begin_one(ports, way, never);
        never = begun.never;
        push_some(&mut hops, begun.hop)?;
    }
    Ok(hops)
}
