//! The ways of a network's streams.

ghost use Rattle.std.specs.Prelude.{◌≡◌, ◌++◌, ◌∷◌, [], All, IfOk, None, true};
ghost use Rattle.network.specs.Network.{first_of};
ghost use Rattle.network.specs.Reads.{seen};
ghost use Rattle.paths.specs.Ways.{is_periodic, no_times, times_by, times_of, way_from, way_hop, way_of, ways_from, ways_in, ways_with};
ghost use Rattle.stream_bounds.specs.Classes.{IsPeriodic};

use network::network_table::{Network, NetworkLink, NetworkStream};
use path_bounds::WayHop;
use std::alloc::{AllocError, Global};
use traffic::{Stream, earliest};
use wire_time::MAX_MOMENT;

/// The times of a link, in picoseconds.
#[derive(Clone, Copy, Debug, PartialEq, Eq)]
pub struct LinkTimes {
    /// The least.
    pub least: u128,
    /// The greatest.
    pub greatest: u128,
}

/// The times of a link, if it is one from a port to another.
fn times_of(from: usize, to: usize, link: &NetworkLink) -> Option<LinkTimes>
    ensures { result ≡ times_of from to link.now }
{
    if link.from == from && link.to == to {
        Some(LinkTimes {
            least: link.least,
            greatest: link.greatest,
        })
    } else {
        None
    }
}

/// The times of the link from a port to another, if there is one.
fn link_times(links: &[NetworkLink], from: usize, to: usize) -> Option<LinkTimes>
    ensures { result ≡ first_of (times_of from to) links.now }
{
    for link in links {
        if let Some(times) = times_of(from, to, link) {
            return Some(times);
        }
    }
    None
}

/// No link.
fn no_times() -> LinkTimes
    ensures { result ≡ no_times }
{
    LinkTimes {
        least: 0,
        greatest: 0,
    }
}

/// The times in front of a port, behind one or none.
fn times_by(links: &[NetworkLink], before: Option<usize>, to: usize) -> LinkTimes
    ensures { result ≡ times_by links.now before to }
{
    match before {
        None => no_times(),
        Some(from) => link_times(links, from, to).unwrap_or(no_times()),
    }
}

/// A port of a way.
fn way_hop(
    stream: &Stream,
    number: u32,
    before: Option<usize>,
    port: usize,
    times: LinkTimes,
) -> WayHop
    ensures { result ≡ way_hop stream.now number before port times }
{
    WayHop {
        stream: *stream,
        number,
        first: before.is_none(),
        port: port.min(u32::MAX as usize) as u32,
        least: times.least,
        greatest: times.greatest,
    }
}

/// Puts a port of a way behind others.
fn put_hop(kept: &mut Vec<WayHop, Global>, hop: WayHop) -> Result<(), AllocError>
    requires periodic { IsPeriodic hop.stream }
    requires all { All (λ hop. IsPeriodic hop.stream) kept.old.items }
    ensures hops { IfOk result (λ _. kept.new.items ≡ kept.old.items ++ hop ∷ []) }
    ensures all { All (λ hop. IsPeriodic hop.stream) kept.new.items }
{
    match kept.push(hop) {
        Ok(()) => Ok(()),
        Err(_) => Err(AllocError),
    }
}

/// Puts the ports of a way behind others.
fn put_way(
    kept: &mut Vec<WayHop, Global>,
    links: &[NetworkLink],
    stream: &Stream,
    number: u32,
    ports: &[usize],
) -> Result<(), AllocError>
    requires periodic { IsPeriodic stream.now }
    requires all { All (λ hop. IsPeriodic hop.stream) kept.old.items }
    ensures way { IfOk result
        (λ _. kept.new.items ≡ way_from links.now stream.now number None kept.old.items ports.now) }
    ensures all { All (λ hop. IsPeriodic hop.stream) kept.new.items }
{
    let mut before = None;
    for port in ports {
        let times = times_by(links, before, *port);
        put_hop(kept, way_hop(stream, number, before, *port, times))?;
        before = Some(*port);
    }
    Ok(())
}

/// The ports of a way: without any, the one port.
fn way_of(ports: &[usize]) -> &[usize]
    ensures { result.now ≡ way_of ports.now }
{
    if ports.is_empty() { &[0] } else { ports }
}

/// Whether the frames of a stream come one after another, and its times are no later than the greatest moment.
fn is_periodic(stream: &Stream) -> bool
    ensures value { result ≡ is_periodic stream.now }
    ensures periodic { result ≡ true → IsPeriodic stream.now }
{
    (0 < stream.period && stream.period <= MAX_MOMENT)
        && (earliest(stream) <= MAX_MOMENT && stream.jitter <= MAX_MOMENT)
}

/// Puts the way of a stream behind others.
fn put_stream(
    kept: &mut Vec<WayHop, Global>,
    network: &Network<Global>,
    number: u32,
    stream: &NetworkStream,
) -> Result<(), AllocError>
    requires all { All (λ hop. IsPeriodic hop.stream) kept.old.items }
    ensures way { IfOk result
        (λ _. kept.new.items
        ≡ ways_with (seen network.now)
        (is_periodic stream.now.stream) stream.now number kept.old.items) }
    ensures all { All (λ hop. IsPeriodic hop.stream) kept.new.items }
{
    if !is_periodic(&stream.stream) {
        return Ok(());
    }
    let ports = way_of(network.way(stream));
    put_way(
        kept,
        network.links.as_slice(),
        &stream.stream,
        number,
        ports,
    )
}

/// Puts the ways of streams behind others.
fn put_streams(
    kept: &mut Vec<WayHop, Global>,
    network: &Network<Global>,
    streams: &[NetworkStream],
) -> Result<(), AllocError>
    requires all { All (λ hop. IsPeriodic hop.stream) kept.old.items }
    ensures ways { IfOk result (λ _.
        kept.new.items ≡ ways_from (seen network.now) 0 kept.old.items streams.now) }
    ensures all { All (λ hop. IsPeriodic hop.stream) kept.new.items }
{
    let mut number: u32 = 0;
    for stream in streams {
        put_stream(kept, network, number, stream)?;
        number = number.saturating_add(1);
    }
    Ok(())
}

/// The ways of all streams of a network.
pub(crate) fn ways_of(
    alloc: Global,
    network: &Network<Global>,
) -> Result<Vec<WayHop, Global>, AllocError>
    ensures ways { IfOk result (λ ways. ways.items ≡ ways_in (seen network.now)) }
    ensures all { IfOk result (λ ways. All (λ hop. IsPeriodic hop.stream) ways.items) }
{
    let mut kept = Vec::new(alloc);
    put_streams(&mut kept, network, network.streams.as_slice())?;
    Ok(kept)
}
