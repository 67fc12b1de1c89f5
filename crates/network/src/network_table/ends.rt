//! Judges the ways of streams, once all lines are known.

ghost use Rattle.std.specs.Prelude.{◌≡◌, None};
ghost use Rattle.network.specs.Network.{bad_stream, first_of, hop_fault, stream_fault, way_fault};
ghost use Rattle.network.specs.Reads.{seen};

use crate::network_table::contents::{Network, NetworkStream};
use crate::network_table::faults::{BadNetwork, NetworkFault};
use crate::network_table::lookups::{link_line, name_at};
use std::alloc::Allocator;

/// What is wrong with the way from one port to the next.
fn hop_fault<A: Allocator>(
    network: &Network<A>,
    before: Option<usize>,
    to: usize,
) -> Option<NetworkFault>
    ensures { result ≡ hop_fault (seen network.now) before to }
{
    let from = before?;
    match link_line(from, to, network.links.as_slice()) {
        Some(_) => None,
        None => {
            let names = network.names.as_slice();
            Some(NetworkFault::NoLink(name_at(names, from), name_at(names, to)))
        }
    }
}

/// What is wrong with a way first.
fn way_fault<A: Allocator>(network: &Network<A>, way: &[usize]) -> Option<NetworkFault>
    ensures { result ≡ way_fault (seen network.now) None way.now }
{
    let mut before = None;
    for hop in way {
        if let Some(fault) = hop_fault(network, before, *hop) {
            return Some(fault);
        }
        before = Some(*hop);
    }
    None
}

/// What is wrong with the way of a stream. One without a way crosses the one port.
fn stream_fault<A: Allocator>(network: &Network<A>, stream: &NetworkStream) -> Option<NetworkFault>
    ensures { result ≡ stream_fault (seen network.now) stream.now }
{
    if stream.hops > 0 {
        return way_fault(network, network.way(stream));
    }
    if network.names.len() > 1 {
        Some(NetworkFault::NoWay)
    } else {
        None
    }
}

/// What is wrong with the way of a stream, with the number of its line.
fn bad_stream<A: Allocator>(network: &Network<A>, stream: &NetworkStream) -> Option<BadNetwork>
    ensures { result ≡ bad_stream (seen network.now) stream.now }
{
    let fault = stream_fault(network, stream)?;
    Some(BadNetwork::new(stream.line, fault))
}

/// The fault of the first of these streams whose way can't be gone.
fn first_bad_of<A: Allocator>(network: &Network<A>, streams: &[NetworkStream]) -> Option<BadNetwork>
    ensures { result ≡ first_of (bad_stream (seen network.now)) streams.now }
{
    for stream in streams {
        if let Some(bad) = bad_stream(network, stream) {
            return Some(bad);
        }
    }
    None
}

/// The fault of the first stream whose way can't be gone.
pub(crate) fn first_bad_stream<A: Allocator>(network: &Network<A>) -> Option<BadNetwork>
    ensures { result ≡ first_of (bad_stream (seen network.now)) network.now.streams.items }
{
    first_bad_of(network, network.streams.as_slice())
}
