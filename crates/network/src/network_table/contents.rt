//! A network as it is kept.

ghost use Rattle.std.specs.Prelude.{◌≡◌, ◌==◌, IfOk};
ghost use Rattle.std.specs.List.{list_any};
ghost use Rattle.network.specs.Network.{is_crossed, no_net, part, port_of};
ghost use Rattle.network.specs.Reads.{seen};

use crate::network_table::lookups::{is_among, place_of};
use crate::network_table::name::Name;
use crate::network_table::said::PortValues;
use std::alloc::{AllocError, Allocator};
use traffic::Stream;

/// What a line says that a port has.
#[derive(Clone, Copy, Debug, PartialEq, Eq)]
pub struct PortSetting {
    /// The port's number: its place among the names.
    pub port: usize,
    /// What it has, where it is said.
    pub values: PortValues,
    /// The number of the line.
    pub line: u32,
}

/// A link: from the last octet that the first port sends to the arrival in a queue of the second.
#[derive(Clone, Copy, Debug, PartialEq, Eq)]
pub struct NetworkLink {
    /// The number of the port that sends.
    pub from: usize,
    /// The number of the port to whose queues frames come.
    pub to: usize,
    /// The least time, in picoseconds.
    pub least: u128,
    /// The greatest time, in picoseconds, at least the least.
    pub greatest: u128,
    /// The number of the line that says it.
    pub line: u32,
}

/// By how much the clocks of two ports differ.
#[derive(Clone, Copy, Debug, PartialEq, Eq)]
pub struct Clocks {
    /// The greatest difference, in picoseconds.
    pub difference: u128,
    /// The number of the line that says it.
    pub line: u32,
}

/// A stream, which has a period, and its way.
#[derive(Clone, Copy, Debug, PartialEq, Eq)]
pub struct NetworkStream {
    /// What its line says, as in a table of streams.
    pub stream: Stream,
    /// The number of the line.
    pub line: u32,
    /// Where the ports of its way begin among those of all ways.
    pub begin: usize,
    /// How many ports its way has. None are said where the network has one port, or none with a name.
    pub hops: usize,
}

/// A network that lines say.
#[derive(Drop)]
pub struct Network<A: Allocator> {
    /// The names of the ports, in the order in which they are first mentioned. A port's number is its place here.
    pub names: Vec<Name, A>,
    /// What lines say that ports have, in their order. Each port has at most one.
    pub settings: Vec<PortSetting, A>,
    /// The links, in the order of their lines. From one port to another there is at most one.
    pub links: Vec<NetworkLink, A>,
    /// By how much the clocks of two ports differ, where it is said.
    pub clocks: Option<Clocks>,
    /// The streams, in the order of their lines.
    pub streams: Vec<NetworkStream, A>,
    /// The numbers of the ports of their ways, one way after another.
    pub ways: Vec<usize, A>,
}

/// So many of the ports of all ways, from a place on, as far as there are any.
pub(crate) fn part(ways: &[usize], begin: usize, hops: usize) -> &[usize]
    ensures { result.now ≡ part ways.now begin hops }
{
    if begin >= ways.len() {
        return &[];
    }
    let (_, rest) = ways.split_at(begin);
    if hops >= rest.len() {
        return rest;
    }
    let (way, _) = rest.split_at(hops);
    way
}

/// Whether some stream says no way.
fn has_wayless(streams: &[NetworkStream]) -> bool
    ensures { result ≡ list_any (λ s. s.hops == 0) streams.now }
{
    streams.iter().any(|stream| stream.hops == 0)
}

impl<A: Allocator + Clone> Network<A> {
    /// No port, no link and no stream.
    pub(crate) fn new(alloc: &A) -> Result<Network<A>, AllocError>
        ensures { IfOk result (λ network. seen network ≡ no_net) }
    {
        Ok(Network {
            names: Vec::new(alloc.clone()?),
            settings: Vec::new(alloc.clone()?),
            links: Vec::new(alloc.clone()?),
            clocks: None,
            streams: Vec::new(alloc.clone()?),
            ways: Vec::new(alloc.clone()?),
        })
    }
}

impl<A: Allocator> Network<A> {
    /// The numbers of the ports of a stream's way, in order; none where no way is said.
    pub fn way(&self, stream: &NetworkStream) -> &[usize]
        ensures { result.now ≡ part self.now.ways.items stream.now.begin stream.now.hops }
    {
        part(self.ways.as_slice(), stream.begin, stream.hops)
    }
    /// The number of the port of this name. In a network in which no port has a name, the one port has any.
    pub fn port_of(&self, name: &[u8]) -> Option<usize>
        ensures { result ≡ port_of (seen self.now) name.now }
    {
        let names = self.names.as_slice();
        if names.is_empty() {
            return Some(0);
        }
        place_of(names, name)
    }

    /// Whether some stream crosses the port of this number.
    pub fn is_crossed(&self, port: usize) -> bool
        ensures { result ≡ is_crossed (seen self.now) port }
    {
        has_wayless(self.streams.as_slice()) || is_among(port, self.ways.as_slice())
    }
}
