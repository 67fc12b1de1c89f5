//! In which order the ports of a network are planned.

use network::network_table::Network;
use std::alloc::{AllocError, Global};

/// The ports that have a plan.
#[derive(Drop)]
pub(crate) struct Done {
    ports: Vec<usize>,
}

impl Done {
    /// None.
    pub fn new(alloc: Global) -> Done {
        Done {
            ports: Vec::new(alloc),
        }
    }

    /// One more.
    pub fn add(&mut self, port: usize) -> Result<(), AllocError> {
        match self.ports.push(port) {
            Ok(()) => Ok(()),
            Err(_) => Err(AllocError),
        }
    }

    /// Whether the port of this number has one.
    fn has(&self, port: usize) -> bool {
        self.ports.iter().any(|done| *done == port)
    }
}

/// The place of a port on a way; 0 where it isn't on it.
pub(crate) fn place_of(way: &[usize], port: usize) -> usize {
    way.iter().position(|hop| *hop == port).unwrap_or(0)
}

/// Whether all ports before one on a way have a plan.
fn is_reached(way: &[usize], done: &Done, port: usize) -> bool {
    way.iter()
        .take(place_of(way, port))
        .all(|hop| done.has(*hop))
}

/// Whether all that comes to a port comes of ports that have a plan.
fn is_ready(network: &Network<Global>, done: &Done, port: usize) -> bool {
    network
        .streams
        .iter()
        .all(|stream| is_reached(network.way(stream), done, port))
}

/// The first port that streams cross and that has no plan; where it is asked, one to which all comes of ports that have.
fn first_open(network: &Network<Global>, done: &Done, ready: bool) -> Option<usize> {
    (0..network.names.len().max(1)).find(|port| {
        !done.has(*port) && network.is_crossed(*port) && (!ready || is_ready(network, done, *port))
    })
}

/// The port that is planned next: one to which all comes of ports that have a plan, or where ways go in a circle the
/// first that has none. None: all that streams cross have one.
pub(crate) fn next_port(network: &Network<Global>, done: &Done) -> Option<usize> {
    first_open(network, done, true).or(first_open(network, done, false))
}
