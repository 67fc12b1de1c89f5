//! How a deadline is divided among the ports of a way. Times are in picoseconds.

use crate::along::order::place_of;
use network::network_table::{Network, NetworkStream};
use std::alloc::Global;

/// How deadlines are divided.
#[derive(Clone, Copy, Debug, PartialEq, Eq)]
pub(crate) enum Split {
    /// Each port of a way gets the same.
    Even,
    /// The last port of a way gets the most.
    Late,
    /// The first one does.
    Early,
}

/// The ways to divide them that are tried, one after another.
pub(crate) const SPLITS: [Split; 3] = [Split::Even, Split::Late, Split::Early];

/// How many parts the port at a place of a way of so many gets.
fn weight(split: Split, place: u128, hops: u128) -> u128 {
    match split {
        Split::Even => 1,
        Split::Late => place.saturating_add(1),
        Split::Early => hops.saturating_sub(place),
    }
}

/// How many parts the ports of a way before a place get.
fn weight_before(split: Split, places: usize, hops: usize) -> u128 {
    let mut sum = 0u128;
    for place in 0..places {
        sum = sum.saturating_add(weight(split, place as u128, hops as u128));
    }
    sum
}

/// The greatest times of the links of a way, up to the port at a place.
fn links_before(network: &Network<Global>, way: &[usize], place: usize) -> u128 {
    let mut sum = 0u128;
    for (from, to) in way.iter().zip(way.iter().skip(1)).take(place) {
        for link in network.links.as_slice() {
            if link.from == *from && link.to == *to {
                sum = sum.saturating_add(link.greatest);
            }
        }
    }
    sum
}

/// A stream's time from end to end, as it is divided.
#[derive(Clone, Copy)]
pub(crate) struct Budget {
    /// From the nominal moment to the end at this port.
    pub until: u128,
    /// From a frame's arrival at this port to its end there, wherever it may come.
    pub own: u128,
}

/// The time of a stream with this deadline at the port of this number, which is on its way.
pub(crate) fn budget_of(
    network: &Network<Global>,
    stream: &NetworkStream,
    deadline: u128,
    port: usize,
    split: Split,
) -> Budget {
    let way = network.way(stream);
    let hops = way.len().max(1);
    let place = place_of(way, port);
    let all = weight_before(split, hops, hops).max(1);
    let time = deadline.saturating_sub(links_before(network, way, hops));
    let before = weight_before(split, place, hops);
    let with = weight_before(split, place.saturating_add(1), hops);
    let until = time.saturating_mul(with) / all;
    let sooner = time.saturating_mul(before) / all;
    Budget {
        until: links_before(network, way, place).saturating_add(until),
        own: until.saturating_sub(sooner),
    }
}
