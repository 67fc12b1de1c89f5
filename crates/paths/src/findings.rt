//! What a strict run finds about classes, and what it finds first of all.

ghost use Rattle.std.specs.Prelude.{◌≡◌, ◌≤◌, length};
ghost use Rattle.network.specs.Reads.{seen};
ghost use Rattle.paths.specs.Findings.{found_in, no_schedule, no_stream, pair_finding, pairs_finding, verdict_finding, word_finding};
ghost use Rattle.paths.specs.declared.ports.TheConstants.{MOST_NETWORK_PORTS};

use crate::faults::PathsFinding;
use crate::path_lines::{find_path, first_of};
use crate::ports::MOST_NETWORK_PORTS;
use network::network_table::{Name, Network, NetworkStream};
use network::port_schedules::PortSchedule;
use path_bounds::{Judgement, PairVerdict, PathPort, verdict_at};
use std::alloc::Global;
use stream_bounds::Verdict;

/// The finding about a class of a port of this name.
fn word_finding(name: Option<Name>, class: u8, verdict: Verdict) -> Option<PathsFinding>
    ensures { result ≡ word_finding name class verdict }
{
    match verdict {
        Verdict::Full { .. } => Some(PathsFinding::Full(name, class)),
        Verdict::Stuck { .. } | Verdict::Unfit => Some(PathsFinding::Stuck(name, class)),
        Verdict::NoWindow => Some(PathsFinding::Stuck(name, class)),
        Verdict::Overloaded { .. } => Some(PathsFinding::Overloaded(name, class)),
        Verdict::Bounded { .. } | Verdict::Within { .. } | Verdict::Crowded { .. } => None,
        Verdict::Sharing(_) | Verdict::Open { .. } | Verdict::Behind(_) => None,
        Verdict::Blocked | Verdict::Idle | Verdict::Long | Verdict::Late => None,
    }
}

/// The finding about a class of a port, where it is judged.
fn verdict_finding(
    name: Option<Name>,
    class: u8,
    verdict: Option<PairVerdict>,
) -> Option<PathsFinding>
    ensures { result ≡ verdict_finding name class verdict }
{
    match verdict {
        None | Some(PairVerdict::Unheard) => None,
        Some(PairVerdict::Known(verdict)) => word_finding(name, class, verdict),
    }
}

/// The finding about a class of a number.
fn pair_finding(names: &[Name], verdicts: &[Option<PairVerdict>], pair: u32) -> Option<PathsFinding>
    ensures { result ≡ pair_finding names.now verdicts.now pair }
{
    let port = pair / 8;
    let class = (7 - pair % 8) as u8;
    let name = names.get(port as usize).copied();
    verdict_finding(name, class, verdict_at(verdicts, port, class))
}

/// The first finding among so many classes.
fn find_pair(names: &[Name], verdicts: &[Option<PairVerdict>], count: u32) -> Option<PathsFinding>
    ensures { result ≡ pairs_finding names.now verdicts.now count 0 }
{
    let mut first = None;
    for pair in 0..count {
        first = first_of(first, pair_finding(names, verdicts, pair));
    }
    first
}

/// Where no stream is in the network, nothing was judged.
fn no_stream(streams: &[NetworkStream]) -> Option<PathsFinding>
    ensures { result ≡ no_stream streams.now }
{
    match streams {
        [] => Some(PathsFinding::NoStream),
        [_, ..] => None,
    }
}

/// Where no schedule was given, none was judged.
fn no_schedule(kept: &[PortSchedule]) -> Option<PathsFinding>
    ensures { result ≡ no_schedule kept.now }
{
    match kept {
        [] => Some(PathsFinding::NoSchedule),
        [_, ..] => None,
    }
}

/// What is found first.
pub(crate) fn found_in(
    network: &Network<Global>,
    kept: &[PortSchedule],
    ports: &[PathPort],
    known: &Judgement,
) -> Option<PathsFinding>
    requires { length ports.now ≤ MOST_NETWORK_PORTS }
    ensures { result ≡ found_in (seen network.now) kept.now ports.now known.now }
{
    let count = 8 * ports.len() as u32;
    let of_paths = find_path(ports, known.verdicts(), known.hops());
    let of_pairs = find_pair(network.names.as_slice(), known.verdicts(), count);
    let of_classes = first_of(of_pairs, no_schedule(kept));
    first_of(
        no_stream(network.streams.as_slice()),
        first_of(of_paths, of_classes),
    )
}
