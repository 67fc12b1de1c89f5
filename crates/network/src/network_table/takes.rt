//! Takes what the lines of a network say, one line after another.

ghost use Rattle.std.specs.Prelude.{◌≡◌, ◌≤◌, Ok, Some, ◌==◌, length};
ghost use Rattle.script.specs.Requests.{is_comment};
ghost use Rattle.text.specs.WordsLeft.{words_left};
ghost use Rattle.network.specs.Lines.{OfClocks, OfLink, OfPort, and_then, clocks_said, link_said, port_said, stream_said, via_in, way_at, with_way};
ghost use Rattle.network.specs.Network.{clocks_taken, line_taken, link_taken, port_taken, stream_put, stream_taken, taken};
ghost use Rattle.network.specs.Reads.{Takes, seen};

use crate::network_table::contents::{Clocks, Network, NetworkLink, NetworkStream, PortSetting};
use crate::network_table::faults::NetworkFault;
use crate::network_table::lookups::{link_line, mention, setting_line};
use crate::network_table::said::{LinkLine, PortLine, read_clocks, read_link, read_port};
use crate::network_table::via::{front_at, read_stream, via_in, way_at};
use crate::network_table::ways::take_way;
use job::Fault;
use script::ScriptFault;
use std::alloc::Allocator;
use text::words::Words;
use traffic::Stream;

/// Takes what the line of this number says that a port has.
fn take_port<A: Allocator>(
    network: &mut Network<A>,
    number: u32,
    said: &PortLine,
) -> Result<(), Fault<NetworkFault>>
    ensures { Takes result (port_taken number said.now (seen network.old)) (seen network.new) }
{
    let Ok(port) = mention(&mut network.names, said.name) else {
        return Err(Fault::Memory);
    };
    if let Some(line) = setting_line(port, network.settings.as_slice()) {
        return Err(Fault::Input(NetworkFault::SecondPort(line)));
    }
    match network.settings.push(PortSetting {
        port,
        values: said.values,
        line: number,
    }) {
        Ok(()) => Ok(()),
        Err(_) => Err(Fault::Memory),
    }
}

/// Takes the link that the line of this number says.
fn take_link<A: Allocator>(
    network: &mut Network<A>,
    number: u32,
    said: &LinkLine,
) -> Result<(), Fault<NetworkFault>>
    ensures { Takes result (link_taken number said.now (seen network.old)) (seen network.new) }
{
    let Ok(from) = mention(&mut network.names, said.from) else {
        return Err(Fault::Memory);
    };
    let Ok(to) = mention(&mut network.names, said.to) else {
        return Err(Fault::Memory);
    };
    if let Some(line) = link_line(from, to, network.links.as_slice()) {
        return Err(Fault::Input(NetworkFault::SecondLink(line)));
    }
    match network.links.push(NetworkLink {
        from,
        to,
        least: said.least,
        greatest: said.greatest,
        line: number,
    }) {
        Ok(()) => Ok(()),
        Err(_) => Err(Fault::Memory),
    }
}

/// Takes what the line of this number says of clocks.
fn take_clocks<A: Allocator>(
    network: &mut Network<A>,
    number: u32,
    difference: u128,
) -> Result<(), Fault<NetworkFault>>
    ensures { Takes result (clocks_taken number difference (seen network.old)) (seen network.new) }
{
    if let Some(clocks) = network.clocks {
        return Err(Fault::Input(NetworkFault::SecondClocks(clocks.line)));
    }
    network.clocks = Some(Clocks {
        difference,
        line: number,
    });
    Ok(())
}

/// Puts a stream behind the others, whose way was put behind theirs at this place.
fn add_stream<A: Allocator>(
    network: &mut Network<A>,
    number: u32,
    stream: Stream,
    begin: usize,
) -> Result<(), Fault<NetworkFault>>
    requires { begin ≤ length network.old.ways.items }
    ensures { Takes {I = NetworkFault} result
        (Ok (stream_put number stream begin (seen network.old))) (seen network.new) }
{
    let hops = network.ways.len() - begin;
    match network.streams.push(NetworkStream {
        stream,
        line: number,
        begin,
        hops,
    }) {
        Ok(()) => Ok(()),
        Err(_) => Err(Fault::Memory),
    }
}

/// Takes a stream that the line of this number says, with the words of its way.
fn take_passing<A: Allocator>(
    network: &mut Network<A>,
    number: u32,
    stream: Stream,
    way: Words<'_>,
) -> Result<(), Fault<NetworkFault>>
    ensures { Takes result
        (stream_taken number stream (Some (words_left way.entry)) (seen network.old))
        (seen network.new) }
{
    let begin = network.ways.len();
    match take_way(&mut network.names, &mut network.ways, way) {
        Ok(()) => add_stream(network, number, stream, begin),
        Err(fault) => Err(fault),
    }
}

/// Whether there is no word.
fn is_done(mut words: Words<'_>) -> bool
    ensures { result ≡ (length (words_left words.entry) == 0) }
{
    words.next_word().is_none()
}

/// Takes a stream that the line of this number says, with the words of its way, of which there is one.
fn take_with_way<A: Allocator>(
    network: &mut Network<A>,
    number: u32,
    stream: Stream,
    way: Words<'_>,
) -> Result<(), Fault<NetworkFault>>
    ensures { Takes result
        (and_then (with_way stream (Some (words_left way.entry))) (taken number (seen network.old)))
        (seen network.new) }
{
    if is_done(way) {
        return Err(Fault::Input(NetworkFault::Line(ScriptFault::WordCount)));
    }
    take_passing(network, number, stream, way)
}

/// Takes what the line of this number says of a stream.
fn take_stream<A: Allocator>(
    network: &mut Network<A>,
    number: u32,
    line: &[u8],
) -> Result<(), Fault<NetworkFault>>
    ensures { Takes result
        (and_then
        (and_then (stream_said line.now) (λ s. with_way s (way_at (via_in line.now) line.now)))
        (taken number (seen network.old))) (seen network.new) }
{
    let via = via_in(line);
    let stream = match read_stream(front_at(via, line)) {
        Ok(stream) => stream,
        Err(fault) => return Err(Fault::Input(fault)),
    };
    let begin = network.ways.len();
    match way_at(via, line) {
        None => add_stream(network, number, stream, begin),
        Some(way) => take_with_way(network, number, stream, way),
    }
}

/// Takes what the words after the first say, in the line of a port of this number.
fn take_port_line<A: Allocator>(
    network: &mut Network<A>,
    number: u32,
    words: Words<'_>,
) -> Result<(), Fault<NetworkFault>>
    ensures { Takes result
        (and_then (and_then (port_said (words_left words.entry)) (λ said. Ok (OfPort said)))
        (taken number (seen network.old))) (seen network.new) }
{
    match read_port(words) {
        Ok(said) => take_port(network, number, &said),
        Err(fault) => Err(Fault::Input(fault)),
    }
}

/// Takes what the words after the first say, in the line of a link of this number.
fn take_link_line<A: Allocator>(
    network: &mut Network<A>,
    number: u32,
    words: Words<'_>,
) -> Result<(), Fault<NetworkFault>>
    ensures { Takes result
        (and_then (and_then (link_said (words_left words.entry)) (λ said. Ok (OfLink said)))
        (taken number (seen network.old))) (seen network.new) }
{
    match read_link(words) {
        Ok(said) => take_link(network, number, &said),
        Err(fault) => Err(Fault::Input(fault)),
    }
}

/// Takes what the words after the first say, in the line of clocks of this number.
fn take_clocks_line<A: Allocator>(
    network: &mut Network<A>,
    number: u32,
    words: Words<'_>,
) -> Result<(), Fault<NetworkFault>>
    ensures { Takes result
        (and_then
        (and_then (clocks_said (words_left words.entry)) (λ difference. Ok (OfClocks difference)))
        (taken number (seen network.old))) (seen network.new) }
{
    match read_clocks(words) {
        Ok(difference) => take_clocks(network, number, difference),
        Err(fault) => Err(Fault::Input(fault)),
    }
}

/// Whether a word begins a comment.
fn is_comment(word: &[u8]) -> bool
    ensures { result ≡ is_comment word.now }
{
    match word {
        [b'#', ..] => true,
        _ => false,
    }
}

/// Takes what the line of this number says.
pub(crate) fn take_line<A: Allocator>(
    network: &mut Network<A>,
    number: u32,
    line: &[u8],
) -> Result<(), Fault<NetworkFault>>
    ensures { Takes result (line_taken number line.now (seen network.old)) (seen network.new) }
{
    let mut words = Words::new(line);
    let Some(first) = words.next_word() else {
        return Ok(());
    };
    if is_comment(first) {
        return Ok(());
    }
    if first == b"port".as_slice() {
        return take_port_line(network, number, words);
    }
    if first == b"link".as_slice() {
        return take_link_line(network, number, words);
    }
    if first == b"clocks".as_slice() {
        return take_clocks_line(network, number, words);
    }
    if first == b"stream".as_slice() {
        return take_stream(network, number, line);
    }
    Err(Fault::Input(NetworkFault::Line(ScriptFault::UnknownLine)))
}
