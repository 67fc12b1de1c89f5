//! The line of a stream: what stands in front of the word `via`, and its way.

ghost use Rattle.std.specs.Prelude.{◌≡◌, ◌≤◌, IfSome, MatchOption, None, Some, length, true};
ghost use Rattle.text.specs.Words.{is_blank, words_of};
ghost use Rattle.text.specs.WordsLeft.{words_left};
ghost use Rattle.traffic.specs.Table.{line_said};
ghost use Rattle.network.specs.Lines.{are_via, front_at, periodic, stream_with, via_from, via_in, way_at};

use crate::network_table::faults::NetworkFault;
use script::ScriptFault;
use text::words::Words;
use traffic::{Stream, read_stream_line};

/// Whether an octet is a blank.
fn is_blank(octet: u8) -> bool
    ensures { result ≡ is_blank octet }
{
    octet == b' ' || octet == b'\t' || octet == b'\r' || octet == b'\n'
}

/// Whether the first word is `via`.
fn are_via(octets: &[u8]) -> bool
    ensures { result ≡ are_via (words_of octets.now) }
{
    let mut words = Words::new(octets);
    match words.next_word() {
        Some(word) => word == b"via".as_slice(),
        None => false,
    }
}

/// The place of the first word `via`, if there is one.
pub(crate) fn via_in(octets: &[u8]) -> Option<usize>
    ensures place { result ≡ via_in octets.now }
    ensures within { IfSome result (λ place. place ≤ length octets.now) }
{
    let mut behind_blank = true;
    for place in 0..octets.len() {
        let blank = is_blank(octets[place]);
        if behind_blank && !blank && are_via(&octets[place..]) {
            return Some(place);
        }
        behind_blank = blank;
    }
    None
}

/// The octets in front of the word `via`, which stands at this place; all where there is none.
pub(crate) fn front_at(via: Option<usize>, octets: &[u8]) -> &[u8]
    requires { IfSome via (λ place. place ≤ length octets.now) }
    ensures { result.now ≡ front_at via octets.now }
{
    match via {
        Some(place) => &octets[..place],
        None => octets,
    }
}

/// The words behind the word `via`, which stands at this place, if there is one.
pub(crate) fn way_at(via: Option<usize>, octets: &[u8]) -> Option<Words<'_>>
    requires { IfSome via (λ place. place ≤ length octets.now) }
    ensures { MatchOption result (way_at via octets.entry.now ≡ None)
        (λ words. way_at via octets.entry.now ≡ Some (words_left words)) }
{
    let place = via?;
    let mut words = Words::new(&octets[place..]);
    let _via = words.next_word();
    Some(words)
}

/// A stream that has a period.
fn periodic(stream: Stream) -> Result<Stream, NetworkFault>
    ensures { result ≡ periodic stream }
{
    if stream.period == 0 {
        Err(NetworkFault::Line(ScriptFault::BadNumber))
    } else {
        Ok(stream)
    }
}

/// The stream that the octets of a table's line say, which begins with the word `stream`. It has a period.
pub(crate) fn read_stream(octets: &[u8]) -> Result<Stream, NetworkFault>
    ensures { result ≡ stream_with (line_said (words_of octets.now)) }
{
    match read_stream_line(octets) {
        Ok(Some(stream)) => periodic(stream),
        Ok(None) => Err(NetworkFault::Line(ScriptFault::WordCount)),
        Err(fault) => Err(NetworkFault::Line(fault)),
    }
}
