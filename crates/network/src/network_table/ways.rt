//! Takes the way of a stream.

ghost use Rattle.std.specs.Prelude.{◌≡◌, ◌≤◌, length};
ghost use Rattle.text.specs.WordsLeft.{words_left};
ghost use Rattle.network.specs.Network.{hop_taken, way_taken};
ghost use Rattle.network.specs.Reads.{Takes};

use crate::network_table::faults::NetworkFault;
use crate::network_table::lookups::{is_among, mention};
use crate::network_table::name::Name;
use job::Fault;
use std::alloc::Allocator;
use text::words::Words;

/// Takes one port more of a way whose ports begin at this place.
fn take_hop<A: Allocator>(
    names: &mut Vec<Name, A>,
    ways: &mut Vec<usize, A>,
    begin: usize,
    word: &[u8],
) -> Result<(), Fault<NetworkFault>>
    requires { begin ≤ length ways.old.items }
    ensures taken { Takes result (hop_taken begin (names.old.items, ways.old.items) word.now)
        (names.new.items, ways.new.items) }
    ensures within { begin ≤ length ways.new.items }
{
    let Some(name) = Name::new(word) else {
        return Err(Fault::Input(NetworkFault::BadName));
    };
    let Ok(port) = mention(names, name) else {
        return Err(Fault::Memory);
    };
    if is_among(port, &ways[begin..]) {
        return Err(Fault::Input(NetworkFault::PortTwice(name)));
    }
    match ways.push(port) {
        Ok(()) => Ok(()),
        Err(_) => Err(Fault::Memory),
    }
}

/// Takes the ports of a way, in order.
pub(crate) fn take_way<A: Allocator>(
    names: &mut Vec<Name, A>,
    ways: &mut Vec<usize, A>,
    mut words: Words<'_>,
) -> Result<(), Fault<NetworkFault>>
    ensures taken { Takes result
        (way_taken (length ways.old.items) (names.old.items, ways.old.items)
        (words_left words.entry)) (names.new.items, ways.new.items) }
    ensures within { length ways.old.items ≤ length ways.new.items }
{
    let begin = ways.len();
    'hops: while let Some(word) = words.next_word() {
        match take_hop(names, ways, begin, word) {
            Ok(()) => {}
            Err(fault) => return Err(fault),
        }
    }
    Ok(())
}
