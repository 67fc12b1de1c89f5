//! What the lines of a network say: those of ports, of links and of clocks.

ghost use Rattle.std.specs.Prelude.{◌≡◌, Some};
ghost use Rattle.script.specs.Settings.{mtu_in, rate_in, room_in};
ghost use Rattle.text.specs.WordsLeft.{words_left};
ghost use Rattle.network.specs.Lines.{clocks_said, greatest_in, link_said, no_values, once, port_said, times_said, values_from, with_value};

use crate::network_table::faults::NetworkFault;
use crate::network_table::name::Name;
use port::{is_mtu, is_room};
use script::ScriptFault;
use text::times::time;
use text::words::{Words, number};
use wire_time::{MAX_MOMENT, Rate};

/// What a line says that a port has, where it says so.
#[derive(Clone, Copy, Debug, PartialEq, Eq)]
pub struct PortValues {
    /// The line rate.
    pub rate: Option<Rate>,
    /// The mtu, in octets, within its limits.
    pub mtu: Option<u32>,
    /// For how many frames a class has room, within its limits.
    pub room: Option<u32>,
}

/// What the line of a port says.
#[derive(Clone, Copy, Debug, PartialEq, Eq)]
pub(crate) struct PortLine {
    /// The port's name.
    pub name: Name,
    /// What it has.
    pub values: PortValues,
}

/// What the line of a link says.
#[derive(Clone, Copy, Debug, PartialEq, Eq)]
pub(crate) struct LinkLine {
    /// The name of the port that sends.
    pub from: Name,
    /// The name of the port to whose queues frames come.
    pub to: Name,
    /// The least time of the link, in picoseconds.
    pub least: u128,
    /// The greatest, at least that.
    pub greatest: u128,
}

/// A word is no number, or one over its limit.
const BAD_NUMBER: NetworkFault = NetworkFault::Line(ScriptFault::BadNumber);

/// There are too few or too many words.
const WORD_COUNT: NetworkFault = NetworkFault::Line(ScriptFault::WordCount);

impl PortValues {
    /// Nothing is said.
    pub(crate) fn none() -> PortValues
        ensures { result ≡ no_values }
    {
        PortValues {
            rate: None,
            mtu: None,
            room: None,
        }
    }
}

/// The rate of a decimal number of Mb/s, if there is one.
fn rate_in(word: &[u8]) -> Option<Rate>
    ensures { result ≡ rate_in word.now }
{
    let mbps = number(word, u128::from(u32::MAX))?;
    Rate::from_mbps(mbps as u32).ok()
}

/// A decimal number that is an mtu, in octets.
fn mtu_in(word: &[u8]) -> Option<u32>
    ensures { result ≡ mtu_in word.now }
{
    let mtu = number(word, u128::from(u32::MAX))? as u32;
    if is_mtu(mtu) { Some(mtu) } else { None }
}

/// A decimal number that is a room, in frames a class.
fn room_in(word: &[u8]) -> Option<u32>
    ensures { result ≡ room_in word.now }
{
    let room = number(word, u128::from(u32::MAX))? as u32;
    if is_room(room) { Some(room) } else { None }
}

/// The values with this rate, where none is among them yet.
fn with_rate(values: PortValues, word: &[u8]) -> Result<PortValues, NetworkFault>
    ensures { result
        ≡ once values.rate (rate_in word.now) (λ rate. record values { rate = Some rate }) }
{
    match values.rate {
        Some(_) => Err(WORD_COUNT),
        None => match rate_in(word) {
            Some(rate) => Ok(PortValues {
                rate: Some(rate),
                ..values
            }),
            None => Err(BAD_NUMBER),
        },
    }
}

/// The values with this mtu, where none is among them yet.
fn with_mtu(values: PortValues, word: &[u8]) -> Result<PortValues, NetworkFault>
    ensures { result ≡ once values.mtu (mtu_in word.now) (λ mtu. record values { mtu = Some mtu }) }
{
    match values.mtu {
        Some(_) => Err(WORD_COUNT),
        None => match mtu_in(word) {
            Some(mtu) => Ok(PortValues {
                mtu: Some(mtu),
                ..values
            }),
            None => Err(BAD_NUMBER),
        },
    }
}

/// The values with this room, where none is among them yet.
fn with_room(values: PortValues, word: &[u8]) -> Result<PortValues, NetworkFault>
    ensures { result
        ≡ once values.room (room_in word.now) (λ room. record values { room = Some room }) }
{
    match values.room {
        Some(_) => Err(WORD_COUNT),
        None => match room_in(word) {
            Some(room) => Ok(PortValues {
                room: Some(room),
                ..values
            }),
            None => Err(BAD_NUMBER),
        },
    }
}

/// The values with one more, which a word names and the one behind it says.
fn with_value(values: PortValues, word: &[u8], value: &[u8]) -> Result<PortValues, NetworkFault>
    ensures { result ≡ with_value values word.now value.now }
{
    if word == b"rate".as_slice() {
        return with_rate(values, value);
    }
    if word == b"mtu".as_slice() {
        return with_mtu(values, value);
    }
    if word == b"room".as_slice() {
        return with_room(values, value);
    }
    Err(WORD_COUNT)
}

/// The values that words say: each has a name and a value, in any order, and none is said twice.
fn values_in(mut words: Words<'_>) -> Result<PortValues, NetworkFault>
    ensures { result ≡ values_from no_values (words_left words.entry) }
{
    let mut values = PortValues::none();
    'values: while let Some(word) = words.next_word() {
        let Some(value) = words.next_word() else {
            return Err(WORD_COUNT);
        };
        match with_value(values, word, value) {
            Ok(more) => values = more,
            Err(fault) => return Err(fault),
        }
    }
    Ok(values)
}

/// What the words after the first say, in the line of a port.
pub(crate) fn read_port(mut words: Words<'_>) -> Result<PortLine, NetworkFault>
    ensures { result ≡ port_said (words_left words.entry) }
{
    let Some(word) = words.next_word() else {
        return Err(WORD_COUNT);
    };
    let Some(name) = Name::new(word) else {
        return Err(NetworkFault::BadName);
    };
    match values_in(words) {
        Ok(values) => Ok(PortLine { name, values }),
        Err(fault) => Err(fault),
    }
}

/// The greatest time of a link, of which the least is known: the next word's, or the least where there is none. It is
/// at least that.
fn greatest_in(least: u128, mut words: Words<'_>) -> Result<u128, NetworkFault>
    ensures { result ≡ greatest_in least (words_left words.entry) }
{
    let Some(word) = words.next_word() else {
        return Ok(least);
    };
    if words.next_word().is_some() {
        return Err(WORD_COUNT);
    }
    let Some(greatest) = time(word, MAX_MOMENT) else {
        return Err(BAD_NUMBER);
    };
    if least <= greatest {
        Ok(greatest)
    } else {
        Err(BAD_NUMBER)
    }
}

/// The least and the greatest time of a link.
fn times_in(least: &[u8], words: Words<'_>) -> Result<(u128, u128), NetworkFault>
    ensures { result ≡ times_said least.now (words_left words.entry) }
{
    let Some(least) = time(least, MAX_MOMENT) else {
        return Err(BAD_NUMBER);
    };
    match greatest_in(least, words) {
        Ok(greatest) => Ok((least, greatest)),
        Err(fault) => Err(fault),
    }
}

/// What the words after the first say, in the line of a link.
pub(crate) fn read_link(mut words: Words<'_>) -> Result<LinkLine, NetworkFault>
    ensures { result ≡ link_said (words_left words.entry) }
{
    let Some(from) = words.next_word() else {
        return Err(WORD_COUNT);
    };
    let Some(to) = words.next_word() else {
        return Err(WORD_COUNT);
    };
    let Some(least) = words.next_word() else {
        return Err(WORD_COUNT);
    };
    let Some(from) = Name::new(from) else {
        return Err(NetworkFault::BadName);
    };
    let Some(to) = Name::new(to) else {
        return Err(NetworkFault::BadName);
    };
    match times_in(least, words) {
        Ok((least, greatest)) => Ok(LinkLine {
            from,
            to,
            least,
            greatest,
        }),
        Err(fault) => Err(fault),
    }
}

/// The greatest difference of two clocks that the words after the first say, in picoseconds.
pub(crate) fn read_clocks(mut words: Words<'_>) -> Result<u128, NetworkFault>
    ensures { result ≡ clocks_said (words_left words.entry) }
{
    let Some(word) = words.next_word() else {
        return Err(WORD_COUNT);
    };
    if words.next_word().is_some() {
        return Err(WORD_COUNT);
    }
    match time(word, MAX_MOMENT) {
        Some(difference) => Ok(difference),
        None => Err(BAD_NUMBER),
    }
}
