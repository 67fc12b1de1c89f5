//! Why a port refuses a command that is judged by itself, and the map that it may have already.

ghost use Rattle.std.specs.Prelude.{◌≡◌, Option, ℕ};
ghost use Rattle.abstract_port.specs.Map.{map_of};
ghost use Rattle.abstract_port.specs.declared.class_map.ClassMap.{ClassMap};
ghost use Rattle.schedule_check.specs.Refusals.{early_refusal, is_led, leads_below, map_after, map_if_good, map_in, port_with, where_given};
ghost use Rattle.schedule_check.specs.Words.{octets_of};
ghost use Rattle.wire_time.specs.declared.TheConstants.{PRIORITIES};
ghost use Rattle.abstract_port.specs.AbstractPort.{limit_refusal, map_refusal};

use abstract_port::class_map::{ClassMap, Queues};
use abstract_port::{Change, Refused};
use arrayvec::ArrayVec;
use port::{changes_map, changes_queues, first_over};
use text::words::{Words, number};
use wire_time::PRIORITIES;

/// The refusal for its map or its queue ranges that a change meets at a port that has this map already, with one queue
/// a class, or none.
fn map_refusal(map: Option<ClassMap>, change: &Change) -> Option<Refused>
    ensures { (ps mtu room : ℕ) → result ≡ map_refusal (port_with ps mtu room map) change.now }
{
    match map {
        None => match change.map {
            Some(_) => None,
            None => Some(Refused::MapMissing),
        },
        Some(map) => {
            let plain = Queues::plain(map.num_tc());
            if changes_map(change.map, map) || changes_queues(change.queues, plain) {
                Some(Refused::MapChanged)
            } else {
                None
            }
        }
    }
}

/// The refusal for its size limits that a change meets at a port of this mtu, in octets.
fn limit_refusal(mtu: u32, change: &Change) -> Option<Refused>
    ensures { (ps room : ℕ) (map : Option ClassMap) →
        result ≡ limit_refusal (port_with ps mtu room map) change.now }
{
    match &change.max_sdu {
        None => None,
        Some(limits) => first_over(mtu, limits),
    }
}

/// The first refusal for its map or its limits that a change meets at a port of this mtu, in octets, that has this map
/// already, with one queue a class, or none.
pub fn early_refusal(mtu: u32, map: Option<ClassMap>, change: &Change) -> Option<Refused>
    ensures { (ps room : ℕ) → result ≡ early_refusal (port_with ps mtu room map) change.now }
{
    match map_refusal(map, change) {
        Some(refused) => Some(refused),
        None => limit_refusal(mtu, change),
    }
}

/// The map of a port with this map, or none, once it has accepted a change that gives that one, or none.
pub fn map_after(map: Option<ClassMap>, given: Option<ClassMap>) -> Option<ClassMap>
    ensures { result ≡ map_after map given }
{
    match map {
        Some(map) => Some(map),
        None => given,
    }
}

/// Whether some priority leads to a class by a map; by none that is known, no priority does.
pub fn is_led(map: Option<ClassMap>, class: u8) -> bool
    ensures { result ≡ is_led map class }
{
    match map {
        None => false,
        Some(map) => leads(map, class),
    }
}

/// Whether some priority leads to a class by the map of a port with this map, or none, once it has accepted a change
/// that gives that one, or none.
pub(crate) fn is_led_after(map: Option<ClassMap>, given: Option<ClassMap>, class: u8) -> bool
    ensures { result ≡ is_led (map_after map given) class }
{
    is_led(map_after(map, given), class)
}

/// Whether some priority leads to a class.
fn leads(map: ClassMap, class: u8) -> bool
    ensures { result ≡ leads_below PRIORITIES map.classes class }
{
    let mut found = false;
    for priority in 0..PRIORITIES as u8 {
        found = found || map.class_of(priority) == Some(class);
    }
    found
}

/// The map of classes that are read, if it is one.
fn map_of_classes(count: u8, classes: &[u8]) -> Option<ClassMap>
    ensures { result ≡ map_if_good (map_of count classes.now) }
{
    match ClassMap::new(count, classes) {
        Ok(map) => Some(map),
        Err(_) => None,
    }
}

/// The map that a text says: the class of each priority, 0 to 7, from priority 0 up, divided by blanks; one at least,
/// and 16 at most. Priorities behind them go to class 0. It has as many classes as that takes.
pub fn read_map(text: &[u8]) -> Option<ClassMap>
    ensures { result ≡ map_in text.now }
{
    let mut words = Words::new(text);
    let mut classes: ArrayVec<u8, PRIORITIES> = ArrayVec::new();
    let mut count = 0;
    while let Some(word) = words.next_word() {
        if classes.len() >= PRIORITIES {
            return None;
        }
        let class = number(word, 7)? as u8;
        count = u8::max(count, class + 1);
        classes.push(class);
    }
    map_of_classes(count, classes.as_slice())
}

/// The map that is given, as a text, if it is one; none where none is given.
pub fn given_map(text: Option<&str>) -> Option<Option<ClassMap>>
    ensures { result ≡ where_given map_in (octets_of text.entry) }
{
    match text {
        None => Some(None),
        Some(text) => match read_map(text.as_bytes()) {
            Some(map) => Some(Some(map)),
            None => None,
        },
    }
}
