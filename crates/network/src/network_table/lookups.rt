//! What is known already: the ports by their names, and what lines have said.

ghost use Rattle.std.specs.Prelude.{◌≡◌, ◌==◌, IfOk};
ghost use Rattle.std.specs.List.{list_any};
ghost use Rattle.network.specs.Network.{link_line, link_line_of, mentioned, name_at, place_from, setting_line, setting_line_of};

use crate::network_table::contents::{NetworkLink, PortSetting};
use crate::network_table::name::Name;
use std::alloc::{AllocError, Allocator};

/// The number of the port of this name.
pub(crate) fn place_of(names: &[Name], name: &[u8]) -> Option<usize>
    ensures { result ≡ place_from 0 name.now names.now }
{
    let mut place = 0;
    for other in names {
        if other.as_slice() == name {
            return Some(place);
        }
        place += 1;
    }
    None
}

/// The number of the port of this name, which is put behind the others where it is new.
pub(crate) fn mention<A: Allocator>(
    names: &mut Vec<Name, A>,
    name: Name,
) -> Result<usize, AllocError>
    ensures { IfOk result (λ port. mentioned names.old.items name ≡ (names.new.items, port)) }
{
    if let Some(port) = place_of(names.as_slice(), name.as_slice()) {
        return Ok(port);
    }
    let port = names.len();
    names.push(name)?;
    Ok(port)
}

/// The line of a setting, where it is one of this port.
fn setting_line_of(port: usize, setting: &PortSetting) -> Option<u32>
    ensures { result ≡ setting_line_of port setting.now }
{
    if setting.port == port {
        Some(setting.line)
    } else {
        None
    }
}

/// The number of the line that says what this port has.
pub(crate) fn setting_line(port: usize, settings: &[PortSetting]) -> Option<u32>
    ensures { result ≡ setting_line port settings.now }
{
    for setting in settings {
        if let Some(line) = setting_line_of(port, setting) {
            return Some(line);
        }
    }
    None
}

/// The line of a link, where it is one from this port to that.
fn link_line_of(from: usize, to: usize, link: &NetworkLink) -> Option<u32>
    ensures { result ≡ link_line_of from to link.now }
{
    if link.from == from && link.to == to {
        Some(link.line)
    } else {
        None
    }
}

/// The number of the line that says a link from this port to that.
pub(crate) fn link_line(from: usize, to: usize, links: &[NetworkLink]) -> Option<u32>
    ensures { result ≡ link_line from to links.now }
{
    for link in links {
        if let Some(line) = link_line_of(from, to, link) {
            return Some(line);
        }
    }
    None
}

/// The name of the port of a number.
pub(crate) fn name_at(names: &[Name], port: usize) -> Name
    ensures { result ≡ name_at names.now port }
{
    match names.get(port) {
        Some(name) => *name,
        None => Name::none(),
    }
}

/// Whether a port is among these.
pub(crate) fn is_among(port: usize, hops: &[usize]) -> bool
    ensures { result ≡ list_any (λ hop. hop == port) hops.now }
{
    hops.iter().any(|hop| *hop == port)
}
