//! The streams that come to a port, as a table.

ghost use Rattle.std.specs.Prelude.{◌≡◌, ◌<◌, All, IfErr, IfOk, IfSome, filter, map};
ghost use Rattle.job.specs.declared.fault.Fault.TheVariants as Faults;
ghost use Rattle.path_bounds.specs.Answers.{has_own, own_of, table_of};
ghost use Rattle.path_bounds.specs.Hops.{IsHop, entry_of, is_at, is_awaited, is_class, is_never, is_own, is_unknown};
ghost use Rattle.stream_bounds.specs.Classes.{IsPeriodic};

use crate::hop::{Coming, Hop, entry_of};
use std::alloc::Global;
use stream_bounds::BoundsFault;
use traffic::Stream;

/// Whether no frame comes.
fn is_never(coming: Coming) -> bool
    ensures { result ≡ is_never coming }
{
    match coming {
        Coming::Never => true,
        Coming::Awaited | Coming::Unknown | Coming::Within(_) => false,
    }
}

/// Whether nothing is known yet of when frames come.
pub fn is_awaited(coming: Coming) -> bool
    ensures { result ≡ is_awaited coming }
{
    match coming {
        Coming::Awaited => true,
        Coming::Never | Coming::Unknown | Coming::Within(_) => false,
    }
}

/// Whether nothing will be known of when frames come.
pub fn is_unknown(coming: Coming) -> bool
    ensures { result ≡ is_unknown coming }
{
    match coming {
        Coming::Unknown => true,
        Coming::Never | Coming::Awaited | Coming::Within(_) => false,
    }
}

/// Whether that is this class.
fn is_class(found: Option<u8>, class: u8) -> bool
    ensures { result ≡ is_class found class }
{
    match found {
        Some(other) => other == class,
        None => false,
    }
}

/// Whether frames of a hop may come to a port.
pub fn is_at(hop: &Hop, port: u32) -> bool
    ensures { result ≡ is_at port hop.now }
{
    hop.port == port && !is_never(hop.coming)
}

/// Whether they are of a class there.
pub fn is_own(hop: &Hop, port: u32, class: u8) -> bool
    ensures { result ≡ is_own port class hop.now }
{
    is_at(hop, port) && is_class(hop.class, class)
}

/// Whether a class of a port has streams.
pub fn has_own(hops: &[Hop], port: u32, class: u8) -> bool
    ensures { result ≡ has_own port class hops.now }
{
    hops.iter().any(|hop| is_own(hop, port, class))
}

/// The streams that come to a port.
pub fn table_of(alloc: Global, hops: &[Hop], port: u32) -> Result<Vec<Stream, Global>, BoundsFault>
    requires hops { All IsHop hops.now }
    ensures table { IfOk result (λ table. table.items ≡ table_of port hops.now) }
    ensures periodic { IfOk result (λ table. All IsPeriodic table.items) }
    ensures memory { IfErr result (λ fault. fault ≡ Faults.Memory) }
{
    let mut table = Vec::new(alloc);
    for hop in hops {
        if is_at(hop, port) {
            match table.push(entry_of(hop)) {
                Ok(()) => {}
                Err(_) => return Err(BoundsFault::Memory),
            }
        }
    }
    Ok(table)
}

/// The streams of a class of a port.
pub fn own_of(
    alloc: Global,
    hops: &[Hop],
    port: u32,
    class: u8,
) -> Result<Vec<Stream, Global>, BoundsFault>
    requires hops { All IsHop hops.now }
    ensures own { IfOk result (λ own. own.items ≡ own_of port class hops.now) }
    ensures periodic { IfOk result (λ own. All IsPeriodic own.items) }
    ensures memory { IfErr result (λ fault. fault ≡ Faults.Memory) }
{
    let mut own = Vec::new(alloc);
    for hop in hops {
        if is_own(hop, port, class) {
            match own.push(entry_of(hop)) {
                Ok(()) => {}
                Err(_) => return Err(BoundsFault::Memory),
            }
        }
    }
    Ok(own)
}
