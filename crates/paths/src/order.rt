//! In what order ports are told.

ghost use Rattle.std.specs.Prelude.{◌≡◌, ◌≤◌, ◌==◌, IfOk, length};
ghost use Rattle.std.specs.List.{list_any};
ghost use Rattle.paths.specs.Order.{port_order, with_judged, with_port, with_rest};
ghost use Rattle.paths.specs.declared.ports.TheConstants.{MOST_NETWORK_PORTS};

use crate::ports::MOST_NETWORK_PORTS;
use std::alloc::{AllocError, Global};

/// Whether a port is among others.
fn is_among(ports: &[u32], port: u32) -> bool
    ensures { result ≡ list_any (λ other. other == port) ports.now }
{
    ports.iter().any(|other| *other == port)
}

/// Puts a port behind others, if it isn't among them.
fn put_port(kept: &mut Vec<u32, Global>, port: u32) -> Result<(), AllocError>
    ensures ports { IfOk result (λ _. kept.new.items ≡ with_port kept.old.items port) }
{
    if is_among(kept.as_slice(), port) {
        return Ok(());
    }
    match kept.push(port) {
        Ok(()) => Ok(()),
        Err(_) => Err(AllocError),
    }
}

/// Puts the ports of classes behind others.
fn put_judged(kept: &mut Vec<u32, Global>, order: &[u32]) -> Result<(), AllocError>
    ensures ports { IfOk result (λ _. kept.new.items ≡ with_judged kept.old.items order.now) }
{
    for pair in order {
        put_port(kept, *pair / 8)?;
    }
    Ok(())
}

/// Puts so many ports behind others, from the first on.
fn put_rest(kept: &mut Vec<u32, Global>, count: u32) -> Result<(), AllocError>
    ensures ports { IfOk result (λ _. kept.new.items ≡ with_rest kept.old.items count 0) }
{
    for port in 0..count {
        put_port(kept, port)?;
    }
    Ok(())
}

/// The ports in the order in which their first class was judged, and then those of which none was.
pub(crate) fn port_order(
    alloc: Global,
    order: &[u32],
    ports: usize,
) -> Result<Vec<u32, Global>, AllocError>
    requires { ports ≤ MOST_NETWORK_PORTS }
    ensures ports { IfOk result (λ kept. kept.items ≡ port_order order.now ports) }
{
    let mut kept = Vec::new(alloc);
    put_judged(&mut kept, order)?;
    put_rest(&mut kept, ports as u32)?;
    Ok(kept)
}
