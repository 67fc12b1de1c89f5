//! The least and the greatest wait of each flow.

ghost use Rattle.std.specs.Prelude.{◌≡◌, ◌<◌, All, IfOk, length};
ghost use Rattle.delay_bounds.specs.Noted.{noted, unseen, widened};

use crate::{Bound, Told};
use std::alloc::{AllocError, Allocator};

// Before any frame of a flow.
fn unseen() -> Bound
    ensures { result ≡ unseen }
{
    Bound {
        least: u128::MAX,
        greatest: 0,
    }
}

/// Before any frame of so many flows.
pub fn all_unseen<A: Allocator>(alloc: &A, count: usize) -> Result<Vec<Bound, A>, AllocError>
where
    A: Clone,
    ensures count { IfOk result (λ bounds. length bounds.items ≡ count) }
    ensures unseen { IfOk result (λ bounds. All (λ b. b ≡ unseen) bounds.items) }
{
    let mut bounds = Vec::with_capacity(alloc.clone()?, count)?;
    for _ in 0..count {
        bounds.push(unseen())?;
    }
    Ok(bounds)
}

// Bounds with one wait more.
fn widened(bound: Bound, wait: u128) -> Bound
    ensures { result ≡ widened wait bound }
{
    Bound {
        least: bound.least.min(wait),
        greatest: bound.greatest.max(wait),
    }
}

/// Notes a frame.
pub fn note(bounds: &mut [Bound], told: Told)
    requires { told.place < length bounds.old }
    ensures { bounds.new ≡ noted told bounds.old }
{
    bounds[told.place] = widened(bounds[told.place], told.wait);
}
