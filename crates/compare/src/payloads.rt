//! The different octets of frames, numbered as they first come.

ghost use Rattle.std.specs.Prelude.{◌≡◌, ℕ, IfOk, List};
ghost use Rattle.compare.specs.Frames.{payload_key, seen_after};
ghost use Rattle.compare.specs.Payloads.{AreNumbered};

use std::alloc::{AllocError, Allocator};
use std::collections::HashMap;
use std::hash::{BuildHasherDefault, FoldHasher};

/// The octets that came, each with its number.
pub(crate) type Numbers<A> = HashMap<Vec<u8, A>, u64, BuildHasherDefault<FoldHasher>, A>;

/// The number of octets: that which they got when they first came, or the next one.
pub(crate) fn key_of<A: Allocator + Clone + Drop>(
    alloc: &A,
    numbers: &mut Numbers<A>,
    octets: &[u8],
) -> Result<u64, AllocError>
    ensures { (seen : List (List ℕ)) → AreNumbered seen numbers.old →
        IfOk result (λ key. (key ≡ payload_key seen octets.now)
        × AreNumbered (seen_after seen octets.now) numbers.new) }
{
    match numbers.get(octets).copied() {
        Some(number) => return Ok(number),
        None => {}
    }
    let number = numbers.len() as u64;
    let mut copy = Vec::new(alloc.clone()?);
    copy.extend_from_slice(octets)?;
    numbers.insert(copy, number)?;
    Ok(number)
}
