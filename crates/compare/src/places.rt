//! Where the n-th frame of a key is.

ghost use Rattle.std.specs.Prelude.{IfOk};
ghost use Rattle.compare.specs.Places.{AreAt};

use crate::counted::NthFrame;
use std::alloc::{AllocError, Allocator};
use std::collections::HashMap;
use std::hash::{BuildHasherDefault, FoldHasher};

/// Frames by their key, and by how many before them have it.
pub(crate) type Places<A> = HashMap<(u64, u64), NthFrame, BuildHasherDefault<FoldHasher>, A>;

/// The frames by their key, and by how many before them have it.
pub(crate) fn places<A: Allocator + Clone>(
    alloc: A,
    all: &[NthFrame],
) -> Result<Places<A>, AllocError>
    ensures { IfOk result (AreAt all.now) }
{
    let mut places = HashMap::new(alloc);
    let mut left = all.len();
    while left > 0 {
        left -= 1;
        let counted = all[left];
        places.insert((counted.frame.key, counted.nth), counted)?;
    }
    Ok(places)
}
