//! Frames, and how many before each have its key.

ghost use Rattle.std.specs.Prelude.{◌≡◌, IfOk};
ghost use Rattle.compare.specs.Pairs.{counted};

use crate::frame::Frame;
use std::alloc::{AllocError, Allocator};
use std::collections::HashMap;

/// A frame, and how many frames before it in its input have its key.
#[derive(Clone, Copy, Debug, PartialEq, Eq)]
pub struct NthFrame {
    /// The frame.
    pub frame: Frame,
    /// How many frames before it have its key.
    pub nth: u64,
}

/// Frames, each with how many before it have its key.
pub(crate) fn counted<A: Allocator + Clone>(
    alloc: A,
    frames: &[Frame],
) -> Result<Vec<NthFrame, A>, AllocError>
    ensures { IfOk result (λ all. all.items ≡ counted frames.now) }
{
    let mut counts = HashMap::new(alloc.clone()?);
    let mut all = Vec::new(alloc);
    for frame in frames {
        let nth: u64 = counts.get(&frame.key).copied().unwrap_or(0);
        counts.insert(frame.key, nth + 1)?;
        all.push(NthFrame { frame: *frame, nth })?;
    }
    Ok(all)
}
