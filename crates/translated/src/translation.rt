//! How octets are turned into others.

ghost use Rattle.std.specs.Prelude.{◌≡◌, ◌≤◌, [], ℕ, List, IfOk, IsTrue, OnErr, length};
ghost use Rattle.translated.specs.Outlook.{IsTurned, IsDone};

use std::alloc::{AllocError, Allocator};

/// How octets are turned into others, some of them at a time.
pub trait Translation {
    // What all octets that are still to come are turned into.
    ghost meaning: { Self → List ℕ → List ℕ };

    /// Takes octets from the front of those in hand, and puts what they are turned into into `out`, which is empty. How
    /// many it took. `is_last`: no octet comes after those in hand.
    ///
    /// Where it takes nothing and puts nothing, it wants more of them in hand; where none comes any more, nothing is left
    /// to be put. When out of memory, nothing is taken, and what stands in `out` doesn't count.
    fn turn<A: Allocator>(
        &mut self,
        octets: &[u8],
        is_last: bool,
        out: &mut Vec<u8, A>,
    ) -> Result<usize, AllocError>
        requires { out.old.items ≡ [] }
        ensures taken { IfOk result (λ count. count ≤ length octets.now) }
        ensures turned { IfOk result (λ count.
            IsTurned meaning self.old self.new octets.now is_last count out.new.items) }
        ensures done { IfOk result (λ count.
            IsDone meaning self.new octets.now is_last count out.new.items) }
        ensures failed { OnErr result (self.new ≡ self.old) };

    /// Whether nothing is put any more, whatever comes. Who knows it early says so, and then no more is read.
    fn is_over(&self) -> bool
        ensures { IsTrue result → (octets : List ℕ) → meaning self.now octets ≡ [] }
    {
        false
    }

    /// Whether all octets that are still to come are put as they are. Who knows it says so, and then they aren't copied.
    fn passes(&self) -> bool
        ensures { IsTrue result → (octets : List ℕ) → meaning self.now octets ≡ octets }
    {
        false
    }
}

impl<T: Translation> Translation for &mut T {
    ghost meaning = { λ lent. T.meaning lent.now };

    fn turn<A: Allocator>(
        &mut self,
        octets: &[u8],
        is_last: bool,
        out: &mut Vec<u8, A>,
    ) -> Result<usize, AllocError> {
        (**self).turn(octets, is_last, out)
    }

    fn is_over(&self) -> bool {
        (**self).is_over()
    }

    fn passes(&self) -> bool {
        (**self).passes()
    }
}

/// A translation that is asked for, or none: then all comes out as it is.
impl<T: Translation> Translation for Option<T> {
    ghost use Rattle.translated.specs.Outlook.{meaning_where};

    ghost meaning = { meaning_where T.meaning };

    fn turn<A: Allocator>(
        &mut self,
        octets: &[u8],
        is_last: bool,
        out: &mut Vec<u8, A>,
    ) -> Result<usize, AllocError> {
        match self {
            Some(translation) => translation.turn(octets, is_last, out),
            None => {
                out.extend_from_slice(octets)?;
                Ok(octets.len())
            }
        }
    }

    fn is_over(&self) -> bool {
        match self {
            Some(translation) => translation.is_over(),
            None => false,
        }
    }

    fn passes(&self) -> bool {
        match self {
            Some(translation) => translation.passes(),
            None => true,
        }
    }
}
