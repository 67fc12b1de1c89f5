//! What lines are turned into.

ghost use Rattle.std.specs.Prelude.{◌≡◌, ◌++◌, ℕ, List, length, IfOk, OnErr};
ghost use Rattle.pasted.specs.Lines.{Rule};

use crate::place::Place;
use std::alloc::{AllocError, Allocator};

/// A line in hand.
#[derive(Clone, Copy, Debug)]
pub struct Line<'a> {
    /// Where it stands.
    pub place: Place,
    /// The number of its first physical line, from 1.
    pub number: u64,
    /// Its octets, without the line feed that ends it.
    pub text: &'a [u8],
    /// That line feed, or nothing where the input ends.
    pub end: &'a [u8],
}

/// What lines are turned into, one after another.
pub trait LineRule {
    // What each line comes out as, and where the next one stands.
    ghost rule: { Self → Rule };

    /// Whether a line is taken together with those that it joins.
    fn is_whole(&self) -> bool
        ensures { result ≡ (rule self.now).is_whole };

    /// Puts what a line of at most `MAX_LINE_OCTETS` octets comes out as, and its end. Where the next line stands.
    ///
    /// When out of memory nothing else changes, and what was put doesn't count.
    fn put<A: Allocator>(
        &mut self,
        line: &Line<'_>,
        out: &mut Vec<u8, A>,
    ) -> Result<Place, AllocError>
        ensures text { IfOk result (λ _. out.new.items
            ≡ out.old.items
            ++ ((rule self.old).turned line.now.place line.now.text.now ++ line.now.end.now)) }
        ensures next { IfOk result (λ place.
            place ≡ (rule self.old).next line.now.place line.now.text.now) }
        ensures rule { rule self.new ≡ rule self.old }
        ensures failed { OnErr result (self.new ≡ self.old) };
}
