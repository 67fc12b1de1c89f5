//! Which frames of two inputs are compared with each other.

ghost use Rattle.std.specs.Prelude.{◌≡◌, ◌++◌, IfOk, List, OnOk, filter, map};
ghost use Rattle.compare.specs.Pairs.{beside, compared, extra_of, is_extra, partner};
ghost use Rattle.compare.specs.Places.{AreAt};
ghost use Rattle.compare.specs.declared.counted.NthFrame.{NthFrame};

use crate::counted::{NthFrame, counted};
use crate::frame::Frame;
use crate::places::{Places, places};
use std::alloc::{AllocError, Allocator};

/// What becomes of a frame that is compared.
#[derive(Clone, Copy, Debug, PartialEq, Eq)]
pub enum Comparison {
    /// A frame of A, and its partner in B.
    Pair(Frame, Frame),
    /// A frame of A that has no partner in B.
    Missing(Frame),
    /// A frame of B that has none in A.
    Extra(Frame),
}

/// The frame with the same key, that has as many of it before, if there is one.
fn partner<A: Allocator>(others: &Places<A>, counted: &NthFrame) -> Option<NthFrame>
    ensures { (all : List NthFrame) → AreAt all others.now → result ≡ partner all counted.now }
{
    let found = others.get(&(counted.frame.key, counted.nth));
    found.copied()
}

/// A frame of A beside its partner in B.
fn beside(counted: &NthFrame, partner: Option<NthFrame>) -> Comparison
    ensures { result ≡ beside counted.now partner }
{
    match partner {
        Some(partner) => Comparison::Pair(counted.frame, partner.frame),
        None => Comparison::Missing(counted.frame),
    }
}

/// Puts the frames of A, each with its partner in B, behind others.
fn put_first<A: Allocator, B: Allocator>(
    first: &[NthFrame],
    second: &Places<A>,
    all: &mut Vec<Comparison, B>,
) -> Result<(), AllocError>
    ensures { (others : List NthFrame) → AreAt others second.now →
        OnOk result (all.new.items
        ≡ all.old.items ++ map (λ c. beside c (partner others c)) first.now) }
{
    for counted in first {
        all.push(beside(counted, partner(second, counted)))?;
    }
    Ok(())
}

/// Puts the frames of B that have no partner in A behind others.
fn put_extras<A: Allocator, B: Allocator>(
    first: &Places<A>,
    second: &[NthFrame],
    all: &mut Vec<Comparison, B>,
) -> Result<(), AllocError>
    ensures { (others : List NthFrame) → AreAt others first.now →
        OnOk result (all.new.items
        ≡ all.old.items ++ map extra_of (filter (is_extra others) second.now)) }
{
    for counted in second {
        match partner(first, counted) {
            None => all.push(Comparison::Extra(counted.frame))?,
            Some(_) => {}
        }
    }
    Ok(())
}

/// The frames of two inputs: those of A in their order, each with its partner in B, and then those of B that have none
/// in A, in theirs. Partners are the n-th of a key and the n-th of that key.
pub(crate) fn compared<A: Allocator + Clone>(
    alloc: A,
    first: &[Frame],
    second: &[Frame],
) -> Result<Vec<Comparison, A>, AllocError>
    ensures { IfOk result (λ all. all.items ≡ compared first.now second.now) }
{
    let first = counted(alloc.clone()?, first)?;
    let second = counted(alloc.clone()?, second)?;
    let first_places = places(alloc.clone()?, &first)?;
    let second_places = places(alloc.clone()?, &second)?;
    let mut all = Vec::new(alloc);
    put_first(&first, &second_places, &mut all)?;
    put_extras(&first_places, &second, &mut all)?;
    Ok(all)
}
