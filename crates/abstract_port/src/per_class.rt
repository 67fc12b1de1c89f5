//! Eight of a thing, one for each traffic class (IEEE Std 802.1Q-2018, 8.6.6: at most eight classes).
//!
//! The contract is that of `classes_of`, in the terms of specs/Eight.antt.
ghost use Rattle.std.specs.Prelude.{◌≡◌, ℕ, IfOk};
ghost use Rattle.abstract_port.specs.Eight.{eight};

use std::alloc::Allocator;
use wire_time::CLASSES;

/// A thing of which each class has one.
pub trait PerClass<A: Allocator>: Drop {
    /// Why none was made.
    type Fault;

    /// What it is when it is made, with room for so many.
    ghost made: { ℕ → Self };

    /// Makes one, with room for so many.
    fn make(alloc: &A, room: usize) -> Result<Self, Self::Fault>
        ensures { IfOk result (λ one. one ≡ made room) };
}

/// Two of a thing.
fn two_of<A: Allocator, C: PerClass<A>>(alloc: &A, room: usize) -> Result<(C, C), C::Fault>
    ensures { IfOk result (λ two. (two.0 ≡ C.made room) × (two.1 ≡ C.made room)) }
{
    let first = C::make(alloc, room)?;
    let second = C::make(alloc, room)?;
    Ok((first, second))
}

/// Four of a thing.
fn four_of<A: Allocator, C: PerClass<A>>(alloc: &A, room: usize) -> Result<(C, C, C, C), C::Fault>
    ensures { IfOk result
        (λ four. (four.0 ≡ C.made room) × (four.1 ≡ C.made room) × (four.2 ≡ C.made room)
        × (four.3 ≡ C.made room)) }
{
    let (class_0, class_1) = two_of::<A, C>(alloc, room)?;
    let (class_2, class_3) = two_of::<A, C>(alloc, room)?;
    Ok((class_0, class_1, class_2, class_3))
}

/// One for each of the eight classes, with room for so many each: four by four, so that few are given back where one
/// isn't made.
pub fn classes_of<A: Allocator, C: PerClass<A>>(
    alloc: &A,
    room: usize,
) -> Result<[C; CLASSES], C::Fault>
    ensures { IfOk result (λ classes. classes ≡ eight (C.made room)) }
{
    let (class_0, class_1, class_2, class_3) = four_of::<A, C>(alloc, room)?;
    let (class_4, class_5, class_6, class_7) = four_of::<A, C>(alloc, room)?;
    Ok([
        class_0, class_1, class_2, class_3, class_4, class_5, class_6, class_7,
    ])
}
