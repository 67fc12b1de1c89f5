//! When the frames that wait have come.

ghost use Rattle.std.specs.Prelude.{◌≡◌, ◌<◌, IfOk, Some, length, slice_get, slice_set};
ghost use Rattle.drawing.specs.Words.{none_wait, none_waits, waiting_in, with_arrival, without_first};

use abstract_port::per_class::{PerClass, classes_of};
use circular_buffer::HeapCircularBuffer;
use std::alloc::{AllocError, Allocator};
use std::marker::Model;
use wire_time::CLASSES;

/// The arrival moments of the frames of a class that wait, the first to go first. The memory for all that ever wait is
/// taken once.
#[derive(Drop)]
pub(crate) struct ClassArrivals<A: Allocator> {
    moments: HeapCircularBuffer<u128, A>,
}

/// A contract sees the moments and the room.
impl<A: Allocator> Model for ClassArrivals<A> {
    ghost use Rattle.drawing.specs.Arrivals.{Waiting};

    ghost Value = { Waiting };

    ghost view = { λ c. record { moments = c.moments.items; room = c.moments.capacity } };
}

impl<A: Allocator + Clone> PerClass<A> for ClassArrivals<A> {
    type Fault = AllocError;

    ghost made = { none_waits };

    /// No frame waits; there is room for so many.
    fn make(alloc: &A, room: usize) -> Result<ClassArrivals<A>, AllocError> {
        let moments = HeapCircularBuffer::with_capacity(alloc.clone()?, room)?;
        Ok(ClassArrivals { moments })
    }
}

impl<A: Allocator> ClassArrivals<A> {
    /// A frame came at this moment, in picoseconds. One for which there is no room isn't noted.
    pub fn put(&mut self, moment: u128)
        ensures { self.new ≡ with_arrival moment self.old }
    {
        let _ = self.moments.try_push_back(moment);
    }

    /// When the first frame that waits came, in picoseconds; it waits no more.
    pub fn take(&mut self) -> Option<u128>
        ensures first { result ≡ slice_get self.old.moments 0 }
        ensures rest { self.new ≡ without_first self.old }
    {
        self.moments.pop_front()
    }

    /// How many frames wait.
    pub fn len(&self) -> usize
        ensures { result ≡ length self.now.moments }
    {
        self.moments.len()
    }

    /// When the frame at a place, from 0, of those that wait came, in picoseconds.
    pub fn get(&self, place: usize) -> u128
        requires { place < length self.now.moments }
        ensures { slice_get self.now.moments place ≡ Some result }
    {
        self.moments.get(place).copied().unwrap()
    }
}

/// A frame of a class came.
fn put_in<A: Allocator>(classes: &mut [ClassArrivals<A>; CLASSES], class: u8, moment: u128)
    requires { class < CLASSES }
    ensures { classes.new
        ≡ slice_set classes.old class (with_arrival moment (waiting_in classes.old class)) }
{
    classes[class as usize].put(moment);
}

/// The first frame of a class waits no more.
fn take_from<A: Allocator>(classes: &mut [ClassArrivals<A>; CLASSES], class: u8) -> Option<u128>
    requires { class < CLASSES }
    ensures first { result ≡ slice_get (waiting_in classes.old class).moments 0 }
    ensures rest { classes.new
        ≡ slice_set classes.old class (without_first (waiting_in classes.old class)) }
{
    classes[class as usize].take()
}

/// The frames of a class that wait.
fn class_in<A: Allocator>(classes: &[ClassArrivals<A>; CLASSES], class: u8) -> &ClassArrivals<A>
    requires { class < CLASSES }
    ensures { result.now ≡ waiting_in classes.now class }
{
    &classes[class as usize]
}

/// The arrival moments of the frames that wait, by class.
#[derive(Drop)]
pub struct Arrivals<A: Allocator> {
    classes: [ClassArrivals<A>; CLASSES],
}

/// A contract sees the eight classes.
impl<A: Allocator> Model for Arrivals<A> {
    ghost use Rattle.std.specs.Prelude.{List};
    ghost use Rattle.drawing.specs.Arrivals.{Waiting};

    ghost Value = { List Waiting };

    ghost view = { λ a. a.classes };
}

impl<A: Allocator> Arrivals<A> {
    ghost use Rattle.drawing.specs.Arrivals.{comes, first_came, goes};

    /// No frame waits; there is room for so many frames a class.
    pub fn new(alloc: &A, room: u32) -> Result<Arrivals<A>, AllocError>
    where
        A: Clone,
        ensures { IfOk result (λ a. a ≡ none_wait room) }
    {
        let classes = classes_of(alloc, room as usize)?;
        Ok(Arrivals { classes })
    }

    /// A frame of a class came at this moment, in picoseconds.
    pub fn put(&mut self, class: u8, moment: u128)
        ensures { self.new ≡ comes class moment self.old }
    {
        if class < CLASSES as u8 {
            put_in(&mut self.classes, class, moment);
        }
    }

    /// When the first frame of a class that waits came, in picoseconds; it waits no more.
    pub fn take(&mut self, class: u8) -> Option<u128>
        ensures first { result ≡ first_came class self.old }
        ensures rest { self.new ≡ goes class self.old }
    {
        if class < CLASSES as u8 {
            take_from(&mut self.classes, class)
        } else {
            None
        }
    }

    /// How many frames of a class wait.
    pub fn len(&self, class: u8) -> usize
        requires { class < CLASSES }
        ensures { result ≡ length (waiting_in self.now class).moments }
    {
        class_in(&self.classes, class).len()
    }

    /// When the frame at a place, from 0, of those of a class that wait came, in picoseconds.
    pub fn get(&self, class: u8, place: usize) -> u128
        requires class { class < CLASSES }
        requires place { place < length (waiting_in self.now class).moments }
        ensures { slice_get (waiting_in self.now class).moments place ≡ Some result }
    {
        class_in(&self.classes, class).get(place)
    }
}
