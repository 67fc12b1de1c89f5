//! The frames that wait, each with its arrival.

ghost use Rattle.std.specs.Prelude.{◌≡◌, ◌<◌, ◌++◌, ◌∷◌, [], IfOk, OnErr, OnOk, Some, drop, length, slice_get, slice_set};
ghost use Rattle.frame_table.specs.Waits.{none_wait, waiting_in};

use crate::rows::Arrival;
use abstract_port::per_class::{PerClass, classes_of};
use circular_buffer::HeapCircularBuffer;
use std::alloc::{AllocError, Allocator};
use std::marker::Model;
use wire_time::CLASSES;

/// Makes room for one more at least. When out of memory, nothing changes.
fn make_room<A: Allocator + Clone>(
    ring: &mut HeapCircularBuffer<Arrival, A>,
) -> Result<(), AllocError>
    ensures items { ring.new.items ≡ ring.old.items }
    ensures room { OnOk result (length ring.new.items < ring.new.capacity) }
{
    let len = ring.len();
    if len < ring.capacity() {
        return Ok(());
    }
    ring.resize(len * 2 + 1)
}

/// The frames of a class that wait, the first to go first. Memory is taken as they come, and never given back.
#[derive(Drop)]
pub(crate) struct ClassArrivals<A: Allocator> {
    arrivals: HeapCircularBuffer<Arrival, A>,
}

/// A contract sees a list.
impl<A: Allocator> Model for ClassArrivals<A> {
    ghost use Rattle.std.specs.Prelude.{List};
    ghost use Rattle.frame_table.specs.declared.rows.Arrival.{Arrival};

    ghost Value = { List Arrival };

    ghost view = { λ c. c.arrivals.items };
}

impl<A: Allocator + Clone> PerClass<A> for ClassArrivals<A> {
    type Fault = AllocError;

    ghost made = { λ _. [] };

    /// No frame waits; there is room for so many at first.
    fn make(alloc: &A, room: usize) -> Result<ClassArrivals<A>, AllocError> {
        let arrivals = HeapCircularBuffer::with_capacity(alloc.clone()?, room)?;
        Ok(ClassArrivals { arrivals })
    }
}

impl<A: Allocator> ClassArrivals<A> {
    /// A frame came. When out of memory, nothing changes.
    pub fn put(&mut self, arrival: Arrival) -> Result<(), AllocError>
    where
        A: Clone,
        ensures ok { OnOk result (self.new ≡ self.old ++ arrival ∷ []) }
        ensures err { OnErr result (self.new ≡ self.old) }
    {
        make_room(&mut self.arrivals)?;
        self.arrivals.try_push_back(arrival).unwrap();
        Ok(())
    }

    /// The first frame, which waits no more.
    pub fn take(&mut self) -> Option<Arrival>
        ensures first { result ≡ slice_get self.old 0 }
        ensures rest { self.new ≡ drop 1 self.old }
    {
        self.arrivals.pop_front()
    }

    /// How many frames wait.
    pub fn len(&self) -> usize
        ensures { result ≡ length self.now }
    {
        self.arrivals.len()
    }

    /// The frame at a place, from 0, of those that wait.
    pub fn get(&self, place: usize) -> Arrival
        requires { place < length self.now }
        ensures { slice_get self.now place ≡ Some result }
    {
        self.arrivals.get(place).copied().unwrap()
    }
}

/// A frame of a class came. When out of memory, nothing changes.
fn put_in<A: Allocator + Clone>(
    classes: &mut [ClassArrivals<A>; CLASSES],
    class: u8,
    arrival: Arrival,
) -> Result<(), AllocError>
    requires { class < CLASSES }
    ensures { OnOk result
        (classes.new ≡ slice_set classes.old class (waiting_in classes.old class ++ arrival ∷ [])) }
{
    classes[class as usize].put(arrival)
}

/// The first frame of a class waits no more.
fn take_from<A: Allocator>(classes: &mut [ClassArrivals<A>; CLASSES], class: u8) -> Option<Arrival>
    requires { class < CLASSES }
    ensures first { result ≡ slice_get (waiting_in classes.old class) 0 }
    ensures rest { classes.new
        ≡ slice_set classes.old class (drop 1 (waiting_in classes.old class)) }
{
    classes[class as usize].take()
}

/// The frames of a class that wait.
fn class_in<A: Allocator>(classes: &[ClassArrivals<A>; CLASSES], class: u8) -> &ClassArrivals<A>
    requires { class < CLASSES }
    ensures { result.now ≡ waiting_in classes.now class }
{
    &classes[class as usize]
}

/// The frames that wait, by class.
#[derive(Drop)]
pub struct Arrivals<A: Allocator> {
    classes: [ClassArrivals<A>; CLASSES],
}

/// A contract sees the eight lists.
impl<A: Allocator> Model for Arrivals<A> {
    ghost use Rattle.std.specs.Prelude.{List};
    ghost use Rattle.frame_table.specs.declared.rows.Arrival.{Arrival};

    ghost Value = { List (List Arrival) };

    ghost view = { λ a. a.classes };
}

impl<A: Allocator> Arrivals<A> {
    ghost use Rattle.frame_table.specs.Waits.{comes, first_came, goes};

    /// No frame waits.
    pub fn new(alloc: &A) -> Result<Arrivals<A>, AllocError>
    where
        A: Clone,
        ensures { IfOk result (λ a. a ≡ none_wait) }
    {
        let classes = classes_of(alloc, 0)?;
        Ok(Arrivals { classes })
    }

    /// A frame of a class, if it is one, came.
    pub fn put(&mut self, class: u8, arrival: Arrival) -> Result<(), AllocError>
    where
        A: Clone,
        ensures { OnOk result (self.new ≡ comes class arrival self.old) }
    {
        if class < CLASSES as u8 {
            put_in(&mut self.classes, class, arrival)
        } else {
            Ok(())
        }
    }

    /// The first frame of a class, if it is one, which waits no more.
    pub fn take(&mut self, class: u8) -> Option<Arrival>
        ensures first { result ≡ first_came class self.old }
        ensures rest { self.new ≡ goes class self.old }
    {
        if class < CLASSES as u8 {
            take_from(&mut self.classes, class)
        } else {
            None
        }
    }

    /// How many frames of a class wait.
    pub fn len(&self, class: u8) -> usize
        requires { class < CLASSES }
        ensures { result ≡ length (waiting_in self.now class) }
    {
        class_in(&self.classes, class).len()
    }

    /// The frame at a place, from 0, of those of a class that wait.
    pub fn get(&self, class: u8, place: usize) -> Arrival
        requires class { class < CLASSES }
        requires place { place < length (waiting_in self.now class) }
        ensures { slice_get (waiting_in self.now class) place ≡ Some result }
    {
        class_in(&self.classes, class).get(place)
    }
}
