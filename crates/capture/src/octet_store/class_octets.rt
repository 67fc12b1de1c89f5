//! The octets of the frames of one class: a ring of lengths, and a queue of octets.

ghost use Rattle.std.specs.Prelude.{◌≡◌, ◌≤◌, ◌<◌, ◌++◌, ◌∷◌, ◌↔◌, [], Some, IsTrue, IfOk, OnOk, OnErr, length, drop, slice_get};
ghost use Rattle.capture.specs.ClassOctets.{empty_class};
ghost use Rattle.capture.specs.declared.octet_store.TheConstants.{MAX_OCTETS};

use crate::octet_store::MAX_OCTETS;
use crate::octet_store::queue::OctetQueue;
use abstract_port::per_class::PerClass;
use circular_buffer::HeapCircularBuffer;
use std::alloc::{AllocError, Allocator, Global};
use std::marker::Model;

/// The two lengths of a frame.
#[derive(Clone, Copy, Debug, PartialEq, Eq)]
pub(crate) struct Lengths {
    /// How many of its octets are kept, at most `MAX_OCTETS`.
    pub captured: u32,
    /// How many octets the frame had.
    pub original: u32,
}

/// What is kept of a frame, which lends its octets from the buffer of its class.
#[derive(Clone, Copy, Debug)]
pub struct First<'a> {
    /// How many octets the frame had.
    pub original: u32,
    /// Those of its octets that are kept.
    pub octets: &'a [u8],
}

/// What is kept of the frames of one class, first in, first out.
///
/// Their octets lie one after another in one buffer, so that no frame takes memory of its own. That buffer never
/// shrinks.
#[derive(Drop)]
pub(crate) struct ClassOctets<A: Allocator = Global> {
    lengths: HeapCircularBuffer<Lengths, A>,
    octets: OctetQueue<A>,
}

/// A contract sees a list and a room.
impl<A: Allocator> Model for ClassOctets<A> {
    ghost use Rattle.capture.specs.ClassOctets.{Waiting};

    ghost Value = { Waiting };

    ghost use Rattle.capture.specs.Laid.{AreLaid, kept_of};
    ghost use Rattle.capture.specs.OctetQueue.{held};

    ghost view = { λ c. record {
      frames = kept_of c.lengths.items (held c.octets);
      room = c.lengths.capacity;
    } };

    ghost invariant = { λ c. AreLaid c.lengths.items (held c.octets) };
}

impl<A: Allocator + Clone> PerClass<A> for ClassOctets<A> {
    type Fault = AllocError;

    ghost made = { empty_class };

    /// No frame yet, and room for so many. The room for their lengths is taken here; for their octets there is none
    /// yet.
    fn make(alloc: &A, room: usize) -> Result<ClassOctets<A>, AllocError> {
        let lengths = HeapCircularBuffer::with_capacity(alloc.clone()?, room)?;
        let octets = OctetQueue::new(alloc.clone()?);
        Ok(ClassOctets { lengths, octets })
    }
}

impl<A: Allocator> ClassOctets<A> {
    ghost use Rattle.capture.specs.Stored.{kept};
    ghost use Rattle.capture.specs.ClassOctets.{with_frames};

    /// How many frames are kept.
    pub fn len(&self) -> usize
        ensures { result ≡ length self.now.frames }
    {
        self.lengths.len()
    }

    /// Whether there is room for one frame more.
    pub fn has_room(&self) -> bool
        ensures { IsTrue result ↔ (length self.now.frames < self.now.room) }
    {
        self.lengths.len() < self.lengths.capacity()
    }

    /// Puts a frame of `original` octets, of which these are kept, at the end. When out of memory, nothing changes.
    pub fn put(&mut self, original: u32, octets: &[u8]) -> Result<(), AllocError>
    where
        A: Clone,
        requires room { length self.old.frames < self.old.room }
        requires size { length octets.now ≤ MAX_OCTETS }
        ensures ok { OnOk result
            (self.new ≡ with_frames self.old (self.old.frames ++ kept original octets.now ∷ [])) }
        ensures err { OnErr result (self.new ≡ self.old) }
    {
        self.octets.make_room(octets.len())?;
        let captured = octets.len() as u32;
        self.lengths
            .try_push_back(Lengths { captured, original })
            .unwrap();
        self.octets.put(octets);
        Ok(())
    }

    /// The first frame.
    pub fn first(&self) -> First<'_>
        requires { 0 < length self.now.frames }
        ensures first { slice_get self.now.frames 0
            ≡ Some (kept result.original result.octets.now) }
        ensures within { length result.octets.now ≤ MAX_OCTETS }
    {
        let lengths = self.lengths.front().copied().unwrap();
        First {
            original: lengths.original,
            octets: self.octets.front(lengths.captured as usize),
        }
    }

    /// Gives up the first frame.
    pub fn give_up(&mut self)
        requires { 0 < length self.old.frames }
        ensures { self.new ≡ with_frames self.old (drop 1 self.old.frames) }
    {
        let lengths = self.lengths.pop_front().unwrap();
        self.octets.give_up(lengths.captured as usize);
    }
}
