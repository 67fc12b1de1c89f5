//! The bounded queue of a traffic class.
//!
//! The contract is that of each call of `ClassQueue`, in the terms of specs/Queue.antt.
ghost use Rattle.abstract_port.specs.Queue.{IsRoom, empty_queue};
ghost use Rattle.std.specs.Prelude.{[], Err, IfErr, IfOk, IsOk, OnOk, drop, length, slice_get, ◌++◌, ◌<◌, ◌==◌, ◌≡◌, ◌↔◌, ◌∷◌};

use crate::per_class::PerClass;
use circular_buffer::HeapCircularBuffer;
use std::alloc::{Allocator, Global};
use std::marker::Model;
use wire_time::Frame;

/// The greatest room of a queue, in frames.
pub const MAX_ROOM: u32 = 4096;

/// Why a queue was not made.
#[derive(Clone, Copy, Debug, PartialEq, Eq)]
pub enum QueueNew {
    /// The room is not 1 to 4096 frames.
    BadRoom,
    /// Out of memory.
    Memory,
}

/// A first in, first out queue with room for so many frames.
#[derive(Drop)]
pub struct ClassQueue<A: Allocator = Global> {
    frames: HeapCircularBuffer<Frame, A>,
}

/// A contract sees a list and a room.
impl<A: Allocator> Model for ClassQueue<A> {
    ghost use Rattle.abstract_port.specs.Queue.{Queue};

    ghost Value = { Queue };

    ghost view = { λ q. record { frames = q.frames.items; room = q.frames.capacity } };
}

impl<A: Allocator + Clone> PerClass<A> for ClassQueue<A> {
    type Fault = QueueNew;

    ghost made = { empty_queue };

    /// An empty queue, as `new` makes it.
    fn make(alloc: &A, room: usize) -> Result<ClassQueue<A>, QueueNew> {
        let Ok(room) = u32::try_from(room) else {
            return Err(QueueNew::BadRoom);
        };
        match alloc.clone() {
            Ok(own) => ClassQueue::new(own, room),
            Err(_) => Err(QueueNew::Memory),
        }
    }
}

impl<A: Allocator> ClassQueue<A> {
    /// An empty queue with room for 1 to 4096 frames. All memory that the queue ever wants is taken here.
    pub fn new(alloc: A, room: u32) -> Result<ClassQueue<A>, QueueNew>
        ensures ok { IfOk result (λ q. q ≡ empty_queue room) }
        ensures bad_room { (result ≡ Err QueueNew.BadRoom) ↔ (¬ IsRoom room) }
        ensures within { OnOk result (IsRoom room) }
        ensures memory { result ≡ Err QueueNew.Memory → IsRoom room }
    {
        if room < 1 || room > MAX_ROOM {
            return Err(QueueNew::BadRoom);
        }
        match HeapCircularBuffer::with_capacity(alloc, room as usize) {
            Ok(frames) => Ok(ClassQueue { frames }),
            Err(_) => Err(QueueNew::Memory),
        }
    }

    /// Puts the frame at the end, or gives it back where the queue is full.
    pub fn offer(&mut self, frame: Frame) -> Result<(), Frame>
        ensures fits { IsOk result ↔ (length self.old.frames < self.old.room) }
        ensures ok { OnOk result
            (self.new ≡ record self.old { frames = self.old.frames ++ frame ∷ [] }) }
        ensures err { IfErr result (λ f. (f ≡ frame) × (self.new ≡ self.old)) }
    {
        self.frames.try_push_back(frame)
    }

    /// The frame that goes first, if one waits.
    pub fn head(&self) -> Option<Frame>
        ensures { result ≡ slice_get self.now.frames 0 }
    {
        self.frames.front().copied()
    }

    /// Takes the frame that goes first off the queue, if one waits.
    pub fn take(&mut self) -> Option<Frame>
        ensures head { result ≡ slice_get self.old.frames 0 }
        ensures rest { self.new ≡ record self.old { frames = drop 1 self.old.frames } }
    {
        self.frames.pop_front()
    }

    /// How many frames wait.
    pub fn len(&self) -> usize
        ensures { result ≡ length self.now.frames }
    {
        self.frames.len()
    }

    /// Whether no frame waits.
    pub fn is_empty(&self) -> bool
        ensures { result ≡ (length self.now.frames == 0) }
    {
        self.frames.is_empty()
    }
}
