//! What is seen of one class.

ghost use Rattle.std.specs.Prelude.{◌≡◌};
ghost use Rattle.summary.specs.Observed.{no_frames};

use crate::waits::Waits;
use abstract_port::per_class::PerClass;
use circular_buffer::HeapCircularBuffer;
use std::alloc::{AllocError, Allocator, Global};
use std::marker::Model;

/// The waits of the frames of one class.
///
/// The arrival moments of the frames that wait are kept in a ring, whose memory is taken once.
#[derive(Drop)]
pub(crate) struct ClassSummary<A: Allocator = Global> {
    arrivals: HeapCircularBuffer<u128, A>,
    most: u64,
    waits: Waits,
}

/// A contract sees the arrival moments as a list, and a room.
impl<A: Allocator> Model for ClassSummary<A> {
    ghost use Rattle.summary.specs.Observed.{ClassSeen};

    ghost Value = { ClassSeen };

    ghost view = { λ c. record {
      arrivals = c.arrivals.items;
      room = c.arrivals.capacity;
      most = c.most;
      waits = c.waits;
    } };
}

impl<A: Allocator + Clone> PerClass<A> for ClassSummary<A> {
    type Fault = AllocError;

    ghost made = { no_frames };

    /// A class without frames, with room for so many. All memory that it ever wants is taken here.
    fn make(alloc: &A, room: usize) -> Result<ClassSummary<A>, AllocError> {
        let arrivals = HeapCircularBuffer::with_capacity(alloc.clone()?, room)?;
        Ok(ClassSummary {
            arrivals,
            most: 0,
            waits: Waits::default(),
        })
    }
}

impl<A: Allocator> ClassSummary<A> {
    ghost use Rattle.summary.specs.Observed.{with_arrival, with_start};

    /// A frame is queued at this moment, in picoseconds. One for which there is no room isn't noted.
    pub fn arrives(&mut self, now: u128)
        ensures { self.new ≡ with_arrival now self.old }
    {
        if self.arrivals.try_push_back(now).is_ok() {
            self.most = self.most.max(self.arrivals.len() as u64);
        }
    }

    /// The frame that came first starts at this moment, in picoseconds. Its wait ends here, and its time on the wire
    /// begins.
    pub fn starts(&mut self, at: u128)
        ensures { self.new ≡ with_start at self.old }
    {
        if let Some(came) = self.arrivals.pop_front() {
            self.waits = self.waits.with(at.saturating_sub(came));
        }
    }

    /// The waits of the frames that started.
    pub fn waits(&self) -> Waits
        ensures { result ≡ self.now.waits }
    {
        self.waits
    }

    /// The greatest number of frames that waited at once.
    pub fn most(&self) -> u64
        ensures { result ≡ self.now.most }
    {
        self.most
    }
}
