//! What is done in the queue of a class.

ghost use Rattle.std.specs.Prelude.{◌≡◌, ◌<◌, ◌∷◌, [], ◌++◌, length, drop, slice_get, slice_set};
ghost use Rattle.std.specs.Option.{ForSome};
ghost use Rattle.port.specs.Words.{occupancy_of, head_need, queue_at, with_frames};

use abstract_port::class_queue::ClassQueue;
use std::alloc::Allocator;
use wire_time::{CLASSES, Frame, Rate, occupancy};

/// How long a frame occupies the wire, in picoseconds.
pub(crate) fn need_of(rate: Rate, frame: &Frame) -> u64
    ensures value { result ≡ occupancy_of rate frame.now.len }
    ensures above { 0 < result }
{
    // For the prover: the getter says within which limits a rate lies.
    let _ps = rate.ps_per_octet();
    occupancy(rate, frame.len) as u64
}

/// How long the head of a queue occupies the wire, in picoseconds, if a frame waits.
fn head_need<A: Allocator>(rate: Rate, queue: &ClassQueue<A>) -> Option<u64>
    ensures value { result ≡ head_need rate queue.now.frames }
    ensures above { ForSome result (λ d. 0 < d) }
{
    match queue.head() {
        Some(frame) => Some(need_of(rate, &frame)),
        None => None,
    }
}

/// How long the head of a class occupies the wire, in picoseconds, if a frame waits.
pub(crate) fn need_in<A: Allocator>(
    rate: Rate,
    queues: &[ClassQueue<A>; CLASSES],
    class: u8,
) -> Option<u64>
    requires { class < CLASSES }
    ensures value { result ≡ head_need rate (queue_at queues.now class).frames }
    ensures above { ForSome result (λ d. 0 < d) }
{
    head_need(rate, &queues[class as usize])
}

/// How many frames of a class wait.
pub(crate) fn waiting_in<A: Allocator>(queues: &[ClassQueue<A>; CLASSES], class: u8) -> usize
    requires { class < CLASSES }
    ensures { result ≡ length (queue_at queues.now class).frames }
{
    queues[class as usize].len()
}

/// Puts a frame at the end of the queue of a class, which has room.
pub(crate) fn offer_to<A: Allocator>(queues: &mut [ClassQueue<A>; CLASSES], class: u8, frame: Frame)
    requires class { class < CLASSES }
    requires room { length (queue_at queues.old class).frames < (queue_at queues.old class).room }
    ensures { queues.new
        ≡ slice_set queues.old class
        (with_frames (queue_at queues.old class)
        ((queue_at queues.old class).frames ++ frame ∷ [])) }
{
    let _ = queues[class as usize].offer(frame);
}

/// Takes the frame that goes first off the queue of a class.
pub(crate) fn take_from<A: Allocator>(
    queues: &mut [ClassQueue<A>; CLASSES],
    class: u8,
) -> Option<Frame>
    requires { class < CLASSES }
    ensures head { result ≡ slice_get (queue_at queues.old class).frames 0 }
    ensures rest { queues.new
        ≡ slice_set queues.old class
        (with_frames (queue_at queues.old class) (drop 1 (queue_at queues.old class).frames)) }
{
    queues[class as usize].take()
}
