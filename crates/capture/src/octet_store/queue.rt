//! Octets, first in, first out, in one buffer.

ghost use Rattle.std.specs.Prelude.{◌≡◌, ◌≤◌, ◌<◌, ◌+◌, ◌-◌, ◌++◌, [], OnOk, length, take, drop, vec_len};
ghost use Rattle.capture.specs.declared.octet_store.TheConstants.{MAX_OCTETS};

use crate::octet_store::MAX_OCTETS;
use std::alloc::{AllocError, Allocator, Global};

/// How many times the octets that it holds a buffer is long, once it has grown.
const LENGTH: usize = 2;

/// Octets, first in, first out: `octets[head..end]`.
///
/// They lie in one piece. The buffer grows where they and those that come take more than half of it, and never shrinks.
#[derive(Drop)]
pub(crate) struct OctetQueue<A: Allocator = Global> {
    octets: Vec<u8, A>,
    head: usize,
    end: usize,
    ghost ordered: { head ≤ end },
    ghost within: { end ≤ vec_len octets },
}

/// Moves the octets from `head` to `end` to the front, where they end before `head`.
fn move_down(octets: &mut [u8], head: usize, end: usize)
    requires ordered { head ≤ end }
    requires within { end ≤ length octets.old }
    requires apart { end - head ≤ head }
    ensures front { take (end - head) octets.new ≡ drop head (take end octets.old) }
    ensures whole { length octets.new ≡ length octets.old }
{
    let count = end - head;
    let (front, behind) = octets.split_at_mut(head);
    front[..count].copy_from_slice(&behind[..count]);
}

/// Puts octets at a place. What is behind them stays.
#[inline(always)]
fn put_at<A: Allocator>(octets: &mut Vec<u8, A>, at: usize, new: &[u8])
    requires { at + length new.now ≤ vec_len octets.old }
    ensures new { take (at + length new.now) octets.new.items
        ≡ take at octets.old.items ++ new.now }
    ensures room { vec_len octets.new ≡ vec_len octets.old }
{
    let end = at + new.len();
    octets.as_mut_slice()[at..end].copy_from_slice(new);
}

impl<A: Allocator> OctetQueue<A> {
    ghost use Rattle.capture.specs.OctetQueue.{held};

    /// No octets, and no memory.
    pub fn new(alloc: A) -> OctetQueue<A>
        ensures { held result ≡ [] }
    {
        OctetQueue {
            octets: Vec::new(alloc),
            head: 0,
            end: 0,
        }
    }

    /// Moves what is held to the front of the buffer, in one copy: the places are apart.
    fn move_to_front(&mut self)
        requires { length (held self.old) ≤ self.old.head }
        ensures held { held self.new ≡ held self.old }
        ensures end { self.new.end ≡ length (held self.old) }
        ensures room { vec_len self.new.octets ≡ vec_len self.old.octets }
    {
        let (head, end) = (self.head, self.end);
        self.head = 0;
        self.end = end - head;
        move_down(self.octets.as_mut_slice(), head, end);
    }

    /// Moves what is held to the front of a buffer of so many octets. When out of memory, nothing changes.
    fn move_to_longer(&mut self, room: usize) -> Result<(), AllocError>
    where
        A: Clone,
        requires { length (held self.old) ≤ room }
        ensures held { held self.new ≡ held self.old }
        ensures end { OnOk result (self.new.end ≡ length (held self.old)) }
        ensures room { OnOk result (vec_len self.new.octets ≡ room) }
    {
        let (head, end) = (self.head, self.end);
        let alloc = self.octets.allocator().clone()?;
        let mut longer = Vec::with_capacity(alloc, room)?;
        longer.extend_from_slice(&self.octets.as_slice()[head..end])?;
        longer.resize(room, 0)?;
        self.octets = longer;
        self.head = 0;
        self.end = end - head;
        Ok(())
    }

    /// Makes room for so many octets more after those that are held, which move to the front, where there is none. When
    /// out of memory, nothing changes.
    #[inline(never)]
    fn pull(&mut self, more: usize) -> Result<(), AllocError>
    where
        A: Clone,
        requires few { more ≤ MAX_OCTETS }
        requires full { vec_len self.old.octets < self.old.end + more }
        ensures held { held self.new ≡ held self.old }
        ensures room { OnOk result (self.new.end + more ≤ vec_len self.new.octets) }
    {
        let need = self.end - self.head + more;
        if need <= self.octets.len() / LENGTH {
            self.move_to_front();
            return Ok(());
        }
        self.move_to_longer(need.saturating_mul(LENGTH))
    }

    /// Makes room for so many octets more after those that are held. When out of memory, nothing changes.
    #[inline(always)]
    pub fn make_room(&mut self, more: usize) -> Result<(), AllocError>
    where
        A: Clone,
        requires { more ≤ MAX_OCTETS }
        ensures held { held self.new ≡ held self.old }
        ensures room { OnOk result (self.new.end + more ≤ vec_len self.new.octets) }
    {
        if more > self.octets.len() - self.end {
            return self.pull(more);
        }
        Ok(())
    }

    /// Puts octets at the end, where room was made for them.
    #[inline(always)]
    pub fn put(&mut self, new: &[u8])
        requires { self.old.end + length new.now ≤ vec_len self.old.octets }
        ensures { held self.new ≡ held self.old ++ new.now }
    {
        let at = self.end;
        self.end = at + new.len();
        put_at(&mut self.octets, at, new);
    }

    /// The first octets, so many.
    #[inline(always)]
    pub fn front(&self, count: usize) -> &[u8]
        requires { count ≤ length (held self.now) }
        ensures { result.now ≡ take count (held self.now) }
    {
        let from = self.head;
        let all = self.octets.as_slice();
        &all[from..from + count]
    }

    /// Gives up the first octets, so many.
    pub fn give_up(&mut self, count: usize)
        requires { count ≤ length (held self.old) }
        ensures { held self.new ≡ drop count (held self.old) }
    {
        self.head += count;
        if self.head == self.end {
            self.head = 0;
            self.end = 0;
        }
    }
}
