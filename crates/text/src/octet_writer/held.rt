//! The octets that a writer keeps back.

ghost use Rattle.std.specs.Prelude.{◌≡◌, ◌+◌, ◌-◌, ◌≤◌, ◌++◌, length, take, drop, true, false, IfOk, vec_len};
ghost use Rattle.text.specs.declared.octet_writer.line_writer.TheConstants.{HEAD, LINE_ROOM};

use crate::octet_writer::line_writer::{HEAD, LINE_ROOM, Line};
use std::alloc::{AllocError, Allocator};

/// The first `filled` of these octets are held. Their length is the most that can be.
#[derive(Drop)]
pub(crate) struct Held<A: Allocator> {
    octets: Vec<u8, A>,
    filled: usize,
    ghost within: { filled ≤ vec_len octets },
}

/// Puts a line over the front of room for it, and answers its length.
#[inline(always)]
fn line_over<L: Line>(room: &mut [u8], line: &L) -> usize
    requires { length room.old ≡ LINE_ROOM }
    ensures short { result ≤ LINE_ROOM }
    ensures line { take result room.new ≡ L.text line.now }
{
    let Some(room) = room.as_mut_array::<LINE_ROOM>() else {
        unreachable!()
    };
    line.put_into(room)
}

/// Puts a line at a place, and answers its length. What is behind it may change, as far as there is room for a line.
#[inline(always)]
fn line_at<L: Line>(octets: &mut [u8], at: usize, line: &L) -> usize
    requires { at + LINE_ROOM ≤ length octets.old }
    ensures short { result ≤ LINE_ROOM }
    ensures line { take (at + result) octets.new ≡ take at octets.old ++ L.text line.now }
{
    line_over(&mut octets[at..at + LINE_ROOM], line)
}

/// Puts a head over as many octets.
#[inline(always)]
fn head_over(room: &mut [u8], head: &[u8; HEAD])
    requires { length room.old ≡ HEAD }
    ensures { room.new ≡ head.now }
{
    let Some(room) = room.as_mut_array::<HEAD>() else {
        unreachable!()
    };
    *room = *head;
}

/// Puts a head and the rest over as many octets.
#[inline(always)]
fn headed_over(room: &mut [u8], head: &[u8; HEAD], rest: &[u8])
    requires { length room.old ≡ HEAD + length rest.now }
    ensures { room.new ≡ head.now ++ rest.now }
{
    let (front, behind) = room.split_at_mut(HEAD);
    head_over(front, head);
    behind.copy_from_slice(rest);
}

/// Puts a head and the rest at a place.
#[inline(always)]
fn headed_at(octets: &mut [u8], at: usize, head: &[u8; HEAD], rest: &[u8])
    requires { at + HEAD + length rest.now ≤ length octets.old }
    ensures { take (at + HEAD + length rest.now) octets.new
        ≡ take at octets.old ++ (head.now ++ rest.now) }
{
    headed_over(&mut octets[at..at + HEAD + rest.len()], head, rest);
}

impl<A: Allocator> Held<A> {
    /// Nothing is held. Only the memory may be missing.
    pub(crate) fn with_capacity(alloc: A, capacity: usize) -> Result<Held<A>, AllocError>
        ensures empty { IfOk result (λ held. held.filled ≡ 0) }
        ensures capacity { IfOk result (λ held. vec_len held.octets ≡ capacity) }
    {
        let mut octets = Vec::with_capacity(alloc, capacity)?;
        octets.resize(capacity, 0)?;
        Ok(Held { octets, filled: 0 })
    }

    /// The most octets that can be held.
    pub(crate) fn capacity(&self) -> usize
        ensures { result ≡ vec_len self.now.octets }
    {
        self.octets.len()
    }

    /// How many octets more can be held.
    #[inline(always)]
    pub(crate) fn room(&self) -> usize
        ensures { result ≡ vec_len self.now.octets - self.now.filled }
    {
        self.octets.len() - self.filled
    }

    /// What is held.
    pub(crate) fn as_slice(&self) -> &[u8]
        ensures { result.now ≡ take self.now.filled self.now.octets.items }
    {
        &self.octets.as_slice()[..self.filled]
    }

    /// Holds these octets too.
    #[inline(always)]
    pub(crate) fn append(&mut self, octets: &[u8])
        requires { self.old.filled + length octets.now ≤ vec_len self.old.octets }
        ensures held { take self.new.filled self.new.octets.items
            ≡ take self.old.filled self.old.octets.items ++ octets.now }
        ensures capacity { vec_len self.new.octets ≡ vec_len self.old.octets }
    {
        let end = self.filled + octets.len();
        self.octets.as_mut_slice()[self.filled..end].copy_from_slice(octets);
        self.filled = end;
    }

    /// Holds a line too, where there is room for any line, and answers whether there is.
    #[inline(always)]
    pub(crate) fn append_line<L: Line>(&mut self, line: &L) -> bool
        ensures held { result ≡ true →
            take self.new.filled self.new.octets.items
            ≡ take self.old.filled self.old.octets.items ++ L.text line.now }
        ensures none { result ≡ false → self.new ≡ self.old }
    {
        if self.room() < LINE_ROOM {
            return false;
        }
        let filled = self.filled;
        let length = line_at(self.octets.as_mut_slice(), filled, line);
        self.filled = filled + length;
        true
    }

    /// Holds a head and what follows it too, where there is room for both, and answers whether there is.
    #[inline(always)]
    pub(crate) fn append_headed(&mut self, head: &[u8; HEAD], rest: &[u8]) -> bool
        ensures held { result ≡ true →
            take self.new.filled self.new.octets.items
            ≡ take self.old.filled self.old.octets.items ++ (head.now ++ rest.now) }
        ensures none { result ≡ false → self.new ≡ self.old }
    {
        let room = self.room();
        if room < HEAD || room - HEAD < rest.len() {
            return false;
        }
        let filled = self.filled;
        headed_at(self.octets.as_mut_slice(), filled, head, rest);
        self.filled = filled + HEAD + rest.len();
        true
    }

    /// Holds the first `count` octets no more.
    pub(crate) fn drop_front(&mut self, count: usize)
        requires { count ≤ self.old.filled }
        ensures held { take self.new.filled self.new.octets.items
            ≡ drop count (take self.old.filled self.old.octets.items) }
        ensures filled { self.new.filled + count ≡ self.old.filled }
        ensures capacity { vec_len self.new.octets ≡ vec_len self.old.octets }
    {
        let filled = self.filled;
        self.octets.as_mut_slice().copy_within(count..filled, 0);
        self.filled = filled - count;
    }

    /// What is held, by itself.
    pub(crate) fn into_octets(self) -> Vec<u8, A>
        ensures { result.items ≡ take self.filled self.octets.items }
    {
        let Held { mut octets, filled } = self;
        octets.truncate(filled);
        octets
    }
}
