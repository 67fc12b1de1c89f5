//! The octets of the frames of all classes.

ghost use Rattle.std.specs.Prelude.{◌≡◌, ◌≤◌, ◌<◌, ◌++◌, ◌∷◌, ◌↔◌, [], Some, IsTrue, IfOk, OnOk, OnErr, length, drop, slice_get, slice_set};
ghost use Rattle.capture.specs.declared.octet_store.TheConstants.{MAX_OCTETS};
ghost use Rattle.capture.specs.Stored.{kept, kept_at, new_store};
ghost use Rattle.capture.specs.ClassOctets.{class_at, with_frames};

use crate::octet_store::MAX_OCTETS;
use crate::octet_store::class_octets::{ClassOctets, First};
use abstract_port::per_class::classes_of;
use std::alloc::{AllocError, Allocator, Global};
use std::marker::Model;
use wire_time::CLASSES;

/// How many frames of a class are kept.
fn len_in<A: Allocator>(classes: &[ClassOctets<A>; CLASSES], class: u8) -> usize
    requires { class < CLASSES }
    ensures { result ≡ length (class_at classes.now class).frames }
{
    classes[class as usize].len()
}

/// Whether there is room for one frame more in a class.
fn has_room_in<A: Allocator>(classes: &[ClassOctets<A>; CLASSES], class: u8) -> bool
    requires { class < CLASSES }
    ensures { IsTrue result
        ↔ (length (class_at classes.now class).frames < (class_at classes.now class).room) }
{
    classes[class as usize].has_room()
}

/// Puts a frame at the end of its class.
fn put_in<A: Allocator + Clone>(
    classes: &mut [ClassOctets<A>; CLASSES],
    class: u8,
    original: u32,
    octets: &[u8],
) -> Result<(), AllocError>
    requires class { class < CLASSES }
    requires room { length (class_at classes.old class).frames < (class_at classes.old class).room }
    requires size { length octets.now ≤ MAX_OCTETS }
    ensures ok { OnOk result
        (classes.new
        ≡ slice_set classes.old class
        (with_frames (class_at classes.old class)
        ((class_at classes.old class).frames ++ kept original octets.now ∷ []))) }
    ensures err { OnErr result (classes.new ≡ classes.old) }
{
    classes[class as usize].put(original, octets)
}

/// The first frame of a class.
fn first_in<A: Allocator>(classes: &[ClassOctets<A>; CLASSES], class: u8) -> First<'_>
    requires class { class < CLASSES }
    requires waits { 0 < length (class_at classes.now class).frames }
    ensures first { slice_get (class_at classes.now class).frames 0
        ≡ Some (kept result.original result.octets.now) }
    ensures within { length result.octets.now ≤ MAX_OCTETS }
{
    classes[class as usize].first()
}

/// Gives up the first frame of a class.
fn give_up_in<A: Allocator>(classes: &mut [ClassOctets<A>; CLASSES], class: u8)
    requires class { class < CLASSES }
    requires waits { 0 < length (class_at classes.old class).frames }
    ensures { classes.new
        ≡ slice_set classes.old class
        (with_frames (class_at classes.old class) (drop 1 (class_at classes.old class).frames)) }
{
    classes[class as usize].give_up();
}

/// For each class, first in, first out: the octets of frames that wait, and the original length of each.
///
/// A class's octets lie in one buffer, which grows where a frame doesn't fit and never shrinks, and is used again for
/// what comes after: once it is large enough, a frame takes no memory. The octets of a frame lie in one piece, and are
/// lent from there.
#[derive(Drop)]
pub struct OctetStore<A: Allocator = Global> {
    classes: [ClassOctets<A>; CLASSES],
}

/// A contract sees eight lists and a room.
impl<A: Allocator> Model for OctetStore<A> {
    ghost use Rattle.capture.specs.Stored.{Stored};

    ghost Value = { Stored };

    ghost use Rattle.capture.specs.ClassOctets.{HaveRoom, class_at, frames_of};

    ghost view = { λ s. record { kept = frames_of s.classes; room = (class_at s.classes 0).room } };

    ghost invariant = { λ s. HaveRoom (class_at s.classes 0).room s.classes };
}

impl<A: Allocator> OctetStore<A> {
    /// Eight classes without frames, with room for so many frames each. The room for all lengths that are ever kept is
    /// got here, and the room for the octets of frames that wait by `put`.
    pub fn new(alloc: &A, room: u32) -> Result<OctetStore<A>, AllocError>
    where
        A: Clone,
        ensures { IfOk result (λ s. s ≡ new_store room) }
    {
        let classes = classes_of(alloc, room as usize)?;
        Ok(OctetStore { classes })
    }

    /// How many frames of a class, 0 to 7, are kept.
    pub fn len(&self, class: u8) -> usize
        requires { class < CLASSES }
        ensures { result ≡ length (kept_at self.now.kept class) }
    {
        len_in(&self.classes, class)
    }

    /// Whether there is room for one frame more in a class, 0 to 7.
    pub fn has_room(&self, class: u8) -> bool
        requires { class < CLASSES }
        ensures { IsTrue result ↔ (length (kept_at self.now.kept class) < self.now.room) }
    {
        has_room_in(&self.classes, class)
    }

    /// Puts a frame of `original` octets, of which these are kept, at the end of its class, 0 to 7. When out of memory,
    /// the store is left as it was.
    pub fn put(&mut self, class: u8, original: u32, octets: &[u8]) -> Result<(), AllocError>
    where
        A: Clone,
        requires class { class < CLASSES }
        requires room { length (kept_at self.old.kept class) < self.old.room }
        requires size { length octets.now ≤ MAX_OCTETS }
        ensures ok { OnOk result
            (self.new
            ≡ record self.old {
              kept = slice_set self.old.kept class
                  (kept_at self.old.kept class ++ kept original octets.now ∷ []);
            }) }
        ensures err { OnErr result (self.new ≡ self.old) }
    {
        put_in(&mut self.classes, class, original, octets)?;
        Ok(())
    }

    /// The first frame of a class, 0 to 7, in which one is kept.
    pub fn first(&self, class: u8) -> First<'_>
        requires class { class < CLASSES }
        requires waits { 0 < length (kept_at self.now.kept class) }
        ensures first { slice_get (kept_at self.now.kept class) 0
            ≡ Some (kept result.original result.octets.now) }
        ensures within { length result.octets.now ≤ MAX_OCTETS }
    {
        first_in(&self.classes, class)
    }

    /// Gives up the first frame of a class, 0 to 7, in which one is kept. It wants no memory.
    pub fn give_up(&mut self, class: u8)
        requires class { class < CLASSES }
        requires waits { 0 < length (kept_at self.old.kept class) }
        ensures { self.new
            ≡ record self.old {
              kept = slice_set self.old.kept class
                  (drop 1 (kept_at self.old.kept class));
            } }
    {
        give_up_in(&mut self.classes, class);
    }
}
