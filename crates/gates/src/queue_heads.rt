//! What the heads of the class queues need of the wire, and in which classes a frame waits.
//!
//! The contract is that of each call of `Heads`, which is seen as the needs by class; what is kept is specs/Heads.antt.
ghost use Rattle.std.specs.Prelude.{◌≡◌, ◌<◌, ◌≤◌, ℕ, [], ◌∷◌, All, Some, None, is_some, true, false, length, slice_get, slice_index_or, slice_set};
ghost use Rattle.std.specs.Option.{ForSome};
ghost use Rattle.wire_time.specs.Moment.{greatest_moment};
ghost use Rattle.gates.specs.Gate.{opens};
ghost use Rattle.gates.specs.Heads.{need_kept};

use std::marker::Model;
use wire_time::CLASSES;

/// For each class how long its head needs the wire, in picoseconds, 0 where no frame waits; and the mask of the classes
/// in which one does, so that the others need no look.
#[derive(Debug, Drop)]
pub struct Heads {
    needs: [u64; CLASSES],
    waits: u8,
}

/// A contract sees by class what is needed; none where no frame waits.
impl Model for Heads {
    ghost use Rattle.std.specs.Prelude.{ℕ, List, Option, map};
    ghost use Rattle.gates.specs.Heads.{need_kept, AreMarked};

    ghost Value = { List (Option ℕ) };

    ghost view = { λ h. map need_kept h.needs };

    ghost invariant = { λ h. AreMarked h.waits h.needs };
}

/// A mask with a class more.
fn with(mask: u8, class: u8) -> u8
    requires { class < CLASSES }
    ensures same { opens result class ≡ true }
    ensures others { (other : ℕ) → (other ≡ class → ⊥) → opens result other ≡ opens mask other }
{
    mask | (1 << class)
}

/// A mask less a class.
pub fn without(mask: u8, class: u8) -> u8
    requires { class < CLASSES }
    ensures same { opens result class ≡ false }
    ensures others { (other : ℕ) → other < CLASSES → (other ≡ class → ⊥) →
        opens result other ≡ opens mask other }
    ensures less { opens mask class ≡ true → result < mask }
{
    mask & !(1 << class)
}

/// The greatest class that a mask opens, which isn't 0.
pub fn highest(mask: u8) -> u8
    requires { 0 < mask }
    ensures within { result < CLASSES }
    ensures opens { opens mask result ≡ true }
    ensures highest { (class : ℕ) → opens mask class ≡ true → class ≤ result }
{
    7 - mask.leading_zeros() as u8
}

/// What a class needs, in picoseconds, by the number that is kept of it.
fn need_kept(kept: u64) -> Option<u128>
    ensures value { result ≡ need_kept kept }
    ensures within { ForSome result (λ d. d ≤ greatest_moment) }
{
    if kept == 0 { None } else { Some(kept as u128) }
}

impl Heads {
    /// No frame waits.
    pub fn none() -> Heads
        ensures { result ≡ None ∷ None ∷ None ∷ None ∷ None ∷ None ∷ None ∷ None ∷ [] }
    {
        Heads {
            needs: [0; CLASSES],
            waits: 0,
        }
    }

    /// The head of a class needs the wire for so long, in picoseconds and more than 0; none: no frame waits there.
    pub fn set(&mut self, class: u8, need: Option<u64>)
        requires class { class < CLASSES }
        requires some { ForSome need (λ d. 0 < d) }
        ensures { self.new ≡ slice_set self.old class need }
    {
        match need {
            Some(need) => {
                self.needs[class as usize] = need;
                self.waits = with(self.waits, class);
            }
            None => {
                self.needs[class as usize] = 0;
                self.waits = without(self.waits, class);
            }
        }
    }

    /// The classes in which a frame waits: bit c is class c.
    pub fn waits(&self) -> u8
        ensures marks { (class : ℕ) → class < CLASSES →
            opens result class ≡ is_some (slice_index_or self.now class None) }
        ensures some { (class d : ℕ) → slice_index_or self.now class None ≡ Some d → 0 < d }
        ensures count { length self.now ≡ CLASSES }
    {
        self.waits
    }

    /// How long the head of a class needs the wire, in picoseconds, where a frame waits.
    pub fn need(&self, class: u8) -> u64
        requires { class < CLASSES }
        ensures { (d : ℕ) → slice_index_or self.now class None ≡ Some d → result ≡ d }
    {
        self.needs[class as usize]
    }

    /// How long the head of a class needs the wire, in picoseconds, if a frame waits there.
    #[inline(always)]
    pub fn need_in(&self, class: u8) -> Option<u128>
        requires { class < CLASSES }
        ensures value { slice_get self.now class ≡ Some result }
        ensures within { ForSome result (λ d. d ≤ greatest_moment) }
    {
        need_kept(self.needs[class as usize])
    }

    /// The needs, in picoseconds, by class; none where no frame waits.
    pub fn list(&self) -> [Option<u128>; CLASSES]
        ensures value { result ≡ self.now }
        ensures within { All (λ need. ForSome need (λ d. d ≤ greatest_moment)) result }
    {
        let kept = &self.needs;
        [
            need_kept(kept[0]),
            need_kept(kept[1]),
            need_kept(kept[2]),
            need_kept(kept[3]),
            need_kept(kept[4]),
            need_kept(kept[5]),
            need_kept(kept[6]),
            need_kept(kept[7]),
        ]
    }
}
