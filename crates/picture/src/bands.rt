//! The bands of eight classes: when each is open, by gates of their own.

ghost use Rattle.std.specs.Prelude.{◌≡◌, ◌≤◌, ◌<◌, ◌+◌, ◌-◌, ◌*◌, ℕ, IfOk, Ok, Some, false, if◌then◌else◌, is_some, length, max, min, slice_set};
ghost use Rattle.picture.specs.Words.{greatest_lead, greatest_moment, lead_of, opens, plan_fault, gates, kept, IsCurrent, accepted_at, deletion_at, with_command, AbstractPort, installs, plan_asked, MAX_WIDTH, MOST_BOUNDARIES, MOST_SHAPES, AreUsedUp, class_at, drawn, IsDrawnInPieces, IsGoneOn, IsPiece, is_mixed, most_asked, most_mixed, most_moved, no_needs, open_while, opens_within, history_with, new_drawing, no_bands, piece_of, stepped, up_to, with_plan};

use crate::class_bands::ClassBands;
use crate::span::Shape;
use crate::{MAX_WIDTH, MOST_BOUNDARIES, MOST_SHAPES};
use abstract_port::per_class::classes_of;
use abstract_port::{Change, Command};
use gates::gate_list::{Schedule, Visits, is_open};
use gates::list_config::Gates;
use gates::queue_heads::Heads;
use jumping::Jumping;
use std::alloc::{AllocError, Allocator, Global};
use std::marker::Model;
use wire_time::{CLASSES, Rate};

/// The bands of a class that are complete.
fn shapes_in<A: Allocator>(classes: &[ClassBands<A>; CLASSES], class: u8) -> &[Shape]
    requires { class < CLASSES }
    ensures value { result.now ≡ (class_at classes.now class).lane.shapes }
    ensures few { length result.now ≤ MOST_SHAPES }
{
    classes[class as usize].shapes()
}

/// At a moment, in picoseconds, one class is open or closed.
fn step_in<A: Allocator>(
    classes: &mut [ClassBands<A>; CLASSES],
    class: u8,
    is_open: bool,
    moment: u128,
)
    requires class { class < CLASSES }
    requires within { moment ≤ greatest_moment }
    ensures { classes.new
        ≡ slice_set classes.old class (stepped is_open moment (class_at classes.old class)) }
{
    classes[class as usize].step(is_open, moment)
}

/// At a moment, in picoseconds, the classes of a mask are open, and the others closed.
fn step_all<A: Allocator>(classes: &mut [ClassBands<A>; CLASSES], mask: u8, moment: u128)
    requires { moment ≤ greatest_moment }
    ensures { (class : ℕ) → class < CLASSES →
        class_at classes.new class
        ≡ stepped (opens mask class) moment (class_at classes.old class) }
{
    for class in 0..CLASSES as u8 {
        step_in(classes, class, is_open(mask, class), moment);
    }
}

/// One class has no bands any more.
fn clear_in<A: Allocator>(classes: &mut [ClassBands<A>; CLASSES], class: u8)
    requires { class < CLASSES }
    ensures { classes.new ≡ slice_set classes.old class no_bands }
{
    classes[class as usize].clear()
}

/// No class has bands any more.
fn clear_all<A: Allocator>(classes: &mut [ClassBands<A>; CLASSES])
    ensures { (class : ℕ) → class < CLASSES → class_at classes.new class ≡ no_bands }
{
    for class in 0..CLASSES as u8 {
        clear_in(classes, class);
    }
}

/// How many boundaries may still be looked at, where one is, or none is.
fn left_after(left: u32, boundary: Option<u128>) -> u32
    requires { 0 < left }
    ensures { result ≡ left - (if is_some boundary then 1 else 0) }
{
    match boundary {
        None => left,
        Some(_) => left - 1,
    }
}

/// Goes on from gate event to gate event up to a moment, in picoseconds, unless it is past, and draws the bands of the
/// time until then. It stops where no boundary is left to be looked at.
fn draw_to<A: Allocator>(
    own: &mut Jumping,
    classes: &mut [ClassBands<A>; CLASSES],
    left: &mut u32,
    upto: u128,
    visits: &mut Visits,
)
    requires sound { IsCurrent own.old.history own.old.moment }
    requires within { upto ≤ greatest_moment }
    ensures few { visits.new + most_moved own.old.history * left.new
        ≤ visits.old + most_moved own.old.history * (left.old + 1) }
    ensures sound { IsCurrent own.new.history own.new.moment }
    ensures onward { own.old.moment ≤ own.new.moment }
    ensures within { own.new.moment ≤ max own.old.moment upto }
    ensures whole { 0 < left.new → upto ≤ own.new.moment }
    ensures used { AreUsedUp own.old.history own.old.moment upto own.new.moment left.old left.new }
    ensures history { own.new.history ≡ kept own.old.history own.new.moment }
    ensures classes { (class : ℕ) → class < CLASSES →
        class_at classes.new class
        ≡ drawn (gates own.old.history) class own.old.moment (own.new.moment - own.old.moment)
        (class_at classes.old class) }
{
    let mut now = own.now();
    while now < upto && *left > 0 {
        let boundary = own.next_boundary(upto);
        let next = boundary.unwrap_or(upto);
        step_all(classes, own.mask(), now);
        own.move_to(next, visits);
        now = next;
        *left = left_after(*left, boundary);
    }
}

/// What one class alone needs: to be open for a picosecond.
fn need_of(class: u8) -> Heads
    requires { class < CLASSES }
    ensures { result ≡ slice_set no_needs class (Some 1) }
{
    let mut heads = Heads::none();
    heads.set(class, Some(1));
    heads
}

/// Whether a class is open at some moment from now on and before another, in picoseconds.
fn opens_before(own: &Jumping, class: u8, upto: u128, visits: &mut Visits) -> bool
    requires sound { IsCurrent own.now.history own.now.moment }
    requires class { class < CLASSES }
    requires later { own.now.moment ≤ upto }
    requires within { upto ≤ greatest_moment }
    ensures value { result
        ≡ opens_within (gates own.now.history) class own.now.moment (upto - own.now.moment) }
    ensures few { visits.new ≤ visits.old + most_asked own.now.history }
{
    let first = own.quiet(&need_of(class), upto, visits);
    if first < upto {
        return true;
    }
    false
}

/// From now on and before a moment, in picoseconds, one class is open at all moments, or not.
fn whole_in<A: Allocator>(
    own: &Jumping,
    classes: &mut [ClassBands<A>; CLASSES],
    class: u8,
    upto: u128,
)
    requires sound { IsCurrent own.now.history own.now.moment }
    requires class { class < CLASSES }
    requires later { own.now.moment < upto }
    requires within { upto ≤ greatest_moment }
    ensures { classes.new
        ≡ slice_set classes.old class
        (stepped
        (open_while (gates own.now.history) class own.now.moment
        (upto - own.now.moment)) own.now.moment (class_at classes.old class)) }
{
    let now = own.now();
    let is_whole = own.stays_open(class, upto - now, &mut Visits::zero());
    step_in(classes, class, is_whole, now);
}

/// From now on and before a moment, in picoseconds, each class is open at all moments, or not.
fn whole_all<A: Allocator>(own: &Jumping, classes: &mut [ClassBands<A>; CLASSES], upto: u128)
    requires sound { IsCurrent own.now.history own.now.moment }
    requires later { own.now.moment < upto }
    requires within { upto ≤ greatest_moment }
    ensures { (class : ℕ) → class < CLASSES →
        class_at classes.new class
        ≡ stepped
        (open_while (gates own.now.history) class own.now.moment
        (upto - own.now.moment)) own.now.moment (class_at classes.old class) }
{
    for class in 0..CLASSES as u8 {
        whole_in(own, classes, class, upto);
    }
}

/// From now on and before a moment, in picoseconds, one class is open at some moments alone, or not.
fn mixed_in<A: Allocator>(
    own: &Jumping,
    mixed: &mut [ClassBands<A>; CLASSES],
    class: u8,
    upto: u128,
    visits: &mut Visits,
)
    requires sound { IsCurrent own.now.history own.now.moment }
    requires class { class < CLASSES }
    requires later { own.now.moment < upto }
    requires within { upto ≤ greatest_moment }
    ensures few { visits.new ≤ visits.old + most_asked own.now.history }
    ensures mixed { mixed.new
        ≡ slice_set mixed.old class
        (stepped
        (is_mixed (gates own.now.history) class own.now.moment
        (upto - own.now.moment)) own.now.moment (class_at mixed.old class)) }
{
    let now = own.now();
    let is_some = opens_before(own, class, upto, visits);
    let is_whole = own.stays_open(class, upto - now, visits);
    step_in(mixed, class, is_some && !is_whole, now);
}

/// From now on and before a moment, in picoseconds, each class is open at some moments alone, or not.
fn mixed_all<A: Allocator>(
    own: &Jumping,
    mixed: &mut [ClassBands<A>; CLASSES],
    upto: u128,
    visits: &mut Visits,
)
    requires sound { IsCurrent own.now.history own.now.moment }
    requires later { own.now.moment < upto }
    requires within { upto ≤ greatest_moment }
    ensures few { visits.new ≤ visits.old + most_asked own.now.history * CLASSES }
    ensures mixed { (class : ℕ) → class < CLASSES →
        class_at mixed.new class
        ≡ stepped
        (is_mixed (gates own.now.history) class own.now.moment
        (upto - own.now.moment)) own.now.moment (class_at mixed.old class) }
{
    for class in 0..CLASSES as u8 {
        mixed_in(own, mixed, class, upto, visits);
    }
}

/// How long the time is that a pixel shows of the widest picture, in picoseconds, rounded up; the picture begins at a
/// moment and ends at another, or, where no end is known, at this one or later.
fn piece_of(from: u128, to: Option<u128>, upto: u128) -> u128
    ensures value { result ≡ piece_of from to upto }
    ensures some { 0 < result }
{
    let length = to.unwrap_or(upto).saturating_sub(from);
    length.div_ceil(u128::from(MAX_WIDTH)).max(1)
}

/// Where a piece ends that begins now: it is as long as given, or longer while no gate changes, and ends at the end of
/// the time at the latest.
fn piece_end(own: &Jumping, piece: u128, upto: u128) -> u128
    requires sound { IsCurrent own.now.history own.now.moment }
    requires some { 0 < piece }
    requires later { own.now.moment < upto }
    requires within { upto ≤ greatest_moment }
    ensures { IsPiece (gates own.now.history) piece own.now.moment upto result }
{
    let steady = own.next_boundary(upto).unwrap_or(upto);
    let whole = own.now().saturating_add(piece).min(upto);
    steady.max(whole)
}

/// What is left up to a moment, in picoseconds, is drawn piece by piece: of each piece each class is open at all
/// moments, at some or at none.
fn mix_to<A: Allocator>(
    own: &mut Jumping,
    classes: &mut [ClassBands<A>; CLASSES],
    mixed: &mut [ClassBands<A>; CLASSES],
    piece: u128,
    upto: u128,
    visits: &mut Visits,
)
    requires sound { IsCurrent own.old.history own.old.moment }
    requires some { 0 < piece }
    requires within { upto ≤ greatest_moment }
    ensures sound { IsCurrent own.new.history own.new.moment }
    ensures moment { own.new.moment ≡ max own.old.moment upto }
    ensures history { own.new.history ≡ kept own.old.history own.new.moment }
    ensures few { (n : ℕ) → upto ≤ own.old.moment + piece * n →
        visits.new ≤ visits.old + most_mixed own.old.history * n }
    ensures drawn { IsDrawnInPieces
        (gates own.old.history) piece own.old.moment upto classes.old mixed.old classes.new
        mixed.new }
{
    let mut now = own.now();
    while now < upto {
        let next = piece_end(own, piece, upto);
        whole_all(own, classes, next);
        mixed_all(own, mixed, next, visits);
        own.move_to(next, visits);
        now = next;
    }
}

/// The bands of the eight classes of a port: gates of its commands, since when each class is open, and the bands that
/// are complete, in lanes. A band is a longest time for which its class stays open, of the moments from one on and,
/// where there is an end, before another. Once `MOST_BOUNDARIES` have been looked at, the time is drawn in pieces as
/// long as a pixel, or longer while no gate changes: a piece at some of whose moments a class is open is mixed.
#[derive(Drop)]
pub struct Bands<A: Allocator = Global> {
    gates: Jumping,
    classes: [ClassBands<A>; CLASSES],
    mixed: [ClassBands<A>; CLASSES],
    from: u128,
    to: Option<u128>,
    left: u32,
}

/// A contract sees the history of the gates and their moment, the two moments, and the classes.
impl<A: Allocator> Model for Bands<A> {
    ghost use Rattle.gates.specs.Current.{IsCurrent};
    ghost use Rattle.picture.specs.Drawn.{Drawing};

    ghost Value = { Drawing };

    ghost view = { λ b. record {
      history = b.gates.history;
      moment = b.gates.moment;
      from = b.from;
      to = b.to;
      classes = b.classes;
      mixed = b.mixed;
      left = b.left;
    } };

    ghost invariant = { λ b. IsCurrent b.gates.history b.gates.moment };
}

impl<A: Allocator> Bands<A> {
    /// No bands at the moment 0, of gates that all are open. Nothing before `from` is drawn, in picoseconds, and
    /// nothing from `to` on, where it is given. The room for all that the lanes ever have is got here.
    pub fn new(alloc: &A, from: u128, to: Option<u128>) -> Result<Bands<A>, AllocError>
    where
        A: Clone,
        ensures { IfOk result (λ bands. bands ≡ new_drawing from to) }
    {
        let classes = classes_of(alloc, MOST_SHAPES)?;
        let mixed = classes_of(alloc, MOST_SHAPES)?;
        Ok(Bands {
            gates: Jumping::begin(),
            classes,
            mixed,
            from,
            to,
            left: MOST_BOUNDARIES,
        })
    }

    /// A command that a port accepted, given now, at the port's line rate and with its lead moment, in picoseconds. One
    /// that no port of this history would accept changes nothing.
    pub fn install(&mut self, command: &Command, rate: Rate, lead: u128)
        requires ahead { self.old.moment < lead }
        requires within { lead ≤ greatest_moment + greatest_lead }
        ensures drawing { self.new
            ≡ record self.old {
              history = history_with rate lead command.now self.old.history
                  self.old.moment;
            } }
        ensures accepted { (p : AbstractPort) (change : ℕ) → p.history ≡ self.old.history →
            p.now ≡ self.old.moment → p.ps ≡ rate → p.now + lead_of p.ps p.mtu ≡ lead →
            (installs p command.now).0 ≡ Ok change →
            self.new.history ≡ (installs p command.now).1.history }
        ensures hindsight { (n : ℕ) → n < lead →
            gates self.new.history n ≡ gates self.old.history n }
    {
        match command {
            Command::Delete => self.delete(lead),
            Command::Replace(change) => self.replace(change, rate, lead),
        }
    }

    /// A deletion, with its lead moment, in picoseconds.
    fn delete(&mut self, lead: u128)
        requires ahead { self.old.moment < lead }
        requires within { lead ≤ greatest_moment + greatest_lead }
        ensures drawing { self.new
            ≡ record self.old {
              history = with_command self.old.history self.old.moment
                  (deletion_at lead);
            } }
        ensures hindsight { (n : ℕ) → n < lead →
            gates self.new.history n ≡ gates self.old.history n }
    {
        let _ = self.gates.delete(lead);
    }

    /// A change, at a line rate and with its lead moment, in picoseconds.
    fn replace(&mut self, change: &Change, rate: Rate, lead: u128)
        requires ahead { self.old.moment < lead }
        requires within { lead ≤ greatest_moment + greatest_lead }
        ensures drawing { self.new
            ≡ record self.old {
              history = with_plan
                  (plan_fault rate (plan_asked change.now)) self.old.history self.old.moment
                  (accepted_at lead (plan_asked change.now));
            } }
        ensures hindsight { (n : ℕ) → n < lead →
            gates self.new.history n ≡ gates self.old.history n }
    {
        match Schedule::new(
            &change.list,
            change.base_ns,
            change.cycle_ns,
            change.extension_ns,
            rate,
        ) {
            Err(_) => {}
            Ok(schedule) => {
                let _ = self.gates.install(&schedule, lead);
            }
        }
    }

    /// What was drawn is dropped: from now on nothing before `from` is drawn, in picoseconds, and nothing from `to` on,
    /// where it is given.
    pub fn begin_at(&mut self, from: u128, to: Option<u128>)
        ensures gates { (self.new.history ≡ self.old.history)
            × (self.new.moment ≡ self.old.moment) }
        ensures viewport { (self.new.from ≡ from) × (self.new.to ≡ to)
            × (self.new.left ≡ MOST_BOUNDARIES) }
        ensures classes { (class : ℕ) → class < CLASSES →
            class_at self.new.classes class ≡ no_bands }
        ensures mixed { (class : ℕ) → class < CLASSES → class_at self.new.mixed class ≡ no_bands }
    {
        clear_all(&mut self.classes);
        clear_all(&mut self.mixed);
        self.from = from;
        self.to = to;
        self.left = MOST_BOUNDARIES;
    }

    /// The gates go on to a moment, in picoseconds. Each band that ends on the way is put into its lane. Where no
    /// boundary is left to be looked at, what is left of the way is drawn in pieces. Answers how many entries the gates
    /// looked at.
    pub fn go_to(&mut self, moment: u128) -> u64
        requires later { self.old.moment ≤ moment }
        requires within { moment ≤ greatest_moment }
        ensures moment { self.new.moment ≡ moment }
        ensures history { self.new.history ≡ kept self.old.history moment }
        ensures viewport { (self.new.from ≡ self.old.from) × (self.new.to ≡ self.old.to) }
        ensures drawn { IsGoneOn self.old self.new moment }
        ensures few { result + most_moved self.old.history * self.new.left
            ≤ most_moved self.old.history * (self.old.left + 3) + most_mixed self.old.history *
            (MAX_WIDTH + 1) }
    {
        let mut visits = Visits::zero();
        let first = self.from.max(self.gates.now()).min(moment);
        self.gates.move_to(first, &mut visits);
        let upto = up_to(self.to, moment);
        draw_to(
            &mut self.gates,
            &mut self.classes,
            &mut self.left,
            upto,
            &mut visits,
        );
        let piece = piece_of(self.from, self.to, upto);
        mix_to(
            &mut self.gates,
            &mut self.classes,
            &mut self.mixed,
            piece,
            upto,
            &mut visits,
        );
        self.gates.move_to(moment, &mut visits);
        visits.count()
    }

    /// The bands of the classes that are open end now, or where the drawing ends if that is earlier.
    pub fn end(&mut self)
        ensures same { (self.new.history ≡ self.old.history) × (self.new.moment ≡ self.old.moment)
            × (self.new.from ≡ self.old.from) × (self.new.to ≡ self.old.to)
            × (self.new.left ≡ self.old.left) }
        ensures classes { (class : ℕ) → class < CLASSES →
            class_at self.new.classes class
            ≡ stepped false (up_to self.old.to self.old.moment) (class_at self.old.classes class) }
        ensures mixed { (class : ℕ) → class < CLASSES →
            class_at self.new.mixed class
            ≡ stepped false (up_to self.old.to self.old.moment) (class_at self.old.mixed class) }
    {
        let upto = up_to(self.to, self.gates.now());
        step_all(&mut self.classes, 0, upto);
        step_all(&mut self.mixed, 0, upto);
    }

    /// The moment from which on bands are drawn, in picoseconds.
    pub fn from(&self) -> u128
        ensures { result ≡ self.now.from }
    {
        self.from
    }

    /// The moment up to which bands are drawn, in picoseconds; none: as far as the gates go on.
    pub fn to(&self) -> Option<u128>
        ensures { result ≡ self.now.to }
    {
        self.to
    }

    /// The moment that the gates are at, in picoseconds.
    pub fn now(&self) -> u128
        ensures { result ≡ self.now.moment }
    {
        self.gates.now()
    }

    /// The bands of a class, 0 to 7, that are complete, by rising start.
    pub fn lane(&self, class: u8) -> &[Shape]
        requires { class < CLASSES }
        ensures value { result.now ≡ (class_at self.now.classes class).lane.shapes }
        ensures few { length result.now ≤ MOST_SHAPES }
    {
        shapes_in(&self.classes, class)
    }

    /// The times at which a class, 0 to 7, is mixed, that are complete, by rising start.
    pub fn mixed(&self, class: u8) -> &[Shape]
        requires { class < CLASSES }
        ensures value { result.now ≡ (class_at self.now.mixed class).lane.shapes }
        ensures few { length result.now ≤ MOST_SHAPES }
    {
        shapes_in(&self.mixed, class)
    }
}

/// A moment, or the end where that is given and earlier; both are in picoseconds.
fn up_to(end: Option<u128>, moment: u128) -> u128
    ensures { result ≡ up_to end moment }
{
    match end {
        None => moment,
        Some(end) => end.min(moment),
    }
}
