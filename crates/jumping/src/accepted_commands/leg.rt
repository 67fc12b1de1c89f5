//! What the gates show for a while: a list or none, and what comes after it.
ghost use denote.Bor.{Bor};
ghost use Rattle.std.specs.Prelude.{◌≡◌, ℕ, ◌+◌, ◌-◌, ◌*◌, ◌<◌, ◌≤◌, ◌∷◌, Some, None, min};
ghost use Rattle.std.specs.Option.{ForSome};
ghost use Rattle.jumping.specs.CommandWords.{greatest_moment, in_ps, one_more, open_while, mask_of, mask_in, Position, Listed, IsStanding, IsReady, AreReady, DoFollow, Following, from_of, lent_leg, lent_rest, until_of, stretch_of, stretch_in, stretches_ahead};

use crate::list_position::{Need, Position};
use gates::gate_list::{Schedule, Visits};
use wire_time::CLASSES;

/// What is needed up to a moment, in picoseconds.
fn before(need: Need, moment: u128) -> Need
    requires { need.from ≤ moment }
    ensures { result ≡ record need { length = min need.length (moment - need.from) } }
{
    Need {
        length: need.length.min(moment - need.from),
        ..need
    }
}

/// What is needed from a moment on, in picoseconds.
fn after(need: Need, moment: u128) -> Need
    requires { need.from ≤ moment }
    ensures { result ≡ record need { from = moment; length = need.length - (moment - need.from) } }
{
    Need {
        from: moment,
        length: need.length.saturating_sub(moment - need.from),
        ..need
    }
}

/// A list that stands so at a moment. All moments are in picoseconds.
#[derive(Drop)]
pub struct ListedLeg<'a> {
    /// The list.
    pub schedule: &'a Schedule,
    /// When its first cycle began.
    pub start: u128,
    /// The moment from which its last state is held; none: from no moment on.
    pub held_from: Option<u128>,
    /// The moment at which it stands so.
    pub from: u128,
    /// Where it stands then.
    pub position: &'a Position,
    /// The moment at which another takes its place; none: it goes on for ever.
    pub until: Option<u128>,
}

/// No list: all classes are open. All moments are in picoseconds.
#[derive(Drop)]
pub struct OpenLeg {
    /// Since when there is none.
    pub start: u128,
    /// The moment from which it is looked at.
    pub from: u128,
    /// The moment at which a list begins; none: it goes on for ever.
    pub until: Option<u128>,
}

/// What the gates show from a moment on, up to the next command.
#[derive(Drop)]
pub enum Leg<'a> {
    /// A list.
    Listed(ListedLeg<'a>),
    /// No list.
    Open(OpenLeg),
}

/// What comes after a leg: one leg, two or none. The legs are lent, so that none is copied.
#[derive(Clone, Copy)]
pub struct Rest<'a> {
    /// The leg after.
    pub next: Option<&'a Leg<'a>>,
    /// The one after that, if there is a leg before it.
    pub last: Option<&'a Leg<'a>>,
}

impl<'a> ListedLeg<'a> {
    /// This list where it stands at another moment, in picoseconds.
    pub fn at<'b>(&self, from: u128, position: &'b Position) -> ListedLeg<'b>
    where
        'a: 'b,
        ensures { result ≡ record self.now { from = from; position = position.entry } }
    {
        ListedLeg {
            schedule: self.schedule,
            start: self.start,
            held_from: self.held_from,
            from,
            position,
            until: self.until,
        }
    }

    /// Where this list stands at the start of the cycle that holds `t`, in picoseconds, where it is in force and in no
    /// hold.
    pub fn cycle_at(&self, t: u128, visits: &mut Visits) -> Position
        requires stands { IsStanding (Listed self.now) }
        requires later { self.now.from ≤ t }
        requires within { t ≤ 2 * greatest_moment }
        requires unheld { ForSome self.now.held_from (λ h. t < h) }
        requires unended { ForSome self.now.until (λ u. t < u) }
        ensures ready { (from : ℕ) (position : Bor Position) (rest : Following) →
            from ≡ result.timer.started → position.now ≡ result → AreReady (Listed self.now) rest →
            AreReady (Listed (record self.now { from = from; position = position })) rest }
        ensures reached { result.timer.started ≤ t }
        ensures holds { t < result.timer.next_start }
        ensures cycle { result.timer.next_start
            ≡ result.timer.started + in_ps self.now.schedule.now.cycle }
        ensures onto { self.now.position.now.timer.next_start ≤ t →
            self.now.position.now.timer.next_start ≤ result.timer.started }
        ensures index { result.walk.index ≡ 0 }
        ensures visit { visits.new ≡ one_more visits.old }
        ensures counted { visits.old ≤ visits.new }
    {
        self.position
            .cycle_at(self.schedule, self.held_from, t, visits)
    }
}

impl Leg<'_> {
    /// The moment from which the leg is looked at, in picoseconds.
    pub fn from(&self) -> u128
        ensures { result ≡ from_of self.now }
    {
        match self {
            Leg::Listed(leg) => leg.from,
            Leg::Open(leg) => leg.from,
        }
    }

    /// The moment at which the leg is over, in picoseconds; none: it goes on for ever.
    pub fn until(&self) -> Option<u128>
        ensures { result ≡ until_of self.now }
    {
        match self {
            Leg::Listed(leg) => leg.until,
            Leg::Open(leg) => leg.until,
        }
    }

    /// Whether a class stays open in the leg, where it went on for ever.
    fn stays_open(&self, need: Need) -> bool
        requires ready { IsReady self.now }
        requires at { need.from ≡ from_of self.now }
        requires class { need.class < CLASSES }
        requires within { need.length ≤ greatest_moment }
        ensures { result
            ≡ open_while (mask_of (stretch_of self.now)) need.class need.from need.length }
    {
        match self {
            Leg::Listed(leg) => leg.position.stays_open(leg.schedule, leg.held_from, need),
            Leg::Open(_) => true,
        }
    }

    /// Whether a class stays open from the leg on, through the last one, if there is one.
    fn stays_open_into(&self, next: Option<&Leg<'_>>, need: Need) -> bool
        requires ready { IsReady self.now }
        requires follows { DoFollow self.now (lent_leg next) }
        requires last { ForSome (lent_leg next) (λ g. until_of g ≡ None) }
        requires at { need.from ≡ from_of self.now }
        requires class { need.class < CLASSES }
        requires within { need.length ≤ greatest_moment }
        ensures { result
            ≡ open_while
            (mask_in
            (stretch_of self.now ∷ stretch_in
            (lent_leg next.entry))) need.class need.from need.length }
    {
        match next {
            None => self.stays_open(need),
            Some(next) => {
                self.stays_open(before(need, next.from()))
                    && next.stays_open(after(need, next.from()))
            }
        }
    }

    /// Whether a class stays open from the leg on, through what follows.
    pub fn stays_open_ahead(&self, rest: &Rest<'_>, need: Need) -> bool
        requires ready { AreReady self.now (lent_rest rest.now) }
        requires at { need.from ≡ from_of self.now }
        requires class { need.class < CLASSES }
        requires within { need.length ≤ greatest_moment }
        ensures { result
            ≡ open_while
            (mask_in
            (stretches_ahead self.now (lent_rest rest.now))) need.class need.from need.length }
    {
        match rest.next {
            None => self.stays_open(need),
            Some(next) => {
                self.stays_open(before(need, next.from()))
                    && next.stays_open_into(rest.last, after(need, next.from()))
            }
        }
    }
}
