//! The search for the first moment at which some class with a need stays open through it.
ghost use Rattle.std.specs.Prelude.{◌≡◌, ℕ, ◌+◌, ◌-◌, ◌*◌, ◌<◌, ◌≤◌, ◌∷◌, Some, None, true, false, All, length, min, slice_get};
ghost use Rattle.std.specs.Option.{ForSome};
ghost use Rattle.jumping.specs.Words.{greatest_moment, IsSchedule, has_come, in_ps, mask_since, opens, open_while, mask_in, mask_of, end_of, IsFlat, IsPlaced, boundary_in, Listed, AreReady, DoFollow, IsReady, stretch_in, from_of, lent_leg, lent_rest, until_of, stretch_of, stretches_ahead, Fits, IsSearch, Searched, up_to, most_visits, most_in};

use crate::accepted_commands::{Leg, ListedLeg, Rest};
use crate::list_position::{Need, Position};
use gates::gate_list::Visits;
use gates::queue_heads::Heads;
use wire_time::CLASSES;

/// Whether some class with a need, in picoseconds, stays open through it from a leg on.
fn fits(leg: &Leg<'_>, rest: &Rest<'_>, needs: &Heads) -> bool
    requires ready { AreReady leg.now (lent_rest rest.now) }
    ensures some { result ≡ true →
        Fits (mask_in (stretches_ahead leg.now (lent_rest rest.now))) needs.now (from_of leg.now) }
    ensures none { result ≡ false → (class d : ℕ) → slice_get needs.now class ≡ Some (Some d) →
        open_while (mask_in (stretches_ahead leg.now (lent_rest rest.now))) class
        (from_of leg.now) d ≡ false }
{
    // The needs are of all classes.
    let _ = needs.waits();
    let from = leg.from();
    for class in 0..CLASSES as u8 {
        if let Some(length) = needs.need_in(class) {
            let need = Need {
                class,
                from,
                length,
            };
            if leg.stays_open_ahead(rest, need) {
                return true;
            }
        }
    }
    false
}

/// Whether a mask opens some class with a need.
fn opens_some(mask: u8, needs: &Heads) -> bool
    ensures { result ≡ false → (class d : ℕ) → slice_get needs.now class ≡ Some (Some d) →
        (0 < d) × (opens mask class ≡ false) }
{
    mask & needs.waits() != 0
}

/// Whether some class with a need, in picoseconds, stays open through it in a list that nothing follows, from where it
/// stands so.
fn fits_alone(leg: &ListedLeg<'_>, from: u128, position: &Position, needs: &Heads) -> bool
    requires sound { IsSchedule leg.now.schedule.now }
    requires stands { IsPlaced leg.now.schedule.now leg.now.start leg.now.held_from from
        position.now }
    requires near { from ≤ 2 * greatest_moment }
    ensures some { result ≡ true →
        Fits (mask_since
        (Some leg.now.schedule.now) leg.now.start leg.now.held_from) needs.now from }
    ensures none { result ≡ false → (class d : ℕ) → slice_get needs.now class ≡ Some (Some d) →
        open_while
        (mask_since (Some leg.now.schedule.now) leg.now.start leg.now.held_from) class from d
        ≡ false }
{
    // The needs are of all classes.
    let _ = needs.waits();
    for class in 0..CLASSES as u8 {
        if let Some(length) = needs.need_in(class) {
            let need = Need {
                class,
                from,
                length,
            };
            if position.stays_open(leg.schedule, leg.held_from, need) {
                return true;
            }
        }
    }
    false
}

/// The end of the entry that is shown, or of the cycle, in picoseconds.
pub(crate) fn boundary(position: &Position) -> u128
    ensures { result ≡ boundary_in position.now.timer.next_start (end_of position.now.walk) }
{
    let cycle_end = position.timer.next_start();
    match position.walk.entry_end() {
        Some(entry_end) => entry_end.min(cycle_end),
        None => cycle_end,
    }
}

/// A search in a list: what comes after it, what each class needs, and the moment before which it ends. All times are
/// in picoseconds.
#[derive(Drop)]
struct ListSearch<'a> {
    rest: &'a Rest<'a>,
    needs: &'a Heads,
    stop: u128,
}

impl ListSearch<'_> {
    /// Whether some class fits where a list stands so at a moment. Where nothing follows it, its position decides. Else
    /// the mask shows first whether what follows is worth asking.
    fn fits_at(&self, leg: &ListedLeg<'_>, from: u128, position: &Position) -> bool
        requires ready { AreReady (Listed (record leg.now { from = from; position = position }))
            (lent_rest self.now.rest.now) }
        requires unended { ForSome leg.now.until (λ u. from < u) }
        ensures some { result ≡ true →
            Fits (mask_in
            (stretches_ahead (Listed leg.now)
            (lent_rest self.now.rest.now))) self.now.needs.now from }
        ensures none { result ≡ false → (class d : ℕ) →
            slice_get self.now.needs.now class ≡ Some (Some d) →
            open_while
            (mask_in (stretches_ahead (Listed leg.now) (lent_rest self.now.rest.now))) class from d
            ≡ false }
    {
        match self.rest.next {
            None => fits_alone(leg, from, position, self.needs),
            Some(_) => {
                opens_some(position.walk.mask(), self.needs)
                    && fits(&Leg::Listed(leg.at(from, position)), self.rest, self.needs)
            }
        }
    }

    /// The first moment at which some class fits, from where a list stands and before the end of its cycle. Each
    /// further entry is a visit.
    fn in_cycle(&self, leg: &ListedLeg<'_>, visits: &mut Visits) -> Option<u128>
        requires search { IsSearch self.now leg.now }
        requires unheld { ForSome leg.now.held_from (λ h. self.now.stop ≤ h) }
        ensures searched { Searched
            (mask_in
            (stretches_ahead (Listed leg.now)
            (lent_rest self.now.rest.now))) self.now.needs.now leg.now.from
            (min self.now.stop leg.now.position.now.timer.next_start) result }
        ensures counted { visits.old ≤ visits.new }
        ensures visits { visits.new + leg.now.position.now.walk.index + 1
            ≤ visits.old + length leg.now.schedule.now.entries }
    {
        let limit = self.stop.min(leg.position.timer.next_start());
        let mut from = leg.from;
        let mut position = *leg.position;
        while !self.fits_at(leg, from, &position) {
            let end = boundary(&position);
            if limit <= end {
                return None;
            }
            position.next_entry(leg.schedule, visits);
            from = end;
        }
        Some(from)
    }

    /// The first such moment from where a list stands, where the search ends at most one cycle after the list's cycle.
    fn in_two(&self, leg: &ListedLeg<'_>, visits: &mut Visits) -> Option<u128>
        requires search { IsSearch self.now leg.now }
        requires unheld { ForSome leg.now.held_from (λ h. self.now.stop ≤ h) }
        requires near { self.now.stop
            ≤ leg.now.position.now.timer.next_start + in_ps leg.now.schedule.now.cycle }
        ensures searched { Searched
            (mask_in
            (stretches_ahead (Listed leg.now)
            (lent_rest self.now.rest.now))) self.now.needs.now leg.now.from self.now.stop result }
        ensures counted { visits.old ≤ visits.new }
        ensures visits { visits.new + leg.now.position.now.walk.index + 1
            ≤ visits.old + 2 * length leg.now.schedule.now.entries }
    {
        if let Some(found) = self.in_cycle(leg, visits) {
            return Some(found);
        }
        let cycle_end = leg.position.timer.next_start();
        if self.stop <= cycle_end {
            return None;
        }
        let position = leg.cycle_at(cycle_end, visits);
        let next = leg.at(position.timer.started(), &position);
        self.in_cycle(&next, visits)
    }

    /// The first such moment from where a cycle begins. Where there is none in that cycle, there is none up to a cycle
    /// before the end of the search, since what is shown repeats: what lies between is passed by division.
    fn in_cycles(&self, leg: &ListedLeg<'_>, visits: &mut Visits) -> Option<u128>
        requires search { IsSearch self.now leg.now }
        requires unheld { ForSome leg.now.held_from (λ h. self.now.stop ≤ h) }
        requires begins { leg.now.from ≡ leg.now.position.now.timer.started }
        ensures searched { Searched
            (mask_in
            (stretches_ahead (Listed leg.now)
            (lent_rest self.now.rest.now))) self.now.needs.now leg.now.from self.now.stop result }
        ensures counted { visits.old ≤ visits.new }
        ensures visits { visits.new + leg.now.position.now.walk.index + 1
            ≤ visits.old + 3 * length leg.now.schedule.now.entries }
    {
        if let Some(found) = self.in_cycle(leg, visits) {
            return Some(found);
        }
        let cycle_end = leg.position.timer.next_start();
        if self.stop <= cycle_end {
            return None;
        }
        let cycle = cycle_end - leg.position.timer.started();
        let position = leg.cycle_at(cycle_end.max(self.stop - cycle), visits);
        let near = leg.at(position.timer.started(), &position);
        self.in_two(&near, visits)
    }

    /// The first such moment from where a list stands.
    fn in_list(&self, leg: &ListedLeg<'_>, visits: &mut Visits) -> Option<u128>
        requires search { IsSearch self.now leg.now }
        requires unheld { ForSome leg.now.held_from (λ h. self.now.stop ≤ h) }
        ensures searched { Searched
            (mask_in
            (stretches_ahead (Listed leg.now)
            (lent_rest self.now.rest.now))) self.now.needs.now leg.now.from self.now.stop result }
        ensures counted { visits.old ≤ visits.new }
        ensures visits { visits.new + leg.now.position.now.walk.index + 1
            ≤ visits.old + 4 * length leg.now.schedule.now.entries }
    {
        if let Some(found) = self.in_cycle(leg, visits) {
            return Some(found);
        }
        let cycle_end = leg.position.timer.next_start();
        if self.stop <= cycle_end {
            return None;
        }
        let position = leg.cycle_at(cycle_end, visits);
        let next = leg.at(position.timer.started(), &position);
        self.in_cycles(&next, visits)
    }

    /// The first such moment from where a list stands in its hold.
    fn in_hold(&self, leg: &ListedLeg<'_>) -> Option<u128>
        requires search { IsSearch self.now leg.now }
        requires held { has_come leg.now.held_from leg.now.from ≡ true }
        ensures { Searched
            (mask_in
            (stretches_ahead (Listed leg.now)
            (lent_rest self.now.rest.now))) self.now.needs.now leg.now.from self.now.stop result }
    {
        search_flat(
            &Leg::Listed(leg.at(leg.from, leg.position)),
            self.rest,
            self.needs,
        )
    }

    /// The first such moment from where a list stands, up to its hold and in it.
    fn in_listed(&self, leg: &ListedLeg<'_>, visits: &mut Visits) -> Option<u128>
        requires { IsSearch self.now leg.now }
        ensures searched { Searched
            (mask_in
            (stretches_ahead (Listed leg.now)
            (lent_rest self.now.rest.now))) self.now.needs.now leg.now.from self.now.stop result }
        ensures counted { visits.old ≤ visits.new }
        ensures visits { visits.new ≤ visits.old + (4 * length leg.now.schedule.now.entries + 1) }
    {
        let Some(held_from) = leg.held_from else {
            return self.in_list(leg, visits);
        };
        if held_from <= leg.from {
            return self.in_hold(leg);
        }
        let listed = ListSearch {
            rest: self.rest,
            needs: self.needs,
            stop: self.stop.min(held_from),
        };
        if let Some(found) = listed.in_list(leg, visits) {
            return Some(found);
        }
        if self.stop <= held_from {
            return None;
        }
        let mut held = *leg.position;
        held.jump_to(leg.schedule, leg.start, leg.held_from, held_from, visits);
        self.in_hold(&leg.at(held_from, &held))
    }
}

/// The leg's own moment, if some class with a need stays open through it from then on.
fn search_flat(leg: &Leg<'_>, rest: &Rest<'_>, needs: &Heads) -> Option<u128>
    requires ready { AreReady leg.now (lent_rest rest.now) }
    ensures { (stop : ℕ) → from_of leg.now < stop → ForSome (until_of leg.now) (λ u. stop ≤ u) →
        IsFlat (mask_of (stretch_of leg.now)) (from_of leg.now) None →
        Searched (mask_in (stretches_ahead leg.now (lent_rest rest.now))) needs.now
        (from_of leg.now) stop result }
{
    if fits(leg, rest, needs) {
        Some(leg.from())
    } else {
        None
    }
}

/// The first such moment from a leg on and before `stop`, which is at or before the leg's end.
fn search_leg(
    leg: &Leg<'_>,
    rest: &Rest<'_>,
    needs: &Heads,
    stop: u128,
    visits: &mut Visits,
) -> Option<u128>
    requires ready { AreReady leg.now (lent_rest rest.now) }
    requires some { from_of leg.now < stop }
    requires within { stop ≤ 2 * greatest_moment }
    requires unended { ForSome (until_of leg.now) (λ u. stop ≤ u) }
    ensures searched { Searched (mask_in (stretches_ahead leg.now (lent_rest rest.now))) needs.now
        (from_of leg.now) stop result }
    ensures counted { visits.old ≤ visits.new }
    ensures visits { visits.new ≤ visits.old + most_visits (stretch_of leg.now) }
{
    match leg {
        Leg::Listed(listed) => ListSearch { rest, needs, stop }.in_listed(listed, visits),
        Leg::Open(_) => search_flat(leg, rest, needs),
    }
}

/// The first such moment from a leg on, before its end and before `before`.
fn search_to(
    leg: &Leg<'_>,
    rest: &Rest<'_>,
    needs: &Heads,
    before: u128,
    visits: &mut Visits,
) -> Option<u128>
    requires ready { AreReady leg.now (lent_rest rest.now) }
    requires within { before ≤ 2 * greatest_moment }
    ensures searched { Searched (mask_in (stretches_ahead leg.now (lent_rest rest.now))) needs.now
        (from_of leg.now) (up_to (until_of leg.now) before) result }
    ensures counted { visits.old ≤ visits.new }
    ensures visits { visits.new ≤ visits.old + most_visits (stretch_of leg.now) }
{
    let stop = match leg.until() {
        Some(until) => until.min(before),
        None => before,
    };
    if leg.from() < stop {
        search_leg(leg, rest, needs, stop, visits)
    } else {
        None
    }
}

/// The first such moment from a leg on, through the last one, if there is one, and before `before`.
fn search_into(
    leg: &Leg<'_>,
    last: Option<&Leg<'_>>,
    needs: &Heads,
    before: u128,
    visits: &mut Visits,
) -> Option<u128>
    requires ready { IsReady leg.now }
    requires follows { DoFollow leg.now (lent_leg last) }
    requires ends { ForSome (lent_leg last) (λ g. until_of g ≡ None) }
    requires within { before ≤ 2 * greatest_moment }
    ensures searched { Searched
        (mask_in (stretch_of leg.now ∷ stretch_in (lent_leg last.entry))) needs.now
        (from_of leg.now) before result }
    ensures counted { visits.old ≤ visits.new }
    ensures visits { visits.new
        ≤ visits.old + most_in (stretch_of leg.now ∷ stretch_in (lent_leg last.entry)) }
{
    let rest = Rest {
        next: last,
        last: None,
    };
    if let Some(found) = search_to(leg, &rest, needs, before, visits) {
        return Some(found);
    }
    match last {
        None => None,
        Some(last) => {
            let rest = Rest {
                next: None,
                last: None,
            };
            search_to(last, &rest, needs, before, visits)
        }
    }
}

/// The first moment from a leg on, through what follows and before `before`, in picoseconds, at which some class with a
/// need stays open through it.
pub(crate) fn search(
    leg: &Leg<'_>,
    rest: &Rest<'_>,
    needs: &Heads,
    before: u128,
    visits: &mut Visits,
) -> Option<u128>
    requires ready { AreReady leg.now (lent_rest rest.now) }
    requires within { before ≤ 2 * greatest_moment }
    ensures searched { Searched (mask_in (stretches_ahead leg.now (lent_rest rest.now))) needs.now
        (from_of leg.now) before result }
    ensures counted { visits.old ≤ visits.new }
    ensures visits { visits.new
        ≤ visits.old + most_in (stretches_ahead leg.now (lent_rest rest.now)) }
{
    if let Some(found) = search_to(leg, rest, needs, before, visits) {
        return Some(found);
    }
    match rest.next {
        None => None,
        Some(next) => search_into(next, rest.last, needs, before, visits),
    }
}
