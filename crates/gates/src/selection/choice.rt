//! The greatest class that may start, and the first moment at which some class may.

ghost use Rattle.std.specs.Prelude.{◌≡◌, ℕ, ◌+◌, ◌*◌, ◌<◌, ◌≤◌, IsTrue, IfSome, IfNone, OnSome, Some, None};
ghost use Rattle.wire_time.specs.Moment.{greatest_moment};
ghost use Rattle.gates.specs.Choice.{first_choice, MovesIdle};
ghost use Rattle.gates.specs.Current.{longest};
ghost use Rattle.gates.specs.Watched.{IsIdle};

use crate::gate_list::Visits;
use crate::list_config::Gates;
use crate::queue_heads::{Heads, highest, without};
use wire_time::MAX_MOMENT;

/// The greatest class that stays open for as long as its head needs. Those are asked in which a frame waits, and that
/// are open now.
#[inline]
pub fn choose<G: Gates>(heads: &Heads, gates: &G, visits: &mut Visits) -> Option<u8>
    requires sound { G.is_sound gates.now }
    ensures choice { result ≡ first_choice (G.history gates.now) (G.moment gates.now) heads.now }
    ensures counted { visits.old ≤ visits.new }
    ensures visits { IsTrue G.JUMPS → visits.new ≡ visits.old }
{
    let mut left = heads.waits() & gates.mask();
    while left != 0 {
        let class = highest(left);
        if gates.stays_open(class, heads.need(class) as u128, visits) {
            return Some(class);
        }
        left = without(left, class);
    }
    None
}

/// The moment up to which a search looks for a start, in picoseconds: gates that jump look at no more entries for the
/// greatest one, and others take each boundary, or each picosecond, on the way.
fn search_end<G: Gates>(until: u128) -> u128
    requires within { until ≤ greatest_moment }
    ensures reach { until ≤ result }
    ensures within { result ≤ greatest_moment }
{
    if G::JUMPS { MAX_MOMENT } else { until }
}

/// Moves the gates to the first moment at which some class may start, where it is before `until`, and answers the class
/// that may. Else `idle` becomes a moment, at or after `until`, before which no class may start, and the gates are not
/// moved past `until`.
#[inline(always)]
pub fn find_choice<G: Gates>(
    heads: &Heads,
    gates: &mut G,
    until: u128,
    idle: &mut u128,
    visits: &mut Visits,
) -> Option<u8>
    requires sound { G.is_sound gates.old }
    requires later { G.moment gates.old < until }
    requires within { until ≤ greatest_moment }
    ensures sound { G.is_sound gates.new }
    ensures idle { MovesIdle heads.now (G.history gates.old) (G.moment gates.old)
        (G.history gates.new) (G.moment gates.new) }
    ensures upto { G.moment gates.new ≤ until }
    ensures before { OnSome result (G.moment gates.new < until) }
    ensures choice { IfSome result
        (λ class. first_choice (G.history gates.old) (G.moment gates.new) heads.now ≡ Some class) }
    ensures none { IfNone result
        ((until ≤ idle.new)
        × IsIdle (G.history gates.old) heads.now (G.moment gates.old) idle.new) }
    ensures counted { visits.old ≤ visits.new }
    ensures visits { IsTrue G.JUMPS →
        visits.new ≤ visits.old + 14 * (longest (G.history gates.old) + 1) }
    ensures fewer { IfNone result
        (IsTrue G.JUMPS → visits.new ≤ visits.old + 12 * (longest (G.history gates.old) + 1)) }
{
    if heads.waits() == 0 {
        *idle = MAX_MOMENT;
        return None;
    }
    // Mostly some class may start where the gates stand.
    if let Some(class) = choose(heads, gates, visits) {
        return Some(class);
    }
    let end = search_end::<G>(until);
    let mut now = gates.now();
    while now < until {
        now = gates.quiet(heads, end, visits);
        if until <= now {
            *idle = now;
            return None;
        }
        gates.move_to(now, visits);
        if let Some(class) = choose(heads, gates, visits) {
            return Some(class);
        }
    }
    *idle = until;
    None
}
