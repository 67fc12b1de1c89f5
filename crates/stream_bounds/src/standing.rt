//! What a class is for those below it that share its windows.

ghost use Rattle.std.specs.Prelude.{◌≡◌, ◌<◌};
ghost use Rattle.stream_bounds.specs.Standing.{IsCounted, bounded_standing, may_send, standing_of};
ghost use Rattle.wire_time.specs.declared.TheConstants.{CLASSES};

use crate::settings::BoundsSettings;
use crate::verdicts::Verdict;
use abstract_port::Change;
use burst_bounds::Bounds;
use schedule_check::{is_led, map_after};
use traffic::Stream;
use wire_time::CLASSES;

/// What a class is for those below it.
#[derive(Clone, Copy, Debug, PartialEq, Eq)]
pub enum Standing {
    /// It sends nothing.
    Silent,
    /// Nothing is known of it but that it may send.
    Open,
    /// It has streams, and no bounds.
    Unbounded,
    /// Its frames keep to these bounds.
    Bounded(Bounds),
}

/// A wait that is longer is none to count with, in picoseconds: some forty million years.
const LONGEST: u128 = 1 << 100;

/// Whether a class without streams may send: it isn't silent, and a priority leads to it, or did so before.
pub fn may_send(settings: &BoundsSettings, change: &Change, class: u8) -> bool
    requires { class < CLASSES }
    ensures { result ≡ may_send settings.now change.now class }
{
    if settings.silent[class as usize] {
        return false;
    }
    settings.leftovers || is_led(map_after(settings.map, change.map), class)
}

/// What a class with streams is for those below it.
fn bounded_standing(verdict: Verdict) -> Standing
    ensures standing { result ≡ bounded_standing verdict }
    ensures counted { IsCounted result }
{
    match verdict {
        Verdict::Sharing(bounds) if bounds.wait < LONGEST => Standing::Bounded(bounds),
        _ => Standing::Unbounded,
    }
}

/// What a class with these streams is for those below it. Where frames may be left from before the schedule came into
/// force, nothing is known of any.
pub fn standing_of(
    settings: &BoundsSettings,
    change: &Change,
    class: u8,
    streams: &[Stream],
    verdict: Verdict,
) -> Standing
    requires { class < CLASSES }
    ensures standing { result ≡ standing_of settings.now change.now class streams.now verdict }
    ensures counted { IsCounted result }
{
    match streams {
        [] if may_send(settings, change, class) => Standing::Open,
        [] => Standing::Silent,
        [_, ..] if settings.leftovers => Standing::Open,
        [_, ..] => bounded_standing(verdict),
    }
}
