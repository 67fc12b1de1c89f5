//! What becomes of a frame or a command, by numbers alone.

ghost use Rattle.std.specs.Prelude.{◌≡◌, ◌<◌, IfSome, IfOk, OnOk};
ghost use Rattle.port.specs.Words.{sdu_of, changes_map, changes_queues, default_class, first_over, judged, count_dropped, busy_of};

use abstract_port::class_map::{ClassMap, Queues};
use abstract_port::{Counts, Dropped, Refused};
use gates::list_config::NotNow;
use wire_time::{CLASSES, Frame, PRIORITIES, sdu};

/// The counts with one more dropped frame.
pub(crate) fn count_dropped(why: Dropped, mut counts: Counts) -> Counts
    ensures { result ≡ count_dropped why counts }
{
    match why {
        Dropped::NoClass => {}
        Dropped::Runt => counts.runt = counts.runt.saturating_add(1),
        Dropped::TooLong => counts.too_long = counts.too_long.saturating_add(1),
        Dropped::OverSdu => counts.over_sdu = counts.over_sdu.saturating_add(1),
        Dropped::Full => counts.full = counts.full.saturating_add(1),
    }
    counts
}

/// The class of a priority before there is a map: its own up to 7, and class 0 up to 15.
pub fn default_class(priority: u8) -> Option<u8>
    ensures class { result ≡ default_class priority }
    ensures within { IfSome result (λ c. c < CLASSES) }
{
    if priority < CLASSES as u8 {
        Some(priority)
    } else if priority < PRIORITIES as u8 {
        Some(0)
    } else {
        None
    }
}

/// The refusal of a command that the gates do not take.
pub(crate) fn busy_of(not_now: NotNow) -> Refused
    ensures { result ≡ busy_of not_now }
{
    let NotNow::Busy(lead) = not_now;
    Refused::Busy(lead)
}

/// What becomes of a frame of a class, by the mtu, the class's limit, the room and how many frames wait.
pub(crate) fn judge(
    mtu: u32,
    limit: u32,
    room: u32,
    waiting: usize,
    class: u8,
    frame: &Frame,
) -> Result<u8, Dropped>
    ensures verdict { result ≡ judged mtu limit room waiting class (sdu_of frame.now) }
    ensures class { IfOk result (λ c. c ≡ class) }
    ensures room { OnOk result (waiting < room) }
{
    let Some(sdu) = sdu(frame) else {
        return Err(Dropped::Runt);
    };
    if sdu > mtu {
        return Err(Dropped::TooLong);
    }
    if limit != 0 && sdu > limit {
        return Err(Dropped::OverSdu);
    }
    if waiting >= room as usize {
        return Err(Dropped::Full);
    }
    Ok(class)
}

/// Whether a map is given that differs from the installed one.
pub fn changes_map(given: Option<ClassMap>, installed: ClassMap) -> bool
    ensures { result ≡ changes_map given installed }
{
    match given {
        None => false,
        Some(given) => given != installed,
    }
}

/// Whether ranges are given that differ from the installed ones.
pub fn changes_queues(given: Option<Queues>, installed: Queues) -> bool
    ensures { result ≡ changes_queues given installed }
{
    match given {
        None => false,
        Some(given) => given != installed,
    }
}

/// The refusal of the least class whose limit is over the mtu, if any.
pub fn first_over(mtu: u32, limits: &[u32; CLASSES]) -> Option<Refused>
    ensures { result ≡ first_over mtu 0 limits.now }
{
    for class in 0..CLASSES as u8 {
        if limits[class as usize] > mtu {
            return Some(Refused::SduTooLarge(class));
        }
    }
    None
}
