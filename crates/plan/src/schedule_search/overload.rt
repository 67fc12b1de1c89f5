//! Whether there is more to be sent than time.

use crate::schedule_search::Flow;
use crate::schedule_search::cycles::CLASSES;
use crate::schedule_search::sums::{multiple, over_ps};

/// The least time that all periods go into, in picoseconds, if it has 128 bits.
fn whole_time(flows: &[Flow]) -> Option<u128> {
    let mut all = 1;
    for flow in flows {
        match multiple(all, flow.period) {
            Some(more) => all = more,
            None => return None,
        }
    }
    Some(all)
}

/// How much time the frames of a class and of those above it take of this one, if that has 128 bits.
fn need_within(flows: &[Flow], class: u8, time: u128) -> Option<u128> {
    let mut sum = 0u128;
    for flow in flows {
        if flow.class >= class {
            let own = over_ps(time, flow.period).checked_mul(flow.need)?;
            sum = sum.checked_add(own)?;
        }
    }
    Some(sum)
}

/// The highest class that has, with those above it, more to send than there is time, if one is known to have.
pub fn overloaded_class(flows: &[Flow]) -> Option<u8> {
    let time = whole_time(flows)?;
    for number in 0..CLASSES {
        let class = (CLASSES - 1).saturating_sub(number);
        if let Some(need) = need_within(flows, class, time) {
            if need > time {
                return Some(class);
            }
        }
    }
    None
}
