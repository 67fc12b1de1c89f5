//! Which class each priority has: those with streams have classes of their own, in their order, and all others class 0.

use crate::reasons::Reason;
use crate::schedule_search::Flow;
use std::alloc::{AllocError, Allocator};
use traffic::Stream;
use wire_time::{CLASSES, PRIORITIES, Rate, occupancy};

/// The classes of the priorities.
#[derive(Clone, Copy, Debug, PartialEq, Eq)]
pub(crate) struct Classes {
    /// How many there are.
    pub count: u8,
    /// The class of each priority.
    pub map: [u8; PRIORITIES],
}

/// Whether a stream has this priority.
fn is_used(streams: &[Stream], priority: usize) -> bool {
    streams
        .iter()
        .any(|stream| usize::from(stream.priority) == priority)
}

/// How many priorities have streams.
fn used(streams: &[Stream]) -> usize {
    (0..PRIORITIES)
        .filter(|priority| is_used(streams, *priority))
        .count()
}

/// The map, where the lowest priority with streams has this class.
fn map_from(streams: &[Stream], lowest: u8) -> Classes {
    let mut map = [0; PRIORITIES];
    let mut count = lowest;
    for priority in 0..PRIORITIES {
        if is_used(streams, priority) {
            map[priority] = count;
            count = count.saturating_add(1);
        }
    }
    Classes { count, map }
}

/// The classes of the priorities of these streams, or why there are none.
pub(crate) fn classes_of(streams: &[Stream]) -> Result<Classes, Reason> {
    if streams.is_empty() {
        return Err(Reason::Streams);
    }
    for stream in streams {
        if usize::from(stream.priority) >= PRIORITIES {
            return Err(Reason::Dropped(stream.first_id));
        }
    }
    let priorities = used(streams);
    if priorities > CLASSES {
        return Err(Reason::Classes);
    }
    let lowest = if priorities == CLASSES { 0 } else { 1 };
    Ok(map_from(streams, lowest))
}

/// The class of a stream.
fn class_of(classes: &Classes, stream: &Stream) -> u8 {
    match classes.map.get(usize::from(stream.priority)) {
        Some(class) => *class,
        None => 0,
    }
}

/// The streams, as a search sees them.
pub(crate) fn flows_of<A: Allocator>(
    alloc: A,
    streams: &[Stream],
    classes: &Classes,
    rate: Rate,
) -> Result<Vec<Flow, A>, AllocError> {
    let mut flows = Vec::new(alloc);
    for stream in streams {
        flows.push(Flow {
            class: class_of(classes, stream),
            need: occupancy(rate, stream.len),
            period: stream.period,
            offset: stream.offset,
            jitter: stream.jitter,
            is_exact: stream.jitter == 0 && stream.shortest == stream.len,
            deadline: stream.deadline,
        })?;
    }
    Ok(flows)
}
