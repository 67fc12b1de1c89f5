//! The ids of the streams of a table.

use hints::Ids;
use std::alloc::Global;

/// How many streams are looked at, since each is compared with all before it.
const MOST: usize = 10_000;

/// The ids of the streams so far, up to the first that shares one with a stream before it. Behind `MOST` streams, and
/// where memory ends, nothing more is found.
#[derive(Drop)]
pub(crate) struct StreamIds {
    ids: Vec<Ids>,
    done: bool,
}

impl StreamIds {
    /// Those of no stream.
    pub fn new(alloc: Global) -> StreamIds {
        StreamIds {
            ids: Vec::new(alloc),
            done: false,
        }
    }

    /// Takes the ids of a stream. The first stream before it that shares one with it, where no such two were found yet.
    pub fn take(&mut self, ids: Ids) -> Option<Ids> {
        if self.done {
            return None;
        }
        let found = self.ids.iter().find(|other| other.meet(&ids)).copied();
        if found.is_some() || self.ids.len() == MOST || self.ids.push(ids).is_err() {
            self.done = true;
        }
        found
    }
}

/// The ids of a stream of so many frames, where there are any.
pub(crate) fn ids_of(line: u32, first: u64, count: u32) -> Option<Ids> {
    let others = u64::from(count).checked_sub(1)?;
    let last = first.checked_add(others)?;
    Some(Ids { line, first, last })
}
