//! The streams of a table, and which of them a frame is of.

ghost use Rattle.std.specs.Prelude.{◌≡◌, ◌++◌, ◌∷◌, [], OnOk};
ghost use Rattle.frame_table.specs.Deadline.{has_deadlines};
ghost use Rattle.traffic.specs.Alerts.{stream_alert};
ghost use Rattle.frame_table.specs.StreamOf.{has_frame, stream_by, stream_in, with_ids};

use script::{ScriptFault, Watch};
use std::alloc::Allocator;
use std::marker::Model;
use traffic::{Stream, StreamTaker, Untaken, has_ids, tell_stream};

/// The streams of a table, in its order.
#[derive(Drop)]
pub struct Streams<A: Allocator> {
    list: Vec<Stream, A>,
    /// Whether one of them has a deadline.
    timed: bool,
}

/// A contract sees a list.
impl<A: Allocator> Model for Streams<A> {
    ghost use Rattle.std.specs.Prelude.{List};
    ghost use Rattle.traffic.specs.declared.table.Stream.{Stream};

    ghost Value = { List Stream };

    ghost view = { λ s. s.list.items };

    ghost use Rattle.std.specs.Prelude.{◌≡◌};
    ghost use Rattle.frame_table.specs.Deadline.{has_deadlines};

    ghost invariant = { λ s. s.timed ≡ has_deadlines s.list.items };
}

/// Whether a stream has a frame of this ID.
fn has_frame(id: u64, stream: &Stream) -> bool
    ensures { result ≡ has_frame id stream.now }
{
    stream.first_id <= id && id - stream.first_id < u64::from(stream.count)
}

/// The first of streams that has a frame of this ID.
fn stream_in(id: u64, streams: &[Stream]) -> Option<Stream>
    ensures { result ≡ stream_in id streams.now }
{
    for stream in streams {
        if has_frame(id, stream) {
            return Some(*stream);
        }
    }
    None
}

impl<A: Allocator> Streams<A> {
    /// No streams.
    pub fn new(alloc: A) -> Streams<A>
        ensures { result ≡ [] }
    {
        Streams {
            list: Vec::new(alloc),
            timed: false,
        }
    }

    /// Keeps a stream after the others.
    fn keep(&mut self, stream: Stream) -> Result<(), Untaken>
        ensures { OnOk result (self.new ≡ self.old ++ stream ∷ []) }
    {
        match self.list.push(stream) {
            Ok(()) => {
                self.timed |= stream.deadline.is_some();
                Ok(())
            }
            Err(_) => Err(Untaken::Memory),
        }
    }

    /// The stream that a frame of this ID is of.
    pub fn stream_of(&self, id: u64) -> Option<Stream>
        ensures { result ≡ stream_in id self.now }
    {
        stream_in(id, self.list.as_slice())
    }

    /// Whether one of them has a deadline.
    pub fn has_deadlines(&self) -> bool
        ensures { result ≡ has_deadlines self.now }
    {
        self.timed
    }
}

/// The stream that a frame of this ID is of, where there is a table of streams.
pub(crate) fn stream_by<A: Allocator>(streams: &Option<Streams<A>>, id: u64) -> Option<Stream>
    ensures { result ≡ stream_by streams.now id }
{
    match streams {
        None => None,
        Some(streams) => streams.stream_of(id),
    }
}

/// A stream whose frames have IDs. When they come is no matter.
fn with_ids(stream: Stream) -> Result<Stream, ScriptFault>
    ensures { result ≡ with_ids stream }
{
    if !has_ids(&stream) {
        return Err(ScriptFault::BadNumber);
    }
    Ok(stream)
}

impl<A: Allocator> StreamTaker for Streams<A> {
    ghost judge = { λ streams. with_ids };

    ghost taken = { λ streams. streams };

    ghost tells = { stream_alert };

    fn take<H: Watch>(
        &mut self,
        number: u32,
        stream: Stream,
        watch: &mut H,
    ) -> Result<Stream, Untaken> {
        let stream = match with_ids(stream) {
            Ok(stream) => stream,
            Err(fault) => return Err(Untaken::Fault(fault)),
        };
        tell_stream(number, &stream, watch);
        match self.keep(stream) {
            Ok(()) => Ok(stream),
            Err(_) => Err(Untaken::Memory),
        }
    }
}
