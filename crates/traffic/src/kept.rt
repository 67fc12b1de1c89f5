//! The streams of a table whose frames become a script.

ghost use Rattle.std.specs.Prelude.{◌≡◌, ◌≤◌, ◌++◌, ◌∷◌, [], All, IfErr, IfOk, OnOk};
ghost use Rattle.traffic.specs.Words.{IsKept, courses_from, frames_of, greatest_moment, judged, left_of, stream_alert};
ghost use Rattle.std.specs.List.{flat_map};

use crate::plan::{Plan, course_of, judged};
use crate::table::{Stream, tell_stream};
use crate::table_reader::{StreamTaker, Untaken};
use crate::turn::Turn;
use script::Watch;
use std::alloc::{AllocError, Allocator};
use std::marker::Model;

/// The streams of a table, in its order, and what a run makes of them.
#[derive(Drop)]
pub(crate) struct KeptStreams<A: Allocator> {
    list: Vec<Stream, A>,
    plan: Plan,
}

/// A contract sees the streams and the plan.
impl<A: Allocator> Model for KeptStreams<A> {
    ghost use Rattle.std.specs.Prelude.{◌≤◌, All};
    ghost use Rattle.traffic.specs.Kept.{Keeping};
    ghost use Rattle.traffic.specs.Plan.{IsKept, judged};
    ghost use Rattle.wire_time.specs.Moment.{greatest_moment};

    ghost Value = { Keeping };

    ghost view = { λ k. record { streams = k.list.items; plan = k.plan } };

    ghost invariant = { λ k. All (IsKept (judged k.plan)) k.list.items
        × (k.plan.from ≤ greatest_moment) };
}

impl<A: Allocator> KeptStreams<A> {
    ghost use Rattle.traffic.specs.Kept.{nothing_kept};

    /// No streams.
    pub fn new(alloc: A, plan: Plan) -> KeptStreams<A>
        requires { plan.from ≤ greatest_moment }
        ensures { result ≡ nothing_kept plan }
    {
        KeptStreams {
            list: Vec::new(alloc),
            plan,
        }
    }

    /// The streams.
    pub fn streams(&self) -> &[Stream]
        ensures streams { result.now ≡ self.now.streams }
        ensures kept { All (IsKept (judged self.now.plan)) result.now }
    {
        self.list.as_slice()
    }
}

impl<A: Allocator> StreamTaker for KeptStreams<A> {
    ghost judge = { λ k. judged k.plan };

    ghost taken = { λ k. k.streams };

    ghost tells = { stream_alert };

    fn take<H: Watch>(
        &mut self,
        number: u32,
        stream: Stream,
        watch: &mut H,
    ) -> Result<Stream, Untaken> {
        let stream = match judged(&self.plan, stream) {
            Ok(stream) => stream,
            Err(fault) => return Err(Untaken::Fault(fault)),
        };
        tell_stream(number, &stream, watch);
        match self.list.push(stream) {
            Ok(()) => Ok(stream),
            Err(_) => Err(Untaken::Memory),
        }
    }
}

/// The streams of a table of which no frame has come.
pub fn turns_of<A: Allocator>(
    alloc: A,
    plan: &Plan,
    streams: &[Stream],
) -> Result<Vec<Turn, A>, AllocError>
    requires from { plan.now.from ≤ greatest_moment }
    requires kept { All (IsKept (judged plan.now)) streams.now }
    ensures { IfOk result
        (λ turns. flat_map left_of turns.items
        ≡ flat_map frames_of (courses_from plan.now 0 streams.now)) }
{
    let mut turns = Vec::with_capacity(alloc, streams.len())?;
    let mut place = 0u64;
    'streams: for stream in streams {
        turns.push(Turn::first(course_of(plan, place, stream)))?;
        place += 1;
    }
    Ok(turns)
}
