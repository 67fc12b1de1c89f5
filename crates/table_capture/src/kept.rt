//! The streams of a table whose frames become a capture.

ghost use Rattle.std.specs.Prelude.{◌≡◌, ◌≤◌, All};
ghost use Rattle.table_capture.specs.Words.{IsKept, carried, greatest_moment, stream_alert};

use crate::carried::carried;
use script::Watch;
use std::alloc::Allocator;
use std::marker::Model;
use traffic::{Plan, Stream, StreamTaker, Untaken, tell_stream};

/// The streams of a table, in its order, and what a run makes of them.
#[derive(Drop)]
pub(crate) struct CarriedStreams<A: Allocator> {
    list: Vec<Stream, A>,
    plan: Plan,
}

/// A contract sees the streams and the plan.
impl<A: Allocator> Model for CarriedStreams<A> {
    ghost use Rattle.std.specs.Prelude.{◌≤◌, All};
    ghost use Rattle.traffic.specs.Kept.{Keeping};
    ghost use Rattle.traffic.specs.Plan.{IsKept};
    ghost use Rattle.table_capture.specs.Carried.{carried};
    ghost use Rattle.wire_time.specs.Moment.{greatest_moment};

    ghost Value = { Keeping };

    ghost view = { λ k. record { streams = k.list.items; plan = k.plan } };

    ghost invariant = { λ k. All (IsKept (carried k.plan)) k.list.items
        × (k.plan.from ≤ greatest_moment) };
}

impl<A: Allocator> CarriedStreams<A> {
    ghost use Rattle.traffic.specs.Kept.{nothing_kept};

    /// No streams.
    pub fn new(alloc: A, plan: Plan) -> CarriedStreams<A>
        requires { plan.from ≤ greatest_moment }
        ensures { result ≡ nothing_kept plan }
    {
        CarriedStreams {
            list: Vec::new(alloc),
            plan,
        }
    }

    /// The streams.
    pub fn streams(&self) -> &[Stream]
        ensures streams { result.now ≡ self.now.streams }
        ensures kept { All (IsKept (carried self.now.plan)) result.now }
    {
        self.list.as_slice()
    }
}

impl<A: Allocator> StreamTaker for CarriedStreams<A> {
    ghost judge = { λ k. carried k.plan };

    ghost taken = { λ k. k.streams };

    ghost tells = { stream_alert };

    fn take<H: Watch>(
        &mut self,
        number: u32,
        stream: Stream,
        watch: &mut H,
    ) -> Result<Stream, Untaken> {
        let stream = match carried(&self.plan, stream) {
            Ok(stream) => stream,
            Err(fault) => return Err(Untaken::Fault(fault)),
        };
        tell_stream(number, &stream, watch);
        match self.list.push(stream) {
            Ok(()) => Ok(stream),
            Err(_) => Err(Untaken::Memory),
        }
    }
}
