//! The table of streams.

ghost use Rattle.std.specs.Prelude.{◌≡◌, [], All};
ghost use Rattle.stream_bounds.specs.Classes.{IsPeriodic};
ghost use Rattle.stream_bounds.specs.Outcome.{periodic};

use script::{ScriptFault, Watch};
use std::alloc::Allocator;
use std::marker::Model;
use traffic::{Stream, StreamTaker, Untaken};

/// The streams of a table, in its order. Each has a period.
#[derive(Drop)]
pub struct PeriodicStreams<A: Allocator> {
    list: Vec<Stream, A>,
}

/// A contract sees a list.
impl<A: Allocator> Model for PeriodicStreams<A> {
    ghost use Rattle.std.specs.Prelude.{All, List};
    ghost use Rattle.stream_bounds.specs.Classes.{IsPeriodic};
    ghost use Rattle.traffic.specs.declared.table.Stream.{Stream};

    ghost Value = { List Stream };

    ghost view = { λ s. s.list.items };

    ghost invariant = { λ s. All IsPeriodic s.list.items };
}

impl<A: Allocator> PeriodicStreams<A> {
    /// No streams.
    pub fn new(alloc: A) -> PeriodicStreams<A>
        ensures { result ≡ [] }
    {
        PeriodicStreams {
            list: Vec::new(alloc),
        }
    }

    /// The streams.
    pub fn as_slice(&self) -> &[Stream]
        ensures streams { result.now ≡ self.now }
        ensures all { All IsPeriodic result.now }
    {
        self.list.as_slice()
    }
}

impl<A: Allocator> StreamTaker for PeriodicStreams<A> {
    ghost judge = { λ streams. periodic };

    ghost taken = { λ streams. streams };

    ghost tells = { λ number stream. [] };

    fn take<H: Watch>(
        &mut self,
        _number: u32,
        stream: Stream,
        _watch: &mut H,
    ) -> Result<Stream, Untaken> {
        if stream.period == 0 {
            return Err(Untaken::Fault(ScriptFault::BadNumber));
        }
        match self.list.push(stream) {
            Ok(()) => Ok(stream),
            Err(_) => Err(Untaken::Memory),
        }
    }
}
