//! Lines that say how far a long replay has come.

ghost use Rattle.std.specs.Prelude.{◌≡◌, ◌*◌, ◌/◌, None, max};
ghost use Rattle.std.specs.List.{flat_map};
ghost use Rattle.port_text.specs.Part.{text_of};
ghost use Rattle.std.specs.Duration.{as_nanos};
ghost use Rattle.program.specs.Jobs.{Tells};
ghost use Rattle.program.specs.Progress.{IsNoted, progress_line};

use port_text::answer_text::{Part, put_parts};
use std::io::Write;
use std::time::{Clock, Duration, Instant};

/// The least time between two lines, in milliseconds.
const PAUSE: u128 = 500;

/// Writes, at most twice a second, how many records a replay has taken, the moment that it has reached, and how many
/// records it takes a second. After a failed write, or where the clock fails, it writes no more. When it writes is not
/// known: it asks the clock.
#[derive(Drop)]
pub struct Progress<'a, C: Clock, E: Write + Drop> {
    clock: &'a C,
    writer: E,
    begun: Option<Instant>,
    told: Duration,
}

/// How many records are taken a second, where so many are taken in so long.
fn rate_of(records: u32, after: Duration) -> u128
    ensures { result ≡ records * 1000 / max (as_nanos after / 1000000) 1 }
{
    u128::from(records) * 1000 / after.as_millis().max(1)
}

/// Writes parts, and lets them out. Whether both are done.
fn put_out<E: Write>(writer: &mut E, parts: &[Part<'_>]) -> bool
    ensures { Tells result (E.contents writer.old) (E.contents writer.new)
        (flat_map text_of parts.now) }
{
    if put_parts(writer, parts).is_err() {
        return false;
    }
    writer.flush().is_ok()
}

/// Writes the line of so many records, the last of which came at this moment, in picoseconds, and so long after the
/// start, and lets it out. Whether both are done.
fn put_line<E: Write>(writer: &mut E, records: u32, moment: u128, after: Duration) -> bool
    ensures { Tells result (E.contents writer.old) (E.contents writer.new)
        (progress_line records moment (as_nanos after)) }
{
    put_out(
        writer,
        &[
            Part::Text(b"taprio_port: "),
            Part::Number(u128::from(records)),
            Part::Text(b" records, at "),
            Part::Number(moment),
            Part::Text(b" ps, "),
            Part::Number(rate_of(records, after)),
            Part::Text(b" records a second\n"),
        ],
    )
}

impl<'a, C: Clock, E: Write + Drop> Progress<'a, C, E> {
    /// Nothing is written until it is started.
    pub fn new(clock: &'a C, writer: E) -> Progress<'a, C, E>
        ensures { result.begun ≡ None }
    {
        Progress {
            clock,
            writer,
            begun: None,
            told: Duration::ZERO,
        }
    }

    /// Writes lines from now on.
    pub fn start(&mut self) {
        self.begun = Instant::now(self.clock).ok();
        self.told = Duration::ZERO;
    }

    /// The writer, with what was written.
    pub fn into_writer(self) -> E {
        self.writer
    }

    /// Writes a line, where it is time for one. Apart, since mostly none is wanted.
    #[inline(never)]
    fn put_in_time(&mut self, begun: Instant, records: u32, moment: u128)
        ensures { IsNoted records moment self.old.told self.new.told self.new.begun
            (E.contents self.old.writer) (E.contents self.new.writer) }
    {
        let Ok(now) = Instant::now(self.clock) else {
            self.begun = None;
            return;
        };
        let after = now.saturating_duration_since(begun);
        if after.saturating_sub(self.told).as_millis() < PAUSE {
            return;
        }
        self.told = after;
        if !put_line(&mut self.writer, records, moment, after) {
            self.begun = None;
        }
    }
}

impl<C: Clock, E: Write + Drop> Progress<'_, C, E> {
    /// So many records are taken, the last at this moment, in picoseconds.
    #[inline(always)]
    pub fn records_taken(&mut self, records: u32, moment: u128)
        ensures silent { self.old.begun ≡ None → self.new ≡ self.old }
        ensures noted { IsNoted records moment self.old.told self.new.told self.new.begun
            (E.contents self.old.writer) (E.contents self.new.writer) }
    {
        if let Some(begun) = self.begun {
            self.put_in_time(begun, records, moment);
        }
    }
}
