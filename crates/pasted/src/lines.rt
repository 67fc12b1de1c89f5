//! Octets that are turned into others a line at a time.

ghost use Rattle.std.specs.Prelude.{◌≡◌, ◌==◌, ◌≤◌, ◌<◌, ◌+◌, ◌-◌, ◌^◌, ◌++◌, ℕ, List, [], count_by, length, min, take, drop, IfOk, OnErr, Some, None, true};
ghost use Rattle.translated.specs.Outlook.{IsTurned, IsDone};

use crate::line_rule::{Line, LineRule};
use crate::place::{Place, place_behind};
use crate::runs::{joins, line_end, long_run, long_tail};
use crate::tail::Tail;
use std::alloc::{AllocError, Allocator};
use text::line_reader::MAX_LINE_OCTETS;
use translated::Translation;

/// Turns octets into others a line at a time, by a rule.
///
/// It waits until a line stands whole in hand. One of more than `MAX_LINE_OCTETS` octets comes out as it is.
#[derive(Drop)]
pub struct Lines<L> {
    turner: L,
    place: Place,
    number: u64,
    long: Option<Tail>,
}

impl<L: LineRule> Lines<L> {
    ghost use Rattle.pasted.specs.State.{meaning_by, IsTaken};
    ghost use Rattle.pasted.specs.Lines.{each_line};
    ghost use Rattle.pasted.specs.Reading.{EndsAt, IsOpen};
    ghost use Rattle.pasted.specs.declared.place.Place.TheVariants.{First};

    /// From the beginning of an input on.
    pub fn new(turner: L) -> Lines<L>
        ensures meaning { meaning_by L.rule result ≡ each_line (L.rule turner) First [] }
        ensures number { result.number ≡ 1 }
    {
        Lines {
            turner,
            place: Place::First,
            number: 1,
            long: None,
        }
    }

    /// Takes the first line, which ends before a line feed in hand.
    fn take_line<A: Allocator>(
        &mut self,
        octets: &[u8],
        end: usize,
        out: &mut Vec<u8, A>,
    ) -> Result<usize, AllocError>
        requires out { out.old.items ≡ [] }
        requires between { self.old.long ≡ None }
        requires within { end < length octets.now }
        requires ends { EndsAt (L.rule self.old.turner).is_whole octets.now end }
        ensures taken { IfOk result (λ count. (0 < count) × (count ≤ length octets.now)) }
        ensures turned { IfOk result (λ count.
            IsTaken L.rule self.old self.new octets.now count out.new.items) }
        ensures number { self.new.number ≡ self.old.number }
        ensures failed { OnErr result (self.new ≡ self.old) }
    {
        let text = &octets[..end];
        if end > MAX_LINE_OCTETS {
            out.extend_from_slice(text)?;
            out.extend_from_slice(b"\n")?;
            self.place = place_behind(self.place, joins(text));
            return Ok(end + 1);
        }
        let line = Line {
            place: self.place,
            number: self.number,
            text,
            end: b"\n",
        };
        self.place = self.turner.put(&line, out)?;
        Ok(end + 1)
    }

    /// Takes octets among which no line ends, where they are the last ones or those of a long line.
    fn take_open<A: Allocator>(
        &mut self,
        octets: &[u8],
        is_last: bool,
        out: &mut Vec<u8, A>,
    ) -> Result<usize, AllocError>
        requires out { out.old.items ≡ [] }
        requires between { self.old.long ≡ None }
        requires open { IsOpen (L.rule self.old.turner).is_whole octets.now }
        ensures taken { IfOk result (λ count. count ≤ length octets.now) }
        ensures some { is_last ≡ true → 0 < length octets.now → IfOk result (λ count. 0 < count) }
        ensures turned { IfOk result (λ count.
            IsTurned (meaning_by L.rule) self.old self.new octets.now is_last count out.new.items) }
        ensures number { self.new.number ≡ self.old.number }
        ensures failed { OnErr result (self.new ≡ self.old) }
    {
        if let Some(tail) = long_tail(octets) {
            out.extend_from_slice(octets)?;
            self.long = Some(tail);
            return Ok(octets.len());
        }
        if octets.is_empty() || !is_last {
            return Ok(0);
        }
        let line = Line {
            place: self.place,
            number: self.number,
            text: octets,
            end: b"",
        };
        self.place = self.turner.put(&line, out)?;
        Ok(octets.len())
    }

    /// Goes on within a long line.
    fn take_long<A: Allocator>(
        &mut self,
        tail: Tail,
        octets: &[u8],
        out: &mut Vec<u8, A>,
    ) -> Result<usize, AllocError>
        requires out { out.old.items ≡ [] }
        requires within { self.old.long ≡ Some tail }
        ensures taken { IfOk result (λ count. count ≤ length octets.now) }
        ensures some { 0 < length octets.now → IfOk result (λ count. 0 < count) }
        ensures turned { IfOk result (λ count.
            IsTaken L.rule self.old self.new octets.now count out.new.items) }
        ensures number { self.new.number ≡ self.old.number }
        ensures failed { OnErr result (self.new ≡ self.old) }
    {
        let run = long_run(self.turner.is_whole(), tail, octets);
        out.extend_from_slice(&octets[..run.count])?;
        if run.has_ended {
            self.place = place_behind(self.place, joins(&[run.tail.before, run.tail.last]));
            self.long = None;
        } else {
            self.long = Some(run.tail);
        }
        Ok(run.count)
    }

    /// Takes octets from the front of those in hand.
    fn take<A: Allocator>(
        &mut self,
        octets: &[u8],
        is_last: bool,
        out: &mut Vec<u8, A>,
    ) -> Result<usize, AllocError>
        requires out { out.old.items ≡ [] }
        ensures taken { IfOk result (λ count. count ≤ length octets.now) }
        ensures some { is_last ≡ true → 0 < length octets.now → IfOk result (λ count. 0 < count) }
        ensures turned { IfOk result (λ count.
            IsTurned (meaning_by L.rule) self.old self.new octets.now is_last count out.new.items) }
        ensures number { self.new.number ≡ self.old.number }
        ensures failed { OnErr result (self.new ≡ self.old) }
    {
        if let Some(tail) = self.long {
            return self.take_long(tail, octets, out);
        }
        match line_end(self.turner.is_whole(), octets) {
            Some(end) => self.take_line(octets, end, out),
            None => self.take_open(octets, is_last, out),
        }
    }
}

/// How many line feeds there are among octets.
fn count_feeds(octets: &[u8]) -> usize
    ensures { result ≡ count_by (λ b. b == 10) octets.now }
{
    octets.iter().filter(|octet| **octet == b'\n').count()
}

impl<L: LineRule> Translation for Lines<L> {
    ghost use Rattle.pasted.specs.State.{meaning_by};

    ghost meaning = { meaning_by L.rule };

    fn turn<A: Allocator>(
        &mut self,
        octets: &[u8],
        is_last: bool,
        out: &mut Vec<u8, A>,
    ) -> Result<usize, AllocError>
        requires { out.old.items ≡ [] }
        ensures taken { IfOk result (λ count. count ≤ length octets.now) }
        ensures turned { IfOk result (λ count.
            IsTurned (meaning_by L.rule) self.old self.new octets.now is_last count out.new.items) }
        ensures done { IfOk result (λ count.
            IsDone (meaning_by L.rule) self.new octets.now is_last count out.new.items) }
        ensures number { IfOk result (λ count. self.new.number ≡ min (2 ^ 64 - 1)
            (self.old.number + count_by (λ b. b == 10) (take count octets.now))) }
        ensures failed { OnErr result (self.new ≡ self.old) }
    {
        let number = self.number;
        if octets.is_empty() {
            return Ok(0);
        }
        let count = self.take(octets, is_last, out)?;
        let feeds = count_feeds(&octets[..count]);
        self.number = number.saturating_add(feeds as u64);
        Ok(count)
    }
}
