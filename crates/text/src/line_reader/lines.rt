//! The lines of a script.

ghost use Rattle.std.specs.List.{list_all};
ghost use Rattle.std.specs.Prelude.{take, drop, not, ◌≡◌, ◌≤◌, ◌<◌, ◌+◌, ◌-◌, ◌==◌, [], IfSome, IfOk, length, None, Ok, Err, true, false, vec_len, vec_capacity, option_map};
ghost use Rattle.text.specs.Script.{ends_in, script_of};
ghost use Rattle.text.specs.LineEnds.{answer_of, ended_by};
ghost use Rattle.text.specs.declared.line_reader.lines.TheConstants.{MAX_LINE_OCTETS, MAX_LINES};
ghost use Rattle.text.specs.declared.line_reader.lines.LineFault.TheVariants.{Read as ReadVariant};

use crate::line_reader::feeds::joins;
use crate::line_reader::source::{ReadFault, Source};
use memchr::memchr;
use std::alloc::{AllocError, Allocator, Global};
use std::io::Read;

/// The most octets of a line before the LF that ends it. Physical lines that are joined count with their backslashes
/// and LFs.
pub const MAX_LINE_OCTETS: usize = 65_536;

/// The most physical lines of a script.
pub const MAX_LINES: u32 = 4_000_000;

/// A limit that a script passes.
#[derive(Clone, Copy, Debug, PartialEq, Eq)]
pub enum Limit {
    /// A line has more than `MAX_LINE_OCTETS` octets.
    LongLine,
    /// A script has more than `MAX_LINES` physical lines.
    TooManyLines,
}

/// Why there is no next line.
#[derive(Clone, Copy, Debug, PartialEq, Eq)]
pub enum LineFault {
    /// A limit is passed on the line of this number, that of its first physical line, from 1.
    Limit(u32, Limit),
    /// A read failed.
    Read,
}

impl From<ReadFault> for LineFault {
    ghost from_gives = { λ _ e. e ≡ ReadVariant };

    fn from(_fault: ReadFault) -> LineFault {
        LineFault::Read
    }
}

/// The octets before the first line feed, at most `most` of them.
fn unbroken_front(octets: &[u8], most: usize) -> &[u8]
    ensures front { result.now ≡ take (length result.now) octets.now }
    ensures unbroken { list_all (λ octet. not (octet == 10)) result.now ≡ true }
    ensures short { length result.now ≤ most }
    ensures within { length result.now ≤ length octets.now }
{
    let front = if octets.len() < most {
        octets
    } else {
        &octets[..most]
    };
    match memchr(b'\n', front) {
        Some(index) => &front[..index],
        None => front,
    }
}

/// What each further call answers once the lines have ended.
fn answer_of(ended: Result<(), LineFault>) -> Result<bool, LineFault>
    ensures { result ≡ answer_of ended }
{
    match ended {
        Ok(()) => Ok(false),
        Err(fault) => Err(fault),
    }
}

/// How an answer ends the lines, if it does.
fn ended_by(answer: Result<bool, LineFault>) -> Option<Result<(), LineFault>>
    ensures { result ≡ ended_by answer }
{
    match answer {
        Ok(true) => None,
        Ok(false) => Some(Ok(())),
        Err(fault) => Some(Err(fault)),
    }
}

/// A reader's lines, one after another.
///
/// A physical line ends at LF or at the end of the input, where an empty rest is no line. A backslash directly before
/// that LF, or before CR LF, joins the next physical line. Both buffers are made once, whatever the reader gives. Once
/// the input has ended or a fault was found, nothing more is read.
#[derive(Drop)]
pub struct LineReader<R, A: Allocator = Global> {
    source: Source<R, A>,
    line: Vec<u8, A>,
    first: u32,
    breaks: u32,
    ended: Option<Result<(), LineFault>>,
    ghost holds_line: { MAX_LINE_OCTETS ≤ vec_capacity line },
    ghost fits: { vec_len line ≤ MAX_LINE_OCTETS },
    ghost counted: { breaks ≤ MAX_LINES },
}

impl<R: Read + Drop, A: Allocator> LineReader<R, A> {
    ghost use Rattle.text.specs.LineReader.{script_ahead, script_behind, script_within, script_left, Advances, EndsLine, most_lines, current_line, current_number, in_hand, hand, how_ended, IsAtEnd, lines_left, script_past};

    /// Makes both buffers, and reads nothing.
    pub fn new(alloc: A, reader: R) -> Result<LineReader<R, A>, AllocError>
    where
        A: Clone,
        ensures left { IfOk result
            (λ r. script_left R.remaining r ≡ option_map script_of (R.remaining reader)) }
        ensures open { IfOk result (λ r. how_ended r ≡ None) }
    {
        let line = Vec::with_capacity(alloc.clone()?, MAX_LINE_OCTETS)?;
        let source = Source::new(alloc, reader)?;
        Ok(LineReader {
            source,
            line,
            first: 1,
            breaks: 0,
            ended: None,
        })
    }

    /// The line that the reader stands at, without the LF that ended it.
    pub fn line(&self) -> &[u8]
        ensures { result.now ≡ current_line self.now }
    {
        &self.line
    }

    /// The number of that line: that of its first physical line, from 1.
    pub fn line_number(&self) -> u32
        ensures { result ≡ current_number self.now }
    {
        self.first
    }

    /// The octets in hand, in which lines may be passed: what was read and is in no line yet. There are none once the
    /// lines have ended.
    pub fn hand(&self) -> &[u8]
        ensures { result.now ≡ hand self.now }
    {
        match self.ended {
            None => self.source.buffer(),
            Some(_) => &[],
        }
    }

    /// How many octets the next line has, without the LF that ends it, where it stands whole in front of those in hand,
    /// joins no other line, and is within the limits.
    pub fn line_in_hand(&self) -> Option<usize>
        ensures ends { IfSome result (EndsLine (hand self.now)) }
        ensures short { IfSome result (λ n. n ≤ MAX_LINE_OCTETS) }
        ensures left { IfSome result (λ _. 0 < lines_left self.now) }
    {
        if self.breaks == MAX_LINES {
            return None;
        }
        let hand = self.hand();
        let end = memchr(b'\n', hand)?;
        if end > MAX_LINE_OCTETS || joins(&hand[..end]) {
            return None;
        }
        Some(end)
    }

    /// The number of the next line, from 1.
    pub fn next_number(&self) -> u32
        ensures { result + lines_left self.now ≡ MAX_LINES + 1 }
    {
        self.breaks + 1
    }

    /// How many more physical lines there may be.
    pub fn lines_left(&self) -> u32
        ensures { result ≡ lines_left self.now }
    {
        MAX_LINES - self.breaks
    }

    /// Goes past so many octets in hand, which are so many physical lines with the LF of each, without taking them: the
    /// line that the reader stands at stays.
    pub fn go_past(&mut self, octets: usize, lines: u32)
        requires hand { octets ≤ length (hand self.old) }
        requires few { lines ≤ lines_left self.old }
        requires ended { lines ≤ octets }
        ensures script { script_left R.remaining self.new
            ≡ script_past R.remaining self.old (drop octets (hand self.old)) lines }
        ensures hand { hand self.new ≡ drop octets (hand self.old) }
        ensures fewer { most_lines self.new ≤ most_lines self.old }
        ensures passed { most_lines self.new + lines ≤ most_lines self.old }
        ensures left { lines_left self.new ≡ lines_left self.old - lines }
        ensures stays { (current_line self.new ≡ current_line self.old)
            × (current_number self.new ≡ current_number self.old) }
        ensures over { how_ended self.new ≡ how_ended self.old }
    {
        self.breaks += lines;
        self.source.consume(octets);
    }

    /// Whether a line stands whole in hand, with the LF that ends it. Where none does, `advance` may have to read.
    pub fn has_line(&self) -> bool
        ensures { result ≡ ends_in [] (in_hand self.now) }
    {
        if self.source.is_whole() {
            return true;
        }
        let mut rest = self.source.buffer();
        'feeds: while let Some(end) = memchr(b'\n', rest) {
            if !joins(&rest[..end]) {
                return true;
            }
            let (_, behind) = rest.split_at(end + 1);
            rest = behind;
        }
        false
    }

    /// Takes the octets in hand up to a line feed or to the longest line. One by one they would do the same.
    fn take_unbroken(&mut self)
        ensures script { script_within R.remaining self.new ≡ script_within R.remaining self.old }
        ensures first { self.new.first ≡ self.old.first }
        ensures breaks { self.new.breaks ≡ self.old.breaks }
        ensures ended { self.new.source.ended ≡ self.old.source.ended }
        ensures over { self.new.ended ≡ self.old.ended }
        ensures grows { vec_len self.old.line ≤ vec_len self.new.line }
        ensures open { (0 < vec_len self.old.line → self.old.source.ended ≡ false) →
            0 < vec_len self.new.line → self.new.source.ended ≡ false }
    {
        if self.breaks == MAX_LINES {
            return;
        }
        let run = unbroken_front(self.source.buffer(), MAX_LINE_OCTETS - self.line.len());
        self.line.extend_from_slice(run).unwrap();
        let taken = run.len();
        self.source.consume(taken);
    }

    /// The next line, while the lines have not ended.
    fn next_line(&mut self) -> Result<bool, LineFault>
        ensures line { Advances (script_ahead R.remaining self.old) result (current_number self.new)
            (current_line self.new) (script_behind R.remaining result self.new) }
        ensures fewer { result ≡ Ok true → most_lines self.new < most_lines self.old }
        ensures hand { result ≡ Err ReadVariant → in_hand self.new ≡ [] }
        ensures at_end { result ≡ Ok false → IsAtEnd self.new }
        ensures over { self.new.ended ≡ self.old.ended }
    {
        self.line.clear();
        self.first = self.breaks + 1;
        'octets: loop {
            self.take_unbroken();
            let Some(octet) = self.source.next_octet()? else {
                return Ok(!self.line.is_empty());
            };
            let ends = octet == b'\n' && !joins(&self.line);
            if self.line.len() == MAX_LINE_OCTETS && !ends {
                return Err(LineFault::Limit(self.first, Limit::LongLine));
            }
            if self.breaks == MAX_LINES {
                return Err(LineFault::Limit(MAX_LINES + 1, Limit::TooManyLines));
            }
            if octet == b'\n' {
                self.breaks += 1;
            }
            if ends {
                return Ok(true);
            }
            self.line.push(octet).unwrap();
        }
    }

    /// Goes on to the next line, if there is one. After the end, and after a fault, each further call gives the same
    /// answer.
    ///
    /// A line that is too long is found at its octet after the last that it may have, too many physical lines at the
    /// first octet after the last of them. A read that fails isn't tried again: it fails with no octet in hand, and the
    /// line so far is no line.
    pub fn advance(&mut self) -> Result<bool, LineFault>
        ensures line { Advances (script_left R.remaining self.old) result
            (current_number self.new) (current_line self.new) (script_left R.remaining self.new) }
        ensures fewer { result ≡ Ok true → most_lines self.new < most_lines self.old }
        ensures over { IfSome (how_ended self.old)
            (λ ended. (result ≡ answer_of ended) × (self.new ≡ self.old)) }
        ensures ended { how_ended self.old ≡ None → how_ended self.new ≡ ended_by result }
        ensures hand { how_ended self.old ≡ None → result ≡ Err ReadVariant →
            in_hand self.new ≡ [] }
        ensures at_end { how_ended self.old ≡ None → result ≡ Ok false → IsAtEnd self.new }
    {
        if let Some(ended) = self.ended {
            return answer_of(ended);
        }
        // Apart, since mostly there is a line, and nothing to note.
        match self.next_line() {
            Ok(true) => Ok(true),
            answer => {
                self.ended = ended_by(answer);
                answer
            }
        }
    }
}
