//! Laws of captures. There is nothing to run: the contract of each function is its law.

ghost use Rattle.capture.specs.Words.{AnswersRecords, HasOneReading, left, IsSpelling};

use crate::reader::CaptureReader;
use std::alloc::Allocator;
use std::io::Read;

/// The law that octets after a header have one reading as records and an end, and no two.
pub fn one_reading_law()
    ensures { HasOneReading }
{}

/// The law that a header and records that are spelled, in either order and resolution, are read as those records,
/// their moments rounded down to what a time stamp can say. What a `CaptureWriter` writes is such a spelling, in
/// nanoseconds.
pub fn spelling_law()
    ensures { IsSpelling }
{}

/// The law that calls of `next`, however many, answer the records that the octets still to come are, one by one, and
/// from then on their end; or a prefix of those answers and then, from a read that fails on, `Read`.
pub fn answers_law<R: Read, A: Allocator>(reader: &CaptureReader<R, A>)
    ensures { AnswersRecords R.remaining (left reader.now) }
{}
