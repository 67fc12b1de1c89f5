//! Reading a capture record by record, out of one buffer.

ghost use Rattle.std.specs.Prelude.{◌≡◌, ◌≢◌, ◌≤◌, ◌<◌, ◌+◌, length, Ok, Err, Some, true, false, ℕ, List, Option, IsTrue, IfOk, IfErr, IsSome, IfSome, IfNone};
ghost use Rattle.std.specs.Io.KnownBytes.{Keeps, IsAtEnd, prepend_known};
ghost use Rattle.std.specs.Io.BufRead.{Rests};
ghost use Rattle.std.specs.Borrow.{sem};
ghost use Rattle.capture.specs.Words.{MAX_RECORDS, MAX_RECORD_OCTETS, ROOM, entry, held, Step, is_record_fault, fault_at, fractions_of, holds_record};

use crate::fault::CapFault;
use crate::format::{Endian, Format, RecordHeader, check_header, moment, read_header};
use crate::header::read_file_header;
use crate::read_ahead::{RECORD_HEADER, ReadAhead};
use crate::record::Record;
use std::alloc::{Allocator, Global};
use std::io::Read;

/// How a capture ended.
#[derive(Clone, Copy, Debug, PartialEq, Eq)]
pub enum End {
    /// After its last record.
    Whole,
    /// With a fault.
    Broken(CapFault),
}

/// A capture's records, one after another.
///
/// What follows the header is read into one buffer, made once, with room for one record. A read is made only where the
/// octets in hand don't hold the next record whole; it asks for as much as the buffer then has room for.
#[derive(Drop)]
pub struct CaptureReader<R, A: Allocator = Global> {
    source: R,
    ahead: ReadAhead<A>,
    format: Format,
    number: u32,
    ended: Option<End>,
}

/// Reads until so many octets are held, and no further. False: the input ends before.
fn fetch<R: Read, A: Allocator>(
    ahead: &mut ReadAhead<A>,
    source: &mut R,
    need: usize,
) -> Result<bool, CapFault>
    requires { need ≤ ROOM }
    ensures octets { Keeps (prepend_known (held ahead.old) (R.remaining source.old))
        (prepend_known (held ahead.new) (R.remaining source.new)) }
    ensures enough { result ≡ Ok true → need ≤ length (held ahead.new) }
    ensures ended { result ≡ Ok false →
        (length (held ahead.new) < need) × IsAtEnd (R.remaining source.new) }
    ensures fault { IfErr result (λ f. f ≡ CapFault.Read) }
    ensures in_hand { need ≤ length (held ahead.old) →
        (result ≡ Ok true) × (source.new ≡ source.old) × (held ahead.new ≡ held ahead.old) }
{
    while ahead.len() < need {
        ahead.pull();
        match ahead.fill(source) {
            Ok(0) => return Ok(false),
            Ok(_) => {}
            Err(_) => return Err(CapFault::Read),
        }
    }
    Ok(true)
}

/// The next record, which has then been given, or None at the end of the input.
fn read_record<R: Read, A: Allocator>(
    ahead: &mut ReadAhead<A>,
    source: &mut R,
    format: Format,
    number: u32,
) -> Result<Option<RecordHeader>, CapFault>
    ensures step { IfSome (prepend_known (held ahead.old) (R.remaining source.old))
        (λ octets. Step format number octets result ahead.new
        (prepend_known (held ahead.new) (R.remaining source.new))) }
    ensures start { IfOk result (λ o. IfSome o (λ header. header.captured ≤ ahead.new.start)) }
    ensures short { IfOk result (λ o. IfSome o (λ header. header.captured ≤ MAX_RECORD_OCTETS)) }
    ensures fraction { IfOk result
        (λ o. IfSome o (λ header. header.fraction < fractions_of format.resolution)) }
    ensures few { IfOk result (λ o. IsSome o → number < MAX_RECORDS) }
    ensures fault { IfErr result (λ f. IsTrue (is_record_fault f)) }
    ensures read { result ≡ Err CapFault.Read →
        fault_at format number (held ahead.old) ≡ Some CapFault.ShortRecord }
    ensures unread { fault_at format number (held ahead.old) ≢ Some CapFault.ShortRecord →
        source.new ≡ source.old }
{
    if !fetch(ahead, source, RECORD_HEADER)? {
        return if ahead.len() == 0 {
            Ok(None)
        } else {
            Err(CapFault::ShortRecord)
        };
    }
    let header = read_header(format, ahead.octets());
    check_header(format, number, header)?;
    let captured = header.captured as usize;
    if !fetch(ahead, source, RECORD_HEADER + captured)? {
        return Err(CapFault::ShortRecord);
    }
    ahead.give(RECORD_HEADER);
    ahead.give(captured);
    Ok(Some(header))
}

/// The header of the next record, which has then been given, where it stands whole in hand, has no fault and is
/// little-endian, as most are. Else nothing changes.
#[inline(always)]
fn take_whole<A: Allocator>(
    ahead: &mut ReadAhead<A>,
    format: Format,
    number: u32,
) -> Option<RecordHeader>
    ensures step { (after : Option (List ℕ)) →
        IfSome result
        (λ header. IfSome (prepend_known (held ahead.old) after) (λ octets.
        Step format number octets (Ok (Some header)) ahead.new
        (prepend_known (held ahead.new) after))) }
    ensures start { IfSome result (λ header. header.captured ≤ ahead.new.start) }
    ensures short { IfSome result (λ header. header.captured ≤ MAX_RECORD_OCTETS) }
    ensures fraction { IfSome result (λ header. header.fraction < fractions_of format.resolution) }
    ensures few { IsSome result → number < MAX_RECORDS }
    ensures kept { IfNone result (ahead.new ≡ ahead.old) }
{
    let octets = ahead.octets();
    if octets.len() < RECORD_HEADER || format.endian != Endian::Little {
        return None;
    }
    let header = read_header(format, octets);
    let captured = header.captured as usize;
    if octets.len() < RECORD_HEADER + captured {
        return None;
    }
    let Ok(()) = check_header(format, number, header) else {
        return None;
    };
    ahead.give(RECORD_HEADER);
    ahead.give(captured);
    Some(header)
}

impl<R: Read, A: Allocator> CaptureReader<R, A> {
    ghost use Rattle.capture.specs.contracts.reader.CaptureReader.{the_row};
    ghost use Rattle.capture.specs.FileHeader.{IsHeaderFault};
    ghost use Rattle.capture.specs.CaptureReader.{HasGiven, IsNewReader, IsWanting, left, answer, record_shown, shown, Next};

    /// Reads the file header and no octet more, and then takes the room for one record. No later call wants memory.
    pub fn new(alloc: A, reader: R) -> Result<CaptureReader<R, A>, CapFault>
    where
        R: Drop,
        ensures ok { IfOk result (λ r. IsNewReader R.remaining (R.remaining reader) (left r)) }
        ensures fault { IfErr result (λ f. IsHeaderFault (R.remaining reader) f) }
    {
        let mut source = reader;
        let format = read_file_header(&mut source)?;
        let ahead = match ReadAhead::new(alloc) {
            Ok(ahead) => ahead,
            Err(_) => return Err(CapFault::Memory),
        };
        Ok(CaptureReader {
            source,
            ahead,
            format,
            number: 0,
            ended: None,
        })
    }

    /// The header of the next record, which has then been given, where that stands whole in hand and can be told at
    /// once. Else nothing changes, and `advance` goes on.
    #[inline(always)]
    pub fn take_in_hand(&mut self) -> Option<RecordHeader>
        ensures next { IfSome result
            (λ header. Next R.remaining (left self.old) (shown self.new (Ok (Some header)))
            (left self.new)) }
        ensures few { IsSome result → (left self.old).number < MAX_RECORDS }
        ensures given { IfSome result (HasGiven self.new) }
        ensures kept { IfNone result (self.new ≡ self.old) }
    {
        match self.ended {
            Some(_) => return None,
            None => {}
        }
        let Some(header) = take_whole(&mut self.ahead, self.format, self.number) else {
            return None;
        };
        self.number += 1;
        Some(header)
    }

    /// Whether a record stands whole in hand. Where none does, `next` may have to read.
    #[inline(always)]
    pub fn has_record(&self) -> bool
        ensures whole { result ≡ holds_record self.now.format (held self.now.ahead) }
        ensures unread { result ≡ true → IsWanting (left self.now) → ⊥ }
    {
        let octets = self.ahead.octets();
        if octets.len() < RECORD_HEADER {
            return false;
        }
        let header = read_header(self.format, octets);
        octets.len() >= RECORD_HEADER + header.captured as usize
    }

    /// The next record, or None at the end. After None it answers None, after a fault that fault.
    #[inline(always)]
    pub fn next(&mut self) -> Result<Option<Record<'_>>, CapFault>
        ensures few { IfOk result (λ o. IsSome o → (left self.old).number < MAX_RECORDS) }
        ensures* next { sem 𝓛 (Rests (the_row R.row A.row A.Allocator) self.entry (λ new.
            Next R.remaining (left self.old) (answer result) (left new))) }
    {
        match self.advance() {
            Ok(None) => Ok(None),
            Err(fault) => Err(fault),
            Ok(Some(header)) => Ok(Some(self.lend(header))),
        }
    }

    /// The record of a header that `advance` answered last.
    #[inline(always)]
    pub fn lend(&self, header: RecordHeader) -> Record<'_>
        requires { HasGiven self.now header }
        ensures { entry result ≡ record_shown self.now header }
    {
        Record {
            moment: moment(self.format, header),
            captured: header.captured,
            original: header.original,
            octets: self.ahead.given(header.captured as usize),
        }
    }

    /// Goes on to the next record, and answers its header: `next` without the loan of the octets, which `lend` gives.
    /// Apart, since a record mostly stands whole in hand, and is taken there (`take_in_hand`).
    #[inline(never)]
    pub fn advance(&mut self) -> Result<Option<RecordHeader>, CapFault>
        ensures next { Next R.remaining (left self.old) (shown self.new result) (left self.new) }
        ensures few { IfOk result (λ o. IsSome o → (left self.old).number < MAX_RECORDS) }
        ensures given { IfOk result (λ o. IfSome o (HasGiven self.new)) }
    {
        match self.ended {
            Some(End::Whole) => return Ok(None),
            Some(End::Broken(fault)) => return Err(fault),
            None => {}
        }
        match read_record(&mut self.ahead, &mut self.source, self.format, self.number) {
            Ok(Some(header)) => {
                self.number += 1;
                Ok(Some(header))
            }
            Ok(None) => {
                self.ended = Some(End::Whole);
                Ok(None)
            }
            Err(fault) => {
                self.ended = Some(End::Broken(fault));
                Err(fault)
            }
        }
    }
}
