//! The walk over a kept script and the records of a capture, by moment: a taker takes what they ask.

ghost use Rattle.std.specs.Prelude.{◌≡◌, ◌<◌, [], ℕ, List, None, Ok, OnOk, Option, Result, IfOk, IfSome, IsSome, true};
ghost use Rattle.capture.specs.CaptureReader.{HasGiven, shown};
ghost use Rattle.capture.specs.Records.{holds_record};
ghost use Rattle.replay.specs.Taker.{Takes, TakesBoth, TakesRecords};
ghost use Rattle.replay.specs.Words.{ComesMoved, Command, End, Entry, IsReader, MAX_RECORDS, Next, TcFault, found, kept_requests, left, lines_by, lines_left, lines_past, requests_of};

use crate::cursor::Cursor;
use crate::faults::Stop;
use crate::kept_script::KeptScript;
use crate::lines::line_by;
use crate::shifts::{Shift, moved_moment};
use crate::taker::Taker;
use capture::{CAPTURE_END, CapFault, CaptureReader, RecordHeader};
use script::Watch;
use std::alloc::Allocator;
use std::io::Read;

/// A fault with which the records of a capture end, or that a read failed.
fn found(number: u32, fault: CapFault) -> Result<Option<(u32, CapFault)>, Stop>
    ensures { result ≡ found number fault }
{
    match fault {
        CapFault::Read => Err(Stop::Read),
        _ => Ok(Some((number, fault))),
    }
}

/// Lets out what was written where no record stands whole in hand, so that whoever waits for it has it before more of
/// the capture is waited for. Apart, since one mostly stands whole in hand.
#[inline(never)]
fn let_out_before<C: Allocator, R: Read, W, H: Watch, T: Taker<W, H>>(
    records: &CaptureReader<R, C>,
    taker: &mut T,
    out: &mut W,
    watch: &mut H,
) -> Result<(), Stop>
    requires { T.ready taker.old }
    ensures ready { OnOk result (T.ready taker.new) }
    ensures taken { (entries : List Entry) →
        Takes T.took T.cut entries [] result
        taker.old out.old watch.old taker.new out.new watch.new }
    ensures in_hand { holds_record (left records.now).format (left records.now).in_hand ≡ true →
        (result ≡ Ok tt) × (taker.new ≡ taker.old) × (out.new ≡ out.old) }
{
    if records.has_record() {
        return Ok(());
    }
    taker.let_out(out, watch)
}

/// Goes on to the next record, once what was written is let out where none stands whole in hand; its header.
#[inline(always)]
fn advance<C: Allocator, R: Read, W, H: Watch, T: Taker<W, H>>(
    records: &mut CaptureReader<R, C>,
    taker: &mut T,
    out: &mut W,
    watch: &mut H,
) -> Result<Result<Option<RecordHeader>, CapFault>, Stop>
    requires { T.ready taker.old }
    ensures ready { OnOk result (T.ready taker.new) }
    ensures taken { (entries : List Entry) →
        Takes T.took T.cut entries [] result
        taker.old out.old watch.old taker.new out.new watch.new }
    ensures in_hand { holds_record (left records.old).format (left records.old).in_hand ≡ true →
        (taker.new ≡ taker.old) × (out.new ≡ out.old) }
    ensures next { IfOk result
        (λ answer. Next R.remaining (left records.old) (shown records.new answer)
        (left records.new)) }
    ensures few { IfOk result
        (λ answer. IfOk answer (λ o. IsSome o → (left records.old).number < MAX_RECORDS)) }
    ensures given { IfOk result (λ answer. IfOk answer (λ o. IfSome o (HasGiven records.new))) }
{
    if let Some(header) = records.take_in_hand() {
        return Ok(Ok(Some(header)));
    }
    let_out_before(records, taker, out, watch)?;
    Ok(records.advance())
}

/// Takes the lines up to a moment that are to come.
#[inline(always)]
fn take_lines<B: Allocator, W, H: Watch, T: Taker<W, H>>(
    taker: &mut T,
    script: &KeptScript<B>,
    cursor: &mut Cursor,
    upto: u128,
    out: &mut W,
    watch: &mut H,
) -> Result<(), Stop>
    requires { T.ready taker.old }
    ensures ready { OnOk result (T.ready taker.new) }
    ensures left { (read : List (List ℕ) → Result Command TcFault) → IsReader read →
        OnOk result
        (lines_left read script.now cursor.new
        ≡ lines_past upto (lines_left read script.now cursor.old)) }
    ensures taken { (read : List (List ℕ) → Result Command TcFault) → IsReader read →
        (entries : List Entry) →
        Takes T.took T.cut entries
        (requests_of (lines_by upto (lines_left read script.now cursor.old))) result
        taker.old out.old watch.old taker.new out.new watch.new }
{
    while let Some(line) = line_by(script, cursor, upto) {
        taker.take_line(&script.octets, line, out, watch)?;
    }
    Ok(())
}

/// Takes the records that are to come, each with its moment moved by the shift, and after the lines up to that; later
/// lines are left. The number of the record at which the capture ends with a fault, and the fault: `BadShift` of one that
/// can't be moved so.
#[inline(always)]
fn take_records<B: Allocator, C: Allocator, R: Read, W, H: Watch, T: Taker<W, H>>(
    taker: &mut T,
    script: &KeptScript<B>,
    cursor: &mut Cursor,
    records: &mut CaptureReader<R, C>,
    shift: Option<Shift>,
    out: &mut W,
    watch: &mut H,
) -> Result<Option<(u32, CapFault)>, Stop>
    requires ready { T.ready taker.old }
    requires begun { (left records.old).ended ≡ None }
    requires first { (left records.old).number ≡ 0 }
    ensures ready { OnOk result (T.ready taker.new) }
    ensures taken { (read : List (List ℕ) → Result Command TcFault) → IsReader read →
        (entries : List Entry) (last : End) →
        ComesMoved shift R.remaining (left records.old) entries last →
        TakesRecords T.took T.cut entries last (lines_left read script.now cursor.old)
        (lines_left read script.now cursor.new) result
        taker.old out.old watch.old taker.new out.new watch.new }
{
    let mut latest = 0u128;
    let mut number = 0u32;
    'records: loop {
        let header = match advance(records, taker, out, watch)? {
            Ok(None) => return Ok(None),
            Err(fault) => return found(number, fault),
            Ok(Some(header)) => header,
        };
        let record = records.lend(header);
        let Some(moment) = moved_moment(shift, record.moment) else {
            return Ok(Some((number, CapFault::BadShift)));
        };
        latest = latest.max(moment);
        take_lines(taker, script, cursor, latest, out, watch)?;
        taker.take_record(latest, number, &record, out, watch)?;
        number += 1;
        watch.records_taken(number, latest);
    }
}

/// Takes the records of a capture, each with its moment moved by the shift, and the lines of a kept script, by moment:
/// before each record the lines up to its moment, which is the greater of its own and that of the record before, and
/// after the last record, also one after which the capture ends with a fault, the other lines. What was written is let
/// out before more of the capture is waited for. The number of the record at which the capture ends with a fault, and the
/// fault: `BadShift` of one that can't be moved so.
pub fn walk_both<B: Allocator, C: Allocator, R: Read, W, H: Watch, T: Taker<W, H>>(
    taker: &mut T,
    script: &KeptScript<B>,
    records: &mut CaptureReader<R, C>,
    shift: Option<Shift>,
    out: &mut W,
    watch: &mut H,
) -> Result<Option<(u32, CapFault)>, Stop>
    requires ready { T.ready taker.old }
    requires begun { (left records.old).ended ≡ None }
    requires first { (left records.old).number ≡ 0 }
    ensures ready { OnOk result (T.ready taker.new) }
    ensures taken { (read : List (List ℕ) → Result Command TcFault) → IsReader read →
        (entries : List Entry) (last : End) →
        ComesMoved shift R.remaining (left records.old) entries last →
        TakesBoth T.took T.cut entries last
        (kept_requests read script.now.octets.items script.now.lines.items) result
        taker.old out.old watch.old taker.new out.new watch.new }
{
    let mut cursor = Cursor { at: 0, clock: 0 };
    let broken = take_records(taker, script, &mut cursor, records, shift, out, watch)?;
    take_lines(taker, script, &mut cursor, CAPTURE_END, out, watch)?;
    Ok(broken)
}
