//! A port that runs, beside it the octets of the frames that wait, what is seen of it, and the capture of what leaves.

ghost use Rattle.std.specs.Prelude.{◌≡◌, ◌≤◌, ◌<◌, ◌∷◌, ◌⊎◌, [], ℕ, List, None, Ok, Option, length, drop, IfErr, OnOk, slice_set};
ghost use Rattle.abstract_port.specs.AbstractPort.{starts_until};
ghost use Rattle.replay.specs.Words.{arrival_answer, answer_lines, CAPTURE_END, MAX_RECORD_OCTETS, kept, kept_at, last_end, Writes, Asks, Origin, PutsBoth, kept_in, stamped, start_record, Answers, AnswersStarts, IsTogether, Keeps, first_kept, state, noted};
ghost use Rattle.abstract_port.specs.declared.Answer.TheVariants as Answered;
ghost use Rattle.abstract_port.specs.declared.Event.TheVariants as Events;
ghost use Rattle.replay.specs.declared.faults.Stop.TheVariants as Stops;

use crate::faults::Stop;
use crate::queued::{QueuedLine, put_queued};
use crate::stamps::{Stamping, stamped};
use abstract_port::{Answer, Dropped, Start};
use capture::CaptureWriter;
use capture::octet_store::OctetStore;
use port_text::answer_text::{NearNumbers, WriteFault, put_answer};
use script::{RunningPort, Watch};
use std::alloc::{Allocator, Global};
use summary::{Summary, note, note_start, note_verdict};
use text::octet_writer::PutLine;
use wire_time::{CLASSES, Frame};

/// The capture that frames leave for.
#[derive(Drop)]
pub(crate) struct Leaving {
    /// Its writer.
    pub writer: CaptureWriter,
    /// Which moment its records carry.
    pub stamping: Stamping,
    /// The end of the frame that has started last, or a moment after which none has, in picoseconds.
    pub last: u128,
    /// The digits of the moments of the start that was reported last.
    pub moments: NearNumbers,
    /// The line of the frame that was queued last. It stands here, where the layout is fixed.
    pub queued: QueuedLine,
}

/// A port that runs, with the octets of the frames that wait in it, and the capture that they leave for.
#[derive(Drop)]
pub(crate) struct Sending<A: Allocator = Global> {
    /// The port.
    pub port: RunningPort<A>,
    /// What is seen of it, where a summary is wanted.
    pub summary: Option<Summary<A>>,
    /// The octets of the frames that wait in it.
    pub store: OctetStore<A>,
    /// The output capture.
    pub leaving: Leaving,
}

/// Reports a clock event of a moment that has passed, noted where a summary is wanted. At a fault a prefix of it is
/// written. Apart, since an answer is large.
#[inline(never)]
fn put_backward<A: Allocator, V: PutLine>(
    summary: &mut Option<Summary<A>>,
    now: u128,
    report: &mut V,
) -> Result<(), WriteFault>
    ensures text { Writes result (V.contents report.old) (V.contents report.new)
        (answer_lines Answered.Backward) }
    ensures seen { summary.new ≡ noted now Answered.Backward summary.old }
{
    let answer = Answer::Backward;
    note(summary, now, &answer);
    put_answer(report, &answer)
}

/// Writes the start of a frame, noted where a summary is wanted. At a fault a prefix of it is written.
#[inline(always)]
fn put_noted_start<A: Allocator, V: PutLine>(
    summary: &mut Option<Summary<A>>,
    moments: &mut NearNumbers,
    now: u128,
    start: &Start,
    report: &mut V,
) -> Result<(), WriteFault>
    ensures text { Writes result (V.contents report.old) (V.contents report.new)
        (answer_lines (Answered.Start start.now)) }
    ensures seen { summary.new ≡ noted now (Answered.Start start.now) summary.old }
{
    note_start(summary, now, start);
    port_text::answer_text::put_start(report, moments, start)
}

/// Writes what becomes of a frame that arrives, noted where a summary is wanted. At a fault a prefix of it is written.
fn put_noted_arrival<A: Allocator, V: PutLine>(
    summary: &mut Option<Summary<A>>,
    now: u128,
    frame: &Frame,
    verdict: Result<u8, Dropped>,
    report: &mut V,
) -> Result<(), WriteFault>
    ensures text { Writes result (V.contents report.old) (V.contents report.new)
        (answer_lines (arrival_answer frame.now verdict)) }
    ensures seen { summary.new ≡ noted now (arrival_answer frame.now verdict) summary.old }
{
    note_verdict(summary, now, frame, verdict);
    port_text::answer_text::put_arrival(report, frame, verdict)
}

/// Writes that a frame is queued, noted where a summary is wanted. At a fault a prefix of it is written.
#[inline(always)]
fn put_noted_queued<A: Allocator, V: PutLine>(
    summary: &mut Option<Summary<A>>,
    line: &mut QueuedLine,
    now: u128,
    frame: &Frame,
    class: u8,
    report: &mut V,
) -> Result<(), WriteFault>
    requires { class < CLASSES }
    ensures text { Writes result (V.contents report.old) (V.contents report.new)
        (answer_lines (arrival_answer frame.now (Ok class))) }
    ensures seen { summary.new ≡ noted now (arrival_answer frame.now (Ok class)) summary.old }
{
    note_verdict(summary, now, frame, Ok(class));
    put_queued(line, frame, class, report)
}

/// Writes the first record that is kept of the class of a start, and gives it up.
#[inline(always)]
fn put_record<A: Allocator, W: PutLine>(
    sending: &mut Sending<A>,
    start: Start,
    departures: &mut W,
) -> Result<(), Stop>
    requires class { start.class < CLASSES }
    requires waits { 0 < length (kept_at sending.old.store.kept start.class) }
    requires early { start.at < CAPTURE_END }
    ensures port { sending.new.port ≡ sending.old.port }
    ensures seen { sending.new.summary ≡ sending.old.summary }
    ensures stamping { sending.new.leaving.stamping ≡ sending.old.leaving.stamping }
    ensures last { sending.new.leaving.last ≡ sending.old.leaving.last }
    ensures store { OnOk result
        (sending.new.store
        ≡ record sending.old.store {
          kept = slice_set sending.old.store.kept start.class
              (drop 1 (kept_at sending.old.store.kept start.class));
        }) }
    ensures out { Writes result (W.contents departures.old) (W.contents departures.new)
        (start_record (stamped sending.old.leaving.stamping start)
        (first_kept sending.old.store start.class)) }
    ensures fault { IfErr result (λ fault. fault ≡ Stops.Write) }
{
    let moment = stamped(sending.leaving.stamping, start);
    let first = sending.store.first(start.class);
    let put = sending
        .leaving
        .writer
        .put(departures, moment, first.original, first.octets);
    let Ok(()) = put else {
        return Err(Stop::Write);
    };
    sending.store.give_up(start.class);
    Ok(())
}

/// Reports a start, as an answer to an event that is taken at this moment, writes the first record that is kept of its
/// class, and gives it up.
#[inline(always)]
fn put_start<A: Allocator, W: PutLine, V: PutLine>(
    sending: &mut Sending<A>,
    now: u128,
    start: Start,
    departures: &mut W,
    report: &mut V,
) -> Result<(), Stop>
    requires class { start.class < CLASSES }
    requires waits { 0 < length (kept_at sending.old.store.kept start.class) }
    requires early { start.at < CAPTURE_END }
    ensures port { sending.new.port ≡ sending.old.port }
    ensures seen { sending.new.summary ≡ noted now (Answered.Start start) sending.old.summary }
    ensures stamping { sending.new.leaving.stamping ≡ sending.old.leaving.stamping }
    ensures last { OnOk result (sending.new.leaving.last ≡ start.«end») }
    ensures store { OnOk result
        (sending.new.store
        ≡ record sending.old.store {
          kept = slice_set sending.old.store.kept start.class
              (drop 1 (kept_at sending.old.store.kept start.class));
        }) }
    ensures out { PutsBoth result
        (record { report = V.contents report.old; departures = W.contents departures.old })
        (record { report = V.contents report.new; departures = W.contents departures.new })
        (record {
          report = answer_lines (Answered.Start start);
          departures = start_record (stamped sending.old.leaving.stamping start)
              (first_kept sending.old.store start.class);
        }) }
    ensures fault { IfErr result (λ fault. fault ≡ Stops.Write) }
{
    put_noted_start(
        &mut sending.summary,
        &mut sending.leaving.moments,
        now,
        &start,
        report,
    )?;
    sending.leaving.last = start.end;
    put_record(sending, start, departures)
}

/// Writes the starts before `until`, as they come, one after another. Apart, since mostly there are few.
#[inline(never)]
fn put_each_start<A: Allocator, W: PutLine, V: PutLine>(
    sending: &mut Sending<A>,
    until: u128,
    departures: &mut W,
    report: &mut V,
) -> Result<(), Stop>
    requires later { sending.old.port.port.now ≤ until }
    requires within { until ≤ CAPTURE_END }
    requires together { IsTogether
        (state sending.old (V.contents report.old) (W.contents departures.old)) }
    ensures together { OnOk result
        (IsTogether (state sending.new (V.contents report.new) (W.contents departures.new))) }
    ensures starts { (origin : Origin) →
        Keeps origin (state sending.old (V.contents report.old) (W.contents departures.old)) →
        AnswersStarts origin result until
        (state sending.old (V.contents report.old) (W.contents departures.old))
        (state sending.new (V.contents report.new) (W.contents departures.new)) }
    ensures last { OnOk result
        (sending.new.leaving.last
        ≡ last_end sending.old.leaving.last (starts_until sending.old.port.port until).0) }
    ensures fault { IfErr result (λ fault. fault ≡ Stops.Write) }
{
    let now = sending.port.now();
    loop {
        match sending.port.step(until) {
            Some(start) => put_start(sending, now, start, departures, report)?,
            None => return Ok(()),
        }
    }
}

/// Takes a clock event, and writes what is reported of it.
#[inline(always)]
pub(crate) fn put_clock<A: Allocator, W: PutLine, V: PutLine>(
    sending: &mut Sending<A>,
    moment: u128,
    departures: &mut W,
    report: &mut V,
) -> Result<(), Stop>
    requires within { moment ≤ CAPTURE_END }
    requires together { IsTogether
        (state sending.old (V.contents report.old) (W.contents departures.old)) }
    ensures together { OnOk result
        (IsTogether (state sending.new (V.contents report.new) (W.contents departures.new))) }
    ensures answers { (origin : Origin) →
        Keeps origin (state sending.old (V.contents report.old) (W.contents departures.old)) →
        Answers origin result (Asks (Events.Clock moment) ∷ [])
        (state sending.old (V.contents report.old) (W.contents departures.old))
        (state sending.new (V.contents report.new) (W.contents departures.new)) }
    ensures last { OnOk result
        (sending.new.leaving.last
        ≡ last_end sending.old.leaving.last (starts_until sending.old.port.port moment).0) }
    ensures fault { IfErr result (λ fault. fault ≡ Stops.Write) }
{
    let now = sending.port.now();
    if moment < now {
        put_backward(&mut sending.summary, now, report)?;
        return Ok(());
    }
    if sending.port.rest_until(moment) {
        return Ok(());
    }
    put_each_start(sending, moment, departures, report)
}

/// A frame arrives, and where it is queued its octets are kept. Who watches is called where it is dropped.
#[inline(always)]
pub(crate) fn put_arrival<A: Allocator + Clone, V: PutLine, P: Watch>(
    sending: &mut Sending<A>,
    frame: Frame,
    original: u32,
    octets: &[u8],
    report: &mut V,
    watch: &mut P,
) -> Result<(), Stop>
    requires together { IsTogether (state sending.old (V.contents report.old) None) }
    requires size { length octets.now ≤ MAX_RECORD_OCTETS }
    ensures together { OnOk result (IsTogether (state sending.new (V.contents report.new) None)) }
    ensures answers { (origin : Origin) (captured : Option (List ℕ)) →
        kept_in origin.entries frame.id ≡ kept original octets.now →
        Keeps origin (state sending.old (V.contents report.old) captured) →
        Answers origin result (Asks (Events.Arrive frame) ∷ [])
        (state sending.old (V.contents report.old) captured)
        (state sending.new (V.contents report.new) captured) }
    ensures fault { IfErr result (λ fault. (fault ≡ Stops.Write) ⊎ (fault ≡ Stops.Memory)) }
{
    let came = sending.port.now();
    match sending.port.arrive(frame) {
        Ok(class) => {
            sending.store.put(class, original, octets)?;
            put_noted_queued(
                &mut sending.summary,
                &mut sending.leaving.queued,
                came,
                &frame,
                class,
                report,
            )?;
        }
        Err(why) => {
            watch.frame_dropped(came, &frame, why);
            put_noted_arrival(&mut sending.summary, came, &frame, Err(why), report)?;
        }
    }
    Ok(())
}
