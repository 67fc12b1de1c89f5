//! The lines of streams: each hop, and the end of each way.

ghost use Rattle.std.specs.Prelude.{◌≡◌, Some, drop, false, option_copied, slice_get};
ghost use Rattle.text.specs.Writes.{Writes};
ghost use Rattle.paths.specs.PathLines.{deadline_text, end_by, end_head, end_line, end_of, finding_by, finding_dropped, finding_end, finding_last, finding_unknown, first_of, goes_on, held_by, held_lines, hop_bounds, hop_finding, hop_head, hop_line, hop_lines, is_last, is_reached, last_line, met_of, named, over_at, over_behind, passage_at, passage_by, passage_finding, passage_lines, paths_finding, paths_lines, reached_at, stop_head, stop_line, unmet};
ghost use Rattle.stream_bounds.specs.BoundLines.{met_word};

use crate::faults::PathsFinding;
use delay_bounds::Bound;
use network::network_table::Name;
use path_bounds::{Coming, Hop, PairVerdict, PathPort, Span, greatest_of, verdict_at};
use port_text::answer_text::{Part, WriteFault, put, put_parts};
use std::io::Write;
use stream_bounds::{Met, Verdict, dropped_of, needs_of, plus};
use traffic::Stream;

/// A hop whose frames come within a span, and wait within bounds.
#[derive(Clone, Copy, Debug, PartialEq, Eq)]
pub struct HeldHop {
    /// The class of the frames.
    pub class: u8,
    /// When they come.
    pub span: Span,
    /// How long they wait.
    pub bound: Bound,
}

/// What becomes of the frames of a hop at its port.
#[derive(Clone, Copy, Debug, PartialEq, Eq)]
pub enum Passage {
    /// Some are dropped.
    Dropped,
    /// That isn't known.
    Unknown,
    /// Each waits within bounds.
    Held(HeldHop),
}

/// When frames have passed the last port of their way, in picoseconds from their nominal moments.
#[derive(Clone, Copy, Debug, PartialEq, Eq)]
pub struct EndOfWay {
    /// At the earliest.
    pub least: u128,
    /// At the latest.
    pub greatest: u128,
}

/// A hop of a class whose frames come so, and wait so.
fn held_by(class: Option<u8>, coming: Coming, bound: Option<Bound>) -> Passage
    ensures { result ≡ held_by class coming bound }
{
    match (class, coming, bound) {
        (Some(class), Coming::Within(span), Some(bound)) => {
            Passage::Held(HeldHop { class, span, bound })
        }
        _ => Passage::Unknown,
    }
}

/// What becomes of the frames of a hop at this port.
fn passage_by(port: Option<&PathPort>, hop: &Hop) -> Passage
    ensures { result ≡ passage_by (option_copied port.entry) hop.now }
{
    let Some(port) = port else {
        return Passage::Unknown;
    };
    if dropped_of(&port.settings, &port.change, &hop.stream).is_some() {
        Passage::Dropped
    } else {
        held_by(hop.class, hop.coming, hop.bound)
    }
}

/// What becomes of the frames of a hop, at the port that it names.
fn passage_at(ports: &[PathPort], hop: &Hop) -> Passage
    ensures { result ≡ passage_at ports.now hop.now }
{
    passage_by(ports.get(hop.port as usize), hop)
}

/// Whether frames go on behind a port.
fn goes_on(passage: Passage) -> bool
    ensures { result ≡ goes_on passage }
{
    match passage {
        Passage::Held(_) => true,
        Passage::Dropped | Passage::Unknown => false,
    }
}

/// When frames have passed this port, from their nominal moments.
fn end_of(port: &PathPort, stream: &Stream, held: HeldHop) -> EndOfWay
    ensures { result ≡ end_of port.now stream.now held }
{
    let needs = needs_of(port.settings.port.rate(), stream);
    let begins = held.span.earliest;
    let longest = greatest_of(stream, held.span, held.bound);
    let least = plus(plus(begins, held.bound.least), needs.shortest);
    let greatest = plus(plus(begins, longest), needs.longest);
    EndOfWay {
        least: least.saturating_sub(port.since),
        greatest: greatest.saturating_sub(port.since),
    }
}

/// Whether some frame of the class waits for as long as is told.
fn is_reached(verdict: Option<PairVerdict>) -> bool
    ensures { result ≡ is_reached verdict }
{
    match verdict {
        Some(PairVerdict::Known(Verdict::Within { reached, .. })) => reached,
        _ => false,
    }
}

/// Whether some frame of a hop of a class waits for as long as is told: that is known of the first port alone.
fn reached_at(verdicts: &[Option<PairVerdict>], hop: &Hop, class: u8) -> bool
    ensures { result ≡ reached_at verdicts.now hop.now class }
{
    hop.first && is_reached(verdict_at(verdicts, hop.port, class))
}

/// Whether a deadline is met.
fn met_of(end: EndOfWay, reached: bool, deadline: u128) -> Met
    ensures { result ≡ met_of end reached deadline }
{
    if end.greatest <= deadline {
        Met::Met
    } else if reached || deadline < end.least {
        Met::Missed
    } else {
        Met::Unknown
    }
}

/// Writes the name of the port of a number, behind some word, where it has one.
fn put_named<'a, W: Write>(
    writer: &mut W,
    word: &'a [u8],
    names: &'a [Name],
    port: u32,
) -> Result<(), WriteFault>
    ensures { Writes result (W.contents writer.old) (W.contents writer.new)
        (named word.now (slice_get names.now port)) }
{
    match names.get(port as usize) {
        None => put(writer, b""),
        Some(name) => put_parts(writer, &[Part::Text(word), Part::Text(name.as_slice())]),
    }
}

/// Writes the beginning of a hop's line.
fn put_hop_head<W: Write>(writer: &mut W, id: u64) -> Result<(), WriteFault>
    ensures { Writes result (W.contents writer.old) (W.contents writer.new) (hop_head id) }
{
    put_parts(writer, &[Part::Text(b"hop "), Part::Number(u128::from(id))])
}

/// Writes the end of a hop's line.
fn put_hop_bounds<W: Write>(writer: &mut W, held: HeldHop) -> Result<(), WriteFault>
    ensures { Writes result (W.contents writer.old) (W.contents writer.new) (hop_bounds held) }
{
    put_parts(
        writer,
        &[
            Part::Text(b" class "),
            Part::Number(u128::from(held.class)),
            Part::Text(b" within "),
            Part::Number(held.bound.least),
            Part::Text(b" to "),
            Part::Number(held.bound.greatest),
            Part::Text(b"\n"),
        ],
    )
}

/// Writes the line of a hop.
fn put_hop<W: Write>(
    writer: &mut W,
    names: &[Name],
    port: u32,
    id: u64,
    held: HeldHop,
) -> Result<(), WriteFault>
    ensures { Writes result (W.contents writer.old) (W.contents writer.new)
        (hop_line (slice_get names.now port) id held) }
{
    put_hop_head(writer, id)?;
    put_named(writer, b" ", names, port)?;
    put_hop_bounds(writer, held)
}

/// The word for whether a deadline is met.
fn met_word(met: Met) -> &'static [u8]
    ensures { result.now ≡ met_word met }
{
    match met {
        Met::Met => b" met\n",
        Met::Missed => b" missed\n",
        Met::Unknown => b" unknown\n",
    }
}

/// Writes the deadline of a way, where it has one, to the end of the line.
fn put_deadline<W: Write>(
    writer: &mut W,
    end: EndOfWay,
    reached: bool,
    deadline: Option<u128>,
) -> Result<(), WriteFault>
    ensures { Writes result (W.contents writer.old) (W.contents writer.new)
        (deadline_text end reached deadline) }
{
    match deadline {
        None => put(writer, b"\n"),
        Some(deadline) => put_parts(
            writer,
            &[
                Part::Text(b" deadline "),
                Part::Number(deadline),
                Part::Text(met_word(met_of(end, reached, deadline))),
            ],
        ),
    }
}

/// Writes when a way ends.
fn put_end_head<W: Write>(writer: &mut W, id: u64, end: EndOfWay) -> Result<(), WriteFault>
    ensures { Writes result (W.contents writer.old) (W.contents writer.new) (end_head id end) }
{
    put_parts(
        writer,
        &[
            Part::Text(b"path "),
            Part::Number(u128::from(id)),
            Part::Text(b" end "),
            Part::Number(end.least),
            Part::Text(b" to "),
            Part::Number(end.greatest),
        ],
    )
}

/// Writes the line of a way's end.
fn put_end<W: Write>(
    writer: &mut W,
    id: u64,
    end: EndOfWay,
    reached: bool,
    deadline: Option<u128>,
) -> Result<(), WriteFault>
    ensures { Writes result (W.contents writer.old) (W.contents writer.new)
        (end_line id end reached deadline) }
{
    put_end_head(writer, id, end)?;
    put_deadline(writer, end, reached, deadline)
}

/// Writes a word about a way.
fn put_stop_head<'a, W: Write>(writer: &mut W, id: u64, word: &'a [u8]) -> Result<(), WriteFault>
    ensures { Writes result (W.contents writer.old) (W.contents writer.new)
        (stop_head id word.now) }
{
    put_parts(
        writer,
        &[
            Part::Text(b"path "),
            Part::Number(u128::from(id)),
            Part::Text(word),
        ],
    )
}

/// Writes the line of a way that ends before its end.
fn put_stop<'a, W: Write>(
    writer: &mut W,
    names: &'a [Name],
    port: u32,
    id: u64,
    word: &'a [u8],
) -> Result<(), WriteFault>
    ensures { Writes result (W.contents writer.old) (W.contents writer.new)
        (stop_line (slice_get names.now port) id word.now) }
{
    put_stop_head(writer, id, word)?;
    put_named(writer, b" at ", names, port)?;
    put(writer, b"\n")
}

/// Writes the line of a way's end, at this port.
fn put_end_by<W: Write>(
    writer: &mut W,
    port: &PathPort,
    verdicts: &[Option<PairVerdict>],
    hop: &Hop,
    held: HeldHop,
) -> Result<(), WriteFault>
    ensures { Writes result (W.contents writer.old) (W.contents writer.new)
        (end_by verdicts.now (Some port.now) hop.now held) }
{
    let end = end_of(port, &hop.stream, held);
    let reached = reached_at(verdicts, hop, held.class);
    put_end(
        writer,
        hop.stream.first_id,
        end,
        reached,
        hop.stream.deadline,
    )
}

/// Writes the line of a way's end, at the port that its last hop names.
fn put_end_at<W: Write>(
    writer: &mut W,
    ports: &[PathPort],
    verdicts: &[Option<PairVerdict>],
    hop: &Hop,
    held: HeldHop,
) -> Result<(), WriteFault>
    ensures { Writes result (W.contents writer.old) (W.contents writer.new)
        (end_by verdicts.now (slice_get ports.now hop.now.port) hop.now held) }
{
    match ports.get(hop.port as usize) {
        Some(port) => put_end_by(writer, port, verdicts, hop, held),
        None => put(writer, b""),
    }
}

/// Writes the line of a way's end, behind its last hop.
fn put_last<W: Write>(
    writer: &mut W,
    ports: &[PathPort],
    verdicts: &[Option<PairVerdict>],
    last: bool,
    hop: &Hop,
    held: HeldHop,
) -> Result<(), WriteFault>
    ensures { Writes result (W.contents writer.old) (W.contents writer.new)
        (last_line ports.now verdicts.now last hop.now held) }
{
    if last {
        put_end_at(writer, ports, verdicts, hop, held)
    } else {
        put(writer, b"")
    }
}

/// Writes the line of a hop whose frames go on, and that of its way's end.
fn put_held<W: Write>(
    writer: &mut W,
    names: &[Name],
    ports: &[PathPort],
    verdicts: &[Option<PairVerdict>],
    last: bool,
    hop: &Hop,
    held: HeldHop,
) -> Result<(), WriteFault>
    ensures { Writes result (W.contents writer.old) (W.contents writer.new)
        (held_lines ports.now verdicts.now names.now last hop.now held) }
{
    put_hop(writer, names, hop.port, hop.stream.first_id, held)?;
    put_last(writer, ports, verdicts, last, hop, held)
}

/// Writes the lines of a hop whose way hasn't ended before.
fn put_passage<W: Write>(
    writer: &mut W,
    names: &[Name],
    ports: &[PathPort],
    verdicts: &[Option<PairVerdict>],
    last: bool,
    hop: &Hop,
    passage: Passage,
) -> Result<(), WriteFault>
    ensures { Writes result (W.contents writer.old) (W.contents writer.new)
        (passage_lines ports.now verdicts.now names.now last hop.now passage) }
{
    let id = hop.stream.first_id;
    match passage {
        Passage::Dropped => put_stop(writer, names, hop.port, id, b" none"),
        Passage::Unknown => put_stop(writer, names, hop.port, id, b" unknown"),
        Passage::Held(held) => put_held(writer, names, ports, verdicts, last, hop, held),
    }
}

/// Writes the lines of a hop, unless its way has ended before.
fn put_lines<W: Write>(
    writer: &mut W,
    names: &[Name],
    ports: &[PathPort],
    verdicts: &[Option<PairVerdict>],
    over: bool,
    last: bool,
    hop: &Hop,
) -> Result<(), WriteFault>
    ensures { Writes result (W.contents writer.old) (W.contents writer.new)
        (hop_lines ports.now verdicts.now names.now over last hop.now) }
{
    if over {
        put(writer, b"")
    } else {
        let passage = passage_at(ports, hop);
        put_passage(writer, names, ports, verdicts, last, hop, passage)
    }
}

/// Whether a hop in front of these is the last of its way.
fn is_last(behind: &[Hop]) -> bool
    ensures { result ≡ is_last behind.now }
{
    match behind.first() {
        Some(hop) => hop.first,
        None => true,
    }
}

/// Whether the way of a hop has ended before it, where the one in front of it has or not.
fn over_at(over: bool, hop: &Hop) -> bool
    ensures { result ≡ over_at over hop.now }
{
    over && !hop.first
}

/// Whether a way has ended behind a hop, where it has before it or not.
fn over_behind(ports: &[PathPort], over: bool, hop: &Hop) -> bool
    ensures { result ≡ over_behind ports.now over hop.now }
{
    over_at(over, hop) || !goes_on(passage_at(ports, hop))
}

/// The hops from a place on.
fn from_place(hops: &[Hop], place: usize) -> &[Hop]
    ensures { result.now ≡ drop place hops.now }
{
    if place >= hops.len() {
        return &[];
    }
    let (_, rest) = hops.split_at(place);
    rest
}

/// Writes the lines of all ways.
pub(crate) fn put_paths<W: Write>(
    writer: &mut W,
    names: &[Name],
    ports: &[PathPort],
    verdicts: &[Option<PairVerdict>],
    hops: &[Hop],
) -> Result<(), WriteFault>
    ensures { Writes result (W.contents writer.old) (W.contents writer.new)
        (paths_lines ports.now verdicts.now names.now false hops.now) }
{
    let mut over = false;
    for place in 0..hops.len() {
        let hop = &hops[place];
        let ended = over_at(over, hop);
        let last = is_last(from_place(hops, place + 1));
        put_lines(writer, names, ports, verdicts, ended, last, hop)?;
        over = over_behind(ports, over, hop);
    }
    Ok(())
}

/// The first of two findings.
pub(crate) fn first_of(
    first: Option<PathsFinding>,
    later: Option<PathsFinding>,
) -> Option<PathsFinding>
    ensures { result ≡ first_of first later }
{
    match first {
        Some(finding) => Some(finding),
        None => later,
    }
}

/// The finding about a deadline.
fn unmet(id: u64, met: Met) -> Option<PathsFinding>
    ensures { result ≡ unmet id met }
{
    match met {
        Met::Met => None,
        Met::Missed => Some(PathsFinding::Missed(id)),
        Met::Unknown => Some(PathsFinding::Unknown(id)),
    }
}

/// The finding about a stream whose frames are dropped.
fn finding_dropped(id: u64, deadline: Option<u128>) -> Option<PathsFinding>
    ensures { result ≡ finding_dropped id deadline }
{
    match deadline {
        None => Some(PathsFinding::Dropped(id)),
        Some(_) => Some(PathsFinding::Missed(id)),
    }
}

/// The finding about a stream of which nothing is known at a port.
fn finding_unknown(id: u64, deadline: Option<u128>) -> Option<PathsFinding>
    ensures { result ≡ finding_unknown id deadline }
{
    match deadline {
        None => None,
        Some(_) => Some(PathsFinding::Unknown(id)),
    }
}

/// The finding about the end of a way.
fn finding_end(
    id: u64,
    end: EndOfWay,
    reached: bool,
    deadline: Option<u128>,
) -> Option<PathsFinding>
    ensures { result ≡ finding_end id end reached deadline }
{
    match deadline {
        None => None,
        Some(deadline) => unmet(id, met_of(end, reached, deadline)),
    }
}

/// The finding about the end of a way, at this port.
fn finding_by(
    port: &PathPort,
    verdicts: &[Option<PairVerdict>],
    hop: &Hop,
    held: HeldHop,
) -> Option<PathsFinding>
    ensures { result ≡ finding_by verdicts.now (Some port.now) hop.now held }
{
    let end = end_of(port, &hop.stream, held);
    let reached = reached_at(verdicts, hop, held.class);
    finding_end(hop.stream.first_id, end, reached, hop.stream.deadline)
}

/// The finding about the end of a way, at the port that its last hop names.
fn finding_at(
    ports: &[PathPort],
    verdicts: &[Option<PairVerdict>],
    hop: &Hop,
    held: HeldHop,
) -> Option<PathsFinding>
    ensures { result ≡ finding_by verdicts.now (slice_get ports.now hop.now.port) hop.now held }
{
    match ports.get(hop.port as usize) {
        Some(port) => finding_by(port, verdicts, hop, held),
        None => None,
    }
}

/// The finding behind a hop whose frames go on.
fn finding_last(
    ports: &[PathPort],
    verdicts: &[Option<PairVerdict>],
    last: bool,
    hop: &Hop,
    held: HeldHop,
) -> Option<PathsFinding>
    ensures { result ≡ finding_last ports.now verdicts.now last hop.now held }
{
    if last {
        finding_at(ports, verdicts, hop, held)
    } else {
        None
    }
}

/// The finding about a hop whose way hasn't ended before.
fn passage_finding(
    ports: &[PathPort],
    verdicts: &[Option<PairVerdict>],
    last: bool,
    hop: &Hop,
    passage: Passage,
) -> Option<PathsFinding>
    ensures { result ≡ passage_finding ports.now verdicts.now last hop.now passage }
{
    let id = hop.stream.first_id;
    match passage {
        Passage::Dropped => finding_dropped(id, hop.stream.deadline),
        Passage::Unknown => finding_unknown(id, hop.stream.deadline),
        Passage::Held(held) => finding_last(ports, verdicts, last, hop, held),
    }
}

/// The finding about a hop, unless its way has ended before.
fn hop_finding(
    ports: &[PathPort],
    verdicts: &[Option<PairVerdict>],
    over: bool,
    last: bool,
    hop: &Hop,
) -> Option<PathsFinding>
    ensures { result ≡ hop_finding ports.now verdicts.now over last hop.now }
{
    if over {
        None
    } else {
        passage_finding(ports, verdicts, last, hop, passage_at(ports, hop))
    }
}

/// The first finding about streams.
pub(crate) fn find_path(
    ports: &[PathPort],
    verdicts: &[Option<PairVerdict>],
    hops: &[Hop],
) -> Option<PathsFinding>
    ensures { result ≡ paths_finding ports.now verdicts.now false hops.now }
{
    let mut over = false;
    let mut first = None;
    for place in 0..hops.len() {
        let hop = &hops[place];
        let ended = over_at(over, hop);
        let last = is_last(from_place(hops, place + 1));
        first = first_of(first, hop_finding(ports, verdicts, ended, last, hop));
        over = over_behind(ports, over, hop);
    }
    first
}
