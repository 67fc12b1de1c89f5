//! The lines of streams.

ghost use Rattle.std.specs.Prelude.{◌≡◌, ◌++◌, IfOk};
ghost use Rattle.text.specs.Writes.{Writes};
ghost use Rattle.stream_bounds.specs.BoundLines.{bound_head, bound_line, bound_lines, deadline_end, delay_text, extra_lines, finding_in, first_of, lost, met_word, range_text, shares_line, slack_end, slack_head, slack_line, stream_finding, stream_text, unmet, why_line};
ghost use Rattle.stream_bounds.specs.Classes.{class_of};
ghost use Rattle.stream_bounds.specs.Verdicts.{extra_of, left_after, needs_of, next_delay, unless_dropped};

use crate::answers::{Answers, Told};
use crate::classes::{class_of, dropped_of};
use crate::extras::Extra;
use crate::faults::Finding;
use crate::settings::BoundsSettings;
use crate::verdicts::{Delay, Met, Needs, met_by, plus};
use abstract_port::{Change, Dropped};
use delay_bounds::Bound;
use port_text::answer_text::{Part, WriteFault, dropped_name, put_parts};
use script::Shares;
use std::io::Write;
use traffic::Stream;
use wire_time::{Rate, occupancy};

/// How long the frames of a stream occupy the wire.
pub fn needs_of(rate: Rate, stream: &Stream) -> Needs
    ensures { result ≡ needs_of rate stream.now }
{
    Needs {
        shortest: occupancy(rate, stream.shortest),
        longest: occupancy(rate, stream.len),
    }
}

/// Writes how long frames of a class take, to their starts and to their ends, behind a word that says how that is meant.
fn put_range<W: Write>(
    writer: &mut W,
    class: u8,
    word: &[u8],
    bound: Bound,
    needs: Needs,
) -> Result<(), WriteFault>
    ensures { Writes result (W.contents writer.old) (W.contents writer.new)
        (range_text class word.now bound needs) }
{
    put_parts(
        writer,
        &[
            Part::Text(b" class "),
            Part::Number(u128::from(class)),
            Part::Text(word),
            Part::Number(bound.least),
            Part::Text(b" to "),
            Part::Number(bound.greatest),
            Part::Text(b" end "),
            Part::Number(plus(bound.least, needs.shortest)),
            Part::Text(b" to "),
            Part::Number(plus(bound.greatest, needs.longest)),
        ],
    )
}

/// Writes what is told of a stream whose frames occupy the wire for so long, before its deadline.
fn put_delay<W: Write>(writer: &mut W, needs: Needs, delay: Delay) -> Result<(), WriteFault>
    ensures { Writes result (W.contents writer.old) (W.contents writer.new)
        (delay_text needs delay) }
{
    match delay {
        Delay::Exact(class, bound) => put_range(writer, class, b" wait ", bound, needs),
        Delay::Within(class, bound, _) => put_range(writer, class, b" within ", bound, needs),
        Delay::Unbounded(class) | Delay::Unsettled(class) => put_parts(
            writer,
            &[
                Part::Text(b" class "),
                Part::Number(u128::from(class)),
                Part::Text(b" none"),
            ],
        ),
        Delay::Unknown(class) => put_parts(
            writer,
            &[
                Part::Text(b" class "),
                Part::Number(u128::from(class)),
                Part::Text(b" unknown"),
            ],
        ),
        Delay::Lost(why) => put_parts(
            writer,
            &[Part::Text(b" dropped "), Part::Text(dropped_name(why))],
        ),
    }
}

/// The word for whether a deadline is met.
fn met_word(met: Met) -> &'static [u8]
    ensures { result.now ≡ met_word met }
{
    match met {
        Met::Met => b" met\n",
        Met::Missed => b" missed\n",
        Met::Unknown => b" unknown\n",
    }
}

/// Writes the end of a stream's line.
fn put_end<W: Write>(
    writer: &mut W,
    needs: Needs,
    delay: Delay,
    deadline: Option<u128>,
) -> Result<(), WriteFault>
    ensures { Writes result (W.contents writer.old) (W.contents writer.new)
        (deadline_end needs delay deadline) }
{
    match deadline {
        None => put_parts(writer, &[Part::Text(b"\n")]),
        Some(deadline) => put_parts(
            writer,
            &[
                Part::Text(b" deadline "),
                Part::Number(deadline),
                Part::Text(met_word(met_by(needs, delay, deadline))),
            ],
        ),
    }
}

/// Writes the beginning of a stream's line.
fn put_head<W: Write>(writer: &mut W, id: u64) -> Result<(), WriteFault>
    ensures { Writes result (W.contents writer.old) (W.contents writer.new) (bound_head id) }
{
    put_parts(
        writer,
        &[Part::Text(b"bound "), Part::Number(u128::from(id))],
    )
}

/// Writes the line of a stream.
fn put_stream<W: Write>(
    writer: &mut W,
    needs: Needs,
    stream: &Stream,
    delay: Delay,
) -> Result<(), WriteFault>
    ensures { Writes result (W.contents writer.old) (W.contents writer.new)
        (bound_line needs stream.now delay) }
{
    put_head(writer, stream.first_id)?;
    put_delay(writer, needs, delay)?;
    put_end(writer, needs, delay, stream.deadline)
}

/// The finding about a deadline.
fn unmet(id: u64, met: Met) -> Option<Finding>
    ensures { result ≡ unmet id met }
{
    match met {
        Met::Met => None,
        Met::Missed => Some(Finding::Missed(id)),
        Met::Unknown => Some(Finding::Unknown(id)),
    }
}

/// The finding about a stream without a deadline: its frames are all dropped.
fn lost(id: u64, delay: Delay) -> Option<Finding>
    ensures { result ≡ lost id delay }
{
    match delay {
        Delay::Lost(_) => Some(Finding::Dropped(id)),
        _ => None,
    }
}

/// The finding about a stream: its deadline is not known to be met, or it has none and is dropped.
fn stream_finding(needs: Needs, stream: &Stream, delay: Delay) -> Option<Finding>
    ensures { result ≡ stream_finding needs stream.now delay stream.now.deadline }
{
    match stream.deadline {
        None => lost(stream.first_id, delay),
        Some(deadline) => unmet(stream.first_id, met_by(needs, delay, deadline)),
    }
}

/// The first finding of two.
pub fn first_of(first: Option<Finding>, later: Option<Finding>) -> Option<Finding>
    ensures { result ≡ first_of first later }
{
    match first {
        Some(finding) => Some(finding),
        None => later,
    }
}

/// What is told of a stream, of whose frames some may be dropped.
pub fn unless_dropped(dropped: Option<Dropped>, delay: Delay) -> Delay
    ensures { result ≡ unless_dropped dropped delay }
{
    match dropped {
        Some(why) => Delay::Lost(why),
        None => delay,
    }
}

/// What is told of the next stream of a table; it is told then.
fn next_told(
    settings: &BoundsSettings,
    change: &Change,
    answers: &mut Answers,
    stream: &Stream,
) -> Told
    ensures delay { result.delay ≡ next_delay settings.now change.now answers.old stream.now }
    ensures extra { result.extra
        ≡ extra_of answers.old (class_of settings.now change.now stream.now) }
    ensures left { answers.new
        ≡ left_after answers.old (class_of settings.now change.now stream.now) }
{
    let told = answers.next_told(class_of(settings, change, stream));
    Told {
        delay: unless_dropped(dropped_of(settings, change, stream), told.delay),
        extra: told.extra,
    }
}

/// Writes the jitter that a stream may have, to the end of the line.
fn put_slack_end<W: Write>(writer: &mut W, slack: Option<u128>) -> Result<(), WriteFault>
    ensures { Writes result (W.contents writer.old) (W.contents writer.new) (slack_end slack) }
{
    match slack {
        None => put_parts(writer, &[Part::Text(b" none\n")]),
        Some(jitter) => put_parts(
            writer,
            &[
                Part::Text(b" jitter "),
                Part::Number(jitter),
                Part::Text(b"\n"),
            ],
        ),
    }
}

/// Writes the beginning of the line of the jitter that a stream may have.
fn put_slack_head<W: Write>(writer: &mut W, id: u64) -> Result<(), WriteFault>
    ensures { Writes result (W.contents writer.old) (W.contents writer.new) (slack_head id) }
{
    put_parts(
        writer,
        &[Part::Text(b"slack "), Part::Number(u128::from(id))],
    )
}

/// Writes the line of the jitter that a stream of this id may have.
fn put_slack<W: Write>(writer: &mut W, id: u64, slack: Option<u128>) -> Result<(), WriteFault>
    ensures { Writes result (W.contents writer.old) (W.contents writer.new)
        (slack_head id ++ slack_end slack) }
{
    put_slack_head(writer, id)?;
    put_slack_end(writer, slack)
}

/// Writes that line where it is asked, of a stream with a deadline.
fn put_asked_slack<W: Write>(
    writer: &mut W,
    asked: bool,
    stream: &Stream,
    slack: Option<u128>,
) -> Result<(), WriteFault>
    ensures { Writes result (W.contents writer.old) (W.contents writer.new)
        (slack_line asked stream.now.first_id stream.now.deadline slack) }
{
    match stream.deadline {
        Some(_) if asked => put_slack(writer, stream.first_id, slack),
        _ => put_parts(writer, &[]),
    }
}

/// Writes the line that says what the greatest wait of a stream of this id is made of.
fn put_shares<W: Write>(writer: &mut W, id: u64, shares: Shares) -> Result<(), WriteFault>
    ensures { Writes result (W.contents writer.old) (W.contents writer.new)
        (shares_line id shares) }
{
    put_parts(
        writer,
        &[
            Part::Text(b"why "),
            Part::Number(u128::from(id)),
            Part::Text(b" gates "),
            Part::Number(shares.gates),
            Part::Text(b" blocking "),
            Part::Number(shares.blocking),
            Part::Text(b" higher "),
            Part::Number(shares.higher),
            Part::Text(b" queue "),
            Part::Number(shares.queue),
            Part::Text(b"\n"),
        ],
    )
}

/// Writes that line where there is one.
fn put_why<W: Write>(writer: &mut W, id: u64, shares: Option<Shares>) -> Result<(), WriteFault>
    ensures { Writes result (W.contents writer.old) (W.contents writer.new) (why_line id shares) }
{
    match shares {
        Some(shares) => put_shares(writer, id, shares),
        None => put_parts(writer, &[]),
    }
}

/// Writes what is told beside the bounds of a stream.
fn put_extra<W: Write>(
    writer: &mut W,
    asked: bool,
    stream: &Stream,
    extra: Extra,
) -> Result<(), WriteFault>
    ensures { Writes result (W.contents writer.old) (W.contents writer.new)
        (extra_lines asked stream.now extra) }
{
    put_asked_slack(writer, asked, stream, extra.slack)?;
    put_why(writer, stream.first_id, extra.shares)
}

/// Writes all lines of a stream.
fn put_told<W: Write>(
    writer: &mut W,
    asked: bool,
    needs: Needs,
    stream: &Stream,
    told: Told,
) -> Result<(), WriteFault>
    ensures { Writes result (W.contents writer.old) (W.contents writer.new)
        (stream_text asked needs stream.now told.delay told.extra) }
{
    put_stream(writer, needs, stream, told.delay)?;
    put_extra(writer, asked, stream, told.extra)
}

/// Writes the lines of streams, and answers the first finding among them.
pub fn put_streams<W: Write>(
    writer: &mut W,
    settings: &BoundsSettings,
    change: &Change,
    answers: &mut Answers,
    streams: &[Stream],
) -> Result<Option<Finding>, WriteFault>
    ensures lines { Writes result (W.contents writer.old) (W.contents writer.new)
        (bound_lines settings.now change.now answers.old streams.now) }
    ensures finding { IfOk result
        (λ finding. finding ≡ finding_in settings.now change.now answers.old streams.now) }
{
    let mut first = None;
    for stream in streams {
        let needs = needs_of(settings.port.rate(), stream);
        let told = next_told(settings, change, answers, stream);
        put_told(writer, settings.slack, needs, stream, told)?;
        first = first_of(first, stream_finding(needs, stream, told.delay));
    }
    Ok(first)
}
