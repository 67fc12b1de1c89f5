//! What the lines of a script say.

ghost use Rattle.std.specs.Prelude.{◌≡◌, ◌<◌, ◌^◌, ◌-◌, ℕ, List, Result, Some, Ok, IfSome};
ghost use Rattle.script.specs.Words.{Command, Arrive, Clock, TcFault, words_of, words_left, clock_event, count_event, frame_event, frame_with, query_event, said_in, tag_in, IsReader};

use crate::faults::ScriptFault;
use crate::fronts::{behind_clock, behind_frame};
use abstract_port::{Command, Event};
use port_text::tc_reader::laws::one_reading;
use port_text::tc_reader::{CommandPlace, TcFault, read_command, read_command_into};
use text::words::Words;
use wire_time::{Frame, MAX_MOMENT};

/// What a line says. A line that begins with `tc` is read where it is answered: a command takes two kilobytes, and
/// would make each value of this type as large.
#[derive(Clone, Copy, Debug, PartialEq, Eq)]
pub enum Said {
    /// An event, which is no command.
    Asked(Event<'static>),
    /// The line begins with `tc`.
    Tc,
}

/// A moment as most lines have it.
#[inline]
fn plain_clock(mut words: Words<'_>) -> Option<u128>
    ensures { IfSome result (λ moment. clock_event (words_left words.entry) ≡ Ok (Clock moment)) }
{
    let moment = words.next_plain()?;
    if moment > MAX_MOMENT || !words.octets().is_empty() {
        return None;
    }
    Some(moment)
}

/// A clock line that is written otherwise. A function of its own, since it is seldom called.
#[inline(never)]
fn read_any_clock(mut words: Words<'_>) -> Result<Event<'static>, ScriptFault>
    ensures { result ≡ clock_event (words_left words.entry) }
{
    let Some(moment) = words.next_number(u128::MAX) else {
        return Err(ScriptFault::WordCount);
    };
    if words.next_word().is_some() {
        return Err(ScriptFault::WordCount);
    }
    match moment {
        None => Err(ScriptFault::BadNumber),
        Some(moment) if moment > MAX_MOMENT => Err(ScriptFault::ClockTooLate),
        Some(moment) => Ok(Event::Clock(moment)),
    }
}

fn read_clock(words: Words<'_>) -> Result<Event<'static>, ScriptFault>
    ensures { result ≡ clock_event (words_left words.entry) }
{
    match plain_clock(words) {
        Some(moment) => Ok(Event::Clock(moment)),
        None => read_any_clock(words),
    }
}

fn frame_of(
    id: Option<u128>,
    priority: Option<u128>,
    len: Option<u128>,
    tagged: bool,
) -> Result<Event<'static>, ScriptFault>
    requires id { IfSome id (λ n. n < 2 ^ 64) }
    requires priority { IfSome priority (λ n. n < 2 ^ 8) }
    requires len { IfSome len (λ n. n < 2 ^ 32) }
    ensures { result ≡ frame_with id priority len tagged }
{
    let (Some(id), Some(priority), Some(len)) = (id, priority, len) else {
        return Err(ScriptFault::BadNumber);
    };
    Ok(Event::Arrive(Frame {
        id: id as u64,
        priority: priority as u8,
        len: len as u32,
        tagged,
    }))
}

/// Whether a frame is tagged, where what comes after its numbers is as most lines have it.
#[inline]
fn plain_tag(octets: &[u8]) -> Option<bool>
    ensures { IfSome result (λ tagged. tag_in (words_of octets.now) ≡ Some tagged) }
{
    match octets {
        [] | [b'\r'] => Some(false),
        [b' ', b't', b'a', b'g', b'g', b'e', b'd'] => Some(true),
        _ => None,
    }
}

/// A frame as most lines have it.
#[inline]
fn plain_frame(mut words: Words<'_>) -> Option<Frame>
    ensures { IfSome result (λ frame. frame_event (words_left words.entry) ≡ Ok (Arrive frame)) }
{
    let id = words.next_short()?;
    let priority = words.next_short()?;
    let len = words.next_short()?;
    let tagged = plain_tag(words.octets())?;
    if priority > u64::from(u8::MAX) || len > u64::from(u32::MAX) {
        return None;
    }
    Some(Frame {
        id,
        priority: priority as u8,
        len: len as u32,
        tagged,
    })
}

/// Whether a frame is tagged, by the words after its numbers.
fn read_tag(mut words: Words<'_>) -> Option<bool>
    ensures { result ≡ tag_in (words_left words.entry) }
{
    let Some(tag) = words.next_word() else {
        return Some(false);
    };
    if words.next_word().is_some() || tag != b"tagged".as_slice() {
        return None;
    }
    Some(true)
}

/// A frame that is written otherwise. Apart, since it is seldom.
#[inline(never)]
fn read_any_frame(mut words: Words<'_>) -> Result<Event<'static>, ScriptFault>
    ensures { result ≡ frame_event (words_left words.entry) }
{
    let Some(id) = words.next_number(u128::from(u64::MAX)) else {
        return Err(ScriptFault::WordCount);
    };
    let Some(priority) = words.next_number(u128::from(u8::MAX)) else {
        return Err(ScriptFault::WordCount);
    };
    let Some(len) = words.next_number(u128::from(u32::MAX)) else {
        return Err(ScriptFault::WordCount);
    };
    let Some(tagged) = read_tag(words) else {
        return Err(ScriptFault::WordCount);
    };
    frame_of(id, priority, len, tagged)
}

fn read_frame(words: Words<'_>) -> Result<Event<'static>, ScriptFault>
    ensures { result ≡ frame_event (words_left words.entry) }
{
    match plain_frame(words) {
        Some(frame) => Ok(Event::Arrive(frame)),
        None => read_any_frame(words),
    }
}

fn read_query(mut words: Words<'_>) -> Result<Event<'static>, ScriptFault>
    ensures { result ≡ query_event (words_left words.entry) }
{
    match words.next_word() {
        None => Ok(Event::Query),
        Some(_) => Err(ScriptFault::WordCount),
    }
}

fn read_count(mut words: Words<'_>) -> Result<Event<'static>, ScriptFault>
    ensures { result ≡ count_event (words_left words.entry) }
{
    let Some(class) = words.next_number(7) else {
        return Err(ScriptFault::WordCount);
    };
    if words.next_word().is_some() {
        return Err(ScriptFault::WordCount);
    }
    match class {
        None => Err(ScriptFault::BadNumber),
        Some(class) => Ok(Event::Count(class as u8)),
    }
}

/// The command that a line is, or its first fault.
pub fn read_tc(line: &[u8]) -> Result<Command, TcFault>
    ensures { (read : List (List ℕ) → Result Command TcFault) → IsReader read →
        result ≡ read (words_of line.now) }
{
    one_reading();
    read_command(line)
}

/// Puts the command that a line is, or its first fault, in place of another answer.
pub fn read_tc_into(line: &[u8], place: &mut CommandPlace)
    ensures { (read : List (List ℕ) → Result Command TcFault) → IsReader read →
        place.new.answer ≡ read (words_of line.now) }
{
    one_reading();
    read_command_into(line, place);
}

/// What a line says, whatever its first words and blanks are.
fn read_any_line(line: &[u8]) -> Result<Option<Said>, ScriptFault>
    ensures { result ≡ said_in line.now }
{
    let mut words = Words::new(line);
    let Some(first) = words.next_word() else {
        return Ok(None);
    };
    if let [b'#', ..] = first {
        return Ok(None);
    }
    let event = if first == b"clock".as_slice() {
        read_any_clock(words)?
    } else if first == b"frame".as_slice() {
        read_any_frame(words)?
    } else if first == b"query".as_slice() {
        read_query(words)?
    } else if first == b"count".as_slice() {
        read_count(words)?
    } else if first == b"tc".as_slice() {
        return Ok(Some(Said::Tc));
    } else {
        return Err(ScriptFault::UnknownLine);
    };
    Ok(Some(Said::Asked(event)))
}

/// What a line says, or None where it is skipped: it has no words, or is a comment.
pub fn read_line(line: &[u8]) -> Result<Option<Said>, ScriptFault>
    ensures { result ≡ said_in line.now }
{
    // Most lines. The tests of their first octets are apart, so that the compiler takes what comes after them for
    // likely.
    if let Some(rest) = behind_frame(line) {
        return Ok(Some(Said::Asked(read_frame(Words::new(rest))?)));
    }
    if let Some(rest) = behind_clock(line) {
        return Ok(Some(Said::Asked(read_clock(Words::new(rest))?)));
    }
    match line {
        [b't', b'c', b' ', ..] => Ok(Some(Said::Tc)),
        [b'q', b'u', b'e', b'r', b'y'] => Ok(Some(Said::Asked(Event::Query))),
        [b'c', b'o', b'u', b'n', b't', b' ', rest @ ..] => {
            Ok(Some(Said::Asked(read_count(Words::new(rest))?)))
        }
        _ => read_any_line(line),
    }
}
