//! What the lines of a table of streams say.

ghost use Rattle.std.specs.Prelude.{◌≡◌, ◌≤◌, IfSome, IfOk};
ghost use Rattle.traffic.specs.Words.{earliest, greatest_moment, has_ids, line_said, offset_in, shortest_of, stream_alert, stream_in_words, stream_said, words_left, words_of, IsSaid};

use crate::parts::{Ends, ends_in};
use script::{ScriptFault, Watch};
use text::times::time;
use text::words::{Words, number};
use wire_time::MAX_MOMENT;

/// Frames of one kind that come by a period.
#[derive(Clone, Copy, Debug, PartialEq, Eq)]
pub struct Stream {
    /// The id of the first frame; each further one has the next.
    pub first_id: u64,
    /// The priority of the frames: 0 to 15 have a class.
    pub priority: u8,
    /// Octets of a frame, of the longest, from the destination address to the end of the payload, without the frame
    /// check sequence.
    pub len: u32,
    /// Octets of the shortest, at most those of the longest.
    pub shortest: u32,
    /// From one frame to the next, in picoseconds.
    pub period: u128,
    /// The earliest moment of the first frame, in picoseconds; each further one has its own a period later. None
    /// where nothing is known of when frames come, but how close together they do: n of them span at least n - 1
    /// periods without the jitter.
    pub offset: Option<u128>,
    /// By how much a frame may come later than its earliest moment, in picoseconds.
    pub jitter: u128,
    /// How many frames come.
    pub count: u32,
    /// Whether the frames have a customer VLAN tag.
    pub tagged: bool,
    /// How long after its arrival a frame is to have left, in picoseconds, where that is said.
    pub deadline: Option<u128>,
}

/// The earliest moment of the first frame of a stream, in picoseconds; 0 where it isn't known.
pub fn earliest(stream: &Stream) -> u128
    ensures { result ≡ earliest stream.now }
{
    stream.offset.unwrap_or(0)
}

/// Whether the ids of a stream's frames are all less than 2^64.
pub fn has_ids(stream: &Stream) -> bool
    ensures { result ≡ has_ids stream.now }
{
    u128::from(stream.first_id) + u128::from(stream.count) <= 1 << 64
}

/// The words of a stream's line after the first, without those at its end that may be left out.
#[derive(Clone, Copy)]
struct StreamWords<'a> {
    id: &'a [u8],
    priority: &'a [u8],
    len: &'a [u8],
    period: &'a [u8],
    offset: &'a [u8],
    count: &'a [u8],
}

/// The moment that a word says, in picoseconds; None for `any`.
fn offset_in(word: &[u8]) -> Result<Option<u128>, ScriptFault>
    ensures said { result ≡ offset_in word.now }
    ensures within { IfOk result (λ offset. IfSome offset (λ moment. moment ≤ greatest_moment)) }
{
    if word == b"any".as_slice() {
        return Ok(None);
    }
    match time(word, MAX_MOMENT) {
        Some(moment) => Ok(Some(moment)),
        None => Err(ScriptFault::BadNumber),
    }
}

/// Octets of the shortest frame, where the longest has so many; or none where that is shorter.
fn shortest_of(said: Option<u32>, len: u32) -> Option<u32>
    ensures { result ≡ shortest_of said len }
{
    let shortest = said.unwrap_or(len);
    if shortest > len {
        return None;
    }
    Some(shortest)
}

/// The stream that words say.
fn stream_in_words(words: &StreamWords<'_>, ends: Ends) -> Result<Stream, ScriptFault>
    requires { IfSome ends.jitter (λ time. time ≤ greatest_moment) }
    ensures fits { IfOk result IsSaid }
    ensures said { result
        ≡ stream_in_words words.now.id.now words.now.priority.now words.now.len.now
        words.now.period.now words.now.offset.now words.now.count.now ends }
{
    let Some(id) = number(words.id, u128::from(u64::MAX)) else {
        return Err(ScriptFault::BadNumber);
    };
    let Some(priority) = number(words.priority, u128::from(u8::MAX)) else {
        return Err(ScriptFault::BadNumber);
    };
    let Some(len) = number(words.len, u128::from(u32::MAX)) else {
        return Err(ScriptFault::BadNumber);
    };
    let Some(period) = time(words.period, MAX_MOMENT) else {
        return Err(ScriptFault::BadNumber);
    };
    let offset = offset_in(words.offset)?;
    let Some(count) = number(words.count, u128::from(u32::MAX)) else {
        return Err(ScriptFault::BadNumber);
    };
    let Some(shortest) = shortest_of(ends.shortest, len as u32) else {
        return Err(ScriptFault::BadNumber);
    };
    Ok(Stream {
        first_id: id as u64,
        priority: priority as u8,
        len: len as u32,
        shortest,
        period,
        offset,
        jitter: ends.jitter.unwrap_or(0),
        count: count as u32,
        tagged: ends.tagged,
        deadline: ends.deadline,
    })
}

/// The stream that the words after the first say.
fn read_stream(mut words: Words<'_>) -> Result<Stream, ScriptFault>
    ensures said { result ≡ stream_said (words_left words.entry) }
    ensures fits { IfOk result IsSaid }
{
    let Some(id) = words.next_word() else {
        return Err(ScriptFault::WordCount);
    };
    let Some(priority) = words.next_word() else {
        return Err(ScriptFault::WordCount);
    };
    let Some(len) = words.next_word() else {
        return Err(ScriptFault::WordCount);
    };
    let Some(period) = words.next_word() else {
        return Err(ScriptFault::WordCount);
    };
    let Some(offset) = words.next_word() else {
        return Err(ScriptFault::WordCount);
    };
    let Some(count) = words.next_word() else {
        return Err(ScriptFault::WordCount);
    };
    let ends = ends_in(words)?;
    stream_in_words(
        &StreamWords {
            id,
            priority,
            len,
            period,
            offset,
            count,
        },
        ends,
    )
}

/// What a line of a table says, or None where it is skipped: it has no words, or is a comment. How many frames come is
/// not judged.
pub fn read_stream_line(line: &[u8]) -> Result<Option<Stream>, ScriptFault>
    ensures said { result ≡ line_said (words_of line.now) }
    ensures fits { IfOk result (λ said. IfSome said IsSaid) }
{
    let mut words = Words::new(line);
    let Some(first) = words.next_word() else {
        return Ok(None);
    };
    if let [b'#', ..] = first {
        return Ok(None);
    }
    if first == b"stream".as_slice() {
        Ok(Some(read_stream(words)?))
    } else {
        Err(ScriptFault::UnknownLine)
    }
}

/// Calls who watches for a stream, which the line of this number is.
pub fn tell_stream<H: Watch>(number: u32, stream: &Stream, watch: &mut H)
    ensures { H.alerted (stream_alert number stream.now) watch.old watch.new }
{
    let has_deadline = stream.deadline.is_some();
    watch.stream_read(number, stream.first_id, stream.count, has_deadline);
}
