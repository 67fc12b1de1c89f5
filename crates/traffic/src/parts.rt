//! What may stand at the end of a stream's line: `tagged`, and then the parts that have a value, in any order.

ghost use Rattle.std.specs.Prelude.{◌≡◌, ◌≤◌, ◌^◌, ◌-◌, IfOk, IfSome, MatchOption, None, Some};
ghost use Rattle.traffic.specs.Words.{are_parts, ends_in, greatest_moment, is_part, length_of, said_by, tagged_in, time_of, value_of, values_in, words_left};
ghost use Rattle.text.specs.Numbers.{number_in};
ghost use Rattle.text.specs.Times.{time_in};

use script::ScriptFault;
use text::times::time;
use text::words::{Words, number};
use wire_time::MAX_MOMENT;

/// What a stream's line says at its end.
#[derive(Clone, Copy, Debug, PartialEq, Eq)]
pub(crate) struct Ends {
    /// Whether the frames are tagged.
    pub tagged: bool,
    /// Octets of the shortest frame, where they are said.
    pub shortest: Option<u32>,
    /// By how much a frame may come later, in picoseconds, where it is said.
    pub jitter: Option<u128>,
    /// How long after its arrival a frame is to have left, in picoseconds, where it is said.
    pub deadline: Option<u128>,
}

/// Whether a word is the name of a part.
fn is_part(word: &[u8]) -> bool
    ensures { result ≡ is_part word.now }
{
    word == b"shortest".as_slice() || word == b"jitter".as_slice() || word == b"deadline".as_slice()
}

/// The value of the first part of this name, if there is one.
fn value_of<'a>(mut words: Words<'a>, name: &[u8]) -> Option<&'a [u8]>
    ensures { MatchOption result (value_of name.now (words_left words.entry) ≡ None)
        (λ value. value_of name.now (words_left words.entry) ≡ Some value.now) }
{
    'parts: while let Some(word) = words.next_word() {
        let Some(value) = words.next_word() else {
            return None;
        };
        if word == name {
            return Some(value);
        }
    }
    None
}

/// Whether words are parts: each a name and a value, and no name twice.
fn are_parts(mut words: Words<'_>) -> bool
    ensures { result ≡ are_parts (words_left words.entry) }
{
    'parts: while let Some(word) = words.next_word() {
        let Some(_) = words.next_word() else {
            return false;
        };
        if !is_part(word) {
            return false;
        }
        if value_of(words, word).is_some() {
            return false;
        }
    }
    true
}

/// The octets that the part of this name says, if there is one.
fn length_of(words: Words<'_>, name: &[u8]) -> Result<Option<u32>, ScriptFault>
    ensures { result ≡ length_of name.now (words_left words.entry) }
{
    let Some(word) = value_of(words, name) else {
        return Ok(None);
    };
    match number(word, u128::from(u32::MAX)) {
        Some(octets) => Ok(Some(octets as u32)),
        None => Err(ScriptFault::BadNumber),
    }
}

/// The time that the part of this name says, if there is one, in picoseconds.
fn time_of(words: Words<'_>, name: &[u8]) -> Result<Option<u128>, ScriptFault>
    ensures said { result ≡ time_of name.now (words_left words.entry) }
    ensures within { IfOk result (λ said. IfSome said (λ time. time ≤ greatest_moment)) }
{
    let Some(word) = value_of(words, name) else {
        return Ok(None);
    };
    match time(word, MAX_MOMENT) {
        Some(time) => Ok(Some(time)),
        None => Err(ScriptFault::BadNumber),
    }
}

/// What parts say.
fn values_in(tagged: bool, words: Words<'_>) -> Result<Ends, ScriptFault>
    ensures said { result ≡ values_in tagged (words_left words.entry) }
    ensures within { IfOk result (λ ends. IfSome ends.jitter (λ time. time ≤ greatest_moment)) }
{
    let shortest = length_of(words, b"shortest")?;
    let jitter = time_of(words, b"jitter")?;
    let deadline = time_of(words, b"deadline")?;
    Ok(Ends {
        tagged,
        shortest,
        jitter,
        deadline,
    })
}

/// Goes past the word `tagged`, if it comes next.
fn take_tagged(words: &mut Words<'_>) -> bool
    ensures tagged { result ≡ (tagged_in (words_left words.old)).0 }
    ensures parts { words_left words.new ≡ (tagged_in (words_left words.old)).1 }
{
    let mut after = *words;
    match after.next_word() {
        Some(word) if word == b"tagged".as_slice() => {
            *words = after;
            true
        }
        _ => false,
    }
}

/// What the last words of a line say: `tagged` or nothing, and then parts.
pub(crate) fn ends_in(mut words: Words<'_>) -> Result<Ends, ScriptFault>
    ensures said { result ≡ ends_in (words_left words.entry) }
    ensures within { IfOk result (λ ends. IfSome ends.jitter (λ time. time ≤ greatest_moment)) }
{
    let tagged = take_tagged(&mut words);
    if !are_parts(words) {
        return Err(ScriptFault::WordCount);
    }
    values_in(tagged, words)
}
