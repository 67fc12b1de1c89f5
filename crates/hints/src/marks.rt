//! A line with a word marked.

use arrayvec::ArrayVec;
use std::io::Write;
use text::octet_writer::{WriteFault, put};
use text::words::Words;

/// How many octets of a line are shown at most.
const WIDTH: usize = 100;

/// How many octets are shown before the word at most.
const BEFORE: usize = 60;

/// How many octets a row has at most: what is shown, and what stands before it.
const ROW: usize = 120;

/// Where a word stands in a line.
#[derive(Clone, Copy, Debug, PartialEq, Eq)]
pub(crate) struct Span {
    /// Where it begins.
    pub start: usize,
    /// Where it ends.
    pub end: usize,
}

/// What helps with a line.
#[derive(Clone, Copy, Debug)]
pub(crate) struct Hint {
    /// The word that is marked, if one is.
    pub span: Option<Span>,
    /// What was expected.
    pub expected: &'static [u8],
    /// The word that was perhaps meant.
    pub meant: Option<&'static [u8]>,
}

impl Hint {
    /// What was expected, where no word is marked.
    pub fn plain(expected: &'static [u8]) -> Hint {
        Hint {
            span: None,
            expected,
            meant: None,
        }
    }

    /// What was expected in the place of a word.
    pub fn marked(span: Option<Span>, expected: &'static [u8]) -> Hint {
        Hint {
            span,
            expected,
            meant: None,
        }
    }
}

/// Where the word stands that was read last.
pub(crate) fn span_of(line: &[u8], words: &Words<'_>, word: &[u8]) -> Span {
    let end = line.len().saturating_sub(words.octets().len());
    Span {
        start: end.saturating_sub(word.len()),
        end,
    }
}

/// Where the word of a place stands, counted from 0.
pub(crate) fn span_at(line: &[u8], place: usize) -> Option<Span> {
    let mut words = Words::new(line);
    for _ in 0..place {
        words.next_word()?;
    }
    let word = words.next_word()?;
    Some(span_of(line, &words, word))
}

/// The word of a place, counted from 0.
pub(crate) fn word_at(line: &[u8], place: usize) -> Option<&[u8]> {
    let mut words = Words::new(line);
    for _ in 0..place {
        words.next_word()?;
    }
    words.next_word()
}

/// The end of a line, where a word is missing.
pub(crate) fn span_behind(line: &[u8]) -> Span {
    Span {
        start: line.len(),
        end: line.len(),
    }
}

/// An octet as it is shown.
fn shown(octet: u8) -> u8 {
    match octet {
        b'\t' | b'\n' | b'\r' => b' ',
        b' '..=b'~' => octet,
        _ => b'?',
    }
}

/// A row that begins as each row of a hint does.
fn new_row() -> ArrayVec<u8, ROW> {
    let mut row = ArrayVec::new();
    let _ = row.try_extend_from_slice(b"    ");
    row
}

/// The octets of a line from a place on.
fn put_shown<W: Write>(writer: &mut W, line: &[u8], from: usize) -> Result<(), WriteFault> {
    let mut row = new_row();
    let mut first = from;
    if from > 0 {
        let _ = row.try_extend_from_slice(b"..");
        first = from.saturating_add(2);
    }
    for octet in line.iter().skip(first).take(WIDTH) {
        let _ = row.try_push(shown(*octet));
    }
    let _ = row.try_push(b'\n');
    put(writer, row.as_slice())
}

/// The marks under a word of a line that is shown from a place on.
fn put_marks<W: Write>(writer: &mut W, span: Span, from: usize) -> Result<(), WriteFault> {
    let mut row = new_row();
    for _ in from..span.start {
        let _ = row.try_push(b' ');
    }
    let end = span.end.max(span.start.saturating_add(1));
    for _ in span.start..end.min(from.saturating_add(WIDTH)) {
        let _ = row.try_push(b'^');
    }
    let _ = row.try_push(b'\n');
    put(writer, row.as_slice())
}

/// Writes the line with the word marked, if one is.
fn put_line<W: Write>(writer: &mut W, line: &[u8], span: Option<Span>) -> Result<(), WriteFault> {
    let Some(span) = span else {
        return put_shown(writer, line, 0);
    };
    let from = span.start.saturating_sub(BEFORE);
    put_shown(writer, line, from)?;
    put_marks(writer, span, from)
}

/// Writes the line, unless it is empty, and what helps with it.
pub(crate) fn put_hint<W: Write>(
    writer: &mut W,
    line: &[u8],
    hint: Hint,
) -> Result<(), WriteFault> {
    if !line.is_empty() {
        put_line(writer, line, hint.span)?;
    }
    put(writer, b"    ")?;
    put(writer, hint.expected)?;
    if let Some(meant) = hint.meant {
        put(writer, b"; perhaps: ")?;
        put(writer, meant)?;
    }
    put(writer, b"\n")
}
