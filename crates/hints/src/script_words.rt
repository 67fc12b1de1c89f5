//! The words of the lines of scripts and tables.

use crate::marks::{Hint, Span, span_at, span_behind, span_of, word_at};
use crate::near::nearest;
use crate::shell_words::pasted_front;
use text::times::time;
use text::words::{Words, number};
use wire_time::MAX_MOMENT;

/// A word with a limit.
#[derive(Clone, Copy)]
struct Role {
    /// The greatest number that it may say.
    most: u128,
    /// Whether it is a time with its unit.
    is_time: bool,
    /// A word that may stand in the place of a number; none where that is empty.
    or_word: &'static [u8],
    /// What it is.
    text: &'static [u8],
}

const ID: Role = Role {
    most: 0xffff_ffff_ffff_ffff,
    is_time: false,
    or_word: b"",
    text: b"ID is a whole number from 0 to 18446744073709551615",
};

const PRIORITY: Role = Role {
    most: 255,
    is_time: false,
    or_word: b"",
    text: b"PRIORITY is a whole number from 0 to 255",
};

const LEN: Role = Role {
    most: 0xffff_ffff,
    is_time: false,
    or_word: b"",
    text: b"LEN is a whole number of octets from 0 to 4294967295",
};

const COUNT: Role = Role {
    most: 0xffff_ffff,
    is_time: false,
    or_word: b"",
    text: b"COUNT is a whole number from 0 to 4294967295",
};

const CLASS: Role = Role {
    most: 7,
    is_time: false,
    or_word: b"",
    text: b"CLASS is a whole number from 0 to 7",
};

const MOMENT: Role = Role {
    most: 0xffff_ffff_ffff_ffff_ffff_ffff_ffff_ffff,
    is_time: false,
    or_word: b"",
    text: b"MOMENT is a whole number of picoseconds, without a unit",
};

const PERIOD: Role = Role {
    most: MAX_MOMENT,
    is_time: true,
    or_word: b"",
    text: b"PERIOD is a number with its unit: ps, ns, us, ms or s, such as 250us",
};

const OFFSET: Role = Role {
    most: MAX_MOMENT,
    is_time: true,
    or_word: b"any",
    text: b"OFFSET is any, or a number with its unit: ps, ns, us, ms or s, such as 12.5us",
};

const SHORTEST: Role = Role {
    most: 0xffff_ffff,
    is_time: false,
    or_word: b"",
    text: b"the shortest LEN is a whole number of octets, at most LEN",
};

const TIME: Role = Role {
    most: MAX_MOMENT,
    is_time: true,
    or_word: b"",
    text: b"TIME is a number with its unit: ps, ns, us, ms or s, such as 5us",
};

/// The words of a line after its first.
const FRAME: [Role; 3] = [ID, PRIORITY, LEN];

const STREAM: [Role; 6] = [ID, PRIORITY, LEN, PERIOD, OFFSET, COUNT];

const CLOCK: [Role; 1] = [MOMENT];

const COUNT_LINE: [Role; 1] = [CLASS];

const CLOCKS: [Role; 1] = [TIME];

const NONE: [Role; 0] = [];

/// The first words of the lines of scripts.
const SCRIPT_LINES: [&[u8]; 5] = [b"clock", b"frame", b"query", b"count", b"tc"];

/// The first word of the lines of tables.
const TABLE_LINES: [&[u8]; 1] = [b"stream"];

/// The first words of the lines of networks.
const NETWORK_LINES: [&[u8]; 4] = [b"port", b"link", b"clocks", b"stream"];

/// The words of a line of this kind.
fn roles_of(kind: &[u8]) -> &'static [Role] {
    match kind {
        b"frame" => &FRAME,
        b"stream" => &STREAM,
        b"clock" => &CLOCK,
        b"count" => &COUNT_LINE,
        b"clocks" => &CLOCKS,
        _ => &NONE,
    }
}

/// How a line of this kind is written.
fn form_of(kind: &[u8]) -> &'static [u8] {
    match kind {
        b"frame" => b"a frame line is: frame ID PRIORITY LEN [tagged]",
        b"stream" =>
            b"a stream line is: stream ID PRIORITY LEN PERIOD OFFSET COUNT [tagged] [shortest LEN] [jitter TIME] [deadline TIME]",
        b"clock" => b"a clock line is: clock MOMENT",
        b"count" => b"a count line is: count CLASS",
        b"port" => b"a port line is: port NAME [rate MBPS] [mtu OCTETS] [room FRAMES]",
        b"link" => b"a link line is: link FROM TO TIME [TIME]",
        b"clocks" => b"a clocks line is: clocks TIME",
        _ => b"a query line is: query",
    }
}

/// Whether a word is within the limits of its role.
fn fits(role: &Role, word: &[u8]) -> bool {
    if word == role.or_word {
        true
    } else if role.is_time {
        time(word, role.most).is_some()
    } else {
        number(word, role.most).is_some()
    }
}

/// A part that may stand at the end of a stream's line: a bit of its own, and its value.
fn part_of(name: &[u8]) -> Option<(u8, &'static Role)> {
    match name {
        b"shortest" => Some((1, &SHORTEST)),
        b"jitter" => Some((2, &TIME)),
        b"deadline" => Some((4, &TIME)),
        _ => None,
    }
}

/// The first value of the parts of a stream's line, from this word on, that doesn't fit its role; and what the role is.
fn first_bad_part<'a>(
    line: &'a [u8],
    mut words: Words<'a>,
    first: &'a [u8],
) -> Option<(Span, &'static [u8])> {
    let mut name = first;
    for _ in 0..3u8 {
        let (_, role) = part_of(name)?;
        let value = words.next_word()?;
        if !fits(role, value) {
            return Some((span_of(line, &words, value), role.text));
        }
        name = words.next_word()?;
    }
    None
}

/// The first word of a line that doesn't fit its role, and what the role is.
fn first_bad(line: &[u8]) -> Option<(Span, &'static [u8])> {
    let mut words = Words::new(line);
    let kind = words.next_word()?;
    for role in roles_of(kind) {
        let word = words.next_word()?;
        if !fits(role, word) {
            return Some((span_of(line, &words, word), role.text));
        }
    }
    let word = words.next_word()?;
    if word != b"tagged".as_slice() {
        return first_bad_part(line, words, word);
    }
    let word = words.next_word()?;
    first_bad_part(line, words, word)
}

/// What else is asked of the numbers of a line of this kind.
fn limits_of(kind: &[u8]) -> &'static [u8] {
    match kind {
        b"port" =>
            b"rate is one of Mb/s, as --rate has it; mtu is 68 to 9216 octets, and room 1 to 4096 frames",
        b"link" =>
            b"TIME is a number with its unit: ps, ns, us, ms or s, such as 5us; the second is at least the first",
        _ =>
            b"a PERIOD is more than 0, the shortest LEN at most LEN, and ID and COUNT at most 2^64 together; in a capture PRIORITY is at most 7, and a frame with a tag has 18 octets",
    }
}

/// What helps with a line that has a bad number.
pub(crate) fn bad_number(line: &[u8]) -> Hint {
    match first_bad(line) {
        Some((span, text)) => Hint::marked(Some(span), text),
        None => Hint::plain(limits_of(word_at(line, 0).unwrap_or(b""))),
    }
}

/// The first word of the parts of a stream's line, from this word on, that may not stand there.
fn first_odd_part<'a>(line: &'a [u8], mut words: Words<'a>, first: &'a [u8]) -> Option<Span> {
    let mut name = first;
    let mut seen = 0;
    for _ in 0..3u8 {
        if name == b"via".as_slice() {
            return None;
        }
        let Some((bit, _)) = part_of(name) else {
            return Some(span_of(line, &words, name));
        };
        if seen & bit != 0 {
            return Some(span_of(line, &words, name));
        }
        seen |= bit;
        words.next_word()?;
        name = words.next_word()?;
    }
    Some(span_of(line, &words, name))
}

/// The first word of a line that it may not have, where it has too many words.
fn first_left_over(line: &[u8]) -> Option<Span> {
    let mut words = Words::new(line);
    let kind = words.next_word()?;
    for _ in roles_of(kind) {
        words.next_word()?;
    }
    let mut word = words.next_word()?;
    if word == b"tagged".as_slice() {
        word = words.next_word()?;
    }
    if kind == b"stream".as_slice() {
        first_odd_part(line, words, word)
    } else {
        Some(span_of(line, &words, word))
    }
}

/// What helps with a line that has too few or too many words.
pub(crate) fn word_count(line: &[u8]) -> Hint {
    let kind = word_at(line, 0).unwrap_or(b"");
    let form = form_of(kind);
    if kind == b"port".as_slice() || kind == b"link".as_slice() {
        return Hint::plain(form);
    }
    match first_left_over(line) {
        Some(span) => Hint::marked(Some(span), form),
        None => Hint::marked(Some(span_behind(line)), form),
    }
}

/// What helps with a line whose first word is none that it may have.
pub(crate) fn unknown_line(line: &[u8], of_table: bool) -> Hint {
    let word = word_at(line, 0).unwrap_or(b"");
    let span = span_at(line, 0);
    if word == b"$".as_slice() || word == b"#".as_slice() {
        return Hint::marked(span, b"a prompt was pasted: leave it out");
    }
    if let Some(text) = pasted_front(line, word) {
        return Hint::marked(span, text);
    }
    if of_table {
        return Hint {
            span,
            expected: b"a line of a table begins with stream",
            meant: nearest(word, &TABLE_LINES),
        };
    }
    for known in &SCRIPT_LINES {
        if word == *known {
            return Hint::marked(
                span,
                b"this input has tc lines alone; check --script passes over the others",
            );
        }
    }
    Hint {
        span,
        expected: b"a line of a script begins with clock, frame, query, count or tc; for check and bounds with tc",
        meant: nearest(word, &SCRIPT_LINES),
    }
}

/// What helps with a line whose first word is none that a line of a network may have.
pub(crate) fn unknown_network_line(line: &[u8]) -> Hint {
    Hint {
        span: span_at(line, 0),
        expected: b"a line of a network begins with port, link, clocks or stream",
        meant: nearest(word_at(line, 0).unwrap_or(b""), &NETWORK_LINES),
    }
}
