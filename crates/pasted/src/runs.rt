//! Where a line ends among octets.

ghost use Rattle.std.specs.Prelude.{◌≡◌, ◌≤◌, ◌<◌, ◌+◌, ◌++◌, ◌∷◌, ℕ, List, [], length, take, MatchOption, IfSome, IsNone, None};
ghost use Rattle.text.specs.Script.{joins};
ghost use Rattle.pasted.specs.Lines.{ends_line};
ghost use Rattle.text.specs.declared.line_reader.lines.TheConstants.{MAX_LINE_OCTETS};
ghost use Rattle.pasted.specs.Reading.{EndsAt, GoesOn, IsLong, IsOpen, tail_after, tail_text};

use crate::tail::{LongRun, Tail};
use text::line_reader::MAX_LINE_OCTETS;

/// Whether a line feed after these octets joins the next physical line.
pub(crate) fn joins(octets: &[u8]) -> bool
    ensures { result ≡ joins octets.now }
{
    match octets {
        [.., b'\\'] | [.., b'\\', b'\r'] => true,
        _ => false,
    }
}

/// Whether an octet ends a line of these octets.
fn ends_line(is_whole: bool, line: &[u8], octet: u8) -> bool
    ensures { result ≡ ends_line is_whole line.now octet }
{
    if octet != b'\n' {
        return false;
    }
    if is_whole {
        return !joins(line);
    }
    true
}

/// Whether an octet ends a line that has these last two.
fn ends_tail(is_whole: bool, tail: Tail, octet: u8) -> bool
    ensures { result ≡ ends_line is_whole (tail_text tail) octet }
{
    ends_line(is_whole, &[tail.before, tail.last], octet)
}

/// The tail one octet on.
fn tail_after(tail: Tail, octet: u8) -> Tail
    ensures { result ≡ tail_after tail octet }
{
    Tail {
        before: tail.last,
        last: octet,
    }
}

/// How many octets the first line has before the line feed that ends it, where it ends among these.
pub(crate) fn line_end(is_whole: bool, octets: &[u8]) -> Option<usize>
    ensures line { MatchOption result (IsOpen is_whole octets.now) (EndsAt is_whole octets.now) }
    ensures within { IfSome result (λ n. n < length octets.now) }
{
    for (place, octet) in octets.iter().enumerate() {
        if ends_line(is_whole, &octets[..place], *octet) {
            return Some(place);
        }
    }
    None
}

/// How a long line goes on among octets.
pub(crate) fn long_run(is_whole: bool, tail: Tail, octets: &[u8]) -> LongRun
    ensures run { GoesOn is_whole tail octets.now result }
    ensures within { result.count ≤ length octets.now }
    ensures some { 0 < length octets.now → 0 < result.count }
{
    let mut last = tail;
    for (place, octet) in octets.iter().enumerate() {
        if ends_tail(is_whole, last, *octet) {
            return LongRun {
                count: place + 1,
                tail: last,
                has_ended: true,
            };
        }
        last = tail_after(last, *octet);
    }
    LongRun {
        count: octets.len(),
        tail: last,
        has_ended: false,
    }
}

/// The last two octets of a line that is longer than any that is read.
pub(crate) fn long_tail(octets: &[u8]) -> Option<Tail>
    ensures { MatchOption result (length octets.now ≤ MAX_LINE_OCTETS)
        (λ tail. (MAX_LINE_OCTETS < length octets.now) × IsLong octets.now tail) }
{
    let count = octets.len();
    if count <= MAX_LINE_OCTETS {
        return None;
    }
    Some(Tail {
        before: octets[count - 2],
        last: octets[count - 1],
    })
}
