//! Any two moments of a line.

ghost use Rattle.std.specs.Prelude.{◌≡◌, ◌≤◌, ◌+◌, ◌++◌, codes, length, decimal};
ghost use Rattle.text.specs.Placed.{Placed};
ghost use Rattle.port_text.specs.declared.answer_text.span.TheConstants.{SPAN_ROOM};

use text::decimal_text::{put_number, put_text};

/// The octets that two moments have to have room for.
pub(crate) const SPAN_ROOM: usize = 85;

/// Puts the moment of a start, ` end ` and the moment of its end at a place, and answers where they end. Both are in
/// picoseconds.
pub(crate) fn put_span(first: u128, second: u128, line: &mut [u8], at: usize) -> usize
    requires { at + SPAN_ROOM ≤ length line.old }
    ensures text { Placed line.old line.new at
        (decimal first ++ (codes " end " ++ decimal second)) result }
    ensures end { result ≤ at + SPAN_ROOM }
{
    let middle = put_number(first, line, at);
    let middle = put_text(b" end ", line, middle);
    put_number(second, line, middle)
}
