//! The lines of a kept script, as their turn comes.

ghost use Rattle.std.specs.Prelude.{◌≡◌, ◌<◌, ◌+◌, ℕ, List, Result, IfSome, length};
ghost use Rattle.replay.specs.Words.{Command, GivesLine, IsKept, IsReader, TcFault, kept_clock};

use crate::cursor::Cursor;
use crate::kept_script::{KeptLine, KeptScript};
use std::alloc::Allocator;

/// The greatest clock number so far, this line's included.
fn kept_clock(clock: u128, line: KeptLine) -> u128
    ensures { result ≡ kept_clock clock line }
{
    match line {
        KeptLine::Clock(moment) => clock.max(moment),
        KeptLine::Query | KeptLine::Count(_) | KeptLine::Tc { .. } => clock,
    }
}

/// The next line of a kept script, where there is one up to a moment: the cursor goes past it.
#[inline(always)]
pub fn line_by<A: Allocator>(
    script: &KeptScript<A>,
    cursor: &mut Cursor,
    upto: u128,
) -> Option<KeptLine>
    ensures kept { IfSome result (IsKept script.now.octets.items) }
    ensures fewer { IfSome result
        (λ _. (cursor.new.at ≡ cursor.old.at + 1)
        × (cursor.old.at < length script.now.lines.items)) }
    ensures line { (read : List (List ℕ) → Result Command TcFault) → IsReader read →
        GivesLine read script.now upto result cursor.old cursor.new }
{
    let lines = script.lines.as_slice();
    if cursor.at >= lines.len() {
        return None;
    }
    let line = lines[cursor.at];
    let clock = kept_clock(cursor.clock, line);
    if clock > upto {
        return None;
    }
    cursor.clock = clock;
    cursor.at += 1;
    Some(line)
}
