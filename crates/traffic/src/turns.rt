//! The frames of all streams, one after another by moment.

ghost use Rattle.std.specs.Prelude.{◌≡◌, ◌∷◌, [], MatchOption};
ghost use Rattle.traffic.specs.Words.{IsTournament, frames_before, frames_from, left_of_all};

use crate::course::Coming;
use crate::tournament::{Head, Node, first, follow};
use crate::turn::Turn;

/// Takes the frame that comes next of all streams, if there is one; at one moment that of the first stream in the
/// table.
pub fn next_frame(turns: &mut [Turn], nodes: &mut [Node]) -> Option<Coming>
    requires tournament { IsTournament turns.old nodes.old }
    ensures tournament { IsTournament turns.new nodes.new }
    ensures left { MatchOption result (left_of_all turns.old ≡ [])
        (λ f. left_of_all turns.old ≡ f ∷ left_of_all turns.new) }
{
    let Head { place, .. } = first(nodes, turns)?;
    let coming = turns[place].take();
    follow(nodes, turns, place);
    coming
}

/// Takes the frame that `next_frame` would take, if it comes before a moment.
pub(crate) fn next_before(turns: &mut [Turn], nodes: &mut [Node], end: u128) -> Option<Coming>
    requires tournament { IsTournament turns.old nodes.old }
    ensures tournament { IsTournament turns.new nodes.new }
    ensures before { MatchOption result (frames_before end (left_of_all turns.old) ≡ [])
        (λ f. frames_before end (left_of_all turns.old)
        ≡ f ∷ frames_before end (left_of_all turns.new)) }
    ensures others { MatchOption result
        (frames_from end (left_of_all turns.old) ≡ left_of_all turns.new)
        (λ f. frames_from end (left_of_all turns.old) ≡ frames_from end (left_of_all turns.new)) }
{
    let Head { moment, place } = first(nodes, turns)?;
    if moment >= end {
        return None;
    }
    let coming = turns[place].take();
    follow(nodes, turns, place);
    coming
}
