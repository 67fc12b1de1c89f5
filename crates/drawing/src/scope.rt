//! The time that a picture covers, where no option says it.

ghost use Rattle.std.specs.Prelude.{◌≡◌};
ghost use Rattle.drawing.specs.Words.{frame_came, schedule_given, view_in};

use crate::options::SHORTEST;
use crate::view::View;
use wire_time::MAX_MOMENT;

/// What a run has had so far that a picture of it is to cover. Moments are in picoseconds.
#[derive(Clone, Copy, Debug, PartialEq, Eq)]
pub enum Scope {
    /// No frame, and no schedule.
    Nothing,
    /// No frame; the first schedule that comes into force, at this moment, with a cycle of so many picoseconds.
    Cycles {
        /// When it comes into force, unless a later command replaces it.
        change: u128,
        /// How long its cycle is.
        cycle: u128,
    },
    /// A frame, of which the first came at this moment.
    Frames(u128),
}

impl Scope {
    /// A frame comes at this moment.
    pub fn with_frame(self, now: u128) -> Scope
        ensures { result ≡ frame_came now self }
    {
        match self {
            Scope::Frames(first) => Scope::Frames(first),
            Scope::Nothing | Scope::Cycles { .. } => Scope::Frames(now),
        }
    }

    /// A command is accepted now, with its lead moment so long after: by it the schedule changes at a moment, to one
    /// with a cycle of so long, or to none.
    pub fn with_command(self, lead: u128, now: u128, change: u128, cycle: Option<u128>) -> Scope
        ensures { result ≡ schedule_given lead now change cycle self }
    {
        match self {
            Scope::Frames(first) => return Scope::Frames(first),
            Scope::Cycles {
                change: first,
                cycle: own,
            } => {
                if first.saturating_sub(lead) <= now {
                    return Scope::Cycles {
                        change: first,
                        cycle: own,
                    };
                }
            }
            Scope::Nothing => {}
        }
        match cycle {
            Some(cycle) => Scope::Cycles { change, cycle },
            None => Scope::Nothing,
        }
    }

    /// The time that the picture covers, as far as it is known: from the first frame on; without a frame two cycles of
    /// the first schedule, from the moment on at which it comes into force, where they end in time; else from moment 0
    /// on.
    pub fn view(self) -> View
        ensures { result ≡ view_in self }
    {
        match self {
            Scope::Nothing => {}
            Scope::Cycles { change, cycle } => {
                let to = change.saturating_add(cycle.saturating_mul(2));
                if to <= MAX_MOMENT {
                    return View {
                        from: change,
                        to: Some(to),
                    };
                }
            }
            Scope::Frames(first) => {
                return View {
                    from: first.min(MAX_MOMENT - SHORTEST),
                    to: None,
                };
            }
        }
        View { from: 0, to: None }
    }
}
