//! A stream whose frames come one after another.

ghost use Rattle.std.specs.Prelude.{◌≡◌, ◌≤◌};
ghost use Rattle.std.specs.Option.{ForSome};
ghost use Rattle.traffic.specs.Frames.{IsCourse, reached_by};
ghost use Rattle.wire_time.specs.Moment.{greatest_moment};

use crate::course::{Coming, Course, frame_after, moment_after};

/// A stream, how many of its frames have come, the moment of the last of them, and so the one that comes next.
#[derive(Clone, Copy)]
pub struct Turn {
    course: Course,
    come: u32,
    reached: u128,
    ghost fits: { IsCourse course },
    ghost few: { come ≤ course.count },
    ghost last: { reached ≡ reached_by course come },
}

impl Turn {
    ghost use Rattle.traffic.specs.Frames.{frames_of};
    ghost use Rattle.traffic.specs.Turns.{left_of, next_of};
    ghost use Rattle.std.specs.Prelude.{◌∷◌, [], MatchOption, IfNone, option_map};

    /// Before the first frame.
    pub(crate) fn first(course: Course) -> Turn
        requires { IsCourse course }
        ensures { left_of result ≡ frames_of course }
    {
        Turn {
            course,
            come: 0,
            reached: 0,
        }
    }

    /// The moment of the next frame of the stream, if there is one, in picoseconds.
    #[inline(always)]
    pub fn next_moment(&self) -> Option<u128>
        ensures moment { result ≡ option_map (λ f. f.moment) (next_of self.now) }
        ensures within { ForSome result (λ moment. moment ≤ greatest_moment) }
    {
        if self.come == self.course.count {
            return None;
        }
        Some(moment_after(&self.course, self.come, self.reached))
    }

    /// Takes the next frame of the stream, if there is one.
    pub fn take(&mut self) -> Option<Coming>
        ensures left { MatchOption result (left_of self.old ≡ [])
            (λ f. left_of self.old ≡ f ∷ left_of self.new) }
        ensures same { IfNone result (self.new ≡ self.old) }
    {
        if self.come == self.course.count {
            return None;
        }
        let coming = frame_after(&self.course, self.come, self.reached);
        self.come += 1;
        self.reached = coming.moment;
        Some(coming)
    }
}
