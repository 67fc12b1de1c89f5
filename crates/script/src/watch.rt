//! Who watches a run.

ghost use Rattle.std.specs.Prelude.{◌∷◌, ◌++◌, [], List};
ghost use Rattle.script.specs.Alerts.{Alert, Failed, Judged, Left, Lost, Passed, Stream, refused_alert};

use abstract_port::{Change, Command, Dropped, Refused};
use port_text::tc_reader::TcFault;
use wire_time::Frame;

/// What is wrong with a line that begins with `tc`: why it changes nothing, or what of its schedule can not be meant.
#[derive(Clone, Copy, Debug, PartialEq, Eq)]
pub enum Failure {
    /// It is no command.
    Malformed(TcFault),
    /// Its command is refused.
    Refused(Refused),
    /// A priority leads to this class, and no entry of its schedule opens it: no frame of it ever leaves.
    NeverOpens(u8),
}

/// Why a frame that has a deadline isn't in time.
#[derive(Clone, Copy, Debug, PartialEq, Eq)]
pub enum Missed {
    /// It left, and its end came after its deadline.
    Late,
    /// It was dropped when it came.
    Dropped(Dropped),
    /// It still waits at the end of the run.
    Left,
}

/// What the greatest wait of a stream is made of, in picoseconds: it is the sum of the four.
#[derive(Clone, Copy, Debug, PartialEq, Eq)]
pub struct Shares {
    /// What it would be if nothing else was sent: by shut gates, and by the stream's own jitter and frames.
    pub gates: u128,
    /// What is added by a frame of a lower class, which is in the way.
    pub blocking: u128,
    /// What is added by the frames of higher classes.
    pub higher: u128,
    /// What is added by the other streams of its class.
    pub queue: u128,
}

/// With which classes a class shares windows.
#[derive(Clone, Copy, Debug, PartialEq, Eq)]
pub struct Sharers {
    /// Of each class whether it is one.
    pub classes: [bool; 8],
    /// Whether the class has bounds.
    pub bounded: bool,
    /// For how long a frame of a lower one of these may be in the way, in picoseconds.
    pub blocking: u128,
    /// Of each class whether a frame of it may be in the way for so long.
    pub blockers: [bool; 8],
    /// Of the stream that waits the longest its first id, and what its greatest wait is made of, where that is known.
    pub longest: Option<(u64, Shares)>,
}

/// By what the bounds of a class are found.
#[derive(Clone, Copy, Debug, PartialEq, Eq)]
pub enum Basis {
    /// Each frame comes at its exact moment.
    ExactMoments,
    /// Each frame comes in a window of its own.
    Windows,
    /// Frames come at any moments: the stream with this first id has no offset.
    AnyMoments(u64),
    /// Each frame comes in a window, but these come again only after more frames than are looked at: it is bounded as if
    /// frames came at any moments.
    ManyFrames,
    /// Frames come at any moments, and wait for those of the classes that share windows with theirs.
    Shared(Sharers),
}

/// Who watches a run. Nothing that it does changes what is written.
///
/// What may count for strictness is told as an alert, and contracts of runs say which alerts are told, in order. Of the
/// other calls they say nothing.
pub trait Watch {
    /// From one value to another it was told these alerts.
    ghost alerted: { List Alert → Self → Self → Type 0 };

    /// So many records of a capture are taken, the last at this moment, in picoseconds.
    fn records_taken(&mut self, records: u32, moment: u128)
        ensures { alerted [] self.old self.new };

    /// The line of this number, whose text this is, begins with `tc`, and this is wrong with it. The run goes on.
    fn command_failed(&mut self, number: u32, line: &[u8], why: Failure)
        ensures { alerted (Failed why ∷ []) self.old self.new };

    /// The command of the line of this number, whose text this is, is accepted by a port that runs, and comes into force at
    /// this moment, in picoseconds.
    fn command_taken(&mut self, number: u32, line: &[u8], change: u128)
        ensures { alerted [] self.old self.new };

    /// A frame of a script comes at this moment, in picoseconds, and is queued.
    fn frame_came(&mut self, moment: u128)
        ensures { alerted [] self.old self.new };

    /// The line of this number, whose text this is, is judged by itself, and is this command.
    fn command_read(&mut self, number: u32, line: &[u8], command: &Command)
        ensures { alerted [] self.old self.new };

    /// This frame, which comes at this moment, in picoseconds, is dropped for this reason.
    fn frame_dropped(&mut self, moment: u128, frame: &Frame, why: Dropped)
        ensures { alerted (Lost moment frame.now why ∷ []) self.old self.new };

    /// The run has ended, and frames of this class were queued in it.
    fn class_used(&mut self, class: u8)
        ensures { alerted [] self.old self.new };

    /// The run has ended, and the class still has so many frames, one at least.
    fn frames_left(&mut self, class: u8, count: u64)
        ensures { alerted (Left class count ∷ []) self.old self.new };

    /// The line whose text this is has a fault that ends the run.
    fn line_failed(&mut self, line: &[u8])
        ensures { alerted [] self.old self.new };

    /// The line of this number, whose text this is, is skipped: it has no words, is a comment, or is none of the lines
    /// that are looked at. It does not begin with `tc`.
    fn line_skipped(&mut self, number: u32, line: &[u8])
        ensures { alerted [] self.old self.new };

    /// The line of this number, whose text this is, is passed on as it is.
    fn line_passed(&mut self, number: u32, line: &[u8])
        ensures { alerted (Passed number line.now ∷ []) self.old self.new };

    /// Whether hints are wanted for which more has to be worked out than is answered.
    fn wants_hints(&self) -> bool {
        false
    }

    /// By the schedule of the line of this number the class has bounds, and one frame more in each `every` picoseconds,
    /// as short as its shortest one, would be too many.
    fn class_is_busy(&mut self, number: u32, class: u8, every: u128)
        ensures { alerted [] self.old self.new };

    /// By this change, which the line of this number is, the class has bounds, which are found by this; or it shares its
    /// windows, and has none.
    fn class_judged(&mut self, number: u32, class: u8, change: &Change, basis: Basis)
        ensures { alerted [] self.old self.new };

    /// The port of this name, which is of a network, has no schedule: its gates are open.
    fn port_is_open(&mut self, name: &[u8])
        ensures { alerted [] self.old self.new };

    /// In its class without the streams whose frames come at any moments, a frame of the stream with this first id would
    /// end so long after its nominal moment at the latest, in picoseconds.
    fn ends_without(&mut self, first_id: u64, end: u128)
        ensures { alerted [] self.old self.new };

    /// The line of this number of a table is a stream of so many frames, whose ids count from this one. It may have a
    /// deadline.
    fn stream_read(&mut self, number: u32, first_id: u64, count: u32, has_deadline: bool)
        ensures { alerted (Stream number first_id count has_deadline ∷ []) self.old self.new };

    /// The frame of this id is of the stream with this first id, which has a deadline. It is in time, or this is why it
    /// isn't.
    fn deadline_judged(&mut self, id: u64, stream: u64, missed: Option<Missed>)
        ensures { alerted (Judged id stream missed ∷ []) self.old self.new };

    ghost nothing: { (s : Self) → alerted [] s s };

    ghost both: { (xs ys : List Alert) (s t u : Self) → alerted xs s t → alerted ys t u
        → alerted (xs ++ ys) s u };
}

/// Nobody watches.
#[derive(Clone, Copy, Debug)]
pub struct Unwatched;

impl Watch for Unwatched {
    ghost use Rattle.std.specs.Prelude.{⊤};

    ghost alerted = { λ alerts s t. ⊤ };

    fn records_taken(&mut self, _records: u32, _moment: u128) {}

    fn command_failed(&mut self, _number: u32, _line: &[u8], _why: Failure) {}

    fn command_taken(&mut self, _number: u32, _line: &[u8], _change: u128) {}

    fn frame_came(&mut self, _moment: u128) {}

    fn command_read(&mut self, _number: u32, _line: &[u8], _command: &Command) {}

    fn frame_dropped(&mut self, _moment: u128, _frame: &Frame, _why: Dropped) {}

    fn class_used(&mut self, _class: u8) {}

    fn frames_left(&mut self, _class: u8, _count: u64) {}

    fn line_failed(&mut self, _line: &[u8]) {}

    fn line_skipped(&mut self, _number: u32, _line: &[u8]) {}

    fn line_passed(&mut self, _number: u32, _line: &[u8]) {}

    fn class_is_busy(&mut self, _number: u32, _class: u8, _every: u128) {}

    fn class_judged(&mut self, _number: u32, _class: u8, _change: &Change, _basis: Basis) {}

    fn port_is_open(&mut self, _name: &[u8]) {}

    fn ends_without(&mut self, _first_id: u64, _end: u128) {}

    fn stream_read(&mut self, _number: u32, _first_id: u64, _count: u32, _has_deadline: bool) {}

    fn deadline_judged(&mut self, _id: u64, _stream: u64, _missed: Option<Missed>) {}

    ghost nothing = { λ s. tt };

    ghost both = { λ xs ys s t u a b. tt };
}

/// Calls who watches for the command of the line of this number: it is accepted, or refused.
pub fn tell_command<H: Watch>(
    watch: &mut H,
    number: u32,
    line: &[u8],
    answer: Result<u128, Refused>,
)
    ensures { H.alerted (refused_alert answer) watch.old watch.new }
{
    match answer {
        Ok(change) => watch.command_taken(number, line, change),
        Err(why) => watch.command_failed(number, line, Failure::Refused(why)),
    }
}
