//! The names of the jobs.

ghost use Rattle.std.specs.Prelude.{◌≡◌};
ghost use Rattle.program.specs.Table.{name_of};

/// A job of the program.
#[derive(Clone, Copy, Debug, PartialEq, Eq)]
pub(crate) enum JobName {
    /// Answers the lines of a script.
    Script,
    /// Runs a script and a capture by moment.
    Replay,
    /// Reports which classes schedules keep apart.
    Check,
    /// Writes a script with the frames of streams.
    Streams,
    /// Reports how long frames can ever wait.
    Bounds,
    /// Reports how long frames can ever take through several ports.
    Paths,
    /// Finds a schedule for streams.
    Plan,
    /// Draws the run of a script.
    Draw,
    /// Writes a table of frames.
    Frames,
    /// Compares two captures or tables.
    Compare,
}

impl JobName {
    /// The word that names the job.
    pub fn text(self) -> &'static str
        ensures { result.now ≡ name_of self }
    {
        match self {
            JobName::Script => "script",
            JobName::Replay => "replay",
            JobName::Check => "check",
            JobName::Streams => "streams",
            JobName::Bounds => "bounds",
            JobName::Paths => "paths",
            JobName::Plan => "plan",
            JobName::Draw => "draw",
            JobName::Frames => "frames",
            JobName::Compare => "compare",
        }
    }
}
