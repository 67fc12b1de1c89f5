//! How many frames the streams of a table have.

ghost use Rattle.std.specs.Prelude.{◌≡◌};

/// A script may have room for more frames, where several come at one moment; for so many it has room wherever they
/// come: each takes a line, and at most one clock line.
const MOST_FRAMES: u32 = 2_000_000;

/// How many frames the streams of a table have so far.
#[derive(Clone, Copy, Debug, PartialEq, Eq)]
pub enum FrameCount {
    /// So many, for which a script has room wherever they come.
    Few(u32),
    /// More, with the line of the table of this number.
    Many(u32),
}

impl FrameCount {
    ghost use Rattle.traffic.specs.Room.{counted_with, crowded_line};

    /// So many frames more, by the line of the table of this number.
    pub fn with(self, number: u32, more: u32) -> FrameCount
        ensures { result ≡ counted_with number more self }
    {
        match self {
            FrameCount::Few(frames) => {
                let frames = u64::from(frames) + u64::from(more);
                if frames > u64::from(MOST_FRAMES) {
                    FrameCount::Many(number)
                } else {
                    FrameCount::Few(frames as u32)
                }
            }
            FrameCount::Many(line) => FrameCount::Many(line),
        }
    }

    /// The number of the line with which they become many; 0 where they are few.
    pub fn crowded_line(self) -> u32
        ensures { result ≡ crowded_line self }
    {
        match self {
            FrameCount::Few(_) => 0,
            FrameCount::Many(line) => line,
        }
    }
}
