//! A search for a schedule by which streams make their deadlines.
//!
//! Nothing is promised of what it finds but that its entries can be written: whoever asks has each judged. It ends, and
//! takes memory for each frame of a cycle (`MAX_JOBS` at most) and for each window.
mod curves;
mod cycles;
mod entries;
mod jobs;
mod overload;
mod places;
mod queues;
mod search;
mod sums;
mod windows;

pub use cycles::CycleKind;
pub use entries::Opening;
pub use jobs::MAX_JOBS;
pub use overload::overloaded_class;
pub use search::{
    Candidate, MAX_STRATEGIES, Mind, Strategy, Why, find_schedule, is_needed, strategy_of,
};

/// A stream, as the search sees it. All times are in picoseconds.
#[derive(Clone, Copy, Debug, PartialEq, Eq)]
pub struct Flow {
    /// The class of its frames.
    pub class: u8,
    /// How long its longest frame occupies the wire.
    pub need: u128,
    /// From one frame to the next.
    pub period: u128,
    /// When the first frame comes, at the earliest; none where that is not known.
    pub offset: Option<u128>,
    /// By how much a frame may come later.
    pub jitter: u128,
    /// Whether its frames come at exact moments, and have one length.
    pub is_exact: bool,
    /// Within which time a frame is to have left, where that is said.
    pub deadline: Option<u128>,
}

/// What a schedule may be.
#[derive(Clone, Copy, Debug, PartialEq, Eq)]
pub struct Limits {
    /// How many classes there are.
    pub classes: u8,
    /// Its cycle in nanoseconds, where that is given.
    pub cycle: Option<u64>,
    /// How many entries it has at most.
    pub entries: usize,
    /// How long each entry is at the least, in nanoseconds.
    pub least: u64,
    /// Where classes without deadlines may use what the windows of higher ones leave: for how long a frame of theirs may
    /// be in the way, in picoseconds.
    pub blocking: Option<u128>,
}
