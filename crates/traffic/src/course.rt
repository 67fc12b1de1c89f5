//! The frames of a stream, one after another, as a run has them.

ghost use Rattle.std.specs.Prelude.{◌≡◌, ◌≤◌, ◌<◌, Some};
ghost use Rattle.traffic.specs.Words.{IsCourse, frame_after, greatest_moment, length_of_frame, moment_after, reached_by};

use crate::draws::draw;
use wire_time::Frame;

/// The frames of a stream.
#[derive(Clone, Copy)]
pub(crate) struct Course {
    /// The id of the first; each further one has the next.
    pub first_id: u64,
    /// Their priority.
    pub priority: u8,
    /// Octets of the longest.
    pub len: u32,
    /// Octets of the shortest.
    pub shortest: u32,
    /// Whether they are tagged.
    pub tagged: bool,
    /// The earliest moment of the first one, in picoseconds.
    pub first: u128,
    /// From the earliest moment of one to that of the next, in picoseconds.
    pub period: u128,
    /// By how much one may come later, in picoseconds.
    pub jitter: u128,
    /// How many there are.
    pub count: u32,
    /// What draws by how much they come later, and how long they are. With none each comes at its earliest moment, and
    /// is as long as the longest.
    pub seed: Option<u64>,
}

/// A frame that is to come.
#[derive(Clone, Copy)]
pub struct Coming {
    /// When it comes, in picoseconds.
    pub moment: u128,
    /// The frame.
    pub frame: Frame,
}

/// The moment of the frame after so many others, of which the last came at this moment, where this seed draws it.
#[inline(never)]
fn drawn_moment(course: &Course, seed: u64, come: u32, reached: u128) -> u128
    requires fits { IsCourse course.now }
    requires few { come < course.now.count }
    requires seed { course.now.seed ≡ Some seed }
    requires reached { reached ≡ reached_by course.now come }
    ensures moment { result ≡ moment_after course.now come }
    ensures within { result ≤ greatest_moment }
{
    let late = draw(seed, u64::from(come) * 2 + 1, course.jitter);
    reached.max(course.first + course.period * u128::from(come) + late)
}

/// Octets of the frame after so many others, where this seed draws them.
#[inline(never)]
fn drawn_length(course: &Course, seed: u64, come: u32) -> u32
    requires fits { IsCourse course.now }
    requires seed { course.now.seed ≡ Some seed }
    ensures { result ≡ length_of_frame course.now come }
{
    let longer = u128::from(course.len - course.shortest);
    course.shortest + draw(seed, u64::from(come) * 2 + 2, longer) as u32
}

/// Octets of the frame after so many others.
#[inline(always)]
fn length_of_frame(course: &Course, come: u32) -> u32
    requires { IsCourse course.now }
    ensures { result ≡ length_of_frame course.now come }
{
    match course.seed {
        None => course.len,
        Some(seed) => drawn_length(course, seed, come),
    }
}

/// The moment of the frame after so many others, of which the last came at this moment, in picoseconds.
#[inline(always)]
pub(crate) fn moment_after(course: &Course, come: u32, reached: u128) -> u128
    requires fits { IsCourse course.now }
    requires few { come < course.now.count }
    requires reached { reached ≡ reached_by course.now come }
    ensures moment { result ≡ moment_after course.now come }
    ensures within { result ≤ greatest_moment }
{
    match course.seed {
        None => course.first + course.period * u128::from(come),
        Some(seed) => drawn_moment(course, seed, come, reached),
    }
}

/// The frame after so many others, of which the last came at this moment, in picoseconds.
#[inline(always)]
pub(crate) fn frame_after(course: &Course, come: u32, reached: u128) -> Coming
    requires fits { IsCourse course.now }
    requires few { come < course.now.count }
    requires reached { reached ≡ reached_by course.now come }
    ensures frame { result ≡ frame_after course.now come }
    ensures within { result.moment ≤ greatest_moment }
{
    Coming {
        moment: moment_after(course, come, reached),
        frame: Frame {
            id: course.first_id + u64::from(come),
            priority: course.priority,
            len: length_of_frame(course, come),
            tagged: course.tagged,
        },
    }
}
