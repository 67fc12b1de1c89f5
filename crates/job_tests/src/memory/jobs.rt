//! The jobs over memory, called alike.

use crate::memory::bounds::NOTHING;
use crate::memory::lent::USUAL;
use in_memory::{
    PictureValues, Ran, bounds_octets, check_octets, draw_octets, frames_by_stream_octets,
    frames_octets, frames_of_capture_octets, run_octets, streams_octets,
};
use std::alloc::Global;
use traffic::Timing;

/// A job over memory with one writer.
#[derive(Clone, Copy)]
pub enum Job {
    /// A script.
    Script,
    /// Schedules, with windows.
    Check,
    /// A table of streams, and the script that comes among its frames.
    Streams,
    /// A script, whose frames are told.
    Frames,
    /// The same with a table of streams first.
    ByStream,
    /// A script beside a capture, whose frames are told.
    OfCapture,
    /// A script, which is drawn.
    Draw,
    /// A table of streams, and schedules.
    Bounds,
}

/// The whole run, as wide as a picture is where no width is given.
pub const SHOWN: PictureValues = PictureValues {
    from: None,
    to: None,
    width: 1200,
};

/// What a job says of an input, or of two, and writes.
pub fn ran_by(
    job: Job,
    alloc: Global,
    inputs: [&[u8]; 2],
    output: &mut [u8],
    fault: &mut [u8],
) -> Ran {
    let [first, second] = inputs;
    match job {
        Job::Script => run_octets(&alloc, USUAL, first, output, fault),
        Job::Check => check_octets(&alloc, 1000, false, true, first, output, fault),
        Job::Streams => streams_octets(&alloc, Timing::Earliest, 0, first, second, output, fault),
        Job::Frames => frames_octets(&alloc, USUAL, first, output, fault),
        Job::ByStream => { frames_by_stream_octets(&alloc, USUAL, first, second, output, fault) }
        Job::OfCapture => { frames_of_capture_octets(&alloc, USUAL, first, second, output, fault) }
        Job::Draw => draw_octets(alloc, USUAL, SHOWN, first, output, fault),
        Job::Bounds => bounds_octets(alloc, USUAL, 9, NOTHING, first, second, output, fault),
    }
}
