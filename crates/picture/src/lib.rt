//! What a picture of a port's run shows: the times of its bands and bars, the lanes that they lie in, and a time axis.
//!
//! The definitions are specs/Bands.antt, specs/Lanes.antt and specs/Windows.antt; the contracts of `Bands`, `Lane`
//! and `Viewport` cite them.
#![tactic(auto)]

mod bands;
mod class_bands;
mod cycle;
mod lane;
pub mod laws;
mod span;
mod ticks;
mod viewport;

pub use bands::Bands;
pub use cycle::cycle_of;
pub use lane::Lane;
pub use span::{Shape, Span};
pub use ticks::{Unit, tick_step, unit_of};
pub use viewport::Viewport;

/// The least width of a picture, in pixels.
pub const MIN_WIDTH: u32 = 200;

/// The greatest width of a picture, in pixels.
pub const MAX_WIDTH: u32 = 2400;

/// At how many boundaries of the gates a picture looks at most. From there on it asks of each class, for each pixel at
/// most, whether it is open at all moments, at some or at none: so what it costs does not grow with the time that it
/// shows.
pub const MOST_BOUNDARIES: u32 = 100_000;

/// How many shapes a lane has at most.
pub const MOST_SHAPES: usize = 5_000;
