//! The page of a picture: its viewport, its size and where its lanes lie.

ghost use Rattle.std.specs.Prelude.{◌≡◌, ◌<◌, ◌≤◌, ◌+◌, ◌*◌};
ghost use Rattle.drawing.specs.Words.{x_in, label_at, place_of, top_of};

use picture::{Span, Viewport};
use wire_time::{CLASSES, Rate};

/// Where time begins, in pixels from the left.
pub(crate) const LEFT: u32 = 64;

/// What is left free after the end of time, in pixels.
pub(crate) const RIGHT: u32 = 32;

/// Where the lane of class 7 begins, in pixels from above.
pub(crate) const CLASS_TOP: u32 = 58;

/// The least width of a picture, in pixels.
pub(crate) const MIN_WIDTH: u32 = 400;

/// The greatest width of a picture, in pixels.
pub(crate) const MAX_WIDTH: u32 = 2400;

/// The height of a lane, in pixels.
pub(crate) const LANE_HEIGHT: u32 = 28;

/// How far a lane begins below the one above it, in pixels.
pub(crate) const LANE_STEP: u32 = 36;

/// The lane of the wire, after those of the classes.
pub(crate) const WIRE: u8 = CLASSES as u8;

/// How many lanes there are: one for each class, and the wire's.
pub(crate) const LANES: u8 = WIRE + 1;

/// Where the lanes end, in pixels from above.
pub(crate) const BOTTOM: u32 = CLASS_TOP + 9 * LANE_STEP;

/// The line of the axis' labels, in pixels from above.
pub(crate) const AXIS: u32 = BOTTOM + 16;

/// The line that says what the axis counts from, in pixels from above.
pub(crate) const ORIGIN: u32 = BOTTOM + 29;

/// The line of the legend, in pixels from above.
pub(crate) const LEGEND: u32 = BOTTOM + 44;

/// The height of the picture, in pixels.
pub(crate) const HEIGHT: u32 = BOTTOM + 58;

/// How many hundredths of a pixel half a character of a label takes, at most: a digit has seven pixels in DejaVu Sans,
/// the widest of the common fonts.
pub(crate) const HALF_CHARACTER: u64 = 350;

/// Where a part of a row begins, and how wide it is, in hundredths of a pixel.
#[derive(Clone, Copy, Debug, PartialEq, Eq)]
pub struct Place {
    /// Where it begins, from the left.
    pub left: u64,
    /// How wide it is.
    pub width: u64,
}

/// The viewport of a picture, its width, what its axis counts from, and the rate and the mtu that it shows.
#[derive(Clone, Copy, Debug)]
pub struct Page {
    /// The time that is shown, and the width of that part of the picture.
    pub viewport: Viewport,
    /// The moment that the axis counts from, in picoseconds: that at which the picture begins, or moment 0.
    pub origin: u128,
    /// The line rate.
    pub rate: Rate,
    /// The mtu, in octets.
    pub mtu: u32,
}

impl Page {
    /// Where a moment, in picoseconds, lies in the picture: hundredths of a pixel from the left.
    pub fn x(&self, moment: u128) -> u64
        ensures place { result ≡ 100 * LEFT + x_in self.now.viewport moment }
        ensures within { (100 * LEFT ≤ result) × (result ≤ 100 * (LEFT + self.now.viewport.width))
            × (result ≤ 100 * (LEFT + MAX_WIDTH)) }
    {
        // For the prover: the getter says within which limits a width lies.
        let _width = self.viewport.width();
        u64::from(LEFT) * 100 + self.viewport.x(moment)
    }

    /// Where a part of a row lies that shows this time: it has at least this width, at most two pixels, in hundredths
    /// of a pixel, and lies in the row.
    pub fn place(&self, span: Span, least: u64) -> Place
        requires { least ≤ 200 }
        ensures place { result
            ≡ place_of (100 * (LEFT + self.now.viewport.width)) least
            (100 * LEFT + x_in self.now.viewport span.from)
            (100 * LEFT + x_in self.now.viewport span.to) }
        ensures wide { least ≤ result.width }
        ensures within { result.left + result.width ≤ 100 * (LEFT + self.now.viewport.width) }
        ensures few { result.left + result.width ≤ 100 * (LEFT + MAX_WIDTH) }
    {
        let left = self.x(span.from);
        let width = self.x(span.to).saturating_sub(left).max(least);
        let end = u64::from(LEFT + self.viewport.width()) * 100;
        Place {
            left: left.min(end - width),
            width,
        }
    }

    /// Where the middle of a label stands that belongs to this place and has so many characters: at its place, or as
    /// near to it as the label is still whole; both in hundredths of a pixel from the left.
    pub fn label(&self, place: u64, characters: u32) -> u64
        ensures { result ≡ label_at (LEFT + self.now.viewport.width + RIGHT) place characters }
    {
        let half = u64::from(characters) * HALF_CHARACTER;
        let most = (u64::from(self.width()) * 100).saturating_sub(half);
        place.min(most).max(half)
    }

    /// The width of the picture, in pixels.
    pub fn width(&self) -> u32
        ensures { result ≡ LEFT + self.now.viewport.width + RIGHT }
    {
        LEFT + self.viewport.width() + RIGHT
    }
}

/// Where a lane begins, in pixels from above: class 7 is the first, class 0 the eighth, and the wire the ninth.
pub fn lane_top(lane: u8) -> u32
    requires { lane < LANES }
    ensures lane { result ≡ top_of lane }
    ensures within { result ≤ BOTTOM }
{
    if lane < WIRE {
        CLASS_TOP + u32::from(7 - lane) * LANE_STEP
    } else {
        CLASS_TOP + u32::from(WIRE) * LANE_STEP
    }
}
