//! The time that a picture shows, and how wide it is.

ghost use Rattle.std.specs.Prelude.{◌≡◌, ◌≤◌, ◌<◌, ◌*◌, IfSome};
ghost use Rattle.picture.specs.Words.{greatest_moment, cut_to, pixel_of, viewport_of, x_in};

use crate::span::Span;
use crate::{MAX_WIDTH, MIN_WIDTH};
use std::marker::Model;
use wire_time::MAX_MOMENT;

/// The time that a picture shows, from a moment on and before another, in picoseconds, at most `MAX_MOMENT`; and its
/// width, 200 to 2400 pixels.
#[derive(Clone, Copy, Debug, PartialEq, Eq)]
pub struct Viewport {
    from: u128,
    to: u128,
    width: u32,
}

/// A contract sees the two moments and the width, which are within their limits.
impl Model for Viewport {
    ghost use Rattle.picture.specs.Pane.{Pane, IsPane};

    ghost Value = { Pane };

    ghost view = { λ w. record { from = w.from; to = w.to; width = w.width } };

    ghost invariant = { λ w. IsPane w.from w.to w.width };

    ghost inverse = { λ v. record { from = v.from; to = v.to; width = v.width } };
}

impl Viewport {
    /// The viewport of two moments, in picoseconds, and a width, in pixels; none: the first moment is not before the
    /// second, that is over `MAX_MOMENT`, or the width is not 200 to 2400 pixels.
    pub fn new(from: u128, to: u128, width: u32) -> Option<Viewport>
        ensures { result ≡ viewport_of from to width }
    {
        if from >= to || to > MAX_MOMENT {
            return None;
        }
        if width < MIN_WIDTH || width > MAX_WIDTH {
            return None;
        }
        Some(Viewport { from, to, width })
    }

    /// The first moment that is shown, in picoseconds.
    pub fn from(&self) -> u128
        ensures value { result ≡ self.now.from }
        ensures before { result < self.now.to }
    {
        self.from
    }

    /// The first moment after those that are shown, in picoseconds.
    pub fn to(&self) -> u128
        ensures value { result ≡ self.now.to }
        ensures within { result ≤ greatest_moment }
    {
        self.to
    }

    /// The width, in pixels.
    pub fn width(&self) -> u32
        ensures value { result ≡ self.now.width }
        ensures within { (MIN_WIDTH ≤ result) × (result ≤ MAX_WIDTH) }
    {
        self.width
    }

    /// How long the time is that a pixel shows, in picoseconds, rounded up.
    pub fn pixel(&self) -> u128
        ensures { result ≡ pixel_of self.now }
    {
        (self.to - self.from).div_ceil(u128::from(self.width))
    }

    /// How far from the left edge a moment lies, in hundredths of a pixel, rounded down. A moment before the viewport
    /// lies at its left edge, and one after it at its right edge.
    pub fn x(&self, moment: u128) -> u64
        ensures place { result ≡ x_in self.now moment }
        ensures within { result ≤ 100 * self.now.width }
    {
        let shown = moment.clamp(self.from, self.to) - self.from;
        (shown * (100 * u128::from(self.width)) / (self.to - self.from)) as u64
    }

    /// What of a time lies in the viewport; none: nothing of it. A time of no length lies in it where its moment does.
    pub fn cut(&self, span: Span) -> Option<Span>
        ensures cut { result ≡ cut_to self.now span }
        ensures within { IfSome result
            (λ s. (self.now.from ≤ s.from) × (s.from ≤ s.to) × (s.to ≤ self.now.to)) }
    {
        let from = span.from.max(self.from);
        let to = span.to.min(self.to);
        if from < to {
            return Some(Span { from, to });
        }
        if span.from == span.to && self.from <= span.from && span.to < self.to {
            return Some(span);
        }
        None
    }
}
