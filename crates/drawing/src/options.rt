//! What a picture shows, by the values of options.

ghost use Rattle.std.specs.Prelude.{◌≡◌, ◌≤◌, IfSome};
ghost use Rattle.drawing.specs.Words.{octets_of, words_of_draws, beginning_in, end_in, is_open, options_of, origin_of, view_of, width_in, width_where, viewport_shown};

use crate::page::{LEFT, MAX_WIDTH, MIN_WIDTH, RIGHT};
use crate::scope::Scope;
use crate::view::View;
use picture::Viewport;
use script::BadValue;
use text::times::moment;
use text::words::number;
use wire_time::MAX_MOMENT;

/// The width of a picture where none is given, in pixels.
pub(crate) const WIDTH: u32 = 1200;

/// What is shown where a run ends before the picture begins, in picoseconds: a microsecond.
pub(crate) const SHORTEST: u128 = 1_000_000;

/// The values of the options of a picture, where they are given, as words.
#[derive(Clone, Copy, Debug)]
pub struct DrawValues<'a> {
    /// The moment that the picture begins at, in picoseconds.
    pub from: Option<&'a str>,
    /// The moment that it ends at, in picoseconds.
    pub to: Option<&'a str>,
    /// Its width, in pixels.
    pub width: Option<&'a str>,
}

/// What a picture shows: from a moment on and up to another, in picoseconds, as far as they are given; and its width,
/// 400 to 2400 pixels. Where neither is given it covers what the run has (`Scope`).
#[derive(Clone, Copy, Debug, PartialEq, Eq)]
pub struct DrawOptions {
    /// The moment that the picture begins at; none: moment 0, where its end is given.
    pub from: Option<u128>,
    /// The moment that it ends at; none: the run's last, where its beginning is given.
    pub to: Option<u128>,
    /// Its width, in pixels.
    pub width: u32,
}

impl DrawOptions {
    /// Whether the options say neither moment.
    fn is_open(&self) -> bool
        ensures { result ≡ is_open self.now }
    {
        self.from.is_none() && self.to.is_none()
    }

    /// What is shown of a run that has had so much, as far as it is known.
    pub fn view(&self, scope: Scope) -> View
        ensures { result ≡ view_of self.now scope }
    {
        if self.is_open() {
            return scope.view();
        }
        View {
            from: self.from.unwrap_or(0),
            to: self.to,
        }
    }

    /// The moment that the axis counts from, in picoseconds: that at which the picture begins, where no option says it;
    /// else moment 0.
    pub fn origin(&self, scope: Scope) -> u128
        ensures { result ≡ origin_of self.now scope }
    {
        if self.is_open() { scope.view().from } else { 0 }
    }

    /// The time that the picture shows, where the run has had so much and ends at this moment, in picoseconds: up to
    /// the end that is known, or to the run's; a microsecond where the run ends before the picture begins.
    pub fn viewport(&self, scope: Scope, last: u128) -> Option<Viewport>
        ensures { result ≡ viewport_shown self.now scope last }
    {
        let view = self.view(scope);
        let to = match view.to {
            Some(to) => to,
            None => if view.from < last {
                last
            } else {
                view.from.saturating_add(SHORTEST)
            },
        };
        Viewport::new(view.from, to, self.width.saturating_sub(LEFT + RIGHT))
    }
}

/// The moment that a picture begins at, a microsecond or more before the greatest, if one is given; the outer None is a
/// bad value.
fn beginning_in(value: Option<&str>) -> Option<Option<u128>>
    ensures { result ≡ beginning_in (octets_of value.entry) }
{
    match value {
        None => Some(None),
        Some(text) => {
            let from = moment(text.as_bytes(), MAX_MOMENT - SHORTEST)?;
            Some(Some(from))
        }
    }
}

/// The number of a width; where there is no word, the usual one.
fn width_in(value: Option<&str>) -> Option<u128>
    ensures value { result ≡ width_in (octets_of value.entry) }
    ensures within { IfSome result (λ n. n ≤ MAX_WIDTH) }
{
    match value {
        Some(text) => number(text.as_bytes(), u128::from(MAX_WIDTH)),
        None => Some(u128::from(WIDTH)),
    }
}

/// The end of a picture, after its beginning, which is moment 0 where none is given, if an end is; the outer None is a
/// bad value.
fn end_in(from: Option<u128>, value: Option<&str>) -> Option<Option<u128>>
    ensures { result ≡ end_in from (octets_of value.entry) }
{
    match value {
        None => Some(None),
        Some(text) => {
            let to = moment(text.as_bytes(), MAX_MOMENT)?;
            if from.unwrap_or(0) < to {
                Some(Some(to))
            } else {
                None
            }
        }
    }
}

/// A number that is a width, in pixels.
fn width_where(number: Option<u128>) -> Option<u32>
    requires { IfSome number (λ n. n ≤ MAX_WIDTH) }
    ensures { result ≡ width_where number }
{
    let width = number? as u32;
    if width >= MIN_WIDTH {
        Some(width)
    } else {
        None
    }
}

/// What the values of a picture say, or the first that is bad: a beginning over the greatest moment but a microsecond,
/// an end over the greatest or not after the beginning, or a width out of its limits.
pub fn options_given(values: DrawValues<'_>) -> Result<DrawOptions, BadValue>
    ensures { result ≡ options_of (words_of_draws values.entry) }
{
    let Some(from) = beginning_in(values.from) else {
        return Err(BadValue::From);
    };
    let Some(to) = end_in(from, values.to) else {
        return Err(BadValue::To);
    };
    let Some(width) = width_where(width_in(values.width)) else {
        return Err(BadValue::Width);
    };
    Ok(DrawOptions { from, to, width })
}
