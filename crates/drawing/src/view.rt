//! The time that a picture shows, of which the end may not be known.

ghost use Rattle.std.specs.Prelude.{◌≡◌};
ghost use Rattle.drawing.specs.Words.{shows};

use picture::Span;

/// The time that a picture shows: from a moment on and, where there is an end, before another. Moments are in
/// picoseconds.
#[derive(Clone, Copy, Debug, PartialEq, Eq)]
pub struct View {
    /// The moment that it begins at.
    pub from: u128,
    /// The moment that it ends at; none: it has no end.
    pub to: Option<u128>,
}

impl View {
    /// Whether something of a time is shown. A time of no length is its moment.
    pub fn shows(&self, span: Span) -> bool
        ensures { result ≡ shows self.now span }
    {
        let begins = match self.to {
            None => true,
            Some(to) => span.from < to,
        };
        begins && (self.from < span.to || self.from <= span.from)
    }
}
