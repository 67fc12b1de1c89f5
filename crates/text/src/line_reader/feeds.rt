//! The line feeds among octets.

ghost use Rattle.std.specs.Prelude.{◌≡◌, ◌≤◌, ◌<◌, ℕ, [], length, drop, true};
ghost use Rattle.text.specs.Script.{ends_in, joins};

use memchr::memrchr;

/// Whether a line feed after these octets joins the next physical line.
pub(crate) fn joins(octets: &[u8]) -> bool
    ensures { result ≡ joins octets.now }
{
    match octets {
        [.., b'\\'] | [.., b'\\', b'\r'] => true,
        _ => false,
    }
}

/// Up to where lines stand whole among octets: behind the last line feed that joins nothing.
pub(crate) fn whole_lines(octets: &[u8]) -> usize
    ensures within { result ≤ length octets.now }
    ensures whole { (k : ℕ) → k < result → ends_in [] (drop k octets.now) ≡ true }
{
    let mut front = octets;
    'feeds: while let Some(feed) = memrchr(b'\n', front) {
        if !joins(&front[..feed]) {
            return feed + 1;
        }
        let (before, _) = front.split_at(feed);
        front = before;
    }
    0
}
