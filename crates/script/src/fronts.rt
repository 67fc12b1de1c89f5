//! Texts that lines begin with, compared by a word of the machine in place of octet by octet.

ghost use Rattle.std.specs.Prelude.{◌≡◌, ◌++◌, IfSome, codes, true};
ghost use Rattle.script.specs.Words.{tag_text};

/// Whether four octets are those of a text.
#[inline(always)]
fn are_four(octets: [u8; 4], text: [u8; 4]) -> bool
    ensures { result ≡ true → octets ≡ text }
{
    u32::from_le_bytes(octets) == u32::from_le_bytes(text)
}

/// Whether two octets are those of a text.
#[inline(always)]
fn are_two(octets: [u8; 2], text: [u8; 2]) -> bool
    ensures { result ≡ true → octets ≡ text }
{
    u16::from_le_bytes(octets) == u16::from_le_bytes(text)
}

/// What comes after `frame` and a space, where a line begins with them.
#[inline(always)]
pub(crate) fn behind_frame(line: &[u8]) -> Option<&[u8]>
    ensures { IfSome result (λ rest. line.now ≡ codes "frame " ++ rest.now) }
{
    match line {
        [a, b, c, d, e, f, rest @ ..]
            if are_four([*a, *b, *c, *d], *b"fram") && are_two([*e, *f], *b"e ") => Some(rest),
        _ => None,
    }
}

/// What comes after `clock` and a space, where a line begins with them.
#[inline(always)]
pub(crate) fn behind_clock(line: &[u8]) -> Option<&[u8]>
    ensures { IfSome result (λ rest. line.now ≡ codes "clock " ++ rest.now) }
{
    match line {
        [a, b, c, d, e, f, rest @ ..]
            if are_four([*a, *b, *c, *d], *b"cloc") && are_two([*e, *f], *b"k ") => Some(rest),
        _ => None,
    }
}

/// Whether a frame is tagged, and what comes after that.
#[inline(always)]
pub(crate) fn behind_tag(octets: &[u8]) -> (bool, &[u8])
    ensures { octets.now ≡ tag_text result.0 ++ result.1.now }
{
    match octets {
        [b' ', a, b, c, d, e, f, rest @ ..]
            if are_four([*a, *b, *c, *d], *b"tagg") && are_two([*e, *f], *b"ed") => (true, rest),
        _ => (false, octets),
    }
}
