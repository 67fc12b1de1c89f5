//! The end of a physical line.

ghost use Rattle.std.specs.Prelude.{◌≡◌, ◌==◌, ◌++◌, [], IfOk, length, not};
ghost use Rattle.pasted.specs.Plain.{body, ending, is_joined};
ghost use Rattle.std.specs.List.{filter};

use crate::words::{unblank_length, unended_length};
use std::alloc::{AllocError, Allocator};

/// Whether the next line is joined to one, maybe by a backslash with blanks behind it.
#[tactic(auto, unfolding(crate::specs::Plain::is_joined))]
pub(crate) fn is_joined(line: &[u8]) -> bool
    ensures { result ≡ is_joined line.now }
{
    let count = unblank_length(line);
    count > 0 && line[count - 1] == b'\\'
}

/// A line without its end.
#[tactic(auto, unfolding(crate::specs::Plain::body, crate::specs::Plain::is_joined))]
pub(crate) fn body(line: &[u8]) -> &[u8]
    ensures { result.now ≡ body line.now }
{
    if is_joined(line) {
        &line[..unblank_length(line) - 1]
    } else {
        &line[..unended_length(line)]
    }
}

/// Puts octets without the semicolons among them.
fn put_without_semicolons<A: Allocator>(
    octets: &[u8],
    out: &mut Vec<u8, A>,
) -> Result<(), AllocError>
    ensures text { IfOk result (λ _. out.new.items
        ≡ out.old.items ++ filter (λ b. not (b == 59)) octets.now) }
{
    for octet in octets {
        if *octet != b';' {
            out.extend_from_slice(&[*octet])?;
        }
    }
    Ok(())
}

/// Puts the end of a line as it comes out.
#[tactic(auto, unfolding(crate::specs::Plain::ending))]
pub(crate) fn put_ending<A: Allocator>(line: &[u8], out: &mut Vec<u8, A>) -> Result<(), AllocError>
    ensures text { IfOk result (λ _. out.new.items ≡ out.old.items ++ ending line.now) }
{
    if !is_joined(line) {
        return put_without_semicolons(&line[unended_length(line)..], out);
    }
    match line {
        [.., b'\r'] => out.extend_from_slice(b"\\\r"),
        _ => out.extend_from_slice(b"\\"),
    }
}
