//! What a pasted line comes out as.

ghost use Rattle.std.specs.Prelude.{◌≡◌, ◌++◌, IfOk, true};
ghost use Rattle.pasted.specs.Plain.{begins_command, has_mark, is_of_command, plain_command, plain_more, plain_part, plain_text, text_after, unmarked};
ghost use Rattle.pasted.specs.Notes.{has_blanks, has_semicolon, marks_of_command, marks_of_more, marks_of_part, text_marks};

use crate::ends::{body, is_joined, put_ending};
use crate::fronts::{
    command, has_more_prompt, has_prompt, has_sudo, is_command, past_more_prompt, past_prompt,
};
use crate::line_words::{marks_of_words, put_words};
use crate::note::Marks;
use crate::place::{Place, place_behind};
use crate::runs::joins;
use crate::words::{behind_word, first_word, indent, unended_length};
use std::alloc::{AllocError, Allocator};

/// Whether a line at a place has a byte order mark.
pub(crate) fn has_mark(place: Place, line: &[u8]) -> bool
    ensures { result ≡ has_mark place line.now }
{
    match place {
        Place::First => line.starts_with(b"\xef\xbb\xbf"),
        Place::Begin | Place::Command | Place::Other => false,
    }
}

/// A line at a place without its byte order mark.
pub(crate) fn unmarked(place: Place, line: &[u8]) -> &[u8]
    ensures { result.now ≡ unmarked place line.now }
{
    match (place, line) {
        (Place::First, [0xef, 0xbb, 0xbf, text @ ..]) => text,
        _ => line,
    }
}

/// Whether blanks stand behind the backslash that joins the next line.
fn has_blanks(line: &[u8]) -> bool
    ensures { result ≡ has_blanks line.now }
{
    is_joined(line) && !joins(line)
}

/// Whether a semicolon stands behind the last word of the line that ends a command.
fn has_semicolon(line: &[u8]) -> bool
    ensures { result ≡ has_semicolon line.now }
{
    !is_joined(line) && line[unended_length(line)..].contains(&b';')
}

/// Whether a line begins a command.
fn begins_command(line: &[u8]) -> bool
    ensures { result ≡ begins_command line.now }
{
    is_command(command(body(line)))
}

/// Whether a line at a place is one of a command.
pub(crate) fn is_of_command(place: Place, line: &[u8]) -> bool
    ensures { result ≡ is_of_command place line.now }
{
    match place {
        Place::First | Place::Begin => begins_command(line),
        Place::Command => true,
        Place::Other => false,
    }
}

/// Where the line behind one of a command stands, or behind another one.
pub(crate) fn text_after(place: Place, line: &[u8], of_command: bool) -> Place
    requires { of_command ≡ is_of_command place line.now }
    ensures { result ≡ text_after place line.now }
{
    if !of_command {
        return place_behind(place, joins(line));
    }
    if is_joined(line) {
        Place::Command
    } else {
        Place::Begin
    }
}

/// Puts a line that begins a command as it comes out, and tells what is passed over. The byte order mark is off.
pub(crate) fn put_command<A: Allocator>(
    line: &[u8],
    is_marked: bool,
    out: &mut Vec<u8, A>,
) -> Result<Marks, AllocError>
    ensures text { IfOk result (λ _. out.new.items ≡ out.old.items ++ plain_command line.now) }
    ensures marks { IfOk result (λ marks. marks ≡ marks_of_command is_marked line.now) }
{
    let text = body(line);
    let octets = command(text);
    out.extend_from_slice(indent(octets))?;
    out.extend_from_slice(b"tc")?;
    let words = behind_word(octets);
    put_words(words, out)?;
    put_ending(line, out)?;
    Ok(Marks {
        byte_order: is_marked,
        prompt: has_prompt(text),
        sudo: has_sudo(past_prompt(text)),
        path: first_word(octets) != b"tc".as_slice(),
        blanks: has_blanks(line),
        semicolon: has_semicolon(line),
        ..marks_of_words(words)
    })
}

/// Puts a line that is joined to a command as it comes out, and tells what is passed over.
pub(crate) fn put_more<A: Allocator>(line: &[u8], out: &mut Vec<u8, A>) -> Result<Marks, AllocError>
    ensures text { IfOk result (λ _. out.new.items ≡ out.old.items ++ plain_more line.now) }
    ensures marks { IfOk result (λ marks. marks ≡ marks_of_more line.now) }
{
    let text = body(line);
    let words = past_more_prompt(text);
    put_words(words, out)?;
    put_ending(line, out)?;
    Ok(Marks {
        prompt: has_more_prompt(text),
        blanks: has_blanks(line),
        semicolon: has_semicolon(line),
        ..marks_of_words(words)
    })
}

/// Puts a line of a command as it comes out, and tells what is passed over. The byte order mark is off.
fn put_part<A: Allocator>(
    place: Place,
    line: &[u8],
    is_marked: bool,
    out: &mut Vec<u8, A>,
) -> Result<Marks, AllocError>
    requires { is_of_command place line.now ≡ true }
    ensures text { IfOk result (λ _. out.new.items ≡ out.old.items ++ plain_part place line.now) }
    ensures marks { IfOk result (λ marks. marks ≡ marks_of_part place is_marked line.now) }
{
    match place {
        Place::First | Place::Begin => put_command(line, is_marked, out),
        Place::Command => put_more(line, out),
        Place::Other => unreachable!(),
    }
}

/// Puts a line as it comes out, and tells what is passed over. The byte order mark is off.
pub(crate) fn put_text<A: Allocator>(
    place: Place,
    line: &[u8],
    is_marked: bool,
    of_command: bool,
    out: &mut Vec<u8, A>,
) -> Result<Marks, AllocError>
    requires { of_command ≡ is_of_command place line.now }
    ensures text { IfOk result (λ _. out.new.items ≡ out.old.items ++ plain_text place line.now) }
    ensures marks { IfOk result (λ marks. marks ≡ text_marks place is_marked line.now) }
{
    if of_command {
        return put_part(place, line, is_marked, out);
    }
    out.extend_from_slice(line)?;
    Ok(Marks {
        byte_order: is_marked,
        ..Marks::NONE
    })
}
