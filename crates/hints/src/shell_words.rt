//! What a line has that was pasted from a shell, and is none of its own.

use text::words::Words;

/// The byte order mark of UTF-8 (RFC 3629, section 6).
const BYTE_ORDER_MARK: &[u8] = b"\xef\xbb\xbf";

/// Whether a word is `tc`, or a path of it.
fn is_tc(word: &[u8]) -> bool {
    word == b"tc".as_slice() || word.ends_with(b"/tc")
}

/// Whether some word of a line is `tc`, or a path of it.
fn has_tc(line: &[u8]) -> bool {
    let mut words = Words::new(line);
    for _ in 0..line.len() {
        match words.next_word() {
            Some(word) if is_tc(word) => return true,
            Some(_) => {}
            None => return false,
        }
    }
    false
}

/// What helps with a line that has something before its `tc`.
pub(crate) fn pasted_front(line: &[u8], first: &[u8]) -> Option<&'static [u8]> {
    if first.starts_with(BYTE_ORDER_MARK) {
        return Some(
            b"the file begins with a byte order mark (UTF-8): save it without, or give --tolerant",
        );
    }
    if has_tc(line) {
        return Some(
            b"the line begins with tc: leave out what stands before it, such as a prompt, sudo or a path, or give --tolerant",
        );
    }
    None
}

/// What helps with a word that a shell takes for its own.
pub(crate) fn pasted_word(word: &[u8]) -> Option<&'static [u8]> {
    match word {
        [b'$', ..] => Some(b"a variable of a shell: write its value"),
        [b'\'' | b'"', ..] => Some(
            b"quotation marks of a shell: leave them out, or give --tolerant",
        ),
        b"\\" => Some(
            b"blanks behind a backslash, which joins two lines only as the last character: --tolerant drops them",
        ),
        b"&" | b"&&" | b"|" | b"||" | b"<" | b">" | b">>" | b"#" | [.., b';'] => {
            Some(b"a sign of a shell: the line ends with its last word")
        }
        _ => None,
    }
}
