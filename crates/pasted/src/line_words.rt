//! The words of a line of a command: quotation marks around them, and options that are left out.

ghost use Rattle.std.specs.Prelude.{◌≡◌, ◌<◌, ◌++◌, ◌∷◌, [], IfOk, IfSome, MatchOption, length};
ghost use Rattle.pasted.specs.Plain.{first_unquoted, is_quoted, next_role, plain_words, unquoted, words_apart};
ghost use Rattle.pasted.specs.Notes.{marks_of_words};

use crate::note::Marks;
use crate::roles::{Role, next_role};
use crate::words::{behind_word, first_word, indent};
use std::alloc::{AllocError, Allocator};

/// Whether a word has the same mark on both sides.
fn is_quoted(word: &[u8]) -> bool
    ensures { result ≡ is_quoted word.now }
{
    matches!(word, [b'"', .., b'"'] | [b'\'', .., b'\''])
}

/// A word without its marks.
fn unquoted(word: &[u8]) -> &[u8]
    ensures { result.now ≡ unquoted word.now }
{
    if is_quoted(word) {
        &word[1..word.len() - 1]
    } else {
        word
    }
}

/// The blanks in front, the first word, and what comes behind it, where there is an octet.
fn split_word(octets: &[u8]) -> Option<(&[u8], &[u8], &[u8])>
    ensures word { MatchOption result (octets.now ≡ [])
        (λ x. words_apart [] [] octets.now ≡ (x.0.now, x.1.now) ∷ words_apart [] [] x.2.now) }
    ensures shorter { IfSome result (λ x. length x.2.now < length octets.now) }
{
    if octets.is_empty() {
        return None;
    }
    Some((indent(octets), first_word(octets), behind_word(octets)))
}

/// What a word is, behind one that is this, where these octets come behind it.
fn role_before(role: Role, word: &[u8], behind: &[u8]) -> Role
    ensures { result
        ≡ next_role role (unquoted word.now) (first_unquoted (words_apart [] [] behind.now)) }
{
    next_role(role, unquoted(word), unquoted(first_word(behind)))
}

/// Puts the words of a line of a command as they come out.
pub(crate) fn put_words<A: Allocator>(octets: &[u8], out: &mut Vec<u8, A>) -> Result<(), AllocError>
    ensures text { IfOk result (λ _. out.new.items ≡ out.old.items ++ plain_words octets.now) }
{
    let mut rest = octets;
    let mut role = Role::Stays;
    'words: while let Some((blanks, word, behind)) = split_word(rest) {
        role = role_before(role, word, behind);
        if let Role::Stays = role {
            out.extend_from_slice(blanks)?;
            out.extend_from_slice(unquoted(word))?;
        }
        rest = behind;
    }
    Ok(())
}

/// What is passed over among the words of a line of a command.
pub(crate) fn marks_of_words(octets: &[u8]) -> Marks
    ensures { result ≡ marks_of_words (words_apart [] [] octets.now) }
{
    let mut rest = octets;
    let mut role = Role::Stays;
    let mut marks = Marks::NONE;
    'words: while let Some((_, word, behind)) = split_word(rest) {
        role = role_before(role, word, behind);
        marks = marks.with_word(is_quoted(word), role);
        rest = behind;
    }
    marks
}
