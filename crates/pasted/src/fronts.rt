//! What stands in front of a command: a prompt, sudo, and the path of tc.

ghost use Rattle.std.specs.Prelude.{◌≡◌, ◌==◌, ◌||◌, ◌&&◌, length, not, nat_eq, codes};
ghost use Rattle.pasted.specs.Plain.{command, ends_with_sign, has_long_prompt, has_more_prompt, has_prompt, has_sudo, is_command, is_long_prompt, is_option, is_prompt, is_tc, past_more_prompt, past_option, past_prompt, past_sudo, tells_host};

use crate::words::{first_word, next_word};
use text::words::is_digits;

/// Whether a word ends with the sign of a prompt.
fn ends_with_sign(word: &[u8]) -> bool
    ensures { result ≡ ends_with_sign word.now }
{
    matches!(word, [.., b'$' | b'#' | b'%'])
}

/// Whether a word may tell a user, a host or a folder.
fn tells_host(word: &[u8]) -> bool
    ensures { result ≡ tells_host word.now }
{
    if let [b'#', ..] = word {
        return false;
    }
    word.contains(&b'@') || word.contains(&b':')
}

/// Whether a word is a prompt: its sign alone, or behind a user, a host or a folder; or the number of a line of a
/// shell's history.
fn is_prompt(word: &[u8]) -> bool
    ensures { result ≡ is_prompt word.now }
{
    if is_digits(word) {
        return true;
    }
    ends_with_sign(word) && (word.len() == 1 || tells_host(word))
}

/// Whether two words are a prompt: those in brackets, or the sign apart.
#[tactic(auto, unfolding(crate::specs::Plain::is_long_prompt))]
fn is_long_prompt(first: &[u8], second: &[u8]) -> bool
    ensures { result ≡ is_long_prompt first.now second.now }
{
    if let [b'[', ..] = first
        && (second.ends_with(b"]#") || second.ends_with(b"]$"))
    {
        return true;
    }
    tells_host(first) && second.len() == 1 && ends_with_sign(second)
}

/// Whether there is a prompt of two words in front.
fn has_long_prompt(octets: &[u8]) -> bool
    ensures { result ≡ has_long_prompt octets.now }
{
    is_long_prompt(first_word(octets), first_word(next_word(octets)))
}

/// Whether there is a prompt in front.
#[tactic(auto, unfolding(crate::specs::Plain::has_prompt))]
pub(crate) fn has_prompt(octets: &[u8]) -> bool
    ensures { result ≡ has_prompt octets.now }
{
    is_prompt(first_word(octets)) || has_long_prompt(octets)
}

/// What comes behind a prompt, where there is one.
#[tactic(auto, unfolding(crate::specs::Plain::past_prompt))]
pub(crate) fn past_prompt(octets: &[u8]) -> &[u8]
    ensures { result.now ≡ past_prompt octets.now }
{
    if is_prompt(first_word(octets)) {
        next_word(octets)
    } else if has_long_prompt(octets) {
        next_word(next_word(octets))
    } else {
        octets
    }
}

/// Whether the first word is sudo.
pub(crate) fn has_sudo(octets: &[u8]) -> bool
    ensures { result ≡ has_sudo octets.now }
{
    first_word(octets) == b"sudo".as_slice()
}

/// Whether a word is an option of sudo that has no value.
fn is_option(word: &[u8]) -> bool
    ensures { result ≡ is_option word.now }
{
    word == b"-E".as_slice() || word == b"-n".as_slice() || word == b"-H".as_slice()
}

/// What comes behind an option of sudo, where there is one.
#[tactic(auto, unfolding(crate::specs::Plain::past_option))]
fn past_option(octets: &[u8]) -> &[u8]
    ensures { result.now ≡ past_option octets.now }
{
    if is_option(first_word(octets)) {
        next_word(octets)
    } else {
        octets
    }
}

/// What comes behind sudo and its options, where it is there.
#[tactic(auto, unfolding(crate::specs::Plain::past_sudo))]
fn past_sudo(octets: &[u8]) -> &[u8]
    ensures { result.now ≡ past_sudo octets.now }
{
    if has_sudo(octets) {
        past_option(past_option(past_option(next_word(octets))))
    } else {
        octets
    }
}

/// Whether a word is tc, or a path of it.
fn is_tc(word: &[u8]) -> bool
    ensures { result ≡ is_tc word.now }
{
    word == b"tc".as_slice() || word.ends_with(b"/tc")
}

/// Whether octets are a command of tc.
#[tactic(auto, unfolding(crate::specs::Plain::is_command))]
pub(crate) fn is_command(octets: &[u8]) -> bool
    ensures { result ≡ is_command octets.now }
{
    is_tc(first_word(octets)) && first_word(next_word(octets)) == b"qdisc".as_slice()
}

/// Where a command begins, if it is one.
#[tactic(auto, unfolding(crate::specs::Plain::command))]
pub(crate) fn command(octets: &[u8]) -> &[u8]
    ensures { result.now ≡ command octets.now }
{
    past_sudo(past_prompt(octets))
}

/// Whether there is the prompt of a line that is joined to another one.
pub(crate) fn has_more_prompt(octets: &[u8]) -> bool
    ensures { result ≡ has_more_prompt octets.now }
{
    first_word(octets) == b">".as_slice()
}

/// What comes behind the prompt of a line that is joined to another one, where there is one.
#[tactic(auto, unfolding(crate::specs::Plain::past_more_prompt))]
pub(crate) fn past_more_prompt(octets: &[u8]) -> &[u8]
    ensures { result.now ≡ past_more_prompt octets.now }
{
    if has_more_prompt(octets) {
        next_word(octets)
    } else {
        octets
    }
}
