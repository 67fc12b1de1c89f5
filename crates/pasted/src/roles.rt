//! Options of taprio that change no gate: what each word of a command is.

ghost use Rattle.std.specs.Prelude.{◌≡◌};
ghost use Rattle.pasted.specs.Plain.{after_0x, is_assist, is_kind, next_role, option_role};

use text::words::{hex_number, is_digits};

/// What a word of a command is.
#[derive(Clone, Copy, Debug, PartialEq, Eq)]
pub enum Role {
    /// One that stays.
    Stays,
    /// fp, or one of the words behind it.
    Fp,
    /// txtime-delay.
    Delay,
    /// flags, with the value of txtime assist alone.
    Assist,
    /// The value of the word before it.
    Value,
}

/// Whether a word tells of a class that it is express or preemptible.
fn is_kind(word: &[u8]) -> bool
    ensures { result ≡ is_kind word.now }
{
    word == b"E".as_slice() || word == b"P".as_slice()
}

fn after_0x(word: &[u8]) -> &[u8]
    ensures { result.now ≡ after_0x word.now }
{
    match word {
        [b'0', b'x', digits @ ..] => digits,
        _ => word,
    }
}

/// Whether flags are those of txtime assist alone.
fn is_assist(word: &[u8]) -> bool
    ensures { result ≡ is_assist word.now }
{
    match hex_number(after_0x(word), 1) {
        Some(number) => number == 1,
        None => false,
    }
}

/// An option that is left out, by its word and the next one.
#[tactic(auto, unfolding(crate::specs::Plain::option_role))]
fn option_role(word: &[u8], next: &[u8]) -> Role
    ensures { result ≡ option_role word.now next.now }
{
    if word == b"fp".as_slice() && is_kind(next) {
        Role::Fp
    } else if word == b"txtime-delay".as_slice() && is_digits(next) {
        Role::Delay
    } else if word == b"flags".as_slice() && is_assist(next) {
        Role::Assist
    } else {
        Role::Stays
    }
}

/// What a word is, behind one that is this.
#[tactic(auto, unfolding(crate::specs::Plain::next_role))]
pub(crate) fn next_role(role: Role, word: &[u8], next: &[u8]) -> Role
    ensures { result ≡ next_role role word.now next.now }
{
    match role {
        Role::Delay | Role::Assist => Role::Value,
        Role::Fp if is_kind(word) => Role::Fp,
        Role::Stays | Role::Fp | Role::Value => option_role(word, next),
    }
}
