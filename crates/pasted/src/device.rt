//! The lines of one device.

ghost use Rattle.std.specs.Prelude.{◌≡◌, MatchOption, IfSome, None, Some, true, false};
ghost use Rattle.text.specs.Words.{words_of};
ghost use Rattle.text.specs.WordsLeft.{words_left};
ghost use Rattle.pasted.specs.Device.{begins_tc, device_from, device_in, is_of_other, past_own, takes_word};

use text::words::Words;

/// Whether a word has another one behind it that belongs to it.
fn takes_word(word: &[u8]) -> bool
    ensures { result ≡ takes_word word.now }
{
    word == b"parent".as_slice() || word == b"handle".as_slice()
}

/// What comes behind a word: the word that belongs to it is skipped, where there is one.
fn past_own<'a>(mut words: Words<'a>, word: &[u8]) -> Words<'a>
    ensures { words_left result ≡ past_own (takes_word word.now) (words_left words.entry) }
{
    if takes_word(word) {
        let _own = words.next_word();
    }
    words
}

/// The device that the words after the verb name.
fn device_behind<'a>(mut words: Words<'a>) -> Option<&'a [u8]>
    ensures { MatchOption result (device_from (words_left words.entry) ≡ None)
        (λ name. device_from (words_left words.entry) ≡ Some name.now) }
{
    'heads: while let Some(word) = words.next_word() {
        if word == b"dev".as_slice() {
            match words.next_word() {
                Some(name) => return Some(name),
                None => return None,
            }
        }
        words = past_own(words, word);
    }
    None
}

/// The device that a line of tc names (tc(8)). Its first three words are tc, qdisc and a verb.
pub fn device_in(line: &[u8]) -> Option<&[u8]>
    ensures { MatchOption result (device_in (words_of line.now) ≡ None)
        (λ name. device_in (words_of line.now) ≡ Some name.now) }
{
    let mut words = Words::new(line);
    let Some(_) = words.next_word() else {
        return None;
    };
    let Some(_) = words.next_word() else {
        return None;
    };
    let Some(_) = words.next_word() else {
        return None;
    };
    device_behind(words)
}

/// Whether the words of a line begin with tc and qdisc.
fn begins_tc(line: &[u8]) -> bool
    ensures { result ≡ begins_tc (words_of line.now) }
{
    let mut words = Words::new(line);
    let Some(tc) = words.next_word() else {
        return false;
    };
    let Some(qdisc) = words.next_word() else {
        return false;
    };
    tc == b"tc".as_slice() && qdisc == b"qdisc".as_slice()
}

/// The device that a line of tc names, if it is another one than this.
pub(crate) fn other_device<'a>(line: &'a [u8], name: &[u8]) -> Option<&'a [u8]>
    ensures other { MatchOption result (is_of_other name.now line.now ≡ false)
        (λ _. is_of_other name.now line.now ≡ true) }
    ensures device { IfSome result (λ device. device_in (words_of line.now) ≡ Some device.now) }
{
    if !begins_tc(line) {
        return None;
    }
    match device_in(line) {
        Some(device) if device != name => Some(device),
        _ => None,
    }
}
