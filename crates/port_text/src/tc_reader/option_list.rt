//! All options of a line.

ghost use Rattle.std.specs.Prelude.{◌≡◌, ◌+◌, ◌<◌, List, [], Some, None, true, IfOk, MatchBool, MatchResult};
ghost use Rattle.port_text.specs.Words.{words_left, words_taken, total, Moves, Item, no_options, item_at, allowed, view, capped, FailsOne, Takes, TakesOne, Reads, SoFar, Word, given_by};

use crate::tc_reader::capped::CappedOptions;
use crate::tc_reader::fault::{Opt, TcFault};
use crate::tc_reader::lists::push_capped;
use crate::tc_reader::options::{option_named, take_values};
use crate::tc_reader::values::{take_front_entry, take_plain_entry};
use text::words::Words;

fn allowed(given: &CappedOptions, place: usize, opt: Option<Opt>) -> Result<Opt, TcFault>
    ensures { result ≡ allowed (view given.now) place opt }
{
    let Some(opt) = opt else {
        return Err(TcFault::UnknownOption(place));
    };
    if opt == Opt::TxtimeDelay || opt == Opt::Fp {
        return Err(TcFault::Unsupported(opt));
    }
    if given.has(opt) {
        return Err(TcFault::Repeated(opt));
    }
    Ok(opt)
}

#[tactic(auto, unfolding(crate::specs::Options::item_at))]
fn take_option(
    given: &mut CappedOptions,
    words: &mut Words<'_>,
    place: usize,
    word: &[u8],
) -> Result<(), TcFault>
    requires { words_taken words.old ≡ place + 1 }
    ensures item { Takes (view given.old)
        (item_at (view given.old) place word.now (words_left words.old)) result (view given.new)
        (words_left words.new) }
    ensures moves { Moves words.old words.new }
{
    let opt = allowed(given, place, option_named(word))?;
    take_values(given, words, opt)
}

/// The next option with its values. False at the end of the line.
#[inline(always)]
fn take_next(given: &mut CappedOptions, words: &mut Words<'_>) -> Result<bool, TcFault>
    ensures next { MatchResult result
        (λ more. MatchBool more
        (TakesOne (view given.old) (words_taken words.old) (words_left words.old) (view given.new)
        (words_left words.new)) ((words_left words.old ≡ []) × (view given.new ≡ view given.old)))
        (λ f. FailsOne (view given.old) (words_taken words.old) (words_left words.old) f) }
    ensures moves { Moves words.old words.new }
    ensures onward { IfOk result
        (λ more. more ≡ true → words_taken words.old < words_taken words.new) }
{
    if let Some(entry) = take_plain_entry(words) {
        push_capped(&mut given.entries, entry);
        return Ok(true);
    }
    let place = words.place();
    let Some(word) = words.next_word() else {
        return Ok(false);
    };
    take_option(given, words, place, word)?;
    Ok(true)
}

/// An entry that others come after, and that stands as in most lines. False where none does, and then nothing changes.
#[inline(always)]
fn take_entry_on(given: &mut CappedOptions, words: &mut Words<'_>) -> bool
    ensures next { MatchBool result
        (TakesOne (view given.old) (words_taken words.old) (words_left words.old) (view given.new)
        (words_left words.new)) ((words.new ≡ words.old) × (view given.new ≡ view given.old)) }
    ensures moves { Moves words.old words.new }
    ensures onward { result ≡ true → words_taken words.old < words_taken words.new }
{
    let Some(entry) = take_front_entry(words) else {
        return false;
    };
    push_capped(&mut given.entries, entry);
    true
}

/// The entries that stand as in most lines, up to the last: most options of a long line. The cursor is a local one,
/// which the compiler keeps in registers.
#[inline(always)]
fn take_entries(given: &mut CappedOptions, words: &mut Words<'_>)
    ensures read { (start : List Word) →
        SoFar (total words.old) start (words_left words.old) (view given.old) →
        SoFar (total words.old) start (words_left words.new) (view given.new) }
    ensures moves { Moves words.old words.new }
{
    let mut after = *words;
    'entries: while take_entry_on(given, &mut after) {}
    *words = after;
}

/// Reads the options of the words after `taprio`, up to the end or the first fault. They are written where they are
/// kept, since they take two kilobytes.
pub(crate) fn read_options(words: Words<'_>, given: &mut CappedOptions) -> Result<(), TcFault>
    requires { view given.old ≡ no_options }
    ensures { MatchResult result
        (λ _. (items : List Item)
        × Reads no_options (total words.entry) (words_left words.entry) items None
        × (view given.new ≡ capped (given_by items)))
        (λ f. (items : List Item)
        × Reads no_options (total words.entry) (words_left words.entry) items (Some f)) }
{
    let mut rest = words;
    'options: while take_next(given, &mut rest)? {
        take_entries(given, &mut rest);
    }
    Ok(())
}
