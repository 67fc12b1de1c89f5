//! A whole line.

ghost use Rattle.std.specs.Prelude.{◌≡◌, ◌↔◌, Option, Some, None, Ok, true, false, MatchOption, IfErr};
ghost use Rattle.port_text.specs.Words.{words_of, words_left, total, Moves, Word, usual_heads, behind_heads, verb_of, verb_at, ReadsOptions, deletion_before, ReadsLine, HasFault, IsCommand};

use crate::tc_reader::capped::CappedOptions;
use crate::tc_reader::end::{CommandPlace, check_heads, give_command, put_fault};
use crate::tc_reader::fault::TcFault;
use crate::tc_reader::heads::{Seen, read_heads};
use crate::tc_reader::option_list::read_options;
use abstract_port::Command;
use text::words::Words;

/// What a verb does.
#[derive(Clone, Copy, Debug, PartialEq, Eq)]
pub enum Verb {
    /// It gives the port a new schedule: `add`, `replace` and `change`.
    Replace,
    /// It takes the schedule away: `del`.
    Delete,
}

fn verb_of(word: &[u8]) -> Option<Verb>
    ensures { result ≡ verb_of word.now }
{
    if word == b"add".as_slice() || word == b"replace".as_slice() || word == b"change".as_slice() {
        Some(Verb::Replace)
    } else if word == b"del".as_slice() {
        Some(Verb::Delete)
    } else {
        None
    }
}

/// The first three words of a line.
fn take_verb(words: &mut Words<'_>) -> Option<Verb>
    ensures verb { MatchOption result (verb_at (words_left words.old) ≡ None)
        (λ v. verb_at (words_left words.old) ≡ Some (v, words_left words.new)) }
    ensures moves { Moves words.old words.new }
{
    let first = words.next_word()?;
    let second = words.next_word()?;
    let verb = words.next_word()?;
    if first == b"tc".as_slice() && second == b"qdisc".as_slice() {
        verb_of(verb)
    } else {
        None
    }
}

/// Goes past the heads of most lines, which name a device and `root`. Else false, and no word is taken.
#[inline(always)]
fn skip_usual_heads(words: &mut Words<'_>) -> bool
    ensures heads { result ≡ true →
        (name : Word) × (words_left words.old ≡ usual_heads name (words_left words.new)) }
    ensures moves { Moves words.old words.new }
    ensures kept { result ≡ false → words.new ≡ words.old }
{
    let mut after = *words;
    if !after.skip_text(b"tc qdisc ", 2) || !after.skip_text(b"replace dev ", 2) {
        return false;
    }
    let Some(_name) = after.next_word() else {
        return false;
    };
    if !after.skip_text(b" root taprio ", 2) {
        return false;
    }
    *words = after;
    true
}

/// The command of the options after `taprio`, written where it is kept, as they are.
#[inline(never)]
fn read_replacement(
    words: Words<'_>,
    seen: Seen,
    given: &mut CappedOptions,
    answer: &mut Result<Command, TcFault>,
)
    ensures { ReadsOptions (total words.entry) seen.dev seen.parent
        (words_left words.entry) answer.new }
{
    given.clear();
    if let Err(fault) = read_options(words, given) {
        put_fault(fault, answer);
        return;
    }
    match check_heads(seen) {
        Ok(()) => {}
        Err(fault) => {
            put_fault(fault, answer);
            return;
        }
    }
    give_command(given, answer);
}

/// A deletion, whose line ends after `taprio` or without it.
fn read_deletion(words: Words<'_>, seen: Seen, named: bool, answer: &mut Result<Command, TcFault>)
    ensures { answer.new
        ≡ deletion_before (total words.entry) seen.dev seen.parent
        (behind_heads named (words_left words.entry)) }
{
    let mut rest = words;
    let place = rest.place();
    if named && rest.next_word().is_some() {
        put_fault(TcFault::UnknownOption(place), answer);
        return;
    }
    match check_heads(seen) {
        Ok(()) => *answer = Ok(Command::Delete),
        Err(fault) => put_fault(fault, answer),
    }
}

/// A line, from the left. The answer is written where it is kept, since a command takes two kilobytes.
fn read_line(line: &[u8], given: &mut CappedOptions, answer: &mut Result<Command, TcFault>)
    ensures { ReadsLine (words_of line.now) answer.new }
{
    let mut words = Words::new(line);
    if skip_usual_heads(&mut words) {
        let seen = Seen {
            dev: true,
            parent: true,
            handle: false,
        };
        read_replacement(words, seen, given, answer);
        return;
    }
    let Some(verb) = take_verb(&mut words) else {
        put_fault(TcFault::NotTaprio, answer);
        return;
    };
    let (seen, named) = match read_heads(&mut words) {
        Ok(heads) => heads,
        Err(fault) => {
            put_fault(fault, answer);
            return;
        }
    };
    match verb {
        Verb::Delete => read_deletion(words, seen, named, answer),
        Verb::Replace if named => read_replacement(words, seen, given, answer),
        Verb::Replace => put_fault(TcFault::NotTaprio, answer),
    }
}

/// Reads a line as `read_command_into` does, into a place in two parts.
fn read_into(line: &[u8], given: &mut CappedOptions, answer: &mut Result<Command, TcFault>)
    ensures command { (command : Command) →
        (answer.new ≡ Ok command) ↔ IsCommand (words_of line.now) command }
    ensures fault { IfErr answer.new (HasFault (words_of line.now)) }
{
    read_line(line, given, answer);
}

/// The command that a line says, exactly where the grammar of tc-taprio(8) has one; else the line's first fault. It
/// takes the place of another answer, and is not moved: where that one has a list, the list is written over.
///
/// Blanks are those of `Words`. Words are read from the left, and when all are read, what is missing is found, and then
/// what the map, the ranges and the entries are refused for. A fault's place counts the words from 0.
pub fn read_command_into(line: &[u8], place: &mut CommandPlace)
    ensures command { (command : Command) →
        (place.new.answer ≡ Ok command) ↔ IsCommand (words_of line.now) command }
    ensures fault { IfErr place.new.answer (HasFault (words_of line.now)) }
{
    read_into(line, &mut place.given, &mut place.answer);
}

/// The command that a line says, or its first fault, as `read_command_into` answers.
pub fn read_command(line: &[u8]) -> Result<Command, TcFault>
    ensures command { (command : Command) →
        (result ≡ Ok command) ↔ IsCommand (words_of line.now) command }
    ensures fault { IfErr result (HasFault (words_of line.now)) }
{
    let mut given = CappedOptions::new();
    let mut answer = Err(TcFault::NotTaprio);
    read_into(line, &mut given, &mut answer);
    answer
}
