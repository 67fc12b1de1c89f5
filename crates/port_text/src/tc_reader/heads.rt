//! What stands between the verb and `taprio`.

ghost use Rattle.std.specs.Prelude.{◌≡◌, List, [], Some, Ok, Err, MatchResult};
ghost use Rattle.port_text.specs.Words.{words_left, Moves, Head, ReadsHeads, HeadTakes, seen_of, behind_heads};

use crate::tc_reader::fault::{Opt, TcFault};
use text::words::Words;

/// Which heads a line has.
#[derive(Clone, Copy, Debug, PartialEq, Eq)]
pub struct Seen {
    /// A device.
    pub dev: bool,
    /// A parent, or `root`.
    pub parent: bool,
    /// A handle.
    pub handle: bool,
}

/// One head of the line.
fn take_head(seen: &mut Seen, words: &mut Words<'_>, word: &[u8]) -> Result<(), TcFault>
    ensures head { HeadTakes seen.old word.now (words_left words.old) result seen.new
        (words_left words.new) }
    ensures moves { Moves words.old words.new }
{
    if word == b"dev".as_slice() {
        if seen.dev {
            return Err(TcFault::Repeated(Opt::Dev));
        }
        seen.dev = true;
        words.next_word().ok_or(TcFault::MissingWord(Opt::Dev))?;
    } else if word == b"root".as_slice() {
        if seen.parent {
            return Err(TcFault::Repeated(Opt::Parent));
        }
        seen.parent = true;
    } else if word == b"parent".as_slice() {
        if seen.parent {
            return Err(TcFault::Repeated(Opt::Parent));
        }
        seen.parent = true;
        words.next_word().ok_or(TcFault::MissingWord(Opt::Parent))?;
    } else if word == b"handle".as_slice() {
        if seen.handle {
            return Err(TcFault::Repeated(Opt::Handle));
        }
        seen.handle = true;
        words.next_word().ok_or(TcFault::MissingWord(Opt::Handle))?;
    } else {
        return Err(TcFault::NotTaprio);
    }
    Ok(())
}

/// The heads of the words after the verb, and whether `taprio` ends them; else the line does.
pub(crate) fn read_heads(words: &mut Words<'_>) -> Result<(Seen, bool), TcFault>
    ensures heads { MatchResult result
        (λ s. (heads : List Head)
        × ReadsHeads [] (words_left words.old) heads (Ok (behind_heads s.1 (words_left words.new)))
        × (s.0 ≡ seen_of heads))
        (λ f. (heads : List Head) × ReadsHeads [] (words_left words.old) heads (Err f)) }
    ensures moves { Moves words.old words.new }
{
    let mut seen = Seen {
        dev: false,
        parent: false,
        handle: false,
    };
    while let Some(word) = words.next_word() {
        if word == b"taprio".as_slice() {
            return Ok((seen, true));
        }
        take_head(&mut seen, words, word)?;
    }
    Ok((seen, false))
}
