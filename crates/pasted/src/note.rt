//! What was passed over in pasted lines.

ghost use Rattle.std.specs.Prelude.{◌≡◌};
ghost use Rattle.pasted.specs.Notes.{counted, is_delay, is_fp, is_txtime, noted, with_word};

use crate::roles::Role;

/// In how many physical lines something was passed over, at most `u64::MAX`, and where first.
#[derive(Clone, Copy, Debug, PartialEq, Eq)]
pub struct Passed {
    /// How many lines.
    pub lines: u64,
    /// The number of the first of them, from 1; 0 where there is none.
    pub first: u64,
}

impl Passed {
    /// In no line.
    pub const NONE: Passed = Passed { lines: 0, first: 0 };

    /// One line more, of this number, if it was passed over there.
    fn count(self, number: u64, there: bool) -> Passed
        ensures { result ≡ counted self number there }
    {
        if !there {
            return self;
        }
        Passed {
            lines: self.lines.saturating_add(1),
            first: if self.lines == 0 { number } else { self.first },
        }
    }
}

/// Whether a word is left out with fp.
fn is_fp(role: Role) -> bool
    ensures { result ≡ is_fp role }
{
    matches!(role, Role::Fp)
}

/// Whether a word is txtime-delay, which is left out.
fn is_delay(role: Role) -> bool
    ensures { result ≡ is_delay role }
{
    matches!(role, Role::Delay)
}

/// Whether a word is flags, which are left out.
fn is_txtime(role: Role) -> bool
    ensures { result ≡ is_txtime role }
{
    matches!(role, Role::Assist)
}

/// What is passed over in one physical line.
#[derive(Clone, Copy, Debug, PartialEq, Eq)]
pub struct Marks {
    /// A byte order mark in front of the input.
    pub byte_order: bool,
    /// A prompt of a shell.
    pub prompt: bool,
    /// sudo and its options.
    pub sudo: bool,
    /// A path of tc.
    pub path: bool,
    /// Blanks behind the backslash that joins the next line.
    pub blanks: bool,
    /// Quotation marks around words.
    pub quotes: bool,
    /// Semicolons behind the last word.
    pub semicolon: bool,
    /// fp and the words behind it: frame preemption.
    pub fp: bool,
    /// txtime-delay and its value.
    pub txtime_delay: bool,
    /// flags and its value, which asks for txtime assist.
    pub txtime_assist: bool,
}

impl Marks {
    /// Nothing.
    pub const NONE: Marks = Marks {
        byte_order: false,
        prompt: false,
        sudo: false,
        path: false,
        blanks: false,
        quotes: false,
        semicolon: false,
        fp: false,
        txtime_delay: false,
        txtime_assist: false,
    };

    /// With what is passed over at one more word.
    pub(crate) fn with_word(self, is_quoted: bool, role: Role) -> Marks
        ensures { result ≡ with_word self is_quoted role }
    {
        Marks {
            quotes: self.quotes | is_quoted,
            fp: self.fp | is_fp(role),
            txtime_delay: self.txtime_delay | is_delay(role),
            txtime_assist: self.txtime_assist | is_txtime(role),
            ..self
        }
    }
}

/// What was passed over in the lines of an input, each kind by itself.
#[derive(Clone, Copy, Debug, PartialEq, Eq)]
pub struct Note {
    /// A byte order mark in front of the input.
    pub byte_order: Passed,
    /// Prompts of a shell.
    pub prompt: Passed,
    /// sudo and its options.
    pub sudo: Passed,
    /// Paths of tc.
    pub path: Passed,
    /// Blanks behind the backslash that joins the next line.
    pub blanks: Passed,
    /// Quotation marks around words.
    pub quotes: Passed,
    /// Semicolons behind the last word.
    pub semicolon: Passed,
    /// fp and the words behind it.
    pub fp: Passed,
    /// txtime-delay and its value.
    pub txtime_delay: Passed,
    /// flags and its value, which asks for txtime assist.
    pub txtime_assist: Passed,
}

impl Note {
    /// Nothing was passed over.
    pub const NONE: Note = Note {
        byte_order: Passed::NONE,
        prompt: Passed::NONE,
        sudo: Passed::NONE,
        path: Passed::NONE,
        blanks: Passed::NONE,
        quotes: Passed::NONE,
        semicolon: Passed::NONE,
        fp: Passed::NONE,
        txtime_delay: Passed::NONE,
        txtime_assist: Passed::NONE,
    };

    /// With what was passed over in one more line, of this number.
    pub(crate) fn with(self, number: u64, marks: Marks) -> Note
        ensures { result ≡ noted self number marks }
    {
        Note {
            byte_order: self.byte_order.count(number, marks.byte_order),
            prompt: self.prompt.count(number, marks.prompt),
            sudo: self.sudo.count(number, marks.sudo),
            path: self.path.count(number, marks.path),
            blanks: self.blanks.count(number, marks.blanks),
            quotes: self.quotes.count(number, marks.quotes),
            semicolon: self.semicolon.count(number, marks.semicolon),
            fp: self.fp.count(number, marks.fp),
            txtime_delay: self.txtime_delay.count(number, marks.txtime_delay),
            txtime_assist: self.txtime_assist.count(number, marks.txtime_assist),
        }
    }
}
