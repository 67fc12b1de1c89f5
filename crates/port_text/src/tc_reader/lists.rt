//! Options with a list of values: the longest run of words of their form.

ghost use Rattle.std.specs.Prelude.{◌≡◌, ◌≤◌, ◌<◌, ◌+◌, ◌-◌, ℕ, Bool, List, Option, Ok, Err, [], ◌∷◌, ◌++◌, take, IfOk, IfSome, MatchOption, MatchResult, Some, true};
ghost use Rattle.text.specs.Numbers.{number_in, is_digits};
ghost use Rattle.text.specs.WordsLeft.{words_left, words_taken};
ghost use Rattle.port_text.specs.Cursor.{Moves};
ghost use Rattle.port_text.specs.Values.{is_range, range_of, limit_in};
ghost use Rattle.port_text.specs.Options.{begins, run_at, some_at, value_at};
ghost use Rattle.port_text.specs.Capped.{first_ones, with_front};
ghost use Rattle.port_text.specs.declared.tc_reader.fault.Opt.{Opt};
ghost use Rattle.port_text.specs.declared.tc_reader.fault.Opt.TheVariants.{Map, Queues, MaxSdu};

use crate::tc_reader::fault::{Opt, TcFault};
use crate::tc_reader::values::{is_range, limit_in, range_of};
use arrayvec::ArrayVec;
use text::words::{Words, is_digits, number};

/// A value of an option that has a list of them.
pub trait ListValue: Copy + Default {
    ghost option: { Opt };

    ghost form: { List ℕ → Bool };
    // The value that a word is, after so many values.
    ghost value: { ℕ → List ℕ → Option Self };

    /// The option.
    fn option() -> Opt
        ensures { result ≡ option };

    /// Whether a word has the form of a value.
    fn has_form(word: &[u8]) -> bool
        ensures { result ≡ form word.now };

    /// The value that a word is, after so many values.
    fn value_in(word: &[u8], before: usize) -> Option<Self>
        ensures { result ≡ value before word.now };

    /// The value that the next word is, whichever values came before, where it can be read at once. Else None, and
    /// nothing changes.
    fn front_value(words: &mut Words<'_>) -> Option<Self>
        ensures value { MatchOption result (words.new ≡ words.old)
            (λ x. (w : List ℕ) × (words_left words.old ≡ w ∷ words_left words.new) × (form w ≡ true)
            × ((before : ℕ) → value before w ≡ Some x)) }
        ensures taken { IfSome result (λ _. words_taken words.new ≡ words_taken words.old + 1) };
}

// The class of a priority.
impl ListValue for u8 {
    ghost option = { Map };

    ghost form = { is_digits };

    ghost value = { λ _. number_in 10 255 };

    fn option() -> Opt {
        Opt::Map
    }

    fn has_form(word: &[u8]) -> bool {
        is_digits(word)
    }

    fn value_in(word: &[u8], _before: usize) -> Option<u8> {
        let class = number(word, 255)?;
        Some(class as u8)
    }

    #[inline(always)]
    fn front_value(words: &mut Words<'_>) -> Option<u8> {
        let class = words.next_digit()?;
        Some(class as u8)
    }
}

// The count and the offset of a range of queues.
impl ListValue for (u16, u16) {
    ghost option = { Queues };

    ghost form = { is_range };

    ghost value = { λ _. range_of };

    fn option() -> Opt {
        Opt::Queues
    }

    fn has_form(word: &[u8]) -> bool {
        is_range(word)
    }

    fn value_in(word: &[u8], _before: usize) -> Option<(u16, u16)> {
        range_of(word)
    }

    #[inline(always)]
    fn front_value(_words: &mut Words<'_>) -> Option<(u16, u16)> {
        None
    }
}

// The size limit of a class, in octets.
impl ListValue for u32 {
    ghost option = { MaxSdu };

    ghost form = { is_digits };

    ghost value = { limit_in };

    fn option() -> Opt {
        Opt::MaxSdu
    }

    fn has_form(word: &[u8]) -> bool {
        is_digits(word)
    }

    fn value_in(word: &[u8], before: usize) -> Option<u32> {
        limit_in(word, before)
    }

    #[inline(always)]
    fn front_value(_words: &mut Words<'_>) -> Option<u32> {
        None
    }
}

/// Adds the value, unless there are N already.
pub(crate) fn push_capped<T: Copy + Default, const N: usize>(values: &mut ArrayVec<T, N>, value: T)
    ensures { values.new.items ≡ take N (values.old.items ++ value ∷ []) }
{
    if !values.is_full() {
        values.push(value);
    }
}

fn begins<T: ListValue>(words: &Words<'_>) -> bool
    ensures { result ≡ begins T.form (words_left words.now) }
{
    let mut after = *words;
    match after.next_word() {
        Some(word) => T::has_form(word),
        None => false,
    }
}

/// The next value of a list, of which the first stands at a place.
#[tactic(auto, unfolding(crate::specs::Options::value_at))]
fn take_next<T: ListValue>(words: &mut Words<'_>, first: usize) -> Result<T, TcFault>
    requires { first ≤ words_taken words.old }
    ensures value { MatchResult result
        (λ x. value_at T.option (T.value (words_taken words.old - first)) (words_taken words.old)
        (words_left words.old) ≡ Ok (x, words_left words.new))
        (λ f. value_at T.option (T.value (words_taken words.old - first)) (words_taken words.old)
        (words_left words.old) ≡ Err f) }
    ensures place { IfOk result (λ _. words_taken words.new ≡ words_taken words.old + 1) }
    ensures moves { Moves words.old words.new }
{
    let place = words.place();
    let Some(word) = words.next_word() else {
        return Err(TcFault::MissingWord(T::option()));
    };
    match T::value_in(word, place - first) {
        Some(value) => Ok(value),
        None => Err(TcFault::BadNumber(place)),
    }
}

/// Adds the values in front that can be read at once, or the first N where there are more.
#[inline(always)]
fn take_front_run<T: ListValue, const N: usize>(words: &mut Words<'_>, found: &mut ArrayVec<T, N>)
    requires { found.old.items ≡ [] }
    ensures value { (first : ℕ) →
        (front : List T) × (found.new.items ≡ take N front)
        × (with_front front
        (run_at T.form (λ place. T.value (place - first)) (words_taken words.new)
        (words_left words.new))
        ≡ run_at T.form (λ place. T.value (place - first)) (words_taken words.old)
        (words_left words.old)) }
    ensures moves { Moves words.old words.new }
{
    'values: while let Some(value) = T::front_value(words) {
        push_capped(found, value);
    }
}

fn take_run<T: ListValue, const N: usize>(words: &mut Words<'_>) -> Result<ArrayVec<T, N>, TcFault>
    ensures value { MatchResult result
        (λ v. first_ones N
        (run_at T.form (λ place. T.value (place - words_taken words.old)) (words_taken words.old)
        (words_left words.old)) ≡ Ok (v.items, words_left words.new))
        (λ f. run_at T.form (λ place. T.value (place - words_taken words.old))
        (words_taken words.old) (words_left words.old) ≡ Err f) }
    ensures moves { Moves words.old words.new }
{
    let first = words.place();
    let mut found = ArrayVec::new();
    take_front_run(words, &mut found);
    while begins::<T>(words) {
        let value = take_next(words, first)?;
        push_capped(&mut found, value);
    }
    Ok(found)
}

/// The values of a list, or the first N where there are more. Apart, so that the body that reads the entries, which
/// are most words of a line, stays small.
#[tactic(auto, unfolding(crate::specs::Options::some_at))]
#[inline(never)]
pub(crate) fn take_list<T: ListValue, const N: usize>(
    words: &mut Words<'_>,
) -> Result<ArrayVec<T, N>, TcFault>
    requires { 0 < N }
    ensures value { MatchResult result
        (λ v. first_ones N
        (some_at T.option T.form (λ place. T.value (place - words_taken words.old))
        (words_taken words.old) (words_left words.old)) ≡ Ok (v.items, words_left words.new))
        (λ f. some_at T.option T.form (λ place. T.value (place - words_taken words.old))
        (words_taken words.old) (words_left words.old) ≡ Err f) }
    ensures moves { Moves words.old words.new }
{
    let found = take_run(words)?;
    if found.is_empty() {
        return Err(TcFault::MissingWord(T::option()));
    }
    Ok(found)
}
