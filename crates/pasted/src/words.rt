//! The words of a physical line.

ghost use Rattle.std.specs.Prelude.{◌≡◌, ◌≤◌, ◌<◌, ◌+◌, ◌-◌, ◌==◌, ◌||◌, length, not, nat_eq, slice_index, true};
ghost use Rattle.std.specs.List.{position_or_len, prefix_len, suffix_len};
ghost use Rattle.text.specs.Words.{is_blank};
ghost use Rattle.pasted.specs.Plain.{behind_word, first_word, indent, is_end, next_word, past_blanks, unblank_length, unended_length};

/// Whether an octet is a blank.
pub(crate) fn is_blank(octet: u8) -> bool
    ensures { result ≡ is_blank octet }
{
    matches!(octet, b' ' | b'\t' | b'\r' | b'\n')
}

/// Whether an octet may stand behind a line's last word.
fn is_end(octet: u8) -> bool
    ensures { result ≡ is_end octet }
{
    is_blank(octet) || octet == b';'
}

/// How many blanks stand in front.
fn blanks_in_front(octets: &[u8]) -> usize
    ensures is { result ≡ prefix_len is_blank octets.now }
    ensures within { result ≤ length octets.now }
{
    let mut count = 0;
    while count < octets.len() && is_blank(octets[count]) {
        count += 1;
    }
    count
}

/// How many octets stand before the first blank.
pub(crate) fn word_length(octets: &[u8]) -> usize
    ensures is { result ≡ position_or_len is_blank octets.now }
    ensures within { result ≤ length octets.now }
    ensures blank { result < length octets.now → is_blank (slice_index octets.now result) ≡ true }
{
    let mut count = 0;
    while count < octets.len() && !is_blank(octets[count]) {
        count += 1;
    }
    count
}

/// How many octets stand before the blanks at the end.
pub(crate) fn unblank_length(line: &[u8]) -> usize
    ensures is { result ≡ unblank_length line.now }
    ensures within { result ≤ length line.now }
{
    let mut count = line.len();
    while count > 0 && is_blank(line[count - 1]) {
        count -= 1;
    }
    count
}

/// How many octets stand before the blanks and semicolons at the end.
pub(crate) fn unended_length(line: &[u8]) -> usize
    ensures is { result ≡ unended_length line.now }
    ensures within { result ≤ length line.now }
{
    let mut count = line.len();
    while count > 0 && is_end(line[count - 1]) {
        count -= 1;
    }
    count
}

/// The blanks in front.
pub(crate) fn indent(octets: &[u8]) -> &[u8]
    ensures { result.now ≡ indent octets.now }
{
    &octets[..blanks_in_front(octets)]
}

/// From the first word on.
fn past_blanks(octets: &[u8]) -> &[u8]
    ensures { result.now ≡ past_blanks octets.now }
{
    &octets[blanks_in_front(octets)..]
}

/// The first word, or nothing.
pub(crate) fn first_word(octets: &[u8]) -> &[u8]
    ensures { result.now ≡ first_word octets.now }
{
    let words = past_blanks(octets);
    &words[..word_length(words)]
}

/// What comes behind the first word.
pub(crate) fn behind_word(octets: &[u8]) -> &[u8]
    ensures { result.now ≡ behind_word octets.now }
{
    let words = past_blanks(octets);
    &words[word_length(words)..]
}

/// From the second word on.
pub(crate) fn next_word(octets: &[u8]) -> &[u8]
    ensures { result.now ≡ next_word octets.now }
{
    past_blanks(behind_word(octets))
}
