//! How inputs are compared.

ghost use Rattle.std.specs.Prelude.{◌≡◌, ◌^◌, ◌-◌};
ghost use Rattle.text.specs.Times.{moment_in};
ghost use Rattle.compare.specs.Settings.{by_said};

use text::times::moment;

/// Which frame of one input is compared with which of the other: always the n-th of a key with the n-th of that key.
#[derive(Clone, Copy, Debug, PartialEq, Eq)]
pub enum By {
    /// All frames have one key: the n-th with the n-th.
    Order,
    /// The key is the ID: of a table the `id`, of a capture what `streams --capture` writes into a frame.
    Id,
    /// The key is what was captured of the frame. A table has none.
    Payload,
}

/// How inputs are compared, and what is found.
#[derive(Clone, Copy, Debug, PartialEq, Eq)]
pub struct CompareSettings {
    /// Which frames are compared.
    pub by: By,
    /// By how many picoseconds the moments of a pair may differ, where more, a frame without a partner, and no pair at
    /// all are found.
    pub within: Option<u128>,
}

/// What a word says of which frames are compared: `order`, `id` or `payload`.
pub fn by_given(word: &[u8]) -> Option<By>
    ensures { result ≡ by_said word.now }
{
    if word == b"order".as_slice() {
        Some(By::Order)
    } else if word == b"id".as_slice() {
        Some(By::Id)
    } else if word == b"payload".as_slice() {
        Some(By::Payload)
    } else {
        None
    }
}

/// By how many picoseconds moments may differ: a whole number of them, or a decimal number with its unit.
pub fn within_given(word: &[u8]) -> Option<u128>
    ensures { result ≡ moment_in (2 ^ 128 - 1) word.now }
{
    moment(word, u128::MAX)
}
