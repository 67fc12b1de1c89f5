//! The law of words. The function runs nothing: its contract is its law.
ghost use Rattle.text.specs.Joined.{JoinedWordsLaw};

/// Words with a space between each two are read as those words.
pub fn joined_words_law()
    ensures { JoinedWordsLaw }
{}
