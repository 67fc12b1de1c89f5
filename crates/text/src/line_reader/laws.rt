//! The law of lines. The function runs nothing: its contract is its law.
ghost use Rattle.text.specs.PhysicalLines.{SpellingLaw};

/// Lines are read as they are spelled, those of several physical lines too, and numbered by their first physical lines.
pub fn spelling_law()
    ensures { SpellingLaw }
{}
