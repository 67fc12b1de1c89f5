//! The law of merged scripts. The function runs nothing: its contract is its law.

ghost use Rattle.traffic.specs.Merged.{MergedLaw};

/// What is written of a table and a script, read as scripts are read, has just the lines of the table's frames and
/// those of the script. The lines of the frames say them, and each line of the script has its words, the last one too.
pub fn merged_law()
    ensures { MergedLaw }
{}
