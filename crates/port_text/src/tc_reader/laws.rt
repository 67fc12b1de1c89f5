//! What the commands and the faults of lines have to do with each other. The functions run nothing: the contract of
//! each is its law.

ghost use Rattle.std.specs.Prelude.{◌≡◌, ◌⊎◌, List, Result};
ghost use Rattle.port_text.specs.Words.{Command, MAX_SDU_VALUES, Word, TcFault, IsCommand, HasFault, IsReader};

/// Every list of words says a command or has a first fault, never both, and never two of either.
pub fn one_reading()
    ensures some { (line : List Word) →
        ((c : Command) × IsCommand line c) ⊎ ((f : TcFault) × HasFault line f) }
    ensures not_both { (line : List Word) (c : Command) (f : TcFault) → IsCommand line c →
        HasFault line f → ⊥ }
    ensures command { (line : List Word) (c d : Command) → IsCommand line c → IsCommand line d →
        c ≡ d }
    ensures fault { (line : List Word) (f g : TcFault) → HasFault line f → HasFault line g → f ≡ g }
{}

/// There is a function that answers each line of words with its command or its first fault, and just one.
pub fn one_reader()
    ensures some { (read : List Word → Result Command TcFault) × IsReader read }
    ensures one { (read other : List Word → Result Command TcFault) → IsReader read →
        IsReader other → (line : List Word) → read line ≡ other line }
{}

/// `max-sdu` has 16 values at most, as tc-taprio(8) of Linux has them for 16 classes.
pub fn most_values()
    ensures { MAX_SDU_VALUES ≡ 16 }
{}
