//! Laws of scripts. The functions run nothing: the contract of each is its law.

ghost use Rattle.std.specs.Prelude.{◌≤◌, ℕ, List, Result};
ghost use Rattle.script.specs.Words.{Command, TcFault, IsFaithfulTo, IsSeparatedIn, Setup, MIN_MTU, MIN_PS_PER_OCTET};

use abstract_port::separation::separation;

/// What is reported of a script is the abstract port's answers to its events. In each output every `start` line has its
/// gate open from its start to its end, by the history of its time and by that at the script's end; no two frames are
/// on the wire at once; and the `count` lines are the counts over the events before them.
pub fn faithful()
    ensures { (read : List (List ℕ) → Result Command TcFault) (s : Setup) (input : List ℕ) →
        MIN_PS_PER_OCTET ≤ s.rate → MIN_MTU ≤ s.mtu → IsFaithfulTo read s input }
{}

/// Of a script whose events keep a class apart (every accepted schedule does, none is deleted, and one is in force at
/// each arrival of the class): the answer lines that concern the class are those of the same requests without the other
/// classes' arrivals.
pub fn separated()
    ensures { (read : List (List ℕ) → Result Command TcFault) (s : Setup) (input : List ℕ) →
        MIN_PS_PER_OCTET ≤ s.rate → MIN_MTU ≤ s.mtu → IsSeparatedIn read s input }
{
    separation();
}
