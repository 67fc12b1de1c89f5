//! Laws of replays. The functions run nothing: the contract of each is its law.

ghost use Rattle.std.specs.Prelude.{◌≤◌, List};
ghost use Rattle.replay.specs.Words.{new_port, Entry, IsFaithful, Origin, Request, Setup, MIN_MTU, MIN_PS_PER_OCTET, all_requests, IsSeparatedBy, MergeLaw};

use abstract_port::separation::separation;

/// What is reported of a script and a capture is the abstract port's answers to the events of both. In each report
/// every `start` line has its gate open from its start to its end, by the history of its time and by that at the end;
/// no two frames are on the wire at once; and the `count` lines are the counts over the events before them.
pub fn faithful()
    ensures { (s : Setup) (script : List Request) (entries : List Entry) →
        MIN_PS_PER_OCTET ≤ s.rate → MIN_MTU ≤ s.mtu →
        IsFaithful (all_requests script entries s.until) (new_port s.rate s.mtu s.room) }
{}

/// What is asked of the port are the lines of the script and the records of the capture, each source in its own order,
/// by rising moment, and at equal moments lines before records.
pub fn merge_law()
    ensures { MergeLaw }
{}

/// Of a replay whose events keep a class apart (every accepted schedule does, none is deleted, and one is in force at
/// each arrival of the class): what concerns the class in both outputs, the answer lines of the report and the records
/// of its starts, is that of the same requests without the other classes' arrivals; the clock events at their moments
/// stay.
pub fn separated()
    ensures { (s : Setup) (script : List Request) (origin : Origin) → MIN_PS_PER_OCTET ≤ s.rate →
        MIN_MTU ≤ s.mtu →
        IsSeparatedBy origin (all_requests script origin.entries s.until)
        (new_port s.rate s.mtu s.room) }
{
    separation();
}
