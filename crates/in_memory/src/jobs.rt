//! What is reported of an input comes into slices.

ghost use Rattle.std.specs.Prelude.{◌≡◌, ◌≤◌, Some, [], length};
ghost use Rattle.in_memory.specs.Slices.{Answers, HasNoMemory, IsFailed, IsPut, refused, slices, told_of};
ghost use Rattle.job.specs.Outcome.{Outcome, RunsOut};

use job::{Fault, InputFault, say_fault};
use script::{BadValue, say_value};
use std::alloc::Allocator;

/// How a call ended, and how many octets there are of what it reports. C sees it as it stands.
#[repr(C)]
#[derive(Clone, Copy, Debug, PartialEq, Eq)]
pub struct Ran {
    /// How many octets the output has: those that are written, and at status 5 those that want room.
    pub output: usize,
    /// How many octets the text of the fault has, or wants.
    pub fault: usize,
    /// 0 done, 2 a value is refused, 3 the input is, 4 out of memory, 5 a slice has too little room.
    pub status: u8,
}

/// Puts a text at the front of a slice that has room for it.
pub(crate) fn put_front(text: &[u8], slice: &mut [u8])
    requires { length text.now ≤ length slice.old }
    ensures { IsPut slice.old slice.new text.now }
{
    slice[..text.len()].copy_from_slice(text);
}

/// Puts an output and the text of a fault into their slices, where both have room, and neither where one has not.
pub(crate) fn put_told(
    status: u8,
    text: &[u8],
    said: &[u8],
    output: &mut [u8],
    fault: &mut [u8],
) -> Ran
    ensures { Answers (record { status = status; output = text.now; fault = said.now }) result
        (slices output.old fault.old) (slices output.new fault.new) }
{
    let ran = Ran {
        output: text.len(),
        fault: said.len(),
        status,
    };
    if text.len() > output.len() || said.len() > fault.len() {
        return Ran { status: 5, ..ran };
    }
    put_front(text, output);
    put_front(said, fault);
    ran
}

/// The end when out of memory: nothing is written.
pub(crate) fn out_of_memory() -> Ran
    ensures { result ≡ record { output = 0; fault = 0; status = 4 } }
{
    Ran {
        output: 0,
        fault: 0,
        status: 4,
    }
}

/// Ends a run that has written its output into memory: that, and the text of a fault, come into the slices.
pub(crate) fn end_in_memory<A: Allocator, I: InputFault>(
    alloc: &A,
    run: Result<(), Fault<I>>,
    written: &[u8],
    output: &mut [u8],
    fault: &mut [u8],
) -> Ran
    ensures told { (whole : Outcome I) → RunsOut run (Some []) (Some written.now) whole →
        Answers (told_of I.telling whole) result (slices output.old fault.old)
        (slices output.new fault.new) }
    ensures failed { IsFailed run →
        HasNoMemory result (slices output.old fault.old) (slices output.new fault.new) }
{
    let Err(why) = run else {
        return put_told(0, written, b"", output, fault);
    };
    let mut said = Vec::new(alloc);
    let ended = say_fault(&why, &mut said);
    if ended.status == 4 || !ended.told {
        return out_of_memory();
    }
    put_told(ended.status, written, said.as_slice(), output, fault)
}

/// Reports a bad value: its text comes into the slice of faults, and no output is written.
pub(crate) fn refuse_value<A: Allocator>(
    alloc: &A,
    value: BadValue,
    output: &mut [u8],
    fault: &mut [u8],
) -> Ran
    ensures { Answers (refused value) result (slices output.old fault.old)
        (slices output.new fault.new) }
{
    let mut said = Vec::new(alloc);
    let ended = say_value(&value, &mut said);
    if !ended.told {
        return out_of_memory();
    }
    put_told(ended.status, b"", said.as_slice(), output, fault)
}
