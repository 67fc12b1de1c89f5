//! A summary where one is wanted, and none where it isn't.

ghost use Rattle.std.specs.Prelude.{◌≡◌, IfOk};
ghost use Rattle.abstract_port.specs.Answers.{arrival_answer, command_answer};
ghost use Rattle.abstract_port.specs.declared.Answer.TheVariants as Answers;
ghost use Rattle.summary.specs.Observed.{seen};
ghost use Rattle.summary.specs.Wanted.{noted, watched};

use crate::tally::Summary;
use abstract_port::{Answer, Dropped, Refused, Start};
use std::alloc::{AllocError, Allocator};
use wire_time::Frame;

/// A summary of which nothing is seen yet, where one is wanted, with all the memory that it ever wants: the arrival
/// moments of so many frames a class.
pub fn summary_wanted<A: Allocator + Clone>(
    alloc: &A,
    wanted: bool,
    room: u32,
) -> Result<Option<Summary<A>>, AllocError>
    ensures { IfOk result (λ summary. summary ≡ watched wanted room) }
{
    if wanted {
        let summary = Summary::new(alloc, room)?;
        Ok(Some(summary))
    } else {
        Ok(None)
    }
}

/// Takes note of an answer that a port gives at this moment, in picoseconds, where a summary is wanted.
pub fn note<A: Allocator>(summary: &mut Option<Summary<A>>, now: u128, answer: &Answer)
    ensures { summary.new ≡ noted now answer.now summary.old }
{
    if let Some(summary) = summary {
        summary.see(now, answer);
    }
}

/// Takes note of what became of a frame. Apart, since mostly no summary is wanted, and an answer is large.
#[inline(never)]
fn see_verdict<A: Allocator>(
    summary: &mut Summary<A>,
    now: u128,
    frame: &Frame,
    verdict: Result<u8, Dropped>,
)
    ensures { summary.new ≡ seen now (arrival_answer frame.now verdict) summary.old }
{
    let id = frame.id;
    match verdict {
        Ok(class) => summary.see(now, &Answer::Queued { id, class }),
        Err(why) => summary.see(now, &Answer::Dropped { id, why }),
    }
}

/// Takes note of what became of a frame that arrived at this moment, in picoseconds, where a summary is wanted: it is
/// queued in a class, or dropped.
pub fn note_verdict<A: Allocator>(
    summary: &mut Option<Summary<A>>,
    now: u128,
    frame: &Frame,
    verdict: Result<u8, Dropped>,
)
    ensures { summary.new ≡ noted now (arrival_answer frame.now verdict) summary.old }
{
    if let Some(summary) = summary {
        see_verdict(summary, now, frame, verdict);
    }
}

/// Takes note of a frame that starts. Apart for the same reasons, and with a copy of its own: what starts mostly stays
/// in registers.
#[inline(never)]
fn see_start<A: Allocator>(summary: &mut Summary<A>, now: u128, start: Start)
    ensures { summary.new ≡ seen now (Answers.Start start) summary.old }
{
    summary.see(now, &Answer::Start(start));
}

/// Takes note of a frame that starts, which a port reports at this moment, in picoseconds, where a summary is wanted.
pub fn note_start<A: Allocator>(summary: &mut Option<Summary<A>>, now: u128, start: &Start)
    ensures { summary.new ≡ noted now (Answers.Start start.now) summary.old }
{
    if let Some(summary) = summary {
        see_start(summary, now, *start);
    }
}

/// Takes note of the answer to a command that is given at this moment, in picoseconds, where a summary is wanted: it is
/// accepted with a change moment, or refused.
pub fn note_installation<A: Allocator>(
    summary: &mut Option<Summary<A>>,
    now: u128,
    answer: Result<u128, Refused>,
)
    ensures { summary.new ≡ noted now (command_answer answer) summary.old }
{
    let Some(summary) = summary else {
        return;
    };
    match answer {
        Ok(change) => summary.see(now, &Answer::Installed(change)),
        Err(why) => summary.see(now, &Answer::Refused(why)),
    }
}
