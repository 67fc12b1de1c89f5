//! Which streams of a table a capture can have.

ghost use Rattle.std.specs.Prelude.{◌≡◌, ◌≤◌, IfOk};
ghost use Rattle.table_capture.specs.Words.{IsKept, IsSaid, carried, ends_in_time, greatest_moment, has_tag, is_told};

use capture::CAPTURE_END;
use script::ScriptFault;
use traffic::{Plan, Stream, greatest_offset, has_ids};

/// The priorities that a tag can say (IEEE Std 802.1Q-2018, 9.6).
const PRIORITIES: u8 = 8;

/// Octets of the header of a frame that has a tag: the two addresses, the tag and the type.
const TAGGED_HEADER: u32 = 18;

/// Whether a frame has a customer tag in a capture: where the table says so, and where it has a priority to tell.
pub(crate) fn has_tag(tagged: bool, priority: u8) -> bool
    ensures { result ≡ has_tag tagged priority }
{
    tagged || priority != 0
}

/// Whether a capture can tell the priority of a stream's frames, also of the shortest.
fn is_told(stream: &Stream) -> bool
    ensures { result ≡ is_told stream.now }
{
    if stream.priority >= PRIORITIES {
        return false;
    }
    !has_tag(stream.tagged, stream.priority) || stream.shortest >= TAGGED_HEADER
}

/// Whether the last frame of a stream comes while a capture can say its moment, however late it may be.
fn ends_in_time(plan: &Plan, stream: &Stream) -> bool
    requires from { plan.now.from ≤ greatest_moment }
    requires said { IsSaid stream.now }
    ensures { result ≡ ends_in_time plan.now stream.now }
{
    let others = u128::from(stream.count.saturating_sub(1));
    let first = plan.from + greatest_offset(plan.timing, stream);
    first + stream.jitter + stream.period * others < CAPTURE_END
}

/// A stream whose frames a capture can have, or its fault.
pub(crate) fn carried(plan: &Plan, stream: Stream) -> Result<Stream, ScriptFault>
    requires from { plan.now.from ≤ greatest_moment }
    requires said { IsSaid stream }
    ensures carried { result ≡ carried plan.now stream }
    ensures kept { IfOk result (IsKept (carried plan.now)) }
{
    if !has_ids(&stream) || !is_told(&stream) {
        return Err(ScriptFault::BadNumber);
    }
    if !ends_in_time(plan, &stream) {
        return Err(ScriptFault::ClockTooLate);
    }
    Ok(stream)
}
