//! Whether a frame is in time for the deadline of its stream.

ghost use Rattle.std.specs.Prelude.{◌≡◌, ◌++◌, codes};
ghost use Rattle.frame_table.specs.Alerts.{judged_of};
ghost use Rattle.frame_table.specs.Deadline.{deadline_word, missed, word_by, word_of};
ghost use Rattle.frame_table.specs.RowText.{deadline_text};

use crate::rows::{Fate, FrameRow};
use script::{Missed, Watch};
use traffic::Stream;

/// Why a frame with this deadline isn't in time, if it isn't. The deadline, and the moment at which it came, are in
/// picoseconds.
fn missed(deadline: u128, came: u128, fate: &Fate) -> Option<Missed>
    ensures { result ≡ missed deadline came fate.now }
{
    match fate {
        Fate::Sent(start) => {
            if start.end.saturating_sub(came) <= deadline {
                None
            } else {
                Some(Missed::Late)
            }
        }
        Fate::Left => Some(Missed::Left),
        Fate::Lost(why) => Some(Missed::Dropped(*why)),
    }
}

/// The word for it, behind a comma.
fn field(missed: Option<Missed>) -> &'static [u8]
    ensures { result.now ≡ codes "," ++ deadline_word missed }
{
    match missed {
        None => b",met",
        Some(Missed::Late) | Some(Missed::Dropped(_)) => b",missed",
        Some(Missed::Left) => b",",
    }
}

/// The word for it by the deadline of its stream, where it is of one that has one, behind a comma.
fn field_by(deadline: Option<u128>, came: u128, fate: &Fate) -> &'static [u8]
    ensures { result.now ≡ codes "," ++ word_by deadline came fate.now }
{
    match deadline {
        None => b",",
        Some(deadline) => field(missed(deadline, came, fate)),
    }
}

/// Whether a frame of this stream, if it is of one, is in time, behind a comma, where there is a column of deadlines.
pub(crate) fn deadline_text(
    column: bool,
    stream: &Option<Stream>,
    came: u128,
    fate: &Fate,
) -> &'static [u8]
    ensures { result.now ≡ deadline_text column stream.now came fate.now }
{
    if !column {
        return b"";
    }
    match stream {
        None => b",",
        Some(stream) => field_by(stream.deadline, came, fate),
    }
}

/// Calls who watches for a frame whose stream has a deadline: whether it is in time.
pub(crate) fn tell_judged<H: Watch>(stream: &Option<Stream>, row: &FrameRow, watch: &mut H)
    ensures { H.alerted (judged_of stream.now row.now) watch.old watch.new }
{
    let Some(stream) = stream else {
        return;
    };
    let Some(deadline) = stream.deadline else {
        return;
    };
    let missed = missed(deadline, row.arrival.at, &row.fate);
    watch.deadline_judged(row.arrival.id, stream.first_id, missed);
}
