//! The lines of frames that are queued. Most follow one another by number, and ten of them begin alike.

ghost use Rattle.std.specs.Prelude.{◌≡◌, ◌+◌, ◌*◌, ◌<◌, ◌≤◌, Ok, length, take};
ghost use Rattle.abstract_port.specs.Answers.{arrival_answer};
ghost use Rattle.port_text.specs.AnswerLines.{answer_lines, queued_line};
ghost use Rattle.text.specs.Placed.{Placed};
ghost use Rattle.text.specs.declared.decimal_text.digits.TheConstants.{EIGHT_DIGITS};
ghost use Rattle.text.specs.Writes.{Writes};
ghost use Rattle.replay.specs.Queued.{queued_front};
ghost use Rattle.replay.specs.declared.queued.TheConstants.{FRONT};

use port_text::answer_text::{WriteFault, put_arrival};
use text::decimal_text::{EIGHT_DIGITS, put_digit, put_few, put_text};
use text::octet_writer::{LINE_ROOM, Line, PutLine};
use wire_time::{CLASSES, Frame};

/// The octets that the front of a line has room for.
const FRONT: usize = 16;

/// The line of a frame that is queued. What stands before the last digit of its number is kept for the frames after it.
#[derive(Clone, Copy)]
pub(crate) struct QueuedLine {
    tens: u64,
    front: [u8; FRONT],
    count: usize,
    digit: u8,
    class: u8,
    ghost few: { tens < EIGHT_DIGITS },
    ghost short: { count ≤ FRONT },
    ghost text: { take count front ≡ queued_front tens },
    ghost last: { digit < 10 },
    ghost named: { class < 10 },
}

/// The line of the first frame of ten numbers.
fn line_of(tens: u64) -> QueuedLine
    requires { tens < EIGHT_DIGITS }
    ensures { result.tens ≡ tens }
{
    let mut front = [0; FRONT];
    let mut count = put_text(b"queued ", &mut front, 0);
    if tens > 0 {
        count = put_few(tens, &mut front, count);
    }
    QueuedLine {
        tens,
        front,
        count,
        digit: 0,
        class: 0,
    }
}

/// Puts the first octets of a front over the front of room for a line, and answers how many.
#[inline(always)]
fn put_front(front: &[u8; FRONT], count: usize, room: &mut [u8; LINE_ROOM]) -> usize
    requires { count ≤ FRONT }
    ensures { Placed room.old room.new 0 (take count front.now) result }
{
    put_text(front, room, 0);
    count
}

impl Line for QueuedLine {
    ghost text = { λ line. queued_line (10 * line.tens + line.digit) line.class };

    #[inline(always)]
    fn put_into(&self, room: &mut [u8; LINE_ROOM]) -> usize {
        let at = put_front(&self.front, self.count, room);
        let at = put_digit(self.digit, room, at);
        let at = put_text(b" class ", room, at);
        let at = put_digit(self.class, room, at);
        put_text(b"\n", room, at)
    }
}

impl QueuedLine {
    /// The line of the frame of number 0.
    pub fn new() -> QueuedLine {
        line_of(0)
    }

    /// Goes on to other ten numbers.
    #[inline(never)]
    fn move_to(&mut self, tens: u64)
        requires { tens < EIGHT_DIGITS }
        ensures { self.new.tens ≡ tens }
    {
        *self = line_of(tens);
    }
}

/// Writes the line of a frame that is queued. At a fault a prefix of it is written.
#[inline(always)]
pub(crate) fn put_queued<V: PutLine>(
    line: &mut QueuedLine,
    frame: &Frame,
    class: u8,
    report: &mut V,
) -> Result<(), WriteFault>
    requires { class < CLASSES }
    ensures { Writes result (V.contents report.old) (V.contents report.new)
        (answer_lines (arrival_answer frame.now (Ok class))) }
{
    let tens = frame.id / 10;
    if tens != line.tens {
        if tens >= EIGHT_DIGITS {
            return put_arrival(report, frame, Ok(class));
        }
        line.move_to(tens);
    }
    line.digit = (frame.id % 10) as u8;
    line.class = class;
    report.put_line(line)
}
