//! The lines of frames, which are made where they are written.

ghost use Rattle.std.specs.Prelude.{◌≡◌, ◌<◌, ◌≤◌, ◌+◌, ◌++◌, length, take, decimal};
ghost use Rattle.text.specs.declared.octet_writer.line_writer.TheConstants.{LINE_ROOM};
ghost use Rattle.text.specs.declared.decimal_text.digits.TheConstants.{EIGHT_DIGITS};
ghost use Rattle.text.specs.Placed.{Placed};
ghost use Rattle.port_text.specs.AnswerLines.{dropped_line, installed_line, queued_line, start_line, start_text};
ghost use Rattle.port_text.specs.AnswerNames.{dropped_name};
ghost use Rattle.port_text.specs.declared.answer_text.event_lines.TheConstants.{DROPPED_ROOM};

use crate::answer_text::span::put_span;
use abstract_port::{Dropped, Start};
use text::decimal_text::{
    EIGHT_DIGITS, NearNumbers, put_digit, put_few, put_number, put_octet, put_short, put_text,
};
use text::octet_writer::{LINE_ROOM, Line};

/// The line of a frame of any number and class.
#[cold]
#[inline(never)]
fn put_any_queued(id: u64, class: u8, room: &mut [u8; LINE_ROOM]) -> usize
    ensures short { result ≤ LINE_ROOM }
    ensures text { take result room.new ≡ queued_line id class }
{
    let at = put_text(b"queued ", room, 0);
    let at = put_short(id, room, at);
    let at = put_text(b" class ", room, at);
    let at = put_octet(class, room, at);
    put_text(b"\n", room, at)
}

/// A frame was queued for a class.
#[derive(Clone, Copy)]
pub(crate) struct QueuedLine {
    pub(crate) id: u64,
    pub(crate) class: u8,
}

impl Line for QueuedLine {
    ghost text = { λ line. queued_line line.id line.class };

    // Most numbers and classes have few digits: their line takes no call.
    #[inline(always)]
    fn put_into(&self, room: &mut [u8; LINE_ROOM]) -> usize {
        if self.id >= EIGHT_DIGITS || self.class >= 10 {
            return put_any_queued(self.id, self.class, room);
        }
        let at = put_text(b"queued ", room, 0);
        let at = put_few(self.id, room, at);
        let at = put_text(b" class ", room, at);
        let at = put_digit(self.class, room, at);
        put_text(b"\n", room, at)
    }
}

/// The octets that the name of a reason has to have room for.
const DROPPED_ROOM: usize = 7;

/// Puts the name of the reason why a frame was dropped at a place, and answers where it ends.
fn put_dropped(why: Dropped, line: &mut [u8], at: usize) -> usize
    requires { at + DROPPED_ROOM ≤ length line.old }
    ensures text { Placed line.old line.new at (dropped_name why) result }
    ensures end { result ≤ at + DROPPED_ROOM }
{
    match why {
        Dropped::NoClass => put_text(b"NoClass", line, at),
        Dropped::Runt => put_text(b"Runt", line, at),
        Dropped::TooLong => put_text(b"TooLong", line, at),
        Dropped::OverSdu => put_text(b"OverSdu", line, at),
        Dropped::Full => put_text(b"Full", line, at),
    }
}

/// A frame was dropped, and why.
#[derive(Clone, Copy)]
pub(crate) struct DroppedLine {
    pub(crate) id: u64,
    pub(crate) why: Dropped,
}

impl Line for DroppedLine {
    ghost text = { λ line. dropped_line line.id line.why };

    #[inline(always)]
    fn put_into(&self, room: &mut [u8; LINE_ROOM]) -> usize {
        let at = put_text(b"dropped ", room, 0);
        let at = put_short(self.id, room, at);
        let at = put_text(b" ", room, at);
        let at = put_dropped(self.why, room, at);
        put_text(b"\n", room, at)
    }
}

/// A command was accepted, and when it comes into force, in picoseconds.
#[derive(Clone, Copy)]
pub(crate) struct InstalledLine {
    pub(crate) change: u128,
}

impl Line for InstalledLine {
    ghost text = { λ line. installed_line line.change };

    #[inline(always)]
    fn put_into(&self, room: &mut [u8; LINE_ROOM]) -> usize {
        let at = put_text(b"installed change ", room, 0);
        let at = put_number(self.change, room, at);
        put_text(b"\n", room, at)
    }
}

/// A frame starts.
#[derive(Clone, Copy)]
pub(crate) struct StartLine<'a> {
    pub(crate) start: &'a Start,
}

impl Line for StartLine<'_> {
    ghost text = { λ line. start_line line.start.now };

    #[inline(never)]
    fn put_into(&self, room: &mut [u8; LINE_ROOM]) -> usize {
        let start = self.start;
        let at = put_text(b"start ", room, 0);
        let at = put_short(start.id, room, at);
        let at = put_text(b" class ", room, at);
        let at = put_octet(start.class, room, at);
        let at = put_text(b" at ", room, at);
        let at = put_span(start.at, start.end, room, at);
        put_text(b"\n", room, at)
    }
}

/// A frame starts, whose number and class have few digits, and whose moments are these.
#[derive(Clone, Copy)]
pub(crate) struct UsualStartLine<'a> {
    pub(crate) start: &'a Start,
    pub(crate) moments: &'a NearNumbers,
    ghost few: { start.now.id < EIGHT_DIGITS },
    ghost digit: { start.now.class < 10 },
}

impl Line for UsualStartLine<'_> {
    ghost text = { λ line. start_text line.start.now.id line.start.now.class
        (decimal line.moments.now.front ++ line.moments.now.first)
        (decimal line.moments.now.front ++ line.moments.now.second) };

    // As for most lines, without a call.
    #[inline(always)]
    fn put_into(&self, room: &mut [u8; LINE_ROOM]) -> usize {
        let at = put_text(b"start ", room, 0);
        let at = put_few(self.start.id, room, at);
        let at = put_text(b" class ", room, at);
        let at = put_digit(self.start.class, room, at);
        let at = put_text(b" at ", room, at);
        let at = self.moments.put_first(room, at);
        let at = put_text(b" end ", room, at);
        let at = self.moments.put_second(room, at);
        put_text(b"\n", room, at)
    }
}
