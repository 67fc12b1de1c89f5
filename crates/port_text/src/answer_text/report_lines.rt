//! The lines of numbers that a query is answered by, which are made where they are written.

ghost use Rattle.std.specs.Prelude.{◌≡◌, ◌≤◌, ◌+◌, length, take};
ghost use Rattle.text.specs.declared.octet_writer.line_writer.TheConstants.{LINE_ROOM};
ghost use Rattle.port_text.specs.AnswerLines.{sent_text, dropped_text, waiting_text};
ghost use Rattle.port_text.specs.Reports.{now_line};

use crate::answer_text::text_writer::mask_digits;
use abstract_port::{Counters, Report};
use text::decimal_text::{put_number, put_octet, put_short, put_text};
use text::octet_writer::{LINE_ROOM, Line};

/// The first line of a report.
#[derive(Clone, Copy)]
pub(crate) struct NowLine<'a> {
    pub(crate) report: &'a Report,
}

impl Line for NowLine<'_> {
    ghost text = { λ line. now_line line.report.now };

    fn put_into(&self, room: &mut [u8; LINE_ROOM]) -> usize {
        let at = put_text(b"report now ", room, 0);
        let at = put_number(self.report.now, room, at);
        let at = put_text(b" mask ", room, at);
        let at = put_text(&mask_digits(self.report.mask), room, at);
        let at = put_text(b" no-class ", room, at);
        let at = put_short(self.report.no_class, room, at);
        put_text(b"\n", room, at)
    }
}

/// What a class has sent.
#[derive(Clone, Copy)]
pub(crate) struct SentText<'a> {
    pub(crate) class: u8,
    pub(crate) counters: &'a Counters,
}

impl Line for SentText<'_> {
    ghost text = { λ line. sent_text line.class line.counters.now };

    fn put_into(&self, room: &mut [u8; LINE_ROOM]) -> usize {
        let at = put_text(b"count class ", room, 0);
        let at = put_octet(self.class, room, at);
        let at = put_text(b" accepted ", room, at);
        let at = put_short(self.counters.accepted, room, at);
        let at = put_text(b" sent ", room, at);
        let at = put_short(self.counters.sent, room, at);
        let at = put_text(b" octets ", room, at);
        put_short(self.counters.sent_octets, room, at)
    }
}

/// What a class has dropped, but for frames that found no room.
#[derive(Clone, Copy)]
pub(crate) struct DroppedText<'a> {
    pub(crate) counters: &'a Counters,
}

impl Line for DroppedText<'_> {
    ghost text = { λ line. dropped_text line.counters.now };

    fn put_into(&self, room: &mut [u8; LINE_ROOM]) -> usize {
        let [runt, too_long, over_sdu, _] = self.counters.dropped;
        let at = put_text(b" runt ", room, 0);
        let at = put_short(runt, room, at);
        let at = put_text(b" too-long ", room, at);
        let at = put_short(too_long, room, at);
        let at = put_text(b" over-sdu ", room, at);
        put_short(over_sdu, room, at)
    }
}

/// How many frames of a class found no room, and how many wait.
#[derive(Clone, Copy)]
pub(crate) struct WaitingText<'a> {
    pub(crate) counters: &'a Counters,
}

impl Line for WaitingText<'_> {
    ghost text = { λ line. waiting_text line.counters.now };

    fn put_into(&self, room: &mut [u8; LINE_ROOM]) -> usize {
        let [_, _, _, full] = self.counters.dropped;
        let at = put_text(b" full ", room, 0);
        let at = put_short(full, room, at);
        let at = put_text(b" waiting ", room, at);
        let at = put_short(self.counters.waiting, room, at);
        put_text(b"\n", room, at)
    }
}
