//! Lines as most are written, read where they stand in hand.

ghost use Rattle.std.specs.Prelude.{◌≡◌, ◌<◌, ◌∷◌, IfSome, Ok, Some, true};
ghost use Rattle.script.specs.declared.plain.TheConstants.{WINDOW};
ghost use Rattle.script.specs.Words.{Arrive, Clock, BeginsWithEvent, BeginsWithLine, HasLine, IsCommandInHand, clock_event, frame_event, said_in};
ghost use Rattle.script.specs.declared.script_line.Said.TheVariants.{Tc};

use crate::fronts::{behind_clock, behind_frame, behind_tag};
use abstract_port::Event;
use std::alloc::Allocator;
use std::io::Read;
use text::line_reader::LineReader;
use text::words::{front_digit, front_number, front_short};
use wire_time::{Frame, MAX_MOMENT};

/// How many octets have to be in hand where a line is read here: more than such a line has.
const WINDOW: usize = 64;

/// How many digits, up to 16, are expected of the next ID of a frame and of the next moment: as many as the last had.
/// What is read doesn't depend on it.
#[derive(Clone, Copy, Default)]
pub(crate) struct Expected {
    id: usize,
    moment: usize,
}

/// What comes after a space, where octets begin with it.
#[inline(always)]
fn behind_space(octets: &[u8]) -> Option<&[u8]>
    ensures { IfSome result (λ rest. octets.now ≡ 32 ∷ rest.now) }
{
    match octets {
        [b' ', rest @ ..] => Some(rest),
        _ => None,
    }
}

/// What comes after an LF, where octets begin with it.
#[inline(always)]
fn behind_feed(octets: &[u8]) -> Option<&[u8]>
    ensures { IfSome result (λ rest. octets.now ≡ 10 ∷ rest.now) }
{
    match octets {
        [b'\n', rest @ ..] => Some(rest),
        _ => None,
    }
}

/// The frame that a line is, after its first word, and what comes after the line: with a priority of one digit, and a
/// length of at most eight.
#[inline(always)]
fn front_frame<'a>(octets: &'a [u8], digits: &mut usize) -> Option<(Frame, &'a [u8])>
    ensures { IfSome result (λ x. BeginsWithEvent frame_event octets.now (Arrive x.0) x.1.now) }
{
    let (id, rest) = front_number(octets, u128::from(u64::MAX), digits)?;
    let (priority, rest) = front_digit(behind_space(rest)?)?;
    let (len, rest) = front_short(behind_space(rest)?)?;
    let (tagged, rest) = behind_tag(rest);
    let rest = behind_feed(rest)?;
    let frame = Frame {
        id: id as u64,
        priority: priority as u8,
        len: len as u32,
        tagged,
    };
    Some((frame, rest))
}

/// The moment that a line is, after its first word, and what comes after the line.
#[inline(always)]
fn front_clock<'a>(octets: &'a [u8], digits: &mut usize) -> Option<(u128, &'a [u8])>
    ensures { IfSome result (λ x. BeginsWithEvent clock_event octets.now (Clock x.0) x.1.now) }
{
    let (moment, rest) = front_number(octets, MAX_MOMENT, digits)?;
    let rest = behind_feed(rest)?;
    Some((moment, rest))
}

/// The event that the first line asks, where it is a frame or a moment as most are written, and what comes after the
/// line.
#[inline(always)]
fn front_event<'a>(octets: &'a [u8], expected: &mut Expected) -> Option<(Event<'static>, &'a [u8])>
    ensures { IfSome result (λ x. BeginsWithLine octets.now x.0 x.1.now) }
{
    if let Some(rest) = behind_frame(octets) {
        let (frame, rest) = front_frame(rest, &mut expected.id)?;
        return Some((Event::Arrive(frame), rest));
    }
    let (moment, rest) = front_clock(behind_clock(octets)?, &mut expected.moment)?;
    Some((Event::Clock(moment), rest))
}

/// The event that the first line asks, where one is left that is as most are written and stands whole among the octets,
/// and how many octets it has. It is looked for in a window, so that its numbers are known to be within the octets.
#[inline(always)]
pub(crate) fn front_line(
    octets: &[u8],
    left: u32,
    expected: &mut Expected,
) -> Option<(Event<'static>, usize)>
    ensures some { IfSome result (λ x. 0 < left) }
    ensures line { IfSome result (λ x. HasLine octets.now x.1 x.0) }
    ensures short { IfSome result (λ x. x.1 < WINDOW) }
{
    if left == 0 {
        return None;
    }
    let window = octets.first_chunk::<WINDOW>()?;
    let (event, rest) = front_event(window, expected)?;
    Some((event, WINDOW - rest.len() - 1))
}

/// Whether a line begins with `tc`, as most that do are written.
#[inline(always)]
fn is_command(line: &[u8]) -> bool
    ensures { result ≡ true → said_in line.now ≡ Ok (Some Tc) }
{
    match line {
        [b't', b'c', b' ', ..] => true,
        _ => false,
    }
}

/// The next line, where it is a command and stands whole in hand. Apart, so that the loop over plain lines, which comes
/// before it, stays small.
#[inline(never)]
pub(crate) fn command_in_hand<R: Read + Drop, A: Allocator>(
    lines: &LineReader<R, A>,
) -> Option<&[u8]>
    ensures { IfSome result (λ line. IsCommandInHand lines.now line.now) }
{
    let hand = lines.hand();
    // Asked first, so that no end is looked for where another line comes.
    if !is_command(hand) {
        return None;
    }
    let length = lines.line_in_hand()?;
    let line = &hand[..length];
    if is_command(line) { Some(line) } else { None }
}
