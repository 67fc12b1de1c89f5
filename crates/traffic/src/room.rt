//! What has room in a script.

ghost use Rattle.std.specs.Prelude.{◌≡◌, ◌+◌, ◌≤◌, List, IfOk, IfSome, None, nat_lt};
ghost use Rattle.text.specs.Script.{joins};
ghost use Rattle.traffic.specs.Words.{AreCounted, Coming, IsRoomFor, IsRoomLeft, IsTournament, clock_count, left_of_all, limit_passed, line_count, line_feeds, lines_known, lines_taken, room_beside};

use crate::frame_count::FrameCount;
use crate::tournament::{Node, tournament};
use crate::turn::Turn;
use crate::turns::next_frame;
use std::alloc::{AllocError, Allocator};
use text::line_reader::{Limit, MAX_LINE_OCTETS, MAX_LINES};

/// Whether a line feed after a line would join the next line.
pub(crate) fn joins(line: &[u8]) -> bool
    ensures { result ≡ joins line.now }
{
    match line {
        [.., b'\\'] | [.., b'\\', b'\r'] => true,
        _ => false,
    }
}

/// The line feeds among the octets of a line.
fn line_feeds(line: &[u8]) -> usize
    ensures { result ≡ line_feeds line.now }
{
    line.iter().filter(|octet| **octet == b'\n').count()
}

/// Whether the last physical line of a line has no room, where so many of a script have: its number is that of its
/// first one, from 1.
fn has_no_room(room: u32, number: u32, line: &[u8]) -> bool
    ensures { result ≡ nat_lt room (number + line_feeds line.now) }
{
    u128::from(number) + line_feeds(line) as u128 > u128::from(room)
}

/// The limit that a line of a script passes as it is passed on, if it passes one, where so many physical lines of the
/// script have room: its number is that of its first physical line, from 1.
pub(crate) fn limit_passed(room: u32, number: u32, line: &[u8]) -> Option<Limit>
    ensures { result ≡ limit_passed room number line.now }
{
    if has_no_room(room, number, line) {
        return Some(Limit::TooManyLines);
    }
    if line.len() == MAX_LINE_OCTETS && joins(line) {
        return Some(Limit::LongLine);
    }
    None
}

/// How many clock lines come before the line of a frame.
fn clock_count(written: Option<u128>, moment: u128) -> u32
    ensures count { result ≡ clock_count written moment }
    ensures few { result ≤ 1 }
{
    match written {
        None => 1,
        Some(written) => u32::from(written != moment),
    }
}

/// How many lines the frames of streams that are to come take in a script, where it has room for them. The frames are
/// taken.
fn count_lines(turns: &mut [Turn], nodes: &mut [Node]) -> Option<u32>
    requires tournament { IsTournament turns.old nodes.old }
    ensures { result ≡ lines_taken (line_count None (left_of_all turns.old)) }
{
    let mut written = None;
    let mut count = 0;
    while let Some(coming) = next_frame(turns, nodes) {
        count += clock_count(written, coming.moment) + 1;
        if count > MAX_LINES {
            return None;
        }
        written = Some(coming.moment);
    }
    Some(count)
}

/// How many physical lines of a script have room beside the frames of streams that are to come, where these have room.
/// The frames are taken: no more of them are looked at than have room.
fn counted_room<A: Allocator>(alloc: A, streams: &mut [Turn]) -> Result<Option<u32>, AllocError>
    ensures { IfOk result
        (λ lines. lines ≡ room_beside (line_count None (left_of_all streams.old))) }
{
    let mut nodes = tournament(alloc, streams)?;
    match count_lines(streams, nodes.as_mut_slice()) {
        Some(taken) => Ok(Some(MAX_LINES.saturating_sub(taken))),
        None => Ok(None),
    }
}

/// How many physical lines of a script have room beside frames.
#[derive(Clone, Copy, Debug, PartialEq, Eq)]
pub(crate) enum ScriptRoom {
    /// So many at least. The lines of the frames are not counted.
    AtLeast(u32),
    /// So many.
    Exactly(u32),
}

/// How many have room for sure.
pub(crate) fn lines_known(room: ScriptRoom) -> u32
    ensures { result ≡ lines_known room }
{
    match room {
        ScriptRoom::AtLeast(lines) | ScriptRoom::Exactly(lines) => lines,
    }
}

/// The room beside the frames of streams that are to come, by how many there are; none where these have no room. The
/// lines of few are not counted: each frame takes one, and at most one clock line.
pub(crate) fn script_room<A: Allocator>(
    alloc: A,
    streams: &mut [Turn],
    counted: FrameCount,
) -> Result<Option<ScriptRoom>, AllocError>
    requires { AreCounted counted (left_of_all streams.old) }
    ensures room { IfOk result
        (λ room. IfSome room (λ r.
        IsRoomLeft r (left_of_all streams.new) (left_of_all streams.old))) }
    ensures none { IfOk result
        (λ room. room ≡ None → lines_taken (line_count None (left_of_all streams.old)) ≡ None) }
{
    match counted {
        FrameCount::Few(frames) => {
            let most = frames.saturating_mul(2);
            Ok(Some(ScriptRoom::AtLeast(MAX_LINES.saturating_sub(most))))
        }
        FrameCount::Many(_) => match counted_room(alloc, streams)? {
            Some(lines) => Ok(Some(ScriptRoom::Exactly(lines))),
            None => Ok(None),
        },
    }
}

/// The room that tells which limit a line of a script passes as it is passed on. The lines of the frames are counted
/// where a lower bound does not tell it; then the frames are taken.
pub(crate) fn room_for<A: Allocator + Clone>(
    alloc: &A,
    streams: &mut [Turn],
    room: ScriptRoom,
    number: u32,
    line: &[u8],
) -> Result<ScriptRoom, AllocError>
    ensures { (all : List Coming) → IsRoomLeft room (left_of_all streams.old) all →
        IfOk result (λ r. IsRoomFor r (left_of_all streams.new) all number line.now) }
{
    let ScriptRoom::AtLeast(lines) = room else {
        return Ok(room);
    };
    if !has_no_room(lines, number, line) {
        return Ok(room);
    }
    let counted = counted_room(alloc.clone()?, streams)?;
    Ok(ScriptRoom::Exactly(counted.unwrap_or(0)))
}
