//! Pictures in memory.

use crate::memory::jobs::SHOWN;
use crate::memory::lent::{DOTS, USUAL, done, has};
use in_memory::draw_octets;
use std::alloc::Global;

/// A frame, and a microsecond.
const SCRIPT: &[u8] = b"frame 1 0 60\nclock 1000000\n";

/// How much room the picture needs, where there is too little and nothing is written; none where it comes out
/// otherwise.
fn room_told(alloc: Global) -> Option<usize> {
    let (mut small, mut fault) = (DOTS, DOTS);
    let ran = draw_octets(alloc, USUAL, SHOWN, SCRIPT, &mut small, &mut fault);
    (ran.status == 5 && has(&small, b"") && has(&fault, b"")).then_some(ran.output)
}

/// Whether the picture is drawn where there is just so much room.
fn is_drawn(alloc: Global, room: usize) -> bool {
    let Ok(mut picture) = Vec::from_elem(alloc, b'.', room) else {
        return false;
    };
    let mut fault = DOTS;
    let output = picture.as_mut_slice();
    let ran = draw_octets(alloc, USUAL, SHOWN, SCRIPT, output, &mut fault);
    let is_whole = picture.as_slice().starts_with(b"<svg xmlns=")
        && picture.as_slice().ends_with(b"</svg>\n");
    ran == done(room) && is_whole && has(&fault, b"")
}

/// With too little room first, and then with the room that was reported.
#[test]
fn draws_where_there_is_room(rt: HostRuntime) {
    let room = room_told(rt.alloc());
    assert!(rt; room.is_some());
    assert!(rt; is_drawn(rt.alloc(), room.unwrap_or(0)));
}
