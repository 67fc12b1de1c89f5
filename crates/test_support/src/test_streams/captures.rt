//! A capture of two frames, what comes of it, and what comes of the first frame alone.

/// Big-endian, in microseconds: two frames of 60 octets of which 18 are captured, with priorities 3 and 5, at 2 s and
/// 500 microseconds and at 2 s and 400 microseconds.
pub const TWO_RECORDS: [u8; 92] = [
    0xa1, 0xb2, 0xc3, 0xd4, 0, 2, 0, 4, 0, 0, 0, 0, 0, 0, 0, 0, 0, 4, 0, 0, 0, 0, 0, 1, //
    0, 0, 0, 2, 0, 0, 1, 0xf4, 0, 0, 0, 18, 0, 0, 0, 60, //
    2, 0, 0, 0, 0, 2, 2, 0, 0, 0, 0, 1, 0x81, 0, 0x60, 5, 8, 0, //
    0, 0, 0, 2, 0, 0, 1, 0x90, 0, 0, 0, 18, 0, 0, 0, 60, //
    2, 0, 0, 0, 0, 2, 2, 0, 0, 0, 0, 1, 0x81, 0, 0xa0, 5, 8, 0,
];

/// What leaves of them. Little-endian, in nanoseconds: the same frames, that of priority 5 first, at 2 s and 500,000
/// and 500,672 nanoseconds.
pub const BOTH_LEFT: [u8; 92] = [
    0x4d, 0x3c, 0xb2, 0xa1, 2, 0, 4, 0, 0, 0, 0, 0, 0, 0, 0, 0, 0, 0, 4, 0, 1, 0, 0, 0, //
    2, 0, 0, 0, 0x20, 0xa1, 7, 0, 18, 0, 0, 0, 60, 0, 0, 0, //
    2, 0, 0, 0, 0, 2, 2, 0, 0, 0, 0, 1, 0x81, 0, 0xa0, 5, 8, 0, //
    2, 0, 0, 0, 0xc0, 0xa3, 7, 0, 18, 0, 0, 0, 60, 0, 0, 0, //
    2, 0, 0, 0, 0, 2, 2, 0, 0, 0, 0, 1, 0x81, 0, 0x60, 5, 8, 0,
];

/// What is reported of both frames where all gates are open: the second comes no earlier than the first, and goes
/// first.
pub const BOTH_TOLD: &[u8] = b"queued 0 class 3\nqueued 1 class 5\n\
start 1 class 5 at 2000500000000 end 2000500672000\nstart 0 class 3 at 2000500672000 end 2000501344000\n";

/// What leaves of the first frame alone.
pub const FIRST_LEFT: [u8; 58] = [
    0x4d, 0x3c, 0xb2, 0xa1, 2, 0, 4, 0, 0, 0, 0, 0, 0, 0, 0, 0, 0, 0, 4, 0, 1, 0, 0, 0, //
    2, 0, 0, 0, 0x20, 0xa1, 7, 0, 18, 0, 0, 0, 60, 0, 0, 0, //
    2, 0, 0, 0, 0, 2, 2, 0, 0, 0, 0, 1, 0x81, 0, 0x60, 5, 8, 0,
];

/// What is reported of it.
pub const FIRST_TOLD: &[u8] =
    b"queued 0 class 3\nstart 0 class 3 at 2000500000000 end 2000500672000\n";
