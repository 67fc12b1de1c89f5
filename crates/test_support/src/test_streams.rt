//! Readers and writers that tests lend: they are cut short, and fail where a test says. Nothing but tests stands on
//! them, and what they do is no promise.
ghost use Rattle.std.specs.Prelude.{◌≡◌, false};

mod captures;
mod turns;

pub use captures::{BOTH_LEFT, BOTH_TOLD, FIRST_LEFT, FIRST_TOLD, TWO_RECORDS};
use std::io::{self, Read, Write};
use text::octet_writer::PutLine;
pub use turns::{Tally, Turn, TurningReader, TurningWriter, nth_turn};

/// Gives its octets in pieces of so many; fails at the call with this number, from 0, once or for ever.
#[derive(Drop)]
pub struct Pieces<'a> {
    /// What is left to give.
    pub octets: &'a [u8],
    /// The most octets that a call gives.
    pub piece: usize,
    /// How many calls were made.
    pub calls: u32,
    /// The number of the call that fails.
    pub fails_at: u32,
    /// Whether the calls after it work.
    pub recovers: bool,
}

impl<'a> Pieces<'a> {
    /// A reader of these octets that never fails.
    pub fn new(octets: &'a [u8], piece: usize) -> Pieces<'a>
        ensures octets { result.octets ≡ octets.entry }
        ensures piece { result.piece ≡ piece }
        ensures calls { result.calls ≡ 0 }
        ensures sound { result.fails_at ≡ 4294967295 }
        ensures recovers { result.recovers ≡ false }
    {
        Pieces {
            octets,
            piece,
            calls: 0,
            fails_at: u32::MAX,
            recovers: false,
        }
    }
}

impl Read for Pieces<'_> {
    fn read(&mut self, buf: &mut [u8]) -> io::Result<usize> {
        let call = self.calls;
        self.calls = call.saturating_add(1);
        if call == self.fails_at || (call > self.fails_at && !self.recovers) {
            return Err(io::Error::from(io::ErrorKind::Interrupted));
        }
        let room = self.piece.min(buf.len());
        let count = room.min(self.octets.len());
        let octets = self.octets;
        buf[..count].copy_from_slice(&octets[..count]);
        self.octets = &octets[count..];
        Ok(count)
    }
}

/// Takes so many octets at a call, and once it has taken `room` it fails or takes nothing, once or for ever.
#[derive(Drop)]
pub struct Narrow {
    /// What it took.
    pub got: Vec<u8>,
    /// The most octets that a call takes.
    pub piece: usize,
    /// How many octets it still takes.
    pub room: usize,
    /// Whether it then fails, or takes nothing.
    pub fails: bool,
    /// Whether it fails once alone, and then takes all.
    pub recovers: bool,
}

impl PutLine for Narrow {}

impl Write for Narrow {
    fn write(&mut self, buf: &[u8]) -> io::Result<usize> {
        if self.room == 0 && self.recovers {
            self.room = usize::MAX;
            return Err(io::Error::from(io::ErrorKind::Interrupted));
        }
        if self.room == 0 && self.fails {
            return Err(io::Error::from(io::ErrorKind::Interrupted));
        }
        let count = self.piece.min(buf.len()).min(self.room);
        self.got.extend_from_slice(&buf[..count])?;
        self.room -= count;
        Ok(count)
    }

    fn flush(&mut self) -> io::Result<()> {
        Ok(())
    }
}
