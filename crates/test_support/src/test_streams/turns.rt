//! Readers and writers that do something else at one of their calls.

ghost use Rattle.std.specs.Prelude.{◌≡◌, ◌/◌, ◌%◌, []};
ghost use Rattle.test_support.specs.Turns.{turn_of};

use std::alloc::Global;
use std::cell::Cell;
use std::io::{self, Read, Write};
use text::octet_writer::PutLine;

/// What a reader or a writer does at one of its calls, in place of what it does at the others.
#[derive(Clone, Copy, PartialEq, Eq, Debug)]
pub enum Turn {
    /// It fails, and at each call after it too.
    Fails,
    /// It fails, and at no call after it.
    FailsOnce,
    /// It gives or takes one octet.
    OneOctet,
    /// It gives or takes nothing.
    Nothing,
}

/// The number of a call and what is done there, of the run with this number: each call has four runs.
pub fn nth_turn(run: u32) -> (u32, Turn)
    ensures call { result.0 ≡ run / 4 }
    ensures turn { result.1 ≡ turn_of (run % 4) }
{
    let turn = match run % 4 {
        0 => Turn::Fails,
        1 => Turn::FailsOnce,
        2 => Turn::OneOctet,
        _ => Turn::Nothing,
    };
    (run / 4, turn)
}

/// What a reader that is handed over has done; of one that nobody has called, the default.
#[derive(Default, Drop)]
pub struct Tally {
    /// How many calls were made.
    pub calls: Cell<u32>,
    /// How many octets were given.
    pub octets: Cell<usize>,
}

/// Gives its octets in pieces of so many, and does something else at the call with one number, from 0.
#[derive(Drop)]
pub struct TurningReader<'a> {
    /// What is left to give.
    pub octets: &'a [u8],
    /// The most octets that a call gives.
    pub piece: usize,
    /// The number of the call that does something else.
    pub at: u32,
    /// What it does there.
    pub turn: Turn,
    /// What it has done.
    pub tally: &'a Tally,
}

impl<'a> TurningReader<'a> {
    /// What it does is reported to `tally`.
    pub fn new(
        octets: &'a [u8],
        piece: usize,
        at: u32,
        turn: Turn,
        tally: &'a Tally,
    ) -> TurningReader<'a>
        ensures octets { result.octets ≡ octets.entry }
        ensures piece { result.piece ≡ piece }
        ensures at { result.at ≡ at }
        ensures turn { result.turn ≡ turn }
        ensures tally { result.tally ≡ tally.entry }
    {
        TurningReader {
            octets,
            piece,
            at,
            turn,
            tally,
        }
    }
}

impl Read for TurningReader<'_> {
    fn read(&mut self, buf: &mut [u8]) -> io::Result<usize> {
        let call = self.tally.calls.get();
        self.tally.calls.set(call.saturating_add(1));
        let Some(most) = most_at(call, self.at, self.turn, self.piece) else {
            return Err(io::Error::from(io::ErrorKind::Interrupted));
        };
        let count = most.min(buf.len()).min(self.octets.len());
        let octets = self.octets;
        buf[..count].copy_from_slice(&octets[..count]);
        self.octets = &octets[count..];
        let given = self.tally.octets.get().saturating_add(count);
        self.tally.octets.set(given);
        Ok(count)
    }
}

/// Takes octets in pieces of so many, and does something else at the call with one number, from 0.
#[derive(Drop)]
pub struct TurningWriter {
    /// What it took.
    pub got: Vec<u8>,
    /// How many calls were made.
    pub calls: u32,
    /// The most octets that a call takes.
    pub piece: usize,
    /// The number of the call that does something else.
    pub at: u32,
    /// What it does there.
    pub turn: Turn,
}

impl TurningWriter {
    /// A writer that took nothing yet.
    pub fn new(alloc: Global, piece: usize, at: u32, turn: Turn) -> TurningWriter
        ensures got { result.got.items ≡ [] }
        ensures calls { result.calls ≡ 0 }
        ensures piece { result.piece ≡ piece }
        ensures at { result.at ≡ at }
        ensures turn { result.turn ≡ turn }
    {
        TurningWriter {
            got: Vec::new(alloc),
            calls: 0,
            piece,
            at,
            turn,
        }
    }
}

impl PutLine for TurningWriter {}

impl Write for TurningWriter {
    fn write(&mut self, buf: &[u8]) -> io::Result<usize> {
        let call = self.calls;
        self.calls = call.saturating_add(1);
        match most_at(call, self.at, self.turn, self.piece) {
            Some(most) => {
                let count = most.min(buf.len());
                self.got.extend_from_slice(&buf[..count])?;
                Ok(count)
            }
            None => Err(io::Error::from(io::ErrorKind::Interrupted)),
        }
    }

    fn flush(&mut self) -> io::Result<()> {
        Ok(())
    }
}

/// The most octets of a call, or none where it fails.
fn most_at(call: u32, at: u32, turn: Turn, piece: usize) -> Option<usize> {
    match turn {
        Turn::Fails if call >= at => None,
        Turn::FailsOnce if call == at => None,
        Turn::OneOctet if call == at => Some(1),
        Turn::Nothing if call == at => Some(0),
        _ => Some(piece),
    }
}
