//! Lines, however reads are cut, and how they end.

use std::cell::Cell;
use std::io::{self, Read};
use std::test::Fail;
use text::line_reader::{Limit, LineFault, LineReader, MAX_LINE_OCTETS};

/// Gives a text in pieces and fails at the read of this number, from 0, once. It gives more after each end, for ever.
#[derive(Drop)]
struct Unsteady<'a> {
    text: &'a [u8],
    behind: &'a [u8],
    piece: usize,
    fails_at: u32,
    reads: &'a Cell<u32>,
}

impl Read for Unsteady<'_> {
    fn read(&mut self, buf: &mut [u8]) -> io::Result<usize> {
        let read = self.reads.get();
        self.reads.set(read.saturating_add(1));
        if read == self.fails_at {
            return Err(io::Error::from(io::ErrorKind::Interrupted));
        }
        let count = self.piece.min(buf.len()).min(self.text.len());
        let text = self.text;
        buf[..count].copy_from_slice(&text[..count]);
        self.text = &text[count..];
        if count == 0 {
            self.text = self.behind;
        }
        Ok(count)
    }
}

#[test]
fn a_failed_read_is_not_tried_again(rt: HostRuntime) -> Result<(), Fail> {
    let reads = Cell::new(0);
    let reader = Unsteady {
        text: b"one\ntwo\n",
        behind: b"",
        piece: 6,
        fails_at: 1,
        reads: &reads,
    };
    let mut lines = LineReader::new(rt.alloc(), reader)?;
    assert!(rt; lines.advance() == Ok(true));
    assert!(rt; lines.line() == b"one".as_slice());
    assert!(rt; lines.advance() == Err(LineFault::Read));
    assert!(rt; lines.advance() == Err(LineFault::Read));
    assert_eq!(rt; reads.get(), 2);
    Ok(())
}

#[test]
fn the_end_stays(rt: HostRuntime) -> Result<(), Fail> {
    let reads = Cell::new(0);
    let reader = Unsteady {
        text: b"one\ntwo",
        behind: b"three\n",
        piece: 100,
        fails_at: 9,
        reads: &reads,
    };
    let mut lines = LineReader::new(rt.alloc(), reader)?;
    assert!(rt; lines.advance() == Ok(true));
    assert!(rt; lines.advance() == Ok(true));
    assert!(rt; lines.line() == b"two".as_slice());
    assert_eq!(rt; lines.line_number(), 2);
    assert!(rt; lines.advance() == Ok(false));
    assert!(rt; lines.advance() == Ok(false));
    assert_eq!(rt; reads.get(), 2);
    Ok(())
}

#[test]
fn a_limit_is_told_before_a_read_that_would_fail(rt: HostRuntime) -> Result<(), Fail> {
    let reads = Cell::new(0);
    let text = vec![in rt.alloc(); b'a'; MAX_LINE_OCTETS + 1]?;
    let reader = Unsteady {
        text: &text,
        behind: b"\n",
        piece: MAX_LINE_OCTETS,
        fails_at: 2,
        reads: &reads,
    };
    let mut lines = LineReader::new(rt.alloc(), reader)?;
    assert!(rt; lines.advance() == Err(LineFault::Limit(1, Limit::LongLine)));
    assert!(rt; lines.advance() == Err(LineFault::Limit(1, Limit::LongLine)));
    assert_eq!(rt; reads.get(), 2);
    Ok(())
}
