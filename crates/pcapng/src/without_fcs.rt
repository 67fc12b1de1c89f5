//! A classic capture without the frame check sequences of its frames.

ghost use Rattle.std.specs.Prelude.{◌≡◌, ◌≤◌, ◌++◌, ◌+◌, length, vec_len, vec_capacity, IfOk, OnOk, OnErr};
ghost use Rattle.capture.specs.Numbers.{u32_octets};
ghost use Rattle.pcapng.specs.WithoutFcs.{order_of, header_at, record_at, piece_at, cut_captured, cut_original};
ghost use Rattle.pcapng.specs.WithoutFcs.{cut_record, stage_of, IsPiece, IsWhole};

use crate::number::read_u32;
use byteorder::{BigEndian, ByteOrder, LittleEndian};
use capture::{Endian, MAX_RECORD_OCTETS};
use std::alloc::{AllocError, Allocator};
use translated::Translation;

/// The octets of the file header of a classic capture.
const FILE_HEADER: usize = 24;

/// The octets of the header of a record.
const RECORD_HEADER: usize = 16;

/// The octets of a frame check sequence (IEEE Std 802.3, 3.2.9).
const FCS: u32 = 4;

/// The magic number of a capture in microseconds.
const MICROS_MAGIC: u32 = 0xa1b2_c3d4;

/// The magic number of a capture in nanoseconds.
const NANOS_MAGIC: u32 = 0xa1b2_3c4d;

/// What comes next of a capture.
#[derive(Clone, Copy, Debug)]
pub(crate) enum CutStage {
    /// The file header.
    Start,
    /// A record, its numbers in this order.
    Records(Endian),
    /// What is passed on as it is.
    Unchanged,
}

/// What octets begin with.
#[derive(Clone, Copy, Debug)]
pub(crate) enum Piece {
    /// A part of a header or a record.
    Part,
    /// Nothing that is cut.
    Rest,
    /// A file header, whose numbers are in this order.
    Header(Endian),
    /// A record of so many octets.
    Whole(Endian, u32),
}

/// Takes the frame check sequence, the last 4 octets, from each frame of a classic capture: its original length is less
/// by 4, and of the octets captured there are no more than are then left of the frame. A frame of less than 4 octets stays
/// as it is. What is no capture is passed on unchanged from there on, so that who reads finds the same fault.
#[derive(Debug, Drop)]
pub struct WithoutFcs {
    stage: CutStage,
}

/// The order of a file header by its magic number.
fn order_of(octets: &[u8]) -> Option<Endian>
    requires { 4 ≤ length octets.now }
    ensures { result ≡ order_of octets.now }
{
    let big = read_u32(Endian::Big, octets);
    if big == MICROS_MAGIC || big == NANOS_MAGIC {
        return Some(Endian::Big);
    }
    let little = read_u32(Endian::Little, octets);
    if little == MICROS_MAGIC || little == NANOS_MAGIC {
        return Some(Endian::Little);
    }
    None
}

fn header_at(octets: &[u8]) -> Piece
    ensures piece { result ≡ header_at octets.now }
    ensures fits { IsPiece (length octets.now) result }
{
    if octets.len() < FILE_HEADER {
        return Piece::Part;
    }
    match order_of(octets) {
        Some(endian) => Piece::Header(endian),
        None => Piece::Rest,
    }
}

fn record_at(endian: Endian, octets: &[u8]) -> Piece
    ensures piece { result ≡ record_at endian octets.now }
    ensures fits { IsPiece (length octets.now) result }
{
    if octets.len() < RECORD_HEADER {
        return Piece::Part;
    }
    let captured = read_u32(endian, &octets[8..]);
    if captured > MAX_RECORD_OCTETS {
        return Piece::Rest;
    }
    if octets.len() < RECORD_HEADER + captured as usize {
        return Piece::Part;
    }
    Piece::Whole(endian, 16 + captured)
}

fn piece_at(stage: CutStage, octets: &[u8]) -> Piece
    ensures piece { result ≡ piece_at stage octets.now }
    ensures fits { IsPiece (length octets.now) result }
{
    match stage {
        CutStage::Start => header_at(octets),
        CutStage::Records(endian) => record_at(endian, octets),
        CutStage::Unchanged => Piece::Rest,
    }
}

/// How many octets are captured, and how many the frame has, without the frame check sequence.
fn cut_lengths(captured: u32, original: u32) -> (u32, u32)
    ensures captured { result.0 ≡ cut_captured captured original }
    ensures original { result.1 ≡ cut_original original }
    ensures fewer { result.0 ≤ captured }
{
    if original < FCS {
        return (captured, original);
    }
    let left = original - FCS;
    (captured.min(left), left)
}

/// Two lengths as octets.
fn lengths_octets(endian: Endian, captured: u32, original: u32) -> [u8; 8]
    ensures { result ≡ u32_octets endian captured ++ u32_octets endian original }
{
    let mut octets = [0u8; 8];
    match endian {
        Endian::Big => {
            BigEndian::write_u32(&mut octets, captured);
            BigEndian::write_u32(&mut octets[4..], original);
        }
        Endian::Little => {
            LittleEndian::write_u32(&mut octets, captured);
            LittleEndian::write_u32(&mut octets[4..], original);
        }
    }
    octets
}

/// Puts octets where there is room for them.
fn put_all<A: Allocator>(octets: &[u8], out: &mut Vec<u8, A>)
    requires { vec_len out.old + length octets.now ≤ vec_capacity out.old }
    ensures items { out.new.items ≡ out.old.items ++ octets.now }
    ensures room { vec_capacity out.old ≤ vec_capacity out.new }
{
    if out.extend_from_slice(octets).is_err() {
        unreachable!();
    }
}

/// Puts a record without the frame check sequence. When out of memory, nothing is put.
fn put_record<A: Allocator>(
    endian: Endian,
    whole: &[u8],
    out: &mut Vec<u8, A>,
) -> Result<(), AllocError>
    requires { IsWhole endian whole.now }
    ensures put { OnOk result (out.new.items ≡ out.old.items ++ cut_record endian whole.now) }
    ensures failed { OnErr result (out.new.items ≡ out.old.items) }
{
    let said = read_u32(endian, &whole[8..]);
    let (captured, original) = cut_lengths(said, read_u32(endian, &whole[12..]));
    let lengths = lengths_octets(endian, captured, original);
    let end = RECORD_HEADER + captured as usize;
    out.reserve(end)?;
    put_all(&whole[..8], out);
    put_all(&lengths, out);
    put_all(&whole[RECORD_HEADER..end], out);
    Ok(())
}

impl WithoutFcs {
    /// Before the first octet.
    pub fn new() -> WithoutFcs
        ensures { stage_of result ≡ CutStage.Start }
    {
        WithoutFcs {
            stage: CutStage::Start,
        }
    }

    /// Passes on all octets as they are, and those that come.
    fn pass_on<A: Allocator>(
        &mut self,
        octets: &[u8],
        out: &mut Vec<u8, A>,
    ) -> Result<usize, AllocError>
        ensures passed { IfOk result (λ count. (count ≡ length octets.now)
            × (stage_of self.new ≡ CutStage.Unchanged)
            × (out.new.items ≡ out.old.items ++ octets.now)) }
        ensures failed { OnErr result (self.new ≡ self.old) }
    {
        out.extend_from_slice(octets)?;
        self.stage = CutStage::Unchanged;
        Ok(octets.len())
    }
}

impl Translation for WithoutFcs {
    ghost use Rattle.pcapng.specs.WithoutFcs.{without_of};

    ghost meaning = { without_of };

    fn turn<A: Allocator>(
        &mut self,
        octets: &[u8],
        is_last: bool,
        out: &mut Vec<u8, A>,
    ) -> Result<usize, AllocError> {
        match piece_at(self.stage, octets) {
            Piece::Header(endian) => {
                out.extend_from_slice(&octets[..FILE_HEADER])?;
                self.stage = CutStage::Records(endian);
                Ok(FILE_HEADER)
            }
            Piece::Whole(endian, size) => {
                let size = size as usize;
                put_record(endian, &octets[..size], out)?;
                self.stage = CutStage::Records(endian);
                Ok(size)
            }
            Piece::Part => {
                if !is_last {
                    return Ok(0);
                }
                self.pass_on(octets, out)
            }
            Piece::Rest => self.pass_on(octets, out),
        }
    }
}
