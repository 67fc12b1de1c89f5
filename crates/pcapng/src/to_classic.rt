//! A capture in pcapng as a classic one.

ghost use Rattle.std.specs.Prelude.{◌≡◌, ◌≢◌, ◌≤◌, ◌<◌, ◌+◌, ◌*◌, ◌++◌, [], true, false, length, Err, IfOk, OnOk, OnErr};
ghost use Rattle.capture.specs.CaptureWriter.{written_format, written_header};
ghost use Rattle.capture.specs.Layout.{spelled_record_header};
ghost use Rattle.translated.specs.Outlook.{IsTurned, IsDone, IsAfter};
ghost use Rattle.pcapng.specs.Steps.{GoesOn, GoesFrom, IsOver};
ghost use Rattle.pcapng.specs.Classic.{step, past, fails, content_taken, record_of, with_rounded};
ghost use Rattle.pcapng.specs.Packets.{IsFramed};
ghost use Rattle.pcapng.specs.Found.{IsFound};
ghost use Rattle.pcapng.specs.Plain.{plain_found};

use crate::block::{Content, Found, MAX_INTERFACES, find, is_short};
use crate::fault::{BlockFault, BlockKind, Note};
use crate::interface::Interface;
use crate::number::read_u32;
use crate::packet::Packet;
use crate::plain::{is_plain, plain_packet};
use crate::stage::{Passage, Stage};
use arrayvec::ArrayVec;
use byteorder::{ByteOrder, LittleEndian};
use capture::Endian;
use std::alloc::{AllocError, Allocator};
use translated::Translation;

/// The header of a classic capture: little-endian, nanoseconds, version 2.4, at most 262,144 octets, Ethernet.
const CLASSIC_HEADER: [u8; 24] = [
    0x4d, 0x3c, 0xb2, 0xa1, 2, 0, 4, 0, 0, 0, 0, 0, 0, 0, 0, 0, 0, 0, 4, 0, 1, 0, 0, 0,
];

/// As many octets put are enough at a time.
const ENOUGH: usize = 65_536;

/// Turns the octets of a capture in pcapng into those of a classic one, little-endian and with nanoseconds, as
/// `capture::CaptureWriter` spells it. It keeps the note of what it met, so lend it to a reader, and ask it afterwards.
///
/// A faulty block ends the capture: the records of all packets before it come, and then one octet, so that who reads
/// finds a torn record there.
#[derive(Debug, Drop)]
pub struct PcapngToClassic {
    has_header: bool,
    stage: Stage,
    section: Option<Endian>,
    interfaces: ArrayVec<Interface, MAX_INTERFACES>,
    number: u64,
    place: u64,
    noted: Note,
}

#[tactic(auto, unfolding(capture::specs::Layout::spelled_record_header))]
fn record_header(packet: &Packet) -> [u8; 16]
    requires { packet.now.moment < 4294967296000000000 }
    ensures { let p = packet.now in result
        ≡ spelled_record_header written_format (p.moment * 1000) p.captured p.original }
{
    let mut header = [0u8; 16];
    LittleEndian::write_u32(&mut header, (packet.moment / 1_000_000_000) as u32);
    LittleEndian::write_u32(&mut header[4..], (packet.moment % 1_000_000_000) as u32);
    LittleEndian::write_u32(&mut header[8..], packet.captured);
    LittleEndian::write_u32(&mut header[12..], packet.original);
    header
}

/// Puts a packet as a record. When out of memory, nothing is put.
#[inline(always)]
fn put_packet<A: Allocator>(
    packet: &Packet,
    octets: &[u8],
    out: &mut Vec<u8, A>,
) -> Result<(), AllocError>
    requires framed { IsFramed (length octets.now) packet.now }
    ensures put { OnOk result
        (out.new.items ≡ out.old.items ++ record_of packet.now octets.now) }
    ensures failed { OnErr result (out.new.items ≡ out.old.items) }
{
    let start = packet.start as usize;
    let end = start + packet.captured as usize;
    let header = record_header(packet);
    out.reserve(header.len() + (end - start))?;
    if out.extend_from_slice(&header).is_err() {
        unreachable!();
    }
    if out.extend_from_slice(&octets[start..end]).is_err() {
        unreachable!();
    }
    Ok(())
}

impl PcapngToClassic {
    ghost use Rattle.pcapng.specs.Reader.{reading, note_of, Takes};
    ghost use Rattle.pcapng.specs.Reader.{classic_of, note_after, IsNew, IsNoted};

    /// Before the first octet.
    pub fn new() -> PcapngToClassic
        ensures { IsNew result }
    {
        PcapngToClassic {
            has_header: false,
            stage: Stage::Blocks,
            section: None,
            interfaces: ArrayVec::new(),
            number: 0,
            place: 0,
            noted: Note {
                fault: None,
                rounded: 0,
            },
        }
    }

    /// What is noted so far.
    pub fn note(&self) -> Note
        ensures { result ≡ note_of self.now }
    {
        self.noted
    }

    /// A block of so many octets ends.
    fn pass(&mut self, size: u32)
        ensures reading { reading self.new ≡ past (reading self.old) size }
        ensures header { self.new.has_header ≡ self.old.has_header }
    {
        self.stage = Stage::Blocks;
        self.number = self.number.saturating_add(1);
        self.place = self.place.saturating_add(u64::from(size));
    }

    /// One more moment was rounded.
    fn note_rounded(&mut self, is_rounded: bool)
        ensures reading { reading self.new ≡ with_rounded is_rounded (reading self.old) }
        ensures header { self.new.has_header ≡ self.old.has_header }
    {
        if is_rounded {
            self.noted.rounded = self.noted.rounded.saturating_add(1);
        }
    }

    /// The block is faulty: an octet is put that no record ends with, and nothing is read any more.
    fn fail<A: Allocator>(
        &mut self,
        kind: BlockKind,
        octets: &[u8],
        out: &mut Vec<u8, A>,
    ) -> Result<usize, AllocError>
        ensures taken { IfOk result (λ count. Takes (fails (reading self.old) kind octets.now)
            count out.old.items out.new.items self.old self.new) }
        ensures failed { OnErr result (self.new ≡ self.old) }
        ensures nothing { OnErr result (out.new.items ≡ out.old.items) }
    {
        out.push(0)?;
        self.stage = Stage::Ended;
        self.noted.fault = Some(BlockFault {
            number: self.number,
            at: self.place,
            kind,
        });
        Ok(octets.len())
    }

    /// Takes a block that was found.
    fn take<A: Allocator>(
        &mut self,
        found: &Found,
        octets: &[u8],
        out: &mut Vec<u8, A>,
    ) -> Result<usize, AllocError>
        requires { IsFound (length self.old.interfaces.items) (length octets.now) found.now }
        ensures taken { let f = found.now in IfOk result (λ count.
            Takes (content_taken (reading self.old) octets.now f.endian f.length f.content)
            count out.old.items out.new.items self.old self.new) }
        ensures failed { OnErr result (self.new ≡ self.old) }
        ensures nothing { OnErr result (out.new.items ≡ out.old.items) }
    {
        match &found.content {
            Content::Section => {
                self.section = Some(found.endian);
                self.interfaces.clear();
            }
            Content::Described(interface) => self.interfaces.push(*interface),
            Content::Framed(packet) => {
                put_packet(packet, octets, out)?;
                self.note_rounded(packet.is_rounded);
            }
            Content::Passed => {
                self.stage = Stage::Passing(Passage {
                    endian: found.endian,
                    left: found.length - 12,
                    length: found.length,
                });
                return Ok(8);
            }
        }
        self.pass(found.length);
        Ok(found.length as usize)
    }

    /// Takes the first block, which is a plain packet.
    #[inline(always)]
    fn take_plain<A: Allocator>(
        &mut self,
        octets: &[u8],
        out: &mut Vec<u8, A>,
    ) -> Result<usize, AllocError>
        requires { IsFound (length self.old.interfaces.items) (length octets.now)
            (plain_found octets.now) }
        ensures taken { let f = plain_found octets.now in IfOk result (λ count.
            Takes (content_taken (reading self.old) octets.now f.endian f.length f.content)
            count out.old.items out.new.items self.old self.new) }
        ensures failed { OnErr result (self.new ≡ self.old) }
        ensures nothing { OnErr result (out.new.items ≡ out.old.items) }
    {
        let size = read_u32(Endian::Little, &octets[4..]);
        put_packet(&plain_packet(octets), octets, out)?;
        self.pass(size);
        Ok(size as usize)
    }

    /// Takes the first block, whatever it is, or its front where it is passed over.
    #[inline(never)]
    fn take_any_block<A: Allocator>(
        &mut self,
        octets: &[u8],
        is_last: bool,
        out: &mut Vec<u8, A>,
    ) -> Result<usize, AllocError>
        requires blocks { self.old.stage ≡ Stage.Blocks }
        requires some { 1 ≤ length octets.now }
        ensures count { IfOk result (λ count. count ≤ length octets.now) }
        ensures goes_on { IfOk result (λ count. GoesOn step (reading self.old) (reading self.new)
            octets.now is_last count out.old.items out.new.items) }
        ensures header { self.new.has_header ≡ self.old.has_header }
        ensures done { IfOk result (λ count. IsOver step (reading self.new) octets.now is_last
            count out.old.items out.new.items) }
        ensures failed { OnErr result (self.new ≡ self.old) }
        ensures nothing { OnErr result (out.new.items ≡ out.old.items) }
    {
        match find(self.section, self.interfaces.as_slice(), octets) {
            Ok(found) => self.take(&found, octets, out),
            Err(kind) => {
                if !is_last && is_short(kind) {
                    return Ok(0);
                }
                self.fail(kind, octets, out)
            }
        }
    }

    /// The same, by a short way where the block is a plain packet, as most are.
    #[inline(always)]
    fn take_block<A: Allocator>(
        &mut self,
        octets: &[u8],
        is_last: bool,
        out: &mut Vec<u8, A>,
    ) -> Result<usize, AllocError>
        requires blocks { self.old.stage ≡ Stage.Blocks }
        requires some { 1 ≤ length octets.now }
        ensures count { IfOk result (λ count. count ≤ length octets.now) }
        ensures goes_on { IfOk result (λ count. GoesOn step (reading self.old) (reading self.new)
            octets.now is_last count out.old.items out.new.items) }
        ensures header { self.new.has_header ≡ self.old.has_header }
        ensures done { IfOk result (λ count. IsOver step (reading self.new) octets.now is_last
            count out.old.items out.new.items) }
        ensures failed { OnErr result (self.new ≡ self.old) }
        ensures nothing { OnErr result (out.new.items ≡ out.old.items) }
    {
        if is_plain(self.section, self.interfaces.as_slice(), octets) {
            return self.take_plain(octets, out);
        }
        self.take_any_block(octets, is_last, out)
    }

    /// Takes the end between blocks. There is to be one block at least.
    fn take_end<A: Allocator>(
        &mut self,
        is_last: bool,
        out: &mut Vec<u8, A>,
    ) -> Result<usize, AllocError>
        requires { self.old.stage ≡ Stage.Blocks }
        ensures count { IfOk result (λ count. count ≡ 0) }
        ensures goes_on { IfOk result (λ count. GoesOn step (reading self.old) (reading self.new)
            [] is_last count out.old.items out.new.items) }
        ensures header { self.new.has_header ≡ self.old.has_header }
        ensures done { IfOk result (λ count. IsOver step (reading self.new) [] is_last count
            out.old.items out.new.items) }
        ensures failed { OnErr result (self.new ≡ self.old) }
        ensures nothing { OnErr result (out.new.items ≡ out.old.items) }
    {
        if !is_last || self.section.is_some() {
            return Ok(0);
        }
        self.fail(BlockKind::ShortBlock, &[], out)
    }

    /// Takes the first block, or the end.
    #[inline(always)]
    fn take_next<A: Allocator>(
        &mut self,
        octets: &[u8],
        is_last: bool,
        out: &mut Vec<u8, A>,
    ) -> Result<usize, AllocError>
        requires { self.old.stage ≡ Stage.Blocks }
        ensures count { IfOk result (λ count. count ≤ length octets.now) }
        ensures goes_on { IfOk result (λ count. GoesOn step (reading self.old) (reading self.new)
            octets.now is_last count out.old.items out.new.items) }
        ensures header { self.new.has_header ≡ self.old.has_header }
        ensures done { IfOk result (λ count. IsOver step (reading self.new) octets.now is_last
            count out.old.items out.new.items) }
        ensures failed { OnErr result (self.new ≡ self.old) }
        ensures nothing { OnErr result (out.new.items ≡ out.old.items) }
    {
        if octets.is_empty() {
            return self.take_end(is_last, out);
        }
        self.take_block(octets, is_last, out)
    }

    /// Takes what is left of a block that is passed over, or a part of it.
    fn take_rest<A: Allocator>(
        &mut self,
        passage: Passage,
        octets: &[u8],
        is_last: bool,
        out: &mut Vec<u8, A>,
    ) -> Result<usize, AllocError>
        requires { self.old.stage ≡ Stage.Passing passage }
        ensures count { IfOk result (λ count. count ≤ length octets.now) }
        ensures goes_on { IfOk result (λ count. GoesOn step (reading self.old) (reading self.new)
            octets.now is_last count out.old.items out.new.items) }
        ensures header { self.new.has_header ≡ self.old.has_header }
        ensures done { IfOk result (λ count. IsOver step (reading self.new) octets.now is_last
            count out.old.items out.new.items) }
        ensures failed { OnErr result (self.new ≡ self.old) }
        ensures nothing { OnErr result (out.new.items ≡ out.old.items) }
    {
        let left = passage.left as usize;
        if octets.len() >= left + 4 {
            if read_u32(passage.endian, &octets[left..]) != passage.length {
                return self.fail(BlockKind::BadLength, octets, out);
            }
            self.pass(passage.length);
            return Ok(left + 4);
        }
        if is_last {
            return self.fail(BlockKind::ShortBlock, octets, out);
        }
        let count = octets.len().min(left);
        self.stage = Stage::Passing(Passage {
            left: passage.left - count as u32,
            ..passage
        });
        Ok(count)
    }

    /// Takes what comes first, as far as it is in hand.
    #[inline(always)]
    fn advance<A: Allocator>(
        &mut self,
        octets: &[u8],
        is_last: bool,
        out: &mut Vec<u8, A>,
    ) -> Result<usize, AllocError>
        ensures count { IfOk result (λ count. count ≤ length octets.now) }
        ensures goes_on { IfOk result (λ count. GoesOn step (reading self.old) (reading self.new)
            octets.now is_last count out.old.items out.new.items) }
        ensures header { self.new.has_header ≡ self.old.has_header }
        ensures done { IfOk result (λ count. IsOver step (reading self.new) octets.now is_last
            count out.old.items out.new.items) }
        ensures failed { OnErr result (self.new ≡ self.old) }
        ensures nothing { OnErr result (out.new.items ≡ out.old.items) }
    {
        match self.stage {
            Stage::Blocks => self.take_next(octets, is_last, out),
            Stage::Passing(passage) => self.take_rest(passage, octets, is_last, out),
            Stage::Ended => Ok(octets.len()),
        }
    }

    /// Takes what comes behind the first octets, until enough is put or more is wanted. How many octets it took, the
    /// first ones included. Where it runs out of memory it stops.
    fn advance_more<A: Allocator>(
        &mut self,
        first: usize,
        octets: &[u8],
        is_last: bool,
        out: &mut Vec<u8, A>,
    ) -> usize
        requires { first ≤ length octets.now }
        ensures count { result ≤ length octets.now }
        ensures some { first ≤ result }
        ensures goes_on { GoesFrom step (reading self.old) (reading self.new) octets.now is_last
            first result out.old.items out.new.items }
        ensures header { self.new.has_header ≡ self.old.has_header }
    {
        let mut at = first;
        while at < octets.len() && out.len() < ENOUGH {
            match self.advance(&octets[at..], is_last, out) {
                Ok(0) | Err(_) => return at,
                Ok(count) => at += count,
            }
        }
        at
    }

    /// Puts the header, once an octet has come or none will come any more.
    #[tactic(auto, unfolding(capture::specs::Layout::spelled_header))]
    fn put_header<A: Allocator>(
        &mut self,
        octets: &[u8],
        is_last: bool,
        out: &mut Vec<u8, A>,
    ) -> Result<usize, AllocError>
        requires header { self.old.has_header ≡ false }
        requires nothing { out.old.items ≡ [] }
        ensures count { IfOk result (λ count. count ≡ 0) }
        ensures turned { IfOk result (λ count.
            IsTurned classic_of self.old self.new octets.now is_last count out.new.items) }
        ensures noted { IfOk result (λ count.
            IsNoted note_after self.old self.new octets.now is_last count) }
        ensures done { IfOk result (λ count. is_last ≡ true → out.new.items ≢ []) }
        ensures failed { OnErr result (self.new ≡ self.old) }
    {
        if octets.is_empty() && !is_last {
            return Ok(0);
        }
        out.extend_from_slice(&CLASSIC_HEADER)?;
        self.has_header = true;
        Ok(0)
    }
}

impl Translation for PcapngToClassic {
    ghost use Rattle.pcapng.specs.Reader.{reading, classic_of, note_after, note_of, IsNoted, IsAllNoted};

    ghost meaning = { classic_of };

    fn turn<A: Allocator>(
        &mut self,
        octets: &[u8],
        is_last: bool,
        out: &mut Vec<u8, A>,
    ) -> Result<usize, AllocError>
        requires { out.old.items ≡ [] }
        ensures taken { IfOk result (λ count. count ≤ length octets.now) }
        ensures turned { IfOk result (λ count.
            IsTurned classic_of self.old self.new octets.now is_last count out.new.items) }
        ensures done { IfOk result (λ count.
            IsDone classic_of self.new octets.now is_last count out.new.items) }
        ensures failed { OnErr result (self.new ≡ self.old) }

        // The note, too, is in the end that of all octets.
        ensures noted { IfOk result (λ count.
            IsNoted note_after self.old self.new octets.now is_last count) }
        ensures all_noted { IfOk result (λ count. IsAllNoted note_after note_of self.new octets.now
            is_last count out.new.items) }
    {
        if !self.has_header {
            return self.put_header(octets, is_last, out);
        }
        let first = self.advance(octets, is_last, out)?;
        if first == 0 {
            return Ok(0);
        }
        Ok(self.advance_more(first, octets, is_last, out))
    }

    fn is_over(&self) -> bool {
        match self.stage {
            Stage::Ended => self.has_header,
            _ => false,
        }
    }
}
