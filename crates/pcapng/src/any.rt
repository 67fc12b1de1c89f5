//! A capture of either format.

ghost use Rattle.std.specs.Prelude.{◌≡◌, ◌≤◌, [], length, IfOk, OnErr};
ghost use Rattle.translated.specs.Outlook.{IsTurned, IsDone};
ghost use Rattle.pcapng.specs.AnyFormat.{is_pcapng, settled, wants_more};

use crate::block::SECTION_HEADER;
use crate::fault::Note;
use crate::number::read_u32;
use crate::to_classic::PcapngToClassic;
use capture::Endian;
use std::alloc::{AllocError, Allocator};
use translated::Translation;

/// In which format a capture is.
#[derive(Clone, Copy, Debug, PartialEq, Eq)]
pub enum CaptureFormat {
    /// A classic pcap, of which nothing is asked here.
    Pcap,
    /// A pcapng.
    Pcapng,
    /// A pcapng if it begins with the four octets of a section header, and else a classic pcap.
    Auto,
}

/// Passes a classic capture on as it is, and turns one in pcapng into a classic one.
#[derive(Debug, Drop)]
pub struct AnyCapture {
    format: CaptureFormat,
    pcapng: PcapngToClassic,
}

fn is_pcapng(octets: &[u8]) -> bool
    ensures { result ≡ is_pcapng octets.now }
{
    octets.len() >= 4 && read_u32(Endian::Big, octets) == SECTION_HEADER
}

/// The format of these octets, where it is known or they say it.
fn settled(format: CaptureFormat, octets: &[u8]) -> CaptureFormat
    ensures { result ≡ settled format octets.now }
{
    match format {
        CaptureFormat::Auto if is_pcapng(octets) => CaptureFormat::Pcapng,
        CaptureFormat::Auto => CaptureFormat::Pcap,
        known => known,
    }
}

/// Whether more octets have to come before the format is known.
fn wants_more(format: CaptureFormat, octets: &[u8], is_last: bool) -> bool
    ensures { result ≡ wants_more format octets.now is_last }
{
    match format {
        CaptureFormat::Auto => !is_last && octets.len() < 4,
        _ => false,
    }
}

impl AnyCapture {
    ghost use Rattle.pcapng.specs.AnyFormat.{any_of, any_note_of};
    ghost use Rattle.pcapng.specs.Reader.{IsNew};

    /// Before the first octet of a capture in this format.
    pub fn new(format: CaptureFormat) -> AnyCapture
        ensures format { result.format ≡ format }
        ensures pcapng { IsNew result.pcapng }
    {
        AnyCapture {
            format,
            pcapng: PcapngToClassic::new(),
        }
    }

    /// What is noted so far. Of a classic capture nothing is.
    pub fn note(&self) -> Note
        ensures { result ≡ any_note_of self.now }
    {
        self.pcapng.note()
    }
}

impl Translation for AnyCapture {
    ghost use Rattle.pcapng.specs.AnyFormat.{any_of, any_note_after, any_note_of};
    ghost use Rattle.pcapng.specs.Reader.{IsNoted, IsAllNoted};

    ghost meaning = { any_of };

    fn turn<A: Allocator>(
        &mut self,
        octets: &[u8],
        is_last: bool,
        out: &mut Vec<u8, A>,
    ) -> Result<usize, AllocError>
        requires { out.old.items ≡ [] }
        ensures taken { IfOk result (λ count. count ≤ length octets.now) }
        ensures turned { IfOk result (λ count.
            IsTurned any_of self.old self.new octets.now is_last count out.new.items) }
        ensures done { IfOk result (λ count.
            IsDone any_of self.new octets.now is_last count out.new.items) }
        ensures failed { OnErr result (self.new ≡ self.old) }
        ensures noted { IfOk result (λ count.
            IsNoted any_note_after self.old self.new octets.now is_last count) }
        ensures all_noted { IfOk result (λ count. IsAllNoted any_note_after any_note_of self.new
            octets.now is_last count out.new.items) }
    {
        if wants_more(self.format, octets, is_last) {
            return Ok(0);
        }
        let format = settled(self.format, octets);
        if let CaptureFormat::Pcapng = format {
            let count = self.pcapng.turn(octets, is_last, out)?;
            self.format = format;
            return Ok(count);
        }
        out.extend_from_slice(octets)?;
        self.format = format;
        Ok(octets.len())
    }

    fn is_over(&self) -> bool {
        match self.format {
            CaptureFormat::Pcapng => self.pcapng.is_over(),
            _ => false,
        }
    }
}
