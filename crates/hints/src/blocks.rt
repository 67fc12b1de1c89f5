//! Blocks of a capture in pcapng that can't be read (draft-ietf-opsawg-pcapng).

use pcapng::{BlockFault, BlockKind};
use port_text::answer_text::{Part, WriteFault, put_parts};
use std::io::Write;
use text::octet_writer::put;

/// The name of a fault.
fn name_of(kind: BlockKind) -> &'static [u8] {
    match kind {
        BlockKind::ShortBlock => b"ShortBlock",
        BlockKind::NotPcapng => b"NotPcapng",
        BlockKind::BadByteOrder => b"BadByteOrder",
        BlockKind::BadLength => b"BadLength",
        BlockKind::LongRecord => b"LongRecord",
        BlockKind::BadVersion => b"BadVersion",
        BlockKind::TooManyInterfaces => b"TooManyInterfaces",
        BlockKind::BadOption => b"BadOption",
        BlockKind::NoInterface => b"NoInterface",
        BlockKind::BadLink(_) => b"BadLink",
        BlockKind::BadCaptured => b"BadCaptured",
        BlockKind::BadMoment => b"BadMoment",
    }
}

/// What helps with it.
fn help_of(kind: BlockKind) -> &'static [u8] {
    match kind {
        BlockKind::ShortBlock => b"    the capture ends within this block: it was cut\n",
        BlockKind::NotPcapng =>
            b"    a pcapng file begins with 0a 0d 0d 0a: --format auto reads either format\n",
        BlockKind::BadByteOrder => b"    a section says its order of octets by 1a 2b 3c 4d\n",
        BlockKind::BadLength =>
            b"    a block says its length at both ends, at least 12 and a multiple of 4: the capture is damaged from here on\n",
        BlockKind::LongRecord => b"    a packet has at most 262144 octets, and its block 524288\n",
        BlockKind::BadVersion => b"    the version of a section is 1\n",
        BlockKind::TooManyInterfaces => b"    a section has at most 256 interfaces\n",
        BlockKind::BadOption =>
            b"    an option of the interface goes past its block, or has a wrong length\n",
        BlockKind::NoInterface =>
            b"    the packet names an interface that its section has not described\n",
        BlockKind::BadLink(_) =>
            b"    packets are of Ethernet, link type 1: capture at an Ethernet interface, or filter by interface\n",
        BlockKind::BadCaptured => b"    the packet says more octets than its block has\n",
        BlockKind::BadMoment => b"    a moment lies from 1970 on, and before 2106\n",
    }
}

/// Writes which block of a capture can't be read and why, and, where that is wanted, what helps.
pub fn put_block_fault<W: Write>(
    writer: &mut W,
    fault: &BlockFault,
    explain: bool,
) -> Result<(), WriteFault> {
    put_parts(
        writer,
        &[
            Part::Text(b"taprio_port: capture block "),
            Part::Number(u128::from(fault.number)),
            Part::Text(b" at octet "),
            Part::Number(u128::from(fault.at)),
            Part::Text(b": "),
            Part::Text(name_of(fault.kind)),
        ],
    )?;
    if let BlockKind::BadLink(link) = fault.kind {
        put_parts(writer, &[Part::Text(b" "), Part::Number(u128::from(link))])?;
    }
    put(writer, b"\n")?;
    if explain {
        put(writer, help_of(fault.kind))?;
    }
    Ok(())
}

/// Writes how many packets came at a moment that is no whole number of nanoseconds.
pub fn put_rounded<W: Write>(writer: &mut W, rounded: u64) -> Result<(), WriteFault> {
    put_parts(
        writer,
        &[
            Part::Text(b"taprio_port: warning: moments rounded down to whole nanoseconds: "),
            Part::Number(u128::from(rounded)),
            Part::Text(b"\n"),
        ],
    )
}
