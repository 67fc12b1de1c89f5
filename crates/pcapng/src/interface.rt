//! Interfaces, as a section describes them.

ghost use Rattle.std.specs.Prelude.{◌≡◌, ◌≤◌, ◌<◌, length, Ok, Err, IfOk, IfErr};
ghost use Rattle.pcapng.specs.Interfaces.{with_option, first_option, told, with_options, interface_of};

use crate::fault::BlockKind;
use crate::number::{read_u16, read_u32, read_u64};
use capture::Endian;

/// The option that ends a list of options.
const END_OF_OPTIONS: u16 = 0;

/// The option that says how many ticks a second has.
const RESOLUTION: u16 = 9;

/// The option that says how many seconds are added to each moment.
const OFFSET: u16 = 14;

/// The resolution where nothing is said: microseconds.
const MICROSECONDS: u8 = 6;

/// An interface that frames were captured at.
#[derive(Clone, Copy, Debug, Default)]
pub(crate) struct Interface {
    /// What kind of frames it has: 1 is Ethernet.
    pub link: u16,
    /// The most octets of a frame that were captured; 0: no limit.
    pub snap: u32,
    /// How many ticks a second has: 10 to this power, or from 128 on, 2 to the power of the rest.
    pub resolution: u8,
    /// How many seconds are added to each moment, in two's complement.
    pub offset: u64,
}

/// Takes what an option says of the interface, where it is asked for.
fn take_value(
    endian: Endian,
    code: u16,
    value: &[u8],
    interface: &mut Interface,
) -> Result<(), BlockKind>
    ensures told { IfOk result (λ _.
        with_option endian code (length value.now) value.now interface.old ≡ Ok interface.new) }
    ensures fault { IfErr result (λ kind.
        with_option endian code (length value.now) value.now interface.old ≡ Err kind) }
{
    if code == RESOLUTION {
        if value.len() != 1 {
            return Err(BlockKind::BadOption);
        }
        interface.resolution = value[0];
    } else if code == OFFSET {
        if value.len() != 8 {
            return Err(BlockKind::BadOption);
        }
        interface.offset = read_u64(endian, value);
    }
    Ok(())
}

/// Takes the first option. How many octets it has, or all where no other counts.
fn take_option(endian: Endian, octets: &[u8], interface: &mut Interface) -> Result<usize, BlockKind>
    requires { 0 < length octets.now }
    ensures told { IfOk result (λ count. first_option endian interface.old octets.now
        ≡ told count (Ok interface.new)) }
    ensures count { IfOk result (λ count. (0 < count) × (count ≤ length octets.now)) }
    ensures fault { IfErr result (λ kind. (first_option endian interface.old octets.now).state
        ≡ Err kind) }
{
    if octets.len() < 4 {
        return Err(BlockKind::BadOption);
    }
    let code = read_u16(endian, octets);
    if code == END_OF_OPTIONS {
        return Ok(octets.len());
    }
    let size = usize::from(read_u16(endian, &octets[2..]));
    let count = 4 + size.div_ceil(4) * 4;
    if octets.len() < count {
        return Err(BlockKind::BadOption);
    }
    take_value(endian, code, &octets[4..4 + size], interface)?;
    Ok(count)
}

/// An interface with what these options say.
fn with_options(endian: Endian, plain: Interface, octets: &[u8]) -> Result<Interface, BlockKind>
    ensures { result ≡ with_options endian plain octets.now }
{
    let mut interface = plain;
    let mut at = 0;
    while at < octets.len() {
        match take_option(endian, &octets[at..], &mut interface) {
            Ok(count) => at += count,
            Err(kind) => return Err(kind),
        }
    }
    Ok(interface)
}

/// The interface that a whole block describes.
pub(crate) fn interface_of(endian: Endian, block: &[u8]) -> Result<Interface, BlockKind>
    requires { 20 ≤ length block.now }
    ensures { result ≡ interface_of endian block.now }
{
    let plain = Interface {
        link: read_u16(endian, &block[8..]),
        snap: read_u32(endian, &block[12..]),
        resolution: MICROSECONDS,
        offset: 0,
    };
    let end = block.len() - 4;
    with_options(endian, plain, &block[16..end])
}
